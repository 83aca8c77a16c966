//! Runs a script over a world of TIPC nodes: reads lines from standard input, does them one after the other, and
//! answers each with one line on standard output. Or it lets threads call the nodes of a live run, and audits what
//! their journals tell.
#![tactic(auto)]

mod closing;
mod dissecting;
mod frames;
mod lines;
mod linking;
mod live;
mod messages;
mod notes;
mod reading;
mod running;
mod scripts;
mod standard;
mod status;
mod streams;
mod words;
mod writing;

pub use live::{live_plan, run_live};
pub use running::run;
use standard::run_standard;
pub use status::Status;
use std::env;
use std::process::ExitCode;

fn main(rt: HostRuntime) -> ExitCode {
    let status = run_standard(&rt, &rt, env::args(&rt));
    ExitCode::from(status.code())
}
