//! The lines of a report: the bytes of each answer, of the lines that end a report early, of the one that begins that of a generated script, and of
//! those of a live run.
#![tactic(auto)]

mod answers;
mod bodies;
mod limits;
mod links;
mod live;
mod printing;
mod tables;
mod told;
mod words;

pub use limits::Which;
pub use live::{Verdict, print_counts, print_plan, print_verdict};
pub use printing::{print, print_bad, print_limit, print_seed};
pub use told::Told;
pub use words::number_in;
