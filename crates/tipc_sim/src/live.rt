//! Live runs: the callers of several nodes, each in a thread of its own, follow a plan, and what the nodes' journals
//! tell is audited.
//!
//! - `words` (the plan that the program's words are), `nodes` (the nodes are run, and taken out of their locks), `judging` (what their journals
//!   show), `counts` and `reports` (what is written of them), `runs` (the whole of it).
//! - `standard` (over a medium in memory or UDP, by the system's clock, to standard output).

mod counts;
mod judging;
mod nodes;
mod reports;
mod runs;
mod standard;
mod words;

pub use runs::run_live;
pub use standard::run_bearers;
pub use words::live_plan;
