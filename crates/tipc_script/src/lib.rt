//! The lines of a script: their grammar, and the place and reason of a line that is not in it.
//!
//! - Lines: `lines` (what a line asks for), `parsing` (how it is read), `faults` (what is wrong with it, and where).
//! - Tokens: `tokens` (those of a line, with the place of each), `numbers` (numbers), `body` (the body of a message).
//! - Behind the first words: `forms` (of nodes, links and frames), `services` (of sockets and services), `subscriptions`
//!   (of subscriptions), `sends` (of messages that are sent).
#![tactic(auto)]

mod body;
mod faults;
mod forms;
mod lines;
mod numbers;
mod parsing;
mod sends;
mod services;
mod subscriptions;
mod tokens;

pub use body::is_visible;
pub use faults::{LineFault, LineWhy};
pub use lines::{Command, Line, NodeToken, SendForm};
pub use numbers::number_in;
pub use parsing::{grammar, is_remark, parse_line};
