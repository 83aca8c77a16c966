//! Generated load: a script of four nodes that find each other, send to each other by name and receive, while bearers
//! are cut and mended. A number stands for one such script, always the same. (This project's profile.)
#![tactic(auto)]

mod draws;
mod load;

pub use load::{generate, loads_are_sound};
