//! Blocks of sessions: main opens them and starts a thread for each, joins them in order, and closes them. What each thread did is told line
//! by line.
#![tactic(auto)]

mod blocks;
mod starting;

pub use blocks::{Cut, Heard, together};
