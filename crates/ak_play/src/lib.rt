//! Carries out scripts: one statement after the other, each with its outcome and the line of it.
#![tactic(auto)]

mod asking;
mod ending;
mod gathered;
mod launching;
mod locking;
mod play;
mod posting;
mod refusing;
mod run_end;
mod stepping;
mod stop;
mod telling;

pub use ak_lines::Outcome;
pub use play::run_script;
pub use run_end::{Lines, RunEnd, Short};
