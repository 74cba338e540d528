//! What a session's thread does with its lines: it carries them out one after the other, each with its outcome and what is told of it, as
//! far as it finds memory. What it did is told step by step, and is a session's diary.
#![tactic(auto)]

mod asking;
mod came;
mod carrying;
mod job;
mod locking;
mod outcome;
mod posting;
mod refusing;

pub use came::Came;
pub use carrying::run_session;
pub use job::{SessionEnd, SessionJob};
pub use outcome::Outcome;
