//! A session of a script: a thread beside main and the loopers. It looks running applications up, asks, posts and edits,
//! one call after the other. To each looper it gets its own door at the roster, once, before it first uses the looper's
//! port or desk. Each call tells, step by step, what the session did and what it was answered. A session waits for its
//! turns, for room, for replies and for loopers to start; that a wait ends is not promised. What it does through a door in
//! one turn, main does by the same two calls.
#![tactic(auto)]

mod answers;
mod door_calls;
mod editing;
mod finding;
mod laws;
mod reaching;
mod sending;
mod session;

pub use answers::{Edited, Found};
pub use door_calls::{edit_through, post_through};
pub use finding::{found_at, last_place};
pub use laws::ready_sessions_stand;
pub use session::Session;
