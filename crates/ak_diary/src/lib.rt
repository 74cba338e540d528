//! What the threads of a run did, as definitions that the layers above cite. A history is the list of one object, as
//! its machine allows it. A diary is all that one thread did, in order: each entry that it made, with all that stood
//! before it in its object, and what it saw where nothing was left to enter. Here stands what the diary of a looper's
//! thread may be, turn by turn, and as laws what it tells of the lists of the looper's port and desk: the messages that
//! the looper dispatched, followed by those that it left, are those that its port accepted, and each was dispatched as
//! the rules say. There is no thread here, and no lock.
#![tactic(auto)]

mod histories;
mod laws;

pub use histories::Histories;
pub use laws::{accepted_is_dispatched_then_left, each_is_dispatched_by_rule};
