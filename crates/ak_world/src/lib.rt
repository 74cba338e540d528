//! The objects of a run as one: all that was done at each of them, in one list, by the stamps. It reads what a run left
//! behind. Nothing here waits, and nothing is shared.
#![tactic(auto)]

mod listing;
mod merging;

pub use merging::merge;
