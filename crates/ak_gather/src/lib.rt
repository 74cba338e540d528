//! The loopers of a run at its end. Main joins the thread of each. Its own seats take in what the thread's seats know, and
//! what the doors know that the roster kept and that loopers gave back. Then main keeps the whole list of each object. What
//! is known of a joined thread is all that it did; so the lists have the diary of each looper, and say who made their
//! entries. Joining waits for a thread to end, and keeping a list waits for a turn. No clause promises that either comes.
#![tactic(auto)]

mod gathering;
mod member;

pub use gathering::{
    AllJoined, Joined, join_all, keep_all, keep_book, keep_roster, take_all_ways, take_kept,
};
pub use member::{Life, Lives, Member};
