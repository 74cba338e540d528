//! Turns of a book that threads share.
mod calls;
mod four;
mod shared;
mod stamps;
mod tally;
mod two_locks;
