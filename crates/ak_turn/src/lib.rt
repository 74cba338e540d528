//! Turns of a shared object. An object is a book of the entries that threads made, which stand in one list.
//! Each has a stamp by its thread's clock and the object's last stamp. A thread has a seat at the object's
//! lock. At its turn it has the book and knows the whole list, in which the entries by its thread are just
//! those that it made. The list has one history, of which every seat has seen a beginning. `lock`, `ready`,
//! `wait_past` and `wait_at_bell` may wait; that a wait ends is not promised.
#![tactic(auto)]

mod bells;
mod book;
mod clock;
mod laws;
mod lock;
mod plays;
mod seat;
mod steps;
mod turn;
mod view;
mod waiting;

pub use bells::{BELL_COUNT, Bells};
pub use book::Book;
pub use clock::Clock;
pub use laws::{fronts_go_on, makings_go_on, new_seats_know, what_was_done_is_noted};
pub use lock::TurnLock;
pub use seat::Seat;
pub use turn::Turn;
pub use waiting::rest_for_ever;
