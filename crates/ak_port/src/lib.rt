//! What loopers and senders share. A port holds messages for one taker, in the order in which they were
//! written, until they are taken. What was accepted is what was taken, then what is pending. A reply book has
//! the slots that waiting senders open. Each is filled or cancelled at most once, and its opener alone takes
//! what it was filled with. Each call is one entry of the object's one history, or none. Its answer is the one
//! that the object's machine gives at the entry's place. Calls may wait; that a wait ends is not promised.
#![tactic(auto)]

mod port;
mod port_book;
mod port_entry;
mod port_laws;
mod reply_book;
mod reply_calls;
mod reply_entry;
mod reply_kept;
mod reply_laws;
mod reply_slot;
mod taker_laws;

pub use ak_base::CAPACITY_LIMIT;
pub use port::{LIFE_LIMIT, Port, close, make, take, write, write_at_turn};
pub use port_book::PortBook;
pub use port_entry::{CloseAnswer, PortEntry, PortEvent, TakeAnswer, WriteAnswer};
pub use port_laws::{
    a_write_has_one_answer, nothing_is_written_after_shut, ports_stay_within_limits,
    written_is_taken_or_pending,
};
pub use reply_book::ReplyBook;
pub use reply_calls::{cancel, fill, fill_none, open_ask, wait_for};
pub use reply_entry::{CancelAnswer, FillAnswer, ReplyEntry, ReplyEvent};
pub use reply_laws::slots_are_settled_once;
pub use taker_laws::{new_seats_can_take, nothing_comes_after_the_rest, takes_go_on};
