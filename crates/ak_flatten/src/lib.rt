//! A message as flat text, and back. Each message has one flat text, which holds its code and its fields, and
//! not how many of its specifiers are popped. One of over 4,096 bytes is neither written nor read. Of bytes
//! that are no flat text the first fault from left to right is told, with its place. An `Item` is what a port
//! holds of a message: the flat text, for whom it is, and what is owed to its sender. Nothing here waits, and
//! nothing is shared. (The Be Book, The Application Kit, BMessage: Flatten() and Unflatten(). The form of the
//! bytes is this project's own.)
#![tactic(auto)]

mod fault;
mod head;
mod input;
mod item;
mod laws;
mod length;
mod reading;
mod writing;

pub use fault::{FlatFault, FlatKind, FlattenFault, ItemFault, UnflattenFault};
pub use item::{Duty, Item, Taken};
pub use laws::{one_spelling, spelled_or_faulty, written_is_read};
pub use length::flat_len;
pub use reading::unflatten;
pub use writing::{FLAT_LIMIT, flatten};
