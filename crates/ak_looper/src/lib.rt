//! The thread of one looper. It takes messages from the looper's port, dispatches each on the looper's desk in one turn,
//! does what the message asks for through doors to other loopers, and pays what is owed to the sender. It ends once
//! its port is shut, by itself or by others: it takes the rest, and each waiting sender that is left gets no reply.
//! What it did, as its seats tell, is one diary that the rules allow. A thread waits for its turns, for items, for room
//! and for replies; that a wait ends is not promised.
#![tactic(auto)]

mod at_work;
mod closing;
mod desk_turn;
mod door;
mod duty;
mod job;
mod kept_door;
mod life;
mod reach;
mod roster;
mod sending;
mod serving;
mod shared;
mod taking;

pub use door::Door;
pub use job::{EndKind, LooperEnd, LooperJob};
pub use kept_door::KeptDoor;
pub use life::run_looper;
pub use roster::{Roster, get_door};
pub use shared::Shared;
