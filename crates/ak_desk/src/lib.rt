//! The desk of one looper: its handlers with all that they hold, and the list of all that was done on it. The
//! list has each message, with where it went, its answer words, and whether the looper was to end. It has each
//! change of the handlers, with its answer. The list tells the handlers: they are what it makes of the plan. A
//! message is carried out step by step; the desk asks for one answer from outside at a time. Nothing here waits
//! but `edit_shared`, which edits a desk that threads share and waits for its turn.
#![tactic(auto)]

mod book;
mod built_in;
mod desk;
mod edits;
mod ending;
mod entry;
mod laws;
mod made;
mod properties;
mod replies;
mod reserved;
mod shared;
mod task;

pub use desk::Desk;
pub use entry::{DeskEntry, DeskEvent, Edit, EditAnswer, EntryRoute, EntryWithItem};
pub use laws::{
    a_turn_dispatches, a_turn_gives_up, an_entry_tells_its_reply, the_dispatches_are_its_own,
    the_list_tells_the_handlers, what_fits_is_told,
};
pub use made::Made;
pub use shared::edit_shared;
