//! The specifiers of a scripting message: which property of which handler it speaks of, and which of its
//! elements. The last one added is current, and popping it makes the one added before it current.
//! What `add_specifier` adds, `current` gives back. Nothing here waits, and nothing is shared. (The Be Book,
//! The Application Kit, Scripting.)
#![tactic(auto)]

mod laws;
mod popping;
mod reading;
mod writing;

pub use ak_message::{At, AtRef, Specifier, SpecifierRef};
pub use laws::{
    a_pop_leaves_one_less, a_pop_shows_the_one_before, specifiers_are_read_as_shown,
    written_specifiers_are_read,
};
pub use popping::{left, pop};
pub use reading::{BadScript, current};
pub use writing::add_specifier;
