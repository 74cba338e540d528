//! The journal of a run: all that was done in it, one line for each entry of each object. An entry has one
//! line, and is read back from that line and from no other. A call that prints adds the line whole, or nothing
//! where memory ran out. Nothing here waits, and nothing is shared.
#![tactic(auto)]

mod entry;
mod laws;
mod printing;
mod reading;

pub use entry::{Entry, Event, ObjectName};
pub use laws::{entries_are_lines, lines_tell_entries, plain_is_legible};
pub use printing::print_entry;
pub use reading::read_entry;
