//! What is printed of messages, and of what a statement came to. A message has one text, whatever is in it, and
//! is read back from that text; an outcome has one line. Each call that prints adds its text whole, or nothing
//! where memory ran out. Nothing here waits, and nothing is shared.
#![tactic(auto)]

mod laws;
mod message;
mod payload;
mod reading;
mod told;

pub use laws::{outcomes_are_lines, printed_replies_are_read};
pub use message::print_message;
pub use reading::read_message;
pub use told::{Told, print_outcome};
