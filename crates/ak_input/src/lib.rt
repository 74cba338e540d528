//! The texts of an input: its lines, their words, and the numbers, codes, values and messages that are written in them.
//! Each reader answers what its text says, or why it says nothing; of a limit it answers that the limit is passed.
//! What is printed of a message is read back as that message. Nothing here waits, and nothing is shared.
#![tactic(auto)]

mod app_word;
mod laws;
mod line;
mod lines;
mod marks;
mod parse_fault;
mod payload;
mod pieces;
mod quoted;
mod reading;
mod words;

pub use app_word::{read_app_word, read_launch_word};
pub use laws::{one_meaning, printed_is_written, printed_messages_are_read, written_is_read};
pub use line::{Line, Word};
pub use lines::{
    INPUT_LIMIT, InputLines, LineFault, LinesFault, pieces_are_the_input, split_lines,
};
pub use parse_fault::ParseFault;
pub use payload::{ints_are_read, read_number, read_uint};
pub use quoted::{raws_are_read, texts_are_read};
pub use reading::{
    ReadValue, read_code, read_message, read_quoted, read_value, read_values, read_with_kind,
    split_field,
};
pub use words::{WordsFault, one_line, split_words};
