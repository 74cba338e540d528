//! What programs share that read rows of tests. The names with an ending in the folder that they run in; the
//! lines of a file with their numbers. How many rows were told as they say, and what is printed of a file, and
//! of a row that is told otherwise. Nothing here waits, and nothing is shared.
#![tactic(auto)]

mod files;
mod lines;
mod report;
mod tally;

pub use files::file_names;
pub use lines::{FileLine, file_lines};
pub use report::{file_text, print_file, print_row, row_text};
pub use tally::Tally;
