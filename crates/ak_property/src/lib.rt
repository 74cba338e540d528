//! The properties that a handler has, as a table of rows. A row has a name, a kind, the commands and forms
//! that it takes, and how it is used. The first row that fits a command counts. `suite_message` tells the
//! suites and properties of a handler. Nothing here waits, and nothing is shared. (The Be Book, The
//! Application Kit, BPropertyInfo.)
#![tactic(auto)]

mod handler_row;
mod laws;
mod suites;
mod table;

pub use handler_row::HandlerRow;
pub use laws::{rows_fit_as_told, the_first_fitting_row_is_found};
pub use suites::suite_message;
pub use table::{PropertyRow, PropertyTable, ROW_LIMIT, RowFault};
