//! Scripts. `read_script` answers the script that an input is the text of: its applications, and the statements that
//! are to be carried out, or the first line with a fault, and the first of its faults. The first pass goes line
//! by line, through descriptions and statements; where it finds nothing, names are looked up. `generated` makes
//! the script of a number. Nothing here waits, and nothing is shared.
#![tactic(auto)]

mod amount;
mod block;
mod copies;
mod fault;
mod form;
mod front;
mod generating;
mod laws;
mod messages;
mod part;
mod reading;
mod said;
mod script;
mod so_far;
mod statement;
mod verb;
mod words;

pub use amount::count_lines;
pub use fault::ScriptFault;
pub use generating::{GENERATED_LIMIT, generated, generated_counts};
pub use laws::{
    bad_heys_are_told, hey_faults_are_told, lines_are_read, lines_are_split, one_script_or_refusal,
    scripts_are_read, scripts_are_whole, scripts_or_refusals, session_lines_are_read,
    statement_faults_are_told, statements_are_read,
};
pub use reading::read_script;
pub use script::{STATEMENT_LIMIT, Script};
pub use statement::{
    Hey, Launch, Lock, Post, SESSION_LIMIT, SessionLine, SessionLines, Statement, Together,
};
