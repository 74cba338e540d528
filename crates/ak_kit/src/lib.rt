//! The program as a function. With `run` it reads a source, carries out the script that it gives, with a thread for each
//! looper and each session of a block, and writes to a sink the line of each statement. With `read` it tells by one line how
//! much the script has, and runs nothing. With `gen N` it reads nothing: it makes the script of a number, carries it out in
//! the same way, and tells by one line what came of it. An input that is the text of no script is refused with its first
//! fault, and nothing is launched. Every ending has its cause, and what was written at each ending is said. What holds of
//! every run holds of this one: each message was dispatched once and by rule, and each that waits got one reply.
#![tactic(auto)]

mod closing;
mod commands;
mod gen_line;
mod generate;
mod input;
mod journal;
mod kit_end;
mod laws;
mod nowhere;
mod read;
mod run;
mod summary;
mod top;
mod words;

pub use kit_end::KitEnd;
pub use read::kit_read;
pub use top::kit;
