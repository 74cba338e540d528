//! Reads the rows of each `.rows` file beside it, in the order of their names, carries each out on a desk, and
//! prints of each file how many of its rows are told as they say, and each row that is told otherwise. A file
//! has descriptions of a looper and rows; each row is carried out on a new desk of the description before it.
//! A line that begins with `#` says nothing.
//!
//! A description is the lines of an application and then `desk NAME team T first F`: the looper of that name,
//! its team, and the number of the application's first looper. A row is lines up to an empty one: operations,
//! and behind each of them `= ` lines with what is told of it.
//!
//! | operation | what is told |
//! |---|---|
//! | `send [to TOKEN] [team N] [dropped] [popped N] [forwarded N] [slot N] [back LOOPER.TARGET] MESSAGE` | the first want, or the end |
//! | `hear team N first N`, `no team`, `written N`, `full`, `closed`, `spent`, `too long`, `reply MESSAGE`, `no memory` | the next want, or the end |
//! | `starve ..` as `send` | the end: the message is given up |
//! | `add NAME`, `remove TOKEN`, `next TOKEN [TOKEN]`, `prefer [TOKEN]` | the answer of the edit |
//! | `time N` | nothing: that is the clock's time now |
//! | `look` | each handler with its next one and the values of its properties, and the preferred one |
//! | `list` | each entry of the desk's list |
//!
//! An answer that is none to the want, or that nothing waits for, is told as `no answer`, and an operation that
//! may not come there or is none as `no operation`; either ends the row.
#![tactic(auto)]

mod bench;
mod conditions;
mod dispatching;
mod editing;
mod ending;
mod handlers;
mod operation;
mod place;
mod reading;
mod running;
mod stop;
mod telling;
mod values;
mod wants;
mod words;

use rows::file_names;
use std::{fs, io};

fn main(rt: HostRuntime) -> io::Result<()> {
    for name in &file_names(&rt, ".rows")? {
        let file = fs::read(&rt, name.as_str())?;
        reading::check_file(&rt, name.as_str(), &file)?;
    }
    Ok(())
}
