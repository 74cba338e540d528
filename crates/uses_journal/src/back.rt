//! What comes of a line that is read and printed.
use ak_base::{Bytes, NoMemory};
use ak_journal::{print_entry, read_entry};
use std::alloc::Global;

/// What comes of a line: it is none; it is read, and what was read is printed so; or it is printed otherwise.
#[derive(Clone, Copy, PartialEq, Eq, Debug)]
pub enum Came {
    Refused,
    Back,
    Otherwise,
}

/// Reads the line, and prints what was read.
pub fn come(alloc: Global, line: &[u8]) -> Result<Came, NoMemory> {
    let Some(entry) = read_entry(alloc, line)? else {
        return Ok(Came::Refused);
    };
    let mut out = Bytes::new(alloc);
    print_entry(alloc, &entry, &mut out)?;
    Ok(if out.as_slice() == line {
        Came::Back
    } else {
        Came::Otherwise
    })
}
