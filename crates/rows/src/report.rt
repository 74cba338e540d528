ghost use Rattle.std.specs.Prelude.{◌≡◌, IfOk};
ghost use Rattle.rows.specs.Report as report;

use crate::tally::Tally;
use ak_base::{Bytes, NoMemory, print_uint};
use std::alloc::Global;
use std::io;
use std::io::ErrorKind;

fn no_memory(_error: NoMemory) -> io::Error {
    io::Error::from(ErrorKind::OutOfMemory)
}

/// What is printed of a file, a line in bytes: how many of its rows are told as they say. `NoMemory` where
/// memory ran out.
pub fn file_text(alloc: Global, name: &[u8], tally: Tally) -> Result<Bytes, NoMemory>
    ensures { IfOk result (λ text. text ≡ report.file_text name.now tally.told tally.rows) }
{
    let mut text = Bytes::new(alloc);
    text.extend(name)?;
    text.extend(b": ")?;
    print_uint(tally.told, &mut text)?;
    text.extend(b" of ")?;
    print_uint(tally.rows, &mut text)?;
    text.extend(b" rows are told as they say")?;
    text.push(b'\n')?;
    Ok(text)
}

/// What is printed of a row that is told otherwise than it says. It names the file, the number of the row's
/// first line, counted from 1, what is told of it, and what it says. `NoMemory` where memory ran out.
pub fn row_text(
    alloc: Global,
    name: &[u8],
    line: u64,
    told: &[u8],
    wanted: &[u8],
) -> Result<Bytes, NoMemory>
    ensures { IfOk result (λ text. text ≡ report.row_text name.now line told.now wanted.now) }
{
    let mut text = Bytes::new(alloc);
    text.extend(name)?;
    text.extend(b": line ")?;
    print_uint(line, &mut text)?;
    text.extend(b" is told as")?;
    text.push(b'\n')?;
    text.extend(told)?;
    text.push(b'\n')?;
    text.extend(b"and says")?;
    text.push(b'\n')?;
    text.extend(wanted)?;
    text.push(b'\n')?;
    Ok(text)
}

// A text that is not UTF-8 is told as that.
fn print_text(rt: &impl Print, text: &[u8]) -> io::Result<()> {
    match str::from_utf8(text) {
        Ok(text) => print!(rt; "{text}"),
        Err(_) => println!(rt; "no text"),
    }
}

/// Prints what is printed of a file. `OutOfMemory` where memory ran out, else the error of the printing.
pub fn print_file(rt: &(impl Print + AllocGlobal), name: &str, tally: Tally) -> io::Result<()> {
    let text = file_text(rt.alloc(), name.as_bytes(), tally).map_err(no_memory)?;
    print_text(rt, text.as_slice())
}

/// Prints what is printed of a row that is told otherwise, or `no text` where that is not UTF-8. `OutOfMemory`
/// where memory ran out, else the error of the printing.
pub fn print_row(
    rt: &(impl Print + AllocGlobal),
    name: &str,
    line: u64,
    told: &[u8],
    wanted: &[u8],
) -> io::Result<()> {
    let text = row_text(rt.alloc(), name.as_bytes(), line, told, wanted).map_err(no_memory)?;
    print_text(rt, text.as_slice())
}
