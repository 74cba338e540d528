//! Reads the rows of each `.rows` file beside it, in the order of their names. A row is the lines of a
//! description, and then a line of `= ` and what is told of them: the applications, or the first line with a
//! fault. Prints the file's name and how many of its rows are told so, and of each row that is told otherwise the
//! number of its first line, what is told, and what it says.
#![tactic(auto)]

mod telling;

use ak_base::{Bytes, NoMemory};
use ak_describe::{AppText, DescribeFault, read_description};
use ak_input::{InputLines, LinesFault, split_lines};
use rows::{FileLine, Tally, file_lines, file_names, print_file, print_row};
use std::alloc::Global;
use std::io::ErrorKind;
use std::{fs, io};
use telling::{tell_apps, tell_fault, tell_kind};

// What the last line of a row begins with.
const ANSWER: &[u8; 2] = b"= ";

fn no_memory(_error: NoMemory) -> io::Error {
    io::Error::from(ErrorKind::OutOfMemory)
}

fn no_lines(fault: LinesFault) -> io::Error {
    match fault {
        LinesFault::TooLong { .. } => io::Error::from(ErrorKind::InvalidData),
        LinesFault::NoMemory => io::Error::from(ErrorKind::OutOfMemory),
    }
}

// What is described, or the first line with a fault, told.
fn told(alloc: Global, input: &InputLines) -> Result<Bytes, NoMemory> {
    let mut told = Bytes::new(alloc);
    match read_description(alloc, input.lines.as_slice()) {
        Ok(apps) => tell_read(alloc, &mut told, &apps, input)?,
        Err(DescribeFault::NoMemory) => return Err(NoMemory),
        Err(fault) => tell_fault(alloc, &mut told, fault)?,
    }
    Ok(told)
}

// A line without words is told of where nothing is wrong with the lines before it.
fn tell_read(
    alloc: Global,
    told: &mut Bytes,
    apps: &[AppText],
    input: &InputLines,
) -> Result<(), NoMemory> {
    match &input.fault {
        Some(fault) => tell_kind(alloc, told, fault.line, fault.kind),
        None => tell_apps(alloc, told, apps),
    }
}

// The bytes without the end of their last line.
fn without_end(bytes: &[u8]) -> &[u8] {
    match bytes.strip_suffix(b"\n") {
        Some(front) => front,
        None => bytes,
    }
}

// The lines of a row, and the number of the first of them, 0 where there are none.
#[derive(Drop)]
struct Row {
    first: u64,
    input: Bytes,
}

impl Row {
    fn new(alloc: Global) -> Row {
        Row {
            first: 0,
            input: Bytes::new(alloc),
        }
    }

    fn begin_at(&mut self, line: u64) {
        if self.first == 0 {
            self.first = line;
        }
    }

    fn take(&mut self, line: FileLine) -> Result<(), NoMemory> {
        self.begin_at(line.number);
        self.input.extend(line.text)?;
        self.input.push(b'\n')
    }
}

// Prints the row where it is told otherwise than by this answer, and says whether it is told so.
fn check_row(
    rt: &(impl Print + AllocGlobal),
    name: &str,
    row: &Row,
    answer: &[u8],
) -> io::Result<bool> {
    let lines = split_lines(rt.alloc(), without_end(row.input.as_slice())).map_err(no_lines)?;
    let told = told(rt.alloc(), &lines).map_err(no_memory)?;
    if told.as_slice() == answer {
        return Ok(true);
    }
    print_row(rt, name, row.first, told.as_slice(), answer)?;
    Ok(false)
}

fn check_rows(rt: &(impl Print + AllocGlobal), name: &str, file: &[u8]) -> io::Result<()> {
    let mut tally = Tally::new();
    let mut row = Row::new(rt.alloc());
    for line in &file_lines(rt.alloc(), file).map_err(no_memory)? {
        match line.text.strip_prefix(ANSWER.as_slice()) {
            Some(answer) => {
                row.begin_at(line.number);
                tally.count(check_row(rt, name, &row, answer)?);
                row = Row::new(rt.alloc());
            }
            None => row.take(*line).map_err(no_memory)?,
        }
    }
    print_file(rt, name, tally)
}

fn main(rt: HostRuntime) -> io::Result<()> {
    for name in &file_names(&rt, ".rows")? {
        let file = fs::read(&rt, name.as_str())?;
        check_rows(&rt, name.as_str(), &file)?;
    }
    Ok(())
}
