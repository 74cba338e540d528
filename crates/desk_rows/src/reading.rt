//! Parts a file into descriptions and rows, and checks each row.

use crate::running::told_of;
use ak_base::{Bytes, NoMemory};
use rows::{FileLine, Tally, file_lines, print_file, print_row};
use std::alloc::Global;
use std::io;
use std::io::ErrorKind;

/// What the lines of a file say so far.
#[derive(Drop)]
pub(crate) struct Reading {
    /// The lines of the last application, and the line that names its looper.
    pub application: Bytes,
    pub looper: Bytes,
    in_description: bool,
    /// The number of the row's first line, 0 where no row is begun, its operations, and what it says is told.
    first: u64,
    pub operations: Bytes,
    says: Bytes,
}

impl Reading {
    fn new(alloc: Global) -> Reading {
        Reading {
            application: Bytes::new(alloc),
            looper: Bytes::new(alloc),
            in_description: false,
            first: 0,
            operations: Bytes::new(alloc),
            says: Bytes::new(alloc),
        }
    }

    // Takes one line more. Whether a row ends with it.
    fn take(&mut self, line: FileLine) -> Result<bool, NoMemory> {
        if line.text.starts_with(b"#") {
            return Ok(false);
        }
        if self.in_description {
            self.describe(line.text)?;
            return Ok(false);
        }
        if line.text.is_empty() {
            return Ok(true);
        }
        self.take_of_row(line)?;
        Ok(false)
    }

    fn describe(&mut self, line: &[u8]) -> Result<(), NoMemory> {
        if line.starts_with(b"desk ") {
            self.in_description = false;
            return self.looper.extend(line);
        }
        put_line(&mut self.application, line)
    }

    fn take_of_row(&mut self, line: FileLine) -> Result<(), NoMemory> {
        if self.first == 0 && line.text.starts_with(b"app ") {
            self.application.clear();
            self.looper.clear();
            self.in_description = true;
            return put_line(&mut self.application, line.text);
        }
        if self.first == 0 {
            self.first = line.number;
        }
        match line.text.strip_prefix(b"= ".as_slice()) {
            Some(said) => put_line(&mut self.says, said),
            None => put_line(&mut self.operations, line.text),
        }
    }

    // No row is begun.
    fn forget_row(&mut self) {
        self.first = 0;
        self.operations.clear();
        self.says.clear();
    }
}

fn put_line(out: &mut Bytes, line: &[u8]) -> Result<(), NoMemory> {
    out.extend(line)?;
    out.push(b'\n')
}

fn no_memory(_error: NoMemory) -> io::Error {
    io::Error::from(ErrorKind::OutOfMemory)
}

// Carries out the row that was read, if there is one, and prints it where it is told otherwise than it says.
fn check_row(
    rt: &(impl Print + AllocGlobal),
    name: &str,
    reading: &mut Reading,
    tally: &mut Tally,
) -> io::Result<()> {
    if reading.first == 0 {
        return Ok(());
    }
    let told = told_of(rt.alloc(), reading).map_err(no_memory)?;
    let as_it_says = told.as_slice() == reading.says.as_slice();
    tally.count(as_it_says);
    if !as_it_says {
        print_row(
            rt,
            name,
            reading.first,
            told.as_slice(),
            reading.says.as_slice(),
        )?;
    }
    reading.forget_row();
    Ok(())
}

/// Checks each row of the file, and prints how many are told as they say.
pub(crate) fn check_file(
    rt: &(impl Print + AllocGlobal),
    name: &str,
    file: &[u8],
) -> io::Result<()> {
    let mut tally = Tally::new();
    let mut reading = Reading::new(rt.alloc());
    for line in &file_lines(rt.alloc(), file).map_err(no_memory)? {
        if reading.take(*line).map_err(no_memory)? {
            check_row(rt, name, &mut reading, &mut tally)?;
        }
    }
    check_row(rt, name, &mut reading, &mut tally)?;
    print_file(rt, name, tally)
}
