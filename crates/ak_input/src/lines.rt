//! Splits an input into lines, and these into words.

ghost use Rattle.std.specs.Prelude.{◌≡◌, ◌+◌, ◌-◌, ◌<◌, ◌≤◌, ◌^◌, ◌∷◌, ◌==◌, ℕ, List, Err, length, IfOk, OnErr, Result, count_by};
ghost use Rattle.std.specs.Str.Lines.{strip_carriage_return};
ghost use Rattle.ak_base.specs.declared.ending.RefusalKind.{RefusalKind};
ghost use Rattle.ak_input.specs.declared.line.Word.{Word};
ghost use Rattle.ak_input.specs.Lines as reads;
ghost use Rattle.ak_input.specs.LineSeen.{SplitsInput, IsFaultOf};
ghost use Rattle.ak_input.specs.Limits.{input_limit};

use crate::line::Line;
use crate::marks::is_blank;
use crate::words::{WordsFault, split_words};
use ak_base::{Items, RefusalKind};
use std::alloc::{AllocFailed, Global};
use std::error::Error;
use std::fmt;

/// The longest input, in bytes.
pub const INPUT_LIMIT: usize = 1_048_576;

/// The first line that has no words, and why.
#[derive(Clone, Copy, Debug, PartialEq, Eq)]
pub struct LineFault {
    /// The number of the line in the input, counted from 1.
    pub line: u32,
    /// `NotUtf8` or `BadWord`.
    pub kind: RefusalKind,
}

impl fmt::Display for LineFault {
    ghost use Rattle.std.specs.Prelude.{Some};
    ghost use Rattle.ak_input.specs.LineFault.{text_of};

    ghost output = { λ fault. Some (text_of fault) };

    fn fmt<W: fmt::Write>(&self, f: &mut fmt::Formatter<W>) -> fmt::Result {
        let LineFault { line, kind } = self;
        write!(f, "line {line}: {kind}")
    }
}

impl Error for LineFault {}

/// The lines of an input that say something, up to the first that has no words.
#[derive(Debug, Drop)]
pub struct InputLines {
    /// Lines that say something, in the order of the input.
    pub lines: Items<Line>,
    /// The first line without words, where one is. Nothing of the lines behind it is answered.
    pub fault: Option<LineFault>,
}

/// Why an input has no lines. They are tested in this order.
#[derive(Clone, Copy, Debug, PartialEq, Eq)]
pub enum LinesFault {
    /// Over 1,048,576 bytes: the line that the first byte more stands in, counted from 1.
    TooLong { line: u32 },
    /// Memory ran out.
    NoMemory,
}

impl fmt::Display for LinesFault {
    fn fmt<W: fmt::Write>(&self, f: &mut fmt::Formatter<W>) -> fmt::Result {
        match self {
            LinesFault::TooLong { line } => write!(f, "line {line}: over 1,048,576 bytes"),
            LinesFault::NoMemory => f.write_str("no memory"),
        }
    }
}

impl Error for LinesFault {}

impl<T: Drop> From<AllocFailed<T>> for LinesFault {
    ghost use Rattle.std.specs.Prelude.{◌≡◌};
    ghost use Rattle.ak_input.specs.declared.lines.LinesFault.TheVariants as fault;

    ghost from_gives = { λ _ e. e ≡ fault.NoMemory };

    fn from(_error: AllocFailed<T>) -> LinesFault {
        LinesFault::NoMemory
    }
}

/// The lines of an input with their words. Lines end with LF or CR LF; a last line may end without. One that
/// is empty, or has only blanks, or whose first other byte is `#`, is counted and left out, whatever its
/// bytes are. Where a line has no words, those before it are answered with its fault. `TooLong` comes on the
/// number of bytes alone, and else only `NoMemory`.
pub fn split_lines(alloc: Global, input: &[u8]) -> Result<InputLines, LinesFault>
    ensures { SplitsInput result (reads.too_long input.now) (reads.lines_of input.now) }
{
    if input.len() > INPUT_LIMIT {
        let (front, _) = input.split_at(INPUT_LIMIT);
        return Err(LinesFault::TooLong {
            line: line_behind(front),
        });
    }
    Ok(lines_of(alloc, input)?)
}

/// The pieces of an input, with a LF between each two, are the input.
pub fn pieces_are_the_input()
    ensures { reads.PiecesAreTheInput }
{}

// How many LFs, and one: the number of the line that the byte behind these stands in.
fn line_behind(front: &[u8]) -> u32
    requires { length front.now ≤ input_limit }
    ensures { result ≡ count_by (λ b. b == 10) front.now + 1 }
{
    front.iter().filter(|b| **b == b'\n').count() as u32 + 1
}

fn lines_of(alloc: Global, input: &[u8]) -> Result<InputLines, LinesFault>
    requires { length input.now ≤ input_limit }
    ensures lines { IfOk result (λ lines. reads.lines_of input.now ≡ lines) }
    ensures only { OnErr result (result ≡ Err LinesFault.NoMemory) }
{
    let mut lines = Vec::new(alloc);
    let mut number = 1;
    let mut from = 0;
    for (i, b) in input.iter().enumerate() {
        if *b == b'\n' {
            if let Some(fault) = keep(alloc, &mut lines, number, &input[from..i])? {
                return Ok(InputLines {
                    lines: Items::from_vec(lines),
                    fault: Some(fault),
                });
            }
            number += 1;
            from = i + 1;
        }
    }
    let fault = keep(alloc, &mut lines, number, &input[from..])?;
    Ok(InputLines {
        lines: Items::from_vec(lines),
        fault,
    })
}

// Adds the line of this piece, if it says something, or tells its fault.
#[tactic(auto, using(crate::proofs::LineLoop::piece_kept))]
fn keep(
    alloc: Global,
    lines: &mut Vec<Line>,
    number: u32,
    piece: &[u8],
) -> Result<Option<LineFault>, LinesFault>
    requires { length piece.now < 2 ^ 32 - 1 }
    ensures kept { IfOk result (λ fault. (pieces : List (List ℕ)) →
        reads.lines_behind lines.old.items (reads.lines_from number (piece.now ∷ pieces))
        ≡ reads.kept lines.new.items fault (reads.lines_from (number + 1) pieces)) }
    ensures only { OnErr result (result ≡ Err LinesFault.NoMemory) }
{
    let line = without_return(piece);
    if is_silent(line) {
        return Ok(None);
    }
    match split_words(alloc, line) {
        Ok(words) => {
            lines.push(Line { number, words })?;
            Ok(None)
        }
        Err(fault) => Ok(Some(line_fault(number, fault)?)),
    }
}

// The line has no words, unless memory ran out.
fn line_fault(line: u32, fault: WordsFault) -> Result<LineFault, LinesFault>
    ensures fault { IfOk result (λ f. (f.line ≡ line) × ((split : Result (List Word) RefusalKind) → IsFaultOf fault split → split ≡ Err f.kind)) }
    ensures only { OnErr result (result ≡ Err LinesFault.NoMemory) }
{
    match fault {
        WordsFault::NotUtf8 => Ok(LineFault {
            line,
            kind: RefusalKind::NotUtf8,
        }),
        WordsFault::BadWord => Ok(LineFault {
            line,
            kind: RefusalKind::BadWord,
        }),
        WordsFault::NoMemory => Err(LinesFault::NoMemory),
    }
}

// One CR at a line's end is no part of it.
fn without_return(line: &[u8]) -> &[u8]
    ensures value { result.now ≡ strip_carriage_return line.now }
    ensures len { length result.now ≤ length line.now }
{
    if line.is_empty() || line[line.len() - 1] != b'\r' {
        line
    } else {
        &line[..line.len() - 1]
    }
}

fn is_comment(first: u8) -> bool
    ensures { result ≡ (first == 35) }
{
    first == b'#'
}

// Only blanks, or a `#` before every other byte that is none.
#[tactic(auto, using(crate::proofs::LineLoop::silences))]
fn is_silent(line: &[u8]) -> bool
    ensures { result ≡ reads.is_silent line.now }
{
    for b in line {
        if !is_blank(*b) {
            return is_comment(*b);
        }
    }
    true
}
