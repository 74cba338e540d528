//! Reads hey lines: an application, a verb, and the properties, the data and the fields that it is sent with.
//! `read_hey` answers whom the line names and the message for it, or the column of the first word with which
//! the words so far begin no hey line. Nothing here waits, and nothing is shared. (The verbs are those of the
//! tool hey, and their codes those of The Be Book, The Application Kit, Scripting.)
#![tactic(auto)]

ghost use Rattle.std.specs.Prelude.{◌≡◌, ◌+◌, ◌-◌, ◌^◌, min, length, IfOk, IfErr, IsTrue};
ghost use Rattle.ak_input.specs.Written.{is_looked_up};
ghost use Rattle.ak_hey.specs.Answers.{Answers, Columns};
ghost use Rattle.ak_hey.specs.Hey as reads;
ghost use Rattle.ak_hey.specs.Laws.{Fits, IsLineOf, IsRefusal};
ghost use Rattle.ak_hey.specs.Seen.{state_of, line_of};

mod brackets;
mod draft;
mod fault;
mod laws;
mod reading;
mod value;
mod words;

use ak_base::{AppWord, Limited};
use ak_input::Word;
use ak_message::Message;
pub use fault::HeyFault;
use fault::WordFault;
pub use laws::{brackets_are_read, hey_lines_are_read, values_agree};
use reading::Reading;
use std::alloc::Global;

/// What a hey line says.
#[derive(Drop)]
pub struct HeyLine {
    /// The application that it names.
    pub app: AppWord,
    /// What is sent to it.
    pub message: Message,
}

/// What the words of a line say, the first of which is `hey`: the words as `split_words` parts them, and `end`,
/// the column one past the last byte of the last one (`end_of`). Behind the application and the verb stand, in
/// this order, properties with `of` before each (before the first one it may be left out), data behind `to`,
/// and fields behind `with` and `and`. What is read can be sent as it is. The faults are tested in the order of
/// `HeyFault`. `NoMemory` may come in place of any answer.
pub fn read_hey(alloc: Global, words: &[Word], end: u32) -> Result<HeyLine, HeyFault>
    ensures answer { Answers line_of result (reads.hey_of end words.now) }
    ensures said { IfOk result (IsLineOf words.now) }
    ensures fits { IfOk result Fits }
    ensures named { IfOk result (λ line. IsTrue (is_looked_up line.app)) }
    ensures refused { IfErr result (IsRefusal end words.now) }
{
    read(alloc, words, end)
}

// The same, as it is read word by word.
fn read(alloc: Global, words: &[Word], end: u32) -> Result<HeyLine, HeyFault>
    ensures { Answers line_of result (reads.hey_of end words.now) }
{
    let mut reading = Reading::Start;
    for word in words {
        let next = reading.with(alloc, word.bytes.as_slice());
        reading = at_column(next, word.column)?;
    }
    finished(alloc, reading, end)
}

/// The column one past the last byte of the last word, and 1 where there is none; at most 4,294,967,295.
pub fn end_of(words: &[Word]) -> u32
    ensures { result ≡ reads.end_of words.now }
{
    match words.last() {
        Some(word) => end_behind(word),
        None => 1,
    }
}

fn end_behind(word: &Word) -> u32
    ensures { result ≡ min (word.now.column + length word.now.bytes) (2 ^ 32 - 1) }
{
    let len = word.bytes.as_slice().len();
    if len < u32::MAX as usize {
        word.column.saturating_add(len as u32)
    } else {
        u32::MAX
    }
}

// What is bad is told by its column.
fn at_column<T>(read: Result<T, WordFault>, column: u32) -> Result<T, HeyFault>
    ensures { Columns result read column }
{
    match read {
        Ok(got) => Ok(got),
        Err(WordFault::Bad) => Err(HeyFault::Bad { column }),
        Err(WordFault::NoMemory) => Err(HeyFault::NoMemory),
    }
}

// What all words say.
fn finished(alloc: Global, reading: Reading<'_>, end: u32) -> Result<HeyLine, HeyFault>
    ensures { Answers line_of result (reads.said_by end (state_of reading.entry)) }
{
    let (app, message) = at_column(reading.finished(alloc), end)?;
    match message {
        Limited::Within(message) => Ok(HeyLine { app, message }),
        Limited::Over => Err(HeyFault::TooLong),
    }
}
