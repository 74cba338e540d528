//! Splits a line into words.

ghost use Rattle.std.specs.Prelude.{◌≡◌, ◌+◌, ◌-◌, ◌<◌, ◌≤◌, ◌^◌, ◌∷◌, ℕ, List, None, Some, Ok, Err, length, IfOk, IfSome, IfErr, IsErrOf, IsUtf8, true};
ghost use Rattle.std.specs.Str.{is_utf8};
ghost use Rattle.ak_input.specs.Marks as marks;
ghost use Rattle.ak_input.specs.declared.line.Word.{Word};
ghost use Rattle.ak_input.specs.Words as reads;
ghost use Rattle.ak_input.specs.LineSeen.{Splits, Fails, HasNoWords};

use crate::line::Word;
use crate::marks::{Marks, is_blank};
use ak_base::{Bytes, Items, NoMemory};
use std::alloc::{AllocFailed, Global};
use std::error::Error;
use std::fmt;

/// Why a line has no words. They are tested in this order.
#[derive(Clone, Copy, Debug, PartialEq, Eq)]
pub enum WordsFault {
    /// The bytes of the line are not UTF-8.
    NotUtf8,
    /// Quotes, a brace or a bracket is not closed, or an escape is none.
    BadWord,
    /// Memory ran out.
    NoMemory,
}

impl fmt::Display for WordsFault {
    fn fmt<W: fmt::Write>(&self, f: &mut fmt::Formatter<W>) -> fmt::Result {
        match self {
            WordsFault::NotUtf8 => f.write_str("the line is not UTF-8"),
            WordsFault::BadWord => {
                f.write_str("a word is not closed, or has an escape that is none")
            }
            WordsFault::NoMemory => f.write_str("no memory"),
        }
    }
}

impl Error for WordsFault {}

impl From<NoMemory> for WordsFault {
    ghost use Rattle.std.specs.Prelude.{◌≡◌};
    ghost use Rattle.ak_input.specs.declared.words.WordsFault.TheVariants as fault;

    ghost from_gives = { λ _ e. e ≡ fault.NoMemory };

    fn from(_error: NoMemory) -> WordsFault {
        WordsFault::NoMemory
    }
}

impl<T: Drop> From<AllocFailed<T>> for WordsFault {
    ghost use Rattle.std.specs.Prelude.{◌≡◌};
    ghost use Rattle.ak_input.specs.declared.words.WordsFault.TheVariants as fault;

    ghost from_gives = { λ _ e. e ≡ fault.NoMemory };

    fn from(_error: AllocFailed<T>) -> WordsFault {
        WordsFault::NoMemory
    }
}

/// A word as far as it was read, and what is open behind it.
#[derive(Drop)]
pub(crate) struct Begun {
    pub word: Word,
    pub marks: Marks,
}

/// The words of a line, which is given without the LF at its end. A word ends at a space or a tab outside
/// of quotes, braces and brackets, and a `[` there begins a new one. The faults are tested in the order of
/// `WordsFault`. The line has to be shorter than 2^32 - 1 bytes. A line of blanks alone has no words, which
/// is no fault.
pub fn split_words(alloc: Global, line: &[u8]) -> Result<Items<Word>, WordsFault>
    requires { length line.now < 2 ^ 32 - 1 }
    ensures words { IfOk result (λ words. IsUtf8 line.now × reads.IsLine 1 line.now words) }
    ensures only { (words : List Word) → IsUtf8 line.now → reads.IsLine 1 line.now words → Splits result (Ok words) }
    ensures none { IfErr result (λ e. HasNoWords line.now e) }
    ensures splits { Splits result (reads.line_words line.now) }
{
    split(alloc, line)
}

/// No line has two lists of words.
pub fn one_line()
    ensures { reads.OneLine }
{}

fn split(alloc: Global, line: &[u8]) -> Result<Items<Word>, WordsFault>
    requires { length line.now < 2 ^ 32 - 1 }
    ensures { Splits result (reads.line_words line.now) }
{
    if !is_utf8(line) {
        return Err(WordsFault::NotUtf8);
    }
    Ok(Items::from_vec(words_of(alloc, line)?))
}

pub(crate) fn is_utf8(bytes: &[u8]) -> bool
    ensures { result ≡ is_utf8 bytes.now }
{
    match str::from_utf8(bytes) {
        Ok(_) => true,
        Err(_) => false,
    }
}

// The words of a line, whatever its bytes.
fn words_of(alloc: Global, line: &[u8]) -> Result<Vec<Word>, WordsFault>
    requires { length line.now < 2 ^ 32 - 1 }
    ensures words { IfOk result (λ words. reads.words_from None 1 line.now ≡ Some words.items) }
    ensures fault { IfErr result (λ e. Fails e (reads.words_from None 1 line.now)) }
{
    let mut words = Vec::new(alloc);
    let mut begun = None;
    let mut column = 1;
    for b in line {
        begun = next(alloc, &mut words, begun, column, *b)?;
        column += 1;
    }
    let Some(last) = begun else {
        return Ok(words);
    };
    if !last.marks.is_outside() {
        return Err(WordsFault::BadWord);
    }
    words.push(last.word)?;
    Ok(words)
}

// Reads one byte at this column; where it ends a word, this is added. The word that is begun behind it.
fn next(
    alloc: Global,
    words: &mut Vec<Word>,
    begun: Option<Begun>,
    column: u32,
    b: u8,
) -> Result<Option<Begun>, WordsFault>
    requires first { 1 ≤ column }
    requires last { column < 2 ^ 32 - 1 }
    requires braces { IfSome begun (λ w. w.marks.braces < column) }
    requires brackets { IfSome begun (λ w. w.marks.brackets < column) }
    ensures reads { IfOk result (λ after. (bytes : List ℕ) →
        reads.words_behind words.old.items (reads.words_from begun column (b ∷ bytes))
        ≡ reads.words_behind words.new.items (reads.words_from after (column + 1) bytes)) }
    ensures fault { IfErr result (λ e. (bytes : List ℕ) → Fails e (reads.words_from begun column (b ∷ bytes))) }
    ensures braces { IfOk result (λ after. IfSome after (λ w. w.marks.braces < column + 1)) }
    ensures brackets { IfOk result (λ after. IfSome after (λ w. w.marks.brackets < column + 1)) }
{
    let Some(word) = begun else {
        return opened(alloc, column, b);
    };
    if word.marks.ends_before(b) {
        words.push(word.word)?;
        return opened(alloc, column, b);
    }
    Ok(Some(word.with(b)?))
}

// The word that the byte begins outside of words. A blank begins none.
fn opened(alloc: Global, column: u32, b: u8) -> Result<Option<Begun>, WordsFault>
    requires { 1 ≤ column }
    ensures begun { IfOk result (λ begun. reads.opened_at column b ≡ Some begun) }
    ensures fault { IfErr result (λ e. Fails e (reads.opened_at column b)) }
    ensures braces { IfOk result (λ begun. IfSome begun (λ w. w.marks.braces < column + 1)) }
    ensures brackets { IfOk result (λ begun. IfSome begun (λ w. w.marks.brackets < column + 1)) }
{
    if is_blank(b) {
        return Ok(None);
    }
    let Some(marks) = Marks::start().step(b) else {
        return Err(WordsFault::BadWord);
    };
    let mut bytes = Bytes::new(alloc);
    bytes.push(b)?;
    Ok(Some(Begun {
        word: Word { column, bytes },
        marks,
    }))
}

impl Begun {
    // With one byte more.
    fn with(self, b: u8) -> Result<Begun, WordsFault>
        requires braces { self.marks.braces < 2 ^ 64 - 1 }
        requires brackets { self.marks.brackets < 2 ^ 64 - 1 }
        ensures grown { IfOk result (λ w. (marks.step self.marks b ≡ Some w.marks) × (w ≡ reads.grown self b w.marks)) }
        ensures fault { IfErr result (λ e. Fails e (marks.step self.marks b)) }
        ensures braces { IfOk result (λ w. w.marks.braces ≤ self.marks.braces + 1) }
        ensures brackets { IfOk result (λ w. w.marks.brackets ≤ self.marks.brackets + 1) }
    {
        let Begun { mut word, marks } = self;
        let Some(marks) = marks.step(b) else {
            return Err(WordsFault::BadWord);
        };
        word.bytes.push(b)?;
        Ok(Begun { word, marks })
    }
}
