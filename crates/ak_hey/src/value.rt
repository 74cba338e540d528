//! Values and texts, and what of them passes a limit.

ghost use Rattle.std.specs.Prelude.{◌≡◌};
ghost use Rattle.ak_input.specs.ReadSeen.{got_of};
ghost use Rattle.ak_input.specs.Reading.{read_value};
ghost use Rattle.ak_input.specs.Written.{quoted_text};
ghost use Rattle.ak_hey.specs.Answers.{Gives};
ghost use Rattle.ak_hey.specs.Answers as faults;

use crate::fault::WordFault;
use ak_base::{Limited, Text};
use ak_input::{ParseFault, ReadValue, read_quoted, read_with_kind};
use std::alloc::Global;

/// The value that a word writes.
pub(crate) fn value_from(alloc: Global, word: &[u8]) -> Result<ReadValue, WordFault>
    ensures { Gives got_of result (read_value word.now) }
{
    match read_with_kind(alloc, word)? {
        Some(read) => Ok(read),
        None => Err(WordFault::Bad),
    }
}

/// A text in quotes.
pub(crate) fn quoted_from(alloc: Global, word: &[u8]) -> Result<Limited<Text>, WordFault>
    ensures { Gives (λ t. t) result (quoted_text word.now) }
{
    kept(read_quoted(alloc, word))
}

// What was read, where it passes no limit.
fn kept<T>(read: Result<T, ParseFault>) -> Result<Limited<T>, WordFault>
    ensures { result ≡ faults.kept read }
{
    match read {
        Ok(got) => Ok(Limited::Within(got)),
        Err(ParseFault::Limit) => Ok(Limited::Over),
        Err(ParseFault::BadValue) => Err(WordFault::Bad),
        Err(ParseFault::NoMemory) => Err(WordFault::NoMemory),
    }
}
