//! Reads words of a hey line by themselves.

ghost use Rattle.std.specs.Prelude.{◌≡◌};
ghost use Rattle.ak_input.specs.Written as written;
ghost use Rattle.ak_hey.specs.Answers.{Gives};
ghost use Rattle.ak_hey.specs.Words as reads;

use crate::fault::WordFault;
use ak_base::{AppWord, Code, is_word};
use ak_input::{read_app_word, read_code};
use std::alloc::Global;

/// How a word names an application: a team by its number, or by a signature, or by a name.
pub(crate) fn app_word_of(alloc: Global, word: &[u8]) -> Result<AppWord, WordFault>
    ensures { Gives (λ w. w) result (written.app_word_of word.now) }
{
    match read_app_word(alloc, word)? {
        Some(app) => Ok(app),
        None => Err(WordFault::Bad),
    }
}

/// The code of a verb, which may be written as a code too.
pub(crate) fn verb_of(word: &[u8]) -> Option<Code>
    ensures { result ≡ reads.verb_of word.now }
{
    if word == b"get".as_slice() {
        Some(Code::GET)
    } else if word == b"set".as_slice() {
        Some(Code::SET)
    } else if word == b"count".as_slice() {
        Some(Code::COUNT)
    } else if word == b"create".as_slice() {
        Some(Code::CREATE)
    } else if word == b"delete".as_slice() {
        Some(Code::DELETE)
    } else if word == b"do".as_slice() {
        Some(Code::EXECUTE)
    } else if word == b"getsuites".as_slice() {
        Some(Code::SUITES)
    } else if word == b"quit".as_slice() {
        Some(Code::QUIT_REQUESTED)
    } else {
        read_code(word)
    }
}

/// Whether a word may be the name of a property: it is none that leads on to something else.
pub(crate) fn is_property(word: &[u8]) -> bool
    ensures { result ≡ reads.is_property word.now }
{
    is_word(word) && !is_key(word)
}

fn is_key(word: &[u8]) -> bool
    ensures { result ≡ reads.is_key word.now }
{
    word == b"of".as_slice()
        || word == b"to".as_slice()
        || word == b"with".as_slice()
        || word == b"and".as_slice()
}
