//! Reads words of a line by themselves. A reader of several answers what it read and the words behind it.

ghost use Rattle.std.specs.Prelude.{◌≡◌, option_map};
ghost use Rattle.ak_base.specs.Word.{is_word};
ghost use Rattle.ak_input.specs.Written.{app_word_of};
ghost use Rattle.ak_describe.specs.Seen.{word_and_rest, read_and_rest, rest_seen};
ghost use Rattle.ak_describe.specs.Answers.{Gives};
ghost use Rattle.ak_describe.specs.Words as reads;
ghost use Rattle.ak_describe.specs.Words.{texts};

use crate::fault::FormFault;
use ak_base::{AppWord, Code, Text, is_word};
use ak_input::{Word, read_app_word, read_code};
use ak_message::Kind;
use ak_roster::Mode;
use std::alloc::Global;

// ---- a word
pub(crate) fn mode_of(word: &[u8]) -> Option<Mode>
    ensures { result ≡ reads.mode_of word.now }
{
    if word == b"single".as_slice() {
        Some(Mode::Single)
    } else if word == b"multiple".as_slice() {
        Some(Mode::Multiple)
    } else if word == b"exclusive".as_slice() {
        Some(Mode::Exclusive)
    } else {
        None
    }
}

/// The kind that four letters name, which is that of a property. There is none of messages.
pub(crate) fn kind_of(word: &[u8]) -> Option<Kind>
    ensures { result ≡ reads.kind_of word.now }
{
    if word == b"BOOL".as_slice() {
        Some(Kind::Bool)
    } else if word == b"BYTE".as_slice() {
        Some(Kind::Int8)
    } else if word == b"SHRT".as_slice() {
        Some(Kind::Int16)
    } else if word == b"LONG".as_slice() {
        Some(Kind::Int32)
    } else if word == b"LLNG".as_slice() {
        Some(Kind::Int64)
    } else if word == b"UBYT".as_slice() {
        Some(Kind::UInt8)
    } else if word == b"USHT".as_slice() {
        Some(Kind::UInt16)
    } else if word == b"ULNG".as_slice() {
        Some(Kind::UInt32)
    } else if word == b"ULLG".as_slice() {
        Some(Kind::UInt64)
    } else if word == b"CSTR".as_slice() {
        Some(Kind::Text)
    } else if word == b"MSNG".as_slice() {
        Some(Kind::Messenger)
    } else if word == b"RAWT".as_slice() {
        Some(Kind::Raw)
    } else {
        None
    }
}

/// The text of a name.
pub(crate) fn name_of(alloc: Global, word: &[u8]) -> Result<Text, FormFault>
    ensures { Gives (λ t. t) result (reads.name_of word.now) }
{
    if is_word(word) {
        Ok(Text::from_word(alloc, word)?)
    } else {
        Err(FormFault::BadValue)
    }
}

/// How a word names an application.
pub(crate) fn app_word_of(alloc: Global, word: &[u8]) -> Result<AppWord, FormFault>
    ensures { Gives (λ w. w) result (app_word_of word.now) }
{
    match read_app_word(alloc, word)? {
        Some(app) => Ok(app),
        None => Err(FormFault::BadValue),
    }
}

// ---- words in order
/// The first of the words.
pub(crate) fn first_of(words: &[Word]) -> Result<(&[u8], &[Word]), FormFault>
    ensures { Gives word_and_rest result (reads.first_of (texts words.now)) }
{
    match words.split_first() {
        Some((first, rest)) => Ok((first.bytes.as_slice(), rest)),
        None => Err(FormFault::BadValue),
    }
}

/// The last of the words, and those before it.
#[tactic(auto, using(crate::proofs::Lasts::last_word))]
pub(crate) fn last_of(words: &[Word]) -> Option<(&[u8], &[Word])>
    ensures { option_map word_and_rest result ≡ reads.last_of (texts words.now) }
{
    let (last, front) = words.split_last()?;
    Some((last.bytes.as_slice(), front))
}

/// The words behind that one, if it is the first. None where another one is, or no word is there.
pub fn behind<'a>(words: &'a [Word], word: &[u8]) -> Option<&'a [Word]>
    ensures { option_map rest_seen result ≡ reads.behind (texts words.now) word.now }
{
    let (first, rest) = words.split_first()?;
    if first.bytes.as_slice() == word {
        Some(rest)
    } else {
        None
    }
}

/// Whether no word is left.
pub fn ends(words: &[Word]) -> bool
    ensures { result ≡ reads.ends (texts words.now) }
{
    words.is_empty()
}

#[tactic(auto, unfolding(crate::specs::Words::name_at))]
pub(crate) fn name_at(alloc: Global, words: &[Word]) -> Result<(Text, &[Word]), FormFault>
    ensures { Gives read_and_rest result (reads.name_at (texts words.now)) }
{
    let (word, rest) = first_of(words)?;
    let name = name_of(alloc, word)?;
    Ok((name, rest))
}

#[tactic(auto, unfolding(crate::specs::Words::code_at))]
pub(crate) fn code_at(words: &[Word]) -> Result<(Code, &[Word]), FormFault>
    ensures { Gives read_and_rest result (reads.code_at (texts words.now)) }
{
    let (word, rest) = first_of(words)?;
    match read_code(word) {
        Some(code) => Ok((code, rest)),
        None => Err(FormFault::BadValue),
    }
}

/// One name alone.
#[tactic(auto, unfolding(crate::specs::Words::only_name))]
pub(crate) fn only_name(alloc: Global, words: &[Word]) -> Result<Text, FormFault>
    ensures { Gives (λ t. t) result (reads.only_name (texts words.now)) }
{
    let (name, rest) = name_at(alloc, words)?;
    if ends(rest) {
        Ok(name)
    } else {
        Err(FormFault::BadValue)
    }
}

/// One code alone.
#[tactic(auto, unfolding(crate::specs::Words::only_code))]
pub(crate) fn only_code(words: &[Word]) -> Result<Code, FormFault>
    ensures { Gives (λ c. c) result (reads.only_code (texts words.now)) }
{
    let (code, rest) = code_at(words)?;
    if ends(rest) {
        Ok(code)
    } else {
        Err(FormFault::BadValue)
    }
}
