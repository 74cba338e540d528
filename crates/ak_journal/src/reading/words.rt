//! Cuts a line into words, and reads words in their order. A reader answers what it read and the words behind it.

ghost use Rattle.std.specs.Prelude.{◌≡◌, ◌<◌, length, option_map, IfOk, IfSome};
ghost use Rattle.ak_journal.specs.Parting as parting;
ghost use Rattle.ak_journal.specs.Parting.{texts};
ghost use Rattle.ak_journal.specs.Legible.{Fits32, Fits64, FitsToken};
ghost use Rattle.ak_journal.specs.ReadParts as reads;
ghost use Rattle.ak_journal.specs.ReadParts.{read_and_rest, word_and_rest};

use ak_base::NoMemory;
use ak_input::{read_number, read_uint};
use std::alloc::Global;

/// What stands before the first mark, and behind it where there is one.
pub(crate) fn cut_at(text: &[u8], mark: u8) -> (&[u8], Option<&[u8]>)
    ensures front { result.0.now ≡ parting.before mark text.now }
    ensures behind { option_map (λ rest. rest.now) result.1 ≡ parting.behind mark text.now }
    ensures shorter { IfSome result.1 (λ rest. length rest.now < length text.now) }
{
    for (place, byte) in text.iter().enumerate() {
        if *byte == mark {
            return (&text[..place], Some(&text[place + 1..]));
        }
    }
    (text, None)
}

/// The words between blanks: one, or more.
pub(crate) fn parted<'a>(alloc: Global, line: &'a [u8]) -> Result<Vec<&'a [u8]>, NoMemory>
    ensures { IfOk result (λ words. texts words.items ≡ parting.parted line.now) }
{
    let mut words = Vec::new(alloc);
    let mut rest = Some(line);
    while let Some(text) = rest {
        let (word, further) = cut_at(text, b' ');
        words.push(word)?;
        rest = further;
    }
    Ok(words)
}

/// The first of the words.
pub(crate) fn first_of<'a, 'w>(words: &'w [&'a [u8]]) -> Option<(&'a [u8], &'w [&'a [u8]])>
    ensures { option_map word_and_rest result ≡ reads.first_of (texts words.now) }
{
    let (first, rest) = words.split_first()?;
    Some((*first, rest))
}

/// What stands behind a key in one word.
pub(crate) fn behind_key<'a>(word: &'a [u8], key: &[u8]) -> Option<&'a [u8]>
    ensures { option_map (λ rest. rest.now) result ≡ reads.behind_key key.now word.now }
{
    word.strip_prefix(key)
}

// ---- numbers
pub(crate) fn u32_of(word: &[u8]) -> Option<u32>
    ensures number { result ≡ reads.u32_of word.now }
    ensures fits { IfSome result Fits32 }
{
    read_number(word, 0, u32::MAX)
}

pub(crate) fn u64_of(word: &[u8]) -> Option<u64>
    ensures number { result ≡ reads.u64_of word.now }
    ensures fits { IfSome result Fits64 }
{
    read_uint(word, u64::MAX)
}

pub(crate) fn u32_at<'a, 'w>(words: &'w [&'a [u8]]) -> Option<(u32, &'w [&'a [u8]])>
    ensures number { option_map read_and_rest result ≡ reads.u32_at (texts words.now) }
    ensures fits { IfSome result (λ x. Fits32 x.0) }
{
    let (word, rest) = first_of(words)?;
    let number = u32_of(word)?;
    Some((number, rest))
}

pub(crate) fn u64_at<'a, 'w>(words: &'w [&'a [u8]]) -> Option<(u64, &'w [&'a [u8]])>
    ensures number { option_map read_and_rest result ≡ reads.u64_at (texts words.now) }
    ensures fits { IfSome result (λ x. Fits64 x.0) }
{
    let (word, rest) = first_of(words)?;
    let number = u64_of(word)?;
    Some((number, rest))
}

/// The number that stands first.
pub(crate) fn first_u32(words: &[&[u8]]) -> Option<u32>
    ensures number { result ≡ reads.first_u32 (texts words.now) }
    ensures fits { IfSome result Fits32 }
{
    let (number, _rest) = u32_at(words)?;
    Some(number)
}

/// The number that stands first.
pub(crate) fn first_u64(words: &[&[u8]]) -> Option<u64>
    ensures number { result ≡ reads.first_u64 (texts words.now) }
    ensures fits { IfSome result Fits64 }
{
    let (number, _rest) = u64_at(words)?;
    Some(number)
}

// A token, or that there is none.
fn token_of(word: &[u8]) -> Option<Option<u64>>
    ensures token { result ≡ reads.token_of word.now }
    ensures fits { IfSome result FitsToken }
{
    if word == b"none".as_slice() {
        return Some(None);
    }
    let token = u64_of(word)?;
    Some(Some(token))
}

pub(crate) fn token_at<'a, 'w>(words: &'w [&'a [u8]]) -> Option<(Option<u64>, &'w [&'a [u8]])>
    ensures token { option_map read_and_rest result ≡ reads.token_at (texts words.now) }
    ensures fits { IfSome result (λ x. FitsToken x.0) }
{
    let (word, rest) = first_of(words)?;
    let token = token_of(word)?;
    Some((token, rest))
}
