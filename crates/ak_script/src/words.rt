//! Reads words of a line in their order. A reader answers what it read and the words behind it.

ghost use Rattle.std.specs.Prelude.{◌≡◌, ◌≤◌, codes, option_map, IfSome};
ghost use Rattle.ak_describe.specs.Seen.{word_and_rest};
ghost use Rattle.ak_describe.specs.Words as reads;
ghost use Rattle.ak_describe.specs.Words.{texts};
ghost use Rattle.ak_script.specs.Forms as forms;
ghost use Rattle.ak_script.specs.Seen.{bytes_seen, read_and_rest};

use ak_describe::{behind, ends};
use ak_input::{Word, read_uint};

/// The first of the words.
pub(crate) fn first_of(words: &[Word]) -> Option<(&[u8], &[Word])>
    ensures { option_map word_and_rest result ≡ reads.first_of (texts words.now) }
{
    let (first, rest) = words.split_first()?;
    Some((first.bytes.as_slice(), rest))
}

/// One word alone.
pub(crate) fn only(words: &[Word]) -> Option<&[u8]>
    ensures { option_map bytes_seen result ≡ forms.only (texts words.now) }
{
    let (word, rest) = first_of(words)?;
    if ends(rest) { Some(word) } else { None }
}

// ---- numbers
/// The token that a word writes.
pub(crate) fn token_of(word: &[u8]) -> Option<u64>
    ensures { result ≡ forms.token_of word.now }
{
    read_uint(word, u64::MAX)
}

/// A number behind its key, up to this one, or none where the key does not stand there.
#[tactic(auto, unfolding(crate::specs::Forms::number_behind))]
fn number_behind<'a>(words: &'a [Word], key: &[u8], most: u64) -> Option<(Option<u64>, &'a [Word])>
    ensures number { option_map read_and_rest result ≡ forms.number_behind key.now most (texts words.now) }
    ensures within { IfSome result (λ x. IfSome x.0 (λ n. n ≤ most)) }
{
    match behind(words, key) {
        Some(rest) => number_at(rest, most),
        None => Some((None, words)),
    }
}

fn number_at(words: &[Word], most: u64) -> Option<(Option<u64>, &[Word])>
    ensures number { option_map read_and_rest result ≡ forms.number_at most (texts words.now) }
    ensures within { IfSome result (λ x. IfSome x.0 (λ n. n ≤ most)) }
{
    let (word, rest) = first_of(words)?;
    let number = read_uint(word, most)?;
    Some((Some(number), rest))
}

/// The place of a looper in its application, which is its own where none is given.
pub(crate) fn looper_at(words: &[Word]) -> Option<(u32, &[Word])>
    ensures { option_map read_and_rest result ≡ forms.looper_at (texts words.now) }
{
    let (place, rest) = number_behind(words, b"looper", u64::from(u32::MAX))?;
    Some((or_zero(place), rest))
}

fn or_zero(place: Option<u64>) -> u32
    requires { IfSome place (λ n. n ≤ 4294967295) }
    ensures { result ≡ forms.or_zero place }
{
    match place {
        Some(place) => place as u32,
        None => 0,
    }
}

/// The token of a handler, where one is given.
pub(crate) fn token_behind(words: &[Word]) -> Option<(Option<u64>, &[Word])>
    ensures { option_map read_and_rest result ≡ forms.number_behind (codes "token") forms.most_token (texts words.now) }
{
    number_behind(words, b"token", u64::MAX)
}

/// Whether that word is the first, and those behind it.
pub(crate) fn flag_behind<'a>(words: &'a [Word], key: &[u8]) -> (bool, &'a [Word])
    ensures { read_and_rest result ≡ forms.flag_behind key.now (texts words.now) }
{
    match behind(words, key) {
        Some(rest) => (true, rest),
        None => (false, words),
    }
}
