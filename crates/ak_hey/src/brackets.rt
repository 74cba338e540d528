//! Which elements of a property stand in brackets.

ghost use Rattle.std.specs.Prelude.{◌≡◌, ◌≤◌, ◌<◌, IfSome, length, position, option_map};
ghost use Rattle.ak_hey.specs.Brackets as reads;

use ak_input::read_number;
use ak_message::At;

// The greatest index, count and id.
const MOST: u32 = 2_147_483_647;

/// The elements that the brackets of this word mean: `[n]`, `[-n]`, `[a to b]`, `[-a to -b]` or `[#n]`.
#[tactic(auto, unfolding(crate::specs::Brackets::bracket_at))]
pub(crate) fn bracket_at(word: &[u8]) -> Option<At>
    ensures { result ≡ reads.bracket_at word.now }
{
    let inner = bracketed(word)?;
    let (first, rest) = part_at(inner)?;
    match part_at(rest) {
        None => one_at(first),
        Some((key, rest)) => {
            let last = behind_to(key, rest)?;
            range_at(first, last)
        }
    }
}

// What stands between the brackets.
fn bracketed(word: &[u8]) -> Option<&[u8]>
    ensures { option_map (λ inner. inner.now) result ≡ reads.bracketed word.now }
{
    if word.len() < 2 || word[0] != b'[' || word[word.len() - 1] != b']' {
        return None;
    }
    Some(&word[1..word.len() - 1])
}

// The first part between blanks, and what stands behind it.
#[tactic(auto, unfolding(crate::specs::Brackets::part_at))]
fn part_at(text: &[u8]) -> Option<(&[u8], &[u8])>
    ensures { option_map reads.two_seen result ≡ reads.part_at text.now }
{
    let text = behind_blanks(text);
    let len = part_len(text);
    if len == 0 {
        return None;
    }
    Some((&text[..len], &text[len..]))
}

fn behind_blanks(text: &[u8]) -> &[u8]
    ensures { result.now ≡ reads.behind_blanks text.now }
{
    match first_other(text) {
        Some(place) => &text[place..],
        None => &[],
    }
}

// How many bytes stand before the first blank.
fn part_len(text: &[u8]) -> usize
    ensures value { result ≡ reads.part_len text.now }
    ensures within { result ≤ length text.now }
{
    match first_blank(text) {
        Some(place) => place,
        None => text.len(),
    }
}

fn first_blank(text: &[u8]) -> Option<usize>
    ensures place { result ≡ position reads.is_blank text.now }
    ensures within { IfSome result (λ place. place < length text.now) }
{
    text.iter().position(|b| is_blank(*b))
}

// Where the first byte stands that is no blank.
fn first_other(text: &[u8]) -> Option<usize>
    ensures place { result ≡ position reads.is_other text.now }
    ensures within { IfSome result (λ place. place < length text.now) }
{
    text.iter().position(|b| is_other(*b))
}

fn is_other(b: u8) -> bool
    ensures { result ≡ reads.is_other b }
{
    !is_blank(b)
}

fn is_blank(b: u8) -> bool
    ensures { result ≡ reads.is_blank b }
{
    b == b' ' || b == b'\t'
}

// The last part, where the one before it is `to`.
#[tactic(auto, unfolding(crate::specs::Brackets::behind_to))]
fn behind_to<'a>(key: &[u8], rest: &'a [u8]) -> Option<&'a [u8]>
    ensures { option_map (λ last. last.now) result ≡ reads.behind_to key.now rest.now }
{
    if key != b"to".as_slice() {
        return None;
    }
    let (last, rest) = part_at(rest)?;
    if part_at(rest).is_some() {
        return None;
    }
    Some(last)
}

// One number: an index, one from the end, or an id.
fn one_at(part: &[u8]) -> Option<At>
    ensures { result ≡ reads.one_at part.now }
{
    if let Some(number) = behind_sign(part, b'-') {
        return Some(At::Reverse(number_from(number, 1)?));
    }
    if let Some(number) = behind_sign(part, b'#') {
        return Some(At::Id(number_from(number, 0)?));
    }
    Some(At::Index(number_from(part, 0)?))
}

fn number_from(part: &[u8], least: u32) -> Option<i32>
    ensures { result ≡ reads.number_from part.now least }
{
    Some(read_number(part, least, MOST)? as i32)
}

// What stands behind that sign, where the part begins with it.
fn behind_sign(part: &[u8], sign: u8) -> Option<&[u8]>
    ensures { option_map (λ rest. rest.now) result ≡ reads.behind_sign part.now sign }
{
    let (first, rest) = part.split_first()?;
    if *first == sign { Some(rest) } else { None }
}

// From one number to another: both of them from the front, or both from the end.
fn range_at(first: &[u8], last: &[u8]) -> Option<At>
    ensures { result ≡ reads.range_at first.now last.now }
{
    match behind_sign(first, b'-') {
        Some(first) => reverse_range(first, behind_sign(last, b'-')?),
        None => range(first, last),
    }
}

#[tactic(auto, unfolding(crate::specs::Brackets::range))]
fn range(first: &[u8], last: &[u8]) -> Option<At>
    ensures { result ≡ reads.range first.now last.now }
{
    let first = read_number(first, 0, MOST)?;
    let last = read_number(last, 0, MOST)?;
    let count = count_between(first, last)?;
    Some(At::Range {
        index: first as i32,
        count,
    })
}

#[tactic(auto, unfolding(crate::specs::Brackets::reverse_range))]
fn reverse_range(first: &[u8], last: &[u8]) -> Option<At>
    ensures { result ≡ reads.reverse_range first.now last.now }
{
    let first = read_number(first, 1, MOST)?;
    let last = read_number(last, 1, MOST)?;
    let count = count_between(last, first)?;
    Some(At::ReverseRange {
        index: first as i32,
        count,
    })
}

// How many numbers there are from the lower to the upper one, both counted.
fn count_between(lower: u32, upper: u32) -> Option<i32>
    ensures { result ≡ reads.count_between lower upper }
{
    if upper < lower || upper - lower >= MOST {
        return None;
    }
    Some((upper - lower + 1) as i32)
}
