//! Reads the values that are no message, from their texts.

ghost use Rattle.std.specs.Prelude.{◌≡◌, ◌<◌, ◌≤◌, ◌^◌, ◌&&◌, ◌≤ℤ◌, pos, negsuc, unsigned_abs, int_le, length, IfSome};
ghost use Rattle.ak_base.specs.Limits.{digits_limit};
ghost use Rattle.ak_input.specs.InputText.{IntsAreRead};
ghost use Rattle.ak_input.specs.Payload as reads;
ghost use Rattle.ak_input.specs.Written.{number_within};
ghost use Rattle.ak_base.specs.Option.{where_true};

use ak_base::{Code, read_int};
use ak_message::{Address, Kind, Target};

/// What stands between the letters of a value's kind and its payload, and before it.
pub(crate) const LETTERS_LEN: usize = 5;

/// The kind whose letters and a colon the text begins with.
pub(crate) fn kind_before(text: &[u8]) -> Option<Kind>
    ensures kind { result ≡ reads.kind_before text.now }
    ensures len { IfSome result (λ _. 5 ≤ length text.now) }
{
    if text.len() < LETTERS_LEN || text[4] != b':' {
        return None;
    }
    Kind::from_code(Code(u32::from_be_bytes([text[0], text[1], text[2], text[3]])))
}

pub(crate) fn bool_from(text: &[u8]) -> Option<bool>
    ensures { result ≡ reads.bool_from text.now }
{
    if text == b"true".as_slice() {
        Some(true)
    } else if text == b"false".as_slice() {
        Some(false)
    } else {
        None
    }
}

// The number, where it is in this range.
fn within(number: i128, low: i128, high: i128) -> Option<i128>
    ensures number { result ≡ where_true (int_le low number && int_le number high) number }
    ensures low { IfSome result (λ z. low ≤ℤ z) }
    ensures high { IfSome result (λ z. z ≤ℤ high) }
{
    if low <= number && number <= high {
        Some(number)
    } else {
        None
    }
}

// The number that the text writes, in this range.
fn int_within(text: &[u8], low: i128, high: i128) -> Option<i128>
    requires low { unsigned_abs low < 10 ^ digits_limit }
    requires high { unsigned_abs high < 10 ^ digits_limit }
    ensures number { result ≡ reads.int_within low high text.now }
    ensures low { IfSome result (λ z. low ≤ℤ z) }
    ensures high { IfSome result (λ z. z ≤ℤ high) }
{
    match read_int(text) {
        None => None,
        Some(number) => within(number, low, high),
    }
}

/// The number that a word writes, up to `most`, as it is printed. `None` where it writes none of them.
pub fn read_uint(word: &[u8], most: u64) -> Option<u64>
    ensures number { result ≡ reads.uint_within most word.now }
    ensures within { IfSome result (λ n. n ≤ most) }
{
    Some(int_within(word, 0, i128::from(most))? as u64)
}

/// The number that a word writes, from `least` to `most`, as it is printed. `None` where it writes none of
/// them.
pub fn read_number(word: &[u8], least: u32, most: u32) -> Option<u32>
    ensures number { result ≡ number_within word.now least most }
    ensures within { IfSome result (λ n. n ≤ most) }
{
    let number = read_uint(word, u64::from(most))? as u32;
    if least <= number { Some(number) } else { None }
}

pub(crate) fn int8_from(text: &[u8]) -> Option<i8>
    ensures { result ≡ reads.int_within (negsuc 127) (pos 127) text.now }
{
    Some(int_within(text, -0x80, 0x7f)? as i8)
}

pub(crate) fn int16_from(text: &[u8]) -> Option<i16>
    ensures { result ≡ reads.int_within (negsuc 32767) (pos 32767) text.now }
{
    Some(int_within(text, -0x8000, 0x7fff)? as i16)
}

pub(crate) fn int32_from(text: &[u8]) -> Option<i32>
    ensures { result ≡ reads.int_within (negsuc 2147483647) (pos 2147483647) text.now }
{
    Some(int_within(text, -0x8000_0000, 0x7fff_ffff)? as i32)
}

pub(crate) fn int64_from(text: &[u8]) -> Option<i64>
    ensures { result ≡ reads.int_within (negsuc 9223372036854775807) (pos 9223372036854775807) text.now }
{
    Some(int_within(text, -0x8000_0000_0000_0000, 0x7fff_ffff_ffff_ffff)? as i64)
}

pub(crate) fn uint8_from(text: &[u8]) -> Option<u8>
    ensures { result ≡ reads.uint_within 255 text.now }
{
    Some(int_within(text, 0, 0xff)? as u8)
}

pub(crate) fn uint16_from(text: &[u8]) -> Option<u16>
    ensures { result ≡ reads.uint_within 65535 text.now }
{
    Some(int_within(text, 0, 0xffff)? as u16)
}

pub(crate) fn uint32_from(text: &[u8]) -> Option<u32>
    ensures { result ≡ reads.uint_within 4294967295 text.now }
{
    Some(int_within(text, 0, 0xffff_ffff)? as u32)
}

pub(crate) fn uint64_from(text: &[u8]) -> Option<u64>
    ensures { result ≡ reads.uint_within 18446744073709551615 text.now }
{
    Some(int_within(text, 0, 0xffff_ffff_ffff_ffff)? as u64)
}

fn target_from(text: &[u8]) -> Option<Target>
    ensures { result ≡ reads.target_from text.now }
{
    if text == b"p".as_slice() {
        return Some(Target::Preferred);
    }
    Some(Target::Token(uint64_from(text)?))
}

// Where the first point stands.
fn point_in(text: &[u8]) -> Option<usize>
    ensures place { result ≡ reads.point_in text.now }
    ensures within { IfSome result (λ place. place < length text.now) }
{
    text.iter().position(|b| *b == b'.')
}

#[tactic(auto, unfolding(crate::specs::Payload::address_from))]
pub(crate) fn address_from(text: &[u8]) -> Option<Address>
    ensures { result ≡ reads.address_from text.now }
{
    let place = point_in(text)?;
    let looper = uint32_from(&text[..place])?;
    let target = target_from(&text[place + 1..])?;
    Some(Address { looper, target })
}

/// A number is read from the text that is printed of it, where it is in the range, and from nothing else.
pub fn ints_are_read()
    ensures { IntsAreRead }
{}
