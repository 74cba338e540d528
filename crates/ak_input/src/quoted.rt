//! Reads texts in double quotes, and raw bytes in digits.

ghost use Rattle.std.specs.Prelude.{◌≡◌, ◌+◌, ◌*◌, ◌<◌, None, Some, IfOk, IfSome};
ghost use Rattle.ak_input.specs.InputText.{RawsAreRead, TextsAreRead};
ghost use Rattle.ak_input.specs.Payload as reads;
ghost use Rattle.ak_input.specs.ReadSeen.{Gives};

use crate::marks::{Quotes, double_step, escape_step, hex_step, is_hex_digit};
use crate::parse_fault::ParseFault;
use ak_base::{Bytes, NoMemory};
use std::alloc::Global;

/// The bytes of the text that stands in quotes.
pub(crate) fn unquoted(alloc: Global, text: &[u8]) -> Result<Bytes, ParseFault>
    ensures { Gives (λ bytes. bytes) result (reads.unquoted text.now) }
{
    match text.split_first() {
        Some((first, rest)) if *first == b'"' => quoted_from(alloc, rest),
        _ => Err(ParseFault::BadValue),
    }
}

// What follows the quotes that open a text.
#[tactic(auto, using(crate::proofs::TextLoop::quoted_steps))]
fn quoted_from(alloc: Global, text: &[u8]) -> Result<Bytes, ParseFault>
    ensures { Gives (λ bytes. bytes) result (reads.quoted_from Quotes.Double text.now) }
{
    let mut bytes = Bytes::new(alloc);
    let mut quotes = Quotes::Double;
    for b in text {
        let Some((after, said)) = text_step(quotes, *b) else {
            return Err(ParseFault::BadValue);
        };
        put(&mut bytes, said)?;
        quotes = after;
    }
    if quotes == Quotes::None {
        Ok(bytes)
    } else {
        Err(ParseFault::BadValue)
    }
}

fn put(bytes: &mut Bytes, said: Option<u8>) -> Result<(), NoMemory>
    ensures { IfOk result (λ _. bytes.new ≡ reads.put bytes.old said) }
{
    match said {
        Some(b) => bytes.push(b),
        None => Ok(()),
    }
}

// What a byte in double quotes makes of the escape, and the byte of the text that it ends.
fn text_step(quotes: Quotes, b: u8) -> Option<(Quotes, Option<u8>)>
    ensures { result ≡ reads.text_step quotes b }
{
    match quotes {
        Quotes::None => None,
        Quotes::Single => None,
        Quotes::Double => plain_text_step(b),
        Quotes::Escape => Some((escape_step(b)?, if b == b'x' { None } else { Some(b) })),
        Quotes::Hex => Some((hex_step(b)?, None)),
        Quotes::HexZero => after_zero(hex_value(b)?),
        Quotes::HexOne => Some((Quotes::Double, Some(16 + hex_value(b)?))),
        Quotes::HexSeven => {
            if b == b'f' {
                Some((Quotes::Double, Some(127)))
            } else {
                None
            }
        }
    }
}

// Outside of escapes.
fn plain_text_step(b: u8) -> Option<(Quotes, Option<u8>)>
    ensures { result ≡ reads.text_step Quotes.Double b }
{
    if b < b' ' || b == 127 {
        return None;
    }
    let said = if b == b'"' || b == b'\\' {
        None
    } else {
        Some(b)
    };
    Some((double_step(b), said))
}

// Behind `\x0`: there is no byte 0 in a text.
fn after_zero(low: u8) -> Option<(Quotes, Option<u8>)>
    ensures { result ≡ reads.after_zero low }
{
    if low == 0 {
        None
    } else {
        Some((Quotes::Double, Some(low)))
    }
}

fn hex_value(b: u8) -> Option<u8>
    ensures value { result ≡ reads.hex_value b }
    ensures digit { IfSome result (λ d. d < 16) }
{
    if !is_hex_digit(b) {
        return None;
    }
    if b <= b'9' {
        Some(b - b'0')
    } else {
        Some(b - b'a' + 10)
    }
}

/// The bytes that digits write, two each.
#[tactic(auto, using(crate::proofs::TextLoop::digit_steps))]
pub(crate) fn raw_from(alloc: Global, text: &[u8]) -> Result<Bytes, ParseFault>
    ensures { Gives (λ bytes. bytes) result (reads.raw_from None text.now) }
{
    let mut bytes = Bytes::new(alloc);
    let mut high = None;
    for b in text {
        let Some(digit) = hex_value(*b) else {
            return Err(ParseFault::BadValue);
        };
        high = raw_step(&mut bytes, high, digit)?;
    }
    if high.is_none() {
        Ok(bytes)
    } else {
        Err(ParseFault::BadValue)
    }
}

// The first digit of a byte is kept, and the second one adds it.
fn raw_step(bytes: &mut Bytes, high: Option<u8>, digit: u8) -> Result<Option<u8>, NoMemory>
    requires high { IfSome high (λ d. d < 16) }
    requires digit { digit < 16 }
    ensures first { IfOk result (λ after. high ≡ None → (after ≡ Some digit) × (bytes.new ≡ bytes.old)) }
    ensures second { IfOk result (λ after. IfSome high (λ d. (after ≡ None) × (bytes.new ≡ reads.put bytes.old (Some (16 * d + digit))))) }
    ensures range { IfOk result (λ after. IfSome after (λ d. d < 16)) }
{
    let Some(high) = high else {
        return Ok(Some(digit));
    };
    bytes.push(16 * high + digit)?;
    Ok(None)
}

/// Raw bytes are read from the digits that are printed of them, and from nothing else.
pub fn raws_are_read()
    ensures { RawsAreRead }
{}

/// A text is read from the quotes that are printed of it, and from nothing else.
pub fn texts_are_read()
    ensures { TextsAreRead }
{}
