ghost use Rattle.std.specs.Prelude.{◌≡◌, option_map};
ghost use Rattle.std.specs.Result.{result_ok};
ghost use Rattle.ak_message.specs.Message.{MessageData};
ghost use Rattle.ak_message.specs.Specifier.{at_of, specifier_of};
ghost use Rattle.ak_specifier.specs.Specifier.{number_in, text_in, at_in, specifier_in};
ghost use Rattle.ak_specifier.specs.Current.{current_message, current_of, specifier_message_at};

use crate::popping::left;
use ak_base::{Code, Text};
use ak_message::{AtRef, Kind, Message, SpecifierRef, Value};
use std::error::Error;
use std::fmt;

/// No specifier is left, or the current one is badly formed.
#[derive(Clone, Copy, Debug, PartialEq, Eq)]
pub struct BadScript;

impl fmt::Display for BadScript {
    fn fmt<W: fmt::Write>(&self, f: &mut fmt::Formatter<W>) -> fmt::Result {
        f.write_str("no specifier is left, or it is badly formed")
    }
}

impl Error for BadScript {}

/// The current specifier: the last one added that is not popped. Its code is the number of its form. Its
/// fields are `property`, a text, and those of its form: `index`, `range` (the count) and `id`, which are
/// 32-bit numbers, and `name`, a text. The first value of each counts, and other fields do not matter.
/// `BadScript` where none is left, and where it is not of this form. Takes no memory. (The Be Book, The
/// Application Kit, BMessage: GetCurrentSpecifier().)
pub fn current(message: &Message) -> Result<SpecifierRef<'_>, BadScript>
    ensures { option_map specifier_of (result_ok result) ≡ current_of message.now }
{
    let Some(last) = current_message(message) else {
        return Err(BadScript);
    };
    match specifier_in(last) {
        Some(specifier) => Ok(specifier),
        None => Err(BadScript),
    }
}

fn current_message(m: &Message) -> Option<&Message>
    ensures { option_map (λ x. x.now) result ≡ current_message m.now }
{
    specifier_message_at(m, left(m).checked_sub(1)?)
}

fn specifier_message_at(m: &Message, place: u32) -> Option<&Message>
    ensures { option_map (λ x. x.now) result ≡ specifier_message_at m.now place }
{
    match m.find(b"specifiers", Kind::Message, place) {
        Ok(Value::Message(message)) => Some(message),
        _ => None,
    }
}

fn specifier_in(m: &Message) -> Option<SpecifierRef<'_>>
    ensures { option_map specifier_of result ≡ specifier_in m.now }
{
    let property = text_in(m, b"property")?;
    let at = at_in(m)?;
    Some(SpecifierRef { property, at })
}

fn at_in(m: &Message) -> Option<AtRef<'_>>
    ensures { option_map at_of result ≡ at_in m.now.what m.now.fields }
{
    match m.what() {
        Code(1) => Some(AtRef::Direct),
        Code(2) => Some(AtRef::Index(number_in(m, b"index")?)),
        Code(3) => Some(AtRef::Reverse(number_in(m, b"index")?)),
        Code(4) => Some(AtRef::Range {
            index: number_in(m, b"index")?,
            count: number_in(m, b"range")?,
        }),
        Code(5) => Some(AtRef::ReverseRange {
            index: number_in(m, b"index")?,
            count: number_in(m, b"range")?,
        }),
        Code(6) => Some(AtRef::Name(text_in(m, b"name")?)),
        Code(7) => Some(AtRef::Id(number_in(m, b"id")?)),
        _ => None,
    }
}

fn number_in(m: &Message, name: &[u8]) -> Option<i32>
    ensures { result ≡ number_in m.now.fields name.now }
{
    match m.find(name, Kind::Int32, 0) {
        Ok(Value::Int32(n)) => Some(*n),
        _ => None,
    }
}

fn text_in<'a>(m: &'a Message, name: &[u8]) -> Option<&'a Text>
    ensures { option_map (λ x. x.now) result ≡ text_in m.now.fields name.now }
{
    match m.find(name, Kind::Text, 0) {
        Ok(Value::Text(text)) => Some(text),
        _ => None,
    }
}
