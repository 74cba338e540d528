//! Reads back what is printed of a message.
ghost use Rattle.std.specs.Prelude.{◌≡◌, ◌≢◌, ◌↔◌, Some, IfOk, IfSome, IfNone, IsTrue, option_map};
ghost use Rattle.ak_base.specs.declared.limited.Limited.TheVariants.{Within};
ghost use Rattle.ak_message.specs.Message.{MessageData};
ghost use Rattle.ak_input.specs.MessageText.{message_text};
ghost use Rattle.ak_input.specs.Reading.{read_value};
ghost use Rattle.ak_message.specs.Seen.{value_of};
ghost use Rattle.ak_message.specs.Whole.{IsWhole};
ghost use Rattle.ak_print.specs.Reading.{IsPrintedOf, in_braces, message_among};

use crate::message::put_message;
use ak_base::{Bytes, NoMemory};
use ak_input::{ParseFault, printed_messages_are_read, read_value};
use ak_message::{Message, Value};
use std::alloc::Global;

/// The message of which `print_message` prints these bytes, with nothing popped of it at any depth. None exactly where
/// they are the text of no message: what an input may write otherwise is refused, as several blanks, short values and
/// the other form of a code. `NoMemory` where memory ran out.
pub fn read_message(alloc: Global, text: &[u8]) -> Result<Option<Message>, NoMemory>
    ensures found { IfOk result (λ read. IfSome read (λ m. IsPrintedOf m text.now)) }
    ensures only { (m : MessageData) → IsPrintedOf m text.now → IfOk result (λ read. read ≡ Some m) }
    ensures none { IfOk result (λ read. IfNone read ((m : MessageData) → IsWhole m → message_text m ≢ text.now)) }
{
    printed_messages_are_read();
    let Some(message) = message_in(alloc, text)? else {
        return Ok(None);
    };
    // Every message is within the limits: reading its code shows it.
    let _code = message.what();
    if is_printed_so(alloc, &message, text)? {
        Ok(Some(message))
    } else {
        Ok(None)
    }
}

// What an input reads these bytes as, where they stand in braces as a value of a field.
fn message_in(alloc: Global, text: &[u8]) -> Result<Option<Message>, NoMemory>
    ensures { IfOk result (λ read. read ≡ message_among (option_map (λ g. g.value) (read_value (in_braces text.now)))) }
{
    let mut word = Bytes::new(alloc);
    word.extend(b"MSGG:{")?;
    word.extend(text)?;
    word.push(b'}')?;
    match read_value(alloc, word.as_slice()) {
        Ok(value) => Ok(message_of(value)),
        Err(ParseFault::NoMemory) => Err(NoMemory),
        Err(ParseFault::BadValue | ParseFault::Limit) => Ok(None),
    }
}

// The message that a value is.
#[tactic(auto, using(crate::proofs::ReadAgain::inside))]
fn message_of(value: Value) -> Option<Message>
    ensures { result ≡ message_among (Some (Within (value_of value))) }
{
    match value {
        Value::Message(message) => Some(Box::into_inner(message)),
        _ => None,
    }
}

// Whether just these bytes are printed of the message.
fn is_printed_so(alloc: Global, message: &Message, text: &[u8]) -> Result<bool, NoMemory>
    ensures { IfOk result (λ is. IsTrue is ↔ (message_text message.now ≡ text.now)) }
{
    let mut printed = Bytes::new(alloc);
    put_message(&mut printed, message)?;
    Ok(printed.as_slice() == text)
}
