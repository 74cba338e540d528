//! The messages that statements make, field by field.

ghost use Rattle.std.specs.Prelude.{◌≡◌, ◌<◌, ◌≤◌, ◌++◌, None, codes, length, IfOk, OnOk};
ghost use Rattle.ak_message.specs.Fields.{field_named};
ghost use Rattle.ak_message.specs.Limits.{field_limit, value_limit};
ghost use Rattle.ak_property.specs.Suites.{texts_field};
ghost use Rattle.ak_script.specs.Forms.{is_short};
ghost use Rattle.ak_script.specs.Messages.{arguments_of};

use ak_base::{Code, NoMemory, Text};
use ak_flatten::{FLAT_LIMIT, flat_len};
use ak_message::{Message, Value};
use std::alloc::Global;

/// The message that tells of arguments, at most 255: how many there are, and each of them.
pub(crate) fn arguments_message(alloc: Global, texts: &[Text]) -> Result<Message, NoMemory>
    requires { length texts.now ≤ value_limit }
    ensures { IfOk result (λ m. m ≡ arguments_of texts.now) }
{
    let mut message = Message::new(alloc, Code::ARGV_RECEIVED);
    message.add_fitting(b"argc", Value::Int32(texts.len() as i32))?;
    add_texts(&mut message, texts)?;
    Ok(message)
}

// Adds the texts behind the fields.
fn add_texts(message: &mut Message, texts: &[Text]) -> Result<(), NoMemory>
    requires new { field_named message.old.fields (codes "argv") ≡ None }
    requires room { length message.old.fields < field_limit }
    requires limit { length texts.now ≤ value_limit }
    ensures { OnOk result (message.new ≡ record message.old { fields = message.old.fields ++ texts_field (codes "argv") texts.now }) }
{
    for text in texts {
        message.add_fitting(b"argv", Value::Text(text.try_clone()?))?;
    }
    Ok(())
}

/// Whether it has at most 4,096 bytes of flat text.
pub(crate) fn is_short(message: &Message) -> bool
    ensures { result ≡ is_short message.now }
{
    flat_len(message) <= FLAT_LIMIT as u64
}
