ghost use Rattle.std.specs.Prelude.{◌≡◌, ◌+◌, ◌-◌, ◌^◌, ◌<◌, ◌≤◌, length, min};
ghost use Rattle.ak_message.specs.Seen.{value_of, field_ref_of};
ghost use Rattle.ak_flatten.specs.Spelling.{spelling, value_bytes, field_bytes};

use ak_message::{FieldRef, Message, Value};

// What stands before the fields: the magic, the code and their number.
const OPENING_LEN: u64 = 12;

// What stands of a field beside its name and its values: the type code, and two lengths.
const FIELD_HEAD_LEN: u64 = 6;

// The length of a value's length.
const VALUE_HEAD_LEN: u64 = 2;

/// How many bytes the message's flat text has, of which there may be over 4,096, or 2^64 - 1 where it has
/// more. Takes no memory. (The Be Book, The Application Kit, BMessage: FlattenedSize().)
#[cycle(lengths)]
pub fn flat_len(message: &Message) -> u64
    ensures { result ≡ min (length (spelling message.now)) (2 ^ 64 - 1) }
{
    let mut len = OPENING_LEN;
    for i in 0..message.count_names() {
        if let Some(field) = message.field_at(i) {
            len = len.saturating_add(field_len(&field));
        }
    }
    len
}

#[cycle(lengths)]
fn field_len(field: &FieldRef) -> u64
    ensures { result ≡ min (length (field_bytes (field_ref_of field.now))) (2 ^ 64 - 1) }
{
    let mut len = FIELD_HEAD_LEN.saturating_add(field.name.len() as u64);
    for value in field.values {
        len = len
            .saturating_add(VALUE_HEAD_LEN)
            .saturating_add(value_len(value));
    }
    len
}

#[cycle(lengths)]
fn value_len(value: &Value) -> u64
    ensures { result ≡ min (length (value_bytes (value_of value.now))) (2 ^ 64 - 1) }
{
    match value {
        Value::Bool(_) | Value::Int8(_) | Value::UInt8(_) => 1,
        Value::Int16(_) | Value::UInt16(_) => 2,
        Value::Int32(_) | Value::UInt32(_) => 4,
        Value::Int64(_) | Value::UInt64(_) => 8,
        Value::Text(text) => text.as_bytes().len() as u64,
        Value::Message(message) => flat_len(message),
        Value::Messenger(_) => 13,
        Value::Raw(raw) => raw.as_bytes().len() as u64,
    }
}
