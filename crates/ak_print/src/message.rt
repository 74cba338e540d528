ghost use Rattle.std.specs.Prelude.{◌≡◌, [], ◌∷◌, ◌++◌, map, OnOk, OnErr};
ghost use Rattle.ak_message.specs.Kind.{kind_letters};
ghost use Rattle.ak_message.specs.Message.{nested_values};
ghost use Rattle.ak_input.specs.MessageText.{message_text, nested_values_text, payload_text, value_text};
ghost use Rattle.ak_message.specs.Seen.{value_of, field_ref_of};
ghost use Rattle.ak_print.specs.Fields.{field_text};

use crate::payload::{put_address, put_bool, put_hex, put_quoted};
use ak_base::{Bytes, NoMemory, print_int, print_uint};
use ak_message::{FieldRef, Kind, Message, Value};
use std::alloc::Global;

/// Adds the text of the message: its code, and for each field a space, its name, `=` and its values. An `Err`
/// changes nothing. `NoMemory` where memory ran out.
pub fn print_message(alloc: Global, message: &Message, out: &mut Bytes) -> Result<(), NoMemory>
    ensures ok { OnOk result (out.new ≡ out.old ++ message_text message.now) }
    ensures err { OnErr result (out.new ≡ out.old) }
{
    let mut text = Bytes::new(alloc);
    put_message(&mut text, message)?;
    out.extend(text.as_slice())
}

// What was there may have grown by a part of the text where memory ran out. So it is with all that follow.
#[cycle(messages)]
pub(crate) fn put_message(out: &mut Bytes, message: &Message) -> Result<(), NoMemory>
    ensures { OnOk result (out.new ≡ out.old ++ message_text message.now) }
{
    message.what().print(out)?;
    for i in 0..message.count_names() {
        if let Some(field) = message.field_at(i) {
            put_field(out, &field)?;
        }
    }
    Ok(())
}

#[cycle(messages)]
fn put_field(out: &mut Bytes, field: &FieldRef) -> Result<(), NoMemory>
    ensures { OnOk result (out.new ≡ out.old ++ field_text (field_ref_of field.now)) }
{
    out.push(b' ')?;
    out.extend(field.name)?;
    out.push(b'=')?;
    put_values(out, field.values)
}

#[cycle(messages)]
fn put_values(out: &mut Bytes, values: &[Value]) -> Result<(), NoMemory>
    ensures { OnOk result (out.new ≡ out.old ++ nested_values_text (nested_values (map value_of values.now))) }
{
    let Some((first, rest)) = values.split_first() else {
        return Ok(());
    };
    put_value(out, first)?;
    for value in rest {
        out.push(b',')?;
        put_value(out, value)?;
    }
    Ok(())
}

#[cycle(messages)]
fn put_value(out: &mut Bytes, value: &Value) -> Result<(), NoMemory>
    ensures { OnOk result (out.new ≡ out.old ++ value_text (value_of value.now)) }
{
    put_kind(out, value.kind())?;
    put_payload(out, value)
}

// The letters of the kind, and the colon.
#[tactic(auto, using(crate::proofs::Letters::letters))]
fn put_kind(out: &mut Bytes, kind: Kind) -> Result<(), NoMemory>
    ensures { OnOk result (out.new ≡ out.old ++ kind_letters kind ++ 58 ∷ []) }
{
    out.extend(&kind.code().0.to_be_bytes())?;
    out.push(b':')
}

#[cycle(messages)]
fn put_payload(out: &mut Bytes, value: &Value) -> Result<(), NoMemory>
    ensures { OnOk result (out.new ≡ out.old ++ payload_text (value_of value.now)) }
{
    match value {
        Value::Bool(x) => put_bool(out, *x),
        Value::Int8(x) => print_int(i64::from(*x), out),
        Value::Int16(x) => print_int(i64::from(*x), out),
        Value::Int32(x) => print_int(i64::from(*x), out),
        Value::Int64(x) => print_int(*x, out),
        Value::UInt8(x) => print_uint(u64::from(*x), out),
        Value::UInt16(x) => print_uint(u64::from(*x), out),
        Value::UInt32(x) => print_uint(u64::from(*x), out),
        Value::UInt64(x) => print_uint(*x, out),
        Value::Text(x) => put_quoted(out, x.as_bytes()),
        Value::Message(x) => put_braced(out, x),
        Value::Messenger(x) => put_address(out, x),
        Value::Raw(x) => put_hex(out, x.as_bytes()),
    }
}

#[cycle(messages)]
fn put_braced(out: &mut Bytes, message: &Message) -> Result<(), NoMemory>
    ensures { OnOk result (out.new ≡ out.old ++ 123 ∷ message_text message.now ++ 125 ∷ []) }
{
    out.push(b'{')?;
    put_message(out, message)?;
    out.push(b'}')
}
