ghost use Rattle.std.specs.Prelude.{◌≡◌, ◌++◌, ◌<◌, ◌≤◌, ◌↔◌, length, IfOk, IsErrOf, OnOk};
ghost use Rattle.ak_base.specs.Limits.{word_limit};
ghost use Rattle.ak_message.specs.Seen.{value_of, field_ref_of};
ghost use Rattle.ak_message.specs.Limits.{value_limit};
ghost use Rattle.ak_flatten.specs.Spelling.{spelling, opening_bytes, field_bytes, head_bytes, sized_bytes, value_bytes, address_bytes};
ghost use Rattle.ak_flatten.specs.Limits.{flat_limit};

use crate::fault::FlattenFault;
use crate::length::flat_len;
use ak_base::{Bytes, Code, NoMemory};
use ak_message::{Address, FieldRef, Message, Target, Value};
use std::alloc::Global;

/// The longest flat text, in bytes.
pub const FLAT_LIMIT: usize = 4096;

/// The message's flat text, unless that has over 4,096 bytes. How many specifiers are popped isn't written.
/// `TooLong` exactly where it has more, and else only `NoMemory`. (The Be Book, The Application Kit,
/// BMessage: Flatten().)
pub fn flatten(alloc: Global, message: &Message) -> Result<Bytes, FlattenFault>
    ensures ok { IfOk result (λ bytes. bytes ≡ spelling message.now) }
    ensures too_long { IsErrOf result FlattenFault.TooLong ↔ (flat_limit < length (spelling message.now)) }
{
    let len = flat_len(message);
    if len > FLAT_LIMIT as u64 {
        return Err(FlattenFault::TooLong);
    }
    let mut out = Bytes::with_capacity(alloc, len as usize)?;
    put_message(&mut out, message)?;
    Ok(out)
}

#[cycle(messages)]
fn put_message(out: &mut Bytes, message: &Message) -> Result<(), NoMemory>
    requires { length (spelling message.now) ≤ flat_limit }
    ensures { OnOk result (out.new ≡ out.old ++ spelling message.now) }
{
    let count = message.count_names();
    put_opening(out, message.what(), count)?;
    for i in 0..count {
        if let Some(field) = message.field_at(i) {
            put_field(out, &field)?;
        }
    }
    Ok(())
}

// What stands before the fields.
fn put_opening(out: &mut Bytes, what: Code, count: u32) -> Result<(), NoMemory>
    ensures { OnOk result (out.new ≡ out.old ++ opening_bytes what.0 count) }
{
    out.extend(b"AKM1")?;
    out.extend(&what.0.to_be_bytes())?;
    out.extend(&count.to_be_bytes())?;
    Ok(())
}

#[cycle(messages)]
fn put_field(out: &mut Bytes, field: &FieldRef) -> Result<(), NoMemory>
    requires name { length field.now.name.now ≤ word_limit }
    requires values { length field.now.values.now ≤ value_limit }
    requires short { length (field_bytes (field_ref_of field.now)) ≤ flat_limit }
    ensures { OnOk result (out.new ≡ out.old ++ field_bytes (field_ref_of field.now)) }
{
    put_head(out, field)?;
    for value in field.values {
        put_value(out, value)?;
    }
    Ok(())
}

// What stands before the values.
#[tactic(auto, using(crate::proofs::Heads::letters))]
fn put_head(out: &mut Bytes, field: &FieldRef) -> Result<(), NoMemory>
    requires name { length field.now.name.now ≤ word_limit }
    requires values { length field.now.values.now ≤ value_limit }
    ensures { OnOk result (out.new ≡ out.old ++ head_bytes field.now.kind field.now.name.now (length field.now.values.now)) }
{
    out.extend(&field.kind.code().0.to_be_bytes())?;
    out.push(field.name.len() as u8)?;
    out.extend(field.name)?;
    out.push(field.values.len() as u8)?;
    Ok(())
}

#[cycle(messages)]
fn put_value(out: &mut Bytes, value: &Value) -> Result<(), NoMemory>
    requires { length (value_bytes (value_of value.now)) ≤ flat_limit }
    ensures { OnOk result (out.new ≡ out.old ++ sized_bytes (value_of value.now)) }
{
    // The length is written over once the value stands, so that none is computed twice.
    let place = out.len();
    out.extend(&[0, 0])?;
    put_bytes(out, value)?;
    let len = (out.len() - place - 2) as u16;
    out.overwrite(place, &len.to_be_bytes());
    Ok(())
}

// A value without its length.
#[cycle(messages)]
fn put_bytes(out: &mut Bytes, value: &Value) -> Result<(), NoMemory>
    requires { length (value_bytes (value_of value.now)) ≤ flat_limit }
    ensures { OnOk result (out.new ≡ out.old ++ value_bytes (value_of value.now)) }
{
    match value {
        Value::Bool(x) => out.push(u8::from(*x))?,
        Value::Int8(x) => out.extend(&x.to_be_bytes())?,
        Value::Int16(x) => out.extend(&x.to_be_bytes())?,
        Value::Int32(x) => out.extend(&x.to_be_bytes())?,
        Value::Int64(x) => out.extend(&x.to_be_bytes())?,
        Value::UInt8(x) => out.push(*x)?,
        Value::UInt16(x) => out.extend(&x.to_be_bytes())?,
        Value::UInt32(x) => out.extend(&x.to_be_bytes())?,
        Value::UInt64(x) => out.extend(&x.to_be_bytes())?,
        Value::Text(x) => out.extend(x.as_bytes())?,
        Value::Message(x) => put_message(out, x)?,
        Value::Messenger(x) => put_address(out, x)?,
        Value::Raw(x) => out.extend(x.as_bytes())?,
    }
    Ok(())
}

fn put_address(out: &mut Bytes, address: &Address) -> Result<(), NoMemory>
    ensures { OnOk result (out.new ≡ out.old ++ address_bytes address.now) }
{
    out.extend(&address.looper.to_be_bytes())?;
    let (kind, token) = match address.target {
        Target::Preferred => (0, 0),
        Target::Token(token) => (1, token),
    };
    out.push(kind)?;
    out.extend(&token.to_be_bytes())?;
    Ok(())
}
