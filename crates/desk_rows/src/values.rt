//! Messages and values as they are printed.

ghost use Rattle.std.specs.Prelude.{◌<◌};

use crate::telling::{put_address, put_number};
use ak_base::{Bytes, NoMemory, print_int};
use ak_message::{DEPTH_LIMIT, FieldRef, Message, Value};

/// The message's text.
pub(crate) fn put_message(out: &mut Bytes, message: &Message) -> Result<(), NoMemory> {
    message_within(out, message, DEPTH_LIMIT)
}

/// The value's text.
pub(crate) fn put_value(out: &mut Bytes, value: &Value) -> Result<(), NoMemory> {
    value_within(out, value, DEPTH_LIMIT)
}

// Messages stand in it at most so deep.
#[cycle(values)]
fn message_within(out: &mut Bytes, message: &Message, depth: u32) -> Result<(), NoMemory> {
    message.what().print(out)?;
    for place in 0..message.count_names() {
        if let Some(field) = message.field_at(place) {
            field_within(out, &field, depth)?;
        }
    }
    Ok(())
}

#[cycle(values)]
fn field_within(out: &mut Bytes, field: &FieldRef, depth: u32) -> Result<(), NoMemory> {
    out.push(b' ')?;
    out.extend(field.name)?;
    out.push(b'=')?;
    for (place, value) in field.values.iter().enumerate() {
        if place > 0 {
            out.push(b',')?;
        }
        value_within(out, value, depth)?;
    }
    Ok(())
}

#[cycle(values)]
fn value_within(out: &mut Bytes, value: &Value, depth: u32) -> Result<(), NoMemory> {
    out.extend(&value.kind().code().0.to_be_bytes())?;
    out.push(b':')?;
    match value {
        Value::Message(message) if depth > 0 => {
            out.push(b'{')?;
            message_within(out, message, depth - 1)?;
            out.push(b'}')
        }
        _ => put_plain(out, value),
    }
}

// The payload of a value that is no message.
fn put_plain(out: &mut Bytes, value: &Value) -> Result<(), NoMemory> {
    match value {
        Value::Bool(true) => out.extend(b"true"),
        Value::Bool(false) => out.extend(b"false"),
        Value::Text(text) => put_quoted(out, text.as_bytes()),
        Value::Messenger(address) => put_address(out, address),
        Value::Raw(raw) => put_raw(out, raw.as_bytes()),
        Value::Message(_) => out.extend(b"too deep"),
        _ => put_whole(out, value),
    }
}

// The payload of a whole number.
fn put_whole(out: &mut Bytes, value: &Value) -> Result<(), NoMemory> {
    match value {
        Value::Int8(n) => print_int(i64::from(*n), out),
        Value::Int16(n) => print_int(i64::from(*n), out),
        Value::Int32(n) => print_int(i64::from(*n), out),
        Value::Int64(n) => print_int(*n, out),
        Value::UInt8(n) => put_number(out, u64::from(*n)),
        Value::UInt16(n) => put_number(out, u64::from(*n)),
        Value::UInt32(n) => put_number(out, u64::from(*n)),
        Value::UInt64(n) => put_number(out, *n),
        _ => Ok(()),
    }
}

/// A text in quotes.
pub(crate) fn put_quoted(out: &mut Bytes, text: &[u8]) -> Result<(), NoMemory> {
    out.push(b'"')?;
    for b in text {
        put_byte(out, *b)?;
    }
    out.push(b'"')
}

fn put_byte(out: &mut Bytes, b: u8) -> Result<(), NoMemory> {
    if b == b'"' || b == b'\\' {
        out.push(b'\\')?;
        return out.push(b);
    }
    if b >= b' ' && b != 0x7f {
        return out.push(b);
    }
    out.extend(b"\\x")?;
    put_hex(out, b)
}

fn put_raw(out: &mut Bytes, raw: &[u8]) -> Result<(), NoMemory> {
    for b in raw {
        put_hex(out, *b)?;
    }
    Ok(())
}

fn put_hex(out: &mut Bytes, b: u8) -> Result<(), NoMemory> {
    out.push(hex_digit(b / 16))?;
    out.push(hex_digit(b % 16))
}

fn hex_digit(d: u8) -> u8
    requires { d < 16 }
{
    if d < 10 { b'0' + d } else { b'a' + (d - 10) }
}
