//! Words, numbers and messages as they are told.

use ak_base::{Bytes, print_int, print_uint};
use ak_flatten::unflatten;
use ak_message::{Address, FieldRef, Message, Target, Value};
use run_lists::{Told, tell};
use std::alloc::Global;

/// Who made it.
pub fn tell_thread(out: &mut Bytes, thread: u32) -> Told {
    tell(out, b"by", u64::from(thread))
}

/// `p` for the preferred handler, else the token.
pub fn put_target(out: &mut Bytes, target: Target) -> Told {
    match target {
        Target::Preferred => out.push(b'p'),
        Target::Token(token) => print_uint(token, out),
    }
}

/// A looper, a point, and the target.
pub fn put_address(out: &mut Bytes, address: &Address) -> Told {
    print_uint(u64::from(address.looper), out)?;
    out.push(b'.')?;
    put_target(out, address.target)
}

// ---- messages
/// The text of the message that is spelled there.
pub fn put_flat(out: &mut Bytes, alloc: Global, flat: &[u8]) -> Told {
    match unflatten(alloc, flat) {
        Ok(message) => put_message(out, &message),
        Err(_) => out.extend(b"no message"),
    }
}

/// The message's text. Of values that are no whole numbers of 32 bits, texts or truths the kind alone is told.
pub fn put_message(out: &mut Bytes, message: &Message) -> Told {
    message.what().print(out)?;
    for place in 0..message.count_names() {
        if let Some(field) = message.field_at(place) {
            put_field(out, &field)?;
        }
    }
    Ok(())
}

fn put_field(out: &mut Bytes, field: &FieldRef) -> Told {
    out.push(b' ')?;
    out.extend(field.name)?;
    out.push(b'=')?;
    for (place, value) in field.values.iter().enumerate() {
        if place > 0 {
            out.push(b',')?;
        }
        put_value(out, value)?;
    }
    Ok(())
}

fn put_value(out: &mut Bytes, value: &Value) -> Told {
    out.extend(&value.kind().code().0.to_be_bytes())?;
    out.push(b':')?;
    match value {
        Value::Bool(true) => out.extend(b"true"),
        Value::Bool(false) => out.extend(b"false"),
        Value::Int32(number) => print_int(i64::from(*number), out),
        Value::Text(text) => out.extend(text.as_bytes()),
        _ => Ok(()),
    }
}
