// Values and messages in plain data.

use ak_base::{Code, Raw, Text};
use ak_message::{Address, Kind, Message, Target, Value};
use std::alloc::Global;
use std::test::Fail;

// A value.
#[derive(Clone, Copy)]
pub(crate) enum Plain {
    Bool(bool),
    Int8(i8),
    Int16(i16),
    Int32(i32),
    Int64(i64),
    UInt8(u8),
    UInt16(u16),
    UInt32(u32),
    UInt64(u64),
    Words(&'static [u8]),
    // A message without fields.
    Bare(Code),
    // Messages in one another in the field `m`, so many, with the code 1.
    Deep(u32),
    // The messenger of looper 1 for that target.
    For(Target),
    Raw(&'static [u8]),
}

// Messages in one another in the field `m`, so many.
pub(crate) fn nested(alloc: Global, depth: u32) -> Result<Message, Fail> {
    let mut message = Message::new(alloc, Code(1));
    for _ in 1..depth {
        let mut outer = Message::new(alloc, Code(1));
        outer.add(b"m", Value::from_message(alloc, message)?)?;
        message = outer;
    }
    Ok(message)
}

pub(crate) fn value(alloc: Global, plain: Plain) -> Result<Value, Fail> {
    Ok(match plain {
        Plain::Bool(b) => Value::Bool(b),
        Plain::Int8(n) => Value::Int8(n),
        Plain::Int16(n) => Value::Int16(n),
        Plain::Int32(n) => Value::Int32(n),
        Plain::Int64(n) => Value::Int64(n),
        Plain::UInt8(n) => Value::UInt8(n),
        Plain::UInt16(n) => Value::UInt16(n),
        Plain::UInt32(n) => Value::UInt32(n),
        Plain::UInt64(n) => Value::UInt64(n),
        Plain::Words(words) => Value::Text(Text::from_bytes(alloc, words)?),
        Plain::Bare(what) => Value::from_message(alloc, Message::new(alloc, what))?,
        Plain::Deep(depth) => Value::from_message(alloc, nested(alloc, depth)?)?,
        Plain::For(target) => Value::Messenger(Address { looper: 1, target }),
        Plain::Raw(bytes) => Value::Raw(Raw::from_bytes(alloc, bytes)?),
    })
}

// The name and the value of a field, or of one value more of it.
pub(crate) type Field = (&'static [u8], Plain);

pub(crate) fn message(alloc: Global, what: Code, fields: &[Field]) -> Result<Message, Fail> {
    let mut message = Message::new(alloc, what);
    for (name, plain) in fields {
        message.add(name, value(alloc, *plain)?)?;
    }
    Ok(message)
}

// The number of a value, or how long, with which code or of which looper it is.
pub(crate) fn shown(value: &Value) -> i128 {
    match value {
        Value::Bool(x) => i128::from(*x),
        Value::Int8(x) => i128::from(*x),
        Value::Int16(x) => i128::from(*x),
        Value::Int32(x) => i128::from(*x),
        Value::Int64(x) => i128::from(*x),
        Value::UInt8(x) => i128::from(*x),
        Value::UInt16(x) => i128::from(*x),
        Value::UInt32(x) => i128::from(*x),
        Value::UInt64(x) => i128::from(*x),
        Value::Text(x) => x.as_bytes().len() as i128,
        Value::Message(x) => i128::from(x.what().0),
        Value::Messenger(x) => i128::from(x.looper),
        Value::Raw(x) => x.as_bytes().len() as i128,
    }
}

pub(crate) fn number(message: &Message, name: &[u8], index: u32) -> Option<i32> {
    match message.find(name, Kind::Int32, index) {
        Ok(Value::Int32(n)) => Some(*n),
        _ => None,
    }
}

pub(crate) fn words<'a>(message: &'a Message, name: &[u8], index: u32) -> Option<&'a str> {
    match message.find(name, Kind::Text, index) {
        Ok(Value::Text(text)) => Some(text.as_str()),
        _ => None,
    }
}
