//! Reads messages, their fields and their values. Each message value is read from its own bytes alone.

ghost use Rattle.std.specs.Prelude.{◌≡◌, ◌+◌, ◌<◌, ◌≤◌, length, true, false, is_some, Some, Ok, Err, IfOk, IfErr};
ghost use Rattle.ak_base.specs.Word as word;
ghost use Rattle.ak_base.specs.Limits.{text_limit, raw_limit};
ghost use Rattle.ak_message.specs.Fields.{field_named};
ghost use Rattle.ak_message.specs.Message.{MessageData, kind_of, depth_of, depth_of_value};
ghost use Rattle.ak_message.specs.Seen.{value_of};
ghost use Rattle.ak_message.specs.Limits.{field_limit, depth_limit};
ghost use Rattle.ak_flatten.specs.Building.{fields_added, field_added, values_added};
ghost use Rattle.ak_flatten.specs.Format.{is_length};
ghost use Rattle.ak_flatten.specs.declared.fault.FlatFault.{FlatFault};
ghost use Rattle.ak_flatten.specs.Laws.{Spells, IsFirstFault, first_fault};
ghost use Rattle.ak_flatten.specs.Reading as reads;
ghost use Rattle.ak_flatten.specs.Seen.{Gives, Reads, left_of};

use crate::fault::{FlatFault, FlatKind, UnflattenFault};
use crate::head;
use crate::input::Input;
use crate::writing::FLAT_LIMIT;
use ak_base::{Code, NoMemory, Raw, RawFault, Text, TextFault};
use ak_message::{DEPTH_LIMIT, Kind, Message, Value};
use std::alloc::Global;

/// The message that the bytes are the flat text of, with nothing popped at any depth. Of bytes that are no
/// flat text the first fault from left to right. `NoMemory` may come in place of any answer. (The Be Book,
/// The Application Kit, BMessage: Unflatten().)
pub fn unflatten(alloc: Global, bytes: &[u8]) -> Result<Message, UnflattenFault>
    ensures spelled { IfOk result (λ m. Spells bytes.now m) }
    ensures only { (m : MessageData) → Spells bytes.now m → Gives (λ x. x) result (Ok m) }
    ensures fault { IfErr result (IsFirstFault bytes.now) }
    ensures refused { (f : FlatFault) → first_fault bytes.now ≡ Some f → Gives (λ x. x) result (Err f) }
{
    read(alloc, bytes)
}

#[tactic(auto, unfolding(crate::specs::Reading::read_message))]
fn read(alloc: Global, bytes: &[u8]) -> Result<Message, UnflattenFault>
    ensures { Gives (λ m. m) result (reads.read_message bytes.now) }
{
    if bytes.len() > FLAT_LIMIT {
        return Err(UnflattenFault::Bad(FlatFault {
            place: FLAT_LIMIT as u32,
            kind: FlatKind::TooLong,
        }));
    }
    message(alloc, DEPTH_LIMIT, Input { place: 0, bytes })
}

// ---- values that are no message

fn text(alloc: Global, input: Input) -> Result<Text, UnflattenFault>
    requires { length input.bytes.now ≤ text_limit }
    ensures { Gives (λ t. t) result (reads.text_from (left_of input.entry)) }
{
    match Text::from_bytes(alloc, input.bytes) {
        Ok(text) => Ok(text),
        Err(TextFault::NoMemory) => Err(UnflattenFault::NoMemory),
        // The bytes are not too many.
        Err(TextFault::TooLong) => unreachable!(),
        Err(TextFault::NotUtf8) => Err(UnflattenFault::Bad(input.fault(FlatKind::BadValue))),
        Err(TextFault::Zero) => Err(UnflattenFault::Bad(input.fault(FlatKind::BadValue))),
    }
}

fn raw(alloc: Global, bytes: &[u8]) -> Result<Raw, NoMemory>
    requires { length bytes.now ≤ raw_limit }
    ensures { IfOk result (λ r. r ≡ bytes.now) }
{
    match Raw::from_bytes(alloc, bytes) {
        Ok(raw) => Ok(raw),
        Err(fault) => {
            // The bytes are not too many, so nothing but memory can be missing.
            prove!(matches!(fault, RawFault::NoMemory));
            Err(NoMemory)
        }
    }
}

#[tactic(auto, unfolding(crate::specs::Reading::bool_from))]
fn bool_of(input: Input) -> Result<bool, FlatFault>
    ensures { Reads (λ b. b) result (reads.bool_from (left_of input.entry)) }
{
    let (number, _) = input.number8()?;
    if number > 1 {
        return Err(input.fault(FlatKind::BadValue));
    }
    Ok(number == 1)
}

// ---- messages

/// All that is left as a message in which messages stand at most so many deep, itself counted.
#[cycle(messages)]
#[tactic(auto, unfolding(crate::specs::Reading::message_from))]
fn message(alloc: Global, levels: u32, input: Input) -> Result<Message, UnflattenFault>
    requires { levels ≤ depth_limit }
    ensures reads { Gives (λ m. m) result (reads.message_from levels (left_of input.entry)) }
    ensures depth { IfOk result (λ m. depth_of m ≤ levels) }
{
    if levels == 0 {
        return Err(UnflattenFault::Bad(input.fault(FlatKind::TooDeep)));
    }
    let ((what, count), start) = head::opening(input)?;
    let (message, rest) = fields(
        alloc,
        levels - 1,
        Message::with_capacity(alloc, Code(what), count as usize)?,
        count,
        start,
    )?;
    if !rest.bytes.is_empty() {
        return Err(UnflattenFault::Bad(rest.fault(FlatKind::Trailing)));
    }
    Ok(message)
}

// The message with so many fields more.
#[cycle(messages)]
fn fields<'a>(
    alloc: Global,
    levels: u32,
    message: Message,
    count: u32,
    input: Input<'a>,
) -> Result<(Message, Input<'a>), UnflattenFault>
    requires levels { levels ≤ 15 }
    requires room { length message.fields + count ≤ field_limit }
    requires depth { depth_of message ≤ levels + 1 }
    ensures reads { Gives (λ x. (x.0, left_of x.1)) result (fields_added (reads.message_from levels) message count (left_of input.entry)) }
    ensures depth { IfOk result (λ x. depth_of x.0 ≤ levels + 1) }
{
    let mut message = message;
    let mut rest = input;
    for _ in 0..count {
        (message, rest) = field(alloc, levels, message, rest)?;
    }
    Ok((message, rest))
}

// The message with the next field.
#[cycle(messages)]
#[tactic(auto, unfolding(crate::specs::Building::field_added, crate::specs::Building::values_added, crate::specs::Reading::field_at))]
fn field<'a>(
    alloc: Global,
    levels: u32,
    message: Message,
    input: Input<'a>,
) -> Result<(Message, Input<'a>), UnflattenFault>
    requires levels { levels ≤ 15 }
    requires room { length message.fields < field_limit }
    requires depth { depth_of message ≤ levels + 1 }
    ensures reads { Gives (λ x. (x.0, left_of x.1)) result (field_added (reads.message_from levels) message (left_of input.entry)) }
    ensures depth { IfOk result (λ x. depth_of x.0 ≤ levels + 1) }
{
    let (kind, input) = head::kind(input)?;
    let (name, input) = head::name(&message, input)?;
    let (count, input) = head::value_count(input)?;
    values(alloc, levels, message, name, kind, count, input)
}

// The message with so many values of the kind in a new field.
#[cycle(messages)]
fn values<'a>(
    alloc: Global,
    levels: u32,
    message: Message,
    name: &[u8],
    kind: Kind,
    count: u8,
    input: Input<'a>,
) -> Result<(Message, Input<'a>), UnflattenFault>
    requires levels { levels ≤ 15 }
    requires room { length message.fields < field_limit }
    requires word { word.is_word name.now ≡ true }
    requires new { is_some (field_named message.fields name.now) ≡ false }
    requires depth { depth_of message ≤ levels + 1 }
    ensures reads { Gives (λ x. (x.0, left_of x.1)) result (values_added (reads.message_from levels) message name.now kind count (left_of input.entry)) }
    ensures depth { IfOk result (λ x. depth_of x.0 ≤ levels + 1) }
{
    let mut message = message;
    let mut rest = input;
    for _ in 0..count {
        let (one, after) = value(alloc, levels, kind, rest)?;
        message.add_fitting(name, one)?;
        rest = after;
    }
    Ok((message, rest))
}

// One value, behind its length.
#[cycle(messages)]
#[tactic(auto, unfolding(crate::specs::Reading::value_at))]
fn value<'a>(
    alloc: Global,
    levels: u32,
    kind: Kind,
    input: Input<'a>,
) -> Result<(Value, Input<'a>), UnflattenFault>
    requires { levels ≤ 15 }
    ensures reads { Gives (λ x. (value_of x.0, left_of x.1)) result (reads.value_at (reads.message_from levels) kind (left_of input.entry)) }
    ensures kind { IfOk result (λ x. kind_of (value_of x.0) ≡ kind) }
    ensures depth { IfOk result (λ x. depth_of_value (value_of x.0) ≤ levels) }
{
    let (len, input) = head::value_len(kind, input)?;
    let (bytes, rest) = input.split(len as usize)?;
    Ok((value_from(alloc, levels, kind, bytes)?, rest))
}

// All that is left as one value.
#[cycle(messages)]
#[tactic(auto, unfolding(crate::specs::Reading::value_from))]
fn value_from(alloc: Global, levels: u32, kind: Kind, input: Input) -> Result<Value, UnflattenFault>
    requires levels { levels ≤ 15 }
    requires len { is_length kind (length input.bytes.now) ≡ true }
    ensures reads { Gives value_of result (reads.value_from (reads.message_from levels) kind (left_of input.entry)) }
    ensures kind { IfOk result (λ v. kind_of (value_of v) ≡ kind) }
    ensures depth { IfOk result (λ v. depth_of_value (value_of v) ≤ levels) }
{
    match kind {
        Kind::Bool => Ok(Value::Bool(bool_of(input)?)),
        Kind::Int8 => Ok(Value::Int8(input.number8()?.0.cast_signed())),
        Kind::Int16 => Ok(Value::Int16(input.number16()?.0.cast_signed())),
        Kind::Int32 => Ok(Value::Int32(input.number32()?.0.cast_signed())),
        Kind::Int64 => Ok(Value::Int64(input.number64()?.0.cast_signed())),
        Kind::UInt8 => Ok(Value::UInt8(input.number8()?.0)),
        Kind::UInt16 => Ok(Value::UInt16(input.number16()?.0)),
        Kind::UInt32 => Ok(Value::UInt32(input.number32()?.0)),
        Kind::UInt64 => Ok(Value::UInt64(input.number64()?.0)),
        Kind::Text => Ok(Value::Text(text(alloc, input)?)),
        Kind::Message => Ok(Value::from_message(alloc, message(alloc, levels, input)?)?),
        Kind::Messenger => Ok(Value::Messenger(head::address(input)?)),
        Kind::Raw => Ok(Value::Raw(raw(alloc, input.bytes)?)),
    }
}
