//! Reads the parts of a flat text that are no values: each reader answers what it read and what is left.

ghost use Rattle.std.specs.Prelude.{◌≡◌, ◌≤◌, true, false, is_some, IfSome, IfNone, IfOk};
ghost use Rattle.ak_base.specs.Word as word;
ghost use Rattle.ak_message.specs.Fields.{field_named};
ghost use Rattle.ak_message.specs.Limits.{field_limit};
ghost use Rattle.ak_flatten.specs.Format.{is_length};
ghost use Rattle.ak_flatten.specs.Reading as reads;
ghost use Rattle.ak_flatten.specs.Seen.{Reads, left_of};

use crate::fault::{FlatFault, FlatKind};
use crate::input::Input;
use ak_base::{Code, TEXT_LIMIT, WORD_LIMIT, is_word};
use ak_message::{Address, FIELD_LIMIT, FindFault, Kind, Message, Target};

// The longest text and the longest raw value.
const BYTES_LIMIT: u16 = TEXT_LIMIT as u16;

#[tactic(auto, unfolding(crate::specs::Reading::magic_at))]
fn magic(input: Input) -> Result<Input, FlatFault>
    ensures { Reads left_of result (reads.magic_at (left_of input.entry)) }
{
    let (front, rest) = input.split(4)?;
    if front.bytes != b"AKM1".as_slice() {
        return Err(input.fault(FlatKind::Magic));
    }
    Ok(rest)
}

#[tactic(auto, unfolding(crate::specs::Reading::field_count_at))]
fn field_count(input: Input) -> Result<(u32, Input), FlatFault>
    ensures reads { Reads (λ x. (x.0, left_of x.1)) result (reads.field_count_at (left_of input.entry)) }
    ensures count { IfOk result (λ x. x.0 ≤ field_limit) }
{
    let (count, rest) = input.number32()?;
    if count > FIELD_LIMIT as u32 {
        return Err(input.fault(FlatKind::FieldCount));
    }
    Ok((count, rest))
}

/// What stands before the fields of a message: its code, and their number.
#[tactic(auto, unfolding(crate::specs::Reading::opening_at))]
pub(crate) fn opening(input: Input) -> Result<((u32, u32), Input), FlatFault>
    ensures reads { Reads (λ x. (x.0, left_of x.1)) result (reads.opening_at (left_of input.entry)) }
    ensures count { IfOk result (λ x. x.0.1 ≤ field_limit) }
{
    let rest = magic(input)?;
    let (what, rest) = rest.number32()?;
    let (count, rest) = field_count(rest)?;
    Ok(((what, count), rest))
}

/// A field's kind.
#[tactic(auto, unfolding(crate::specs::Reading::kind_at))]
pub(crate) fn kind(input: Input) -> Result<(Kind, Input), FlatFault>
    ensures { Reads (λ x. (x.0, left_of x.1)) result (reads.kind_at (left_of input.entry)) }
{
    let (code, rest) = input.number32()?;
    match Kind::from_code(Code(code)) {
        Some(kind) => Ok((kind, rest)),
        None => Err(input.fault(FlatKind::BadType)),
    }
}

#[tactic(auto, unfolding(crate::specs::Reading::name_len_at))]
fn name_len(input: Input) -> Result<(u8, Input), FlatFault>
    ensures { Reads (λ x. (x.0, left_of x.1)) result (reads.name_len_at (left_of input.entry)) }
{
    let (len, rest) = input.number8()?;
    if len < 1 || len > WORD_LIMIT as u8 {
        return Err(input.fault(FlatKind::BadName));
    }
    Ok((len, rest))
}

/// A field's name, which no earlier field of the message has.
#[tactic(auto, unfolding(crate::specs::Reading::name_at))]
pub(crate) fn name<'a>(
    message: &Message,
    input: Input<'a>,
) -> Result<(&'a [u8], Input<'a>), FlatFault>
    ensures reads { Reads (λ x. (x.0.now, left_of x.1)) result (reads.name_at message.now.fields (left_of input.entry)) }
    ensures word { IfOk result (λ x. word.is_word x.0.now ≡ true) }
    ensures new { IfOk result (λ x. is_some (field_named message.now.fields x.0.now) ≡ false) }
{
    let (len, input) = name_len(input)?;
    let (name, rest) = input.split(len as usize)?;
    if !is_word(name.bytes) {
        return Err(input.fault(FlatKind::BadName));
    }
    if has_field(message, name.bytes) {
        return Err(input.fault(FlatKind::RepeatedName));
    }
    Ok((name.bytes, rest))
}

// Whether the message has a field of that name.
fn has_field(message: &Message, name: &[u8]) -> bool
    ensures { result ≡ is_some (field_named message.now.fields name.now) }
{
    !matches!(
        message.find(name, Kind::Message, 0),
        Err(FindFault::NameNotFound)
    )
}

/// How many values a field has.
#[tactic(auto, unfolding(crate::specs::Reading::value_count_at))]
pub(crate) fn value_count(input: Input) -> Result<(u8, Input), FlatFault>
    ensures reads { Reads (λ x. (x.0, left_of x.1)) result (reads.value_count_at (left_of input.entry)) }
    ensures some { IfOk result (λ x. 1 ≤ x.0) }
{
    let (count, rest) = input.number8()?;
    if count < 1 {
        return Err(input.fault(FlatKind::NoValues));
    }
    Ok((count, rest))
}

// Whether a value of that kind may have so many bytes.
fn is_length(kind: Kind, len: u16) -> bool
    ensures { result ≡ is_length kind len }
{
    match kind {
        Kind::Bool | Kind::Int8 | Kind::UInt8 => len == 1,
        Kind::Int16 | Kind::UInt16 => len == 2,
        Kind::Int32 | Kind::UInt32 => len == 4,
        Kind::Int64 | Kind::UInt64 => len == 8,
        Kind::Text | Kind::Raw => len <= BYTES_LIMIT,
        Kind::Message => true,
        Kind::Messenger => len == 13,
    }
}

/// How many bytes a value of that kind has.
#[tactic(auto, unfolding(crate::specs::Reading::value_len_at))]
pub(crate) fn value_len(kind: Kind, input: Input) -> Result<(u16, Input), FlatFault>
    ensures reads { Reads (λ x. (x.0, left_of x.1)) result (reads.value_len_at kind (left_of input.entry)) }
    ensures len { IfOk result (λ x. is_length kind x.0 ≡ true) }
{
    let (len, rest) = input.number16()?;
    if !is_length(kind, len) {
        return Err(input.fault(FlatKind::BadLength));
    }
    Ok((len, rest))
}

// The target that a number and a token write.
fn target(kind: u8, token: u64) -> Option<Target>
    ensures some { IfSome result (λ t. (reads.is_target kind token ≡ true) × (t ≡ reads.target_from kind token)) }
    ensures none { IfNone result (reads.is_target kind token ≡ false) }
{
    match (kind, token) {
        (0, 0) => Some(Target::Preferred),
        (1, token) => Some(Target::Token(token)),
        _ => None,
    }
}

/// A messenger's address.
#[tactic(auto, unfolding(crate::specs::Reading::address_from))]
pub(crate) fn address(input: Input) -> Result<Address, FlatFault>
    ensures { Reads (λ a. a) result (reads.address_from (left_of input.entry)) }
{
    let (looper, rest) = input.number32()?;
    let (kind, rest) = rest.number8()?;
    let (token, _) = rest.number64()?;
    match target(kind, token) {
        Some(target) => Ok(Address { looper, target }),
        None => Err(input.fault(FlatKind::BadValue)),
    }
}
