//! Values, and what of them passes a limit.

ghost use Rattle.std.specs.Prelude.{◌≡◌, None, Some, option_map};
ghost use Rattle.ak_base.specs.declared.limited.Limited.TheVariants.{Within};
ghost use Rattle.ak_base.specs.Limited.{limited_map};
ghost use Rattle.ak_input.specs.ReadSeen.{got_of};
ghost use Rattle.ak_input.specs.Reading.{read_value};
ghost use Rattle.ak_message.specs.Seen.{value_of};
ghost use Rattle.ak_input.specs.Written as written;
ghost use Rattle.ak_describe.specs.Answers.{Gives};
ghost use Rattle.ak_describe.specs.Faults as faults;
ghost use Rattle.ak_describe.specs.Made as reads;
ghost use Rattle.ak_describe.specs.Seen.{values_seen};

use crate::fault::FormFault;
use ak_action::{Number, Values, ValuesFault};
use ak_base::{Limited, Text};
use ak_flatten::{FLAT_LIMIT, flat_len};
use ak_input::{ParseFault, ReadValue, read_quoted, read_values, read_with_kind};
use ak_message::{Kind, Value};
use std::alloc::Global;

/// What was read, where it passes no limit.
fn kept<T>(read: Result<T, ParseFault>) -> Result<Limited<T>, FormFault>
    ensures { result ≡ faults.kept read }
{
    match read {
        Ok(got) => Ok(Limited::Within(got)),
        Err(ParseFault::Limit) => Ok(Limited::Over),
        Err(ParseFault::BadValue) => Err(FormFault::BadValue),
        Err(ParseFault::NoMemory) => Err(FormFault::NoMemory),
    }
}

/// A text in quotes.
pub(crate) fn quoted_from(alloc: Global, word: &[u8]) -> Result<Limited<Text>, FormFault>
    ensures { Gives (λ t. t) result (written.quoted_text word.now) }
{
    kept(read_quoted(alloc, word))
}

// The value that a word writes, and its kind.
fn read_from(alloc: Global, word: &[u8]) -> Result<ReadValue, FormFault>
    ensures { Gives got_of result (read_value word.now) }
{
    match read_with_kind(alloc, word)? {
        Some(read) => Ok(read),
        None => Err(FormFault::BadValue),
    }
}

// The value that a word writes.
fn value_from(alloc: Global, word: &[u8]) -> Result<Limited<Value>, FormFault>
    ensures { Gives (limited_map value_of) result (written.value_from word.now) }
{
    Ok(read_from(alloc, word)?.value)
}

/// A value of that kind, which is not the one of messages.
#[tactic(auto, unfolding(crate::specs::Made::value_of_kind))]
pub(crate) fn value_of_kind(
    alloc: Global,
    kind: Kind,
    word: &[u8],
) -> Result<Limited<Value>, FormFault>
    ensures { Gives (limited_map value_of) result (reads.value_of_kind kind word.now) }
{
    let read = read_from(alloc, word)?;
    if read.kind == kind {
        Ok(read.value)
    } else {
        Err(FormFault::BadValue)
    }
}

/// The values of a field, all of one kind.
#[tactic(auto, unfolding(crate::specs::Made::values_from))]
pub(crate) fn values_from(alloc: Global, text: &[u8]) -> Result<Limited<Values>, FormFault>
    ensures { Gives (λ v. v) result (reads.values_from text.now) }
{
    match kept(read_values(alloc, text))? {
        Limited::Within(values) => some_values(values_of(alloc, values)?),
        Limited::Over => Ok(Limited::Over),
    }
}

// One value or more.
fn some_values(values: Option<Values>) -> Result<Limited<Values>, FormFault>
    ensures { Gives (λ v. v) result (option_map Within values) }
{
    match values {
        Some(values) => Ok(Limited::Within(values)),
        None => Err(FormFault::BadValue),
    }
}

// Values that one field may hold; `None` where there are none.
#[tactic(auto, unfolding(crate::specs::Made::values_of))]
fn values_of(alloc: Global, values: Vec<Value>) -> Result<Option<Values>, FormFault>
    ensures { Gives (λ v. v) result (reads.values_of None (values_seen values.items)) }
{
    let mut all = None;
    for value in values {
        all = Some(with_value(alloc, all, value)?);
    }
    Ok(all)
}

fn with_value(alloc: Global, values: Option<Values>, value: Value) -> Result<Values, FormFault>
    ensures { Gives (λ v. v) result (reads.with_value values (value_of value)) }
{
    match values {
        Some(mut values) => {
            held(values.push(value))?;
            Ok(values)
        }
        None => held(Values::one(alloc, value)),
    }
}

fn held<T>(outcome: Result<T, ValuesFault>) -> Result<T, FormFault>
    ensures { result ≡ faults.held outcome }
{
    match outcome {
        Ok(got) => Ok(got),
        Err(ValuesFault::NoMemory) => Err(FormFault::NoMemory),
        Err(ValuesFault::BadType | ValuesFault::ValueLimit | ValuesFault::TooDeep) => Err(
            FormFault::BadValue,
        ),
    }
}

/// One value alone, of any kind.
#[tactic(auto, unfolding(crate::specs::Made::one_from))]
pub(crate) fn one_from(alloc: Global, word: &[u8]) -> Result<Limited<Values>, FormFault>
    ensures { Gives (λ v. v) result (reads.one_from word.now) }
{
    match value_from(alloc, word)? {
        Limited::Within(value) => one_kept(alloc, value),
        Limited::Over => Ok(Limited::Over),
    }
}

// The value, where it is no message that is too long. It may be one that no field can hold.
fn one_kept(alloc: Global, value: Value) -> Result<Limited<Values>, FormFault>
    ensures { Gives (λ v. v) result (Some (reads.one_kept (value_of value))) }
{
    if !is_short(&value) {
        return Ok(Limited::Over);
    }
    Ok(Limited::Within(Values::alone(alloc, value)?))
}

fn is_short(value: &Value) -> bool
    ensures { result ≡ reads.is_short (value_of value.now) }
{
    match value {
        Value::Message(message) => flat_len(message) <= FLAT_LIMIT as u64,
        _ => true,
    }
}

/// A number of that kind.
#[tactic(auto, unfolding(crate::specs::Made::number_from))]
pub(crate) fn number_from(alloc: Global, kind: Kind, word: &[u8]) -> Result<Number, FormFault>
    ensures { Gives (λ n. n) result (reads.number_from kind word.now) }
{
    let Limited::Within(value) = value_from(alloc, word)? else {
        return Err(FormFault::BadValue);
    };
    match number_of_kind(kind, &value) {
        Some(number) => Ok(number),
        None => Err(FormFault::BadValue),
    }
}

fn number_of_kind(kind: Kind, value: &Value) -> Option<Number>
    ensures { result ≡ reads.number_of_kind kind (value_of value.now) }
{
    let number = Number::of(value)?;
    if number.kind() == kind {
        Some(number)
    } else {
        None
    }
}
