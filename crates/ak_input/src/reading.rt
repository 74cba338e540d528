//! Reads values, fields and messages in an input. Messages in messages are read as deep as they may stand.

ghost use Rattle.std.specs.Prelude.{◌≡◌, ◌≢◌, ◌<◌, ◌≤◌, length, map, filter, None, Some, Err, option_map, IfSome, IfOk, OnErr};
ghost use Rattle.ak_base.specs.declared.limited.Limited.TheVariants.{Over};
ghost use Rattle.ak_base.specs.Limited.{limited_map};
ghost use Rattle.ak_input.specs.ReadSeen.{Gives, GivesValue, GivesText, GivesMessage, GivesValues, seen, pair_of, got_of, got_values_of, built_of};
ghost use Rattle.ak_input.specs.Reading as reads;
ghost use Rattle.ak_message.specs.Seen.{value_of};
ghost use Rattle.ak_message.specs.Kind.{is_same_kind};
ghost use Rattle.ak_input.specs.Payload.{kind_before};
ghost use Rattle.ak_message.specs.Limits.{depth_limit};
ghost use Rattle.ak_input.specs.Told.{TellsCode, TellsKind, TellsMessage, TellsText, TellsValue, TellsValues};
ghost use Rattle.ak_input.specs.Written.{code_of};

use crate::line::Word;
use crate::parse_fault::ParseFault;
use crate::payload;
use crate::pieces::{Separator, braced, pieces_of};
use crate::quoted::{raw_from, unquoted};
use crate::words::is_utf8;
use ak_base::{Code, Limited, NoMemory, Raw, RawFault, Text, TextFault, is_word};
use ak_message::{AddFault, DEPTH_LIMIT, Kind, Message, VALUE_LIMIT, Value};
use indexmap::IndexSet;
use std::alloc::Global;

/// What a text is read as: its kind, and the value where it passes no limit.
#[derive(Drop)]
pub struct ReadValue {
    /// The kind, which a value that passes a limit has too.
    pub kind: Kind,
    /// The value.
    pub value: Limited<Value>,
}

/// The values of a field: their kind, and the values where they pass no limit.
#[derive(Drop)]
struct ReadValues {
    kind: Kind,
    values: Limited<Vec<Value>>,
}

/// A message as far as it is read: the names of its fields, and the message itself where it passes no limit.
#[derive(Drop)]
struct Building<'a> {
    names: IndexSet<&'a [u8]>,
    message: Limited<Message>,
}

/// The value that a word writes: the letters of its kind, a colon and its payload. For short a whole number
/// in decimal is an `Int32`, and `true`, `false` and a text in quotes stand by themselves. A message has its
/// text in braces, with one space or tab or more between its parts. The faults are tested in the order of
/// `ParseFault`. A message that stands in 16 others passes the limit, whatever stands in its braces.
/// `NoMemory` may come in place of any answer.
pub fn read_value(alloc: Global, word: &[u8]) -> Result<Value, ParseFault>
    ensures read { GivesValue result (reads.read_value word.now) }
    ensures written { TellsValue result word.now }
{
    value_read(alloc, word)
}

fn value_read(alloc: Global, word: &[u8]) -> Result<Value, ParseFault>
    ensures { GivesValue result (reads.read_value word.now) }
{
    kept(value(alloc, DEPTH_LIMIT, word)?)
}

/// The value that a word writes, as `read_value` reads it, with its kind. One that passes a limit is not kept,
/// and has its kind all the same. `None` where the word writes no value. Answers `NoMemory` where memory ran
/// out.
pub fn read_with_kind(alloc: Global, word: &[u8]) -> Result<Option<ReadValue>, NoMemory>
    ensures read { IfOk result (λ read. option_map got_of read ≡ reads.read_value word.now) }
    ensures written { IfOk result (λ read. TellsKind read word.now) }
{
    kind_read(alloc, word)
}

fn kind_read(alloc: Global, word: &[u8]) -> Result<Option<ReadValue>, NoMemory>
    ensures { IfOk result (λ read. option_map got_of read ≡ reads.read_value word.now) }
{
    match value(alloc, DEPTH_LIMIT, word) {
        Ok(read) => Ok(Some(read)),
        Err(ParseFault::NoMemory) => Err(NoMemory),
        Err(ParseFault::BadValue | ParseFault::Limit) => Ok(None),
    }
}

// The value, where it passes no limit.
fn kept(read: ReadValue) -> Result<Value, ParseFault>
    ensures { GivesValue result (Some (got_of read)) }
{
    match read.value {
        Limited::Within(value) => Ok(value),
        Limited::Over => Err(ParseFault::Limit),
    }
}

/// The values of a field: one or more, all of one kind, with a comma between each two. The faults are tested
/// in the order of `ParseFault`. A message among them is at most 15 deep. `NoMemory` may come in place of any
/// answer.
pub fn read_values(alloc: Global, text: &[u8]) -> Result<Vec<Value>, ParseFault>
    ensures read { GivesValues result (reads.read_values text.now) }
    ensures written { TellsValues result text.now }
{
    values_read(alloc, text)
}

fn values_read(alloc: Global, text: &[u8]) -> Result<Vec<Value>, ParseFault>
    ensures { GivesValues result (reads.read_values text.now) }
{
    kept_values(values(alloc, DEPTH_LIMIT - 1, text)?)
}

// The values, where they pass no limit.
fn kept_values(read: ReadValues) -> Result<Vec<Value>, ParseFault>
    ensures { GivesValues result (Some (got_values_of read)) }
{
    match read.values {
        Limited::Within(values) => Ok(values),
        Limited::Over => Err(ParseFault::Limit),
    }
}

/// The message that the words of a line write: a code, and then a field in each, which is a name, `=` and its
/// values. The faults are tested in the order of `ParseFault`. A message in it is at most 15 deep. The
/// message read has nothing popped. `NoMemory` may come in place of any answer.
pub fn read_message(alloc: Global, words: &[Word]) -> Result<Message, ParseFault>
    ensures read { GivesMessage result (reads.read_message (map (λ word. word.bytes) words.now)) }
    ensures written { TellsMessage result (map (λ word. word.bytes) words.now) }
{
    message_read(alloc, words)
}

fn message_read(alloc: Global, words: &[Word]) -> Result<Message, ParseFault>
    ensures { GivesMessage result (reads.read_message (map (λ word. word.bytes) words.now)) }
{
    let texts = texts_of(alloc, words)?;
    kept_message(message_of(alloc, DEPTH_LIMIT - 1, &texts)?)
}

// The message, where it passes no limit.
fn kept_message(message: Limited<Message>) -> Result<Message, ParseFault>
    ensures { GivesMessage result (Some message) }
{
    match message {
        Limited::Within(message) => Ok(message),
        Limited::Over => Err(ParseFault::Limit),
    }
}

/// The text that a word writes, in double quotes. The faults are tested in the order of `ParseFault`: `Limit`
/// where the text has over 1,024 bytes. `NoMemory` may come in place of any answer.
pub fn read_quoted(alloc: Global, word: &[u8]) -> Result<Text, ParseFault>
    ensures read { GivesText result (reads.text_from word.now) }
    ensures written { TellsText result word.now }
{
    quoted_read(alloc, word)
}

fn quoted_read(alloc: Global, word: &[u8]) -> Result<Text, ParseFault>
    ensures { GivesText result (reads.text_from word.now) }
{
    match text_within(alloc, word)? {
        Limited::Within(text) => Ok(text),
        Limited::Over => Err(ParseFault::Limit),
    }
}

/// The name of a field and what follows the first `=`. None where what stands before it is no word, or where
/// there is no `=`. What follows is not looked at. Takes no memory.
#[tactic(auto, unfolding(crate::specs::Reading::field_split))]
pub fn split_field(word: &[u8]) -> Option<(&[u8], &[u8])>
    ensures { option_map pair_of result ≡ reads.field_split word.now }
{
    let place = equals_in(word)?;
    let name = &word[..place];
    if is_word(name) {
        Some((name, &word[place + 1..]))
    } else {
        None
    }
}

fn equals_in(word: &[u8]) -> Option<usize>
    ensures place { result ≡ reads.equals_in word.now }
    ensures within { IfSome result (λ place. place < length word.now) }
{
    word.iter().position(|b| *b == b'=')
}

fn texts_of(alloc: Global, words: &[Word]) -> Result<Vec<&[u8]>, NoMemory>
    ensures { IfOk result (λ texts. map seen texts.items ≡ map (λ word. word.bytes) words.now) }
{
    let mut texts = Vec::new(alloc);
    for word in words {
        texts.push(word.bytes.as_slice())?;
    }
    Ok(texts)
}

// ---- values that are no message

// One that passes a limit.
fn over(kind: Kind) -> ReadValue
    ensures { got_of result ≡ reads.over kind }
{
    ReadValue {
        kind,
        value: Limited::Over,
    }
}

fn got(value: Value) -> ReadValue
    ensures { got_of result ≡ reads.got (value_of value) }
{
    ReadValue {
        kind: value.kind(),
        value: Limited::Within(value),
    }
}

fn value_or_fault(value: Option<Value>) -> Result<ReadValue, ParseFault>
    ensures { Gives got_of result (option_map reads.got (option_map value_of value)) }
{
    match value {
        Some(value) => Ok(got(value)),
        None => Err(ParseFault::BadValue),
    }
}

// A value without the letters of its kind.
#[tactic(auto, unfolding(crate::specs::Reading::short_from))]
fn short(alloc: Global, text: &[u8]) -> Result<ReadValue, ParseFault>
    ensures { Gives got_of result (reads.short_from text.now) }
{
    if text.first() == Some(&b'"') {
        return text_value(alloc, text);
    }
    if let Some(value) = payload::bool_from(text) {
        return Ok(got(Value::Bool(value)));
    }
    match payload::int32_from(text) {
        Some(number) => Ok(got(Value::Int32(number))),
        None => Err(ParseFault::BadValue),
    }
}

// A payload that takes no memory.
#[tactic(auto, unfolding(crate::specs::Reading::small_from))]
fn small(kind: Kind, text: &[u8]) -> Option<Value>
    ensures { option_map value_of result ≡ reads.small_from kind text.now }
{
    match kind {
        Kind::Bool => Some(Value::Bool(payload::bool_from(text)?)),
        Kind::Int8 => Some(Value::Int8(payload::int8_from(text)?)),
        Kind::Int16 => Some(Value::Int16(payload::int16_from(text)?)),
        Kind::Int32 => Some(Value::Int32(payload::int32_from(text)?)),
        Kind::Int64 => Some(Value::Int64(payload::int64_from(text)?)),
        Kind::UInt8 => Some(Value::UInt8(payload::uint8_from(text)?)),
        Kind::UInt16 => Some(Value::UInt16(payload::uint16_from(text)?)),
        Kind::UInt32 => Some(Value::UInt32(payload::uint32_from(text)?)),
        Kind::UInt64 => Some(Value::UInt64(payload::uint64_from(text)?)),
        Kind::Messenger => Some(Value::Messenger(payload::address_from(text)?)),
        Kind::Text | Kind::Message | Kind::Raw => None,
    }
}

fn text_value(alloc: Global, text: &[u8]) -> Result<ReadValue, ParseFault>
    ensures { Gives got_of result (reads.text_from text.now) }
{
    match text_within(alloc, text)? {
        Limited::Within(text) => Ok(got(Value::Text(text))),
        Limited::Over => Ok(over(Kind::Text)),
    }
}

// The text in quotes, where it is not too long.
#[tactic(auto, unfolding(crate::specs::Reading::text_from))]
fn text_within(alloc: Global, text: &[u8]) -> Result<Limited<Text>, ParseFault>
    ensures { Gives reads.text_got result (reads.text_from text.now) }
{
    let bytes = unquoted(alloc, text)?;
    text_of(alloc, bytes.as_slice())
}

// The text of these bytes, where they are not too many.
#[tactic(auto, using(crate::proofs::TextKept::texts))]
fn text_of(alloc: Global, bytes: &[u8]) -> Result<Limited<Text>, ParseFault>
    ensures { Gives reads.text_got result (reads.text_of bytes.now) }
{
    if !is_utf8(bytes) {
        return Err(ParseFault::BadValue);
    }
    match Text::from_bytes(alloc, bytes) {
        Ok(text) => Ok(Limited::Within(text)),
        Err(TextFault::TooLong) => Ok(Limited::Over),
        Err(TextFault::NoMemory) => Err(ParseFault::NoMemory),
        Err(TextFault::NotUtf8) => Err(ParseFault::BadValue),
        Err(TextFault::Zero) => Err(ParseFault::BadValue),
    }
}

#[tactic(auto, unfolding(crate::specs::Reading::raw_value_from))]
fn raw_value(alloc: Global, text: &[u8]) -> Result<ReadValue, ParseFault>
    ensures { Gives got_of result (reads.raw_value_from text.now) }
{
    let bytes = raw_from(alloc, text)?;
    match Raw::from_bytes(alloc, bytes.as_slice()) {
        Ok(raw) => Ok(got(Value::Raw(raw))),
        Err(RawFault::TooLong) => Ok(over(Kind::Raw)),
        Err(RawFault::NoMemory) => Err(ParseFault::NoMemory),
    }
}

// ---- messages

#[cycle(values)]
fn value(alloc: Global, levels: u32, text: &[u8]) -> Result<ReadValue, ParseFault>
    requires { levels ≤ depth_limit }
    ensures { Gives got_of result (reads.value_with (reads.message_from levels) text.now) }
{
    match payload::kind_before(text) {
        Some(kind) => payload_value(alloc, levels, kind, &text[payload::LETTERS_LEN..]),
        None => short(alloc, text),
    }
}

#[cycle(values)]
fn payload_value(
    alloc: Global,
    levels: u32,
    kind: Kind,
    text: &[u8],
) -> Result<ReadValue, ParseFault>
    requires { levels ≤ depth_limit }
    ensures { Gives got_of result (reads.payload_from (reads.message_from levels) kind text.now) }
{
    if kind == Kind::Message {
        message(alloc, levels, text)
    } else if kind == Kind::Text {
        text_value(alloc, text)
    } else if kind == Kind::Raw {
        raw_value(alloc, text)
    } else {
        value_or_fault(small(kind, text))
    }
}

// A message's text in braces.
#[cycle(values)]
#[tactic(auto, unfolding(crate::specs::Reading::message_from))]
fn message(alloc: Global, levels: u32, text: &[u8]) -> Result<ReadValue, ParseFault>
    requires { levels ≤ depth_limit }
    ensures { Gives got_of result (reads.message_from levels text.now) }
{
    let Some(body) = braced(text) else {
        return Err(ParseFault::BadValue);
    };
    if levels == 0 {
        return Ok(over(Kind::Message));
    }
    let words = words_of(alloc, body)?;
    match message_of(alloc, levels - 1, &words)? {
        Limited::Within(message) => Ok(got(Value::from_message(alloc, message)?)),
        Limited::Over => Ok(over(Kind::Message)),
    }
}

// The words of a message's text: one blank or more stand between them, and none before or behind them.
#[tactic(auto, unfolding(crate::specs::Reading::words_of))]
fn words_of(alloc: Global, body: &[u8]) -> Result<Vec<&[u8]>, ParseFault>
    ensures { Gives (λ words. map seen words.items) result (reads.words_of body.now) }
{
    let pieces = pieces_of(alloc, Separator::Blank, body)?;
    if is_blank_at_an_end(&pieces) {
        return Err(ParseFault::BadValue);
    }
    Ok(filled(alloc, &pieces)?)
}

// The pieces that are not empty.
fn filled<'a>(alloc: Global, pieces: &[&'a [u8]]) -> Result<Vec<&'a [u8]>, NoMemory>
    ensures { IfOk result (λ words. map seen words.items ≡ filter reads.is_some_bytes (map seen pieces.now)) }
{
    let mut words = Vec::new(alloc);
    for piece in pieces {
        if !piece.is_empty() {
            words.push(*piece)?;
        }
    }
    Ok(words)
}

fn is_blank_at_an_end(pieces: &[&[u8]]) -> bool
    ensures { result ≡ reads.is_blank_at_an_end (map seen pieces.now) }
{
    is_missing(pieces.first()) || is_missing(pieces.last())
}

fn is_missing(piece: Option<&&[u8]>) -> bool
    ensures { result ≡ reads.is_missing (option_map (λ p. p.now.now) piece.entry) }
{
    match piece {
        Some(piece) => piece.is_empty(),
        None => true,
    }
}

#[cycle(values)]
#[tactic(auto, unfolding(crate::specs::Reading::message_of))]
fn message_of(alloc: Global, levels: u32, words: &[&[u8]]) -> Result<Limited<Message>, ParseFault>
    requires { levels ≤ 15 }
    ensures { Gives (λ m. m) result (reads.message_of (reads.message_from levels) (map seen words.now)) }
{
    let Some((first, fields)) = words.split_first() else {
        return Err(ParseFault::BadValue);
    };
    let Some(what) = read_code(first) else {
        return Err(ParseFault::BadValue);
    };
    let mut building = Building {
        names: IndexSet::new(alloc),
        message: Limited::Within(Message::new(alloc, what)),
    };
    for word in fields {
        building = field(alloc, levels, building, word)?;
    }
    Ok(building.message)
}

/// The code that a word writes: four letters in single quotes, or eight digits behind `0x`. `None` where it
/// writes none.
pub fn read_code(word: &[u8]) -> Option<Code>
    ensures number { option_map (λ c. c.0) result ≡ reads.code_from word.now }
    ensures code { result ≡ code_of word.now }
    ensures written { TellsCode result word.now }
{
    match Code::read(word) {
        Some(code) => Some(code),
        None => None,
    }
}

// The message with one field more.
#[cycle(values)]
#[tactic(auto, unfolding(crate::specs::Reading::field_behind))]
fn field<'a>(
    alloc: Global,
    levels: u32,
    building: Building<'a>,
    word: &'a [u8],
) -> Result<Building<'a>, ParseFault>
    requires { levels ≤ 15 }
    ensures { Gives built_of result (reads.field_behind (reads.message_from levels) (built_of building.entry) word.now) }
{
    let Some((name, text)) = split_field(word) else {
        return Err(ParseFault::BadValue);
    };
    let begun = begin(building, name)?;
    let texts = pieces_of(alloc, Separator::Comma, text)?;
    let Building { names, message } = begun;
    let message = add_values(alloc, levels, message, name, &texts)?;
    Ok(Building { names, message })
}

// A field begins. Its name has to be a new one.
fn begin<'a>(building: Building<'a>, name: &'a [u8]) -> Result<Building<'a>, ParseFault>
    ensures { Gives built_of result (reads.field_begun (built_of building.entry) name.now) }
{
    let Building { mut names, message } = building;
    if names.insert(name)? {
        Ok(Building { names, message })
    } else {
        Err(ParseFault::BadValue)
    }
}

// The message with the values of these texts, all of one kind, added under that name.
#[cycle(values)]
fn add_values(
    alloc: Global,
    levels: u32,
    message: Limited<Message>,
    name: &[u8],
    texts: &[&[u8]],
) -> Result<Limited<Message>, ParseFault>
    requires { levels ≤ 15 }
    ensures { Gives (λ m. m) result (reads.values_added (reads.message_from levels) name.now (map seen texts.now) None message) }
{
    let mut message = message;
    let mut kind = None;
    for text in texts {
        let read = value(alloc, levels, text)?;
        if !fits(kind, read.kind) {
            return Err(ParseFault::BadValue);
        }
        kind = Some(read.kind);
        message = with_value(message, name, read.value)?;
    }
    Ok(message)
}

fn fits(first: Option<Kind>, kind: Kind) -> bool
    ensures { result ≡ reads.fits first kind }
{
    match first {
        Some(first) => kind == first,
        None => true,
    }
}

// The message with one value more, where it has room for it.
fn with_value(
    message: Limited<Message>,
    name: &[u8],
    value: Limited<Value>,
) -> Result<Limited<Message>, ParseFault>
    ensures added { IfOk result (λ m. m ≡ reads.with_value message name.now (limited_map value_of value)) }
    ensures only { OnErr result (result ≡ Err ParseFault.NoMemory) }
{
    let Limited::Within(mut message) = message else {
        return Ok(Limited::Over);
    };
    let Limited::Within(value) = value else {
        return Ok(Limited::Over);
    };
    match message.add(name, value) {
        Ok(()) => Ok(Limited::Within(message)),
        Err(fault) => not_added(fault),
    }
}

// The value passes a limit, unless memory ran out.
fn not_added(fault: AddFault) -> Result<Limited<Message>, ParseFault>
    ensures kept { IfOk result (λ m. (m ≡ Over) × (fault ≢ AddFault.NoMemory)) }
    ensures only { OnErr result (result ≡ Err ParseFault.NoMemory) }
{
    match fault {
        AddFault::NoMemory => Err(ParseFault::NoMemory),
        AddFault::BadName | AddFault::BadType | AddFault::FieldLimit | AddFault::TooDeep => {
            Ok(Limited::Over)
        }
    }
}

// One value or more.
#[tactic(auto, unfolding(crate::specs::Reading::values_of))]
fn values(alloc: Global, levels: u32, text: &[u8]) -> Result<ReadValues, ParseFault>
    requires { levels ≤ 15 }
    ensures { Gives got_values_of result (reads.values_with (reads.message_from levels) text.now) }
{
    let pieces = pieces_of(alloc, Separator::Comma, text)?;
    let Some((first, others)) = pieces.split_first() else {
        return Err(ParseFault::BadValue);
    };
    let read = first_values(alloc, value(alloc, levels, first)?)?;
    further_values(alloc, levels, read, others)
}

fn further_values(
    alloc: Global,
    levels: u32,
    read: ReadValues,
    texts: &[&[u8]],
) -> Result<ReadValues, ParseFault>
    requires { levels ≤ 15 }
    ensures { Gives got_values_of result (reads.values_behind (reads.message_from levels) (map seen texts.now) (got_values_of read)) }
{
    let mut read = read;
    for text in texts {
        let one = value(alloc, levels, text)?;
        read = read.with(one)?;
    }
    Ok(read)
}

// The values so far and one more, at most 255.
fn joined(
    values: Limited<Vec<Value>>,
    value: Limited<Value>,
) -> Result<Limited<Vec<Value>>, ParseFault>
    ensures joined { IfOk result (λ all. limited_map (λ vs. map value_of vs.items) all
        ≡ reads.joined (limited_map (λ vs. map value_of vs.items) values) (limited_map value_of value)) }
    ensures only { OnErr result (result ≡ Err ParseFault.NoMemory) }
{
    let Limited::Within(mut values) = values else {
        return Ok(Limited::Over);
    };
    let Limited::Within(value) = value else {
        return Ok(Limited::Over);
    };
    if values.len() >= VALUE_LIMIT {
        return Ok(Limited::Over);
    }
    values.push(value)?;
    Ok(Limited::Within(values))
}

fn first_values(alloc: Global, first: ReadValue) -> Result<ReadValues, ParseFault>
    ensures first { IfOk result (λ read. got_values_of read ≡ reads.first_values (got_of first)) }
    ensures only { OnErr result (result ≡ Err ParseFault.NoMemory) }
{
    let ReadValue { kind, value } = first;
    Ok(ReadValues {
        kind,
        values: joined(Limited::Within(Vec::new(alloc)), value)?,
    })
}

impl ReadValues {
    // One value more, which has to be of the same kind.
    fn with(self, read: ReadValue) -> Result<ReadValues, ParseFault>
        ensures { Gives got_values_of result (reads.more_values (got_values_of self) (got_of read)) }
    {
        let ReadValues { kind, values } = self;
        let ReadValue { kind: other, value } = read;
        if other != kind {
            return Err(ParseFault::BadValue);
        }
        Ok(ReadValues {
            kind,
            values: joined(values, value)?,
        })
    }
}
