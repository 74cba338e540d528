ghost use Rattle.std.specs.Prelude.{◌≡◌, ◌≤◌, [], None, length, position, Ok, Err, OnOk, OnErr, IfOk, option_map, IfSome, IfNone, IsOkUnless, slice_get};
ghost use Rattle.ak_message.specs.Message.{kind_of, depth_of_value};
ghost use Rattle.ak_message.specs.Seen.{value_of, field_of, fields_of, field_ref_of};
ghost use Rattle.ak_message.specs.Fields.{AddedValuesAreFound, added, add_fault, found_in, first_named, is_named, place_fault, field_named, new_field, with_value, specifier_count};
ghost use Rattle.ak_message.specs.Finds.{Finds};
ghost use Rattle.ak_message.specs.Whole.{FitsValue};

use crate::address::Address;
use crate::fault::{AddFault, FindFault};
use crate::field_ref::FieldRef;
use crate::kind::Kind;
use ak_base::{Bytes, Code, NoMemory, Raw, Text, is_word};
use std::alloc::Global;
use std::marker::Model;

mod changes;
mod copies;

/// How many fields a message may have.
pub const FIELD_LIMIT: usize = 64;

/// How many values a field may have.
pub const VALUE_LIMIT: usize = 255;

/// How deep messages may stand in one another.
pub const DEPTH_LIMIT: u32 = 16;

/// One value of a field. A message is boxed, since a value may hold messages in messages. The variants are
/// those of `Kind`.
#[cycle(message)]
#[derive(Drop)]
pub enum Value {
    Bool(bool),
    Int8(i8),
    Int16(i16),
    Int32(i32),
    Int64(i64),
    UInt8(u8),
    UInt16(u16),
    UInt32(u32),
    UInt64(u64),
    Text(Text),
    Message(Box<Message>),
    Messenger(Address),
    Raw(Raw),
}

/// The values of one name, all of one kind. A reader sees it as a `FieldRef`.
#[cycle(message)]
#[derive(Drop)]
pub struct Field {
    name: Bytes,
    kind: Kind,
    values: Vec<Value>,
}

/// A code and fields in the order of adding, at most 64. Their names are words and differ, and each has 1 to
/// 255 values of one kind. Messages stand at most 16 deep, the outer one counted. A message counts those of
/// its specifiers that are popped. Contracts see its code, its fields and that count. (The Be Book, The
/// Application Kit, BMessage.)
#[cycle(message)]
#[derive(Drop)]
pub struct Message {
    what: Code,
    fields: Vec<Field>,
    // how many of the specifiers are popped, counted from the last
    popped: u32,
    // how deep messages stand in this one, itself counted
    depth: u32,
}

impl Model for Message {
    ghost use Rattle.ak_message.specs.Message.{MessageData, depth_of};
    ghost use Rattle.ak_message.specs.MessageCode.{coded_message};

    ghost Value = { MessageData };

    ghost coded = { coded_message };

    ghost use Rattle.ak_message.specs.Inside.{message_in, IsSound};

    ghost view = { message_in };

    ghost invariant = { IsSound };

    ghost size = { depth_of };

    ghost use Rattle.ak_message.specs.Falls.{child_size-falls};

    ghost size_decreases = { child_size-falls };
}

impl Value {
    ghost use Rattle.ak_message.specs.Message.{value_of_message};

    /// The message as a value. It is put into a box: `NoMemory` where there is none, and then the message is
    /// dropped.
    pub fn from_message(alloc: Global, message: Message) -> Result<Value, NoMemory>
        ensures { IfOk result (λ v. value_of v ≡ value_of_message message) }
    {
        Ok(Value::Message(Box::new(alloc, message)?))
    }

    /// Its kind. Takes no memory.
    pub fn kind(&self) -> Kind
        ensures { result ≡ kind_of (value_of self.now) }
    {
        match self {
            Value::Bool(_) => Kind::Bool,
            Value::Int8(_) => Kind::Int8,
            Value::Int16(_) => Kind::Int16,
            Value::Int32(_) => Kind::Int32,
            Value::Int64(_) => Kind::Int64,
            Value::UInt8(_) => Kind::UInt8,
            Value::UInt16(_) => Kind::UInt16,
            Value::UInt32(_) => Kind::UInt32,
            Value::UInt64(_) => Kind::UInt64,
            Value::Text(_) => Kind::Text,
            Value::Message(_) => Kind::Message,
            Value::Messenger(_) => Kind::Messenger,
            Value::Raw(_) => Kind::Raw,
        }
    }

    /// How deep messages stand in it: 0 where it is none, 1 for a message without messages in it. Takes no
    /// memory.
    pub fn depth(&self) -> u32
        ensures { result ≡ depth_of_value (value_of self.now) }
    {
        match self {
            Value::Message(message) => message.depth(),
            _ => 0,
        }
    }

    // What is true of every value: reading one shows it.
    fn shows_that_it_fits(&self)
        ensures { FitsValue (value_of self.now) }
    {
        match self {
            Value::Bool(_) => {}
            Value::Int8(number) => {
                let _number = *number;
            }
            Value::Int16(number) => {
                let _number = *number;
            }
            Value::Int32(number) => {
                let _number = *number;
            }
            Value::Int64(number) => {
                let _number = *number;
            }
            Value::UInt8(number) => {
                let _number = *number;
            }
            Value::UInt16(number) => {
                let _number = *number;
            }
            Value::UInt32(number) => {
                let _number = *number;
            }
            Value::UInt64(number) => {
                let _number = *number;
            }
            Value::Text(text) => {
                let _bytes = text.as_bytes();
            }
            Value::Message(message) => {
                let _code = message.what();
            }
            Value::Messenger(address) => address.shows_that_it_fits(),
            Value::Raw(raw) => {
                let _bytes = raw.as_bytes();
            }
        }
    }
}

impl Message {
    ghost use Rattle.ak_message.specs.Message.{depth_of};
    ghost use Rattle.ak_message.specs.Fields.{IsMessage};
    ghost use Rattle.ak_message.specs.Whole.{IsWhole};

    /// A message of this code, without fields. Takes no memory.
    pub fn new(alloc: Global, what: Code) -> Message
        ensures { result ≡ record { what = what.0; fields = []; popped = 0 } }
    {
        Message {
            what,
            fields: Vec::new(alloc),
            popped: 0,
            depth: 1,
        }
    }

    /// A message of this code, without fields, and memory for so many. `NoMemory` where that is not to be
    /// had.
    pub fn with_capacity(alloc: Global, what: Code, fields: usize) -> Result<Message, NoMemory>
        ensures { IfOk result (λ m. m ≡ record { what = what.0; fields = []; popped = 0 }) }
    {
        let mut message = Message::new(alloc, what);
        message.fields = Vec::with_capacity(alloc, fields)?;
        Ok(message)
    }

    /// Its code. (The Be Book, The Application Kit, BMessage: what.)
    pub fn what(&self) -> Code
        ensures value { result.0 ≡ self.now.what }
        ensures is_message { IsMessage self.now }
        ensures is_whole { IsWhole self.now }
    {
        self.what
    }

    /// How many of its specifiers are popped, counted from the last.
    pub fn popped(&self) -> u32
        ensures value { result ≡ self.now.popped }
        ensures within { self.now.popped ≤ specifier_count self.now.fields }
    {
        self.popped
    }

    fn depth(&self) -> u32
        ensures { result ≡ depth_of self.now }
    {
        self.depth
    }

    /// Gives it another code, and changes nothing else.
    pub fn set_what(&mut self, what: Code)
        ensures { self.new ≡ record self.old { what = what.0 } }
    {
        self.what = what;
    }

    /// Pops so many of its specifiers, counted from the last, and changes nothing else. It has to have so
    /// many.
    pub fn set_popped(&mut self, count: u32)
        requires { count ≤ specifier_count self.old.fields }
        ensures { self.new ≡ record self.old { popped = count } }
    {
        self.popped = count;
    }

    /// Removes every field. Its code stays. Nothing is popped then. (The Be Book, The Application Kit,
    /// BMessage: MakeEmpty().)
    pub fn make_empty(&mut self)
        ensures { self.new ≡ record self.old { fields = []; popped = 0 } }
    {
        self.fields.clear();
        self.popped = 0;
        self.depth = 1;
    }

    /// Adds the value at the end of the field of that name, or in a new field at the end. The faults are
    /// tested in the order of `AddFault`. An `Err` changes nothing, and the value is dropped. `NoMemory`
    /// comes last. (The Be Book, The Application Kit, BMessage: AddData().)
    pub fn add(&mut self, name: &[u8], value: Value) -> Result<(), AddFault>
        ensures refused { IfSome (add_fault self.old.fields name.now (value_of value)) (λ f. result ≡ Err f) }
        ensures only { IfNone (add_fault self.old.fields name.now (value_of value)) (IsOkUnless result AddFault.NoMemory) }
        ensures ok { OnOk result (self.new ≡ record self.old { fields = added self.old.fields name.now (value_of value) }) }
        ensures err { OnErr result (self.new ≡ self.old) }
    {
        if let Some(fault) = self.add_fault(name, &value) {
            return Err(fault);
        }
        let depth = value.depth();
        value.shows_that_it_fits();
        put(&mut self.fields, name, value)?;
        self.depth = self.depth.max(depth + 1);
        Ok(())
    }

    /// Adds a value that is known to have room, as `add` does. An `Err` changes nothing, and the value is
    /// dropped. It is for who has tested that `add` would refuse it for want of memory alone.
    pub fn add_fitting(&mut self, name: &[u8], value: Value) -> Result<(), NoMemory>
        requires { add_fault self.old.fields name.now (value_of value) ≡ None }
        ensures ok { OnOk result (self.new ≡ record self.old { fields = added self.old.fields name.now (value_of value) }) }
        ensures err { OnErr result (self.new ≡ self.old) }
    {
        match self.add(name, value) {
            Ok(()) => Ok(()),
            Err(fault) => {
                prove!(matches!(fault, AddFault::NoMemory));
                Err(NoMemory)
            }
        }
    }

    // Why the value is not added, if memory is there.
    fn add_fault(&self, name: &[u8], value: &Value) -> Option<AddFault>
        ensures { result ≡ add_fault self.now.fields name.now (value_of value.now) }
    {
        if !is_word(name) {
            return Some(AddFault::BadName);
        }
        if let Some(fault) = place_fault(&self.fields, name, value.kind()) {
            return Some(fault);
        }
        if value.depth() >= DEPTH_LIMIT {
            return Some(AddFault::TooDeep);
        }
        None
    }

    /// The value at that place of the field of that name and kind. The faults are tested in the order of
    /// `FindFault`. Takes no memory. Places count from 0. (The Be Book, The Application Kit, BMessage:
    /// FindData().)
    pub fn find(&self, name: &[u8], kind: Kind, index: u32) -> Result<&Value, FindFault>
        ensures { Finds result (found_in self.now.fields name.now kind index) }
    {
        let Some(field) = field_named(&self.fields, name) else {
            return Err(FindFault::NameNotFound);
        };
        if field.kind != kind {
            return Err(FindFault::BadType);
        }
        match field.values.get(index as usize) {
            Some(value) => Ok(value),
            None => Err(FindFault::BadIndex),
        }
    }

    /// The first value of the field of that name, of whatever kind. `None` where there is no such field.
    /// Takes no memory.
    pub fn first_named(&self, name: &[u8]) -> Option<&Value>
        ensures { option_map (λ v. value_of v.now) result ≡ first_named self.now.fields name.now }
    {
        let field = field_named(&self.fields, name)?;
        field.values.first()
    }

    /// How many names it has, so how many fields: at most 64. (The Be Book, The Application Kit, BMessage:
    /// CountNames().)
    pub fn count_names(&self) -> u32
        ensures { result ≡ length self.now.fields }
    {
        self.fields.len() as u32
    }

    /// Field `i`, in the order of adding. `None` past the last one. Fields count from 0. Takes no memory.
    /// (The Be Book, The Application Kit, BMessage: GetInfo().)
    pub fn field_at(&self, place: u32) -> Option<FieldRef<'_>>
        ensures { option_map field_ref_of result ≡ slice_get self.now.fields place }
    {
        let field = self.fields.get(place as usize)?;
        Some(FieldRef {
            name: field.name.as_slice(),
            kind: field.kind,
            values: field.values.as_slice(),
        })
    }

    /// How many specifiers it has: the values of the field `specifiers` of messages, at most 255. 0 where
    /// that field is of another kind. Popped ones are counted.
    pub fn specifiers(&self) -> u32
        ensures { result ≡ specifier_count self.now.fields }
    {
        specifiers_among(&self.fields) as u32
    }
}

// How many values the field `specifiers` of messages has.
fn specifiers_among(fields: &[Field]) -> usize
    ensures { result ≡ specifier_count (fields_of fields.now) }
{
    match field_named(fields, b"specifiers") {
        Some(field) if field.kind == Kind::Message => field.values.len(),
        _ => 0,
    }
}

// Why no value of that kind has room in the field of that name.
fn place_fault(fields: &[Field], name: &[u8], kind: Kind) -> Option<AddFault>
    ensures { result ≡ place_fault (length fields.now) (field_named (fields_of fields.now) name.now) kind }
{
    let Some(field) = field_named(fields, name) else {
        return if fields.len() >= FIELD_LIMIT {
            Some(AddFault::FieldLimit)
        } else {
            None
        };
    };
    if field.kind != kind {
        return Some(AddFault::BadType);
    }
    if field.values.len() >= VALUE_LIMIT {
        Some(AddFault::FieldLimit)
    } else {
        None
    }
}

// The field of that name.
fn field_named<'a>(fields: &'a [Field], name: &[u8]) -> Option<&'a Field>
    ensures { option_map (λ f. field_of f.now) result ≡ field_named (fields_of fields.now) name.now }
{
    for field in fields {
        if field.name.as_slice() == name {
            return Some(field);
        }
    }
    None
}

// Where the field of that name stands.
fn place_of(fields: &[Field], name: &[u8]) -> Option<usize>
    ensures { result ≡ position (is_named name.now) (fields_of fields.now) }
{
    for (place, field) in fields.iter().enumerate() {
        if field.name.as_slice() == name {
            return Some(place);
        }
    }
    None
}

// Adds a value that has been tested. After an `Err` the fields are seen as they were.
#[tactic(auto, using(crate::proofs::Adding::additions))]
fn put(fields: &mut Vec<Field>, name: &[u8], value: Value) -> Result<(), NoMemory>
    ensures ok { OnOk result (fields_of fields.new.items ≡ added (fields_of fields.old.items) name.now (value_of value)) }
    ensures err { OnErr result (fields_of fields.new.items ≡ fields_of fields.old.items) }
{
    match place_of(fields.as_slice(), name) {
        Some(place) => fields[place].push(value),
        None => {
            let field = Field::with_value(*fields.allocator(), name, value)?;
            fields.push(field)?;
            Ok(())
        }
    }
}

/// What is added without a fault is found after it, behind the values of its name. What was found before is
/// found where it was.
pub fn added_values_are_found()
    ensures { AddedValuesAreFound }
{}

impl Field {
    fn with_value(alloc: Global, name: &[u8], value: Value) -> Result<Field, NoMemory>
        ensures { IfOk result (λ f. field_of f ≡ new_field name.now (value_of value)) }
    {
        let kind = value.kind();
        let mut bytes = Bytes::with_capacity(alloc, name.len())?;
        bytes.extend(name)?;
        // Most fields have one value, so room is made for no more.
        let mut values = Vec::with_capacity(alloc, 1)?;
        values.push(value)?;
        Ok(Field {
            name: bytes,
            kind,
            values,
        })
    }

    // One more value, of its kind. After an `Err` the field is seen as it was.
    fn push(&mut self, value: Value) -> Result<(), NoMemory>
        ensures ok { OnOk result (field_of self.new ≡ with_value (field_of self.old) (value_of value)) }
        ensures err { OnErr result (field_of self.new ≡ field_of self.old) }
    {
        self.values.push(value)?;
        Ok(())
    }
}
