// The elements of a property: what no row of a desk tells of them, and what no run comes to.

ghost use Rattle.std.specs.Prelude.{◌≡◌, ◌<◌, ◌∷◌, [], Err, Some, length, pos, IfOk, IsOkUnless, OnOk};
ghost use Rattle.ak_message.specs.Message.{int32_value, kind_of};
ghost use Rattle.ak_message.specs.Seen.{value_of};
ghost use Rattle.ak_value.specs.Seen.{answer_of};
ghost use Rattle.ak_value.specs.declared.fault.ElementFault.TheVariants as fault;

use crate::compare::same;
use ElementFault::{BadIndex, BadScript, BadType, ElementLimit};
use ak_base::{Code, Items, Text};
use ak_message::{AtRef, Kind, Message, Value};
use ak_value::{ELEMENT_LIMIT, ElementFault, Elements};
use std::alloc::Global;
use std::test::Fail;

type Given = Result<Option<Items<Value>>, ElementFault>;

type Set = Result<(), ElementFault>;

// Creates an element. No run comes to the end of the ids, so what is answered there is proved: the last id is given, and
// then no other one.
fn create(elements: &mut Elements, message: &Message) -> Given
    ensures last { elements.old.next_id ≡ 2147483646 → IfOk result (λ values. answer_of values ≡ Some (int32_value (pos 2147483646) ∷ [])) }
    ensures then { elements.old.next_id ≡ 2147483646 → OnOk result (elements.new.next_id ≡ 2147483647) }
    ensures none { OnOk result (elements.old.next_id < 2147483647) }
{
    elements.access(Code::CREATE, AtRef::Direct, message)
}

// Adds an element. No run comes to the end of the ids, so what is answered there is proved: the last id is given, and
// then no other one.
fn add(elements: &mut Elements, name: Text, value: Value) -> Set
    ensures given { length elements.old.list < 64 → elements.old.next_id ≡ 2147483646 → elements.old.kind ≡ kind_of (value_of value) → IsOkUnless result fault.NoMemory }
    ensures last { elements.old.next_id ≡ 2147483646 → OnOk result (elements.new.next_id ≡ 2147483647) }
    ensures none { elements.old.next_id ≡ 2147483647 → elements.old.kind ≡ kind_of (value_of value) → result ≡ Err fault.ElementLimit }
    ensures kept { elements.old.next_id ≡ 2147483647 → elements.new ≡ elements.old }
{
    elements.add(name, value)
}

// A message with that number as `data`.
fn message(alloc: Global, number: i32) -> Result<Message, Fail> {
    let mut message = Message::new(alloc, Code(1));
    message.add(b"data", Value::Int32(number))?;
    Ok(message)
}

fn number_in(value: Option<&Value>) -> Option<i32> {
    match value {
        Some(Value::Int32(n)) => Some(*n),
        _ => None,
    }
}

// The first number that a command answers.
type Answer = Result<Option<i32>, ElementFault>;

fn asked(elements: &mut Elements, what: Code, at: AtRef<'_>, message: &Message) -> Answer {
    match elements.access(what, at, message)? {
        Some(values) => Ok(number_in(values.as_slice().first())),
        None => Ok(None),
    }
}

// Adds one without a name.
fn added(alloc: Global, elements: &mut Elements, value: Value) -> Result<Set, Fail> {
    let name = Text::from_bytes(alloc, b"")?;
    Ok(add(elements, name, value))
}

// The elements 10, 20 and 30, of which the first was deleted, and one that was created then.
fn changed(alloc: Global) -> Result<Elements, Fail> {
    let mut elements = Elements::new(alloc, Kind::Int32, Vec::new(alloc))?;
    for number in [10, 20, 30] {
        added(alloc, &mut elements, Value::Int32(number))??;
    }
    let message = message(alloc, 40)?;
    asked(&mut elements, Code::DELETE, AtRef::Id(1), &message)?;
    create(&mut elements, &message)?;
    asked(&mut elements, Code::DELETE, AtRef::Id(4), &message)?;
    Ok(elements)
}

// What is answered to commands that count, and that get the elements with the ids 1, 2 and 5.
type Seen = [Answer; 4];

fn seen(alloc: Global, elements: &mut Elements) -> Result<Seen, Fail> {
    let message = message(alloc, 50)?;
    Ok([
        asked(elements, Code::COUNT, AtRef::Direct, &message),
        asked(elements, Code::GET, AtRef::Id(1), &message),
        asked(elements, Code::GET, AtRef::Id(2), &message),
        asked(elements, Code::GET, AtRef::Id(5), &message),
    ])
}

// A copy to which 50 was added, and the elements that were copied.
fn copied(alloc: Global) -> Result<[Seen; 2], Fail> {
    let mut elements = changed(alloc)?;
    let mut copy = elements.try_clone()?;
    added(alloc, &mut copy, Value::Int32(50))??;
    Ok([seen(alloc, &mut copy)?, seen(alloc, &mut elements)?])
}

// What codes that are no commands are answered, and the id of an element that is created then.
fn no_commands(alloc: Global) -> Result<[Answer; 3], Fail> {
    let mut elements = changed(alloc)?;
    let message = message(alloc, 5)?;
    Ok([
        asked(&mut elements, Code::EXECUTE, AtRef::Direct, &message),
        asked(&mut elements, Code::SUITES, AtRef::Index(0), &message),
        asked(&mut elements, Code::CREATE, AtRef::Direct, &message),
    ])
}

// What is answered where there are 64 and a number is added, and a value of another kind.
fn limited(alloc: Global) -> Result<[Set; 2], Fail> {
    let mut elements = Elements::new(alloc, Kind::Int32, Vec::new(alloc))?;
    let message = message(alloc, 7)?;
    for _ in 0..ELEMENT_LIMIT {
        create(&mut elements, &message)?;
    }
    Ok([
        added(alloc, &mut elements, Value::Int32(7))?,
        added(alloc, &mut elements, Value::Bool(true))?,
    ])
}

#[test]
fn elements_are_added_and_copied(rt: HostRuntime) -> Result<(), Fail> {
    let alloc = rt.alloc();
    let copy = [Ok(Some(3)), Err(BadIndex), Ok(Some(20)), Ok(Some(50))];
    let first = [Ok(Some(2)), Err(BadIndex), Ok(Some(20)), Err(BadIndex)];
    same(&rt, "a copy, and the first", copied(alloc)?, [copy, first]);
    let told = [Err(BadScript), Err(BadScript), Ok(Some(5))];
    same(&rt, "no commands", no_commands(alloc)?, told);
    let told = [Err(ElementLimit), Err(BadType)];
    same(&rt, "64", limited(alloc)?, told);
    Ok(())
}
