//! A property of a handler: its row in a property table, its elements, and the commands of scripting messages
//! carried out on them. (The Be Book, BPropertyInfo and Scripting.)
#![tactic(auto)]

ghost use Rattle.std.specs.Prelude.{◌≡◌, OnErr};

use ak_base::{Code, Items, Text};
use ak_message::{At, Kind, Message, Specifier, Value};
use ak_property::{PropertyRow, PropertyTable};
use ak_specifier::{add_specifier, current, left};
use ak_value::{ElementFault, Elements};
use std::alloc::Global;
use std::fmt::Debug;
use std::process::ExitCode;

/// The example ends early: memory ran out, or nothing could be written. A program would have an enum here, with
/// a variant for each fault that it answers in its own way.
struct Stopped;

impl<E: Debug + Drop> From<E> for Stopped {
    fn from(_error: E) -> Stopped {
        Stopped
    }
}

/// The property `Score`: numbers that commands may get, set and count, by every form of specifier.
fn table(alloc: Global) -> Result<PropertyTable, Stopped> {
    let mut table = PropertyTable::new(alloc);
    table.add_row(PropertyRow {
        name: Text::from_bytes(alloc, b"Score")?,
        kind: Kind::Int32,
        commands: Items::from_vec(vec![in alloc; Code::GET, Code::SET, Code::COUNT]?),
        forms: Items::from_vec(Vec::new(alloc)),
        usage: Text::from_bytes(alloc, b"the points of each player")?,
    })?;
    Ok(table)
}

/// The elements of the property: three numbers, of which the second has a name.
fn scores(alloc: Global) -> Result<Elements, Stopped> {
    let mut scores = Elements::new(alloc, Kind::Int32, Vec::new(alloc))?;
    scores.add(Text::from_bytes(alloc, b"")?, Value::Int32(10))?;
    scores.add(Text::from_bytes(alloc, b"Anna")?, Value::Int32(20))?;
    scores.add(Text::from_bytes(alloc, b"")?, Value::Int32(30))?;
    Ok(scores)
}

/// A command on these elements of the property `Score`.
fn command(alloc: Global, what: Code, at: At) -> Result<Message, Stopped> {
    let mut command = Message::new(alloc, what);
    let property = Text::from_bytes(alloc, b"Score")?;
    add_specifier(alloc, &mut command, Specifier { property, at })?;
    Ok(command)
}

/// Carries out the command where a row of the table takes it. Answers the values that it asks for, if it does.
fn carry_out(
    table: &PropertyTable,
    scores: &mut Elements,
    command: &Message,
) -> Result<Option<Items<Value>>, ElementFault>
    ensures unchanged { OnErr result (scores.new ≡ scores.old) }
{
    let Ok(specifier) = current(command) else {
        return Err(ElementFault::BadScript);
    };
    let (what, form) = (command.what(), specifier.at.form());
    let others = left(command).saturating_sub(1);
    match table.find_match(what, others, form, specifier.property) {
        Some(_row) => scores.access(what, specifier.at, command),
        None => Err(ElementFault::BadScript),
    }
}

/// Prints what the command is answered.
fn show(
    rt: &impl Print,
    table: &PropertyTable,
    scores: &mut Elements,
    label: &str,
    command: &Message,
) -> Result<(), Stopped> {
    print!(rt; "{label}:")?;
    match carry_out(table, scores, command) {
        Ok(Some(values)) => print_values(rt, values.as_slice())?,
        Ok(None) => print!(rt; " done")?,
        Err(fault) => print!(rt; " refused, {fault:?}")?,
    }
    println!(rt; "")?;
    Ok(())
}

fn print_values(rt: &impl Print, values: &[Value]) -> Result<(), Stopped> {
    for value in values {
        if let Value::Int32(number) = value {
            print!(rt; " {number}")?;
        }
    }
    Ok(())
}

fn run(rt: &(impl Print + AllocGlobal)) -> Result<(), Stopped> {
    let alloc = rt.alloc();
    let (table, mut scores) = (table(alloc)?, scores(alloc)?);
    let mut set = command(
        alloc,
        Code::SET,
        At::Name(Text::from_bytes(alloc, b"Anna")?),
    )?;
    set.add(b"data", Value::Int32(25))?;
    show(rt, &table, &mut scores, "set Anna's to 25", &set)?;
    let commands = [
        ("get all three", Code::GET, At::Range { index: 0, count: 3 }),
        ("get the last one", Code::GET, At::Reverse(1)),
        ("count", Code::COUNT, At::Direct),
        ("get the eighth", Code::GET, At::Index(7)),
        ("delete the first", Code::DELETE, At::Index(0)),
    ];
    for (label, what, at) in commands {
        show(rt, &table, &mut scores, label, &command(alloc, what, at)?)?;
    }
    Ok(())
}

fn main(rt: HostRuntime) -> ExitCode {
    match run(&rt) {
        Ok(()) => ExitCode::SUCCESS,
        Err(Stopped) => ExitCode::FAILURE,
    }
}
