// Messages: what is added, found, replaced and removed.

use crate::compare::same;
use crate::plain::{Plain, nested, shown, value, words};
use Op::{
    Add, Add64, AddNumbers, Copied, Empty, Find, First, Names, Pop, Popped, Reads, RemoveData,
    RemoveName, Rename, Replace, Take, What, Within,
};
use Plain::{Bare, Deep, Int32, Words};
use Told::{Added, Count, Found, Removed, Replaced, Seen, Shown};
use ak_base::Code;
use ak_message::{AddFault, FindFault, Kind, Message, RemoveFault, ReplaceFault, Target, Value};
use std::alloc::Global;
use std::mem;
use std::process::Abort;
use std::test::Fail;

// Adds numbers under that name, from the first one on and before the end.
fn add_numbers(message: &mut Message, name: &[u8], first: i32, end: i32) -> Result<(), AddFault> {
    for n in first..end {
        message.add(name, Value::Int32(n))?;
    }
    Ok(())
}

// Adds so many fields as a message may have, each of one number; among them are `a`, `b`, `c` and `d`.
fn add_64_fields(message: &mut Message) -> Result<(), AddFault> {
    for name in b'0'..b'0' + 10 {
        for more in b'a'..b'a' + 6 {
            message.add(&[name, more], Value::Int32(1))?;
        }
    }
    for name in [b"a", b"b", b"c", b"d"] {
        message.add(name, Value::Int32(1))?;
    }
    Ok(())
}

// ---- what is done, and what is answered
// What is done to a message or asked of it.
#[derive(Clone, Copy)]
enum Op {
    Add(&'static [u8], Plain),
    // The numbers from the first one on and before the end.
    AddNumbers(&'static [u8], i32, i32),
    Add64,
    Replace(&'static [u8], u32, Plain),
    RemoveData(&'static [u8], u32),
    RemoveName(&'static [u8]),
    // The first value is taken out.
    Take(&'static [u8], Kind),
    Rename(u32),
    Pop(u32),
    Empty,
    // A copy takes its place, and the message is made empty then.
    Copied,
    // It is put into messages in one another, so many deep, which take its place.
    Within(u32),
    Find(&'static [u8], Kind, u32),
    // Whether the first text reads so.
    Reads(&'static [u8], &'static str),
    First(&'static [u8]),
    What,
    Names,
    Popped,
}

#[derive(Clone, Copy, PartialEq, Debug)]
enum Told {
    Added(Result<(), AddFault>),
    Replaced(Result<(), ReplaceFault>),
    Removed(Result<(), RemoveFault>),
    // What is shown of the value.
    Found(Result<i128, FindFault>),
    Shown(Option<i128>),
    // With its kind, and how deep it is.
    Seen(Option<(i128, Kind, u32)>),
    Count(u32),
}

fn found(message: &Message, name: &[u8], kind: Kind, index: u32) -> Result<i128, FindFault> {
    Ok(shown(message.find(name, kind, index)?))
}

fn first_of(message: &Message, name: &[u8]) -> Option<(i128, Kind, u32)> {
    let value = message.first_named(name)?;
    Some((shown(value), value.kind(), value.depth()))
}

fn asked(message: &Message, op: Op) -> Told {
    match op {
        Find(name, kind, index) => Found(found(message, name, kind, index)),
        Reads(name, text) => Count(u32::from(words(message, name, 0) == Some(text))),
        First(name) => Seen(first_of(message, name)),
        What => Count(message.what().0),
        Names => Count(message.count_names()),
        _ => Count(message.popped()),
    }
}

fn take_shown(message: &mut Message, name: &[u8], kind: Kind) -> Option<i128> {
    let value = message.take_first(name, kind)?;
    Some(shown(&value))
}

// Changes a message otherwise than by its values.
fn changed(alloc: Global, message: &mut Message, op: Op) -> Result<Told, Fail> {
    match op {
        Rename(what) => message.set_what(Code(what)),
        Pop(popped) => {
            if popped <= message.specifiers() {
                message.set_popped(popped);
            }
        }
        Empty => message.make_empty(),
        Copied => {
            let copy = message.try_clone()?;
            message.make_empty();
            *message = copy;
        }
        Within(depth) => {
            let inner = mem::replace(message, nested(alloc, depth)?);
            return Ok(Added(message.add(b"m", Value::from_message(alloc, inner)?)));
        }
        _ => return Ok(asked(message, op)),
    }
    Ok(Added(Ok(())))
}

fn done(alloc: Global, message: &mut Message, op: Op) -> Result<Told, Fail> {
    Ok(match op {
        Add(name, plain) => Added(message.add(name, value(alloc, plain)?)),
        AddNumbers(name, first, end) => Added(add_numbers(message, name, first, end)),
        Add64 => Added(add_64_fields(message)),
        Replace(name, index, plain) => Replaced(message.replace(name, index, value(alloc, plain)?)),
        RemoveData(name, index) => Removed(message.remove_data(name, index)),
        RemoveName(name) => Removed(message.remove_name(name)),
        Take(name, kind) => Shown(take_shown(message, name, kind)),
        _ => changed(alloc, message, op)?,
    })
}

// Each step is answered so, where they are taken in this order.
fn are_done(
    rt: &impl Abort,
    alloc: Global,
    label: &str,
    message: &mut Message,
    steps: &[(Op, Told)],
) -> Result<(), Fail> {
    for (place, (op, wanted)) in steps.iter().enumerate() {
        same(rt, (label, place), done(alloc, message, *op)?, *wanted);
    }
    Ok(())
}

// ---- the rows
static SCRIPTS: [(&str, &[(Op, Told)]); 10] = [
    (
        "values are found",
        &[
            (First(b"n"), Seen(None)),
            (Add(b"a", Words(b"x")), Added(Ok(()))),
            (Add(b"n", Int32(-5)), Added(Ok(()))),
            (Add(b"n", Int32(6)), Added(Ok(()))),
            (What, Count(7)),
            (Popped, Count(0)),
            (Find(b"n", Kind::Int32, 0), Found(Ok(-5))),
            (Find(b"n", Kind::Int32, 1), Found(Ok(6))),
            (Reads(b"a", "x"), Count(1)),
            (Find(b"a", Kind::Int32, 7), Found(Err(FindFault::BadType))),
            (
                Find(b"b", Kind::Int32, 0),
                Found(Err(FindFault::NameNotFound)),
            ),
            (Find(b"a", Kind::Text, 1), Found(Err(FindFault::BadIndex))),
            (Find(b"n", Kind::Int32, 2), Found(Err(FindFault::BadIndex))),
        ],
    ),
    (
        "additions are refused",
        &[
            (Add(b"a", Words(b"x")), Added(Ok(()))),
            (Add(b"a", Int32(5)), Added(Err(AddFault::BadType))),
            (Add(b"", Int32(5)), Added(Err(AddFault::BadName))),
            (Add(b"a b", Int32(5)), Added(Err(AddFault::BadName))),
        ],
    ),
    (
        "fields and values are limited",
        &[
            (Add64, Added(Ok(()))),
            (Add(b"e", Int32(1)), Added(Err(AddFault::FieldLimit))),
            (AddNumbers(b"a", 1, 255), Added(Ok(()))),
            (Add(b"a", Int32(1)), Added(Err(AddFault::FieldLimit))),
            (Find(b"a", Kind::Int32, 254), Found(Ok(254))),
        ],
    ),
    (
        "depth is limited",
        &[
            (Add(b"m", Deep(16)), Added(Err(AddFault::TooDeep))),
            (Add(b"m", Deep(15)), Added(Ok(()))),
            (Find(b"m", Kind::Message, 0), Found(Ok(1))),
        ],
    ),
    (
        "values are replaced",
        &[
            (Add(b"a", Words(b"x")), Added(Ok(()))),
            (
                Replace(b"a", 0, Int32(-5)),
                Replaced(Err(ReplaceFault::BadType)),
            ),
            (
                Replace(b"a", 1, Int32(-5)),
                Replaced(Err(ReplaceFault::BadType)),
            ),
            (
                Replace(b"a", 1, Words(b"xyz")),
                Replaced(Err(ReplaceFault::BadIndex)),
            ),
            (
                Replace(b"b", 0, Int32(-5)),
                Replaced(Err(ReplaceFault::NameNotFound)),
            ),
            (Replace(b"a", 0, Words(b"xyz")), Replaced(Ok(()))),
            (Find(b"a", Kind::Text, 0), Found(Ok(3))),
            (AddNumbers(b"n", 1, 4), Added(Ok(()))),
            (Replace(b"n", 1, Int32(7)), Replaced(Ok(()))),
            (Find(b"n", Kind::Int32, 0), Found(Ok(1))),
            (Find(b"n", Kind::Int32, 1), Found(Ok(7))),
            (Find(b"n", Kind::Int32, 2), Found(Ok(3))),
            (Find(b"n", Kind::Int32, 3), Found(Err(FindFault::BadIndex))),
            (Find(b"a", Kind::Text, 0), Found(Ok(3))),
        ],
    ),
    (
        "values are removed",
        &[
            (AddNumbers(b"n", 1, 4), Added(Ok(()))),
            (RemoveData(b"b", 0), Removed(Err(RemoveFault::NameNotFound))),
            (RemoveData(b"n", 3), Removed(Err(RemoveFault::BadIndex))),
            (Take(b"n", Kind::Text), Shown(None)),
            (Take(b"n", Kind::Int32), Shown(Some(1))),
            (RemoveData(b"n", 1), Removed(Ok(()))),
            (Find(b"n", Kind::Int32, 0), Found(Ok(2))),
            (RemoveData(b"n", 0), Removed(Ok(()))),
            (Names, Count(0)),
            (RemoveName(b"n"), Removed(Err(RemoveFault::NameNotFound))),
        ],
    ),
    (
        "depth falls with a change",
        &[
            (Add(b"m", Deep(15)), Added(Ok(()))),
            (
                Replace(b"m", 0, Deep(16)),
                Replaced(Err(ReplaceFault::TooDeep)),
            ),
            (Replace(b"m", 0, Deep(14)), Replaced(Ok(()))),
            (Within(1), Added(Ok(()))),
            (RemoveName(b"m"), Removed(Ok(()))),
            (Within(15), Added(Ok(()))),
        ],
    ),
    (
        "what is popped is lowered",
        &[
            (Add(b"specifiers", Bare(Code(2))), Added(Ok(()))),
            (Add(b"specifiers", Bare(Code(2))), Added(Ok(()))),
            (Pop(2), Added(Ok(()))),
            (Popped, Count(2)),
            (RemoveData(b"specifiers", 0), Removed(Ok(()))),
            (Popped, Count(1)),
            (RemoveName(b"specifiers"), Removed(Ok(()))),
            (Popped, Count(0)),
        ],
    ),
    (
        "a copy keeps what is popped",
        &[
            (Add(b"specifiers", Bare(Code(2))), Added(Ok(()))),
            (Add(b"specifiers", Bare(Code(2))), Added(Ok(()))),
            (Pop(2), Added(Ok(()))),
            (Copied, Added(Ok(()))),
            (Rename(5), Added(Ok(()))),
            (Popped, Count(2)),
            (Empty, Added(Ok(()))),
            (Popped, Count(0)),
            (Names, Count(0)),
            (What, Count(5)),
        ],
    ),
    (
        "the first value of a name is found",
        &[
            (Add(b"m", Plain::Bool(true)), Added(Ok(()))),
            (Add(b"n", Int32(7)), Added(Ok(()))),
            (Add(b"n", Int32(8)), Added(Ok(()))),
            (Add(b"d", Deep(3)), Added(Ok(()))),
            (First(b"n"), Seen(Some((7, Kind::Int32, 0)))),
            (First(b"d"), Seen(Some((1, Kind::Message, 3)))),
            (First(b"nn"), Seen(None)),
        ],
    ),
];

static ROOMY: [(Op, Told); 2] = [(What, Count(8)), (Names, Count(0))];

#[test]
fn messages_are_changed_and_asked(rt: HostRuntime) -> Result<(), Fail> {
    let alloc = rt.alloc();
    for (label, steps) in &SCRIPTS {
        let mut message = Message::new(alloc, Code(7));
        are_done(&rt, alloc, label, &mut message, steps)?;
    }
    let mut message = Message::with_capacity(alloc, Code(8), 3)?;
    are_done(&rt, alloc, "roomy", &mut message, &ROOMY)
}

// ---- every kind
// A name, a kind, a value of it, and what is shown of that.
static KINDS: [(&str, Kind, Plain, i128); 13] = [
    ("bool", Kind::Bool, Plain::Bool(true), 1),
    ("int8", Kind::Int8, Plain::Int8(-128), -128),
    ("int16", Kind::Int16, Plain::Int16(-32768), -32768),
    ("int32", Kind::Int32, Plain::Int32(-5), -5),
    ("int64", Kind::Int64, Plain::Int64(-6), -6),
    ("uint8", Kind::UInt8, Plain::UInt8(255), 255),
    ("uint16", Kind::UInt16, Plain::UInt16(65535), 65535),
    ("uint32", Kind::UInt32, Plain::UInt32(7), 7),
    (
        "uint64",
        Kind::UInt64,
        Plain::UInt64(u64::MAX),
        18446744073709551615,
    ),
    ("text", Kind::Text, Plain::Words(b"xyz"), 3),
    ("message", Kind::Message, Plain::Bare(Code(9)), 9),
    (
        "messenger",
        Kind::Messenger,
        Plain::For(Target::Token(8)),
        1,
    ),
    ("raw", Kind::Raw, Plain::Raw(&[0xff, 0]), 2),
];

fn with_all_kinds(alloc: Global) -> Result<Message, Fail> {
    let mut message = Message::new(alloc, Code(1));
    for (name, _, plain, _) in &KINDS {
        message.add(name.as_bytes(), value(alloc, *plain)?)?;
    }
    Ok(message)
}

// What is told of a value of that name and kind: its kind, and what it and a copy of it show.
fn told_of_value(
    alloc: Global,
    message: &Message,
    name: &str,
    kind: Kind,
) -> Result<(Kind, i128, i128), Fail> {
    let value = message.find(name.as_bytes(), kind, 0)?;
    let copy = value.try_clone(alloc)?;
    Ok((value.kind(), shown(value), shown(&copy)))
}

// The name and kind of the field at that place, and how many values it has.
fn told_of_field(message: &Message, place: u32) -> Option<(&[u8], Kind, usize)> {
    let field = message.field_at(place)?;
    Some((field.name, field.kind, field.values.len()))
}

fn are_all_kept(rt: &impl Abort, alloc: Global, message: &Message) -> Result<(), Fail> {
    for (place, (name, kind, _, number)) in KINDS.iter().enumerate() {
        let value = told_of_value(alloc, message, name, *kind)?;
        let field = told_of_field(message, place as u32);
        let wanted = ((*kind, *number, *number), Some((name.as_bytes(), *kind, 1)));
        same(rt, *name, (value, field), wanted);
    }
    Ok(())
}

#[test]
fn every_kind_is_kept(rt: HostRuntime) -> Result<(), Fail> {
    let message = with_all_kinds(rt.alloc())?.try_clone()?;
    let told = (message.count_names(), message.field_at(13).is_none());
    same(&rt, "fields", told, (13, true));
    are_all_kept(&rt, rt.alloc(), &message)
}
