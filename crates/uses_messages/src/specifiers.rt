// The specifiers of a message, added and popped: what is answered, and how many are left. How they are read, rows of desks say.

use crate::compare::same;
use crate::plain::number;
use AddFault::{BadType, FieldLimit};
use Op::{Bad, Direct, Fields, Index, Indexes, Number, Pop};
use ak_base::{Code, Text};
use ak_message::{AddFault, At, AtRef, Message, Specifier, Value};
use ak_specifier::{BadScript, add_specifier, current, left, pop};
use std::alloc::Global;
use std::process::Abort;
use std::test::Fail;

fn text(alloc: Global, words: &[u8]) -> Result<Text, Fail> {
    Ok(Text::from_bytes(alloc, words)?)
}

// A specifier of that form.
pub(crate) fn specifier(alloc: Global, form: u32) -> Result<Specifier, Fail> {
    let at = match form {
        1 => At::Direct,
        2 => At::Index(105),
        3 => At::Reverse(105),
        4 => At::Range {
            index: 105,
            count: 114,
        },
        5 => At::ReverseRange {
            index: 105,
            count: 114,
        },
        6 => At::Name(text(alloc, b"n")?),
        _ => At::Id(100),
    };
    Ok(Specifier {
        property: text(alloc, b"p")?,
        at,
    })
}

fn add_index(alloc: Global, message: &mut Message, index: i32) -> Result<(), Fail> {
    let property = text(alloc, b"p")?;
    let at = At::Index(index);
    Ok(add_specifier(alloc, message, Specifier { property, at })?)
}

fn index_of(message: &Message) -> Option<i32> {
    match current(message).ok()?.at {
        AtRef::Index(index) => Some(index),
        _ => None,
    }
}

// What is done to the specifiers of a message.
#[derive(Clone, Copy)]
enum Op {
    // An index is added, a specifier without one, or a badly formed one.
    Index(i32),
    Direct,
    Bad,
    // The indexes from 0 on, before the end.
    Indexes(i32),
    // 63 fields that are none.
    Fields,
    // A number under that name.
    Number(&'static [u8], i32),
    Pop,
}

fn add_bad(alloc: Global, message: &mut Message) -> Result<(), Fail> {
    let specifier = Message::new(alloc, Code(0));
    Ok(message.add(b"specifiers", Value::from_message(alloc, specifier)?)?)
}

fn add_indexes(alloc: Global, message: &mut Message, end: i32) -> Result<(), Fail> {
    for n in 0..end {
        add_index(alloc, message, n)?;
    }
    Ok(())
}

fn add_fields(message: &mut Message) -> Result<(), AddFault> {
    for letter in b"0123456789ABCDEFGHIJKLMNOPQRSTUVWXYZabcdefghijklmnopqrstuvwxyz_" {
        message.add(&[*letter], Value::Int32(1))?;
    }
    Ok(())
}

// What an addition and a pop are answered.
type Answer = (Result<(), AddFault>, Result<(), BadScript>);

fn done(alloc: Global, message: &mut Message, op: Op) -> Result<Answer, Fail> {
    let mut answer = (Ok(()), Ok(()));
    match op {
        Index(n) => add_index(alloc, message, n)?,
        Direct => answer.0 = add_specifier(alloc, message, specifier(alloc, 1)?),
        Bad => add_bad(alloc, message)?,
        Indexes(end) => add_indexes(alloc, message, end)?,
        Fields => answer.0 = add_fields(message),
        Number(name, n) => answer.0 = message.add(name, Value::Int32(n)),
        Pop => answer.1 = pop(message),
    }
    Ok(answer)
}

// How many specifiers are left and how many are popped, whether the current one is refused, its index, how many names
// there are, and a number in place of specifiers.
type State = (u32, u32, bool, Option<i32>, u32, Option<i32>);

fn state_of(message: &Message) -> State {
    (
        left(message),
        message.popped(),
        current(message).is_err(),
        index_of(message),
        message.count_names(),
        number(message, b"specifiers", 0),
    )
}

// Each step is answered so and leads there, where they are taken in this order.
fn are_done(
    rt: &impl Abort,
    alloc: Global,
    label: &str,
    steps: &[(Op, Answer, State)],
) -> Result<(), Fail> {
    let mut message = Message::new(alloc, Code(1));
    for (place, (op, answer, state)) in steps.iter().enumerate() {
        let told = done(alloc, &mut message, *op)?;
        same(
            rt,
            (label, place),
            (told, state_of(&message)),
            (*answer, *state),
        );
    }
    Ok(())
}

const DONE: Answer = (Ok(()), Ok(()));

const NOT_POPPED: Answer = (Ok(()), Err(BadScript));

static SCRIPTS: [(&str, &[(Op, Answer, State)]); 6] = [
    (
        "the last one is current",
        &[
            (Pop, NOT_POPPED, (0, 0, true, None, 0, None)),
            (Indexes(3), DONE, (3, 0, false, Some(2), 1, None)),
            (Pop, DONE, (2, 1, false, Some(1), 1, None)),
            (Pop, DONE, (1, 2, false, Some(0), 1, None)),
            (Pop, DONE, (0, 3, true, None, 1, None)),
            (Pop, NOT_POPPED, (0, 3, true, None, 1, None)),
            (Index(7), DONE, (4, 0, false, Some(7), 1, None)),
        ],
    ),
    (
        "a badly formed one is popped",
        &[
            (Index(3), DONE, (1, 0, false, Some(3), 1, None)),
            (Bad, DONE, (2, 0, true, None, 1, None)),
            (Pop, DONE, (1, 1, false, Some(3), 1, None)),
        ],
    ),
    (
        "another kind is refused",
        &[
            (
                Number(b"specifiers", 5),
                DONE,
                (0, 0, true, None, 1, Some(5)),
            ),
            (Pop, NOT_POPPED, (0, 0, true, None, 1, Some(5))),
            (
                Direct,
                (Err(BadType), Ok(())),
                (0, 0, true, None, 1, Some(5)),
            ),
        ],
    ),
    (
        "specifiers are limited",
        &[
            (Indexes(255), DONE, (255, 0, false, Some(254), 1, None)),
            (Pop, DONE, (254, 1, false, Some(253), 1, None)),
            (
                Direct,
                (Err(FieldLimit), Ok(())),
                (254, 1, false, Some(253), 1, None),
            ),
        ],
    ),
    (
        "fields are limited",
        &[
            (Fields, DONE, (0, 0, true, None, 63, None)),
            (Number(b"more", 1), DONE, (0, 0, true, None, 64, None)),
            (
                Direct,
                (Err(FieldLimit), Ok(())),
                (0, 0, true, None, 64, None),
            ),
        ],
    ),
    (
        "the 64th field has room for more",
        &[
            (Fields, DONE, (0, 0, true, None, 63, None)),
            (Index(0), DONE, (1, 0, false, Some(0), 64, None)),
            (Index(1), DONE, (2, 0, false, Some(1), 64, None)),
        ],
    ),
];

#[test]
fn specifiers_are_added_and_popped(rt: HostRuntime) -> Result<(), Fail> {
    for (label, steps) in &SCRIPTS {
        are_done(&rt, rt.alloc(), label, steps)?;
    }
    Ok(())
}
