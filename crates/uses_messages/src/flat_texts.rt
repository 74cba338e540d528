// Messages as flat text, and back.

use crate::compare::same;
use crate::plain::{Field, Plain, message, number, value};
use ak_base::{Bytes, Code};
use ak_flatten::{FlatFault, FlatKind, FlattenFault, UnflattenFault, flat_len, flatten, unflatten};
use ak_message::{Message, Target};
use std::alloc::Global;
use std::process::Abort;
use std::test::Fail;

// ---- what is written and read again
// PGET without fields.
const QUESTION: [u8; 12] = *b"AKM1PGET\0\0\0\0";

// RPLY with result 3 and error 0.
const REPLY: [u8; 47] =
    *b"AKM1RPLY\0\0\0\x02LONG\x06result\x01\0\x04\0\0\0\x03LONG\x05error\x01\0\x04\0\0\0\0";

// A message, and its flat text.
type Row = (Code, &'static [Field], &'static [u8]);

// Messages without fields and with two, and then one value of each kind.
static WRITTEN: [Row; 17] = [
    (Code::GET, &[], &QUESTION),
    (
        Code::REPLY,
        &[(b"result", Plain::Int32(3)), (b"error", Plain::Int32(0))],
        &REPLY,
    ),
    (
        Code(7),
        &[(b"v", Plain::Bool(true))],
        b"AKM1\0\0\0\x07\0\0\0\x01BOOL\x01v\x01\0\x01\x01",
    ),
    (
        Code(7),
        &[(b"v", Plain::Bool(false))],
        b"AKM1\0\0\0\x07\0\0\0\x01BOOL\x01v\x01\0\x01\0",
    ),
    (
        Code(7),
        &[(b"v", Plain::Int8(-1))],
        b"AKM1\0\0\0\x07\0\0\0\x01BYTE\x01v\x01\0\x01\xff",
    ),
    (
        Code(7),
        &[(b"v", Plain::Int16(-2))],
        b"AKM1\0\0\0\x07\0\0\0\x01SHRT\x01v\x01\0\x02\xff\xfe",
    ),
    (
        Code(7),
        &[(b"v", Plain::Int32(-3))],
        b"AKM1\0\0\0\x07\0\0\0\x01LONG\x01v\x01\0\x04\xff\xff\xff\xfd",
    ),
    (
        Code(7),
        &[(b"v", Plain::Int64(-4))],
        b"AKM1\0\0\0\x07\0\0\0\x01LLNG\x01v\x01\0\x08\xff\xff\xff\xff\xff\xff\xff\xfc",
    ),
    (
        Code(7),
        &[(b"v", Plain::UInt8(0xfe))],
        b"AKM1\0\0\0\x07\0\0\0\x01UBYT\x01v\x01\0\x01\xfe",
    ),
    (
        Code(7),
        &[(b"v", Plain::UInt16(0x102))],
        b"AKM1\0\0\0\x07\0\0\0\x01USHT\x01v\x01\0\x02\x01\x02",
    ),
    (
        Code(7),
        &[(b"v", Plain::UInt32(0x1020304))],
        b"AKM1\0\0\0\x07\0\0\0\x01ULNG\x01v\x01\0\x04\x01\x02\x03\x04",
    ),
    (
        Code(7),
        &[(b"v", Plain::UInt64(5))],
        b"AKM1\0\0\0\x07\0\0\0\x01ULLG\x01v\x01\0\x08\0\0\0\0\0\0\0\x05",
    ),
    (
        Code(7),
        &[(b"v", Plain::Words(b"hi"))],
        b"AKM1\0\0\0\x07\0\0\0\x01CSTR\x01v\x01\0\x02hi",
    ),
    (
        Code(7),
        &[(b"v", Plain::Bare(Code::GET))],
        b"AKM1\0\0\0\x07\0\0\0\x01MSGG\x01v\x01\0\x0cAKM1PGET\0\0\0\0",
    ),
    (
        Code(7),
        &[(b"v", Plain::For(Target::Token(2)))],
        b"AKM1\0\0\0\x07\0\0\0\x01MSNG\x01v\x01\0\x0d\0\0\0\x01\x01\0\0\0\0\0\0\0\x02",
    ),
    (
        Code(7),
        &[(b"v", Plain::For(Target::Preferred))],
        b"AKM1\0\0\0\x07\0\0\0\x01MSNG\x01v\x01\0\x0d\0\0\0\x01\0\0\0\0\0\0\0\0\0",
    ),
    (
        Code(7),
        &[(b"v", Plain::Raw(b"\0"))],
        b"AKM1\0\0\0\x07\0\0\0\x01RAWT\x01v\x01\0\x01\0",
    ),
];

// The flat text of the message that the bytes are a flat text of.
fn again(alloc: Global, bytes: &[u8]) -> Result<Bytes, Fail> {
    let read = unflatten(alloc, bytes)?;
    Ok(flatten(alloc, &read)?)
}

// That is the flat text of the message, which is read and written again.
fn is_written(rt: &impl Abort, alloc: Global, row: Row) -> Result<(), Fail> {
    let (what, fields, flat) = row;
    let message = message(alloc, what, fields)?;
    let bytes = flatten(alloc, &message)?;
    same(
        rt,
        flat,
        (bytes.as_slice(), flat_len(&message)),
        (flat, flat.len() as u64),
    );
    is_read_back(rt, alloc, flat)
}

// The flat text is read, and written again.
pub(crate) fn is_read_back(rt: &impl Abort, alloc: Global, flat: &[u8]) -> Result<(), Fail> {
    let bytes = again(alloc, flat)?;
    same(rt, "again", bytes.as_slice(), flat);
    Ok(())
}

// A message's code, how many names it has, and its numbers `result` and `error`.
type Outline = (Code, u32, Option<i32>, Option<i32>);

fn outline_of(alloc: Global, bytes: &[u8]) -> Result<Outline, Fail> {
    let message = unflatten(alloc, bytes)?;
    Ok((
        message.what(),
        message.count_names(),
        number(&message, b"result", 0),
        number(&message, b"error", 0),
    ))
}

// What is popped of a message, whether its flat text is the one that was written before, and what is popped of the
// message that is read.
fn told_of_popped(alloc: Global) -> Result<(u32, bool, u32), Fail> {
    let mut message = message(alloc, Code::GET, &[(b"specifiers", Plain::Bare(Code(1)))])?;
    let before = flatten(alloc, &message)?;
    if message.specifiers() >= 1 {
        message.set_popped(1);
    }
    let bytes = flatten(alloc, &message)?;
    let read = unflatten(alloc, bytes.as_slice())?;
    Ok((
        message.popped(),
        bytes.as_slice() == before.as_slice(),
        read.popped(),
    ))
}

#[test]
fn messages_are_written_and_read_back(rt: HostRuntime) -> Result<(), Fail> {
    let alloc = rt.alloc();
    for row in &WRITTEN {
        is_written(&rt, alloc, *row)?;
    }
    let told = [outline_of(alloc, &QUESTION)?, outline_of(alloc, &REPLY)?];
    let wanted = [
        (Code::GET, 0, None, None),
        (Code::REPLY, 2, Some(3), Some(0)),
    ];
    same(&rt, "question, reply", told, wanted);
    same(&rt, "popped", told_of_popped(alloc)?, (1, true, 0));
    Ok(())
}

// ---- limits
// How long the flat text is told to be, and how long it is.
fn lengths(alloc: Global, message: &Message) -> (u64, Result<usize, FlattenFault>) {
    let written = match flatten(alloc, message) {
        Ok(bytes) => Ok(bytes.as_slice().len()),
        Err(fault) => Err(fault),
    };
    (flat_len(message), written)
}

static LONG: [u8; 1024] = [b'x'; 1024];

// The lengths of a message with three texts of 1,024 bytes and a fourth one, if there is one. Where it is not too long, it
// is read back.
fn lengths_of_long(
    rt: &impl Abort,
    alloc: Global,
    fourth: Option<&'static [u8]>,
) -> Result<(u64, Result<usize, FlattenFault>), Fail> {
    let text: Field = (b"t", Plain::Words(&LONG));
    let mut message = message(alloc, Code::GET, &[text; 3])?;
    if let Some(text) = fourth {
        message.add(b"t", value(alloc, Plain::Words(text))?)?;
    }
    if let Ok(bytes) = flatten(alloc, &message) {
        is_read_back(rt, alloc, bytes.as_slice())?;
    }
    Ok(lengths(alloc, &message))
}

// A flat text in so many messages, each in the field `m` of the next one.
pub(crate) fn wrapped(alloc: Global, flat: &[u8], depth: u32) -> Result<Bytes, Fail> {
    let mut bytes = Bytes::new(alloc);
    bytes.extend(flat)?;
    for _ in 0..depth {
        let mut outer = Bytes::new(alloc);
        outer.extend(b"AKM1PGET\0\0\0\x01MSGG\x01m\x01")?;
        outer.extend(&(bytes.as_slice().len().min(9999) as u16).to_be_bytes())?;
        outer.extend(bytes.as_slice())?;
        bytes = outer;
    }
    Ok(bytes)
}

pub(crate) fn fault_of(alloc: Global, bytes: &[u8]) -> Option<FlatFault> {
    match unflatten(alloc, bytes) {
        Err(UnflattenFault::Bad(fault)) => Some(fault),
        _ => None,
    }
}

// 16 messages in one another are read and written again; 17 are not read.
fn are_16_deep(rt: &impl Abort, alloc: Global) -> Result<(), Fail> {
    let deepest = wrapped(alloc, &QUESTION, 15)?;
    is_read_back(rt, alloc, deepest.as_slice())?;
    let deeper = wrapped(alloc, &QUESTION, 16)?;
    let fault = FlatFault {
        place: 336,
        kind: FlatKind::TooDeep,
    };
    same(rt, "17", fault_of(alloc, deeper.as_slice()), Some(fault));
    Ok(())
}

// Bytes that are no flat text, and the place and kind of their first fault.
type Faulty<'a> = (&'a [u8], u32, FlatKind);

static FAULTY: [Faulty<'static>; 26] = [
    (b"", 0, FlatKind::Truncated),
    (b"AKM", 0, FlatKind::Truncated),
    (b"AKM2PGET\0\0\0\0", 0, FlatKind::Magic),
    (b"AKM1PGE", 4, FlatKind::Truncated),
    (b"AKM1PGET\0\0\0", 8, FlatKind::Truncated),
    (b"AKM1PGET\0\0\0\0\0", 12, FlatKind::Trailing),
    (b"AKM1PGET\0\0\0\x41", 8, FlatKind::FieldCount),
    (b"AKM1PGET\0\0\0\x01LON", 12, FlatKind::Truncated),
    (
        b"AKM1PGET\0\0\0\x01LONE\x01a\x01\0\x04\0\0\0\0",
        12,
        FlatKind::BadType,
    ),
    (b"AKM1PGET\0\0\0\x01LONG", 16, FlatKind::Truncated),
    (
        b"AKM1PGET\0\0\0\x01LONG\0\x01\0\x04\0\0\0\0",
        16,
        FlatKind::BadName,
    ),
    (b"AKM1PGET\0\0\0\x01LONG\x41", 16, FlatKind::BadName),
    (b"AKM1PGET\0\0\0\x01LONG\x02a", 17, FlatKind::Truncated),
    (
        b"AKM1PGET\0\0\0\x01LONG\x01 \x01\0\x04\0\0\0\0",
        17,
        FlatKind::BadName,
    ),
    (b"AKM1PGET\0\0\0\x01LONG\x01a\0", 18, FlatKind::NoValues),
    (
        b"AKM1PGET\0\0\0\x01LONG\x01a\x01\0\x03\0\0\0",
        19,
        FlatKind::BadLength,
    ),
    (
        b"AKM1PGET\0\0\0\x01CSTR\x01a\x01\x04\x01",
        19,
        FlatKind::BadLength,
    ),
    (
        b"AKM1PGET\0\0\0\x01LONG\x01a\x01\0\x04\0\0\0",
        21,
        FlatKind::Truncated,
    ),
    (
        b"AKM1PGET\0\0\0\x01BOOL\x01a\x01\0\x01\x02",
        21,
        FlatKind::BadValue,
    ),
    (
        b"AKM1PGET\0\0\0\x01CSTR\x01a\x01\0\x01\0",
        21,
        FlatKind::BadValue,
    ),
    (
        b"AKM1PGET\0\0\0\x01CSTR\x01a\x01\0\x01\xff",
        21,
        FlatKind::BadValue,
    ),
    (
        b"AKM1PGET\0\0\0\x01MSNG\x01a\x01\0\x0d\0\0\0\x01\x02\0\0\0\0\0\0\0\0",
        21,
        FlatKind::BadValue,
    ),
    (
        b"AKM1PGET\0\0\0\x01MSNG\x01a\x01\0\x0d\0\0\0\x01\0\0\0\0\0\0\0\0\x01",
        21,
        FlatKind::BadValue,
    ),
    (
        b"AKM1PGET\0\0\0\x01MSGG\x01a\x01\0\x0dAKM1PGET\0\0\0\0\0",
        33,
        FlatKind::Trailing,
    ),
    (
        b"AKM1PGET\0\0\0\x01MSGG\x01a\x01\0\x0bAKM1PGET\0\0\0\0",
        29,
        FlatKind::Truncated,
    ),
    (
        b"AKM1PGET\0\0\0\x02LONG\x01a\x01\0\x04\0\0\0\0LONG\x01a\x01\0\x04\0\0\0\0",
        30,
        FlatKind::RepeatedName,
    ),
];

fn first_faults_are_told(rt: &impl Abort, alloc: Global, rows: &[Faulty<'_>]) {
    for (bytes, place, kind) in rows {
        let fault = FlatFault {
            place: *place,
            kind: *kind,
        };
        same(rt, *bytes, fault_of(alloc, bytes), Some(fault));
    }
}

#[test]
fn long_deep_and_faulty_texts_are_refused(rt: HostRuntime) -> Result<(), Fail> {
    let alloc = rt.alloc();
    let told = [
        lengths_of_long(&rt, alloc, None)?,
        lengths_of_long(&rt, alloc, Some(&[b'x'; 997]))?,
        lengths_of_long(&rt, alloc, Some(&[b'x'; 998]))?,
        lengths_of_long(&rt, alloc, Some(&LONG))?,
    ];
    let too_long = Err(FlattenFault::TooLong);
    let wanted = [
        (3097, Ok(3097)),
        (4096, Ok(4096)),
        (4097, too_long),
        (4123, too_long),
    ];
    same(&rt, "three, 997, 998, 1024", told, wanted);
    are_16_deep(&rt, alloc)?;
    let zeros = [0u8; 4097];
    let too_long = (zeros.as_slice(), 4096, FlatKind::TooLong);
    let not_longer = (&zeros[..4096], 0, FlatKind::Magic);
    first_faults_are_told(&rt, alloc, &[too_long, not_longer]);
    first_faults_are_told(&rt, alloc, &FAULTY);
    Ok(())
}
