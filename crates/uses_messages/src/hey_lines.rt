// Hey lines of which no row tells: the order of a message's fields and values, and words that no statement begins with.

use crate::compare::same;
use ak_base::NoMemory;
use ak_flatten::flatten;
use ak_hey::{HeyFault, end_of, read_hey};
use ak_input::{read_message, split_words};
use ak_message::Message;
use std::alloc::Global;
use std::test::Fail;

fn message_of(alloc: Global, text: &[u8]) -> Option<Message> {
    if text.len() > 65_536 {
        return None;
    }
    let words = split_words(alloc, text).ok()?;
    read_message(alloc, words.as_slice()).ok()
}

// Whether the line asks with that message.
fn is_read(alloc: Global, line: &[u8], text: &[u8]) -> bool {
    if line.len() > 65_536 {
        return false;
    }
    let Ok(words) = split_words(alloc, line) else {
        return false;
    };
    let Ok(read) = read_hey(alloc, words.as_slice(), end_of(words.as_slice())) else {
        return false;
    };
    let Some(wanted) = message_of(alloc, text) else {
        return false;
    };
    has_text(alloc, &read.message, &wanted)
}

fn has_text(alloc: Global, message: &Message, wanted: &Message) -> bool {
    match (flatten(alloc, message), flatten(alloc, wanted)) {
        (Ok(told), Ok(wanted)) => told.as_slice() == wanted.as_slice(),
        _ => false,
    }
}

// The column that the line is refused at: 0 where its message passes a limit, and `None` where it is read.
fn refused(alloc: Global, line: &[u8]) -> Result<Option<u32>, NoMemory> {
    if line.len() > 65_536 {
        return Ok(None);
    }
    let Ok(words) = split_words(alloc, line) else {
        return Ok(None);
    };
    match read_hey(alloc, words.as_slice(), end_of(words.as_slice())) {
        Ok(_) => Ok(None),
        Err(HeyFault::Bad { column }) => Ok(Some(column)),
        Err(HeyFault::TooLong) => Ok(Some(0)),
        Err(HeyFault::NoMemory) => Err(NoMemory),
    }
}

static READ: [(&[u8], &[u8]); 4] = [
    (
        b"hey demo set to \"x\" with a=true and b=BYTE:1 and a=false",
        b"'PSET' data=CSTR:\"x\" a=BOOL:true,BOOL:false b=BYTE:1",
    ),
    (
        b"hey demo set Count [1] to 1 with data=2",
        b"'PSET' specifiers=MSGG:{0x00000002 property=CSTR:\"Count\" index=LONG:1} data=LONG:1,LONG:2",
    ),
    (
        b"hey demo get A with specifiers=MSGG:{'aaaa'}",
        b"'PGET' specifiers=MSGG:{0x00000001 property=CSTR:\"A\"},MSGG:{'aaaa'}",
    ),
    (
        b"hey hey get get of hey to 0 with with=RAWT:00ff",
        b"'PGET' specifiers=MSGG:{0x00000001 property=CSTR:\"get\"},MSGG:{0x00000001 property=CSTR:\"hey\"} data=LONG:0 with=RAWT:00ff",
    ),
];

static REFUSED: [(&[u8], u32); 2] = [(b"", 1), (b"hay demo get", 1)];

#[test]
fn hey_lines_are_read_as_they_say(rt: HostRuntime) -> Result<(), Fail> {
    let alloc = rt.alloc();
    for (line, text) in READ {
        same(&rt, line, is_read(alloc, line, text), true);
    }
    for (line, column) in REFUSED {
        same(&rt, line, refused(alloc, line)?, Some(column));
    }
    Ok(())
}
