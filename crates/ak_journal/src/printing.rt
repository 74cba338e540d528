//! Prints the lines of entries.

ghost use Rattle.std.specs.Prelude.{◌≡◌, ◌++◌, OnOk, OnErr};
ghost use Rattle.ak_journal.specs.Line.{entry_line, event_words, object_words};
ghost use Rattle.ak_journal.specs.Parts.{behind_blanks};
ghost use Rattle.ak_journal.specs.Typed.{IsTyped, IsTypedEvent, IsTypedObject};

mod book;
mod desk;
mod parts;
mod port;
mod roster;

use crate::entry::{Entry, Event, ObjectName};
use ak_base::{Bytes, NoMemory, print_uint};
use book::put_book;
use desk::put_desk;
use parts::{put_counted, put_thread, put_word};
use port::put_port;
use roster::put_roster;
use std::alloc::Global;

// Most lines have room in so many bytes, so that they are made without growing.
const LINE: usize = 256;

/// Adds the line of the entry, without its end: the stamp, the thread, the object and what was done there, as
/// words behind single blanks (`docs/formats.md`, Journal lines). An `Err` changes nothing. `NoMemory` where
/// memory ran out.
pub fn print_entry(alloc: Global, entry: &Entry, out: &mut Bytes) -> Result<(), NoMemory>
    ensures ok { OnOk result (out.new ≡ out.old ++ entry_line entry.now) }
    ensures err { OnErr result (out.new ≡ out.old) }
    ensures typed { OnOk result (IsTyped entry.now) }
{
    let mut line = Bytes::with_capacity(alloc, LINE)?;
    put_entry(alloc, &mut line, entry)?;
    out.extend(line.as_slice())
}

// What was there may have grown by a part of the line where memory ran out. So it is with all that follow.
pub(crate) fn put_entry(alloc: Global, out: &mut Bytes, entry: &Entry) -> Result<(), NoMemory>
    ensures line { OnOk result (out.new ≡ out.old ++ entry_line entry.now) }
    ensures typed { OnOk result (IsTyped entry.now) }
{
    print_uint(entry.stamp, out)?;
    put_thread(out, entry.by)?;
    put_object(out, entry.object)?;
    put_event(alloc, out, &entry.event)
}

fn put_object(out: &mut Bytes, object: ObjectName) -> Result<(), NoMemory>
    ensures line { OnOk result (out.new ≡ out.old ++ behind_blanks (object_words object)) }
    ensures typed { OnOk result (IsTypedObject object) }
{
    match object {
        ObjectName::Port(looper) => put_counted(out, b"port", u64::from(looper)),
        ObjectName::Desk(looper) => put_counted(out, b"desk", u64::from(looper)),
        ObjectName::Book => put_word(out, b"book"),
        ObjectName::Roster => put_word(out, b"roster"),
    }
}

fn put_event(alloc: Global, out: &mut Bytes, event: &Event) -> Result<(), NoMemory>
    ensures line { OnOk result (out.new ≡ out.old ++ behind_blanks (event_words event.now)) }
    ensures typed { OnOk result (IsTypedEvent event.now) }
{
    match event {
        Event::Port(event) => put_port(alloc, out, event),
        Event::Desk(event) => put_desk(alloc, out, event),
        Event::Book(event) => put_book(alloc, out, event),
        Event::Roster(event) => put_roster(out, event),
    }
}
