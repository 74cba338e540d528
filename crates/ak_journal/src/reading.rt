//! Reads the lines of entries.

ghost use Rattle.std.specs.Prelude.{◌≡◌, ◌≢◌, ◌↔◌, Some, IfOk, IfSome, IfNone, IsTrue};
ghost use Rattle.ak_journal.specs.declared.entry.Entry.{Entry};
ghost use Rattle.ak_journal.specs.Answers.{Gives};
ghost use Rattle.ak_journal.specs.Line.{entry_line};
ghost use Rattle.ak_journal.specs.Parting.{parted, texts};
ghost use Rattle.ak_journal.specs.Legible.{IsLegible, IsLegibleAt};
ghost use Rattle.ak_journal.specs.Reading as reads;
ghost use Rattle.ak_journal.specs.Reading.{IsPrintedOf};

mod book;
mod desk;
mod fault;
mod parts;
mod port;
mod roster;
mod words;

use crate::entry::{Entry, Event, ObjectName};
use crate::printing::put_entry;
use ak_base::{Bytes, NoMemory};
use book::book_event;
use desk::desk_event;
use fault::Unread;
use parts::thread_at;
use port::port_event;
use roster::roster_event;
use std::alloc::Global;
use words::{first_of, parted, u32_at, u64_at};

/// The entry whose line this is, without its end. None exactly where it is the line of no legible entry. Legible is
/// an entry whose event is one of its object's, with words, names and flat texts of their forms; of a dispatch
/// there are at most 32 answer words, of which 16 may be replies. `NoMemory` where memory ran out.
pub fn read_entry(alloc: Global, line: &[u8]) -> Result<Option<Entry>, NoMemory>
    ensures found { IfOk result (λ read. IfSome read (λ entry. IsPrintedOf entry line.now)) }
    ensures only { (entry : Entry) → IsPrintedOf entry line.now → IfOk result (λ read. read ≡ Some entry) }
    ensures none { IfOk result (λ read. IfNone read ((entry : Entry) → IsLegible entry → entry_line entry ≢ line.now)) }
{
    let Some(entry) = entry_in(alloc, line)? else {
        return Ok(None);
    };
    if is_printed_so(alloc, &entry, line)? {
        Ok(Some(entry))
    } else {
        Ok(None)
    }
}

// What its words are read as. They may be read so where something else is printed of the entry.
fn entry_in(alloc: Global, line: &[u8]) -> Result<Option<Entry>, NoMemory>
    ensures read { IfOk result (λ read. read ≡ reads.entry_of (parted line.now)) }
    ensures legible { IfOk result (λ read. IfSome read IsLegible) }
{
    let words = parted(alloc, line)?;
    match entry_of(alloc, &words) {
        Ok(entry) => Ok(Some(entry)),
        Err(Unread::NoMemory) => Err(NoMemory),
        Err(Unread::NoEntry) => Ok(None),
    }
}

// Whether just this line is printed of the entry.
fn is_printed_so(alloc: Global, entry: &Entry, line: &[u8]) -> Result<bool, NoMemory>
    ensures { IfOk result (λ is. IsTrue is ↔ (entry_line entry.now ≡ line.now)) }
{
    let mut printed = Bytes::new(alloc);
    put_entry(alloc, &mut printed, entry)?;
    Ok(printed.as_slice() == line)
}

fn entry_of(alloc: Global, words: &[&[u8]]) -> Result<Entry, Unread>
    ensures read { Gives (λ e. e) result (reads.entry_of (texts words.now)) }
    ensures legible { IfOk result IsLegible }
{
    let Some((stamp, words)) = u64_at(words) else {
        return Err(Unread::NoEntry);
    };
    let Some((by, words)) = thread_at(words) else {
        return Err(Unread::NoEntry);
    };
    let (object, event) = done_at(alloc, words)?;
    Ok(Entry {
        stamp,
        by,
        object,
        event,
    })
}

// The object, and what was done there.
fn done_at(alloc: Global, words: &[&[u8]]) -> Result<(ObjectName, Event), Unread>
    ensures read { Gives (λ done. done) result (reads.done_at (texts words.now)) }
    ensures legible { IfOk result (λ done. IsLegibleAt done.0 done.1) }
{
    let Some((key, words)) = first_of(words) else {
        return Err(Unread::NoEntry);
    };
    if key == b"port".as_slice() {
        at_port(alloc, words)
    } else if key == b"desk".as_slice() {
        at_desk(alloc, words)
    } else if key == b"book".as_slice() {
        let event = book_event(alloc, words)?;
        Ok((ObjectName::Book, Event::Book(event)))
    } else if key == b"roster".as_slice() {
        let event = roster_event(alloc, words)?;
        Ok((ObjectName::Roster, Event::Roster(event)))
    } else {
        Err(Unread::NoEntry)
    }
}

fn at_port(alloc: Global, words: &[&[u8]]) -> Result<(ObjectName, Event), Unread>
    ensures read { Gives (λ done. done) result (reads.at_port (texts words.now)) }
    ensures legible { IfOk result (λ done. IsLegibleAt done.0 done.1) }
{
    let Some((looper, words)) = u32_at(words) else {
        return Err(Unread::NoEntry);
    };
    let event = port_event(alloc, words)?;
    Ok((ObjectName::Port(looper), Event::Port(event)))
}

fn at_desk(alloc: Global, words: &[&[u8]]) -> Result<(ObjectName, Event), Unread>
    ensures read { Gives (λ done. done) result (reads.at_desk (texts words.now)) }
    ensures legible { IfOk result (λ done. IsLegibleAt done.0 done.1) }
{
    let Some((looper, words)) = u32_at(words) else {
        return Err(Unread::NoEntry);
    };
    let event = desk_event(alloc, words)?;
    Ok((ObjectName::Desk(looper), Event::Desk(event)))
}
