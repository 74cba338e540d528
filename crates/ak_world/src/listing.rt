//! The entries of each object, as the journal names them.
ghost use Rattle.std.specs.Prelude.{◌≡◌, ◌++◌, map, IfOk, OnOk};
ghost use Rattle.ak_world.specs.Merged.{desk_entries, each_from, port_entries, roster_entry};

use ak_base::NoMemory;
use ak_desk::{Desk, DeskEntry};
use ak_journal::{Entry, Event, ObjectName};
use ak_port::{PortBook, PortEntry, ReplyBook, ReplyEntry};
use ak_roster::RosterEntry;
use ak_turn::Book;

/// A book, and how the journal names what was done to it.
pub(crate) trait Listed: Book {
    ghost use Rattle.std.specs.Prelude.{◌≡◌};
    ghost use Rattle.ak_journal.specs.declared.entry.Entry.{Entry};
    ghost use Rattle.ak_journal.specs.declared.entry.ObjectName.{ObjectName};

    // What the journal shows of an entry at the object of that name.
    ghost listed: { ObjectName → Self.Plain → Entry };

    /// The entry, at the object of that name.
    fn list(object: ObjectName, plain: Self::Plain) -> Entry
        ensures { result ≡ listed object plain };
}

impl Listed for PortBook {
    ghost use Rattle.ak_world.specs.Merged.{port_entry};

    ghost listed = { port_entry };

    fn list(object: ObjectName, plain: PortEntry) -> Entry {
        Entry {
            stamp: plain.stamp,
            by: plain.by,
            object,
            event: Event::Port(plain.event),
        }
    }
}

impl Listed for ReplyBook {
    ghost use Rattle.ak_world.specs.Merged.{book_entry};

    ghost listed = { book_entry };

    fn list(object: ObjectName, plain: ReplyEntry) -> Entry {
        Entry {
            stamp: plain.stamp,
            by: plain.by,
            object,
            event: Event::Book(plain.event),
        }
    }
}

impl Listed for Desk {
    ghost use Rattle.ak_world.specs.Merged.{desk_entry};

    ghost listed = { desk_entry };

    fn list(object: ObjectName, plain: DeskEntry) -> Entry {
        Entry {
            stamp: plain.stamp,
            by: plain.by,
            object,
            event: Event::Desk(plain.event),
        }
    }
}

/// Adds the entries of the book of that name. Where memory ran out, some of them.
pub(crate) fn put_book<B: Listed>(
    object: ObjectName,
    book: &B,
    out: &mut Vec<Entry>,
) -> Result<(), NoMemory>
    ensures { OnOk result (out.new.items ≡ out.old.items ++ map (λ entry. B.listed object (B.plain entry)) (B.entries book.now)) }
{
    for place in 0..book.len() {
        match book.entry(place)? {
            Some(plain) => out.push(B::list(object, plain))?,
            None => unreachable!(),
        }
    }
    Ok(())
}

/// Adds those of the roster.
pub(crate) fn put_roster(entries: &[RosterEntry], out: &mut Vec<Entry>) -> Result<(), NoMemory>
    ensures { OnOk result (out.new.items ≡ out.old.items ++ map roster_entry entries.now) }
{
    for entry in entries {
        out.push(list_roster(entry.try_clone()?))?;
    }
    Ok(())
}

fn list_roster(entry: RosterEntry) -> Entry
    ensures { result ≡ roster_entry entry }
{
    Entry {
        stamp: entry.stamp,
        by: entry.by,
        object: ObjectName::Roster,
        event: Event::Roster(entry.event),
    }
}

/// Adds those of the ports, which are numbered from 0 on.
pub(crate) fn put_ports(ports: &[PortBook], out: &mut Vec<Entry>) -> Result<(), NoMemory>
    ensures { OnOk result (out.new.items ≡ out.old.items ++ each_from port_entries 0 ports.now) }
{
    for (place, port) in ports.iter().enumerate() {
        put_book(ObjectName::Port(number_of(place)?), port, out)?;
    }
    Ok(())
}

/// Adds those of the desks, which are numbered from 0 on.
pub(crate) fn put_desks(desks: &[Desk], out: &mut Vec<Entry>) -> Result<(), NoMemory>
    ensures { OnOk result (out.new.items ≡ out.old.items ++ each_from desk_entries 0 desks.now) }
{
    for (place, desk) in desks.iter().enumerate() {
        put_book(ObjectName::Desk(number_of(place)?), desk, out)?;
    }
    Ok(())
}

// The number of the looper whose object stands there. No machine has memory for as many as have none.
fn number_of(place: usize) -> Result<u32, NoMemory>
    ensures { IfOk result (λ number. number ≡ place) }
{
    match u32::try_from(place) {
        Ok(number) => Ok(number),
        Err(_) => Err(NoMemory),
    }
}
