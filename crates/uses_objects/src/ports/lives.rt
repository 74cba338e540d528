//! The life of a port by one thread, and its book.
ghost use Rattle.std.specs.Prelude.{◌≡◌, false};
ghost use Rattle.ak_turn.specs.Steps.{IsNewName};
ghost use Rattle.ak_port.specs.PortCalls.{CanTake};

use super::calls::{Said, put, put_once_free, take_first, take_one};
use crate::compare::same;
use ak_base::{NoMemory, ThreadId};
use ak_port::{
    CloseAnswer, Port, PortBook, PortEvent, TakeAnswer, a_write_has_one_answer, close, make,
    new_seats_can_take, nothing_comes_after_the_rest, nothing_is_written_after_shut,
    ports_stay_within_limits, takes_go_on, written_is_taken_or_pending,
};
use ak_turn::{Book, Clock, Seat};
use std::alloc::Global;
use std::sync::Wait;
use std::test::Fail;

// What three writes answer at a port of capacity 2 and life 2. None has to wait for room.
fn write_three<R: Wait>(rt: &R, alloc: Global) -> Result<[Said; 3], Fail> {
    let mut clock = Clock {
        thread: ThreadId::MAIN,
        time: 0,
    };
    let (port, mut seat) = make(alloc, 2, 2, ThreadId::MAIN, &mut clock)?;
    let first = put_once_free(rt, alloc, &port, &mut seat, &mut clock, 1)?;
    let second = put_once_free(rt, alloc, &port, &mut seat, &mut clock, 2)?;
    let third = put_once_free(rt, alloc, &port, &mut seat, &mut clock, 3)?;
    Ok([first, second, third])
}

const THREE: [Said; 3] = [Said::Wrote(0), Said::Wrote(1), Said::Spent];

// What is answered at a port of capacity 1 and life 3 before it is shut, and what after. Each write has its turn.
fn write_take_and_shut<R: Wait>(rt: &R, alloc: Global) -> Result<(Start, End), Fail> {
    let mut clock = Clock {
        thread: ThreadId::FIRST_LOOPER,
        time: 0,
    };
    let (port, mut seat) = make(alloc, 1, 3, ThreadId::FIRST_LOOPER, &mut clock)?;
    let first = put(rt, alloc, &port, &mut seat, &mut clock, 1)?;
    let second = put(rt, alloc, &port, &mut seat, &mut clock, 2)?;
    let taken = take_first(rt, alloc, &port, &mut seat, &mut clock)?;
    let third = put(rt, alloc, &port, &mut seat, &mut clock, 3)?;
    let end = shut_and_empty(rt, alloc, &port, seat, clock)?;
    Ok((([first, second, third], taken), end))
}

/// What three writes answer before a port is shut, and the take between the second and the third.
type Start = ([Said; 3], (u32, u64, u32));

/// What a closing answers, a write behind it, another closing and a take; who takes, and how many entries there are then.
type End = (
    CloseAnswer,
    Said,
    CloseAnswer,
    (TakeAnswer, u64, u32),
    (ThreadId, u64),
);

// The end of a port that has one item pending, at position 1 and with the code 3.
fn shut_and_empty<R: Wait>(
    rt: &R,
    alloc: Global,
    port: &Port,
    mut seat: Seat<PortBook>,
    mut clock: Clock,
) -> Result<End, Fail>
    requires of { seat.lock ≡ port.now }
    requires idle { seat.turn ≡ false }
    requires thread { seat.thread ≡ clock.thread.0 }
    requires name { IsNewName seat.names 1 }
    requires taking { CanTake clock.thread 1 seat }
{
    let mut guest = port.split(&mut seat, ThreadId(1));
    let mut other = Clock {
        thread: ThreadId(1),
        time: 40,
    };
    let shut = close(port, rt, &mut seat, &mut clock);
    let fourth = put(rt, alloc, port, &mut seat, &mut clock, 4)?;
    let again = close(port, rt, &mut guest, &mut other);
    let left = take_one(rt, alloc, port, &mut seat, &mut clock)?;
    let book = port.lock(rt, &mut seat).keep();
    Ok((shut, fourth, again, left, (book.taker(), book.len())))
}

const START: Start = ([Said::Wrote(0), Said::Full, Said::Wrote(1)], (1, 0, 1));

const END: End = (
    CloseAnswer::Shut,
    Said::Closed,
    CloseAnswer::AlreadyShut,
    (TakeAnswer::Rest(1), 1, 3),
    (ThreadId::FIRST_LOOPER, 8),
);

/// What an entry tells: which one it is, the capacity or the position, and the life or the code.
type Entered = (&'static str, u64, u32);

fn entered_by(alloc: Global, event: &PortEvent) -> Result<Entered, NoMemory> {
    match event {
        PortEvent::Made { capacity, life } => Ok(("made", u64::from(*capacity), *life)),
        PortEvent::Written { position, item } => {
            Ok(("written", *position, item.message(alloc)?.what().0))
        }
        PortEvent::Full => Ok(("full", 0, 0)),
        _ => Ok(("other", 0, 0)),
    }
}

/// When an entry was made, by whom, and what it tells.
type Told = (u64, ThreadId, Entered);

// The entry at that place, if it is there.
fn told_at(alloc: Global, book: &PortBook, place: u64) -> Result<Option<Told>, NoMemory> {
    match book.entry(place)? {
        Some(entry) => Ok(Some((entry.stamp, entry.by, entered_by(alloc, &entry.event)?))),
        None => Ok(None),
    }
}

// The book of a port of capacity 1 and life 3 to which two items with the code 9 were to be written.
fn book_of_two_writes<R: Wait>(rt: &R, alloc: Global) -> Result<PortBook, Fail> {
    let mut clock = Clock {
        thread: ThreadId(7),
        time: 4,
    };
    let (port, mut seat) = make(alloc, 1, 3, ThreadId::FIRST_LOOPER, &mut clock)?;
    put(rt, alloc, &port, &mut seat, &mut clock, 9)?;
    put(rt, alloc, &port, &mut seat, &mut clock, 9)?;
    Ok(port.lock(rt, &mut seat).keep())
}

// The last stamp of that book, and its entries.
fn two_writes<R: Wait>(rt: &R, alloc: Global) -> Result<(u64, [Option<Told>; 4]), Fail> {
    let book = book_of_two_writes(rt, alloc)?;
    let entries = [
        told_at(alloc, &book, 0)?,
        told_at(alloc, &book, 1)?,
        told_at(alloc, &book, 2)?,
        told_at(alloc, &book, 3)?,
    ];
    Ok((book.last_stamp(), entries))
}

const BY: ThreadId = ThreadId(7);

const ENTRIES: [Option<Told>; 4] = [
    Some((5, BY, ("made", 1, 3))),
    Some((6, BY, ("written", 0, 9))),
    Some((7, BY, ("full", 0, 0))),
    None,
];

#[test]
fn a_port_is_made_filled_emptied_and_shut(rt: HostRuntime) -> Result<(), Fail> {
    let alloc = rt.alloc();
    written_is_taken_or_pending();
    nothing_is_written_after_shut();
    ports_stay_within_limits();
    a_write_has_one_answer();
    takes_go_on();
    new_seats_can_take();
    nothing_comes_after_the_rest();
    same(
        &rt,
        "capacity 2 and life 2",
        write_three(&rt, alloc)?,
        THREE,
    );
    same(
        &rt,
        "capacity 1 and life 3",
        write_take_and_shut(&rt, alloc)?,
        (START, END),
    );
    same(
        &rt,
        "a book copies its entries",
        two_writes(&rt, alloc)?,
        (7, ENTRIES),
    );
    Ok(())
}
