//! Edits of a desk that two threads share.
ghost use Rattle.std.specs.Prelude.{◌≡◌, false};

use super::unused;
use EditAnswer::{Done, Refused, Token};
use ak_base::{Text, ThreadId};
use ak_desk::{Desk, DeskEvent, Edit, EditAnswer, edit_shared};
use ak_handler::HandlerFault;
use ak_turn::{Book, Clock, Seat, TurnLock};
use std::alloc::Global;
use std::sync::Wait;
use std::test::Fail;

// Edits at that seat, which stays one of the lock and of its thread.
pub(super) fn edit_at<R: Wait>(
    rt: &R,
    lock: &TurnLock<Desk>,
    seat: &mut Seat<Desk>,
    clock: &mut Clock,
    e: Edit,
) -> EditAnswer
    requires of { seat.old.lock ≡ lock.now }
    requires idle { seat.old.turn ≡ false }
    requires thread { seat.old.thread ≡ clock.old.thread.0 }
    ensures of { seat.new.lock ≡ lock.now }
    ensures idle { seat.new.turn ≡ false }
    ensures thread { seat.new.thread ≡ clock.new.thread.0 }
{
    edit_shared(lock, rt, seat, clock, e)
}

// Edits by two threads in turn. The clock of the second one is at 6.
fn edit_in_turn<R: Wait>(
    rt: &R,
    alloc: Global,
    lock: &TurnLock<Desk>,
    main: &mut Seat<Desk>,
    other: &mut Seat<Desk>,
) -> Result<[EditAnswer; 5], Fail>
    requires of { (main.old.lock ≡ lock.now) × (other.old.lock ≡ lock.now) }
    requires idle { (main.old.turn ≡ false) × (other.old.turn ≡ false) }
    requires threads { (main.old.thread ≡ 0) × (other.old.thread ≡ 1) }
{
    let name = Text::from_bytes(alloc, b"b")?;
    let again = Text::from_bytes(alloc, b"b")?;
    let mut clock = Clock {
        thread: ThreadId(0),
        time: 0,
    };
    let mut later = Clock {
        thread: ThreadId(1),
        time: 6,
    };
    Ok([
        edit_at(rt, lock, main, &mut clock, Edit::Add(name)),
        edit_at(rt, lock, other, &mut later, Edit::Next(1, Some(2))),
        edit_at(rt, lock, main, &mut clock, Edit::Remove(9)),
        edit_at(rt, lock, other, &mut later, Edit::Add(again)),
        edit_at(rt, lock, main, &mut clock, Edit::Remove(2)),
    ])
}

// What the two are answered, and the desk then.
fn edited_in_turn<R: Wait>(rt: &R, alloc: Global) -> Result<([EditAnswer; 5], Desk), Fail> {
    let desk = unused(alloc)?;
    let (lock, mut main) = TurnLock::new(alloc, desk, ThreadId(0))?;
    let mut other = lock.split(&mut main, ThreadId(1));
    let mut third = lock.split(&mut main, ThreadId(2));
    let answers = edit_in_turn(rt, alloc, &lock, &mut main, &mut other)?;
    let desk = lock.lock(rt, &mut third).keep();
    Ok((answers, desk))
}

// Who made an entry, when, and what was answered.
#[derive(Clone, Copy, Debug, PartialEq, Eq)]
struct Entry(u32, u64, EditAnswer);

fn entry_at(desk: &Desk, place: u64) -> Result<Entry, Fail> {
    match desk.entry(place)? {
        Some(entry) => match entry.event {
            DeskEvent::Edited { answer, .. } => Ok(Entry(entry.by.0, entry.stamp, answer)),
            DeskEvent::Dispatched { .. } => Err(Fail::new("the entry is no edit")),
        },
        None => Err(Fail::new("there is no such entry")),
    }
}

// What was answered, how many entries there are, each of the first five, how many handlers there are then, and
// the next one of the handler with token 1.
type Edited = ([EditAnswer; 5], u64, [Entry; 5], u32, Option<u64>);

static ENTRIES: [Entry; 5] = [
    Entry(0, 1, Token(2)),
    Entry(1, 7, Done),
    Entry(0, 8, Refused(HandlerFault::BadHandler)),
    Entry(1, 9, Refused(HandlerFault::NameInUse)),
    Entry(0, 10, Done),
];

fn entries(desk: &Desk) -> Result<[Entry; 5], Fail> {
    Ok([
        entry_at(desk, 0)?,
        entry_at(desk, 1)?,
        entry_at(desk, 2)?,
        entry_at(desk, 3)?,
        entry_at(desk, 4)?,
    ])
}

fn answers_in(entries: &[Entry; 5]) -> [EditAnswer; 5] {
    [
        entries[0].2,
        entries[1].2,
        entries[2].2,
        entries[3].2,
        entries[4].2,
    ]
}

fn edited<R: Wait>(rt: &R, alloc: Global) -> Result<Edited, Fail> {
    let (answers, desk) = edited_in_turn(rt, alloc)?;
    let handlers = &desk.state().handlers;
    let next = handlers.next_of(1);
    Ok((answers, desk.len(), entries(&desk)?, handlers.len(), next))
}

// The answers are those of one list, which has the edits of both.
#[test]
fn two_threads_edit_one_desk(rt: HostRuntime) -> Result<(), Fail> {
    let told: Edited = (answers_in(&ENTRIES), 5, ENTRIES, 2, Some(0));
    assert_eq!(rt; edited(&rt, rt.alloc())?, told);
    Ok(())
}
