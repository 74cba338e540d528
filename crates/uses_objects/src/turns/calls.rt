//! Each call once, and a thread that waits for entries.
ghost use Rattle.std.specs.Prelude.{◌≡◌, false};
ghost use Rattle.std.specs.Arc.{arc_value};
ghost use Rattle.ak_turn.specs.Steps.{IsNewName};

use super::shared::{add_to, await_count, look};
use super::stamps::{BOOKS, first_stamp, two_entries, two_stamps};
use super::tally::{Count, Tally};
use crate::compare::same;
use ak_base::{NoMemory, ThreadId};
use ak_turn::{Book, Clock, Seat, TurnLock, fronts_go_on, new_seats_know};
use std::alloc::Global;
use std::sync::{Arc, Wait};
use std::test::Fail;
use std::thread;
use std::thread::yield_now;

/// The stamp of a call; how many entries were seen by its seat behind it, by main's before it waited for it and after, and
/// by a seat that is split off then; how long the tally is; and whether the entry of the call stands in it.
type Called = (u64, [u64; 4], (u64, bool));

// What a seat for a new thread sees, and the tally.
fn seen_by_a_new_one<R: Wait>(rt: &R, lock: &TurnLock<Tally>, mut main: Seat<Tally>) -> (u64, Tally)
    requires of { main.lock ≡ lock.now }
    requires idle { main.turn ≡ false }
    requires name { IsNewName main.names 3 }
{
    let mut fourth = lock.split(&mut main, ThreadId(3));
    let seen = look(rt, lock, &mut fourth);
    (seen, lock.lock(rt, &mut main).keep())
}

// How long the tally is, and whether that entry stands first in it.
fn begins_with(tally: &Tally, count: Count) -> Result<(u64, bool), NoMemory> {
    Ok((tally.len(), tally.entry(0)? == Some(count)))
}

fn split_call_and_join<R: Wait>(rt: &R, alloc: Global) -> Result<Called, NoMemory> {
    let (lock, mut main) = TurnLock::new(alloc, Tally::new(alloc), ThreadId(0))?;
    let mut head = lock.split_head(&mut main, ThreadId(1));
    let mut third = lock.split(&mut head, ThreadId(2));
    let mut clock = Clock {
        thread: ThreadId(2),
        time: 6,
    };
    let count = add_to(rt, &lock, &mut third, &mut clock, 40)?;
    let (by_its_seat, before) = (third.seen(), main.seen());
    await_count(rt, &lock, &mut main, 1);
    let waited = main.seen();
    lock.join(&mut main, head);
    lock.join(&mut main, third);
    let (by_a_new_one, tally) = seen_by_a_new_one(rt, &lock, main);
    let seen = [by_its_seat, before, waited, by_a_new_one];
    Ok((count.stamp, seen, begins_with(&tally, count)?))
}

const CALLED: Called = (7, [1, 0, 1, 1], (1, true));

#[test]
fn turns_are_entries_with_stamps(rt: HostRuntime) -> Result<(), Fail> {
    let alloc = rt.alloc();
    fronts_go_on::<Tally>();
    new_seats_know::<Tally>();
    same(
        &rt,
        "seats split, call and join",
        split_call_and_join(&rt, alloc)?,
        CALLED,
    );
    same(&rt, "a stamp is past both", first_stamp(), None);
    same(&rt, "stamps of one thread rise", two_stamps(), (6, 7));
    same(&rt, "a tally is a book", two_entries(alloc)?, BOOKS);
    Ok(())
}

/// How many entries are waited for.
const AWAITED: u64 = 20;

// Adds entries, now and then.
fn feed<R: Wait>(rt: &R, lock: &TurnLock<Tally>, mut seat: Seat<Tally>)
    requires of { seat.lock ≡ lock.now }
    requires idle { seat.turn ≡ false }
    requires thread { seat.thread ≡ 1 }
{
    let mut clock = Clock {
        thread: ThreadId(1),
        time: 0,
    };
    for number in 0..AWAITED {
        for _ in 0..100 {
            yield_now();
        }
        let _ = add_to(rt, lock, &mut seat, &mut clock, number);
    }
}

#[test]
fn a_thread_waits_for_entries(rt: HostRuntime) -> Result<(), Fail> {
    let alloc: Global = rt.alloc();
    let (lock, mut seat) = TurnLock::new(alloc, Tally::new(alloc), ThreadId(0))?;
    let feeder = lock.split(&mut seat, ThreadId(1));
    let theirs = Arc::try_clone(&lock)?;
    let started = thread::spawn(
        &rt,
        move ||
            requires { (feeder.lock ≡ arc_value theirs) × (feeder.turn ≡ false) × (feeder.thread ≡ 1) }
        { feed(&rt, &theirs, feeder) },
    );
    if let Ok(child) = started {
        await_count(&rt, &lock, &mut seat, AWAITED);
        same(&rt, "entries", seat.seen(), AWAITED);
        child.join(&rt);
    }
    Ok(())
}
