//! A desk behind its lock moves to another thread, and is edited there while this one edits it too.
ghost use Rattle.std.specs.Prelude.{◌≡◌, false};
ghost use Rattle.std.specs.Arc.{arc_value};

use super::shared::edit_at;
use super::unused;
use EditAnswer::Done;
use ak_base::ThreadId;
use ak_desk::{Desk, Edit, EditAnswer};
use ak_turn::{Book, Clock, Seat, TurnLock};
use std::alloc::Global;
use std::sync::{Arc, Wait};
use std::test::Fail;
use std::thread::{JoinHandle, Threads, spawn};

// What thread 1 takes along: the desk behind its lock, and its own seat there.
#[derive(Drop)]
struct Job {
    lock: Arc<TurnLock<Desk>>,
    seat: Seat<Desk>,
    ghost of: { seat.lock ≡ arc_value lock },
    ghost idle: { seat.turn ≡ false },
    ghost thread: { seat.thread ≡ 1 },
}

// Two edits by that thread, one after the other.
fn edit_twice<R: Wait>(
    rt: &R,
    lock: &TurnLock<Desk>,
    seat: &mut Seat<Desk>,
    thread: ThreadId,
    first: Edit,
    second: Edit,
) -> [EditAnswer; 2]
    requires of { seat.old.lock ≡ lock.now }
    requires idle { seat.old.turn ≡ false }
    requires thread { seat.old.thread ≡ thread.0 }
{
    let mut clock = Clock { thread, time: 0 };
    let answer = edit_at(rt, lock, seat, &mut clock, first);
    [answer, edit_at(rt, lock, seat, &mut clock, second)]
}

// The edits of thread 1: in the end the handler with token 1 is the preferred one.
fn edit_there<R: Wait>(rt: &R, job: Job) -> [EditAnswer; 2] {
    let Job { lock, mut seat } = job;
    edit_twice(
        rt,
        &lock,
        &mut seat,
        ThreadId(1),
        Edit::Prefer(None),
        Edit::Prefer(Some(1)),
    )
}

// The thread that makes these edits. None where no thread can be started.
fn start_edits<R: Threads + Wait + Copy + Send + 'static>(
    rt: &R,
    job: Job,
) -> Option<JoinHandle<[EditAnswer; 2]>> {
    let copy = *rt;
    match spawn(rt, move || edit_there(&copy, job)) {
        Ok(child) => Some(child),
        Err(_) => None,
    }
}

// What each thread is answered, how many entries there are then, and the preferred handler.
type Edited = ([[EditAnswer; 2]; 2], u64, Option<u64>);

// Thread 0 links the handler with token 1 to none meanwhile, and to the looper again.
fn edited<R: Threads + Wait + Copy + Send + 'static>(
    rt: &R,
    alloc: Global,
) -> Result<Edited, Fail> {
    let (shared, mut main) = TurnLock::new(alloc, unused(alloc)?, ThreadId(0))?;
    let seat = shared.split(&mut main, ThreadId(1));
    let mut last = shared.split(&mut main, ThreadId(2));
    let lock = Arc::try_clone(&shared)?;
    let child = start_edits(rt, Job { lock, seat }).ok_or("no thread")?;
    let here = edit_twice(
        rt,
        &shared,
        &mut main,
        ThreadId(0),
        Edit::Next(1, None),
        Edit::Next(1, Some(0)),
    );
    let there = child.join(rt);
    let desk = shared.lock(rt, &mut last).keep();
    Ok(([here, there], desk.len(), desk.state().handlers.preferred()))
}

#[test]
fn a_desk_is_edited_in_another_thread(rt: HostRuntime) -> Result<(), Fail> {
    let told: Edited = ([[Done; 2]; 2], 4, Some(1));
    assert_eq!(rt; edited(&rt, rt.alloc())?, told);
    Ok(())
}
