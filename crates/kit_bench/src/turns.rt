//! Threads that take turns at one lock, so that a turn and a wait can be timed.
ghost use Rattle.std.specs.Prelude.{◌≡◌, ◌∷◌, [], false, All, Some, IfOk, OnErr};
ghost use Rattle.ak_turn.specs.Seats.{HasCalled, HasSeen};
ghost use Rattle.kit_bench.specs.Turns.{IsIdleAt, IsReady};

use crate::fault::BenchFault;
use crate::tally::{Count, Tally};
use ak_base::{NoMemory, ThreadId};
use ak_turn::{Book, Clock, Seat, TurnLock};
use std::alloc::Global;
use std::sync::Wait;
use std::thread::{Threads, map_vec, sleep};
use std::time;
use std::time::Duration;

/// How many milliseconds after the other thread a thread asks for the turn that it waits for.
const LATER: u64 = 10;

/// A thread, and its seat.
#[derive(Drop)]
pub struct Worker {
    seat: Seat<Tally>,
    thread: ThreadId,
}

/// What each thread does.
#[derive(Clone, Copy)]
pub enum Turns {
    /// It enters so many numbers, a turn for each number.
    Enter(u32),
    /// The first one waits for its turn and makes an entry, since another has the turn for so many milliseconds.
    Wait(u32),
}

/// So many threads take their turns. Answers how many entries there are then.
pub fn count_turns<R: Threads + Wait + time::Clock + Sync>(
    rt: &R,
    alloc: Global,
    threads: u32,
    turns: Turns,
) -> Result<u64, BenchFault> {
    let (shared, mut seat) = TurnLock::new(alloc, Tally::new(alloc), ThreadId(0))?;
    let lock: &TurnLock<Tally> = &shared;
    let jobs = workers(alloc, lock, &mut seat, threads)?;
    let done = map_vec(
        rt,
        jobs,
        &|worker: Worker| -> Result<(), NoMemory>
            requires { IsReady lock.now worker.thread.0 worker.seat }
        { work(rt, lock, worker, turns) },
    )?;
    for worked in done {
        worked?;
    }
    Ok(count_entries(rt, lock, seat))
}

/// Seats for that many new threads, with the numbers from 1 on.
#[tactic(auto, using(crate::proofs::Naming::naming))]
fn workers(
    alloc: Global,
    lock: &TurnLock<Tally>,
    seat: &mut Seat<Tally>,
    count: u32,
) -> Result<Vec<Worker>, NoMemory>
    requires at { IsIdleAt lock.now seat.old }
    requires head { seat.old.names ≡ Some (0 ∷ []) }
    ensures at { IsIdleAt lock.now seat.new }
    ensures ready { IfOk result (λ workers. All (λ worker. IsReady lock.now worker.thread.0 worker.seat) workers.items) }
{
    let mut workers = Vec::new(alloc);
    for place in 0..count {
        let thread = ThreadId(place + 1);
        workers.push(Worker {
            seat: lock.split(seat, thread),
            thread,
        })?;
    }
    Ok(workers)
}

/// Takes the turns of one thread.
fn work<R: Wait + time::Clock>(
    rt: &R,
    lock: &TurnLock<Tally>,
    worker: Worker,
    turns: Turns,
) -> Result<(), NoMemory>
    requires { IsReady lock.now worker.thread.0 worker.seat }
{
    match turns {
        Turns::Enter(each) => enter_all(rt, lock, worker, each),
        Turns::Wait(milliseconds) => wait_or_hold(rt, lock, worker, milliseconds),
    }
}

/// The first thread enters one number, a moment later, and another has its turn for so long.
fn wait_or_hold<R: Wait + time::Clock>(
    rt: &R,
    lock: &TurnLock<Tally>,
    worker: Worker,
    milliseconds: u32,
) -> Result<(), NoMemory>
    requires { IsReady lock.now worker.thread.0 worker.seat }
{
    if worker.thread.0 == 1 {
        sleep(rt, Duration::from_millis(LATER));
        return enter_all(rt, lock, worker, 1);
    }
    hold(rt, lock, worker, milliseconds);
    Ok(())
}

/// Enters the numbers from 0 on, so many.
fn enter_all<R: Wait>(
    rt: &R,
    lock: &TurnLock<Tally>,
    worker: Worker,
    each: u32,
) -> Result<(), NoMemory>
    requires { IsReady lock.now worker.thread.0 worker.seat }
{
    let Worker { mut seat, thread } = worker;
    let mut clock = Clock { thread, time: 0 };
    for number in 0..each {
        enter(rt, lock, &mut seat, &mut clock, number)?;
    }
    Ok(())
}

/// A turn in which that number is entered, by the seat's thread.
fn enter(
    rt: &impl Wait,
    lock: &TurnLock<Tally>,
    seat: &mut Seat<Tally>,
    clock: &mut Clock,
    number: u32,
) -> Result<Count, NoMemory>
    requires of { seat.old.lock ≡ lock.now }
    requires idle { seat.old.turn ≡ false }
    requires thread { seat.old.thread ≡ clock.old.thread.0 }
    ensures clock { clock.new.thread ≡ clock.old.thread }
    ensures called { IfOk result (λ count. HasCalled (λ c. c.by.0) count seat.old seat.new) }
    ensures err { OnErr result (HasSeen (λ c. c.by.0) seat.old seat.new) }
{
    let mut turn = lock.lock(rt, seat);
    clock.ready(rt);
    let count = Count {
        stamp: clock.stamp(turn.book().last_stamp()),
        by: clock.thread,
        number,
    };
    let result = turn.book().add(count);
    turn.finish(seat);
    result?;
    Ok(count)
}

/// A turn that takes so many milliseconds, and leaves the list as it is.
fn hold<R: Wait + time::Clock>(rt: &R, lock: &TurnLock<Tally>, worker: Worker, milliseconds: u32)
    requires { IsReady lock.now worker.thread.0 worker.seat }
{
    let Worker {
        mut seat,
        thread: _,
    } = worker;
    let turn = lock.lock(rt, &mut seat);
    sleep(rt, Duration::from_millis(u64::from(milliseconds)));
    turn.finish(&mut seat);
}

/// How many entries there are. No turn comes after it.
fn count_entries<R: Wait>(rt: &R, lock: &TurnLock<Tally>, mut seat: Seat<Tally>) -> u64
    requires { IsIdleAt lock.now seat }
{
    lock.lock(rt, &mut seat).keep().len()
}
