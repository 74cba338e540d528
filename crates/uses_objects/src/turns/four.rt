//! Four threads that add to one tally.
ghost use Rattle.std.specs.Prelude.{◌≡◌, ℕ, List, false, [], IfOk, vec_len};
ghost use Rattle.ak_turn.specs.Entries.{made_by};
ghost use Rattle.uses_objects.specs.declared.turns.tally.Count.{Count};
ghost use Rattle.ak_turn.specs.Seats.{HasMade, KnowsOf, titled_seat};
ghost use Rattle.ak_turn.specs.Steps.{IsNewName, names_with};

use super::shared::add_to;
use super::tally::{Count, Tally};
use crate::compare::same;
use ak_base::{NoMemory, ThreadId};
use ak_turn::{Book, Clock, Seat, TurnLock};
use std::alloc::Global;
use std::sync::Wait;
use std::test::Fail;
use std::thread::{Threads, join};

/// What a thread gives back: its seat, and the entries that it made, in order.
#[derive(Drop)]
pub struct Work {
    seat: Seat<Tally>,
    made: Vec<Count>,
}

/// The whole list, and what each of the four threads made.
#[derive(Drop)]
pub struct Tale {
    pub tally: Tally,
    pub first: Vec<Count>,
    pub second: Vec<Count>,
    pub third: Vec<Count>,
    pub fourth: Vec<Count>,
}

// Adds so many entries, with the numbers from 0 on.
#[tactic(auto, using(crate::proofs::Calls::making))]
fn make<R: Wait>(
    rt: &R,
    alloc: Global,
    lock: &TurnLock<Tally>,
    mut seat: Seat<Tally>,
    thread: ThreadId,
    each: u64,
) -> Result<Work, NoMemory>
    requires { HasMade (λ c. c.by.0) lock.now thread.0 [] seat }
    ensures made { IfOk result (λ work. HasMade (λ c. c.by.0) lock.now thread.0 work.made.items work.seat) }
    ensures each { IfOk result (λ work. vec_len work.made ≡ each) }
{
    let mut clock = Clock { thread, time: 0 };
    let mut made = Vec::new(alloc);
    for number in 0..each {
        let count = add_to(rt, lock, &mut seat, &mut clock, number)?;
        made.push(count)?;
    }
    Ok(Work { seat, made })
}

fn make_two<R: Threads + Wait + Sync>(
    rt: &R,
    alloc: Global,
    lock: &TurnLock<Tally>,
    seats: (Seat<Tally>, Seat<Tally>),
    threads: (ThreadId, ThreadId),
    each: u64,
) -> Result<(Work, Work), NoMemory>
    requires one { HasMade (λ c. c.by.0) lock.now threads.0.0 [] seats.0 }
    requires two { HasMade (λ c. c.by.0) lock.now threads.1.0 [] seats.1 }
    ensures one { IfOk result (λ works. HasMade (λ c. c.by.0) lock.now threads.0.0 works.0.made.items works.0.seat) }
    ensures two { IfOk result (λ works. HasMade (λ c. c.by.0) lock.now threads.1.0 works.1.made.items works.1.seat) }
{
    let (first, second) = seats;
    let (a, b) = threads;
    let (one, two) = join(
        rt,
        || -> Result<Work, NoMemory>
            requires { HasMade (λ c. c.by.0) lock.now a.0 [] first }
            ensures { IfOk result (λ work. HasMade (λ c. c.by.0) lock.entry.now a.0 work.made.items work.seat) }
        { make(rt, alloc, lock, first, a, each) },
        || -> Result<Work, NoMemory>
            requires { HasMade (λ c. c.by.0) lock.now b.0 [] second }
            ensures { IfOk result (λ work. HasMade (λ c. c.by.0) lock.entry.now b.0 work.made.items work.seat) }
        { make(rt, alloc, lock, second, b, each) },
    );
    Ok((one?, two?))
}

// A seat for a new thread, while there are no entries.
fn seat_for(lock: &TurnLock<Tally>, seat: &mut Seat<Tally>, thread: ThreadId) -> Seat<Tally>
    requires of { seat.old.lock ≡ lock.now }
    requires idle { seat.old.turn ≡ false }
    requires name { IsNewName seat.old.names thread.0 }
    requires empty { seat.old.front ≡ [] }
    ensures seat { seat.new ≡ titled_seat (names_with seat.old.names thread.0) seat.old }
    ensures made { HasMade (λ c. c.by.0) lock.now thread.0 [] result }
{
    lock.split(seat, thread)
}

// The seat takes in what a thread's seat knows, and answers what the thread made.
fn take_in(
    lock: &TurnLock<Tally>,
    seat: &mut Seat<Tally>,
    thread: ThreadId,
    work: Work,
) -> Vec<Count>
    requires of { seat.old.lock ≡ lock.now }
    requires idle { seat.old.turn ≡ false }
    requires work { HasMade (λ c. c.by.0) lock.now thread.0 work.made.items work.seat }
    ensures of { seat.new.lock ≡ lock.now }
    ensures idle { seat.new.turn ≡ false }
    ensures knows { KnowsOf (λ c. c.by.0) thread.0 result.items seat.new }
    ensures keeps { (t : ℕ) (made : List Count) → KnowsOf (λ c. c.by.0) t made seat.old → KnowsOf (λ c. c.by.0) t made seat.new }
    ensures made { result ≡ work.made }
{
    let _number = thread.0;
    let Work { seat: other, made } = work;
    lock.join(seat, other);
    made
}

// The whole list, which has of each thread that the seat knows of just what that thread made.
fn whole<R: Wait>(rt: &R, lock: &TurnLock<Tally>, mut seat: Seat<Tally>) -> Tally
    requires of { seat.lock ≡ lock.now }
    requires idle { seat.turn ≡ false }
    ensures { (t : ℕ) (made : List Count) → KnowsOf (λ c. c.by.0) t made seat → made_by (λ c. c.by.0) t result ≡ made }
{
    lock.lock(rt, &mut seat).keep()
}

fn make_four<R: Threads + Wait + Sync>(
    rt: &R,
    alloc: Global,
    lock: &TurnLock<Tally>,
    seats: ((Seat<Tally>, Seat<Tally>), (Seat<Tally>, Seat<Tally>)),
    threads: ((ThreadId, ThreadId), (ThreadId, ThreadId)),
    each: u64,
) -> Result<((Work, Work), (Work, Work)), NoMemory>
    requires one { HasMade (λ c. c.by.0) lock.now threads.0.0.0 [] seats.0.0 }
    requires two { HasMade (λ c. c.by.0) lock.now threads.0.1.0 [] seats.0.1 }
    requires three { HasMade (λ c. c.by.0) lock.now threads.1.0.0 [] seats.1.0 }
    requires four { HasMade (λ c. c.by.0) lock.now threads.1.1.0 [] seats.1.1 }
    ensures one { IfOk result (λ works. HasMade (λ c. c.by.0) lock.now threads.0.0.0 works.0.0.made.items works.0.0.seat) }
    ensures two { IfOk result (λ works. HasMade (λ c. c.by.0) lock.now threads.0.1.0 works.0.1.made.items works.0.1.seat) }
    ensures three { IfOk result (λ works. HasMade (λ c. c.by.0) lock.now threads.1.0.0 works.1.0.made.items works.1.0.seat) }
    ensures four { IfOk result (λ works. HasMade (λ c. c.by.0) lock.now threads.1.1.0 works.1.1.made.items works.1.1.seat) }
{
    let (front, back) = seats;
    let (one, two) = threads;
    let (first, second) = join(
        rt,
        || -> Result<(Work, Work), NoMemory>
            requires { HasMade (λ c. c.by.0) lock.now one.0.0 [] front.0 × HasMade (λ c. c.by.0) lock.now one.1.0 [] front.1 }
            ensures { IfOk result (λ works. HasMade (λ c. c.by.0) lock.entry.now one.0.0 works.0.made.items works.0.seat × HasMade (λ c. c.by.0) lock.entry.now one.1.0 works.1.made.items works.1.seat) }
        { make_two(rt, alloc, lock, front, one, each) },
        || -> Result<(Work, Work), NoMemory>
            requires { HasMade (λ c. c.by.0) lock.now two.0.0 [] back.0 × HasMade (λ c. c.by.0) lock.now two.1.0 [] back.1 }
            ensures { IfOk result (λ works. HasMade (λ c. c.by.0) lock.entry.now two.0.0 works.0.made.items works.0.seat × HasMade (λ c. c.by.0) lock.entry.now two.1.0 works.1.made.items works.1.seat) }
        { make_two(rt, alloc, lock, back, two, each) },
    );
    Ok((first?, second?))
}

/// Four threads add so many entries each. The list has of each thread just the entries that it made, in its
/// order.
pub fn four_threads<R: Threads + Wait + Sync>(
    rt: &R,
    alloc: Global,
    each: u64,
) -> Result<Tale, NoMemory>
    ensures first { IfOk result (λ tale. made_by (λ c. c.by.0) 1 tale.tally ≡ tale.first.items) }
    ensures second { IfOk result (λ tale. made_by (λ c. c.by.0) 2 tale.tally ≡ tale.second.items) }
    ensures third { IfOk result (λ tale. made_by (λ c. c.by.0) 3 tale.tally ≡ tale.third.items) }
    ensures fourth { IfOk result (λ tale. made_by (λ c. c.by.0) 4 tale.tally ≡ tale.fourth.items) }
{
    let (a, b, c, d) = (ThreadId(1), ThreadId(2), ThreadId(3), ThreadId(4));
    let (shared, mut seat) = TurnLock::new(alloc, Tally::new(alloc), ThreadId(0))?;
    let lock: &TurnLock<Tally> = &shared;
    let one = seat_for(lock, &mut seat, a);
    let two = seat_for(lock, &mut seat, b);
    let three = seat_for(lock, &mut seat, c);
    let four = seat_for(lock, &mut seat, d);
    let (front, back) = make_four(
        rt,
        alloc,
        lock,
        ((one, two), (three, four)),
        ((a, b), (c, d)),
        each,
    )?;
    let (one, two) = front;
    let (three, four) = back;
    let first = take_in(lock, &mut seat, a, one);
    let second = take_in(lock, &mut seat, b, two);
    let third = take_in(lock, &mut seat, c, three);
    let fourth = take_in(lock, &mut seat, d, four);
    let tally = whole(rt, lock, seat);
    Ok(Tale {
        tally,
        first,
        second,
        third,
        fourth,
    })
}

// How many entries there are, and whether they have the numbers from 0 on.
fn numbered(made: &Vec<Count>) -> (usize, bool) {
    for (place, count) in made.iter().enumerate() {
        if count.number != place as u64 {
            return (made.len(), false);
        }
    }
    (made.len(), true)
}

// Whether the stamps rise, and each entry is of one of the four.
fn stamps_rise(tally: &Tally) -> Result<bool, Fail> {
    let mut stamp = 0;
    for place in 0..4000 {
        let count = tally.entry(place)?.ok_or("an entry")?;
        if count.stamp <= stamp || count.by.0 < 1 || count.by.0 > 4 {
            return Ok(false);
        }
        stamp = count.stamp;
    }
    Ok(true)
}

/// What each thread made, how long the list is, and whether its stamps rise.
type Told = ([(usize, bool); 4], u64, bool);

fn told_by(tale: &Tale) -> Result<Told, Fail> {
    let made = [
        numbered(&tale.first),
        numbered(&tale.second),
        numbered(&tale.third),
        numbered(&tale.fourth),
    ];
    Ok((made, tale.tally.len(), stamps_rise(&tale.tally)?))
}

#[test]
fn four_threads_add_a_thousand_each(rt: HostRuntime) -> Result<(), Fail> {
    let tale = four_threads(&rt, rt.alloc(), 1000)?;
    same(&rt, "all", told_by(&tale)?, ([(1000, true); 4], 4000, true));
    Ok(())
}
