//! Two threads that write to a port while a third takes.
ghost use Rattle.std.specs.Prelude.{◌≡◌, ◌+◌, ◌≤◌, ◌<◌, ◌^◌, ◌++◌, ℕ, List, false, [], Some, IfOk};
ghost use Rattle.ak_turn.specs.Entries.{made_by};
ghost use Rattle.ak_turn.specs.Seats.{titled_seat};
ghost use Rattle.ak_turn.specs.Steps.{IsNewName, names_with};
ghost use Rattle.ak_port.specs.PortCalls.{by_number};
ghost use Rattle.ak_port.specs.PortMachine.{pending_items, state_of, taken_items, written_in};
ghost use Rattle.ak_port.specs.PortWriters.{teams_in, HasSent, HasTaken, KnowsSent, StartsToTake};

use crate::compare::same;
use ak_base::{Code, NoMemory, ThreadId};
use ak_flatten::{Duty, Item, Taken};
use ak_message::{Message, Target};
use ak_port::{Port, PortBook, TakeAnswer, WriteAnswer, make, take, write};
use ak_turn::{Clock, Seat};
use std::alloc::Global;
use std::collections::VecDeque;
use std::sync::Wait;
use std::test::Fail;
use std::thread::{Threads, join};

/// How many items the port holds at a time.
const CAPACITY: u32 = 3;

/// What a writer gives back: its seat, and the numbers of the items that were accepted of it, in order.
#[derive(Drop)]
pub struct Work {
    seat: Seat<PortBook>,
    sent: Vec<u32>,
}

/// What the taker gives back: its seat, and what it took.
#[derive(Drop)]
pub struct Haul {
    seat: Seat<PortBook>,
    taken: VecDeque<Taken>,
}

/// The whole list, what each writer wrote, and what was taken.
#[derive(Drop)]
pub struct Tale {
    pub book: PortBook,
    pub first: Vec<u32>,
    pub second: Vec<u32>,
    pub taken: VecDeque<Taken>,
}

// An item that has the number as its team.
fn item(alloc: Global, number: u32) -> Result<Item, NoMemory>
    ensures { IfOk result (λ item. item.team ≡ number) }
{
    let message = Message::new(alloc, Code::GET);
    match Item::new(
        alloc,
        Target::Preferred,
        number,
        false,
        Duty::None,
        &message,
    ) {
        Ok(item) => Ok(item),
        Err(_) => Err(NoMemory),
    }
}

// Writes so many items, with the numbers from `first` on.
#[tactic(auto, using(crate::proofs::Calls::sending))]
fn send<R: Wait>(
    rt: &R,
    alloc: Global,
    port: &Port,
    mut seat: Seat<PortBook>,
    thread: ThreadId,
    first: u32,
    each: u32,
) -> Result<Work, NoMemory>
    requires seat { HasSent port.now thread.0 [] seat }
    requires few { first + each < 2 ^ 32 }
    ensures { IfOk result (λ work. HasSent port.now thread.0 work.sent.items work.seat) }
{
    let mut clock = Clock { thread, time: 0 };
    let mut sent = Vec::new(alloc);
    for number in first..first + each {
        let item = item(alloc, number)?;
        match write(port, rt, &mut seat, &mut clock, item) {
            WriteAnswer::Wrote(_) => sent.push(number)?,
            _ => return Err(NoMemory),
        }
    }
    Ok(Work { seat, sent })
}

// Takes so many items, two at a time at most.
fn take_all<R: Wait>(
    rt: &R,
    alloc: Global,
    port: &Port,
    mut seat: Seat<PortBook>,
    thread: ThreadId,
    count: usize,
) -> Result<Haul, NoMemory>
    requires seat { StartsToTake port.now thread CAPACITY seat }
    requires few { count ≤ 2000 }
    ensures { IfOk result (λ haul. HasTaken port.now thread haul.taken.items haul.seat) }
{
    let mut clock = Clock { thread, time: 0 };
    let mut taken = VecDeque::with_capacity(alloc, count + CAPACITY as usize)?;
    for _ in 0..count {
        if taken.len() >= count {
            break;
        }
        match take(port, rt, &mut seat, &mut clock, &mut taken, 2) {
            TakeAnswer::Took(_) => {}
            TakeAnswer::Rest(_) => return Err(NoMemory),
        }
    }
    Ok(Haul { seat, taken })
}

// A seat for a new thread, which has written nothing.
fn seat_for(port: &Port, seat: &mut Seat<PortBook>, thread: ThreadId) -> Seat<PortBook>
    requires of { seat.old.lock ≡ port.now }
    requires idle { seat.old.turn ≡ false }
    requires name { IsNewName seat.old.names thread.0 }
    requires empty { made_by by_number thread.0 seat.old.front ≡ [] }
    ensures seat { seat.new ≡ titled_seat (names_with seat.old.names thread.0) seat.old }
    ensures sent { HasSent port.now thread.0 [] result }
{
    port.split(seat, thread)
}

// The seat takes in what a writer's seat knows, and answers what the writer wrote.
fn take_in(port: &Port, seat: &mut Seat<PortBook>, thread: ThreadId, work: Work) -> Vec<u32>
    requires of { seat.old.lock ≡ port.now }
    requires idle { seat.old.turn ≡ false }
    requires work { HasSent port.now thread.0 work.sent.items work.seat }
    ensures of { seat.new.lock ≡ port.now }
    ensures idle { seat.new.turn ≡ false }
    ensures knows { KnowsSent thread.0 result.items seat.new }
    ensures keeps { (t : ℕ) (sent : List ℕ) → KnowsSent t sent seat.old → KnowsSent t sent seat.new }
    ensures front { seat.new.front ≡ seat.old.front }
    ensures thread { seat.new.thread ≡ seat.old.thread }
    ensures opening { seat.new.opening ≡ seat.old.opening }
    ensures sent { result ≡ work.sent }
{
    let _number = thread.0;
    let Work { seat: other, sent } = work;
    port.join(seat, other);
    sent
}

// The whole list: of each writer that the seat knows of it has just what that writer wrote, and what was
// written is what the taker's seat knows as taken, then what is pending.
fn whole<R: Wait>(rt: &R, port: &Port, mut seat: Seat<PortBook>, taker: ThreadId) -> PortBook
    requires of { seat.lock ≡ port.now }
    requires idle { seat.turn ≡ false }
    requires thread { seat.thread ≡ taker.0 }
    requires opening { seat.opening ≡ Some taker }
    ensures sent { (t : ℕ) (sent : List ℕ) → KnowsSent t sent seat → teams_in (made_by by_number t result.entries) ≡ sent }
    ensures taken { written_in result.entries ≡ taken_items (state_of seat.front) ++ pending_items (state_of result.entries) }
{
    let book = port.lock(rt, &mut seat).keep();
    // Reading the taker shows that the list is a port's.
    let _taker = book.taker();
    book
}

// Two writers, in threads of their own: the first with the numbers from 0 on, the second from 1,000 on.
fn send_both<R: Threads + Wait + Sync>(
    rt: &R,
    alloc: Global,
    port: &Port,
    seats: (Seat<PortBook>, Seat<PortBook>),
    threads: (ThreadId, ThreadId),
    each: u32,
) -> Result<(Work, Work), NoMemory>
    requires one { HasSent port.now threads.0.0 [] seats.0 }
    requires two { HasSent port.now threads.1.0 [] seats.1 }
    requires few { each ≤ 1000 }
    ensures one { IfOk result (λ works. HasSent port.now threads.0.0 works.0.sent.items works.0.seat) }
    ensures two { IfOk result (λ works. HasSent port.now threads.1.0 works.1.sent.items works.1.seat) }
{
    let (first, second) = seats;
    let (a, b) = threads;
    let (one, two) = join(
        rt,
        || -> Result<Work, NoMemory>
            requires { HasSent port.now a.0 [] first × (each ≤ 1000) }
            ensures { IfOk result (λ work. HasSent port.entry.now a.0 work.sent.items work.seat) }
        { send(rt, alloc, port, first, a, 0, each) },
        || -> Result<Work, NoMemory>
            requires { HasSent port.now b.0 [] second × (each ≤ 1000) }
            ensures { IfOk result (λ work. HasSent port.entry.now b.0 work.sent.items work.seat) }
        { send(rt, alloc, port, second, b, 1000, each) },
    );
    Ok((one?, two?))
}

// Takes in a thread of its own what the two writers write in theirs.
fn take_and_send<R: Threads + Wait + Sync>(
    rt: &R,
    alloc: Global,
    port: &Port,
    seat: Seat<PortBook>,
    taker: ThreadId,
    seats: (Seat<PortBook>, Seat<PortBook>),
    threads: (ThreadId, ThreadId),
    each: u32,
) -> Result<(Haul, (Work, Work)), NoMemory>
    requires seat { StartsToTake port.now taker CAPACITY seat }
    requires one { HasSent port.now threads.0.0 [] seats.0 }
    requires two { HasSent port.now threads.1.0 [] seats.1 }
    requires few { each ≤ 1000 }
    ensures taken { IfOk result (λ told. HasTaken port.now taker told.0.taken.items told.0.seat) }
    ensures one { IfOk result (λ told. HasSent port.now threads.0.0 told.1.0.sent.items told.1.0.seat) }
    ensures two { IfOk result (λ told. HasSent port.now threads.1.0 told.1.1.sent.items told.1.1.seat) }
{
    let count = each as usize * 2;
    let (hauled, works) = join(
        rt,
        || -> Result<Haul, NoMemory>
            requires { StartsToTake port.now taker CAPACITY seat × (count ≤ 2000) }
            ensures { IfOk result (λ haul. HasTaken port.entry.now taker haul.taken.items haul.seat) }
        { take_all(rt, alloc, port, seat, taker, count) },
        || -> Result<(Work, Work), NoMemory>
            requires { HasSent port.now threads.0.0 [] seats.0 × HasSent port.now threads.1.0 [] seats.1 × (each ≤ 1000) }
            ensures { IfOk result (λ works. HasSent port.entry.now threads.0.0 works.0.sent.items works.0.seat × HasSent port.entry.now threads.1.0 works.1.sent.items works.1.seat) }
        { send_both(rt, alloc, port, seats, threads, each) },
    );
    Ok((hauled?, works?))
}

/// Two threads write so many items each, while a third takes them. The history has of each writer just what it
/// wrote, in its order; and what was taken, and then what is pending, is what was written.
pub fn three_threads<R: Threads + Wait + Sync>(
    rt: &R,
    alloc: Global,
    each: u32,
) -> Result<Tale, NoMemory>
    requires { each ≤ 1000 }
    ensures first { IfOk result (λ tale. teams_in (made_by by_number 1 tale.book.entries) ≡ tale.first.items) }
    ensures second { IfOk result (λ tale. teams_in (made_by by_number 2 tale.book.entries) ≡ tale.second.items) }
    ensures taken { IfOk result (λ tale. written_in tale.book.entries ≡ tale.taken.items ++ pending_items (state_of tale.book.entries)) }
{
    let (a, b, taker) = (ThreadId(1), ThreadId(2), ThreadId::FIRST_LOOPER);
    let mut clock = Clock {
        thread: taker,
        time: 0,
    };
    let (shared, mut seat) = make(alloc, CAPACITY, 8192, taker, &mut clock)?;
    let port: &Port = &shared;
    let one = seat_for(port, &mut seat, a);
    let two = seat_for(port, &mut seat, b);
    let (hauled, works) = take_and_send(rt, alloc, port, seat, taker, (one, two), (a, b), each)?;
    let Haul {
        seat: mut last,
        taken,
    } = hauled;
    let (one, two) = works;
    let first = take_in(port, &mut last, a, one);
    let second = take_in(port, &mut last, b, two);
    let book = whole(rt, port, last, taker);
    Ok(Tale {
        book,
        first,
        second,
        taken,
    })
}

// The next number of each writer behind the item, where that is at its place and has the next number of its writer.
fn next_after(taken: &Taken, place: u64, next: (u32, u32)) -> Option<(u32, u32)> {
    let number = taken.item.team();
    if taken.position != place {
        return None;
    }
    if number < 1000 {
        (number == next.0).then_some((number + 1, next.1))
    } else {
        (number == next.1).then_some((next.0, number.saturating_add(1)))
    }
}

// The first item that is not the next one: its place, its position, and its number.
fn first_astray(items: &VecDeque<Taken>) -> Option<(u64, u64, u32)> {
    let mut next = (0, 1000);
    for (place, taken) in items.iter().enumerate() {
        let Some(then) = next_after(taken, place as u64, next) else {
            return Some((place as u64, taken.position, taken.item.team()));
        };
        next = then;
    }
    None
}

// How many items were taken, and how many each writer wrote; and the first of those taken that is not the next one of
// its writer.
fn taken_in_order<R: Threads + Wait + Sync>(
    rt: &R,
    alloc: Global,
) -> Result<([usize; 3], Option<(u64, u64, u32)>), Fail> {
    let tale = three_threads(rt, alloc, 100)?;
    let lengths = [tale.taken.len(), tale.first.len(), tale.second.len()];
    Ok((lengths, first_astray(&tale.taken)))
}

#[test]
fn two_writers_and_a_taker(rt: HostRuntime) -> Result<(), Fail> {
    let wanted = ([200, 100, 100], None);
    same(&rt, "taken", taken_in_order(&rt, rt.alloc())?, wanted);
    Ok(())
}
