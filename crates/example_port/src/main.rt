//! Two threads at a port: one asks for a number and waits, the other takes the message and replies.
//! (The Be Book, BMessenger: a synchronous send.)
#![tactic(auto)]

ghost use Rattle.std.specs.Prelude.{◌≡◌, false, IfOk};
ghost use Rattle.ak_base.specs.Thread.{looper_thread};
ghost use Rattle.ak_port.specs.PortCalls.{CanTake};
ghost use Rattle.ak_port.specs.Reply.{IsFlatText};

use ak_base::{Bytes, Code, ThreadId};
use ak_flatten::{Duty, Item};
use ak_message::{Kind, Message, Target, Value};
use ak_messenger::{Envelope, Hands, ask};
use ak_port::{Port, PortBook, ReplyBook, fill, make, take};
use ak_turn::{Clock, Seat, TurnLock};
use std::alloc::Global;
use std::collections::VecDeque;
use std::fmt::Debug;
use std::io;
use std::sync::{Arc, Wait};
use std::thread::{Threads, join};

/// The thread that asks, and the one that takes, as a looper's thread does.
const ASKER: ThreadId = ThreadId::MAIN;

const TAKER: ThreadId = ThreadId::FIRST_LOOPER;

/// There is no answer: memory ran out. A program would have an enum here, with a variant for each fault that it
/// answers in its own way.
#[derive(Drop)]
struct Stopped;

impl<E: Debug + Drop> From<E> for Stopped {
    fn from(_error: E) -> Stopped {
        Stopped
    }
}

fn clock_of(thread: ThreadId) -> Clock
    ensures { result ≡ record { thread = thread; time = 0 } }
{
    Clock { thread, time: 0 }
}

/// The flat text of the reply, `RPLY` with the number.
fn reply(alloc: Global, number: i32) -> Result<Bytes, Stopped>
    ensures { IfOk result IsFlatText }
{
    let mut message = Message::new(alloc, Code::REPLY);
    message.add(b"result", Value::Int32(number))?;
    let item = Item::new(alloc, Target::Preferred, 0, false, Duty::None, &message)?;
    let mut text = Bytes::new(alloc);
    text.extend(item.flat())?;
    Ok(text)
}

/// Asks, and answers the number in the reply.
fn ask_number<R: Wait>(
    rt: &R,
    alloc: Global,
    mut hands: Hands,
    port: &Port,
    mut seat: Seat<PortBook>,
) -> Result<i32, Stopped>
    requires of { seat.lock ≡ port.now }
    requires idle { seat.turn ≡ false }
    requires thread { seat.thread ≡ hands.clock.thread.0 }
{
    let envelope = Envelope {
        target: Target::Preferred,
        team: 1,
        dropped: false,
        popped: 0,
        back: None,
    };
    let question = Message::new(alloc, Code::COUNT);
    let reply = ask(alloc, &mut hands, rt, port, &mut seat, envelope, &question)?;
    match reply.message.find(b"result", Kind::Int32, 0) {
        Ok(Value::Int32(number)) => Ok(*number),
        _ => Err(Stopped),
    }
}

/// Takes one message, and fills the slot that its sender waits on.
fn answer_one<R: Wait>(
    rt: &R,
    alloc: Global,
    port: &Port,
    mut seat: Seat<PortBook>,
    book: &TurnLock<ReplyBook>,
    mut book_seat: Seat<ReplyBook>,
) -> Result<(), Stopped>
    requires of { seat.lock ≡ port.now }
    requires idle { seat.turn ≡ false }
    requires thread { seat.thread ≡ looper_thread 0 }
    requires taking { CanTake TAKER 1 seat }
    requires book_of { book_seat.lock ≡ book.now }
    requires book_idle { book_seat.turn ≡ false }
    requires book_thread { book_seat.thread ≡ looper_thread 0 }
{
    let mut clock = clock_of(TAKER);
    let mut taken = VecDeque::with_capacity(alloc, 1)?;
    take(port, rt, &mut seat, &mut clock, &mut taken, 1);
    if let Some(next) = taken.pop_front()
        && let Duty::Slot(slot) = next.item.duty()
    {
        fill(book, rt, &mut book_seat, &mut clock, slot, reply(alloc, 3)?);
    }
    Ok(())
}

/// Makes a port that holds one message, and a reply book; gives each thread its seats; and lets both run.
fn run<R: Threads + Wait + Sync>(rt: &R, alloc: Global) -> Result<i32, Stopped> {
    let (shared, mut taker) = make(alloc, 1, 1, TAKER, &mut clock_of(TAKER))?;
    let (replies, mut filler) = TurnLock::new(alloc, ReplyBook::new(alloc)?, TAKER)?;
    let port: &Port = &shared;
    let book: &TurnLock<ReplyBook> = &replies;
    let seat = port.split(&mut taker, ASKER);
    let hands = Hands {
        clock: clock_of(ASKER),
        book_seat: book.split(&mut filler, ASKER),
        book: Arc::try_clone(&replies)?,
    };
    let (number, answered) = join(
        rt,
        || -> Result<i32, Stopped>
            requires { (seat.lock ≡ port.now) × (seat.turn ≡ false) × (seat.thread ≡ hands.clock.thread.0) }
        { ask_number(rt, alloc, hands, port, seat) },
        || -> Result<(), Stopped>
            requires { (taker.lock ≡ port.now) × (taker.turn ≡ false) × (taker.thread ≡ looper_thread 0) × CanTake TAKER 1 taker × (filler.lock ≡ book.now) × (filler.turn ≡ false) × (filler.thread ≡ looper_thread 0) }
        { answer_one(rt, alloc, port, taker, book, filler) },
    );
    answered?;
    number
}

fn main(rt: HostRuntime) -> io::Result<()> {
    match run(&rt, rt.alloc()) {
        Ok(number) => println!(rt; "the reply has the number {number}"),
        Err(Stopped) => println!(rt; "no reply"),
    }
}
