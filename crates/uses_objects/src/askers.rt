//! Three threads wait at one reply book, each for its own slot. A fourth fills one slot after the other.
ghost use Rattle.std.specs.Prelude.{◌≡◌, false};
ghost use Rattle.ak_port.specs.Reply.{IsFlatText};

use crate::compare::same;
use crate::reply_text::{none_text, reply_text};
use ak_base::{Bytes, NoMemory, ThreadId};
use ak_port::{ReplyBook, fill, fill_none, open_ask, wait_for};
use ak_turn::{Clock, Seat, TurnLock};
use std::alloc::Global;
use std::sync::Wait;
use std::test::Fail;
use std::thread::{Threads, join, yield_now};

/// The slot that a thread opened, and its reply.
type Replied = (u64, Bytes);

// Opens a slot, and waits for its reply.
fn ask<R: Wait>(
    rt: &R,
    book: &TurnLock<ReplyBook>,
    mut seat: Seat<ReplyBook>,
    thread: u32,
) -> Result<Replied, NoMemory>
    requires of { seat.lock ≡ book.now }
    requires idle { seat.turn ≡ false }
    requires thread { seat.thread ≡ thread }
{
    let mut clock = Clock {
        thread: ThreadId(thread),
        time: 0,
    };
    let n = open_ask(book, rt, &mut seat, &mut clock)?;
    let reply = wait_for(book, rt, &mut seat, &mut clock, n);
    Ok((n, reply))
}

// Lets others run for a while.
fn let_run() {
    for _ in 0..200 {
        yield_now();
    }
}

// Waits until there are so many entries.
fn await_entries<R: Wait>(
    rt: &R,
    book: &TurnLock<ReplyBook>,
    seat: &mut Seat<ReplyBook>,
    least: u64,
)
    requires of { seat.old.lock ≡ book.now }
    requires idle { seat.old.turn ≡ false }
    ensures of { seat.new.lock ≡ book.now }
    ensures idle { seat.new.turn ≡ false }
    ensures thread { seat.new.thread ≡ seat.old.thread }
{
    for _ in rt.forever() {
        book.lock(rt, seat).finish(seat);
        if seat.seen() >= least {
            return;
        }
        book.wait_past(rt, seat.seen());
    }
    unreachable!()
}

// Fills slot 2, then 1, then 0, each once the reply before was taken: who waits for it has to be woken by its fill.
fn fill_three<R: Wait>(rt: &R, book: &TurnLock<ReplyBook>, mut seat: Seat<ReplyBook>, text: Bytes)
    requires of { seat.lock ≡ book.now }
    requires idle { seat.turn ≡ false }
    requires thread { seat.thread ≡ 4 }
    requires text { IsFlatText text }
{
    let mut clock = Clock {
        thread: ThreadId(4),
        time: 0,
    };
    await_entries(rt, book, &mut seat, 3);
    let_run();
    let _ = fill_none(book, rt, &mut seat, &mut clock, 2);
    await_entries(rt, book, &mut seat, 5);
    let_run();
    let _ = fill(book, rt, &mut seat, &mut clock, 1, text);
    await_entries(rt, book, &mut seat, 7);
    let_run();
    let _ = fill_none(book, rt, &mut seat, &mut clock, 0);
}

// What two of the askers are answered, each in a thread of its own.
fn ask_two<R: Threads + Wait + Sync>(
    rt: &R,
    book: &TurnLock<ReplyBook>,
    one: Seat<ReplyBook>,
    two: Seat<ReplyBook>,
) -> Result<(Replied, Replied), NoMemory>
    requires one { (one.lock ≡ book.now) × (one.turn ≡ false) × (one.thread ≡ 1) }
    requires two { (two.lock ≡ book.now) × (two.turn ≡ false) × (two.thread ≡ 2) }
{
    let (first, second) = join(
        rt,
        || -> Result<Replied, NoMemory>
            requires { (one.lock ≡ book.now) × (one.turn ≡ false) × (one.thread ≡ 1) }
        { ask(rt, book, one, 1) },
        || -> Result<Replied, NoMemory>
            requires { (two.lock ≡ book.now) × (two.turn ≡ false) × (two.thread ≡ 2) }
        { ask(rt, book, two, 2) },
    );
    Ok((first?, second?))
}

// What the third is answered, while the fourth fills the slots.
fn ask_and_fill<R: Threads + Wait + Sync>(
    rt: &R,
    book: &TurnLock<ReplyBook>,
    three: Seat<ReplyBook>,
    four: Seat<ReplyBook>,
    text: Bytes,
) -> Result<Replied, NoMemory>
    requires three { (three.lock ≡ book.now) × (three.turn ≡ false) × (three.thread ≡ 3) }
    requires four { (four.lock ≡ book.now) × (four.turn ≡ false) × (four.thread ≡ 4) }
    requires text { IsFlatText text }
{
    let (third, _) = join(
        rt,
        || -> Result<Replied, NoMemory>
            requires { (three.lock ≡ book.now) × (three.turn ≡ false) × (three.thread ≡ 3) }
        { ask(rt, book, three, 3) },
        ||
            requires { (four.lock ≡ book.now) × (four.turn ≡ false) × (four.thread ≡ 4) × IsFlatText text }
        { fill_three(rt, book, four, text) },
    );
    third
}

// What the three are answered.
fn ask_three<R: Threads + Wait + Sync>(
    rt: &R,
    alloc: Global,
    text: Bytes,
) -> Result<(Replied, Replied, Replied), NoMemory>
    requires { IsFlatText text }
{
    let (shared, mut head) = TurnLock::new(alloc, ReplyBook::new(alloc)?, ThreadId::MAIN)?;
    let book: &TurnLock<ReplyBook> = &shared;
    let one = book.split(&mut head, ThreadId(1));
    let two = book.split(&mut head, ThreadId(2));
    let three = book.split(&mut head, ThreadId(3));
    let four = book.split(&mut head, ThreadId(4));
    let (both, third) = join(
        rt,
        || -> Result<(Replied, Replied), NoMemory>
            requires { (one.lock ≡ book.now) × (one.turn ≡ false) × (one.thread ≡ 1) × (two.lock ≡ book.now) × (two.turn ≡ false) × (two.thread ≡ 2) }
        { ask_two(rt, book, one, two) },
        || -> Result<Replied, NoMemory>
            requires { (three.lock ≡ book.now) × (three.turn ≡ false) × (three.thread ≡ 3) × (four.lock ≡ book.now) × (four.turn ≡ false) × (four.thread ≡ 4) × IsFlatText text }
        { ask_and_fill(rt, book, three, four, text) },
    );
    let (first, second) = both?;
    Ok((first, second, third?))
}

// Whether the reply is the one that the slot was filled with: the text in slot 1, and else the one for no reply.
fn is_its_own(replied: &Replied, text: &[u8], none: &[u8]) -> bool {
    let (n, reply) = replied;
    let wanted = if *n == 1 { text } else { none };
    reply.as_slice() == wanted
}

// How many of the three slots 0, 1 and 2 were opened and answered by their own replies.
fn each_replied<R: Threads + Wait + Sync>(rt: &R, alloc: Global) -> Result<[u64; 3], NoMemory> {
    let (a, b, c) = ask_three(rt, alloc, reply_text(alloc)?)?;
    let text = reply_text(alloc)?;
    let none = none_text(alloc)?;
    let mut counts = [0; 3];
    for replied in [&a, &b, &c] {
        if is_its_own(replied, text.as_slice(), none.as_slice()) {
            count(&mut counts, replied.0);
        }
    }
    Ok(counts)
}

// One more for that slot, if it is one of the three.
fn count(counts: &mut [u64; 3], slot: u64) {
    if slot < 3 {
        counts[slot as usize] = counts[slot as usize].saturating_add(1);
    }
}

#[test]
fn each_asker_is_woken_by_its_own_fill(rt: HostRuntime) -> Result<(), Fail> {
    let alloc = rt.alloc();
    same(&rt, "its own replies", each_replied(&rt, alloc)?, [1, 1, 1]);
    Ok(())
}
