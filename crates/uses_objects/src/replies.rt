//! Slots that are filled before a wait and after, cancelled, and filled with no reply.
ghost use Rattle.std.specs.Prelude.{◌≡◌, false, IfOk};
ghost use Rattle.std.specs.Arc.{arc_value};
ghost use Rattle.ak_base.specs.Thread.{looper_thread};
ghost use Rattle.ak_port.specs.Reply.{IsFlatText};

use crate::compare::same;
use crate::reply_text::reply_text;
use ak_base::{Bytes, NoMemory, ThreadId};
use ak_port::{
    CancelAnswer, FillAnswer, ReplyBook, ReplyEvent, cancel, fill, fill_none, open_ask,
    slots_are_settled_once, wait_for,
};
use ak_turn::{Book, Clock, Seat, TurnLock};
use std::alloc::Global;
use std::sync::{Arc, Wait};
use std::test::Fail;
use std::thread::{Threads, join, yield_now};

const MAIN: ThreadId = ThreadId::MAIN;

const OTHER: ThreadId = ThreadId::FIRST_LOOPER;

fn clock_of(thread: ThreadId) -> Clock
    ensures { result.thread ≡ thread }
{
    Clock { thread, time: 0 }
}

// A book, main's seat, and another thread's.
struct Scene {
    book: Arc<TurnLock<ReplyBook>>,
    seat: Seat<ReplyBook>,
    other: Seat<ReplyBook>,
    ghost of: { seat.lock ≡ arc_value book },
    ghost idle: { seat.turn ≡ false },
    ghost thread: { seat.thread ≡ 0 },
    ghost other_of: { other.lock ≡ arc_value book },
    ghost other_idle: { other.turn ≡ false },
    ghost other_thread: { other.thread ≡ looper_thread 0 },
}

fn make_scene(alloc: Global) -> Result<Scene, NoMemory> {
    let (book, mut seat) = TurnLock::new(alloc, ReplyBook::new(alloc)?, MAIN)?;
    let other = book.split(&mut seat, OTHER);
    Ok(Scene { book, seat, other })
}

// What came of two fills, the reply, and the book.
fn fill_then_wait<R: Wait>(
    rt: &R,
    alloc: Global,
    text: Bytes,
) -> Result<(FillAnswer, FillAnswer, Bytes, ReplyBook), NoMemory>
    requires { IsFlatText text }
{
    let Scene {
        book,
        mut seat,
        mut other,
    } = make_scene(alloc)?;
    let (mut clock, mut others) = (clock_of(MAIN), clock_of(OTHER));
    let n = open_ask(&book, rt, &mut seat, &mut clock)?;
    let first = fill(&book, rt, &mut other, &mut others, n, text);
    let second = fill_none(&book, rt, &mut other, &mut others, n);
    let reply = wait_for(&book, rt, &mut seat, &mut clock, n);
    Ok((first, second, reply, book.lock(rt, &mut seat).keep()))
}

// Whether slot 0 is filled with those bytes.
fn is_filled_with(event: &ReplyEvent, text: &[u8]) -> bool {
    match event {
        ReplyEvent::Filled(n, flat) => *n == 0 && flat.as_slice() == text,
        _ => false,
    }
}

// When the entry at that place was made, by whom, and whether slot 0 is filled with those bytes.
fn filled_at(book: &ReplyBook, place: u64, text: &[u8]) -> Result<(u64, ThreadId, bool), Fail> {
    let entry = book.entry(place)?.ok_or("an entry")?;
    Ok((entry.stamp, entry.by, is_filled_with(&entry.event, text)))
}

/// What came of two fills; whether the wait behind them gave the reply; how many entries the book has then, its last
/// stamp, and whether it has one more; and when the slot was filled, by whom, and whether with the reply.
type Waited = (
    [FillAnswer; 2],
    bool,
    (u64, u64, bool),
    (u64, ThreadId, bool),
);

fn fill_and_wait<R: Wait>(rt: &R, alloc: Global) -> Result<Waited, Fail> {
    let wanted = reply_text(alloc)?;
    let (first, second, reply, book) = fill_then_wait(rt, alloc, reply_text(alloc)?)?;
    Ok((
        [first, second],
        reply.as_slice() == wanted.as_slice(),
        (book.len(), book.last_stamp(), book.entry(3)?.is_some()),
        filled_at(&book, 1, wanted.as_slice())?,
    ))
}

const WAITED: Waited = (
    [FillAnswer::Filled, FillAnswer::Duplicate],
    true,
    (3, 3, false),
    (2, OTHER, true),
);

// What came of cancelling, of two fills after it, and how many entries there are.
fn cancel_then_fill<R: Wait>(
    rt: &R,
    alloc: Global,
) -> Result<(CancelAnswer, FillAnswer, FillAnswer, u64), NoMemory> {
    let text = reply_text(alloc)?;
    let Scene {
        book,
        mut seat,
        mut other,
    } = make_scene(alloc)?;
    let (mut clock, mut others) = (clock_of(MAIN), clock_of(OTHER));
    let n = open_ask(&book, rt, &mut seat, &mut clock)?;
    let cancelled = cancel(&book, rt, &mut seat, &mut clock, n);
    let first = fill(&book, rt, &mut other, &mut others, n, text);
    let second = fill_none(&book, rt, &mut other, &mut others, n);
    Ok((cancelled, first, second, other.seen()))
}

const CANCELLED: (CancelAnswer, FillAnswer, FillAnswer, u64) = (
    CancelAnswer::Cancelled,
    FillAnswer::Duplicate,
    FillAnswer::Duplicate,
    2,
);

// What came of a fill, and of cancelling after it.
fn fill_then_cancel<R: Wait>(
    rt: &R,
    alloc: Global,
) -> Result<(FillAnswer, CancelAnswer, u64), NoMemory> {
    let Scene {
        book,
        mut seat,
        mut other,
    } = make_scene(alloc)?;
    let (mut clock, mut others) = (clock_of(MAIN), clock_of(OTHER));
    let n = open_ask(&book, rt, &mut seat, &mut clock)?;
    let filled = fill_none(&book, rt, &mut other, &mut others, n);
    let cancelled = cancel(&book, rt, &mut seat, &mut clock, n);
    Ok((filled, cancelled, seat.seen()))
}

const NOT_CANCELLED: (FillAnswer, CancelAnswer, u64) = (
    FillAnswer::Filled,
    CancelAnswer::Duplicate,
    2,
);

#[test]
fn a_slot_is_filled_or_cancelled_once(rt: HostRuntime) -> Result<(), Fail> {
    let alloc = rt.alloc();
    slots_are_settled_once();
    same(
        &rt,
        "a slot is filled before the wait",
        fill_and_wait(&rt, alloc)?,
        WAITED,
    );
    same(
        &rt,
        "a cancelled slot is never filled",
        cancel_then_fill(&rt, alloc)?,
        CANCELLED,
    );
    same(
        &rt,
        "a filled slot is not cancelled",
        fill_then_cancel(&rt, alloc)?,
        NOT_CANCELLED,
    );
    Ok(())
}

// Fills the slot with no reply, some time later.
fn fill_later<R: Wait>(rt: &R, book: &TurnLock<ReplyBook>, mut seat: Seat<ReplyBook>)
    requires of { seat.lock ≡ book.now }
    requires idle { seat.turn ≡ false }
    requires thread { seat.thread ≡ looper_thread 0 }
{
    let mut clock = clock_of(OTHER);
    for _ in 0..1000 {
        yield_now();
    }
    let _ = fill_none(book, rt, &mut seat, &mut clock, 0);
}

// Opens a slot and waits for its reply, the opening some time later where it is late.
fn ask_late<R: Wait>(
    rt: &R,
    book: &TurnLock<ReplyBook>,
    mut seat: Seat<ReplyBook>,
    yields: u32,
) -> Result<usize, NoMemory>
    requires of { seat.lock ≡ book.now }
    requires idle { seat.turn ≡ false }
    requires thread { seat.thread ≡ 0 }
{
    let mut clock = clock_of(MAIN);
    for _ in 0..yields {
        yield_now();
    }
    let n = open_ask(book, rt, &mut seat, &mut clock)?;
    let reply = wait_for(book, rt, &mut seat, &mut clock, n);
    Ok(reply.len())
}

// How long the reply is that another thread fills a slot with. The opening is late, or the fill is.
fn ask_beside<R: Threads + Wait + Sync>(
    rt: &R,
    alloc: Global,
    yields: u32,
) -> Result<usize, NoMemory> {
    let Scene { book, seat, other } = make_scene(alloc)?;
    let shared: &TurnLock<ReplyBook> = &book;
    let (length, _) = join(
        rt,
        || -> Result<usize, NoMemory>
            requires { (seat.lock ≡ shared.now) × (seat.turn ≡ false) × (seat.thread ≡ 0) }
        { ask_late(rt, shared, seat, yields) },
        ||
            requires { (other.lock ≡ shared.now) × (other.turn ≡ false) × (other.thread ≡ looper_thread 0) }
        { fill_later(rt, shared, other) },
    );
    length
}

// The length of the flat text that stands for no reply.
const NONE_LENGTH: usize = 12;

#[test]
fn a_wait_ends_where_another_thread_fills(rt: HostRuntime) -> Result<(), Fail> {
    let alloc = rt.alloc();
    // The fill is late, and then the opening, for which the fill waits.
    let told = [ask_beside(&rt, alloc, 0)?, ask_beside(&rt, alloc, 5000)?];
    same(&rt, "how long", told, [NONE_LENGTH, NONE_LENGTH]);
    Ok(())
}
