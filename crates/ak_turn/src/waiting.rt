//! How a thread waits: nobody burns a processor. That a wait ends, or when, is said by no clause.
ghost use Rattle.std.specs.Prelude.{◌<◌, ◌≢◌};
ghost use Rattle.ak_turn.specs.Steps.{IsWide};

use crate::bells::{Bell, Bells, Watchers};
use crate::book::Book;
use crate::plays::Common;
use crate::steps::{COUNT, SERVING, TICKET};
use std::hint::spin_loop;
use std::sync::Wait;
use std::sync::atomic::AtomicU64;
use std::sync::atomic::Ordering::SeqCst;
use std::thread::yield_now;

/// How often a thread looks again at once.
const LOOKS: u32 = 20;

/// How often a thread with a ticket then lets others run, before it parks.
const YIELDS: u32 = 2;

/// How often a thread without a ticket parks, before it draws one all the same.
const NAPS: u32 = 8;

// The part of a word that a thread can park on.
fn low(number: u64) -> u32 {
    (number & 0xFFFF_FFFF) as u32
}

// Whether nobody has a ticket, as far as two looks can tell.
fn is_free<B: Book>(common: &Common<B>) -> bool
    requires { IsWide common.now.table_id }
{
    common.peek(TICKET) == common.peek(SERVING)
}

// Looks for a short while whether nobody has a ticket, and answers whether that was seen.
fn becomes_free<B: Book>(common: &Common<B>) -> bool
    requires { IsWide common.now.table_id }
{
    for _ in 0..LOOKS {
        if is_free(common) {
            return true;
        }
        spin_loop();
    }
    false
}

// Waits a while, until nobody has a ticket. A thread that a nap has ended says again that threads may sleep, so that
// its own turn ends the nap of the next one.
#[cold]
#[inline(never)]
fn await_free<B: Book, R: Wait>(rt: &R, common: &Common<B>, sleepers: &AtomicU64)
    requires { IsWide common.now.table_id }
{
    if becomes_free(common) {
        return;
    }
    for _ in 0..NAPS {
        sleepers.store(1, SeqCst);
        if is_free(common) {
            return;
        }
        sleepers.park(rt, 1);
    }
    sleepers.store(1, SeqCst);
}

// Waits a while before a ticket is drawn, where others have one. Whoever draws a ticket while others have the turn
// must run before anybody else can have it, so threads that ask again and again would change places for each turn.
// Here a thread sleeps instead, and the others go on. After so many naps it draws its ticket all the same, and none
// that is drawn later comes before it.
pub(crate) fn rest_before_ticket<B: Book, R: Wait>(rt: &R, common: &Common<B>, sleepers: &AtomicU64)
    requires { IsWide common.now.table_id }
{
    if !is_free(common) {
        await_free(rt, common, sleepers);
    }
}

// Waits for a while, or until another number is served.
#[cold]
#[inline(never)]
pub(crate) fn rest_for_turn<B: Book, R: Wait>(rt: &R, common: &Common<B>, serving: u64, tries: u32)
    requires { IsWide common.now.table_id }
{
    if tries < LOOKS {
        spin_loop();
    } else if tries < LOOKS + YIELDS {
        yield_now();
    } else {
        common.park(rt, SERVING, low(serving));
    }
}

// Wakes one of those who sleep without a ticket, if one may.
#[cold]
#[inline(never)]
fn end_nap(sleepers: &AtomicU64) {
    if sleepers.swap(0, SeqCst) != 0 {
        sleepers.wake_one();
    }
}

// Wakes those who sleep with a ticket.
#[cold]
#[inline(never)]
fn wake_sleepers<B: Book>(common: &Common<B>)
    requires { IsWide common.now.table_id }
{
    common.wake_all(SERVING);
}

// Wakes those who wait for their turn, once the number was served, and, after a new entry, those who wait at the
// bells that it rings. Whoever drew a ticket before the turn was passed on is seen in the count of tickets, and
// whoever draws one later finds the next number; where nobody has one, one of those who sleep without a ticket is
// woken. Where nobody has waited, nobody is woken.
pub(crate) fn wake<B: Book>(
    common: &Common<B>,
    watchers: &Watchers,
    sleepers: &AtomicU64,
    served: u64,
    entered: Option<Bells>,
)
    requires { IsWide common.now.table_id }
{
    if common.peek(TICKET) != served.wrapping_add(1) {
        wake_sleepers(common);
    } else if sleepers.load(SeqCst) != 0 {
        end_nap(sleepers);
    }
    if let Some(bells) = entered
        && watchers.all.load(SeqCst) != 0
    {
        watchers.ring(bells);
    }
}

// Looks at the count of entries, and parks at the bell, as long as it is that number. Answers the other one that was
// found.
fn count_past<B: Book, R: Wait>(rt: &R, common: &Common<B>, bell: &Bell, seen: u64) -> u64
    requires { IsWide common.now.table_id }
    ensures { result ≢ seen }
{
    for _ in rt.forever() {
        let rung = bell.rung.load(SeqCst);
        let count = common.peek(COUNT);
        if count != seen {
            return count;
        }
        bell.rung.park(rt, low(rung));
    }
    unreachable!()
}

// Waits at the bell while the count of entries is that number, and answers the other one that was found. Whoever
// waits is counted.
//
// No wake-up is lost. A waiter is counted, then reads the bell, then looks at the count of entries. Whoever makes an
// entry moves that count, then looks whether anybody is counted, then moves the bell's word, then wakes. All these are
// in one order. So where the waiter does not find the entry, it was counted before, is seen, and had read the bell's
// word before that was moved: it does not park on the old word any more, or it sleeps already and is woken. Only an
// entry that does not ring the bell leaves it asleep, so a book's entries ring the bell of each waiter whom they let go
// on. Who is woken for another's sake finds another count and returns; it waits again with that count.
pub(crate) fn rest_for_entry<B: Book, R: Wait>(
    rt: &R,
    common: &Common<B>,
    watchers: &Watchers,
    bell: &Bell,
    seen: u64,
) -> u64
    requires { IsWide common.now.table_id }
    ensures { result ≢ seen }
{
    watchers.all.fetch_add(1, SeqCst);
    bell.waiting.fetch_add(1, SeqCst);
    let count = count_past(rt, common, bell, seen);
    bell.waiting.fetch_sub(1, SeqCst);
    watchers.all.fetch_sub(1, SeqCst);
    count
}

/// Never returns. Takes no memory.
#[cold]
#[inline(never)]
pub fn rest_for_ever<R: Wait>(rt: &R)
    ensures { ⊥ }
{
    let word = AtomicU64::new(0);
    for _ in rt.forever() {
        word.park(rt, 0);
    }
    unreachable!()
}
