//! The calls on a shared reply book. Each may wait for its turn, and makes at most one entry.
ghost use Rattle.std.specs.Prelude.{◌≡◌, ◌≤◌, false, length, None, Some, IfOk, IfErr, IfNone, IfSome, OnErr, IsSome, unwrap_or};
ghost use Rattle.ak_turn.specs.Seats.{KnowsWhole};
ghost use Rattle.ak_port.specs.Reply.{IsFlatText, FillsWith, none_text, open_stage, slots_after};
ghost use Rattle.ak_port.specs.ReplySeats.{maker_of, HasEnteredBook, HasLookedAtBook, HasFoundSettled, HasFoundFilled, IsItsSlot, MayCancel, MayTake};
ghost use Rattle.ak_turn.specs.Called.{KeepsSeat};

use crate::reply_book::ReplyBook;
use crate::reply_entry::{CancelAnswer, FillAnswer, ReplyEvent};
use crate::reply_kept::{OPENINGS, filling};
use ak_base::{Bytes, NoMemory};
use ak_turn::{Clock, Seat, TurnLock};
use std::sync::Wait;

/// Opens the next slot, and answers its number, counted from 0. It waits for its turn, and makes one entry. It
/// keeps the memory for all that may become of the slot; `NoMemory` makes no entry, and the clock stands. The
/// thread may cancel the slot then, or wait for what it is filled with.
pub fn open_ask<R: Wait>(
    book: &TurnLock<ReplyBook>,
    rt: &R,
    seat: &mut Seat<ReplyBook>,
    clock: &mut Clock,
) -> Result<u64, NoMemory>
    requires of { seat.old.lock ≡ book.now }
    requires idle { seat.old.turn ≡ false }
    requires thread { seat.old.thread ≡ clock.old.thread.0 }
    ensures seat { KeepsSeat seat.old seat.new }
    ensures clock { clock.new.thread ≡ clock.old.thread }
    ensures known { KnowsWhole maker_of seat.new }
    ensures opened { IfOk result (λ n. HasEnteredBook clock.old clock.new (ReplyEvent.Opened n) seat.old seat.new) }
    ensures take { IfOk result (λ n. MayTake seat.new.thread n seat.new.front) }
    ensures cancel { IfOk result (λ n. MayCancel seat.new.thread n seat.new.front) }
    ensures err { OnErr result (HasLookedAtBook clock.old clock.new seat.old seat.new) }
{
    let mut turn = book.lock(rt, seat);
    clock.ready(rt);
    let result = turn.book().open_slot(clock);
    turn.finish(seat);
    result
}

// One try to fill the slot, with the text or with the one for no reply. An `Err` gives the text back: the slot
// is not opened yet.
fn try_fill<R: Wait>(
    book: &TurnLock<ReplyBook>,
    rt: &R,
    seat: &mut Seat<ReplyBook>,
    clock: &mut Clock,
    n: u64,
    flat: Option<Bytes>,
) -> Result<FillAnswer, Option<Bytes>>
    requires of { seat.old.lock ≡ book.now }
    requires idle { seat.old.turn ≡ false }
    requires thread { seat.old.thread ≡ clock.old.thread.0 }
    requires text { IfSome flat IsFlatText }
    ensures seat { KeepsSeat seat.old seat.new }
    ensures clock { clock.new.thread ≡ clock.old.thread }
    ensures known { KnowsWhole maker_of seat.new }
    ensures filled { result ≡ Ok FillAnswer.Filled → HasEnteredBook clock.old clock.new (ReplyEvent.Filled n (unwrap_or flat none_text)) seat.old seat.new }
    ensures duplicate { result ≡ Ok FillAnswer.Duplicate → HasFoundSettled n clock.old clock.new seat.old seat.new }
    ensures unopened { IfErr result (λ text. text ≡ flat) }
    ensures early { OnErr result (length (slots_after seat.new.front) ≤ n) }
    ensures err { OnErr result (HasLookedAtBook clock.old clock.new seat.old seat.new) }
{
    let mut turn = book.lock(rt, seat);
    clock.ready(rt);
    let result = turn.book().fill(clock, n, flat);
    turn.finish(seat);
    result
}

// Tries until the slot is opened.
fn fill_in<R: Wait>(
    book: &TurnLock<ReplyBook>,
    rt: &R,
    seat: &mut Seat<ReplyBook>,
    clock: &mut Clock,
    n: u64,
    flat: Option<Bytes>,
) -> FillAnswer
    requires of { seat.old.lock ≡ book.now }
    requires idle { seat.old.turn ≡ false }
    requires thread { seat.old.thread ≡ clock.old.thread.0 }
    requires text { IfSome flat IsFlatText }
    ensures seat { KeepsSeat seat.old seat.new }
    ensures clock { clock.new.thread ≡ clock.old.thread }
    ensures known { KnowsWhole maker_of seat.new }
    ensures filled { result ≡ FillAnswer.Filled → HasEnteredBook clock.old clock.new (ReplyEvent.Filled n (unwrap_or flat none_text)) seat.old seat.new }
    ensures duplicate { result ≡ FillAnswer.Duplicate → HasFoundSettled n clock.old clock.new seat.old seat.new }
{
    let mut left = flat;
    for _ in rt.forever() {
        match try_fill(book, rt, seat, clock, n, left) {
            Ok(answer) => return answer,
            Err(text) => left = text,
        }
        book.wait_at_bell(rt, seat.seen(), OPENINGS);
    }
    unreachable!()
}

/// Fills the slot with those bytes, the flat text of the reply. It waits for its turn, and until the slot is
/// opened. `Duplicate`, without an entry, exactly where it is filled or cancelled then; else one entry. Takes
/// no memory.
pub fn fill<R: Wait>(
    book: &TurnLock<ReplyBook>,
    rt: &R,
    seat: &mut Seat<ReplyBook>,
    clock: &mut Clock,
    n: u64,
    flat: Bytes,
) -> FillAnswer
    requires of { seat.old.lock ≡ book.now }
    requires idle { seat.old.turn ≡ false }
    requires thread { seat.old.thread ≡ clock.old.thread.0 }
    requires text { IsFlatText flat }
    ensures seat { KeepsSeat seat.old seat.new }
    ensures clock { clock.new.thread ≡ clock.old.thread }
    ensures known { KnowsWhole maker_of seat.new }
    ensures filled { result ≡ FillAnswer.Filled → HasEnteredBook clock.old clock.new (ReplyEvent.Filled n flat) seat.old seat.new }
    ensures duplicate { result ≡ FillAnswer.Duplicate → HasFoundSettled n clock.old clock.new seat.old seat.new }
{
    fill_in(book, rt, seat, clock, n, Some(flat))
}

/// The same with the flat text that stands for no reply, of `NONE` without fields. Takes no memory.
pub fn fill_none<R: Wait>(
    book: &TurnLock<ReplyBook>,
    rt: &R,
    seat: &mut Seat<ReplyBook>,
    clock: &mut Clock,
    n: u64,
) -> FillAnswer
    requires of { seat.old.lock ≡ book.now }
    requires idle { seat.old.turn ≡ false }
    requires thread { seat.old.thread ≡ clock.old.thread.0 }
    ensures seat { KeepsSeat seat.old seat.new }
    ensures clock { clock.new.thread ≡ clock.old.thread }
    ensures known { KnowsWhole maker_of seat.new }
    ensures filled { result ≡ FillAnswer.Filled → HasEnteredBook clock.old clock.new (ReplyEvent.Filled n none_text) seat.old seat.new }
    ensures duplicate { result ≡ FillAnswer.Duplicate → HasFoundSettled n clock.old clock.new seat.old seat.new }
{
    fill_in(book, rt, seat, clock, n, None)
}

/// Cancels a slot that the thread opened and did not cancel. It waits for its turn. `Duplicate`, without an
/// entry, exactly where the slot was filled; else one entry. Takes no memory.
pub fn cancel<R: Wait>(
    book: &TurnLock<ReplyBook>,
    rt: &R,
    seat: &mut Seat<ReplyBook>,
    clock: &mut Clock,
    n: u64,
) -> CancelAnswer
    requires of { seat.old.lock ≡ book.now }
    requires idle { seat.old.turn ≡ false }
    requires thread { seat.old.thread ≡ clock.old.thread.0 }
    requires own { MayCancel seat.old.thread n seat.old.front }
    ensures seat { KeepsSeat seat.old seat.new }
    ensures clock { clock.new.thread ≡ clock.old.thread }
    ensures known { KnowsWhole maker_of seat.new }
    ensures cancelled { result ≡ CancelAnswer.Cancelled → HasEnteredBook clock.old clock.new (ReplyEvent.Cancelled n) seat.old seat.new }
    ensures duplicate { result ≡ CancelAnswer.Duplicate → HasFoundFilled n clock.old clock.new seat.old seat.new }
{
    let mut turn = book.lock(rt, seat);
    clock.ready(rt);
    let answer = turn.book().cancel(clock, n);
    turn.finish(seat);
    answer
}

// One try to take what the slot was filled with. `None` where it is still open.
fn try_take<R: Wait>(
    book: &TurnLock<ReplyBook>,
    rt: &R,
    seat: &mut Seat<ReplyBook>,
    clock: &mut Clock,
    n: u64,
) -> Option<Bytes>
    requires of { seat.old.lock ≡ book.now }
    requires idle { seat.old.turn ≡ false }
    requires thread { seat.old.thread ≡ clock.old.thread.0 }
    requires own { MayTake seat.old.thread n seat.old.front }
    ensures seat { KeepsSeat seat.old seat.new }
    ensures clock { clock.new.thread ≡ clock.old.thread }
    ensures known { KnowsWhole maker_of seat.new }
    ensures taken { IfSome result (λ _. HasEnteredBook clock.old clock.new (ReplyEvent.Taken n) seat.old seat.new) }
    ensures filled { IfSome result (λ flat. FillsWith n flat seat.new.front) }
    ensures text { IfSome result IsFlatText }
    ensures waits { IfNone result (HasLookedAtBook clock.old clock.new seat.old seat.new) }
    ensures open { IfNone result (IsItsSlot seat.new.thread n open_stage seat.new.front) }
    ensures still { IfNone result (MayTake seat.new.thread n seat.new.front) }
{
    let mut turn = book.lock(rt, seat);
    clock.ready(rt);
    let result = turn.book().take(clock, n);
    turn.finish(seat);
    result
}

/// Waits until a slot is filled that the thread opened and neither cancelled nor took, and takes the reply's
/// flat text. The bytes are those that the slot was filled with. The taking is one entry. Takes no memory.
pub fn wait_for<R: Wait>(
    book: &TurnLock<ReplyBook>,
    rt: &R,
    seat: &mut Seat<ReplyBook>,
    clock: &mut Clock,
    n: u64,
) -> Bytes
    requires of { seat.old.lock ≡ book.now }
    requires idle { seat.old.turn ≡ false }
    requires thread { seat.old.thread ≡ clock.old.thread.0 }
    requires own { MayTake seat.old.thread n seat.old.front }
    ensures seat { KeepsSeat seat.old seat.new }
    ensures clock { clock.new.thread ≡ clock.old.thread }
    ensures known { KnowsWhole maker_of seat.new }
    ensures taken { HasEnteredBook clock.old clock.new (ReplyEvent.Taken n) seat.old seat.new }
    ensures filled { FillsWith n result seat.new.front }
    ensures text { IsFlatText result }
{
    for _ in rt.forever() {
        if let Some(flat) = try_take(book, rt, seat, clock, n) {
            return flat;
        }
        book.wait_at_bell(rt, seat.seen(), filling(n));
    }
    unreachable!()
}
