//! The thread that takes, so that a take and an answer can be timed.
ghost use Rattle.std.specs.Prelude.{◌≡◌, ◌≤◌, [], IfOk};
ghost use Rattle.std.specs.VecDeque.{deque_capacity};
ghost use Rattle.ak_port.specs.PortCalls.{CanTake, IfTook};
ghost use Rattle.ak_port.specs.Reply.{IsFlatText};

use crate::hands::Hands;
use ak_base::{Bytes, NoMemory};
use ak_flatten::{Duty, Item, Taken};
use ak_port::{FillAnswer, TakeAnswer, fill, fill_none, take};
use std::alloc::Global;
use std::collections::VecDeque;
use std::sync::Wait;

/// Takes until the port is shut, all that is pending at a time, and answers whoever asks. Answers how many items
/// were taken.
#[tactic(auto, using(crate::proofs::Taking::can_stay))]
pub fn take_all<R: Wait>(
    rt: &R,
    alloc: Global,
    mut taker: Hands,
    room: VecDeque<Taken>,
    most: u32,
) -> u64
    requires taking { CanTake taker.clock.thread most taker.at_port }
    requires most { 1 ≤ most }
    requires room { deque_capacity room ≡ most }
    requires empty { room.items ≡ [] }
{
    let mut taken = room;
    let mut count = 0u64;
    for _ in rt.forever() {
        let answer = take_next(rt, &mut taker, &mut taken, most);
        count = count.wrapping_add(taken.len() as u64);
        answer_each(rt, alloc, &mut taker, &mut taken);
        if let TakeAnswer::Rest(_) = answer {
            return count;
        }
    }
    unreachable!()
}

/// One take, into empty room.
#[tactic(auto, using(crate::proofs::Taking::took_again))]
fn take_next<R: Wait>(
    rt: &R,
    taker: &mut Hands,
    taken: &mut VecDeque<Taken>,
    most: u32,
) -> TakeAnswer
    requires taking { CanTake taker.old.clock.thread most taker.old.at_port }
    requires most { 1 ≤ most }
    requires room { deque_capacity taken.old ≡ most }
    requires empty { taken.old.items ≡ [] }
    ensures taking { IfTook result (λ _. CanTake taker.new.clock.thread most taker.new.at_port) }
    ensures room { deque_capacity taken.new ≡ most }
{
    take(
        &taker.port,
        rt,
        &mut taker.at_port,
        &mut taker.clock,
        taken,
        most,
    )
}

/// Answers what was taken, and lets it go.
fn answer_each<R: Wait>(rt: &R, alloc: Global, taker: &mut Hands, taken: &mut VecDeque<Taken>)
    ensures port { taker.new.at_port ≡ taker.old.at_port }
    ensures clock { taker.new.clock.thread ≡ taker.old.clock.thread }
    ensures empty { taken.new.items ≡ [] }
    ensures room { deque_capacity taken.new ≡ deque_capacity taken.old }
{
    while let Some(next) = taken.pop_front() {
        if let Duty::Slot(slot) = next.item.duty() {
            let _ = answer(rt, alloc, taker, slot);
        }
    }
}

/// Fills the slot with the taker's item, or with none where there is no memory for it.
fn answer<R: Wait>(rt: &R, alloc: Global, taker: &mut Hands, slot: u64) -> FillAnswer
    ensures port { taker.new.at_port ≡ taker.old.at_port }
    ensures clock { taker.new.clock.thread ≡ taker.old.clock.thread }
{
    match text_of(alloc, &taker.item) {
        Ok(text) => fill(
            &taker.book,
            rt,
            &mut taker.at_book,
            &mut taker.clock,
            slot,
            text,
        ),
        Err(_) => fill_none(&taker.book, rt, &mut taker.at_book, &mut taker.clock, slot),
    }
}

/// A copy of the item's flat text.
fn text_of(alloc: Global, item: &Item) -> Result<Bytes, NoMemory>
    ensures flat { IfOk result IsFlatText }
{
    let flat = item.flat();
    let mut text = Bytes::with_capacity(alloc, flat.len())?;
    text.extend(flat)?;
    Ok(text)
}
