//! A tally that threads share, as a layer above a lock is written.
ghost use Rattle.std.specs.Prelude.{◌≡◌, ◌≤◌, length, false, OnErr, IfOk};
ghost use Rattle.ak_turn.specs.Seats.{HasCalled, HasSeen, KnowsWhole};

use super::tally::{Count, Tally};
use ak_base::NoMemory;
use ak_turn::{Book, Clock, Seat, TurnLock};
use std::sync::Wait;

/// Adds an entry with that number, by the seat's thread, and answers it.
pub fn add_to(
    rt: &impl Wait,
    lock: &TurnLock<Tally>,
    seat: &mut Seat<Tally>,
    clock: &mut Clock,
    number: u64,
) -> Result<Count, NoMemory>
    requires of { seat.old.lock ≡ lock.now }
    requires idle { seat.old.turn ≡ false }
    requires thread { seat.old.thread ≡ clock.old.thread.0 }
    ensures clock { clock.new.thread ≡ clock.old.thread }
    ensures called { IfOk result (λ count. HasCalled (λ c. c.by.0) count seat.old seat.new) }
    ensures number { IfOk result (λ count. count.number ≡ number) }
    ensures err { OnErr result (HasSeen (λ c. c.by.0) seat.old seat.new) }
    ensures known { KnowsWhole (λ c. c.by.0) seat.new }
{
    let mut turn = lock.lock(rt, seat);
    clock.ready(rt);
    let count = Count {
        stamp: clock.stamp(turn.book().last_stamp()),
        by: clock.thread,
        number,
    };
    let result = turn.book().add(count);
    turn.finish(seat);
    result?;
    Ok(count)
}

/// How many entries there are now.
pub fn look(rt: &impl Wait, lock: &TurnLock<Tally>, seat: &mut Seat<Tally>) -> u64
    requires of { seat.old.lock ≡ lock.now }
    requires idle { seat.old.turn ≡ false }
    ensures seen { HasSeen (λ c. c.by.0) seat.old seat.new }
    ensures known { KnowsWhole (λ c. c.by.0) seat.new }
    ensures length { result ≡ length seat.new.front }
{
    lock.lock(rt, seat).finish(seat);
    seat.seen()
}

/// Waits until there are so many entries.
#[tactic(auto, using(crate::proofs::Calls::seeing))]
pub fn await_count(rt: &impl Wait, lock: &TurnLock<Tally>, seat: &mut Seat<Tally>, least: u64)
    requires of { seat.old.lock ≡ lock.now }
    requires idle { seat.old.turn ≡ false }
    ensures seen { HasSeen (λ c. c.by.0) seat.old seat.new }
    ensures enough { least ≤ length seat.new.front }
{
    let mut count = look(rt, lock, seat);
    for _ in rt.forever() {
        if count >= least {
            return;
        }
        lock.wait_past(rt, count);
        count = look(rt, lock, seat);
    }
    unreachable!()
}
