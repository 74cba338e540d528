//! A taker that takes until its port is shut, and then the rest: from what the calls say.
ghost use Rattle.std.specs.Prelude.{◌≡◌, ◌≤◌, ◌<◌, ◌^◌, false, true, Some, IfOk};
ghost use Rattle.ak_port.specs.PortCalls.{CanTake};
ghost use Rattle.ak_port.specs.PortMachine.{state_of, taken_items, written_in, IsRested};
ghost use Rattle.ak_port.specs.PortWriters.{StartsToTake};

use super::calls::put;
use crate::compare::same;
use ak_base::{NoMemory, ThreadId};
use ak_flatten::Taken;
use ak_port::{Port, PortBook, TakeAnswer, close, make, nothing_comes_after_the_rest, take};
use ak_turn::{Clock, Seat};
use std::alloc::Global;
use std::collections::VecDeque;
use std::sync::Wait;
use std::test::Fail;

// Takes once more, two items at most, and answers whether it was the rest.
fn take_on<R: Wait>(
    rt: &R,
    port: &Port,
    seat: &mut Seat<PortBook>,
    clock: &mut Clock,
    taken: &mut VecDeque<Taken>,
    capacity: u32,
) -> Result<bool, NoMemory>
    requires of { seat.old.lock ≡ port.now }
    requires idle { seat.old.turn ≡ false }
    requires thread { seat.old.thread ≡ clock.old.thread.0 }
    requires taking { CanTake clock.old.thread capacity seat.old }
    requires so_far { taken.old.items ≡ taken_items (state_of seat.old.front) }
    ensures of { seat.new.lock ≡ port.now }
    ensures idle { seat.new.turn ≡ false }
    ensures thread { seat.new.thread ≡ seat.old.thread }
    ensures opening { seat.new.opening ≡ seat.old.opening }
    ensures clock { clock.new.thread ≡ clock.old.thread }
    ensures so_far { IfOk result (λ _. taken.new.items ≡ taken_items (state_of seat.new.front)) }
    ensures taking { IfOk result (λ last. last ≡ false → CanTake clock.old.thread capacity seat.new) }
    ensures rest { IfOk result (λ last. last ≡ true → IsRested seat.new.front) }
{
    taken.reserve(capacity as usize)?;
    match take(port, rt, seat, clock, taken, 2) {
        TakeAnswer::Took(_) => Ok(false),
        TakeAnswer::Rest(_) => Ok(true),
    }
}

// Takes until the port is shut, and then the rest. All that was ever written is taken then, as the seat knows.
fn take_to_the_end<R: Wait>(
    rt: &R,
    alloc: Global,
    port: &Port,
    seat: &mut Seat<PortBook>,
    clock: &mut Clock,
    capacity: u32,
) -> Result<VecDeque<Taken>, NoMemory>
    requires starts { StartsToTake port.now clock.old.thread capacity seat.old }
    ensures of { IfOk result (λ _. seat.new.lock ≡ port.now) }
    ensures idle { IfOk result (λ _. seat.new.turn ≡ false) }
    ensures opening { IfOk result (λ _. seat.new.opening ≡ seat.old.opening) }
    ensures taken { IfOk result (λ taken. taken.items ≡ taken_items (state_of seat.new.front)) }
    ensures rest { IfOk result (λ _. IsRested seat.new.front) }
{
    let mut taken = VecDeque::new(alloc);
    for _ in rt.forever() {
        if take_on(rt, port, seat, clock, &mut taken, capacity)? {
            return Ok(taken);
        }
    }
    unreachable!()
}

/// Takes until the port is shut, and then the rest; and gives out the port's book, at whatever turn it is had. What
/// was taken is all that the port ever accepted, in order.
pub fn take_all_there_is<R: Wait>(
    rt: &R,
    alloc: Global,
    port: &Port,
    mut seat: Seat<PortBook>,
    mut clock: Clock,
    capacity: u32,
) -> Result<(VecDeque<Taken>, PortBook), NoMemory>
    requires { StartsToTake port.now clock.thread capacity seat }
    ensures { IfOk result (λ told. written_in told.1.entries ≡ told.0.items) }
{
    let taken = take_to_the_end(rt, alloc, port, &mut seat, &mut clock, capacity)?;
    nothing_comes_after_the_rest();
    let book = port.lock(rt, &mut seat).keep();
    // Reading the taker shows that the list is a port's.
    let _taker = book.taker();
    Ok((taken, book))
}

// The positions of what is taken of a port of capacity 3 to which three items were written before it was shut.
fn positions<R: Wait>(rt: &R, alloc: Global) -> Result<[Option<u64>; 4], Fail> {
    let mut clock = Clock {
        thread: ThreadId(0),
        time: 0,
    };
    let (shared, mut seat) = make(alloc, 3, 5, ThreadId(0), &mut clock)?;
    let port: &Port = &shared;
    let mut writer = port.split(&mut seat, ThreadId(1));
    let mut other = Clock {
        thread: ThreadId(1),
        time: 0,
    };
    put(rt, alloc, port, &mut writer, &mut other, 1)?;
    put(rt, alloc, port, &mut writer, &mut other, 2)?;
    put(rt, alloc, port, &mut writer, &mut other, 3)?;
    close(port, rt, &mut writer, &mut other);
    let (mut taken, _book) = take_all_there_is(rt, alloc, port, seat, clock, 3)?;
    Ok([
        position_of(&mut taken),
        position_of(&mut taken),
        position_of(&mut taken),
        position_of(&mut taken),
    ])
}

// The position of the next item.
fn position_of(taken: &mut VecDeque<Taken>) -> Option<u64> {
    let next = taken.pop_front()?;
    Some(next.position)
}

#[test]
fn a_taker_has_all_in_the_end(rt: HostRuntime) -> Result<(), Fail> {
    let wanted = [Some(0), Some(1), Some(2), None];
    same(&rt, "positions", positions(&rt, rt.alloc())?, wanted);
    Ok(())
}
