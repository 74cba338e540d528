//! The calls of a port with plain answers.
ghost use Rattle.std.specs.Prelude.{◌≡◌, ℕ, false, OnOk};
ghost use Rattle.ak_base.specs.declared.thread.ThreadId.{ThreadId};
ghost use Rattle.ak_port.specs.PortCalls.{CanTake};
ghost use Rattle.ak_turn.specs.Called.{KeepsSeat};

use ak_base::{Code, NoMemory};
use ak_flatten::{Duty, FlattenFault, Item, Taken};
use ak_message::{Message, Target};
use ak_port::{Port, PortBook, TakeAnswer, WriteAnswer, take, write, write_at_turn};
use ak_turn::{Clock, Seat};
use std::alloc::Global;
use std::collections::VecDeque;
use std::sync::Wait;
use std::test::Fail;

/// An item whose message has that code.
pub fn item(alloc: Global, code: u32) -> Result<Item, FlattenFault> {
    Item::new(
        alloc,
        Target::Preferred,
        0,
        false,
        Duty::None,
        &Message::new(alloc, Code(code)),
    )
}

// The position and the code of an item that was taken.
fn told(alloc: Global, taken: &Taken) -> Result<(u64, u32), NoMemory> {
    Ok((taken.position, taken.item.message(alloc)?.what().0))
}

/// A write's answer without the item.
#[derive(Clone, Copy, Debug, PartialEq, Eq)]
pub enum Said {
    Wrote(u64),
    Closed,
    Spent,
    Full,
    NoMemory,
}

pub fn said_by(answer: WriteAnswer) -> Said {
    match answer {
        WriteAnswer::Wrote(position) => Said::Wrote(position),
        WriteAnswer::Closed(_) => Said::Closed,
        WriteAnswer::Spent(_) => Said::Spent,
        WriteAnswer::Full(_) => Said::Full,
        WriteAnswer::NoMemory(_) => Said::NoMemory,
    }
}

/// Writes an item with that code, without waiting for room: in a turn that is taken first.
pub fn put<R: Wait>(
    rt: &R,
    alloc: Global,
    port: &Port,
    seat: &mut Seat<PortBook>,
    clock: &mut Clock,
    code: u32,
) -> Result<Said, FlattenFault>
    requires of { seat.old.lock ≡ port.now }
    requires idle { seat.old.turn ≡ false }
    requires thread { seat.old.thread ≡ clock.old.thread.0 }
    ensures seat { KeepsSeat seat.old seat.new }
    ensures clock { clock.new.thread ≡ clock.old.thread }
    ensures taking { (thread : ThreadId) (room : ℕ) → CanTake thread room seat.old → CanTake thread room seat.new }
{
    let item = item(alloc, code)?;
    let turn = port.lock(rt, seat);
    clock.ready(rt);
    Ok(said_by(write_at_turn(turn, seat, clock, item)))
}

/// The same, once there is room.
pub fn put_once_free<R: Wait>(
    rt: &R,
    alloc: Global,
    port: &Port,
    seat: &mut Seat<PortBook>,
    clock: &mut Clock,
    code: u32,
) -> Result<Said, FlattenFault>
    requires of { seat.old.lock ≡ port.now }
    requires idle { seat.old.turn ≡ false }
    requires thread { seat.old.thread ≡ clock.old.thread.0 }
    ensures seat { KeepsSeat seat.old seat.new }
    ensures clock { clock.new.thread ≡ clock.old.thread }
{
    let item = item(alloc, code)?;
    Ok(said_by(write(port, rt, seat, clock, item)))
}

/// Takes one item: what it answered, and the item's position and code.
pub fn take_one<R: Wait>(
    rt: &R,
    alloc: Global,
    port: &Port,
    seat: &mut Seat<PortBook>,
    clock: &mut Clock,
) -> Result<(TakeAnswer, u64, u32), NoMemory>
    requires of { seat.old.lock ≡ port.now }
    requires idle { seat.old.turn ≡ false }
    requires thread { seat.old.thread ≡ clock.old.thread.0 }
    requires taking { CanTake clock.old.thread 1 seat.old }
    ensures seat { KeepsSeat seat.old seat.new }
    ensures clock { clock.new.thread ≡ clock.old.thread }
{
    let mut out = VecDeque::with_capacity(alloc, 1)?;
    let answer = take(port, rt, seat, clock, &mut out, 1);
    match out.pop_front() {
        None => Ok((answer, 0, 0)),
        Some(taken) => {
            let (position, code) = told(alloc, &taken)?;
            Ok((answer, position, code))
        }
    }
}

/// Takes one item of a port that is not shut: how many it took, and the item's position and code. It can take again.
pub fn take_first<R: Wait>(
    rt: &R,
    alloc: Global,
    port: &Port,
    seat: &mut Seat<PortBook>,
    clock: &mut Clock,
) -> Result<(u32, u64, u32), Fail>
    requires of { seat.old.lock ≡ port.now }
    requires idle { seat.old.turn ≡ false }
    requires thread { seat.old.thread ≡ clock.old.thread.0 }
    requires taking { CanTake clock.old.thread 1 seat.old }
    ensures seat { KeepsSeat seat.old seat.new }
    ensures clock { clock.new.thread ≡ clock.old.thread }
    ensures taking { OnOk result (CanTake clock.old.thread 1 seat.new) }
{
    let mut out = VecDeque::with_capacity(alloc, 1)?;
    let answer = take(port, rt, seat, clock, &mut out, 1);
    match answer {
        TakeAnswer::Took(count) => {
            let taken = out.pop_front().ok_or("an item")?;
            let (position, code) = told(alloc, &taken)?;
            Ok((count, position, code))
        }
        TakeAnswer::Rest(_) => Err(Fail::new("the port is shut")),
    }
}
