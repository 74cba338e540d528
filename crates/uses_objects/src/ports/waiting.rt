//! A write that waits for room is let in by a take and by a closing; a take waits for a write.
ghost use Rattle.std.specs.Prelude.{◌≡◌, false};
ghost use Rattle.ak_port.specs.PortCalls.{CanTake};

use super::calls::{Said, item, put, said_by, take_one};
use crate::compare::same;
use ak_base::{NoMemory, ThreadId};
use ak_flatten::FlattenFault;
use ak_port::{CloseAnswer, Port, PortBook, TakeAnswer, close, make, write};
use ak_turn::{Clock, Seat};
use std::alloc::Global;
use std::sync::Wait;
use std::test::Fail;
use std::thread::{Threads, join, yield_now};

const MAIN: ThreadId = ThreadId::MAIN;

// Writes an item with the code 2 once there is room.
fn write_waiting<R: Wait>(
    rt: &R,
    alloc: Global,
    port: &Port,
    mut seat: Seat<PortBook>,
) -> Result<Said, FlattenFault>
    requires of { seat.lock ≡ port.now }
    requires idle { seat.turn ≡ false }
    requires thread { seat.thread ≡ 1 }
{
    let mut clock = Clock {
        thread: ThreadId(1),
        time: 0,
    };
    let item = item(alloc, 2)?;
    Ok(said_by(write(port, rt, &mut seat, &mut clock, item)))
}

// What main's closing answers, or its take.
type Met = (Option<CloseAnswer>, Option<(TakeAnswer, u64, u32)>);

// Lets the other thread run for a while, where it has to wait for room, and then closes the port or takes.
fn let_in<R: Wait>(
    rt: &R,
    alloc: Global,
    port: &Port,
    mut seat: Seat<PortBook>,
    is_full: bool,
    closes: bool,
) -> Result<Met, NoMemory>
    requires of { seat.lock ≡ port.now }
    requires idle { seat.turn ≡ false }
    requires thread { seat.thread ≡ 0 }
    requires taking { CanTake MAIN 1 seat }
{
    let mut clock = Clock {
        thread: MAIN,
        time: 0,
    };
    for _ in 0..if is_full { 1000 } else { 0 } {
        yield_now();
    }
    if closes {
        return Ok((Some(close(port, rt, &mut seat, &mut clock)), None));
    }
    let taken = take_one(rt, alloc, port, &mut seat, &mut clock)?;
    Ok((None, Some(taken)))
}

// Writes an item with the code 1 where the port is to be full.
fn fill_up<R: Wait>(
    rt: &R,
    alloc: Global,
    port: &Port,
    seat: &mut Seat<PortBook>,
    clock: &mut Clock,
    is_full: bool,
) -> Result<(), FlattenFault>
    requires of { seat.old.lock ≡ port.now }
    requires idle { seat.old.turn ≡ false }
    requires thread { seat.old.thread ≡ clock.old.thread.0 }
    ensures of { seat.new.lock ≡ port.now }
    ensures idle { seat.new.turn ≡ false }
    ensures thread { seat.new.thread ≡ seat.old.thread }
    ensures names { seat.new.names ≡ seat.old.names }
    ensures taking { CanTake MAIN 1 seat.old → CanTake MAIN 1 seat.new }
{
    if !is_full {
        return Ok(());
    }
    put(rt, alloc, port, seat, clock, 1)?;
    Ok(())
}

// What main meets, and what is answered to another thread that writes meanwhile to a port with room for one item.
fn write_beside<R: Threads + Wait + Sync>(
    rt: &R,
    alloc: Global,
    is_full: bool,
    closes: bool,
) -> Result<(Met, Said), Fail> {
    let mut clock = Clock {
        thread: MAIN,
        time: 0,
    };
    let (shared, mut seat) = make(alloc, 1, 3, MAIN, &mut clock)?;
    let port: &Port = &shared;
    fill_up(rt, alloc, port, &mut seat, &mut clock, is_full)?;
    let guest = port.split(&mut seat, ThreadId(1));
    let (met, said) = join(
        rt,
        || -> Result<Met, NoMemory>
            requires { (seat.lock ≡ port.now) × (seat.turn ≡ false) × (seat.thread ≡ 0) × CanTake MAIN 1 seat }
        { let_in(rt, alloc, port, seat, is_full, closes) },
        || -> Result<Said, FlattenFault>
            requires { (guest.lock ≡ port.now) × (guest.turn ≡ false) × (guest.thread ≡ 1) }
        { write_waiting(rt, alloc, port, guest) },
    );
    Ok((met?, said?))
}

#[test]
fn a_writer_waits_for_room_and_a_taker_for_an_item(rt: HostRuntime) -> Result<(), Fail> {
    let alloc = rt.alloc();
    let taken = (None, Some((TakeAnswer::Took(1), 0, 1)));
    let told = write_beside(&rt, alloc, true, false)?;
    same(
        &rt,
        "a take lets a writer in",
        told,
        (taken, Said::Wrote(1)),
    );
    let shut = (Some(CloseAnswer::Shut), None);
    let told = write_beside(&rt, alloc, true, true)?;
    same(
        &rt,
        "a closing lets a writer in",
        told,
        (shut, Said::Closed),
    );
    let awaited = (None, Some((TakeAnswer::Took(1), 0, 2)));
    let told = write_beside(&rt, alloc, false, false)?;
    same(
        &rt,
        "a take waits for a write",
        told,
        (awaited, Said::Wrote(0)),
    );
    Ok(())
}
