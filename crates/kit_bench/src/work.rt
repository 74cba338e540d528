//! The threads that send, so that a write and an ask can be timed.

use crate::fault::BenchFault;
use crate::hands::Hands;
use ak_base::{Bytes, NoMemory};
use ak_flatten::{Duty, Item};
use ak_port::{CloseAnswer, WriteAnswer, close, open_ask, wait_for, write};
use std::alloc::Global;
use std::sync::Wait;
use std::thread::{Threads, map_vec};

/// The workers send so many items each, in threads of their own; then the port is shut. Answers how many were sent.
pub fn work_all<R: Threads + Wait + Sync>(
    rt: &R,
    alloc: Global,
    workers: Vec<Hands>,
    mut closer: Hands,
    asks: bool,
    each: u32,
) -> Result<u64, BenchFault> {
    let done = map_vec(
        rt,
        workers,
        &|hands: Hands| -> Result<u64, NoMemory> { work(rt, alloc, hands, asks, each) },
    );
    let _ = shut(rt, &mut closer);
    let mut count = 0u64;
    for sent in done? {
        count = count.wrapping_add(sent?);
    }
    Ok(count)
}

/// Sends so many items, and waits for the reply to each where it asks. Answers how many that were.
fn work<R: Wait>(
    rt: &R,
    alloc: Global,
    mut hands: Hands,
    asks: bool,
    each: u32,
) -> Result<u64, NoMemory> {
    for _ in 0..each {
        let item = hands.item.try_clone(alloc)?;
        if asks {
            let _ = ask(rt, &mut hands, item)?;
        } else {
            write_one(rt, &mut hands, item)?;
        }
    }
    Ok(u64::from(each))
}

/// Writes the item once there is room.
fn write_one<R: Wait>(rt: &R, hands: &mut Hands, item: Item) -> Result<(), NoMemory> {
    match write(&hands.port, rt, &mut hands.at_port, &mut hands.clock, item) {
        WriteAnswer::Wrote(_) => Ok(()),
        _ => Err(NoMemory),
    }
}

/// One round trip: opens a slot, writes the item with the duty to fill it, and waits for the reply.
fn ask<R: Wait>(rt: &R, hands: &mut Hands, item: Item) -> Result<Bytes, NoMemory> {
    let slot = open_ask(&hands.book, rt, &mut hands.at_book, &mut hands.clock)?;
    let owed = item.with_duty(Duty::Slot(slot));
    match write(&hands.port, rt, &mut hands.at_port, &mut hands.clock, owed) {
        WriteAnswer::Wrote(_) => Ok(wait_for(
            &hands.book,
            rt,
            &mut hands.at_book,
            &mut hands.clock,
            slot,
        )),
        _ => Err(NoMemory),
    }
}

/// Shuts the port.
fn shut<R: Wait>(rt: &R, hands: &mut Hands) -> CloseAnswer {
    close(&hands.port, rt, &mut hands.at_port, &mut hands.clock)
}
