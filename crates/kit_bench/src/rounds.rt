//! Threads that send items to a port while one takes and answers them.
ghost use Rattle.std.specs.Prelude.{◌≡◌, ◌≤◌, []};
ghost use Rattle.std.specs.VecDeque.{deque_capacity};
ghost use Rattle.ak_base.specs.Limits.{capacity_limit};
ghost use Rattle.ak_port.specs.PortCalls.{CanTake};

use crate::fault::BenchFault;
use crate::hands::{Hands, new_taker, split_all};
use crate::taker::take_all;
use crate::work::work_all;
use ak_port::LIFE_LIMIT;
use std::alloc::Global;
use std::collections::VecDeque;
use std::sync::Wait;
use std::thread::{Threads, join};

/// How many items a port holds at a time, how many threads send to it, and whether they ask, and wait for each reply.
#[derive(Clone, Copy)]
pub struct Sending {
    pub capacity: u32,
    pub workers: u32,
    pub asks: bool,
    ghost holds: { 1 ≤ capacity },
    ghost fits: { capacity ≤ capacity_limit },
    ghost some: { 1 ≤ workers },
    ghost few: { workers ≤ 8 },
}

/// The threads send so many items in all, each as many as the others, to one port after the other, since none accepts
/// more than 8,192. Answers how many items were taken, or how many asks were replied to.
pub fn count_items<R: Threads + Wait + Sync>(
    rt: &R,
    alloc: Global,
    sending: Sending,
    items: u32,
) -> Result<u64, BenchFault> {
    let each = items / sending.workers;
    let most = LIFE_LIMIT / sending.workers;
    let mut count = 0u64;
    for _ in 0..each / most {
        count = count.wrapping_add(round(rt, alloc, sending, most)?);
    }
    Ok(count.wrapping_add(round(rt, alloc, sending, each % most)?))
}

/// At one new port, with a new reply book, the threads send so many items each. The last thread shuts the port.
fn round<R: Threads + Wait + Sync>(
    rt: &R,
    alloc: Global,
    sending: Sending,
    each: u32,
) -> Result<u64, BenchFault> {
    let mut taker = new_taker(alloc, sending.capacity)?;
    let mut workers = split_all(alloc, &mut taker, sending.capacity, sending.workers + 1)?;
    let Some(closer) = workers.pop() else {
        return Err(BenchFault::Stopped);
    };
    side_by_side(
        rt,
        alloc,
        taker,
        sending.capacity,
        workers,
        closer,
        sending.asks,
        each,
    )
}

/// One thread takes, and the others send.
fn side_by_side<R: Threads + Wait + Sync>(
    rt: &R,
    alloc: Global,
    taker: Hands,
    most: u32,
    workers: Vec<Hands>,
    closer: Hands,
    asks: bool,
    each: u32,
) -> Result<u64, BenchFault>
    requires taking { CanTake taker.clock.thread most taker.at_port }
    requires most { 1 ≤ most }
{
    let room = VecDeque::with_capacity(alloc, most as usize)?;
    let (taken, sent) = join(
        rt,
        || -> u64
            requires { CanTake taker.clock.thread most taker.at_port × (1 ≤ most) × (deque_capacity room ≡ most) × (room.items ≡ []) }
        { take_all(rt, alloc, taker, room, most) },
        || -> Result<u64, BenchFault> { work_all(rt, alloc, workers, closer, asks, each) },
    );
    let sent = sent?;
    if asks { Ok(sent) } else { Ok(taken) }
}
