//! What the words of an order ask for.
ghost use Rattle.std.specs.Prelude.{◌≤◌, IfOk};

use crate::fault::BenchFault;
use crate::rounds::{Sending, count_items};
use crate::routes::{Shape, deliveries};
use crate::samples::{checksum, message};
use crate::turns::{Turns, count_turns};
use ak_filter::FILTER_LIMIT;
use ak_handler::HANDLER_LIMIT;
use ak_port::CAPACITY_LIMIT;
use std::alloc::Global;
use std::sync::Wait;
use std::thread::Threads;
use std::time::Clock;

/// The most rounds of one order.
const ROUND_LIMIT: u32 = 10_000_000;

/// The most threads that take turns, or write to a port.
const THREAD_LIMIT: u32 = 8;

/// How many items the port holds at a time to which asks are written.
const ASK_CAPACITY: u32 = 100;

/// Does what the words say, and tells what is counted and how many there were.
pub fn count_of<R: AllocGlobal + Threads + Wait + Clock + Sync>(
    rt: &R,
    words: &[String],
) -> Result<(&'static str, u64), BenchFault> {
    let (rounds, others) = words.split_last().ok_or(BenchFault::Usage)?;
    let (subject, sizes) = others.split_first().ok_or(BenchFault::Usage)?;
    let rounds = read_number(rounds, 1, ROUND_LIMIT)?;
    match subject.as_str() {
        "flat" => Ok(("checksum", count_flat(rt.alloc(), sizes, rounds)?)),
        "route" => Ok(("delivered", count_routes(rt.alloc(), sizes, rounds)?)),
        "turn" => Ok(("entries", count_entries(rt, sizes, rounds)?)),
        "port" => Ok(("taken", count_taken(rt, sizes, rounds)?)),
        "ask" => Ok(("replies", count_replies(rt, sizes, rounds)?)),
        _ => Err(BenchFault::Usage),
    }
}

// The number that the word says in decimal, which is one of these. Digit by digit: the reader of std, with all that it promises,
// costs the check five times as much. What is too great for a `u32` is read as the greatest one, which no order has.
fn read_number(word: &String, least: u32, most: u32) -> Result<u32, BenchFault>
    ensures { IfOk result (λ number. (least ≤ number) × (number ≤ most)) }
{
    let mut number: u32 = 0;
    for digit in word.as_bytes() {
        let value = digit.wrapping_sub(b'0');
        if value > 9 {
            return Err(BenchFault::Usage);
        }
        number = number.saturating_mul(10).saturating_add(u32::from(value));
    }
    if word.is_empty() || number < least || number > most {
        return Err(BenchFault::Usage);
    }
    Ok(number)
}

fn count_flat(alloc: Global, sizes: &[String], rounds: u32) -> Result<u64, BenchFault> {
    let [name] = sizes else {
        return Err(BenchFault::Usage);
    };
    checksum(alloc, &message(alloc, name.as_str())?, rounds)
}

fn count_routes(alloc: Global, sizes: &[String], rounds: u32) -> Result<u64, BenchFault> {
    let [handlers, filters] = sizes else {
        return Err(BenchFault::Usage);
    };
    let shape = Shape {
        handlers: read_number(handlers, 1, HANDLER_LIMIT as u32)?,
        filters: read_number(filters, 0, FILTER_LIMIT as u32)?,
    };
    deliveries(alloc, shape, rounds)
}

fn count_entries<R: AllocGlobal + Threads + Wait + Clock + Sync>(
    rt: &R,
    sizes: &[String],
    rounds: u32,
) -> Result<u64, BenchFault> {
    let [threads] = sizes else {
        return Err(BenchFault::Usage);
    };
    if threads.as_str() == "wait" {
        return count_turns(rt, rt.alloc(), 2, Turns::Wait(rounds));
    }
    let threads = read_number(threads, 1, THREAD_LIMIT)?;
    count_turns(rt, rt.alloc(), threads, Turns::Enter(rounds))
}

fn count_taken<R: AllocGlobal + Threads + Wait + Sync>(
    rt: &R,
    sizes: &[String],
    items: u32,
) -> Result<u64, BenchFault> {
    let [capacity, writers] = sizes else {
        return Err(BenchFault::Usage);
    };
    let sending = Sending {
        capacity: read_number(capacity, 1, CAPACITY_LIMIT)?,
        workers: read_number(writers, 1, THREAD_LIMIT)?,
        asks: false,
    };
    count_items(rt, rt.alloc(), sending, items)
}

fn count_replies<R: AllocGlobal + Threads + Wait + Sync>(
    rt: &R,
    sizes: &[String],
    asks: u32,
) -> Result<u64, BenchFault> {
    if !sizes.is_empty() {
        return Err(BenchFault::Usage);
    }
    let sending = Sending {
        capacity: ASK_CAPACITY,
        workers: 1,
        asks: true,
    };
    count_items(rt, rt.alloc(), sending, asks)
}
