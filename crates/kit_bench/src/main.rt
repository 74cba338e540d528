//! A program to time. Its words are an order: what is done, with its sizes, and at the end how often. It prints a line of
//! these words, of what is counted and of the count, as `flat NAME N checksum C`. Several orders stand one after another
//! with the word `then` between them, and each has its line.
//!
//! - `flat NAME N` makes one of four messages, flattens it and reads its flat text N times. C is a sum over every flat text
//!   and every message that was read. `bench/flat` times it.
//! - `route HANDLERS FILTERS N` makes a looper with so many handlers, itself counted, and so many filters each, and routes a
//!   message through all of them N times. Counted is how often it came to the looper. `bench/route` times it.
//! - `turn THREADS N` starts so many threads, which take N turns each at one lock and make an entry in each; in `turn wait N`
//!   one thread has the turn for N milliseconds and makes no entry, while another waits for it. Counted are the entries at
//!   the end. `bench/turn` times both.
//! - `port CAPACITY WRITERS N` has so many threads write N items in all to a port that holds so many at a time, while another
//!   one takes them, which are counted. `ask N` has one thread ask another N times, and the replies are counted.
//!   `bench/ports` times both.
//!
//! NAME is `ask`, `reply`, `deep` or `raw`, HANDLERS is 1 to 64, FILTERS is 0 to 32, THREADS and WRITERS are 1 to 8,
//! CAPACITY is 1 to 1,000, and N is 1 to 10,000,000. The first order that is none ends it with status 1, and it prints how it
//! is used. The status is 4 where the words cannot be read, a line cannot be written, or memory runs out.
#![tactic(auto)]

mod fault;
mod hands;
mod held;
mod orders;
mod rounds;
mod routes;
mod samples;
mod taker;
mod tally;
mod turns;
mod work;

use fault::BenchFault;
use orders::count_of;
use std::env;
use std::env::Env;
use std::process::ExitCode;
use std::sync::Wait;
use std::thread::Threads;
use std::time::Clock;

/// The words of the command line behind the program's name.
fn given_words(rt: &(impl Env + AllocGlobal)) -> Result<Vec<String>, BenchFault> {
    let mut words = Vec::new(rt.alloc());
    for word in env::args(rt)?.skip(1) {
        words.push(word)?;
    }
    Ok(words)
}

/// Carries out one order, and prints its line.
fn carry_out<R: Print + AllocGlobal + Threads + Wait + Clock + Sync>(
    rt: &R,
    words: &[String],
) -> Result<(), BenchFault> {
    let (counted, count) = count_of(rt, words)?;
    for word in words {
        print!(rt; "{word} ")?;
    }
    println!(rt; "{counted} {count}")?;
    Ok(())
}

/// Carries out the orders of the command line in turn, up to the first that fails.
fn run<R: Print + AllocGlobal + Env + Threads + Wait + Clock + Sync>(
    rt: &R,
) -> Result<(), BenchFault> {
    let words = given_words(rt)?;
    for order in words.split(|word| word.as_str() == "then") {
        carry_out(rt, order)?;
    }
    Ok(())
}

fn main(rt: HostRuntime) -> ExitCode {
    let status = match run(&rt) {
        Ok(()) => 0,
        Err(fault) => fault.status(),
    };
    if status == 1 {
        let _ = println!(rt;
            "usage: kit_bench flat ask|reply|deep|raw N\n       kit_bench route HANDLERS FILTERS N\n       kit_bench turn THREADS|wait N\n       kit_bench port CAPACITY WRITERS N\n       kit_bench ask N\n       several of these with the word then between them"
        );
    }
    ExitCode::from(status)
}
