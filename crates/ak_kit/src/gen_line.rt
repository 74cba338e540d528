//! The line of the script of a number: how many replies its block got, and how far each of the three loopers has counted.
ghost use Rattle.std.specs.Prelude.{◌≡◌, ◌≤◌, ◌++◌, take, drop, count_by, slice_get, IfOk, OnOk};
ghost use Rattle.std.specs.Fmt.{signed_decimal};
ghost use Rattle.ak_message.specs.Seen.{value_of};
ghost use Rattle.ak_script.specs.Generated.{generated_limit};
ghost use Rattle.ak_kit.specs.Gen as gen;

use crate::summary::put_count;
use ak_base::{Bytes, Code, NoMemory, print_int};
use ak_message::{Kind, Message, Value};
use ak_print::Told;
use std::alloc::Global;

/// The line of the script of that number, by what is told of its statements.
pub(crate) fn gen_line(alloc: Global, n: u32, tolds: &[Told]) -> Result<Bytes, NoMemory>
    requires { n ≤ generated_limit }
    ensures { IfOk result (λ line. line ≡ gen.gen_line n tolds.now) }
{
    let lines = line_count(n);
    let replies = count_replies(first_ones(behind_first(tolds), lines));
    let mut line = Bytes::new(alloc);
    put_count(&mut line, b"gen ", n as usize)?;
    put_count(&mut line, b": replies ", replies)?;
    put_long(&mut line, b" counts ", count_at(tolds, lines + 1))?;
    put_long(&mut line, b" ", count_at(tolds, lines + 2))?;
    put_long(&mut line, b" ", count_at(tolds, lines + 3))?;
    line.push(b'\n')?;
    Ok(line)
}

// What is said of the number, and the number.
fn put_long(out: &mut Bytes, what: &[u8], number: i32) -> Result<(), NoMemory>
    ensures { OnOk result (out.new ≡ out.old ++ what.now ++ signed_decimal number) }
{
    out.extend(what)?;
    print_int(i64::from(number), out)
}

// ---- the block
// How many lines its four sessions have.
fn line_count(n: u32) -> usize
    requires { n ≤ generated_limit }
    ensures count { result ≡ gen.line_count n }
    ensures few { result ≤ 2000 }
{
    4 * n as usize
}

// All but the first one.
fn behind_first(tolds: &[Told]) -> &[Told]
    ensures { result.now ≡ drop 1 tolds.now }
{
    match tolds.split_first() {
        Some((_, rest)) => rest,
        None => tolds,
    }
}

// The first ones, so many at most.
fn first_ones(tolds: &[Told], most: usize) -> &[Told]
    ensures { result.now ≡ take most tolds.now }
{
    if most < tolds.len() {
        &tolds[..most]
    } else {
        tolds
    }
}

fn count_replies(tolds: &[Told]) -> usize
    ensures { result ≡ count_by gen.is_reply tolds.now }
{
    tolds.iter().filter(|told| is_reply(told)).count()
}

// Whether it is a reply `'RPLY'`.
fn is_reply(told: &Told) -> bool
    ensures { result ≡ gen.is_reply told.now }
{
    match told {
        Told::Reply(message) => message.what().0 == Code::REPLY.0,
        _ => false,
    }
}

// ---- the counts
// The count that is told at that place.
fn count_at(tolds: &[Told], place: usize) -> i32
    ensures { result ≡ gen.count_told (slice_get tolds.now place) }
{
    match tolds.get(place) {
        Some(told) => count_of(told),
        None => 0,
    }
}

fn count_of(told: &Told) -> i32
    ensures { result ≡ gen.count_of told.now }
{
    match told {
        Told::Reply(message) => result_of(message),
        _ => 0,
    }
}

// The first LONG of the field `result`, and 0 where there is none.
fn result_of(message: &Message) -> i32
    ensures { result ≡ gen.result_of message.now }
{
    match message.find(b"result", Kind::Int32, 0) {
        Ok(value) => long_of(value),
        Err(_) => 0,
    }
}

fn long_of(value: &Value) -> i32
    ensures { result ≡ gen.long_of (value_of value.now) }
{
    match value {
        Value::Int32(number) => *number,
        _ => 0,
    }
}
