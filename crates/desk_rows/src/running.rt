//! Carries out the operations of a row, and tells of each.

ghost use Rattle.std.specs.Prelude.{◌≡◌, None, OnOk};

use crate::bench::{Bench, bench_of, lines_of};
use crate::dispatching::{give_up, send};
use crate::editing::edit;
use crate::ending::tell_list;
use crate::handlers::tell_handlers;
use crate::operation::{Operation, Step, steps_of};
use crate::reading::Reading;
use crate::stop::Stop;
use ak_base::{Bytes, NoMemory};
use ak_input::Line;
use std::alloc::Global;

/// What is told of the row that was read.
pub(crate) fn told_of(alloc: Global, reading: &Reading) -> Result<Bytes, NoMemory> {
    let mut told = Bytes::new(alloc);
    let application = reading.application.as_slice();
    match bench_of(alloc, application, reading.looper.as_slice())? {
        Some(mut bench) => run(alloc, &mut bench, reading.operations.as_slice(), &mut told)?,
        None => told.extend(b"no desk\n")?,
    }
    Ok(told)
}

// Carries out the operations, up to the first line that has no words.
fn run(
    alloc: Global,
    bench: &mut Bench,
    operations: &[u8],
    told: &mut Bytes,
) -> Result<(), NoMemory>
    requires { bench.old.desk.begun ≡ None }
{
    let Some(lines) = lines_of(alloc, operations)? else {
        return told.extend(b"no operation\n");
    };
    if run_lines(alloc, bench, lines.lines.as_slice(), told)? && lines.fault.is_some() {
        return told.extend(b"no operation\n");
    }
    Ok(())
}

// Whether all of them were carried out.
fn run_lines(
    alloc: Global,
    bench: &mut Bench,
    lines: &[Line],
    told: &mut Bytes,
) -> Result<bool, NoMemory>
    requires { bench.old.desk.begun ≡ None }
{
    let Some(steps) = steps_of(alloc, lines)? else {
        told.extend(b"no answer\n")?;
        return Ok(false);
    };
    run_steps(alloc, bench, &steps, told)
}

fn run_steps(
    alloc: Global,
    bench: &mut Bench,
    steps: &[Step],
    told: &mut Bytes,
) -> Result<bool, NoMemory>
    requires { bench.old.desk.begun ≡ None }
{
    match run_all(alloc, bench, steps, told) {
        Ok(()) => Ok(true),
        Err(stop) => {
            tell_stop(told, stop)?;
            Ok(false)
        }
    }
}

fn tell_stop(told: &mut Bytes, stop: Stop) -> Result<(), NoMemory> {
    match stop {
        Stop::NoAnswer => told.extend(b"no answer\n"),
        Stop::NoOperation => told.extend(b"no operation\n"),
        Stop::Waits => Ok(()),
        Stop::NoMemory => Err(NoMemory),
    }
}

// A want without an answer may stand at the row's end alone.
fn run_all(alloc: Global, bench: &mut Bench, steps: &[Step], told: &mut Bytes) -> Result<(), Stop>
    requires { bench.old.desk.begun ≡ None }
    ensures { OnOk result (bench.new.desk.begun ≡ None) }
{
    let [step, rest @ ..] = steps else {
        return Ok(());
    };
    match run_step(alloc, bench, step, told) {
        Ok(()) => run_all(alloc, bench, rest, told),
        Err(Stop::Waits) if !rest.is_empty() => Err(Stop::NoOperation),
        Err(stop) => Err(stop),
    }
}

fn run_step(alloc: Global, bench: &mut Bench, step: &Step, told: &mut Bytes) -> Result<(), Stop>
    requires { bench.old.desk.begun ≡ None }
    ensures { OnOk result (bench.new.desk.begun ≡ None) }
{
    if let Operation::Send(item) = &step.operation {
        return send(alloc, bench, item.try_clone(alloc)?, &step.heard, told);
    }
    run_plain(alloc, bench, &step.operation, told)?;
    if step.heard.is_empty() {
        Ok(())
    } else {
        Err(Stop::NoAnswer)
    }
}

// Of all but a message that is begun.
fn run_plain(
    alloc: Global,
    bench: &mut Bench,
    operation: &Operation,
    told: &mut Bytes,
) -> Result<(), Stop>
    requires { bench.old.desk.begun ≡ None }
    ensures { OnOk result (bench.new.desk.begun ≡ None) }
{
    match operation {
        Operation::Starve(item) => give_up(bench, item.try_clone(alloc)?, told),
        Operation::Edit(e) => edit(bench, e.try_clone()?, told),
        Operation::Time(time) => set_time(bench, *time),
        Operation::Look => Ok(tell_handlers(alloc, told, bench.desk.state())?),
        Operation::List => Ok(tell_list(told, &bench.desk)?),
        Operation::Send(_) | Operation::Unread => Err(Stop::NoOperation),
    }
}

fn set_time(bench: &mut Bench, time: u64) -> Result<(), Stop>
    requires { bench.old.desk.begun ≡ None }
    ensures { OnOk result (bench.new.desk.begun ≡ None) }
{
    if time >= 1 << 63 {
        return Err(Stop::NoOperation);
    }
    bench.clock.time = time;
    Ok(())
}
