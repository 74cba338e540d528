//! The desk on which a row is carried out.

ghost use Rattle.std.specs.Prelude.{◌≡◌, ◌+◌, None, IfOk, IfSome};
ghost use Rattle.ak_base.specs.Thread.{looper_thread};

use crate::place::{Place, place_of};
use ak_action::{LooperPlan, looper_names};
use ak_base::{Items, NoMemory, Text, ThreadId};
use ak_describe::{AppText, DescribeFault, read_description};
use ak_desk::Desk;
use ak_input::{InputLines, LinesFault, split_lines};
use ak_turn::Clock;
use std::alloc::Global;

/// A desk with the clock of its looper's own thread.
#[derive(Drop)]
pub(crate) struct Bench {
    pub desk: Desk,
    pub clock: Clock,
    ghost thread: { clock.thread.0 ≡ looper_thread desk.opening.looper },
}

/// The lines with words, or none where a line has none.
pub(crate) fn lines_of(alloc: Global, text: &[u8]) -> Result<Option<InputLines>, NoMemory> {
    match split_lines(alloc, text) {
        Ok(lines) => Ok(Some(lines)),
        Err(LinesFault::TooLong { .. }) => Ok(None),
        Err(LinesFault::NoMemory) => Err(NoMemory),
    }
}

/// A new desk of the looper that these lines describe and this line names. None where there is none.
pub(crate) fn bench_of(
    alloc: Global,
    application: &[u8],
    looper: &[u8],
) -> Result<Option<Bench>, NoMemory>
    ensures { IfOk result (λ bench. IfSome bench (λ b. b.desk.begun ≡ None)) }
{
    let Some(app) = app_of(alloc, application)? else {
        return Ok(None);
    };
    let Some(lines) = lines_of(alloc, looper)? else {
        return Ok(None);
    };
    let [line] = lines.lines.as_slice() else {
        return Ok(None);
    };
    let Some(place) = place_of(line.words.as_slice()) else {
        return Ok(None);
    };
    bench_at(alloc, app, place)
}

// The first application that the lines describe.
fn app_of(alloc: Global, text: &[u8]) -> Result<Option<AppText>, NoMemory> {
    let Some(lines) = lines_of(alloc, text)? else {
        return Ok(None);
    };
    if lines.fault.is_some() {
        return Ok(None);
    }
    match read_description(alloc, lines.lines.as_slice()) {
        Ok(apps) => Ok(apps.into_iter().next()),
        Err(DescribeFault::Refused { .. }) => Ok(None),
        Err(DescribeFault::NoMemory) => Err(NoMemory),
    }
}

fn bench_at(alloc: Global, app: AppText, place: Place) -> Result<Option<Bench>, NoMemory>
    ensures { IfOk result (λ bench. IfSome bench (λ b. b.desk.begun ≡ None)) }
{
    let names = looper_names(alloc, app.loopers.as_slice())?;
    let Some(at) = names
        .as_slice()
        .iter()
        .position(|name| name.as_bytes() == place.name)
    else {
        return Ok(None);
    };
    match app.loopers.into_vec().into_iter().nth(at) {
        Some(plan) => desk_of(alloc, plan, place, at, names),
        None => Ok(None),
    }
}

// The desk of that plan, which is that of the looper at that place, where the numbers are small enough.
fn desk_of(
    alloc: Global,
    plan: LooperPlan,
    place: Place,
    at: usize,
    names: Items<Text>,
) -> Result<Option<Bench>, NoMemory>
    ensures { IfOk result (λ bench. IfSome bench (λ b. b.desk.begun ≡ None)) }
{
    let Place { team, first, .. } = place;
    if !plan.fits_place(first, at, names.as_slice()) {
        return Ok(None);
    }
    let looper = first + at as u32;
    Ok(Some(Bench {
        desk: Desk::from_plan(alloc, plan, looper, team, first, names)?,
        clock: Clock {
            thread: ThreadId::looper(looper),
            time: 0,
        },
    }))
}
