//! A desk as it was before anything was done on it.

ghost use Rattle.std.specs.Prelude.{◌≡◌, ◌+◌, ◌<◌, ◌≤◌, None, IfOk, IfSome};
ghost use Rattle.ak_action.specs.Opening.{FitsPlace};
ghost use Rattle.ak_base.specs.Thread.{looper_thread};
ghost use Rattle.ak_desk.specs.Machine.{dispatches};

use crate::openings::Opening;
use ak_action::{DeskState, LooperPlan, looper_names};
use ak_base::{Items, NoMemory, Text, ThreadId};
use ak_desk::Desk;
use ak_turn::Clock;
use std::alloc::Global;

/// A desk on which a looper's list is carried out once more, with the clock of the looper's own thread.
#[derive(Drop)]
pub(crate) struct Again {
    pub desk: Desk,
    pub clock: Clock,
    /// How many messages were dispatched.
    pub count: u64,
    ghost thread: { clock.thread.0 ≡ looper_thread desk.opening.looper },
    ghost counted: { count ≡ dispatches desk.entries },
}

/// A new desk of the looper that stands there. None where `kept`, as its desk is at the end, is that of another, or where no such
/// looper may be.
pub(crate) fn fresh(
    alloc: Global,
    looper: u32,
    opening: &Opening<'_>,
    kept: &DeskState,
) -> Result<Option<Again>, NoMemory>
    ensures { IfOk result (λ again. IfSome again (λ a. a.desk.begun ≡ None)) }
{
    if kept.looper != looper || kept.team != opening.team || kept.first != opening.first {
        return Ok(None);
    }
    let Some(plan) = opening.plans.get(opening.at) else {
        return Ok(None);
    };
    let names = looper_names(alloc, opening.plans)?;
    if !plan.fits_place(opening.first, opening.at, names.as_slice()) {
        return Ok(None);
    }
    desk_of(alloc, plan, opening, names)
}

fn desk_of(
    alloc: Global,
    plan: &LooperPlan,
    opening: &Opening<'_>,
    names: Items<Text>,
) -> Result<Option<Again>, NoMemory>
    requires fits { FitsPlace plan.now (opening.now.first + opening.now.at) opening.now.first names }
    requires at { opening.now.at < 8 }
    requires first { opening.now.first ≤ 32 }
    ensures { IfOk result (λ again. IfSome again (λ a. a.desk.begun ≡ None)) }
{
    let Opening {
        at,
        team,
        first,
        ..
    } = *opening;
    let looper = first + at as u32;
    Ok(Some(Again {
        desk: Desk::from_plan(alloc, plan.try_clone()?, looper, team, first, names)?,
        clock: Clock {
            thread: ThreadId::looper(looper),
            time: 0,
        },
        count: 0,
    }))
}
