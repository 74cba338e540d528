//! Where the loopers of a run stand, by the launches that its roster tells.

use ak_action::LooperPlan;
use ak_base::NoMemory;
use ak_roster::{LaunchOutcome, RosterEntry, RosterEvent};
use std::alloc::Global;

/// The plans of an application's loopers, the place among them, the team, and the number of its first looper.
#[derive(Clone, Copy)]
pub(crate) struct Opening<'a> {
    pub plans: &'a [LooperPlan],
    pub at: usize,
    pub team: u32,
    pub first: u32,
}

/// That of each looper, in the order of their numbers. `apps` are the plans of each application that is described.
pub(crate) fn openings<'a>(
    alloc: Global,
    apps: &[&'a [LooperPlan]],
    roster: &[RosterEntry],
) -> Result<Vec<Opening<'a>>, NoMemory> {
    let mut all = Vec::new(alloc);
    for entry in roster {
        if let RosterEvent::Launch { outcome, .. } = &entry.event {
            add_launch(&mut all, apps, *outcome)?;
        }
    }
    Ok(all)
}

fn add_launch<'a>(
    all: &mut Vec<Opening<'a>>,
    apps: &[&'a [LooperPlan]],
    outcome: LaunchOutcome,
) -> Result<(), NoMemory> {
    let LaunchOutcome::Started {
        description,
        team,
        first,
    } = outcome
    else {
        return Ok(());
    };
    let plans = match apps.get(description as usize) {
        Some(plans) => *plans,
        None => &[],
    };
    for at in 0..plans.len() {
        all.push(Opening {
            plans,
            at,
            team,
            first,
        })?;
    }
    Ok(())
}
