//! The loopers of a team that is about to start.
ghost use Rattle.std.specs.Prelude.{◌≡◌, ◌≤◌, ◌+◌, ◌∷◌, ◌++◌, ℕ, List, [], length, option_map, IfOk, OnOk};
ghost use Rattle.ak_base.specs.Thread.{main_thread};
ghost use Rattle.ak_action.specs.declared.plan.PlanParts.{PlanParts};
ghost use Rattle.ak_team.specs.Greeting.{EachMains, FirstHoldsTwo, capacities_in, port_events, told_first, written_from};
ghost use Rattle.ak_team.specs.NewTeam.{IsNewTeam};
ghost use Rattle.ak_team.specs.Opening.{FitPlaces, IsOpenedAt, opened_front};
ghost use Rattle.ak_team.specs.InTime.{ArePortsInTime, team_fronts};

use crate::greeting::greet;
use crate::new_looper::{NewLooper, Other, Own, new_other, new_own};
use crate::opening::{Opened, open_loopers};
use ak_action::LooperPlan;
use ak_base::NoMemory;
use ak_looper::{Door, KeptDoor, Shared};
use ak_message::Message;
use ak_messenger::Hands;
use std::alloc::Global;
use std::sync::Wait;

/// A team that is about to start.
#[derive(Drop)]
pub struct NewTeam {
    /// The application's own looper.
    pub own: NewLooper,
    /// The others, in order.
    pub others: Vec<NewLooper>,
    /// The own looper's doors to the others, in order, each with its looper's number.
    pub ways: Vec<(u32, Door)>,
}

/// The same, and the doors that the roster is to keep, in the order of the loopers.
#[derive(Drop)]
pub(crate) struct Making {
    pub(crate) team: NewTeam,
    pub(crate) kept: Vec<KeptDoor>,
}

// A team that has its own looper alone.
fn begin_team(alloc: Global, opened: Opened, shared: &Shared) -> Result<Making, NoMemory>
    requires opened { (plans : List PlanParts) × (team : ℕ) × (first : ℕ) × IsOpenedAt plans team first 0 opened }
    ensures begun { (plans : List PlanParts) (team first : ℕ) → IsOpenedAt plans team first 0 opened → IfOk result (λ m. IsNewTeam plans team first shared.now m.team m.kept.items × (m.team.others.items ≡ [])) }
    ensures fronts { IfOk result (λ m. team_fronts m.team ≡ opened_front opened ∷ []) }
{
    let Own { looper, kept } = new_own(opened, shared)?;
    let mut all = Vec::new(alloc);
    all.push(kept)?;
    Ok(Making {
        team: NewTeam {
            own: looper,
            others: Vec::new(alloc),
            ways: Vec::new(alloc),
        },
        kept: all,
    })
}

// One looper more.
fn add_looper(
    making: &mut Making,
    opened: Opened,
    first: u32,
    shared: &Shared,
) -> Result<(), NoMemory>
    requires opened { (plans : List PlanParts) × (team : ℕ) × IsNewTeam plans team first shared.now making.old.team making.old.kept.items × IsOpenedAt plans team first (length making.old.team.others.items + 1) opened }
    ensures grown { (plans : List PlanParts) (team : ℕ) → IsNewTeam plans team first shared.now making.old.team making.old.kept.items → IsOpenedAt plans team first (length making.old.team.others.items + 1) opened → OnOk result (IsNewTeam plans team first shared.now making.new.team making.new.kept.items) }
    ensures count { OnOk result (length making.new.team.others.items ≡ length making.old.team.others.items + 1) }
    ensures fronts { OnOk result (team_fronts making.new.team ≡ team_fronts making.old.team ++ opened_front opened ∷ []) }
{
    let number = opened.number;
    let Other { looper, way, kept } = new_other(opened, first, shared)?;
    making.team.others.push(looper)?;
    making.team.ways.push((number, way))?;
    making.kept.push(kept)?;
    Ok(())
}

/// The ports, the desks and all doors of a team with that number and that first looper, whose port has what it is greeted with.
pub(crate) fn make_team<R: Wait>(
    alloc: Global,
    rt: &R,
    hands: &mut Hands,
    shared: &Shared,
    plans: &[LooperPlan],
    team: u32,
    first: u32,
    arguments: Option<&Message>,
) -> Result<Making, NoMemory>
    requires some { 1 ≤ length plans.now }
    requires fits { FitPlaces first plans.now }
    requires main { hands.old.clock.thread.0 ≡ main_thread }
    ensures made { IfOk result (λ m. IsNewTeam plans.now team first shared.now m.team m.kept.items) }
    ensures count { IfOk result (λ m. length plans.now ≡ length m.team.others.items + 1) }
    ensures ports { FirstHoldsTwo plans.now → IfOk result (λ m. EachMains (port_events (capacities_in plans.now) (written_from 0 (told_first (option_map (λ m. m.now) arguments.entry)))) (team_fronts m.team)) }
    ensures in_time { FirstHoldsTwo plans.now → IfOk result (λ m. ArePortsInTime hands.old.clock.time (team_fronts m.team) hands.new.clock.time) }
    ensures book { hands.new.book ≡ hands.old.book }
    ensures book_seat { hands.new.book_seat ≡ hands.old.book_seat }
    ensures clock { hands.new.clock.thread ≡ hands.old.clock.thread }
{
    let mut others = open_loopers(alloc, rt, &mut hands.clock, plans, team, first)?;
    let mut own = others.remove(0);
    greet(alloc, rt, hands, &mut own.door, arguments)?;
    let mut making = begin_team(alloc, own, shared)?;
    for other in others {
        add_looper(&mut making, other, first, shared)?;
    }
    Ok(making)
}
