//! The ports and desks of loopers that are about to start.
ghost use Rattle.std.specs.Prelude.{◌≡◌, ◌∷◌, [], length, map, IfOk};
ghost use Rattle.ak_base.specs.Thread.{main_thread};
ghost use Rattle.ak_action.specs.Opening.{FitsPlace};
ghost use Rattle.ak_team.specs.Greeting.{AreMains, EachMains, capacities_in, made_event, made_events};
ghost use Rattle.ak_team.specs.Opening.{AreOpened, FitPlaces, IsOpened, opened_front};
ghost use Rattle.ak_team.specs.InTime.{AreEntriesInTime, AreMadeInTime};

use ak_action::{LooperPlan, looper_names, plans_are_whole};
use ak_base::{Items, NoMemory, Text, ThreadId};
use ak_desk::Desk;
use ak_flatten::Taken;
use ak_looper::Door;
use ak_port::{LIFE_LIMIT, make};
use ak_turn::{Clock, TurnLock};
use std::alloc::Global;
use std::collections::VecDeque;
use std::sync::Wait;

/// Where a looper stands in the run: its number, its team's, and the number of the team's first looper.
#[derive(Drop)]
pub(crate) struct Place {
    pub(crate) number: u32,
    pub(crate) team: u32,
    pub(crate) first: u32,
}

/// A looper whose port and desk were made: main's door to them, and what the looper takes into.
#[derive(Drop)]
pub(crate) struct Opened {
    pub(crate) number: u32,
    pub(crate) door: Door,
    pub(crate) queue: VecDeque<Taken>,
}

// A new desk and a new port for the looper of that plan. The making of the port is its first entry.
fn open_looper<R: Wait>(
    alloc: Global,
    rt: &R,
    clock: &mut Clock,
    plan: &LooperPlan,
    place: Place,
    names: Items<Text>,
) -> Result<Opened, NoMemory>
    requires fits { FitsPlace plan.now place.number place.first names }
    requires main { clock.old.thread.0 ≡ main_thread }
    ensures opened { IfOk result (λ o. IsOpened place plan.now names o) }
    ensures port { IfOk result (λ o. AreMains (made_event plan.now.capacity ∷ []) (opened_front o)) }
    ensures in_time { IfOk result (λ o. AreEntriesInTime clock.old.time [] (opened_front o) clock.new.time) }
    ensures clock { clock.new.thread ≡ clock.old.thread }
{
    plans_are_whole();
    let capacity = plan.parts().capacity;
    let queue = VecDeque::with_capacity(alloc, capacity as usize)?;
    let plan = plan.try_clone()?;
    let desk = Desk::from_plan(alloc, plan, place.number, place.team, place.first, names)?;
    let (desk, desk_seat) = TurnLock::new(alloc, desk, clock.thread)?;
    clock.ready(rt);
    let taker = ThreadId::looper(place.number);
    let (port, port_seat) = make(alloc, capacity, LIFE_LIMIT, taker, clock)?;
    Ok(Opened {
        number: place.number,
        door: Door {
            port,
            port_seat,
            desk,
            desk_seat,
        },
        queue,
    })
}

/// The same for each of an application's loopers, in order, as the team of that number. The first of them has the number `first`.
pub(crate) fn open_loopers<R: Wait>(
    alloc: Global,
    rt: &R,
    clock: &mut Clock,
    plans: &[LooperPlan],
    team: u32,
    first: u32,
) -> Result<Vec<Opened>, NoMemory>
    requires fits { FitPlaces first plans.now }
    requires main { clock.old.thread.0 ≡ main_thread }
    ensures opened { IfOk result (λ all. AreOpened plans.now team first 0 all.items) }
    ensures count { IfOk result (λ all. length all.items ≡ length plans.now) }
    ensures ports { IfOk result (λ all. EachMains (made_events (capacities_in plans.now)) (map opened_front all.items)) }
    ensures in_time { IfOk result (λ all. AreMadeInTime clock.old.time (map opened_front all.items) clock.new.time) }
    ensures clock { clock.new.thread ≡ clock.old.thread }
{
    let mut all = Vec::new(alloc);
    for (index, plan) in plans.iter().enumerate() {
        let place = Place {
            number: first + index as u32,
            team,
            first,
        };
        let names = looper_names(alloc, plans)?;
        all.push(open_looper(alloc, rt, clock, plan, place, names)?)?;
    }
    Ok(all)
}
