//! A message is dispatched in one turn of the looper's desk.
ghost use Rattle.std.specs.Prelude.{◌≡◌, ◌<◌, ◌^◌, ℕ, List, true, false, None, OnOk, OnErr};
ghost use Rattle.ak_base.specs.Thread.{looper_thread};
ghost use Rattle.ak_turn.specs.Called.{KeepsSeat};
ghost use Rattle.ak_action.specs.declared.state.DeskState.{DeskState};
ghost use Rattle.ak_desk.specs.Desk.{begun_with, stamp_in, DeskIsDone, DeskMayWant};
ghost use Rattle.ak_desk.specs.Machine.{IsHistory};
ghost use Rattle.ak_diary.specs.Looper.{LooperFacts};
ghost use Rattle.ak_diary.specs.Step.{Step};
ghost use Rattle.ak_looper.specs.Carrying.{CarriesOut, HasDispatchedOne, HasServed, IsDeskOf, IsNext, IsOf};
ghost use Rattle.ak_looper.specs.Stands.{DeskStands, GoesOn, IsStanding, Stands};
ghost use Rattle.ak_looper.specs.Ways.{KeepsReach};

use crate::reach::Reach;
use ak_action::Want;
use ak_base::NoMemory;
use ak_desk::{Desk, Made, the_dispatches_are_its_own};
use ak_flatten::Taken;
use ak_outside::{Gate, Point};
use ak_turn::{Seat, TurnLock};
use std::alloc::Global;
use std::sync::Wait;

// Begins the message, where it is the next one of the looper's own thread.
fn begin(desk: &mut Desk, taken: &Taken) -> Result<(), NoMemory>
    requires rest { desk.old.begun ≡ None }
    requires next { IsNext taken.now (looper_thread desk.old.opening.looper) desk.old.entries }
    ensures begun { OnOk result (desk.new ≡ begun_with desk.old taken.now) }
    ensures goes_on { OnOk result (DeskMayWant desk.new) }
    ensures err { OnErr result (desk.new ≡ desk.old) }
{
    the_dispatches_are_its_own();
    // Reading the handlers shows that the list leads to them.
    let _state = desk.state();
    desk.begin(taken)
}

// Does what is wanted next. False where nothing is left to do.
fn goes_on<R: Wait>(
    alloc: Global,
    rt: &R,
    desk: &mut Desk,
    reach: &mut Reach,
    taken: &Taken,
) -> bool
    requires may { DeskMayWant desk.old }
    requires of { IsOf taken.now desk.old }
    requires stands { IsStanding reach.old }
    ensures goes_on { result ≡ true → DeskMayWant desk.new }
    ensures done { result ≡ false → DeskIsDone desk.new }
    ensures of { IsOf taken.now desk.new }
    ensures serves { (l : LooperFacts) (start : ℕ) (so_far : List Step) → HasServed l start so_far desk.old reach.old → HasServed l start so_far desk.new reach.new }
    ensures stands { IsStanding reach.new }
    ensures opening { desk.new.opening ≡ desk.old.opening }
    ensures entries { desk.new.entries ≡ desk.old.entries }
    ensures keeps { KeepsReach reach.old reach.new }
{
    let Ok(want) = desk.want() else {
        return false;
    };
    if let Want::Done = want {
        return false;
    }
    let answer = reach.serve(alloc, rt, &taken.item, want);
    desk.give(answer);
    true
}

// Carries out what is begun, to its end.
fn carry_out<R: Wait>(alloc: Global, rt: &R, desk: &mut Desk, reach: &mut Reach, taken: &Taken)
    requires may { DeskMayWant desk.old }
    requires of { IsOf taken.now desk.old }
    requires stands { IsStanding reach.old }
    ensures done { DeskIsDone desk.new }
    ensures of { IsOf taken.now desk.new }
    ensures serves { (l : LooperFacts) (start : ℕ) (so_far : List Step) → HasServed l start so_far desk.old reach.old → HasServed l start so_far desk.new reach.new }
    ensures opening { desk.new.opening ≡ desk.old.opening }
    ensures entries { desk.new.entries ≡ desk.old.entries }
    ensures keeps { KeepsReach reach.old reach.new }
{
    for _ in rt.forever() {
        if !goes_on(alloc, rt, desk, reach, taken) {
            return;
        }
    }
    unreachable!()
}

// Carries the message out from its beginning to its entry. Where there is no memory to begin, it is given up.
fn carried<R: Wait>(
    alloc: Global,
    rt: &R,
    desk: &mut Desk,
    reach: &mut Reach,
    taken: &Taken,
) -> Made
    requires rest { desk.old.begun ≡ None }
    requires next { IsNext taken.now (looper_thread desk.old.opening.looper) desk.old.entries }
    requires looper { reach.old.number ≡ desk.old.opening.looper }
    requires last { stamp_in desk.old.entries < 2 ^ 63 }
    requires stands { IsStanding reach.old }
    ensures carried { (l : LooperFacts) (start : ℕ) (so_far : List Step) → Stands l start so_far reach.old → GoesOn l start so_far (CarriesOut l so_far desk.old.opening taken.now result desk.old.entries desk.new.entries) reach.new }
    ensures history { (after : DeskState) × IsHistory desk.new.opening desk.new.entries after }
    ensures opening { desk.new.opening ≡ desk.old.opening }
    ensures rest { desk.new.begun ≡ None }
    ensures keeps { KeepsReach reach.old reach.new }
{
    the_dispatches_are_its_own();
    // Reading the handlers shows that the list leads to them.
    let _state = desk.state();
    let Ok(()) = begin(desk, taken) else {
        reach.hands.clock.ready(rt);
        return desk.give_up(taken, &mut reach.hands.clock);
    };
    carry_out(alloc, rt, desk, reach, taken);
    reach.hands.clock.ready(rt);
    desk.end(&mut reach.hands.clock)
}

/// Dispatches the message in one turn of the desk. The gate is asked in that turn, before the message is routed, and once
/// more when the turn was passed on.
pub(crate) fn dispatch<R: Wait, G: Gate>(
    alloc: Global,
    rt: &R,
    desk: &TurnLock<Desk>,
    seat: &mut Seat<Desk>,
    reach: &mut Reach,
    gate: &G,
    taken: &Taken,
) -> Made
    requires of { seat.old.lock ≡ desk.now }
    requires idle { seat.old.turn ≡ false }
    requires thread { seat.old.thread ≡ reach.old.hands.clock.thread.0 }
    requires looper { IsDeskOf reach.old.number seat.old }
    requires next { IsNext taken.now seat.old.thread seat.old.front }
    requires stands { IsStanding reach.old }
    ensures dispatched { (l : LooperFacts) (start : ℕ) (so_far : List Step) → Stands l start so_far reach.old → DeskStands l so_far seat.old → HasDispatchedOne l start so_far taken.now result seat.new reach.new }
    ensures seat { KeepsSeat seat.old seat.new }
    ensures keeps { KeepsReach reach.old reach.new }
{
    let thread = reach.hands.clock.thread;
    let mut turn = desk.lock(rt, seat);
    gate.at(rt, thread, Point::BeforeDispatch);
    let made = carried(alloc, rt, turn.book(), reach, taken);
    turn.finish(seat);
    gate.at(rt, thread, Point::AfterDispatch);
    made
}
