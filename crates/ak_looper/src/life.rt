//! A looper's thread from its start to its end.
ghost use Rattle.std.specs.VecDeque.{deque_len, deque_capacity};
ghost use Rattle.std.specs.Prelude.{◌≡◌, ◌≢◌, ◌-◌, ◌&&◌, ◌||◌, not, ℕ, true, List, IfNone, IfSome};
ghost use Rattle.ak_port.specs.PortMachine.{state_of};
ghost use Rattle.ak_turn.specs.Called.{KeepsSeat};
ghost use Rattle.ak_diary.specs.Looper.{LooperFacts, is_closing};
ghost use Rattle.ak_diary.specs.Step.{Step};
ghost use Rattle.ak_diary.specs.Turns.{LeavesAll, LeavesOne};
ghost use Rattle.ak_looper.specs.Carrying.{IsDeskOf};
ghost use Rattle.ak_looper.specs.Job.{BeginsSo, EndsSo, HasLived, IsReady};
ghost use Rattle.ak_looper.specs.Living.{CanWork, ComesTo, GoesOnWorking, HasInHand, HasRestedSo, HasSettled, HasStopped, IsWorking, Later, after_of};
ghost use Rattle.ak_looper.specs.Stands.{GoesOn, IsStanding, Stands};
ghost use Rattle.ak_looper.specs.Ways.{KeepsPlaces, KeepsReach};

use crate::at_work::{After, Life};
use crate::desk_turn::dispatch;
use crate::door::Door;
use crate::duty::{Prepared, prepare};
use crate::job::{EndKind, LooperEnd, LooperJob};
use crate::reach::Reach;
use ak_desk::Made;
use ak_flatten::{Duty, Taken};
use ak_outside::Gate;
use ak_port::TakeAnswer;
use std::alloc::Global;
use std::collections::VecDeque;
use std::sync::Wait;

// What follows: it goes on, or closes for want of memory or since it is to quit.
fn after(short: bool, closing: bool) -> After
    ensures { result ≡ after_of short closing }
{
    if short {
        After::Closed(EndKind::NoMemory)
    } else if closing {
        After::Closed(EndKind::Quit)
    } else {
        After::GoesOn
    }
}

// A closing is due before the payment.
fn is_due(quit: bool, no_memory: bool, lacked: bool) -> bool
    ensures { result ≡ (quit || no_memory || lacked) }
{
    quit || no_memory || lacked
}

// It is due behind a payment that found no memory, where it was not before.
fn is_due_late(due: bool, paid: bool) -> bool
    ensures { result ≡ (not paid && not due) }
{
    !paid && !due
}

// What follows the payment.
fn after_payment(no_memory: bool, lacked: bool, due: bool, paid: bool) -> After
    ensures { result ≡ after_of (no_memory || lacked || not paid) (due || not paid) }
{
    after(no_memory || lacked || !paid, due || !paid)
}

// Pays what is owed for a message that was dispatched, and closes before that where that is due: after the quit mark, and
// after want of memory. Where memory is wanting only for the payment, it closes after it.
fn settle<R: Wait>(alloc: Global, rt: &R, reach: &mut Reach, owed: Duty, made: Made) -> After
    requires stands { IsStanding reach.old }
    ensures settled { (l : LooperFacts) (start : ℕ) (so_far : List Step) → Stands l start so_far reach.old → is_closing so_far ≡ (made.quit || made.no_memory) → GoesOn l start so_far (HasSettled l so_far owed made result) reach.new }
    ensures shut { result ≢ After.GoesOn → (state_of reach.new.port_seat.front).shut ≡ true }
    ensures keeps { KeepsReach reach.old reach.new }
{
    let Made {
        reply,
        quit,
        no_memory,
        forwarded: _,
    } = made;
    let Prepared { debt, lacked } = prepare(alloc, reach.team, owed, reply);
    let due = is_due(quit, no_memory, lacked);
    reach.close_if(rt, due);
    let paid = reach.pay(rt, debt);
    let late = is_due_late(due, paid);
    reach.close_if(rt, late);
    after_payment(no_memory, lacked, due, paid)
}

// The sender of an item gets no reply, where it waits for one.
fn leave_one<R: Wait>(rt: &R, reach: &mut Reach, owed: Duty)
    ensures goes { (l : LooperFacts) (start : ℕ) (so_far : List Step) → Stands l start so_far reach.old → GoesOn l start so_far (LeavesOne owed) reach.new }
    ensures keeps { KeepsReach reach.old reach.new }
{
    match owed {
        Duty::Slot(slot) => reach.fill_with_none(rt, slot),
        Duty::None | Duty::Back(_) => {}
    }
}

// Each waiting sender of what is left gets no reply.
fn leave_all<R: Wait>(rt: &R, reach: &mut Reach, left: VecDeque<Taken>)
    ensures goes { (l : LooperFacts) (start : ℕ) (so_far : List Step) → Stands l start so_far reach.old → GoesOn l start so_far (LeavesAll left.items) reach.new }
    ensures keeps { KeepsReach reach.old reach.new }
{
    for taken in left {
        leave_one(rt, reach, taken.item.duty());
    }
}

impl Life {
    // Takes one item, the oldest. None where its port is shut: then it took the rest into its queue.
    fn take_one<R: Wait>(&mut self, rt: &R) -> Option<Taken>
        requires can { CanWork self.old.reach (deque_capacity self.old.queue - deque_len self.old.queue) self.old.queue.items }
        ensures took { (l : LooperFacts) (start : ℕ) (work : List Step) → GoesOnWorking l start work self.old.reach self.old.desk_seat → IfSome result (λ taken. Later (λ so_far. HasInHand l start so_far taken self.new.reach self.new.desk_seat) work) }
        ensures rested { (l : LooperFacts) (start : ℕ) (work : List Step) → GoesOnWorking l start work self.old.reach self.old.desk_seat → IfNone result (HasRestedSo l start work EndKind.TeamClosed self.new.queue.items self.new.reach self.new.desk_seat) }
        ensures can { IfSome result (λ _. CanWork self.new.reach (deque_capacity self.new.queue - deque_len self.new.queue) self.new.queue.items) }
        ensures keeps { KeepsPlaces self.old.reach self.new.reach }
        ensures desk { (self.new.desk ≡ self.old.desk) × (self.new.desk_seat ≡ self.old.desk_seat) }
    {
        match self.reach.take(rt, &mut self.queue) {
            TakeAnswer::Took(_) => self.queue.pop_front(),
            TakeAnswer::Rest(_) => None,
        }
    }

    // Takes the rest of its port, which is shut.
    fn take_rest<R: Wait>(&mut self, rt: &R)
        requires can { CanWork self.old.reach (deque_capacity self.old.queue - deque_len self.old.queue) self.old.queue.items }
        requires shut { (state_of self.old.reach.port_seat.front).shut ≡ true }
        ensures rested { (l : LooperFacts) (start : ℕ) (work : List Step) (kind : EndKind) → HasStopped l start work kind self.old.reach self.old.desk_seat → HasRestedSo l start work kind self.new.queue.items self.new.reach self.new.desk_seat }
        ensures keeps { KeepsPlaces self.old.reach self.new.reach }
        ensures desk { (self.new.desk ≡ self.old.desk) × (self.new.desk_seat ≡ self.old.desk_seat) }
    {
        self.reach.take(rt, &mut self.queue);
    }

    // Dispatches the item in hand, and settles what follows from that.
    fn serve_one<R: Wait, G: Gate>(
        &mut self,
        alloc: Global,
        rt: &R,
        gate: &G,
        taken: Taken,
    ) -> After
        requires can { CanWork self.old.reach (deque_capacity self.old.queue - deque_len self.old.queue) self.old.queue.items }
        requires desk { IsDeskOf self.old.reach.number self.old.desk_seat }
        requires in_hand { (l : LooperFacts) × (start : ℕ) × (work : List Step) × HasInHand l start work taken self.old.reach self.old.desk_seat }
        ensures served { (l : LooperFacts) (start : ℕ) (work : List Step) → HasInHand l start work taken self.old.reach self.old.desk_seat → Later (λ so_far. ComesTo l start so_far result self.new.reach self.new.desk_seat) work }
        ensures can { CanWork self.new.reach (deque_capacity self.new.queue - deque_len self.new.queue) self.new.queue.items }
        ensures shut { result ≢ After.GoesOn → (state_of self.new.reach.port_seat.front).shut ≡ true }
        ensures keeps { KeepsReach self.old.reach self.new.reach }
        ensures desk { (self.new.desk ≡ self.old.desk) × KeepsSeat self.old.desk_seat self.new.desk_seat }
    {
        let owed = taken.item.duty();
        let made = dispatch(
            alloc,
            rt,
            &self.desk,
            &mut self.desk_seat,
            &mut self.reach,
            gate,
            &taken,
        );
        settle(alloc, rt, &mut self.reach, owed, made)
    }

    // Takes and dispatches, one item after the other, until it closes or is closed; then it has taken the rest.
    fn work<R: Wait, G: Gate>(&mut self, alloc: Global, rt: &R, gate: &G) -> EndKind
        requires can { CanWork self.old.reach (deque_capacity self.old.queue - deque_len self.old.queue) self.old.queue.items }
        requires desk { IsDeskOf self.old.reach.number self.old.desk_seat }
        requires working { IsWorking self.old.reach self.old.desk_seat }
        ensures rested { (l : LooperFacts) (start : ℕ) (work : List Step) → GoesOnWorking l start work self.old.reach self.old.desk_seat → Later (λ so_far. HasRestedSo l start so_far result self.new.queue.items self.new.reach self.new.desk_seat) work }
        ensures keeps { KeepsPlaces self.old.reach self.new.reach }
        ensures desk { (self.new.desk ≡ self.old.desk) × KeepsSeat self.old.desk_seat self.new.desk_seat }
    {
        for _ in rt.forever() {
            let Some(taken) = self.take_one(rt) else {
                return EndKind::TeamClosed;
            };
            if let After::Closed(kind) = self.serve_one(alloc, rt, gate, taken) {
                self.take_rest(rt);
                return kind;
            }
        }
        unreachable!()
    }
}

// The thread as it begins.
fn begun(job: LooperJob) -> Life
    requires { IsReady job }
    ensures working { BeginsSo job result }
{
    let LooperJob {
        number,
        team,
        first,
        loopers,
        hands,
        own,
        doors,
        queue,
        roster,
        roster_seat,
    } = job;
    let Door {
        port,
        port_seat,
        desk,
        desk_seat,
    } = own;
    let reach = Reach {
        number,
        team,
        first,
        loopers,
        hands,
        port,
        port_seat,
        doors,
        roster,
        roster_seat,
    };
    Life {
        reach,
        desk,
        desk_seat,
        queue,
    }
}

// What it gives back, once what is left was answered.
fn ended<R: Wait>(rt: &R, life: Life, kind: EndKind) -> LooperEnd
    ensures { EndsSo life kind result }
{
    let Life {
        mut reach,
        desk,
        desk_seat,
        queue,
    } = life;
    leave_all(rt, &mut reach, queue);
    let Reach {
        number,
        team: _,
        first: _,
        loopers: _,
        hands,
        port,
        port_seat,
        doors,
        roster: _,
        roster_seat,
    } = reach;
    LooperEnd {
        number,
        hands,
        own: Door {
            port,
            port_seat,
            desk,
            desk_seat,
        },
        doors,
        roster_seat,
        kind,
    }
}

/// The life of one looper, from its start to its end. It takes from its port, and dispatches each message on its desk in one
/// turn, until its port is shut: by itself, after a dispatch that tells it to end and after want of memory, or by others.
/// Then it takes the rest, and each waiting sender that is left gets no reply. What it made at its seats is one diary
/// that the rules allow, whatever other threads do meanwhile. It waits for turns, for items, for room and for replies;
/// that it returns is not promised. The gate is asked before a message is routed and after it was dispatched. (The Be Book, The Application Kit, BLooper: Run().)
pub fn run_looper<R: Wait, G: Gate>(job: LooperJob, gate: G, rt: &R) -> LooperEnd
    requires { IsReady job }
    ensures { HasLived job result }
{
    let alloc = *job.doors.allocator();
    let mut life = begun(job);
    let kind = life.work(alloc, rt, &gate);
    ended(rt, life, kind)
}
