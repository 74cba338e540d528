//! A looper that is about to start.
ghost use Rattle.std.specs.Prelude.{◌≡◌, ◌≤◌, ℕ, List, IfOk};
ghost use Rattle.ak_action.specs.declared.plan.PlanParts.{PlanParts};
ghost use Rattle.ak_team.specs.NewLooper.{IsNewOther, IsNewOwn};
ghost use Rattle.ak_team.specs.Opening.{IsOpenedAt, opened_front};
ghost use Rattle.ak_team.specs.InTime.{new_front};

use crate::doors::{keep_door, part_door};
use crate::launching::Team;
use crate::opening::Opened;
use ak_base::{NoMemory, ThreadId};
use ak_flatten::Taken;
use ak_looper::{Door, KeptDoor, LooperJob, Shared};
use ak_messenger::Hands;
use ak_port::ReplyBook;
use ak_roster::RosterBook;
use ak_turn::{Clock, Seat};
use std::collections::VecDeque;

/// What a looper is started with, but for its seats at what all threads share.
#[derive(Drop)]
pub struct NewLooper {
    /// Its number.
    pub number: u32,
    /// Main's door to it.
    pub door: Door,
    /// Its own.
    pub own: Door,
    /// What it takes into.
    pub queue: VecDeque<Taken>,
    /// What it shares with all threads of the run.
    pub shared: Shared,
}

/// An application's own looper, and the door to it that the roster is to keep.
#[derive(Drop)]
pub(crate) struct Own {
    pub(crate) looper: NewLooper,
    pub(crate) kept: KeptDoor,
}

/// Another looper, with the own looper's door to it and the one that the roster is to keep.
#[derive(Drop)]
pub(crate) struct Other {
    pub(crate) looper: NewLooper,
    pub(crate) way: Door,
    pub(crate) kept: KeptDoor,
}

/// The application's own looper, whose port and desk were made.
pub(crate) fn new_own(opened: Opened, shared: &Shared) -> Result<Own, NoMemory>
    requires opened { (plans : List PlanParts) × (team : ℕ) × (first : ℕ) × IsOpenedAt plans team first 0 opened }
    ensures own { (plans : List PlanParts) (team first : ℕ) → IsOpenedAt plans team first 0 opened → IfOk result (IsNewOwn plans team first shared.now) }
    ensures front { IfOk result (λ o. new_front o.looper ≡ opened_front opened) }
{
    let Opened {
        number,
        mut door,
        queue,
    } = opened;
    let own = part_door(&mut door, ThreadId::looper(number))?;
    let kept = keep_door(&mut door)?;
    let looper = NewLooper {
        number,
        door,
        own,
        queue,
        shared: shared.try_clone()?,
    };
    Ok(Own { looper, kept })
}

/// Another looper of the team with that first one, whose port and desk were made.
pub(crate) fn new_other(opened: Opened, first: u32, shared: &Shared) -> Result<Other, NoMemory>
    requires opened { (plans : List PlanParts) × (team : ℕ) × (k : ℕ) × (1 ≤ k) × IsOpenedAt plans team first k opened }
    ensures other { (plans : List PlanParts) (team k : ℕ) → IsOpenedAt plans team first k opened → IfOk result (IsNewOther plans team first shared.now k) }
    ensures front { IfOk result (λ o. new_front o.looper ≡ opened_front opened) }
{
    let Opened {
        number,
        mut door,
        queue,
    } = opened;
    let own = part_door(&mut door, ThreadId::looper(number))?;
    let way = part_door(&mut door, ThreadId::looper(first))?;
    let kept = keep_door(&mut door)?;
    let looper = NewLooper {
        number,
        door,
        own,
        queue,
        shared: shared.try_clone()?,
    };
    Ok(Other { looper, way, kept })
}

impl NewLooper {
    ghost use Rattle.ak_roster.specs.declared.head.AppHead.{AppHead};
    ghost use Rattle.ak_looper.specs.Job.{IsReady};
    ghost use Rattle.ak_team.specs.Jobs.{CanStart, IsJobOf};

    /// Main's door to it, and what its thread is started with.
    pub fn into_job(
        self,
        team: Team,
        ways: Vec<(u32, Door)>,
        book_seat: Seat<ReplyBook>,
        roster_seat: Seat<RosterBook<KeptDoor>>,
    ) -> (Door, LooperJob)
        requires start { (heads : List AppHead) × (plans : List PlanParts) × (k : ℕ) × CanStart heads plans k team self ways.items book_seat roster_seat }
        ensures door { result.0 ≡ self.door }
        ensures job { IsJobOf team self book_seat roster_seat result.1 }
        ensures ready { IsReady result.1 }
    {
        let NewLooper {
            number,
            door,
            own,
            queue,
            shared,
        } = self;
        let Shared { book, roster } = shared;
        let hands = Hands {
            clock: Clock {
                thread: ThreadId::looper(number),
                time: team.time,
            },
            book,
            book_seat,
        };
        let job = LooperJob {
            number,
            team: team.number,
            first: team.first,
            loopers: team.loopers,
            hands,
            own,
            doors: ways,
            queue,
            roster,
            roster_seat,
        };
        (door, job)
    }
}
