//! Starting the loopers of a team.
ghost use Rattle.std.specs.Prelude.{◌≡◌, ◌+◌, ◌≤◌, ℕ, List, None, length, IfOk, IsFalse, IsTrue};
ghost use Rattle.ak_base.specs.Limits.{app_looper_limit};
ghost use Rattle.ak_base.specs.Thread.{main_thread};
ghost use Rattle.ak_outside.specs.Faults.{Rose};
ghost use Rattle.ak_outside.specs.Spawner.{HasGivenBack, HasStarted};
ghost use Rattle.ak_turn.specs.Seats.{new_seat};
ghost use Rattle.ak_turn.specs.Steps.{IsNewName};
ghost use Rattle.ak_action.specs.declared.plan.PlanParts.{PlanParts};
ghost use Rattle.ak_roster.specs.declared.head.AppHead.{AppHead};
ghost use Rattle.ak_diary.specs.Turns.{Shuts};
ghost use Rattle.ak_looper.specs.declared.kept_door.KeptDoor.{KeptDoor};
ghost use Rattle.ak_looper.specs.Job.{IsReady};
ghost use Rattle.ak_gather.specs.Members.{IsLifeOf};
ghost use Rattle.ak_run.specs.Members.{StillLeads};
ghost use Rattle.ak_run.specs.Recording.{RecordsAtNew, RecordsSo, RecordsStart, StartsQuietly, fronts_of, fronts_with};
ghost use Rattle.ak_team.specs.InTime.{team_fronts};
ghost use Rattle.ak_run.specs.Running.{IsStanding};
ghost use Rattle.ak_run.specs.Starting.{GoesOnAtNew, GoesOnWith, HasSplit, MayStart, MayStartTeam};
ghost use Rattle.ak_run.specs.Starts.{StartsAll, StartsSome};
ghost use Rattle.ak_run.specs.Stopping.{Stops, StopsAtNew, StopsStart};

use crate::run::Run;
use ak_base::{APP_LOOPER_LIMIT, NoMemory, ThreadId};
use ak_gather::{Life, Member};
use ak_looper::{Door, KeptDoor, LooperJob};
use ak_outside::{Gate, Spawner};
use ak_port::ReplyBook;
use ak_roster::RosterBook;
use ak_team::{NewLooper, NewTeam, Team};
use ak_turn::{Seat, new_seats_know};
use std::alloc::Global;
use std::snapshot::Snapshot;
use std::sync::Wait;
use std::thread::Threads;

/// A gate for each looper that an application may have.
pub(crate) fn clones<G: Gate>(alloc: Global, gate: &G) -> Result<Vec<G>, NoMemory>
    ensures { IfOk result (λ gates. length gates.items ≡ app_looper_limit) }
{
    let mut gates = Vec::with_capacity(alloc, APP_LOOPER_LIMIT as usize)?;
    for _ in 0..APP_LOOPER_LIMIT {
        gates.push(gate.clone()?)?;
    }
    Ok(gates)
}

fn next_gate<G: Gate>(gates: &mut Vec<G>) -> G
    requires { 1 ≤ length gates.old.items }
    ensures { length gates.old.items ≡ length gates.new.items + 1 }
{
    match gates.pop() {
        Some(gate) => gate,
        None => unreachable!(),
    }
}

impl Run {
    /// Starts each looper of the team, in order. False where a thread could not be started.
    pub(crate) fn start_team<
        W: Spawner,
        G: Gate + 'static,
        R: Threads + Wait + Copy + Send + 'static,
    >(&mut self, rt: &R, spawner: &mut W, gates: Vec<G>, team: Team, new: NewTeam) -> bool
        requires start { (heads : List AppHead) × (plans : List PlanParts) × (kept : List KeptDoor) × MayStartTeam heads plans kept team new self.old }
        requires gates { team.loopers ≤ length gates.items }
        ensures started { GoesOnWith team.loopers self.old self.new }
        ensures quiet { IsTrue result → fronts_of self.new ≡ fronts_with self.old (team_fronts new) }
        ensures stops { IsFalse result → RecordsSo (Stops team self.old team.loopers) (fronts_with self.old (team_fronts new)) (fronts_of self.new) }
        ensures kept { IsTrue result → W.faults spawner.new ≡ W.faults spawner.old }
        ensures cause { IsFalse result → Rose (W.faults spawner.old) (W.faults spawner.new) }
        ensures never_falls { W.faults spawner.old ≤ W.faults spawner.new }
        ensures asked { IsTrue result → StartsAll team.loopers (W.calls spawner.old) (W.calls spawner.new) }
        ensures given_back { IsFalse result → StartsSome team.loopers (W.calls spawner.old) (W.calls spawner.new) }
    {
        let alloc = *self.members.allocator();
        let NewTeam { own, others, ways } = new;
        let mut gates = gates;
        let gate = next_gate(&mut gates);
        let mut all = self.start_one(rt, spawner, gate, team, own, ways, true);
        for other in others {
            let gate = next_gate(&mut gates);
            all = self.start_one(rt, spawner, gate, team, other, Vec::new(alloc), all);
        }
        all
    }

    /// Seats of that thread at what all share.
    pub(crate) fn split_seats(
        &mut self,
        thread: ThreadId,
    ) -> (Seat<ReplyBook>, Seat<RosterBook<KeptDoor>>)
        requires book_new { IsNewName self.old.hands.book_seat.names thread.0 }
        requires roster_new { IsNewName self.old.roster_seat.names thread.0 }
        ensures book { result.0 ≡ new_seat thread.0 None self.old.hands.book_seat }
        ensures roster { result.1 ≡ new_seat thread.0 None self.old.roster_seat }
        ensures split { HasSplit thread.0 self.old self.new }
    {
        new_seats_know::<ReplyBook>();
        new_seats_know::<RosterBook<KeptDoor>>();
        let book_seat = self.shared.book.split(&mut self.hands.book_seat, thread);
        let roster_seat = self.shared.roster.split(&mut self.roster_seat, thread);
        (book_seat, roster_seat)
    }

    // The life of the looper of that job, to which the door leads: in a thread of its own, if one is to be started and could be.
    // With it stands whether it was.
    fn life_of<W: Spawner, G: Gate + 'static, R: Threads + Wait + Copy + Send + 'static>(
        &mut self,
        rt: &R,
        spawner: &mut W,
        gate: G,
        job: LooperJob,
        team: Team,
        door: &mut Door,
        start: bool,
    ) -> (Life, bool)
        requires stands { IsStanding self.old }
        requires ready { IsReady job }
        requires main { door.old.port_seat.thread ≡ main_thread }
        requires first { team.first ≤ length self.old.members.items }
        ensures life { IsLifeOf job result.0 }
        ensures run { GoesOnAtNew self.old self.new }
        ensures door { StillLeads door.old door.new }
        ensures only { IsTrue result.1 → IsTrue start }
        ensures stops { IsTrue start → IsFalse result.1 → StopsAtNew team door.old.port_seat.front door.new.port_seat.front self.old self.new }
        ensures shut { IsFalse start → RecordsAtNew (Shuts (length self.old.members.items)) door.old.port_seat.front door.new.port_seat.front self.old self.new }
        ensures quiet { IsTrue result.1 → self.new ≡ self.old }
        ensures door_kept { IsTrue result.1 → door.new ≡ door.old }
        ensures kept { IsTrue result.1 → W.faults spawner.new ≡ W.faults spawner.old }
        ensures cause { IsTrue start → IsFalse result.1 → Rose (W.faults spawner.old) (W.faults spawner.new) }
        ensures never_falls { W.faults spawner.old ≤ W.faults spawner.new }
        ensures asked { IsTrue result.1 → HasStarted (W.calls spawner.old) (W.calls spawner.new) }
        ensures given_back { IsTrue start → IsFalse result.1 → HasGivenBack (W.calls spawner.old) (W.calls spawner.new) }
        ensures not_asked { IsFalse start → W.calls spawner.new ≡ W.calls spawner.old }
    {
        if !start {
            return (Life::Over(self.live_here(rt, gate, job, door)), false);
        }
        match self.start_looper(rt, spawner, gate, job, team, door) {
            Ok(handle) => (Life::Running(handle), true),
            Err(end) => (Life::Over(end), false),
        }
    }

    // Starts one looper, unless another one of its team could not be started.
    fn start_one<W: Spawner, G: Gate + 'static, R: Threads + Wait + Copy + Send + 'static>(
        &mut self,
        rt: &R,
        spawner: &mut W,
        gate: G,
        team: Team,
        new: NewLooper,
        ways: Vec<(u32, Door)>,
        start: bool,
    ) -> bool
        requires start { (heads : List AppHead) × (plans : List PlanParts) × (k : ℕ) × MayStart heads plans k team new ways.items self.old }
        ensures started { GoesOnWith 1 self.old self.new }
        ensures only { IsTrue result → IsTrue start }
        ensures quiet { IsTrue result → StartsQuietly new.door.port_seat.front self.old self.new }
        ensures stops { IsTrue start → IsFalse result → StopsStart team new.door.port_seat.front self.old self.new }
        ensures shut { IsFalse start → RecordsStart (Shuts (length self.old.members.items)) new.door.port_seat.front self.old self.new }
        ensures kept { IsTrue result → W.faults spawner.new ≡ W.faults spawner.old }
        ensures cause { IsTrue start → IsFalse result → Rose (W.faults spawner.old) (W.faults spawner.new) }
        ensures never_falls { W.faults spawner.old ≤ W.faults spawner.new }
        ensures asked { IsTrue result → HasStarted (W.calls spawner.old) (W.calls spawner.new) }
        ensures given_back { IsTrue start → IsFalse result → HasGivenBack (W.calls spawner.old) (W.calls spawner.new) }
        ensures not_asked { IsFalse start → W.calls spawner.new ≡ W.calls spawner.old }
    {
        let number = new.number;
        let (book_seat, roster_seat) = self.split_seats(ThreadId::looper(number));
        let (mut door, job) = new.into_job(team, ways, book_seat, roster_seat);
        let snapshot = Snapshot::of(&job);
        let (life, started) = self.life_of(rt, spawner, gate, job, team, &mut door, start);
        self.members.push_reserved(Member {
            number,
            door,
            job: snapshot,
            life,
        });
        started
    }
}
