//! Starting the thread of a looper.
ghost use Rattle.std.specs.Prelude.{◌≡◌, ◌≤◌, length, IfOk, IfErr, OnOk, OnErr};
ghost use Rattle.ak_base.specs.Thread.{main_thread};
ghost use Rattle.ak_outside.specs.Faults.{Rose};
ghost use Rattle.ak_outside.specs.Spawner.{HasGivenBack, HasStarted};
ghost use Rattle.ak_diary.specs.Turns.{Shuts};
ghost use Rattle.ak_looper.specs.Job.{HasLived, IsReady};
ghost use Rattle.ak_run.specs.Members.{StillLeads};
ghost use Rattle.ak_run.specs.Recording.{RecordsAtNew};
ghost use Rattle.ak_run.specs.Running.{IsStanding};
ghost use Rattle.ak_run.specs.Starting.{GoesOnAtNew};
ghost use Rattle.ak_run.specs.Stopping.{StopsAtNew};

use crate::run::Run;
use ak_gather::Lives;
use ak_looper::{Door, LooperEnd, LooperJob, run_looper};
use ak_outside::{Gate, Spawner, start_by};
use ak_port::close;
use ak_team::Team;
use std::snapshot::Snapshot;
use std::sync::Wait;
use std::thread::{PromisedHandle, Threads};

impl Run {
    /// Starts a thread for the looper of that job, to which the door leads. Where none is started, its team is stopped and its
    /// port is shut before the looper lives here: so it takes the rest of its port and ends.
    pub(crate) fn start_looper<
        W: Spawner,
        G: Gate + 'static,
        R: Threads + Wait + Copy + Send + 'static,
    >(
        &mut self,
        rt: &R,
        spawner: &mut W,
        gate: G,
        job: LooperJob,
        team: Team,
        door: &mut Door,
    ) -> Result<PromisedHandle<LooperEnd, Lives>, LooperEnd>
        requires stands { IsStanding self.old }
        requires ready { IsReady job }
        requires main { door.old.port_seat.thread ≡ main_thread }
        requires first { team.first ≤ length self.old.members.items }
        ensures ok { IfOk result (λ handle. handle.promise.0.value ≡ job) }
        ensures started { OnOk result (HasStarted (W.calls spawner.old) (W.calls spawner.new)) }
        ensures kept { OnOk result (W.faults spawner.new ≡ W.faults spawner.old) }
        ensures lived { IfErr result (λ end. HasLived job end) }
        ensures given_back { OnErr result (HasGivenBack (W.calls spawner.old) (W.calls spawner.new)) }
        ensures cause { OnErr result (Rose (W.faults spawner.old) (W.faults spawner.new)) }
        ensures never_falls { W.faults spawner.old ≤ W.faults spawner.new }
        ensures run { GoesOnAtNew self.old self.new }
        ensures stops { OnErr result (StopsAtNew team door.old.port_seat.front door.new.port_seat.front self.old self.new) }
        ensures quiet { OnOk result (self.new ≡ self.old) }
        ensures door { StillLeads door.old door.new }
        ensures door_kept { OnOk result (door.new ≡ door.old) }
    {
        let copy = *rt;
        let promise = Lives(Snapshot::of(&job));
        let work = move ||
            requires { IsReady job }
            ensures { HasLived job result }
        { run_looper(job, gate, &copy) };
        match start_by(spawner, rt, promise, work) {
            Ok(handle) => Ok(handle),
            Err(work) => {
                self.stop_team(rt, team);
                self.shut_door(rt, door);
                Err(work())
            }
        }
    }

    /// The looper of that job, to which the door leads, lives here, since its team was stopped. Its port is shut before.
    pub(crate) fn live_here<G: Gate, R: Wait>(
        &mut self,
        rt: &R,
        gate: G,
        job: LooperJob,
        door: &mut Door,
    ) -> LooperEnd
        requires ready { IsReady job }
        requires main { door.old.port_seat.thread ≡ main_thread }
        ensures lived { HasLived job result }
        ensures run { GoesOnAtNew self.old self.new }
        ensures shut { RecordsAtNew (Shuts (length self.old.members.items)) door.old.port_seat.front door.new.port_seat.front self.old self.new }
        ensures door { StillLeads door.old door.new }
    {
        self.shut_door(rt, door);
        run_looper(job, gate, rt)
    }

    // Shuts the port to which the door leads, of the looper that follows those that main has.
    fn shut_door<R: Wait>(&mut self, rt: &R, door: &mut Door)
        requires main { door.old.port_seat.thread ≡ main_thread }
        ensures run { GoesOnAtNew self.old self.new }
        ensures shut { RecordsAtNew (Shuts (length self.old.members.items)) door.old.port_seat.front door.new.port_seat.front self.old self.new }
        ensures door { StillLeads door.old door.new }
    {
        close(&door.port, rt, &mut door.port_seat, &mut self.hands.clock);
    }
}
