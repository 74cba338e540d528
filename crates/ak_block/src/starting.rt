//! The threads of sessions.
ghost use Rattle.std.specs.Prelude.{◌≡◌, ◌≤◌, ◌<◌, ◌+◌, ◌++◌, ◌∷◌, [], length, vec_capacity, IfSome, IfNone, OnSome};
ghost use Rattle.ak_outside.specs.Faults.{Rose};
ghost use Rattle.ak_outside.specs.Spawner.{HasGivenBack, HasStarted};
ghost use Rattle.ak_lines.specs.Carried.{HasCarriedOut, IsReadyJob};
ghost use Rattle.ak_block.specs.Threads.{AreEnds, jobs_of};

use ak_lines::{SessionEnd, SessionJob, run_session};
use ak_outside::{Spawner, start_by};
use std::alloc::Global;
use std::snapshot::Snapshot;
use std::sync::Wait;
use std::thread::{Promise, PromisedHandle, Threads};

/// What a session's thread gives back is what came of that job.
#[derive(Drop)]
pub(crate) struct Carries(pub(crate) Snapshot<SessionJob>);

impl Promise<SessionEnd> for Carries {
    ghost use Rattle.ak_lines.specs.Carried.{HasCarriedOut};

    ghost kept_by = { λ p end. HasCarriedOut p.0.value end };
}

/// A session's thread that runs.
pub(crate) type Carrying = PromisedHandle<SessionEnd, Carries>;

/// Joins the threads, in order. What came of them stands behind the ends so far.
pub(crate) fn join_all<R: Threads>(rt: &R, running: Vec<Carrying>, ends: &mut Vec<SessionEnd>)
    requires room { length ends.old.items + length running.items ≤ vec_capacity ends.old }
    ensures joined { AreEnds (jobs_of running.items) ends.old.items ends.new.items }
    ensures capacity { vec_capacity ends.new ≡ vec_capacity ends.old }
{
    for handle in running {
        let end = handle.join(rt);
        ends.push_reserved(end);
    }
}

/// Starts a thread for that job, beside those that run. Where none is started, those that run are joined, and then the job is done here:
/// so all that was to be done is done, and the ends say what came of it.
pub(crate) fn start<W: Spawner, R: Threads + Wait + Copy + Send + 'static>(
    alloc: Global,
    rt: &R,
    spawner: &mut W,
    job: SessionJob,
    mut running: Vec<Carrying>,
    ends: &mut Vec<SessionEnd>,
) -> Option<Vec<Carrying>>
    requires ready { IsReadyJob job }
    requires room { length running.items < vec_capacity running }
    requires room_for_ends { length ends.old.items + length running.items + 1 ≤ vec_capacity ends.old }
    ensures started { IfSome result (λ running_now. (jobs_of running_now.items ≡ jobs_of running.items ++ job ∷ []) × (vec_capacity running_now ≡ vec_capacity running) × (ends.new ≡ ends.old)) }
    ensures refused { IfNone result (AreEnds (jobs_of running.items ++ job ∷ []) ends.old.items ends.new.items) }
    ensures kept { OnSome result (W.faults spawner.new ≡ W.faults spawner.old) }
    ensures cause { IfNone result (Rose (W.faults spawner.old) (W.faults spawner.new)) }
    ensures never_falls { W.faults spawner.old ≤ W.faults spawner.new }
    ensures asked { OnSome result (HasStarted (W.calls spawner.old) (W.calls spawner.new)) }
    ensures given_back { IfNone result (HasGivenBack (W.calls spawner.old) (W.calls spawner.new)) }
{
    let copy = *rt;
    let promise = Carries(Snapshot::of(&job));
    let work = move ||
        requires { IsReadyJob job }
        ensures { HasCarriedOut job result }
    {
        let job = job;
        run_session(alloc, &copy, job)
    };
    match start_by(spawner, rt, promise, work) {
        Ok(handle) => {
            running.push_reserved(handle);
            Some(running)
        }
        Err(work) => {
            join_all(rt, running, ends);
            let end = work();
            ends.push_reserved(end);
            None
        }
    }
}
