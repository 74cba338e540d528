//! Blocks of sessions.
ghost use Rattle.std.specs.Prelude.{◌≡◌, ◌≤◌, ◌<◌, ◌+◌, ℕ, List, [], length, vec_capacity, IfOk, IsErrOf, OnErr};
ghost use Rattle.ak_roster.specs.declared.head.AppHead.{AppHead};
ghost use Rattle.ak_outside.specs.Faults.{Rose};
ghost use Rattle.ak_describe.specs.Whole.{heads_of};
ghost use Rattle.ak_run.specs.Doing.{Does};
ghost use Rattle.ak_run.specs.Running.{IsRunning};
ghost use Rattle.ak_run.specs.Sending.{looper_count};
ghost use Rattle.ak_run.specs.Sessions.{Told, session_count, session_limit};
ghost use Rattle.ak_run.specs.Starts.{StartsAll, StartsButLast, StartsMore, StopsStarting, thread_count};
ghost use Rattle.ak_lines.specs.Carried.{IsReadyJob};
ghost use Rattle.ak_block.specs.Threads.{jobs_of};
ghost use Rattle.ak_block.specs.Together.{AreOpen, HasClosedAll, HasOpened, HasRunBlock, HasRunSessions};

use crate::starting::{Carrying, join_all, start};
use ak_base::NoMemory;
use ak_lines::{Outcome, SessionEnd, SessionJob};
use ak_outside::Spawner;
use ak_print::Told as Line;
use ak_run::Run;
use ak_script::{SessionLines, Together};
use std::alloc::Global;
use std::sync::Wait;
use std::thread::Threads;

/// Why no further session of a block is carried out.
#[derive(Clone, Copy, Debug, PartialEq, Eq)]
pub enum Cut {
    /// The thread of the last one could not be started: it was carried out here, once the others were joined.
    ThreadFault,
    /// Memory ran out for the next one.
    NoMemory,
}

/// What a session came to: of its lines that were carried out the outcomes, what is told of them, and whether it found no memory for the
/// next one.
#[derive(Drop)]
pub struct Heard {
    pub outcomes: Vec<Outcome>,
    pub tolds: Vec<Line>,
    pub short: bool,
}

// Opens the next session, for these lines. Where memory ran out, none is opened.
fn open(alloc: Global, run: &mut Run, lines: &SessionLines) -> Result<SessionJob, NoMemory>
    requires running { IsRunning run.old }
    requires few { session_count run.old < session_limit }
    ensures opened { HasOpened (heads_of run.old.apps.items) lines.now result run.old run.new }
    ensures ready { IfOk result IsReadyJob }
    ensures running { IsRunning run.new }
    ensures count { looper_count run.new ≡ looper_count run.old }
    ensures apps { run.new.apps ≡ run.old.apps }
{
    let lines = lines.try_clone(alloc)?;
    let outcomes = Vec::with_capacity(alloc, lines.lines.len())?;
    let tolds = Vec::with_capacity(alloc, lines.lines.len())?;
    let session = run.open_session()?;
    Ok(SessionJob {
        lines,
        session,
        outcomes,
        tolds,
    })
}

// Opens the sessions and starts a thread for each, one after the other, and waits for all. It ends early where there is no memory for a
// session, or no thread; then those that were opened are carried out all the same. Room is there for as many as there are.
fn run_sessions<W: Spawner, R: Threads + Wait + Copy + Send + 'static>(
    alloc: Global,
    rt: &R,
    run: &mut Run,
    spawner: &mut W,
    sessions: &[SessionLines],
    mut running: Vec<Carrying>,
    ends: &mut Vec<SessionEnd>,
) -> Result<(), Cut>
    requires running { IsRunning run.old }
    requires few { session_count run.old + length sessions.now ≤ session_limit }
    requires none_running { running.items ≡ [] }
    requires no_ends { ends.old.items ≡ [] }
    requires room { length sessions.now ≤ vec_capacity running }
    requires room_for_ends { length sessions.now ≤ vec_capacity ends.old }
    ensures ran { HasRunSessions (heads_of run.old.apps.items) sessions.now result run.old run.new ends.new.items }
    ensures cause { IsErrOf result Cut.ThreadFault → Rose (W.faults spawner.old) (W.faults spawner.new) }
    ensures kept { ¬ (IsErrOf result Cut.ThreadFault) → W.faults spawner.new ≡ W.faults spawner.old }
    ensures never_falls { W.faults spawner.old ≤ W.faults spawner.new }
    ensures starts { ¬ (IsErrOf result Cut.ThreadFault) → StartsAll (length ends.new.items) (W.calls spawner.old) (W.calls spawner.new) }
    ensures stops_starting { IsErrOf result Cut.ThreadFault → StartsButLast (length ends.new.items) (W.calls spawner.old) (W.calls spawner.new) }
    ensures running { IsRunning run.new }
    ensures count { looper_count run.new ≡ looper_count run.old }
    ensures apps { run.new.apps ≡ run.old.apps }
{
    for lines in sessions {
        let Ok(job) = open(alloc, run, lines) else {
            join_all(rt, running, ends);
            return Err(Cut::NoMemory);
        };
        running = match start(alloc, rt, spawner, job, running, ends) {
            Some(running) => running,
            None => return Err(Cut::ThreadFault),
        };
    }
    join_all(rt, running, ends);
    Ok(())
}

// Closes the sessions, and keeps what each came to.
fn close_all<R: Wait>(rt: &R, run: &mut Run, ends: Vec<SessionEnd>, heard: &mut Vec<Heard>)
    requires running { IsRunning run.old }
    requires opened { (heads : List AppHead) × (before : List Told) × (time : ℕ) × (from : ℕ) × (sessions : List SessionLines) × AreOpen heads before time from sessions run.old ends.items }
    requires none { heard.old.items ≡ [] }
    requires room { length ends.items ≤ vec_capacity heard.old }
    ensures kept { (heads : List AppHead) (before : List Told) (time from : ℕ) (sessions : List SessionLines) → AreOpen heads before time from sessions run.old ends.items → HasClosedAll heads before time from sessions run.old run.new heard.new.items }
    ensures running { IsRunning run.new }
    ensures count { looper_count run.new ≡ looper_count run.old }
    ensures apps { run.new.apps ≡ run.old.apps }
{
    for end in ends {
        let SessionEnd {
            outcomes,
            tolds,
            session,
            short,
        } = end;
        run.close_session(rt, session);
        heard.push_reserved(Heard {
            outcomes,
            tolds,
            short,
        });
    }
}

/// Carries the sessions of a block out, side by side. With what each came to, in order, comes why it ended early. `NoMemory` where there was
/// no room for it: then nothing was done.
pub fn together<W: Spawner, R: Threads + Wait + Copy + Send + 'static>(
    alloc: Global,
    rt: &R,
    run: &mut Run,
    block: &Together,
    spawner: &mut W,
) -> Result<(Vec<Heard>, Result<(), Cut>), NoMemory>
    requires running { IsRunning run.old }
    requires few { session_count run.old + length block.now.sessions.items ≤ session_limit }
    ensures ran { IfOk result (λ ran. HasRunBlock (heads_of run.old.apps.items) block.now.sessions.items ran.1 run.old run.new ran.0.items) }
    ensures cause { IfOk result (λ ran. IsErrOf ran.1 Cut.ThreadFault → Rose (W.faults spawner.old) (W.faults spawner.new)) }
    ensures kept { IfOk result (λ ran. ¬ (IsErrOf ran.1 Cut.ThreadFault) → W.faults spawner.new ≡ W.faults spawner.old) }
    ensures nothing { OnErr result (run.new ≡ run.old) }
    ensures spawner { OnErr result (W.faults spawner.new ≡ W.faults spawner.old) }
    ensures not_asked { OnErr result (W.calls spawner.new ≡ W.calls spawner.old) }
    ensures never_falls { W.faults spawner.old ≤ W.faults spawner.new }
    ensures starts { IfOk result (λ ran. ¬ (IsErrOf ran.1 Cut.ThreadFault) → StartsMore (thread_count run.old) (thread_count run.new) (W.calls spawner.old) (W.calls spawner.new)) }
    ensures stops_starting { IfOk result (λ ran. IsErrOf ran.1 Cut.ThreadFault → StopsStarting 1 (thread_count run.old) (thread_count run.new) (W.calls spawner.old) (W.calls spawner.new)) }
    ensures running { IsRunning run.new }
    ensures apps { run.new.apps ≡ run.old.apps }
{
    let sessions = block.sessions.as_slice();
    let running = Vec::with_capacity(alloc, sessions.len())?;
    let mut ends = Vec::with_capacity(alloc, sessions.len())?;
    let mut heard = Vec::with_capacity(alloc, sessions.len())?;
    let came = run_sessions(alloc, rt, run, spawner, sessions, running, &mut ends);
    close_all(rt, run, ends, &mut heard);
    Ok((heard, came))
}
