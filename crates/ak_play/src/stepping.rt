//! Statements, one after the other.
ghost use Rattle.std.specs.Prelude.{◌≡◌, ◌≤◌, ◌+◌, ◌-◌, [], Some, length, true, IsErrOf, OnOk};
ghost use Rattle.ak_outside.specs.Faults.{Rose};
ghost use Rattle.ak_run.specs.Running.{IsRunning};
ghost use Rattle.ak_run.specs.Sending.{looper_count};
ghost use Rattle.ak_run.specs.Sessions.{all_closed, session_count, sessions_of};
ghost use Rattle.ak_run.specs.Doing.{DoesSo, HasDoneSoFar};
ghost use Rattle.ak_run.specs.Starts.{StartsMore, StopsStarting, thread_count};
ghost use Rattle.ak_script.specs.Limits.{statement_limit};
ghost use Rattle.ak_script.specs.Statement.{lines_in, lines_of};
ghost use Rattle.ak_script.specs.StatementSeen.{statement_seen, statements_seen};
ghost use Rattle.ak_play.specs.Blocks.{IsAlone};
ghost use Rattle.ak_play.specs.Gathered.{HasRoom, KeepsRoom, gathered_seen, nothing_gathered};
ghost use Rattle.ak_play.specs.Parts.{sessions_in};
ghost use Rattle.ak_play.specs.Steps.{CarriesOut, HasStepped, IsPlayedTo, IsThreadFault, StopsBeforeLines, refusable};

use crate::asking::hey;
use crate::gathered::Gathered;
use crate::launching::launch;
use crate::locking::lock;
use crate::posting::post;
use crate::stop::{Stop, lines_told};
use crate::telling::{tell, tell_sessions};
use ak_block::{Cut, together};
use ak_lines::Came;
use ak_outside::{Gate, Sink, Spawner};
use ak_run::Run;
use ak_script::{Statement, Together};
use std::alloc::Global;
use std::sync::Wait;
use std::thread::Threads;

// Carries out one statement that is no block.
fn carry_out<W: Spawner, G: Gate + 'static, R: Threads + Wait + Copy + Send + 'static>(
    rt: &R,
    run: &mut Run,
    statement: &Statement,
    spawner: &mut W,
    gate: &G,
) -> Result<Came, Stop>
    requires running { IsRunning run.old }
    requires alone { IsAlone statement.now }
    ensures did { DoesSo (CarriesOut run.old.apps.items statement.now result) run.old run.new }
    ensures not_written { IsErrOf result Stop.WriteFault → ⊥ }
    ensures lines { StopsBeforeLines result }
    ensures cause { IsThreadFault result → Rose (W.faults spawner.old) (W.faults spawner.new) }
    ensures kept { ¬ (IsThreadFault result) → W.faults spawner.new ≡ W.faults spawner.old }
    ensures never_falls { W.faults spawner.old ≤ W.faults spawner.new }
    ensures starts { ¬ (IsThreadFault result) → StartsMore (thread_count run.old) (thread_count run.new) (W.calls spawner.old) (W.calls spawner.new) }
    ensures stops_starting { IsThreadFault result → StopsStarting (refusable statement.now (thread_count run.new - thread_count run.old)) (thread_count run.old) (thread_count run.new) (W.calls spawner.old) (W.calls spawner.new) }
    ensures running { IsRunning run.new }
    ensures apps { run.new.apps ≡ run.old.apps }
    ensures sessions { sessions_of run.new ≡ sessions_of run.old }
{
    match statement {
        Statement::Launch(statement) => launch(run, rt, spawner, gate, statement),
        Statement::Hey(statement) => Ok(hey(run, rt, statement)?),
        Statement::Post(statement) => Ok(post(run, rt, statement)?),
        Statement::Lock(statement) => Ok(lock(run, rt, statement)?),
        Statement::Together(_) => unreachable!(),
    }
}

// Carries out a block, writes its lines once all its sessions are joined, and gathers what they came to. Of a block that was cut they are
// written too, as far as it goes.
fn play_block<K: Sink, W: Spawner, R: Threads + Wait + Copy + Send + 'static>(
    alloc: Global,
    rt: &R,
    run: &mut Run,
    block: &Together,
    gathered: &mut Gathered,
    sink: &mut K,
    spawner: &mut W,
) -> Result<(), Stop>
    requires running { IsRunning run.old }
    requires closed { all_closed run.old ≡ true }
    requires few { session_count run.old + length block.now.sessions.items ≤ statement_limit }
    requires room { HasRoom (lines_of (statement_seen (Statement.Together block.now))) gathered.old }
    ensures stepped { HasStepped run.old.apps.items (Statement.Together block.now) (gathered_seen gathered.old) (gathered_seen gathered.new) run.old run.new (K.written sink.old) (K.written sink.new) (Rose (K.faults sink.old) (K.faults sink.new)) (K.faults sink.new ≡ K.faults sink.old) result }
    ensures kept { KeepsRoom gathered.old gathered.new }
    ensures write_fault { IsErrOf result Stop.WriteFault → Rose (K.faults sink.old) (K.faults sink.new) }
    ensures sink_kept { OnOk result (K.faults sink.new ≡ K.faults sink.old) }
    ensures sink_never_falls { K.faults sink.old ≤ K.faults sink.new }
    ensures thread_fault { IsThreadFault result → Rose (W.faults spawner.old) (W.faults spawner.new) }
    ensures spawner_kept { ¬ (IsThreadFault result) → W.faults spawner.new ≡ W.faults spawner.old }
    ensures spawner_never_falls { W.faults spawner.old ≤ W.faults spawner.new }
    ensures starts { ¬ (IsThreadFault result) → StartsMore (thread_count run.old) (thread_count run.new) (W.calls spawner.old) (W.calls spawner.new) }
    ensures stops_starting { IsThreadFault result → StopsStarting 1 (thread_count run.old) (thread_count run.new) (W.calls spawner.old) (W.calls spawner.new) }
    ensures running { IsRunning run.new }
    ensures closed { all_closed run.new ≡ true }
    ensures apps { run.new.apps ≡ run.old.apps }
{
    let from = run.sessions() + 1;
    gathered.make_room(block.sessions.len())?;
    let (heard, came) = together(alloc, rt, run, block, spawner)?;
    let told = tell_sessions(alloc, heard.as_slice(), sink);
    gathered.push_sessions(heard, from);
    match came {
        Ok(()) => Ok(told?),
        Err(Cut::NoMemory) => Err(Stop::NoMemory(lines_told(told))),
        Err(Cut::ThreadFault) => Err(Stop::ThreadFault(lines_told(told))),
    }
}

// Carries out one statement, writes its lines, and gathers what it came to.
fn step<K: Sink, W: Spawner, G: Gate + 'static, R: Threads + Wait + Copy + Send + 'static>(
    alloc: Global,
    rt: &R,
    run: &mut Run,
    statement: &Statement,
    gathered: &mut Gathered,
    sink: &mut K,
    spawner: &mut W,
    gate: &G,
) -> Result<(), Stop>
    requires running { IsRunning run.old }
    requires closed { all_closed run.old ≡ true }
    requires few { session_count run.old + sessions_in statement.now ≤ statement_limit }
    requires room { HasRoom (lines_of (statement_seen statement.now)) gathered.old }
    ensures stepped { HasStepped run.old.apps.items statement.now (gathered_seen gathered.old) (gathered_seen gathered.new) run.old run.new (K.written sink.old) (K.written sink.new) (Rose (K.faults sink.old) (K.faults sink.new)) (K.faults sink.new ≡ K.faults sink.old) result }
    ensures kept { KeepsRoom gathered.old gathered.new }
    ensures write_fault { IsErrOf result Stop.WriteFault → Rose (K.faults sink.old) (K.faults sink.new) }
    ensures sink_kept { OnOk result (K.faults sink.new ≡ K.faults sink.old) }
    ensures sink_never_falls { K.faults sink.old ≤ K.faults sink.new }
    ensures thread_fault { IsThreadFault result → Rose (W.faults spawner.old) (W.faults spawner.new) }
    ensures spawner_kept { ¬ (IsThreadFault result) → W.faults spawner.new ≡ W.faults spawner.old }
    ensures spawner_never_falls { W.faults spawner.old ≤ W.faults spawner.new }
    ensures starts { ¬ (IsThreadFault result) → StartsMore (thread_count run.old) (thread_count run.new) (W.calls spawner.old) (W.calls spawner.new) }
    ensures stops_starting { IsThreadFault result → StopsStarting (refusable statement.now (thread_count run.new - thread_count run.old)) (thread_count run.old) (thread_count run.new) (W.calls spawner.old) (W.calls spawner.new) }
    ensures running { IsRunning run.new }
    ensures closed { all_closed run.new ≡ true }
    ensures apps { run.new.apps ≡ run.old.apps }
{
    if let Statement::Together(block) = statement {
        return play_block(alloc, rt, run, block, gathered, sink, spawner);
    }
    let came = carry_out(rt, run, statement, spawner, gate)?;
    let told = tell(alloc, &came.told, sink);
    gathered.push(came);
    Ok(told?)
}

/// Carries them out one after the other, as far as nothing stops it.
pub(crate) fn play_all<
    K: Sink,
    W: Spawner,
    G: Gate + 'static,
    R: Threads + Wait + Copy + Send + 'static,
>(
    alloc: Global,
    rt: &R,
    run: &mut Run,
    statements: &[Statement],
    gathered: &mut Gathered,
    sink: &mut K,
    spawner: &mut W,
    gate: &G,
) -> Result<(), Stop>
    requires running { IsRunning run.old }
    requires nothing { HasDoneSoFar [] run.old }
    requires no_session { sessions_of run.old ≡ [] }
    requires no_looper { looper_count run.old ≡ 0 }
    requires none { gathered_seen gathered.old ≡ nothing_gathered }
    requires few { lines_in (statements_seen statements.now) ≤ statement_limit }
    requires room { HasRoom (lines_in (statements_seen statements.now)) gathered.old }
    ensures played { IsPlayedTo run.old.apps.items statements.now (gathered_seen gathered.new) result run.new (K.written sink.old) (K.written sink.new) (Rose (K.faults sink.old) (K.faults sink.new)) (K.faults sink.new ≡ K.faults sink.old) (W.calls spawner.old) (W.calls spawner.new) }
    ensures write_fault { IsErrOf result Stop.WriteFault → Rose (K.faults sink.old) (K.faults sink.new) }
    ensures sink_kept { OnOk result (K.faults sink.new ≡ K.faults sink.old) }
    ensures sink_never_falls { K.faults sink.old ≤ K.faults sink.new }
    ensures thread_fault { IsThreadFault result → Rose (W.faults spawner.old) (W.faults spawner.new) }
    ensures spawner_kept { ¬ (IsThreadFault result) → W.faults spawner.new ≡ W.faults spawner.old }
    ensures spawner_never_falls { W.faults spawner.old ≤ W.faults spawner.new }
    ensures running { IsRunning run.new }
    ensures closed { all_closed run.new ≡ true }
    ensures apps { run.new.apps ≡ run.old.apps }
{
    for statement in statements {
        step(alloc, rt, run, statement, gathered, sink, spawner, gate)?;
    }
    Ok(())
}
