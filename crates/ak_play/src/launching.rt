//! Launches.
ghost use Rattle.std.specs.Prelude.{◌≡◌, ◌≤◌, ◌-◌, IsErrOf};
ghost use Rattle.ak_outside.specs.Faults.{Rose};
ghost use Rattle.ak_run.specs.Running.{IsRunning};
ghost use Rattle.ak_run.specs.Sessions.{sessions_of};
ghost use Rattle.ak_run.specs.Doing.{DoesSo};
ghost use Rattle.ak_run.specs.Starts.{StartsMore, StopsStarting, thread_count};
ghost use Rattle.ak_script.specs.declared.statement.Statement.TheVariants as statement;
ghost use Rattle.ak_play.specs.Steps.{CarriesOut, IsThreadFault, StopsBeforeLines};

use crate::run_end::Lines;
use crate::stop::Stop;
use ak_lines::{Came, Outcome};
use ak_outside::{Gate, Spawner};
use ak_print::Told;
use ak_run::{LaunchAnswer, Run};
use ak_script::Launch;
use std::sync::Wait;
use std::thread::Threads;

// A launch that the entry at that place tells.
fn launched(place: u64, told: Told) -> Came
    ensures outcome { result.outcome ≡ Outcome.Launched place }
    ensures told { result.told ≡ told }
{
    Came {
        outcome: Outcome::Launched { place },
        told,
    }
}

/// Launches the application, and starts a thread for each of its loopers. `ThreadFault` where one could not be started.
pub(crate) fn launch<W: Spawner, G: Gate + 'static, R: Threads + Wait + Copy + Send + 'static>(
    run: &mut Run,
    rt: &R,
    spawner: &mut W,
    gate: &G,
    launch: &Launch,
) -> Result<Came, Stop>
    requires running { IsRunning run.old }
    ensures did { DoesSo (CarriesOut run.old.apps.items (statement.Launch launch.now) result) run.old run.new }
    ensures not_written { IsErrOf result Stop.WriteFault → ⊥ }
    ensures lines { StopsBeforeLines result }
    ensures cause { IsThreadFault result → Rose (W.faults spawner.old) (W.faults spawner.new) }
    ensures kept { ¬ (IsThreadFault result) → W.faults spawner.new ≡ W.faults spawner.old }
    ensures never_falls { W.faults spawner.old ≤ W.faults spawner.new }
    ensures starts { ¬ (IsThreadFault result) → StartsMore (thread_count run.old) (thread_count run.new) (W.calls spawner.old) (W.calls spawner.new) }
    ensures stops_starting { IsThreadFault result → StopsStarting (thread_count run.new - thread_count run.old) (thread_count run.old) (thread_count run.new) (W.calls spawner.old) (W.calls spawner.new) }
    ensures running { IsRunning run.new }
    ensures apps { run.new.apps ≡ run.old.apps }
    ensures sessions { sessions_of run.new ≡ sessions_of run.old }
{
    match run.launch(rt, spawner, gate, &launch.word, launch.arguments.as_ref()) {
        LaunchAnswer::Started { team, place } => Ok(launched(place, Told::Started(team))),
        LaunchAnswer::Running { team, place } => Ok(launched(place, Told::Running(team))),
        LaunchAnswer::NotFound { place } => Ok(launched(place, Told::NotFound)),
        LaunchAnswer::Limit { place } => Ok(launched(place, Told::Limit)),
        LaunchAnswer::ThreadFault => Err(Stop::ThreadFault(Lines::Whole)),
        LaunchAnswer::NoMemory => Err(Stop::NoMemory(Lines::Whole)),
    }
}
