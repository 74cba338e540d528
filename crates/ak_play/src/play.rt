//! A script from its first statement to the end of its run.
ghost use Rattle.std.specs.Prelude.{◌≡◌, ◌≢◌, ◌≤◌, [], None, IfSome, IfNone};
ghost use Rattle.std.specs.Io.KnownBytes.{Appends};
ghost use Rattle.ak_outside.specs.Faults.{Rose};
ghost use Rattle.ak_describe.specs.Whole.{heads_of};
ghost use Rattle.ak_headline.specs.Headline.{EachGotOneReply, EachLooper, IsAccounted, IsByRule};
ghost use Rattle.ak_run.specs.Opened.{WereOpened};
ghost use Rattle.ak_play.specs.Play.{IsPlay, IsPlayEnding, IsRunOf};

use crate::ending::finish;
use crate::gathered::Gathered;
use crate::run_end::RunEnd;
use crate::stepping::play_all;
use ak_base::Ending;
use ak_outside::{Gate, Sink, Spawner};
use ak_run::Run;
use ak_script::{Script, count_lines};
use std::alloc::Global;
use std::sync::Wait;
use std::thread::Threads;

/// Carries out a script: the statements one after the other, each with its lines to the sink before the next begins; the sessions of a block side by
/// side, on threads of their own. Then the run is ended, and all threads are joined. It ends early at the first fault: a write that failed, a thread that could not be started, or memory that ran out.
/// There is no run only where memory ran out before it began.
pub fn run_script<
    K: Sink,
    W: Spawner,
    G: Gate + 'static,
    R: Threads + Wait + Copy + Send + 'static,
>(
    alloc: Global,
    rt: &R,
    script: Script,
    sink: &mut K,
    spawner: &mut W,
    gate: &G,
) -> (Option<RunEnd>, Ending)
    ensures ending { IsPlayEnding result.1 }

    // The headline.
    ensures run { IfSome result.0 (λ end. IsRunOf (heads_of script.apps.items) end) }
    ensures accepted { IfSome result.0 (λ end. EachLooper end.histories IsAccounted) }
    ensures dispatched { IfSome result.0 (λ end. EachLooper end.histories IsByRule) }
    ensures answered { IfSome result.0 (λ end. EachGotOneReply end.short.loopers end.histories) }

    // What each looper was opened as.
    ensures opened { IfSome result.0 (λ end. WereOpened script.apps.items end.histories) }

    // The statements, their outcomes, and what was written.
    ensures script { IfSome result.0 (λ end. (end.script.apps.items ≡ script.apps.items) × (end.script.statements.items ≡ script.statements.items)) }
    ensures play { IfSome result.0 (λ end. IsPlay script.apps.items script.statements.items result.1 end (K.written sink.old) (K.written sink.new) (Rose (K.faults sink.old) (K.faults sink.new)) (K.faults sink.new ≡ K.faults sink.old) (W.calls spawner.old) (W.calls spawner.new)) }
    ensures none { IfNone result.0 ((result.1 ≡ Ending.NoMemory) × Appends (K.written sink.old) (K.written sink.new) [] × (K.faults sink.new ≡ K.faults sink.old)) }
    ensures none_starts { IfNone result.0 (spawner.new ≡ spawner.old) }

    // Each fault has its cause.
    ensures write_fault { result.1 ≡ Ending.WriteFault → Rose (K.faults sink.old) (K.faults sink.new) }
    ensures sink_kept { result.1 ≡ Ending.Done → K.faults sink.new ≡ K.faults sink.old }
    ensures sink_never_falls { K.faults sink.old ≤ K.faults sink.new }
    ensures thread_fault { result.1 ≡ Ending.ThreadFault → Rose (W.faults spawner.old) (W.faults spawner.new) }
    ensures spawner_kept { result.1 ≢ Ending.ThreadFault → W.faults spawner.new ≡ W.faults spawner.old }
    ensures spawner_never_falls { W.faults spawner.old ≤ W.faults spawner.new }
{
    let Script { apps, statements } = script;
    let Ok(mut gathered) = Gathered::with_room(alloc, count_lines(statements.as_slice())) else {
        return (None, Ending::NoMemory);
    };
    let Ok(mut run) = Run::new(alloc, apps) else {
        return (None, Ending::NoMemory);
    };
    let played = play_all(
        alloc,
        rt,
        &mut run,
        statements.as_slice(),
        &mut gathered,
        sink,
        spawner,
        gate,
    );
    let (end, ending) = finish(rt, run, statements, gathered, played);
    (Some(end), ending)
}
