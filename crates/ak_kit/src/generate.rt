//! The script of a number: it is made, carried out, and told of by one line.
ghost use Rattle.std.specs.Prelude.{◌≡◌, ◌≢◌, ◌≤◌, ◌↔◌, All, IfSome, IfNone, IsSomeAnd};
ghost use Rattle.ak_journal.specs.Plain.{IsPlain};
ghost use Rattle.ak_world.specs.Merged.{entries_of};
ghost use Rattle.ak_outside.specs.Faults.{Rose};
ghost use Rattle.ak_describe.specs.Whole.{heads_of};
ghost use Rattle.ak_headline.specs.Headline.{EachGotOneReply, EachLooper, IsAccounted, IsByRule};
ghost use Rattle.ak_play.specs.Play.{IsPlayEnding, IsRunOf, IsShort};
ghost use Rattle.ak_run.specs.Opened.{WereOpened};
ghost use Rattle.ak_script.specs.Generated.{generated, generated_limit};
ghost use Rattle.ak_script.specs.Seen.{script_seen};
ghost use Rattle.ak_kit.specs.Kit as kit;
ghost use Rattle.ak_kit.specs.Sequence.{RunsAsOne};

use crate::closing::{close, end_with_line};
use crate::gen_line::gen_line;
use crate::kit_end::KitEnd;
use crate::laws::runs_are_so;
use crate::nowhere::Nowhere;
use ak_base::{Ending, NoMemory};
use ak_outside::{Gate, Sink, Spawner};
use ak_play::{RunEnd, run_script};
use ak_script::generated;
use std::alloc::Global;
use std::sync::Wait;
use std::thread::Threads;

/// The command `gen`: makes the script of the number, carries it out, and writes to the sink what came of it. The line is
/// written only where every statement was carried out, and nobody found no memory. Where there is no memory for the line,
/// the run says that main found none.
pub(crate) fn kit_gen<
    K: Sink,
    W: Spawner,
    G: Gate + 'static,
    R: Threads + Wait + Copy + Send + 'static,
>(alloc: Global, rt: &R, n: u32, sink: &mut K, spawner: &mut W, gate: &G) -> KitEnd
    requires some { 1 ≤ n }
    requires limit { n ≤ generated_limit }
    ensures status { result.status ≡ kit.status_of result.ending }
    ensures ending { IsPlayEnding result.ending }
    ensures no_run { IfNone result.run (result.ending ≡ Ending.NoMemory) }
    ensures starts_nothing { IfNone result.run (spawner.new ≡ spawner.old) }

    ensures script { IfSome result.run (λ run. script_seen run.script ≡ generated n) }
    ensures run { IfSome result.run (λ run. IsRunOf (heads_of run.script.apps.items) run) }
    ensures sequence { IfSome result.run RunsAsOne }
    ensures opened { IfSome result.run (λ run. WereOpened run.script.apps.items run.histories) }
    ensures plain { IfSome result.run (λ run. All IsPlain (entries_of run.histories)) }
    ensures accepted { IfSome result.run (λ run. EachLooper run.histories IsAccounted) }
    ensures dispatched { IfSome result.run (λ run. EachLooper run.histories IsByRule) }
    ensures answered { IfSome result.run (λ run. EachGotOneReply run.short.loopers run.histories) }

    ensures play { IfSome result.run (λ run. kit.GeneratesAndCloses n run result.ending (K.written sink.old) (K.written sink.new) (K.faults sink.old) (K.faults sink.new) (W.calls spawner.old) (W.calls spawner.new)) }
    ensures closing { IfNone result.run (kit.Closes result.ending (K.written sink.old) (K.written sink.new) (K.faults sink.old) (K.faults sink.new)) }

    ensures write_fault { result.ending ≡ Ending.WriteFault → Rose (K.faults sink.old) (K.faults sink.new) }
    ensures done { result.ending ≡ Ending.Done → K.faults sink.new ≡ K.faults sink.old }
    ensures sink_never_falls { K.faults sink.old ≤ K.faults sink.new }
    ensures thread_fault { result.ending ≡ Ending.ThreadFault → Rose (W.faults spawner.old) (W.faults spawner.new) }
    ensures spawner_kept { result.ending ≢ Ending.ThreadFault → W.faults spawner.new ≡ W.faults spawner.old }
    ensures spawner_never_falls { W.faults spawner.old ≤ W.faults spawner.new }
    ensures short { IfSome result.run (λ run. result.ending ≡ Ending.NoMemory → IsShort run.short) }
{
    let (run, ended) = play_generated(alloc, rt, n, spawner, gate);
    match run {
        Some(run) => end_generated(alloc, n, run, ended, sink),
        None => close(sink, Ending::NoMemory, None),
    }
}

// Carries out the script of the number, and writes its lines nowhere.
fn play_generated<W: Spawner, G: Gate + 'static, R: Threads + Wait + Copy + Send + 'static>(
    alloc: Global,
    rt: &R,
    n: u32,
    spawner: &mut W,
    gate: &G,
) -> (Option<RunEnd>, Ending)
    requires some { 1 ≤ n }
    requires limit { n ≤ generated_limit }
    ensures ending { IsPlayEnding result.1 }
    ensures no_write { result.1 ≢ Ending.WriteFault }
    ensures none { IfNone result.0 (result.1 ≡ Ending.NoMemory) }
    ensures none_starts { IfNone result.0 (spawner.new ≡ spawner.old) }

    ensures script { IfSome result.0 (λ run. script_seen run.script ≡ generated n) }
    ensures run { IfSome result.0 (λ run. IsRunOf (heads_of run.script.apps.items) run) }
    ensures sequence { IfSome result.0 RunsAsOne }
    ensures opened { IfSome result.0 (λ run. WereOpened run.script.apps.items run.histories) }
    ensures plain { IfSome result.0 (λ run. All IsPlain (entries_of run.histories)) }
    ensures accepted { IfSome result.0 (λ run. EachLooper run.histories IsAccounted) }
    ensures dispatched { IfSome result.0 (λ run. EachLooper run.histories IsByRule) }
    ensures answered { IfSome result.0 (λ run. EachGotOneReply run.short.loopers run.histories) }

    ensures play { IfSome result.0 (λ run. kit.IsPlayNowhere result.1 run (W.calls spawner.old) (W.calls spawner.new)) }

    ensures thread_fault { result.1 ≡ Ending.ThreadFault → Rose (W.faults spawner.old) (W.faults spawner.new) }
    ensures spawner_kept { result.1 ≢ Ending.ThreadFault → W.faults spawner.new ≡ W.faults spawner.old }
    ensures spawner_never_falls { W.faults spawner.old ≤ W.faults spawner.new }
{
    let Ok(script) = generated(alloc, n) else {
        return (None, Ending::NoMemory);
    };
    runs_are_so();
    let mut nowhere = Nowhere;
    run_script(alloc, rt, script, &mut nowhere, spawner, gate)
}

// Writes the line of a run that is done, and of any other the closing line alone.
fn end_generated<K: Sink>(
    alloc: Global,
    n: u32,
    mut run: RunEnd,
    ended: Ending,
    sink: &mut K,
) -> KitEnd
    requires limit { n ≤ generated_limit }
    requires ending { IsPlayEnding ended }
    requires no_write { ended ≢ Ending.WriteFault }
    ensures status { result.status ≡ kit.status_of result.ending }
    ensures ending { IsPlayEnding result.ending }
    ensures thread { (result.ending ≡ Ending.ThreadFault) ↔ (ended ≡ Ending.ThreadFault) }

    // The run is handed on, but for whether main found no memory.
    ensures run { IsSomeAnd result.run (λ end. run ≡ kit.with_main run.short.main end) }
    ensures tells { IfSome result.run (λ end. kit.TellsRun ended n end run.short.main result.ending (K.written sink.old) (K.written sink.new) (K.faults sink.old) (K.faults sink.new)) }

    ensures write_fault { result.ending ≡ Ending.WriteFault → Rose (K.faults sink.old) (K.faults sink.new) }
    ensures done { result.ending ≡ Ending.Done → K.faults sink.new ≡ K.faults sink.old }
    ensures sink_never_falls { K.faults sink.old ≤ K.faults sink.new }
{
    if ended != Ending::Done {
        return close(sink, ended, Some(run));
    }
    match gen_line(alloc, n, run.tolds.as_slice()) {
        Ok(line) => end_with_line(sink, line.as_slice(), Some(run)),
        Err(NoMemory) => {
            run.short.main = true;
            close(sink, Ending::NoMemory, Some(run))
        }
    }
}
