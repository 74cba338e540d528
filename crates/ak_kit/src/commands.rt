//! What is done with a script: it is carried out, or told of by one line.
ghost use Rattle.std.specs.Prelude.{◌≡◌, ◌≢◌, ◌≤◌, None, All, IfSome, IfNone, true, false};
ghost use Rattle.ak_journal.specs.Plain.{IsPlain};
ghost use Rattle.ak_world.specs.Merged.{entries_of};
ghost use Rattle.ak_outside.specs.Faults.{Rose};
ghost use Rattle.ak_describe.specs.Whole.{AreWholeApps, heads_of};
ghost use Rattle.ak_headline.specs.Headline.{EachGotOneReply, EachLooper, IsAccounted, IsByRule};
ghost use Rattle.ak_play.specs.Play.{IsPlayEnding, IsRunOf};
ghost use Rattle.ak_run.specs.Opened.{WereOpened};
ghost use Rattle.ak_script.specs.Seen.{script_seen};
ghost use Rattle.ak_kit.specs.Journal.{JournalsAndCloses};
ghost use Rattle.ak_kit.specs.Kit as kit;
ghost use Rattle.ak_kit.specs.Sequence.{RunsAsOne};
ghost use Rattle.ak_kit.specs.Summary.{summary};

use crate::closing::{close, close_run, end_with_line};
use crate::journal::end_with_journal;
use crate::kit_end::KitEnd;
use crate::laws::runs_are_so;
use crate::summary::summary;
use ak_base::{Ending, NoMemory};
use ak_outside::{Gate, Sink, Spawner};
use ak_play::run_script;
use ak_script::Script;
use std::alloc::Global;
use std::sync::Wait;
use std::thread::Threads;

/// Carries out the script. With `journal` its journal is written behind its lines.
pub(crate) fn play<
    K: Sink,
    W: Spawner,
    G: Gate + 'static,
    R: Threads + Wait + Copy + Send + 'static,
>(
    alloc: Global,
    rt: &R,
    script: Script,
    journal: bool,
    sink: &mut K,
    spawner: &mut W,
    gate: &G,
) -> KitEnd
    requires whole { AreWholeApps script.apps.items }
    ensures status { result.status ≡ kit.status_of result.ending }
    ensures ending { IsPlayEnding result.ending }
    ensures no_run { IfNone result.run (result.ending ≡ Ending.NoMemory) }
    ensures starts_nothing { IfNone result.run (spawner.new ≡ spawner.old) }

    ensures script { IfSome result.run (λ run. script_seen run.script ≡ script_seen script) }
    ensures run { IfSome result.run (λ run. IsRunOf (heads_of run.script.apps.items) run) }
    ensures sequence { IfSome result.run RunsAsOne }
    ensures opened { IfSome result.run (λ run. WereOpened run.script.apps.items run.histories) }
    ensures plain { IfSome result.run (λ run. All IsPlain (entries_of run.histories)) }
    ensures accepted { IfSome result.run (λ run. EachLooper run.histories IsAccounted) }
    ensures dispatched { IfSome result.run (λ run. EachLooper run.histories IsByRule) }
    ensures answered { IfSome result.run (λ run. EachGotOneReply run.short.loopers run.histories) }

    ensures play { journal ≡ false → IfSome result.run (λ run. kit.PlaysAndCloses run result.ending (K.written sink.old) (K.written sink.new) (K.faults sink.old) (K.faults sink.new) (W.calls spawner.old) (W.calls spawner.new)) }
    ensures journal { journal ≡ true → IfSome result.run (λ run. JournalsAndCloses run result.ending (K.written sink.old) (K.written sink.new) (K.faults sink.old) (K.faults sink.new) (W.calls spawner.old) (W.calls spawner.new)) }
    ensures closing { IfNone result.run (kit.Closes result.ending (K.written sink.old) (K.written sink.new) (K.faults sink.old) (K.faults sink.new)) }

    ensures write_fault { result.ending ≡ Ending.WriteFault → Rose (K.faults sink.old) (K.faults sink.new) }
    ensures done { result.ending ≡ Ending.Done → K.faults sink.new ≡ K.faults sink.old }
    ensures sink_never_falls { K.faults sink.old ≤ K.faults sink.new }
    ensures thread_fault { result.ending ≡ Ending.ThreadFault → Rose (W.faults spawner.old) (W.faults spawner.new) }
    ensures spawner_kept { result.ending ≢ Ending.ThreadFault → W.faults spawner.new ≡ W.faults spawner.old }
    ensures spawner_never_falls { W.faults spawner.old ≤ W.faults spawner.new }
{
    let (run, ended) = run_script(alloc, rt, script, sink, spawner, gate);
    let Some(run) = run else {
        return close(sink, ended, None);
    };
    runs_are_so();
    if journal {
        end_with_journal(alloc, run, ended, sink)
    } else {
        close_run(sink, ended, run)
    }
}

/// Writes the line that tells how much the script describes, and how many statements it has.
pub(crate) fn tell<K: Sink>(alloc: Global, script: &Script, sink: &mut K) -> KitEnd
    requires { AreWholeApps script.now.apps.items }
    ensures status { result.status ≡ kit.status_of result.ending }
    ensures run { result.run ≡ None }
    ensures told { kit.TellsLine (summary (script_seen script.now)) result.ending (K.written sink.old) (K.written sink.new) (K.faults sink.old) (K.faults sink.new) }
    ensures write_fault { result.ending ≡ Ending.WriteFault → Rose (K.faults sink.old) (K.faults sink.new) }
    ensures done { result.ending ≡ Ending.Done → K.faults sink.new ≡ K.faults sink.old }
    ensures sink_never_falls { K.faults sink.old ≤ K.faults sink.new }
{
    match summary(alloc, script) {
        Ok(line) => end_with_line(sink, line.as_slice(), None),
        Err(NoMemory) => close(sink, Ending::NoMemory, None),
    }
}
