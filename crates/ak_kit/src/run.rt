//! The command `run`: the input is read, and the script that it is the text of is carried out.
ghost use Rattle.std.specs.Prelude.{◌≡◌, ◌≢◌, ◌≤◌, ◌⊎◌, ℕ, List, Some, All, IfSome, IfNone, true, false};
ghost use Rattle.ak_journal.specs.Plain.{IsPlain};
ghost use Rattle.ak_world.specs.Merged.{entries_of};
ghost use Rattle.ak_base.specs.declared.ending.RefusalKind.{RefusalKind};
ghost use Rattle.ak_outside.specs.Faults.{Rose, Stayed};
ghost use Rattle.ak_outside.specs.Source.{ConsumesAtMost};
ghost use Rattle.ak_describe.specs.Whole.{heads_of};
ghost use Rattle.ak_headline.specs.Headline.{EachGotOneReply, EachLooper, IsAccounted, IsByRule};
ghost use Rattle.ak_play.specs.Play.{IsRunOf, IsShort};
ghost use Rattle.ak_run.specs.Opened.{WereOpened};
ghost use Rattle.ak_script.specs.Script.{ScriptData};
ghost use Rattle.ak_kit.specs.Journal.{JournalsAndCloses};
ghost use Rattle.ak_kit.specs.Kit as kit;
ghost use Rattle.ak_kit.specs.Sequence.{RunsAsOne};

use crate::closing::end_without_script;
use crate::commands::play;
use crate::input::script_from;
use crate::kit_end::KitEnd;
use ak_base::Ending;
use ak_outside::{Gate, Sink, Source, Spawner};
use std::alloc::Global;
use std::sync::Wait;
use std::thread::Threads;

/// Reads the source to its end, and carries out the script that the input is the text of. With `journal` its journal is written behind its lines.
pub(crate) fn kit_run<
    S: Source,
    K: Sink,
    W: Spawner,
    G: Gate + 'static,
    R: Threads + Wait + Copy + Send + 'static,
>(
    alloc: Global,
    rt: &R,
    source: &mut S,
    journal: bool,
    sink: &mut K,
    spawner: &mut W,
    gate: &G,
) -> KitEnd
    ensures status { result.status ≡ kit.status_of result.ending }
    ensures no_usage { result.ending ≢ Ending.Usage }
    ensures bounded { ConsumesAtMost 1048577 (S.left source.old) (S.left source.new) }
    ensures refused { (line : ℕ) (why : RefusalKind) → result.ending ≡ Ending.Refused line why
        → kit.SomeInput (kit.IsRefusedAt line why) (S.left source.old) (S.left source.new) }

    ensures script { IfSome result.run (λ run. kit.SomeInput (kit.IsTextOf run.script) (S.left source.old) (S.left source.new)) }
    ensures no_run { IfNone result.run (kit.IsUnrun result.ending) }
    ensures starts_nothing { IfNone result.run (spawner.new ≡ spawner.old) }
    ensures run { IfSome result.run (λ run. IsRunOf (heads_of run.script.apps.items) run) }
    ensures sequence { IfSome result.run RunsAsOne }
    ensures opened { IfSome result.run (λ run. WereOpened run.script.apps.items run.histories) }
    ensures plain { IfSome result.run (λ run. All IsPlain (entries_of run.histories)) }
    ensures accepted { IfSome result.run (λ run. EachLooper run.histories IsAccounted) }
    ensures dispatched { IfSome result.run (λ run. EachLooper run.histories IsByRule) }
    ensures answered { IfSome result.run (λ run. EachGotOneReply run.short.loopers run.histories) }

    ensures play { journal ≡ false → IfSome result.run (λ run. kit.PlaysAndCloses run result.ending (K.written sink.old) (K.written sink.new) (K.faults sink.old) (K.faults sink.new) (W.calls spawner.old) (W.calls spawner.new)) }
    ensures journal { journal ≡ true → IfSome result.run (λ run. JournalsAndCloses run result.ending (K.written sink.old) (K.written sink.new) (K.faults sink.old) (K.faults sink.new) (W.calls spawner.old) (W.calls spawner.new)) }
    ensures closing { IfNone result.run (kit.Closes result.ending (K.written sink.old) (K.written sink.new) (K.faults sink.old) (K.faults sink.new)) }

    ensures read_fault { result.ending ≡ Ending.ReadFault → Rose (S.faults source.old) (S.faults source.new) }
    ensures source_kept { result.ending ≢ Ending.ReadFault → S.faults source.new ≡ S.faults source.old }
    ensures source_never_falls { S.faults source.old ≤ S.faults source.new }
    ensures write_fault { result.ending ≡ Ending.WriteFault → Rose (K.faults sink.old) (K.faults sink.new) }
    ensures done { result.ending ≡ Ending.Done → K.faults sink.new ≡ K.faults sink.old }
    ensures sink_never_falls { K.faults sink.old ≤ K.faults sink.new }
    ensures thread_fault { result.ending ≡ Ending.ThreadFault → Rose (W.faults spawner.old) (W.faults spawner.new) }
    ensures spawner_kept { result.ending ≢ Ending.ThreadFault → W.faults spawner.new ≡ W.faults spawner.old }
    ensures spawner_never_falls { W.faults spawner.old ≤ W.faults spawner.new }
    ensures short { IfSome result.run (λ run. result.ending ≡ Ending.NoMemory → IsShort run.short) }

    ensures refuses { Stayed (S.faults source.old) (S.faults source.new)
        → (input : List ℕ) (line : ℕ) (why : RefusalKind)
        → S.left source.old ≡ Some input
        → kit.IsRefusedAt line why input
        → (result.ending ≡ Ending.Refused line why) ⊎ (result.ending ≡ Ending.NoMemory) }
    ensures complete { Stayed (S.faults source.old) (S.faults source.new)
        → Stayed (K.faults sink.old) (K.faults sink.new)
        → Stayed (W.faults spawner.old) (W.faults spawner.new)
        → (input : List ℕ) (script : ScriptData)
        → S.left source.old ≡ Some input
        → kit.SaysScript script input
        → (result.ending ≡ Ending.Done) ⊎ (result.ending ≡ Ending.NoMemory) }
{
    match script_from(alloc, source) {
        Ok(script) => play(alloc, rt, script, journal, sink, spawner, gate),
        Err(ending) => end_without_script(alloc, sink, ending),
    }
}
