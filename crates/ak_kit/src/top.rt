ghost use Rattle.std.specs.Prelude.{◌≡◌, ◌≢◌, ◌≤◌, ◌↔◌, ◌⊎◌, ℕ, List, None, Some, All, IfSome, IfNone};
ghost use Rattle.ak_base.specs.declared.ending.RefusalKind.{RefusalKind};
ghost use Rattle.ak_outside.specs.Faults.{Rose, Stayed};
ghost use Rattle.ak_outside.specs.Source.{ConsumesAtMost};
ghost use Rattle.ak_describe.specs.Whole.{heads_of};
ghost use Rattle.ak_headline.specs.Headline.{EachGotOneReply, EachLooper, IsAccounted, IsByRule};
ghost use Rattle.ak_play.specs.Play.{IsPlayEnding, IsRunOf, IsShort};
ghost use Rattle.ak_run.specs.Opened.{WereOpened};
ghost use Rattle.ak_journal.specs.Plain.{IsPlain};
ghost use Rattle.ak_world.specs.Merged.{entries_of};
ghost use Rattle.ak_script.specs.Generated.{generated};
ghost use Rattle.ak_script.specs.Script.{ScriptData};
ghost use Rattle.ak_script.specs.Seen.{script_seen};
ghost use Rattle.ak_kit.specs.Journal.{JournalsAndCloses};
ghost use Rattle.ak_kit.specs.Kit as kit;
ghost use Rattle.ak_kit.specs.Sequence.{RunsAsOne};

use crate::closing::close;
use crate::generate::kit_gen;
use crate::kit_end::KitEnd;
use crate::read::kit_read;
use crate::run::kit_run;
use crate::words::{Command, command_of};
use ak_base::{Bytes, Ending};
use ak_outside::{Gate, Sink, Source, Spawner};
use std::alloc::Global;
use std::sync::Wait;
use std::thread::Threads;

/// The program: does what the words say. With `run` it reads the source to its end, and carries out the script that the
/// input is the text of, with a thread for each looper and each session of a block. It writes to the sink the line of each
/// statement, those of a block session by session; before it returns, the run is ended and its threads are joined. With `run -j`
/// it writes the run's journal behind these lines: the line `journal`, and a line for each entry of each object, by their stamps. With
/// `read` it does as `kit_read`. With `gen N` it reads nothing, makes the script of the number N as `generated` of
/// `ak_script` does, carries it out with its lines written nowhere, and then writes one line: how many replies `'RPLY'` its
/// block got, and how far each of the three loopers has counted. It writes a closing line where it ends otherwise than Done or
/// WriteFault.
///
/// `words` are those behind the program's name. Usage, with nothing read, exactly where they are neither `run` nor `run -j` nor `read`
/// nor `gen` and the decimal of a number from 1 to 500. ReadFault, WriteFault and ThreadFault come only where the count of
/// faults of the source, the sink or the spawner rose. Refused is the first refusal of the input. NoMemory may come in
/// place of each ending but Usage; with a run it says that somebody in the run found no memory, or main none for the line
/// of `gen` or for the journal, and then the run says so of main. At most 1,048,577 bytes are read, one more than an input may have.
///
/// Of a source and a sink that tell nothing, the clauses on bytes say that there are such bytes.
pub fn kit<
    S: Source,
    K: Sink,
    W: Spawner,
    G: Gate + 'static,
    R: Threads + Wait + Copy + Send + 'static,
>(
    alloc: Global,
    rt: &R,
    words: &[Bytes],
    source: &mut S,
    sink: &mut K,
    spawner: &mut W,
    gate: &G,
) -> KitEnd
    ensures status { result.status ≡ kit.status_of result.ending }

    // The words.
    ensures usage { (result.ending ≡ Ending.Usage) ↔ ¬ kit.IsCommand words.now }
    ensures usage_reads_nothing { result.ending ≡ Ending.Usage → source.new ≡ source.old }
    ensures usage_runs_nothing { result.ending ≡ Ending.Usage → result.run ≡ None }

    // One byte more than an input may have is the most that is read.
    ensures bounded { ConsumesAtMost 1048577 (S.left source.old) (S.left source.new) }

    // A refusal is the input's first.
    ensures refused { (line : ℕ) (why : RefusalKind) → result.ending ≡ Ending.Refused line why
        → kit.SomeInput (kit.IsRefusedAt line why) (S.left source.old) (S.left source.new) }

    // With `run` and `run -j`, the run is of the script that the input is the text of. Without a run, no script was carried out.
    ensures script { kit.RunsInput words.now → IfSome result.run (λ run. kit.SomeInput (kit.IsTextOf run.script) (S.left source.old) (S.left source.new)) }
    ensures no_run { words.now ≢ kit.read_words → IfNone result.run (kit.IsUnrun result.ending) }
    ensures starts_nothing { IfNone result.run (spawner.new ≡ spawner.old) }

    // The headline.
    ensures run { IfSome result.run (λ run. IsRunOf (heads_of run.script.apps.items) run) }
    ensures sequence { IfSome result.run RunsAsOne }
    ensures opened { IfSome result.run (λ run. WereOpened run.script.apps.items run.histories) }

    // Each entry is of a form that is read back from its line.
    ensures plain { IfSome result.run (λ run. All IsPlain (entries_of run.histories)) }
    ensures accepted { IfSome result.run (λ run. EachLooper run.histories IsAccounted) }
    ensures dispatched { IfSome result.run (λ run. EachLooper run.histories IsByRule) }
    ensures answered { IfSome result.run (λ run. EachGotOneReply run.short.loopers run.histories) }

    // What main and the sessions did for the statements, and what was written.
    ensures play { words.now ≡ kit.run_words → IfSome result.run (λ run. kit.PlaysAndCloses run result.ending (K.written sink.old) (K.written sink.new) (K.faults sink.old) (K.faults sink.new) (W.calls spawner.old) (W.calls spawner.new)) }
    ensures journal { words.now ≡ kit.journal_words → IfSome result.run (λ run. JournalsAndCloses run result.ending (K.written sink.old) (K.written sink.new) (K.faults sink.old) (K.faults sink.new) (W.calls spawner.old) (W.calls spawner.new)) }
    ensures closing { words.now ≢ kit.read_words → IfNone result.run (kit.Closes result.ending (K.written sink.old) (K.written sink.new) (K.faults sink.old) (K.faults sink.new)) }

    // With `read` nothing is run, and the summary line is written.
    ensures read_runs_nothing { words.now ≡ kit.read_words → (result.run ≡ None) × (spawner.new ≡ spawner.old) }
    ensures read_ending { words.now ≡ kit.read_words → kit.IsReading result.ending }
    ensures read_tells { words.now ≡ kit.read_words → kit.Tells result.ending (S.left source.old) (S.left source.new) (K.written sink.old) (K.written sink.new) (K.faults sink.old) (K.faults sink.new) }

    // With `gen` nothing is read, the script of the number is run, and its line is written.
    ensures gen_reads_nothing { kit.IsGen words.now → source.new ≡ source.old }
    ensures gen_ending { kit.IsGen words.now → IsPlayEnding result.ending }
    ensures gen_script { (n : ℕ) → words.now ≡ kit.gen_words n → IfSome result.run (λ run. script_seen run.script ≡ generated n) }
    ensures gen_play { (n : ℕ) → words.now ≡ kit.gen_words n → IfSome result.run (λ run. kit.GeneratesAndCloses n run result.ending (K.written sink.old) (K.written sink.new) (K.faults sink.old) (K.faults sink.new) (W.calls spawner.old) (W.calls spawner.new)) }

    // A fault has its cause, and where a call failed the run doesn't go on.
    ensures read_fault { result.ending ≡ Ending.ReadFault → Rose (S.faults source.old) (S.faults source.new) }
    ensures source_kept { result.ending ≢ Ending.ReadFault → S.faults source.new ≡ S.faults source.old }
    ensures source_never_falls { S.faults source.old ≤ S.faults source.new }
    ensures write_fault { result.ending ≡ Ending.WriteFault → Rose (K.faults sink.old) (K.faults sink.new) }
    ensures done { result.ending ≡ Ending.Done → K.faults sink.new ≡ K.faults sink.old }
    ensures sink_never_falls { K.faults sink.old ≤ K.faults sink.new }
    ensures thread_fault { result.ending ≡ Ending.ThreadFault → Rose (W.faults spawner.old) (W.faults spawner.new) }
    ensures spawner_kept { result.ending ≢ Ending.ThreadFault → W.faults spawner.new ≡ W.faults spawner.old }
    ensures spawner_never_falls { W.faults spawner.old ≤ W.faults spawner.new }
    ensures short { IfSome result.run (λ run. result.ending ≡ Ending.NoMemory → IsShort run.short) }

    // Nothing but memory keeps an input with a refusal from being refused, and a script from being carried out to its
    // end, or from being told of.
    ensures refuses { kit.ReadsInput words.now
        → Stayed (S.faults source.old) (S.faults source.new)
        → (input : List ℕ) (line : ℕ) (why : RefusalKind)
        → S.left source.old ≡ Some input
        → kit.IsRefusedAt line why input
        → (result.ending ≡ Ending.Refused line why) ⊎ (result.ending ≡ Ending.NoMemory) }
    ensures complete { kit.RunsInput words.now
        → Stayed (S.faults source.old) (S.faults source.new)
        → Stayed (K.faults sink.old) (K.faults sink.new)
        → Stayed (W.faults spawner.old) (W.faults spawner.new)
        → (input : List ℕ) (script : ScriptData)
        → S.left source.old ≡ Some input
        → kit.SaysScript script input
        → (result.ending ≡ Ending.Done) ⊎ (result.ending ≡ Ending.NoMemory) }
    ensures read_complete { words.now ≡ kit.read_words
        → Stayed (S.faults source.old) (S.faults source.new)
        → Stayed (K.faults sink.old) (K.faults sink.new)
        → (input : List ℕ) (script : ScriptData)
        → S.left source.old ≡ Some input
        → kit.SaysScript script input
        → (result.ending ≡ Ending.Done) ⊎ (result.ending ≡ Ending.NoMemory) }
    ensures gen_complete { kit.IsGen words.now
        → Stayed (K.faults sink.old) (K.faults sink.new)
        → Stayed (W.faults spawner.old) (W.faults spawner.new)
        → (result.ending ≡ Ending.Done) ⊎ (result.ending ≡ Ending.NoMemory) }
{
    match command_of(words) {
        Some(Command::Run) => kit_run(alloc, rt, source, false, sink, spawner, gate),
        Some(Command::Journal) => kit_run(alloc, rt, source, true, sink, spawner, gate),
        Some(Command::Read) => kit_read(alloc, source, sink),
        Some(Command::Gen(n)) => kit_gen(alloc, rt, n, sink, spawner, gate),
        None => close(sink, Ending::Usage, None),
    }
}
