ghost use Rattle.std.specs.Prelude.{◌≡◌, ◌≢◌, ◌≤◌, ◌⊎◌, ℕ, List, None, Some};
ghost use Rattle.ak_base.specs.declared.ending.RefusalKind.{RefusalKind};
ghost use Rattle.ak_outside.specs.Faults.{Rose, Stayed};
ghost use Rattle.ak_outside.specs.Source.{ConsumesAtMost};
ghost use Rattle.ak_script.specs.Script.{ScriptData};
ghost use Rattle.ak_kit.specs.Kit as kit;

use crate::closing::end_without_script;
use crate::commands::tell;
use crate::input::script_from;
use crate::kit_end::KitEnd;
use ak_base::Ending;
use ak_outside::{Sink, Source};
use std::alloc::Global;

/// The command `read` alone: reads the source to its end, and writes to the sink how many applications, loopers,
/// `handler` lines and statements the script has that the input is the text of. Nothing is run. It waits for nobody, and
/// always returns.
///
/// ReadFault and WriteFault come only where the count of faults of the source or the sink rose. Refused is the first
/// refusal of the input. NoMemory may come in place of each ending. At most 1,048,577 bytes are read.
pub fn kit_read<S: Source, K: Sink>(alloc: Global, source: &mut S, sink: &mut K) -> KitEnd
    ensures status { result.status ≡ kit.status_of result.ending }
    ensures ending { kit.IsReading result.ending }
    ensures no_run { result.run ≡ None }

    // One byte more than an input may have is the most that is read.
    ensures bounded { ConsumesAtMost 1048577 (S.left source.old) (S.left source.new) }

    // A refusal is the input's first.
    ensures refused { (line : ℕ) (why : RefusalKind) → result.ending ≡ Ending.Refused line why
        → kit.SomeInput (kit.IsRefusedAt line why) (S.left source.old) (S.left source.new) }

    // What was written.
    ensures told { kit.Tells result.ending (S.left source.old) (S.left source.new) (K.written sink.old) (K.written sink.new) (K.faults sink.old) (K.faults sink.new) }

    // A fault has its cause.
    ensures read_fault { result.ending ≡ Ending.ReadFault → Rose (S.faults source.old) (S.faults source.new) }
    ensures source_kept { result.ending ≢ Ending.ReadFault → S.faults source.new ≡ S.faults source.old }
    ensures source_never_falls { S.faults source.old ≤ S.faults source.new }
    ensures write_fault { result.ending ≡ Ending.WriteFault → Rose (K.faults sink.old) (K.faults sink.new) }
    ensures done { result.ending ≡ Ending.Done → K.faults sink.new ≡ K.faults sink.old }
    ensures sink_never_falls { K.faults sink.old ≤ K.faults sink.new }

    // Nothing but memory keeps an input with a refusal from being refused, and a script from being told of.
    ensures refuses { Stayed (S.faults source.old) (S.faults source.new)
        → (input : List ℕ) (line : ℕ) (why : RefusalKind)
        → S.left source.old ≡ Some input
        → kit.IsRefusedAt line why input
        → (result.ending ≡ Ending.Refused line why) ⊎ (result.ending ≡ Ending.NoMemory) }
    ensures complete { Stayed (S.faults source.old) (S.faults source.new)
        → Stayed (K.faults sink.old) (K.faults sink.new)
        → (input : List ℕ) (script : ScriptData)
        → S.left source.old ≡ Some input
        → kit.SaysScript script input
        → (result.ending ≡ Ending.Done) ⊎ (result.ending ≡ Ending.NoMemory) }
{
    match script_from(alloc, source) {
        Ok(script) => tell(alloc, &script, sink),
        Err(ending) => end_without_script(alloc, sink, ending),
    }
}
