//! The input: the script that the source gives, or how the program ends without one.
ghost use Rattle.std.specs.Prelude.{◌≡◌, ◌≢◌, ◌≤◌, ◌⊎◌, ℕ, List, Some, Err, IfOk, IfErr, IsOk};
ghost use Rattle.ak_base.specs.declared.ending.RefusalKind.{RefusalKind};
ghost use Rattle.ak_outside.specs.Faults.{Rose, Stayed};
ghost use Rattle.ak_outside.specs.Source.{ConsumesAtMost};
ghost use Rattle.ak_describe.specs.Whole.{AreWholeApps};
ghost use Rattle.ak_script.specs.Script.{ScriptData};
ghost use Rattle.ak_kit.specs.Kit as kit;

use crate::laws::inputs_are_read;
use ak_base::{Bytes, Ending};
use ak_input::INPUT_LIMIT;
use ak_outside::{ReadFault, Source, read_all};
use ak_script::{Script, ScriptFault, read_script};
use std::alloc::Global;

/// Reads the source to its end: the script that the input is the text of, or how the program ends without one. At most
/// 1,048,577 bytes are read, one more than an input may have.
pub(crate) fn script_from<S: Source>(alloc: Global, source: &mut S) -> Result<Script, Ending>
    ensures bounded { ConsumesAtMost 1048577 (S.left source.old) (S.left source.new) }
    ensures script { IfOk result (λ script. kit.SomeInput (kit.IsTextOf script) (S.left source.old) (S.left source.new)) }
    ensures whole { IfOk result (λ script. AreWholeApps script.apps.items) }
    ensures scriptless { IfErr result kit.IsScriptless }
    ensures refused { (line : ℕ) (why : RefusalKind) → result ≡ Err (Ending.Refused line why)
        → kit.SomeInput (kit.IsRefusedAt line why) (S.left source.old) (S.left source.new) }

    ensures read_fault { result ≡ Err Ending.ReadFault → Rose (S.faults source.old) (S.faults source.new) }
    ensures kept { result ≢ Err Ending.ReadFault → S.faults source.new ≡ S.faults source.old }
    ensures never_falls { S.faults source.old ≤ S.faults source.new }

    ensures refuses { Stayed (S.faults source.old) (S.faults source.new)
        → (input : List ℕ) (line : ℕ) (why : RefusalKind)
        → S.left source.old ≡ Some input
        → kit.IsRefusedAt line why input
        → (result ≡ Err (Ending.Refused line why)) ⊎ (result ≡ Err Ending.NoMemory) }
    ensures complete { Stayed (S.faults source.old) (S.faults source.new)
        → (input : List ℕ) (script : ScriptData)
        → S.left source.old ≡ Some input
        → kit.SaysScript script input
        → IsOk result ⊎ (result ≡ Err Ending.NoMemory) }
{
    let input = bytes_from(alloc, source)?;
    inputs_are_read();
    script_in(alloc, input.as_slice())
}

// The bytes that the source gives.
fn bytes_from<S: Source>(alloc: Global, source: &mut S) -> Result<Bytes, Ending>
    ensures bounded { ConsumesAtMost 1048577 (S.left source.old) (S.left source.new) }
    ensures read { IfOk result (kit.WasRead (S.left source.old) (S.left source.new)) }
    ensures fault { IfErr result (λ e. (e ≡ Ending.ReadFault) ⊎ (e ≡ Ending.NoMemory)) }
    ensures read_fault { result ≡ Err Ending.ReadFault → Rose (S.faults source.old) (S.faults source.new) }
    ensures kept { result ≢ Err Ending.ReadFault → S.faults source.new ≡ S.faults source.old }
    ensures never_falls { S.faults source.old ≤ S.faults source.new }
{
    match read_all(alloc, source, INPUT_LIMIT as u32) {
        Ok(input) => Ok(input),
        Err(ReadFault::Failed) => Err(Ending::ReadFault),
        Err(ReadFault::NoMemory) => Err(Ending::NoMemory),
    }
}

// The script that the input is the text of.
#[tactic(auto, unfolding(crate::specs::Kit::SaysScript, crate::specs::Kit::IsRefusedAt))]
fn script_in(alloc: Global, input: &[u8]) -> Result<Script, Ending>
    ensures script { IfOk result (λ script. kit.IsTextOf script input.now) }
    ensures whole { IfOk result (λ script. AreWholeApps script.apps.items) }
    ensures fault { IfErr result (λ e. kit.IsFaultOf e input.now) }
{
    match read_script(alloc, input) {
        Ok(script) => Ok(script),
        Err(ScriptFault::Refused { line, kind }) => Err(Ending::Refused { line, kind }),
        Err(ScriptFault::NoMemory) => Err(Ending::NoMemory),
    }
}
