//! The closing line, and the end of the program.
ghost use Rattle.std.specs.Prelude.{◌≡◌, ◌≤◌, ◌⊎◌, [], None, Some, IfOk};
ghost use Rattle.ak_outside.specs.Faults.{Rose};
ghost use Rattle.ak_kit.specs.Kit as kit;

use crate::kit_end::{KitEnd, status_of};
use ak_base::{Bytes, Ending, NoMemory, RefusalKind, print_uint};
use ak_outside::{Sink, write_all};
use ak_play::{Lines, RunEnd};
use std::alloc::Global;

// The closing line of an ending that is no refusal.
fn closing_line(ending: Ending) -> &'static [u8]
    requires { kit.IsNoRefusal ending }
    ensures { result.now ≡ kit.closing_line ending }
{
    match ending {
        Ending::Done | Ending::WriteFault => b"",
        Ending::Usage => b"usage: kit run [-j] | read | gen N\n",
        Ending::ReadFault => b"read fault\n",
        Ending::ThreadFault => b"thread fault\n",
        Ending::NoMemory => b"no memory\n",
        Ending::Refused { .. } => unreachable!(),
    }
}

// The closing line of a refusal.
fn refusal_line(alloc: Global, line: u32, kind: RefusalKind) -> Result<Bytes, NoMemory>
    ensures { IfOk result (λ text. text ≡ kit.closing_line (Ending.Refused line kind)) }
{
    let mut text = Bytes::new(alloc);
    text.extend(b"refused line ")?;
    print_uint(u64::from(line), &mut text)?;
    text.extend(b": ")?;
    text.extend(kind.to_string(alloc)?.as_bytes())?;
    text.push(b'\n')?;
    Ok(text)
}

// Writes the closing line. Where the sink fails, the rest of it is missing, and nothing else changes.
fn end_with<K: Sink>(sink: &mut K, ending: Ending, line: &[u8], run: Option<RunEnd>) -> KitEnd
    requires { line.now ≡ kit.closing_line ending }
    ensures status { result.status ≡ kit.status_of ending }
    ensures ending { result.ending ≡ ending }
    ensures run { result.run ≡ run }
    ensures line { kit.Closes ending (K.written sink.old) (K.written sink.new) (K.faults sink.old) (K.faults sink.new) }
    ensures never_falls { K.faults sink.old ≤ K.faults sink.new }
    ensures kept { kit.closing_line ending ≡ [] → K.faults sink.new ≡ K.faults sink.old }
{
    let _ = write_all(sink, line);
    KitEnd {
        status: status_of(ending),
        ending,
        run,
    }
}

/// Ends the program so.
pub(crate) fn close<K: Sink>(sink: &mut K, ending: Ending, run: Option<RunEnd>) -> KitEnd
    requires { kit.IsNoRefusal ending }
    ensures status { result.status ≡ kit.status_of ending }
    ensures ending { result.ending ≡ ending }
    ensures run { result.run ≡ run }
    ensures line { kit.Closes ending (K.written sink.old) (K.written sink.new) (K.faults sink.old) (K.faults sink.new) }
    ensures never_falls { K.faults sink.old ≤ K.faults sink.new }
    ensures kept { kit.closing_line ending ≡ [] → K.faults sink.new ≡ K.faults sink.old }
{
    end_with(sink, ending, closing_line(ending), run)
}

/// Ends the program so, with nothing written.
pub(crate) fn end_at_once(ending: Ending, run: RunEnd) -> KitEnd
    ensures status { result.status ≡ kit.status_of ending }
    ensures ending { result.ending ≡ ending }
    ensures run { result.run ≡ Some run }
{
    KitEnd {
        status: status_of(ending),
        ending,
        run: Some(run),
    }
}

/// Ends the program behind the lines of that run. Where a write failed, nothing more is written.
pub(crate) fn close_run<K: Sink>(sink: &mut K, ending: Ending, run: RunEnd) -> KitEnd
    requires { kit.IsNoRefusal ending }
    ensures status { result.status ≡ kit.status_of ending }
    ensures ending { result.ending ≡ ending }
    ensures run { result.run ≡ Some run }
    ensures line { kit.ClosesBehind run.lines ending (K.written sink.old) (K.written sink.new) (K.faults sink.old) (K.faults sink.new) }
    ensures never_falls { K.faults sink.old ≤ K.faults sink.new }
    ensures kept { kit.closing_line ending ≡ [] → K.faults sink.new ≡ K.faults sink.old }
{
    if run.lines == Lines::Cut {
        end_at_once(ending, run)
    } else {
        close(sink, ending, Some(run))
    }
}

/// Writes the line, and ends the program.
pub(crate) fn end_with_line<K: Sink>(sink: &mut K, line: &[u8], run: Option<RunEnd>) -> KitEnd
    ensures status { result.status ≡ kit.status_of result.ending }
    ensures ending { (result.ending ≡ Ending.Done) ⊎ (result.ending ≡ Ending.WriteFault) }
    ensures run { result.run ≡ run }
    ensures told { kit.TellsLine line.now result.ending (K.written sink.old) (K.written sink.new) (K.faults sink.old) (K.faults sink.new) }
    ensures write_fault { result.ending ≡ Ending.WriteFault → Rose (K.faults sink.old) (K.faults sink.new) }
    ensures done { result.ending ≡ Ending.Done → K.faults sink.new ≡ K.faults sink.old }
    ensures sink_never_falls { K.faults sink.old ≤ K.faults sink.new }
{
    let ending = match write_all(sink, line) {
        Ok(()) => Ending::Done,
        Err(_) => Ending::WriteFault,
    };
    close(sink, ending, run)
}

// Refuses the input: NoMemory where there is no memory for the line.
fn refuse<K: Sink>(alloc: Global, sink: &mut K, line: u32, kind: RefusalKind) -> KitEnd
    ensures status { result.status ≡ kit.status_of result.ending }
    ensures ending { (result.ending ≡ Ending.Refused line kind) ⊎ (result.ending ≡ Ending.NoMemory) }
    ensures run { result.run ≡ None }
    ensures line { kit.Closes result.ending (K.written sink.old) (K.written sink.new) (K.faults sink.old) (K.faults sink.new) }
    ensures never_falls { K.faults sink.old ≤ K.faults sink.new }
{
    let ending = Ending::Refused { line, kind };
    match refusal_line(alloc, line, kind) {
        Ok(text) => end_with(sink, ending, text.as_slice(), None),
        Err(NoMemory) => close(sink, Ending::NoMemory, None),
    }
}

/// Ends the program where the source gave no script.
pub(crate) fn end_without_script<K: Sink>(alloc: Global, sink: &mut K, ending: Ending) -> KitEnd
    requires { kit.IsScriptless ending }
    ensures status { result.status ≡ kit.status_of result.ending }
    ensures ending { kit.EndsFor ending result.ending }
    ensures scriptless { kit.IsScriptless result.ending }
    ensures run { result.run ≡ None }
    ensures line { kit.Closes result.ending (K.written sink.old) (K.written sink.new) (K.faults sink.old) (K.faults sink.new) }
    ensures never_falls { K.faults sink.old ≤ K.faults sink.new }
{
    match ending {
        Ending::Refused { line, kind } => refuse(alloc, sink, line, kind),
        _ => close(sink, ending, None),
    }
}
