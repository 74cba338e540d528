//! The journal of a run: behind the lines of its outcomes the line `journal`, and then a line for each entry of each object.
ghost use Rattle.std.specs.Prelude.{◌≡◌, ◌≤◌, ◌++◌, ◌∷◌, [], All, IsSomeAnd, IfSome, OnOk};
ghost use Rattle.ak_journal.specs.Plain.{IsPlain};
ghost use Rattle.ak_journal.specs.Typed.{IsTyped};
ghost use Rattle.ak_world.specs.Merged.{entries_of};
ghost use Rattle.ak_play.specs.Play.{IsPlayEnding};
ghost use Rattle.ak_kit.specs.Untold.{lines_told};
ghost use Rattle.ak_kit.specs.Journal.{FailedSo, HasJournaled, HasWrittenEntries, TellsJournal, at_a_write, entries_text, without_memory};
ghost use Rattle.ak_kit.specs.Kit as kit;

use crate::closing::{close, close_run, end_at_once};
use crate::kit_end::KitEnd;
use ak_base::{Bytes, Ending, NoMemory};
use ak_diary::Histories;
use ak_journal::{Entry, plain_is_legible, print_entry};
use ak_outside::{Sink, WriteFailed, write_all};
use ak_plain::merged_is_plain;
use ak_play::{Lines, RunEnd};
use ak_world::merge;
use std::alloc::Global;

// So many bytes are gathered before they are written, or a few more.
const PIECE: usize = 32_768;

/// Why the rest of the journal is not written.
#[derive(Clone, Copy, Debug, PartialEq, Eq)]
pub(crate) enum Untold {
    /// A write failed.
    WriteFault,
    /// Memory ran out.
    NoMemory,
}

impl From<NoMemory> for Untold {
    ghost use Rattle.std.specs.Prelude.{◌≡◌};
    ghost use Rattle.ak_kit.specs.declared.journal.Untold.TheVariants.{NoMemory};

    ghost from_gives = { λ _ e. e ≡ NoMemory };

    fn from(_error: NoMemory) -> Untold {
        Untold::NoMemory
    }
}

impl From<WriteFailed> for Untold {
    ghost use Rattle.std.specs.Prelude.{◌≡◌};
    ghost use Rattle.ak_kit.specs.declared.journal.Untold.TheVariants.{WriteFault};

    ghost from_gives = { λ _ e. e ≡ WriteFault };

    fn from(_error: WriteFailed) -> Untold {
        Untold::WriteFault
    }
}

// ---- the ending
// Where a write failed behind a run that ended so. `main` is whether main found no memory in it.
fn at_a_write(main: bool, ended: Ending) -> Ending
    ensures { result ≡ at_a_write main ended }
{
    match ended {
        Ending::ThreadFault => Ending::ThreadFault,
        Ending::NoMemory if main => Ending::NoMemory,
        _ => Ending::WriteFault,
    }
}

// Where memory ran out behind it.
fn without_memory(ended: Ending) -> Ending
    ensures { result ≡ without_memory ended }
{
    match ended {
        Ending::ThreadFault => Ending::ThreadFault,
        _ => Ending::NoMemory,
    }
}

/// Writes the journal of a run that ended so, and ends the program. No journal is written where a line of an outcome is missing, and no
/// closing line where a write failed. Where there is no memory for all of the journal, the run says that main found none.
pub(crate) fn end_with_journal<K: Sink>(
    alloc: Global,
    mut run: RunEnd,
    ended: Ending,
    sink: &mut K,
) -> KitEnd
    requires ending { IsPlayEnding ended }
    requires plain { All IsPlain (entries_of run.histories) }
    ensures status { result.status ≡ kit.status_of result.ending }
    ensures ending { IsPlayEnding result.ending }

    // The run is handed on, but for whether main found no memory.
    ensures run { IsSomeAnd result.run (λ end. run ≡ kit.with_main run.short.main end) }
    ensures tells { IfSome result.run (λ end. TellsJournal run.lines ended end run.short.main result.ending (K.written sink.old) (K.written sink.new) (K.faults sink.old) (K.faults sink.new)) }
    ensures sink_never_falls { K.faults sink.old ≤ K.faults sink.new }
{
    if run.lines != Lines::Whole {
        return close_run(sink, ended, run);
    }
    match put_journal(alloc, &run.histories, sink) {
        Ok(()) => close(sink, ended, Some(run)),
        Err(Untold::WriteFault) => end_at_once(at_a_write(run.short.main, ended), run),
        Err(Untold::NoMemory) => {
            run.short.main = true;
            close(sink, without_memory(ended), Some(run))
        }
    }
}

// Writes the journal of these histories.
fn put_journal<K: Sink>(alloc: Global, histories: &Histories, sink: &mut K) -> Result<(), Untold>
    requires { All IsPlain (entries_of histories.now) }
    ensures written { HasJournaled histories.now (lines_told result) (K.written sink.old) (K.written sink.new) }
    ensures failed { FailedSo (lines_told result) (K.faults sink.old) (K.faults sink.new) }
    ensures never_falls { K.faults sink.old ≤ K.faults sink.new }
{
    merged_is_plain();
    let entries = merge(alloc, histories)?;
    write_all(sink, b"journal\n")?;
    put_entries(alloc, entries.as_slice(), sink)
}

// Writes the lines of the entries, some at a time.
fn put_entries<K: Sink>(alloc: Global, entries: &[Entry], sink: &mut K) -> Result<(), Untold>
    requires { All IsPlain entries.now }
    ensures written { HasWrittenEntries entries.now (lines_told result) (K.written sink.old) (K.written sink.new) }
    ensures failed { FailedSo (lines_told result) (K.faults sink.old) (K.faults sink.new) }
    ensures never_falls { K.faults sink.old ≤ K.faults sink.new }
{
    plain_is_legible();
    let mut lines = Bytes::new(alloc);
    for entry in entries {
        put_line(alloc, entry, &mut lines)?;
        if lines.len() >= PIECE {
            write_all(sink, lines.as_slice())?;
            lines.clear();
        }
    }
    write_all(sink, lines.as_slice())?;
    Ok(())
}

// The line of one entry, and its end.
fn put_line(alloc: Global, entry: &Entry, lines: &mut Bytes) -> Result<(), NoMemory>
    ensures line { OnOk result (lines.new ≡ lines.old ++ entries_text (entry.now ∷ [])) }
    ensures typed { OnOk result (IsTyped entry.now) }
{
    print_entry(alloc, entry, lines)?;
    lines.push(b'\n')
}
