//! The lines of outcomes.
ghost use Rattle.std.specs.Prelude.{◌≡◌, ◌≤◌, map, IfOk, IsErrOf};
ghost use Rattle.ak_outside.specs.Faults.{Rose};
ghost use Rattle.ak_print.specs.Told.{told_line};
ghost use Rattle.ak_block.specs.Together.{part_of};
ghost use Rattle.ak_play.specs.Parts.{session_tolds};
ghost use Rattle.ak_play.specs.Steps.{HasWritten, HasWrittenAll};

use crate::stop::Untold;
use ak_base::{Bytes, NoMemory};
use ak_block::Heard;
use ak_outside::{Sink, write_all};
use ak_print::{Told, print_outcome};
use std::alloc::Global;

fn line_of(alloc: Global, told: &Told) -> Result<Bytes, NoMemory>
    ensures { IfOk result (λ line. line ≡ told_line told.now) }
{
    let mut line = Bytes::new(alloc);
    print_outcome(alloc, told, &mut line)?;
    Ok(line)
}

/// Writes the line. `NoMemory` where there was no memory for it: nothing was written then.
pub(crate) fn tell<K: Sink>(alloc: Global, told: &Told, sink: &mut K) -> Result<(), Untold>
    ensures written { HasWritten result (told_line told.now) (K.written sink.old) (K.written sink.new) }
    ensures cause { IsErrOf result Untold.WriteFault → Rose (K.faults sink.old) (K.faults sink.new) }
    ensures kept { ¬ (IsErrOf result Untold.WriteFault) → K.faults sink.new ≡ K.faults sink.old }
    ensures never_falls { K.faults sink.old ≤ K.faults sink.new }
{
    let line = line_of(alloc, told)?;
    write_all(sink, line.as_slice())?;
    Ok(())
}

// Writes the lines, one after the other, as far as nothing stops it.
fn tell_all<K: Sink>(alloc: Global, tolds: &[Told], sink: &mut K) -> Result<(), Untold>
    ensures written { HasWrittenAll result tolds.now (K.written sink.old) (K.written sink.new) }
    ensures cause { IsErrOf result Untold.WriteFault → Rose (K.faults sink.old) (K.faults sink.new) }
    ensures kept { ¬ (IsErrOf result Untold.WriteFault) → K.faults sink.new ≡ K.faults sink.old }
    ensures never_falls { K.faults sink.old ≤ K.faults sink.new }
{
    for told in tolds {
        tell(alloc, told, sink)?;
    }
    Ok(())
}

/// The same of the lines of sessions, session by session.
pub(crate) fn tell_sessions<K: Sink>(
    alloc: Global,
    heard: &[Heard],
    sink: &mut K,
) -> Result<(), Untold>
    ensures written { HasWrittenAll result (session_tolds (map part_of heard.now)) (K.written sink.old) (K.written sink.new) }
    ensures cause { IsErrOf result Untold.WriteFault → Rose (K.faults sink.old) (K.faults sink.new) }
    ensures kept { ¬ (IsErrOf result Untold.WriteFault) → K.faults sink.new ≡ K.faults sink.old }
    ensures never_falls { K.faults sink.old ≤ K.faults sink.new }
{
    for part in heard {
        tell_all(alloc, part.tolds.as_slice(), sink)?;
    }
    Ok(())
}
