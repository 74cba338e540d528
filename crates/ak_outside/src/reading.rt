ghost use Rattle.std.specs.Prelude.{◌≡◌, ◌+◌, ◌<◌, ◌≤◌, length, IfOk, OnErr, IsErrOf};
ghost use Rattle.std.specs.Io.KnownBytes.{Consumes, IsAtEnd};
ghost use Rattle.ak_outside.specs.Faults.{Rose};
ghost use Rattle.ak_outside.specs.Source.{AddsPiece, ConsumesAtMost};

use crate::source::{Source, SourceRead};
use ak_base::{Bytes, NoMemory};
use std::alloc::Global;
use std::error::Error;
use std::fmt;

/// Why a source was not read to its end.
#[derive(Clone, Copy, Debug, PartialEq, Eq)]
pub enum ReadFault {
    /// A read failed, and the source counted a fault.
    Failed,
    /// Memory ran out for the bytes.
    NoMemory,
}

impl fmt::Display for ReadFault {
    ghost use Rattle.std.specs.Prelude.{Some};
    ghost use Rattle.ak_outside.specs.ReadFault.{text_of};

    ghost output = { λ fault. Some (text_of fault) };

    fn fmt<W: fmt::Write>(&self, f: &mut fmt::Formatter<W>) -> fmt::Result {
        match self {
            ReadFault::Failed => f.write_str("a read failed"),
            ReadFault::NoMemory => f.write_str("no memory"),
        }
    }
}

impl Error for ReadFault {}

impl From<NoMemory> for ReadFault {
    ghost use Rattle.std.specs.Prelude.{◌≡◌};
    ghost use Rattle.ak_outside.specs.declared.reading.ReadFault.TheVariants.{NoMemory};

    ghost from_gives = { λ _ e. e ≡ NoMemory };

    fn from(_error: NoMemory) -> ReadFault {
        ReadFault::NoMemory
    }
}

// The most that one read is asked for, in bytes.
const PIECE: usize = 4096;

/// Reads until the source ends, or until `limit` + 1 bytes were read. So an answer longer than `limit` says
/// that there was too much. Never reads more than that. A read that fails ends it, as `Failed`; `NoMemory`
/// where memory ran out. After either, what was read by then is lost.
pub fn read_all<S: Source>(alloc: Global, source: &mut S, limit: u32) -> Result<Bytes, ReadFault>
    ensures read { IfOk result (λ bytes. Consumes (S.left source.old) (S.left source.new) bytes) }
    ensures bound { IfOk result (λ bytes. length bytes ≤ limit + 1) }
    ensures end { IfOk result (λ bytes. length bytes ≤ limit → IsAtEnd (S.left source.new)) }

    ensures err { OnErr result (ConsumesAtMost (limit + 1) (S.left source.old) (S.left source.new)) }
    ensures cause { IsErrOf result ReadFault.Failed → Rose (S.faults source.old) (S.faults source.new) }
    ensures never_falls { S.faults source.old ≤ S.faults source.new }
    ensures kept { ¬ IsErrOf result ReadFault.Failed → S.faults source.new ≡ S.faults source.old }
{
    let mut bytes = Bytes::new(alloc);
    let mut room = limit as usize + 1;
    while room > 0 {
        let n = read_piece(source, room, &mut bytes)?;
        if n == 0 {
            return Ok(bytes);
        }
        room -= n;
    }
    Ok(bytes)
}

// Reads once, at most `room` bytes, and adds them to `bytes`. Gives how many came: none only at the
// source's end.
fn read_piece<S: Source>(source: &mut S, room: usize, bytes: &mut Bytes) -> Result<usize, ReadFault>
    requires { 0 < room }
    ensures ok { IfOk result (AddsPiece (S.left source.old) (S.left source.new) bytes.old bytes.new) }
    ensures bound { IfOk result (λ n. n ≤ room) }

    ensures err { OnErr result (ConsumesAtMost room (S.left source.old) (S.left source.new)) }
    ensures cause { IsErrOf result ReadFault.Failed → Rose (S.faults source.old) (S.faults source.new) }
    ensures never_falls { S.faults source.old ≤ S.faults source.new }
    ensures kept { ¬ IsErrOf result ReadFault.Failed → S.faults source.new ≡ S.faults source.old }
{
    let mut buffer = [0u8; PIECE];
    let piece = &mut buffer[..room.min(PIECE)];
    match source.read(piece) {
        SourceRead::Read(n) => {
            bytes.extend(&piece[..n])?;
            Ok(n)
        }
        SourceRead::Failed => Err(ReadFault::Failed),
    }
}
