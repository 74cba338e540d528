ghost use Rattle.std.specs.Prelude.{◌≡◌};
ghost use Rattle.ak_play.specs.Steps.{is_lack, lines_after, lines_told};

use crate::run_end::Lines;
use ak_base::NoMemory;
use ak_outside::WriteFailed;

/// Why a line is not written whole.
#[derive(Clone, Copy, Debug, PartialEq, Eq)]
pub(crate) enum Untold {
    /// A write failed.
    WriteFault,
    /// There was no memory for it: nothing of it was written.
    NoMemory,
}

/// Why no further statement is carried out.
#[derive(Clone, Copy, Debug, PartialEq, Eq)]
pub(crate) enum Stop {
    /// A line of the last statement was not written whole.
    WriteFault,
    /// A thread could not be started. What became of the lines of what was carried out of that statement.
    ThreadFault(Lines),
    /// Memory ran out. What became of the lines of the last statement that was carried out, or of what was of it.
    NoMemory(Lines),
}

impl From<NoMemory> for Untold {
    ghost use Rattle.std.specs.Prelude.{◌≡◌};
    ghost use Rattle.ak_play.specs.declared.stop.Untold.TheVariants.{NoMemory};

    ghost from_gives = { λ _ e. e ≡ NoMemory };

    fn from(_error: NoMemory) -> Untold {
        Untold::NoMemory
    }
}

impl From<WriteFailed> for Untold {
    ghost use Rattle.std.specs.Prelude.{◌≡◌};
    ghost use Rattle.ak_play.specs.declared.stop.Untold.TheVariants.{WriteFault};

    ghost from_gives = { λ _ e. e ≡ WriteFault };

    fn from(_error: WriteFailed) -> Untold {
        Untold::WriteFault
    }
}

// Memory that ran out before a line was due.
impl From<NoMemory> for Stop {
    ghost use Rattle.std.specs.Prelude.{◌≡◌};
    ghost use Rattle.ak_play.specs.declared.run_end.Lines.TheVariants.{Whole};
    ghost use Rattle.ak_play.specs.declared.stop.Stop.TheVariants.{NoMemory};

    ghost from_gives = { λ _ e. e ≡ NoMemory Whole };

    fn from(_error: NoMemory) -> Stop {
        Stop::NoMemory(Lines::Whole)
    }
}

impl From<Untold> for Stop {
    ghost use Rattle.std.specs.Prelude.{◌≡◌};
    ghost use Rattle.ak_play.specs.Steps.{stop_untold};

    ghost from_gives = { λ why e. e ≡ stop_untold why };

    fn from(why: Untold) -> Stop {
        match why {
            Untold::WriteFault => Stop::WriteFault,
            Untold::NoMemory => Stop::NoMemory(Lines::Lacking),
        }
    }
}

/// What became of lines that were told so.
pub(crate) fn lines_told(told: Result<(), Untold>) -> Lines
    ensures { result ≡ lines_told told }
{
    match told {
        Ok(()) => Lines::Whole,
        Err(Untold::WriteFault) => Lines::Cut,
        Err(Untold::NoMemory) => Lines::Lacking,
    }
}

/// What became of the lines of all statements.
pub(crate) fn lines_after(played: &Result<(), Stop>) -> Lines
    ensures { result ≡ lines_after played.now }
{
    match played {
        Ok(()) => Lines::Whole,
        Err(Stop::WriteFault) => Lines::Cut,
        Err(Stop::ThreadFault(lines) | Stop::NoMemory(lines)) => *lines,
    }
}

/// Whether main found no memory.
pub(crate) fn is_lack(played: &Result<(), Stop>) -> bool
    ensures { result ≡ is_lack played.now }
{
    match played {
        Ok(()) | Err(Stop::WriteFault) => false,
        Err(Stop::ThreadFault(lines)) => *lines == Lines::Lacking,
        Err(Stop::NoMemory(_)) => true,
    }
}
