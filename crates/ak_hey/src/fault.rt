use ak_base::NoMemory;
use std::alloc::AllocFailed;
use std::error::Error;
use std::fmt;

/// Why words are no hey line. They are tested in this order.
#[derive(Clone, Copy, Debug, PartialEq, Eq)]
pub enum HeyFault {
    /// The words are not of the form. The column is that of the first byte of the first word with which the
    /// words so far begin no hey line, or the one past the last byte where the words end too early.
    Bad { column: u32 },
    /// The message passes a limit: its flat text has over 4,096 bytes, or it has over 64 fields or over 255
    /// values in one, or messages stand over 16 deep in it, or a text or a raw value of it has over 1,024
    /// bytes.
    TooLong,
    /// Memory ran out.
    NoMemory,
}

impl fmt::Display for HeyFault {
    fn fmt<W: fmt::Write>(&self, f: &mut fmt::Formatter<W>) -> fmt::Result {
        match self {
            HeyFault::Bad { column } => write!(f, "no hey line goes on so at column {column}"),
            HeyFault::TooLong => f.write_str("the message passes a limit"),
            HeyFault::NoMemory => f.write_str("no memory"),
        }
    }
}

impl Error for HeyFault {}

/// Why a word is not taken.
#[derive(Clone, Copy, Debug, PartialEq, Eq)]
pub(crate) enum WordFault {
    Bad,
    NoMemory,
}

impl From<NoMemory> for WordFault {
    ghost use Rattle.std.specs.Prelude.{◌≡◌};
    ghost use Rattle.ak_hey.specs.declared.fault.WordFault.TheVariants as fault;

    ghost from_gives = { λ _ e. e ≡ fault.NoMemory };

    fn from(_error: NoMemory) -> WordFault {
        WordFault::NoMemory
    }
}

impl<T: Drop> From<AllocFailed<T>> for WordFault {
    ghost use Rattle.std.specs.Prelude.{◌≡◌};
    ghost use Rattle.ak_hey.specs.declared.fault.WordFault.TheVariants as fault;

    ghost from_gives = { λ _ e. e ≡ fault.NoMemory };

    fn from(_error: AllocFailed<T>) -> WordFault {
        WordFault::NoMemory
    }
}
