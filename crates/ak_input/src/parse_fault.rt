use ak_base::NoMemory;
use std::alloc::{AllocError, AllocFailed};
use std::error::Error;
use std::fmt;

/// Why no value or message was read. They are tested in this order.
#[derive(Clone, Copy, Debug, PartialEq, Eq)]
pub enum ParseFault {
    /// The words are not of its form, or a number is not in its kind's range. Or values of a field have
    /// different kinds, or two fields of a message have one name.
    BadValue,
    /// A text or a raw value is longer than 1,024 bytes, or a field has more than 255 values. Or a message
    /// has more than 64 fields, or messages stand more than 16 deep.
    Limit,
    /// Memory ran out.
    NoMemory,
}

impl fmt::Display for ParseFault {
    fn fmt<W: fmt::Write>(&self, f: &mut fmt::Formatter<W>) -> fmt::Result {
        match self {
            ParseFault::BadValue => f.write_str("the words are not of its form"),
            ParseFault::Limit => f.write_str("a limit is passed"),
            ParseFault::NoMemory => f.write_str("no memory"),
        }
    }
}

impl Error for ParseFault {}

impl From<NoMemory> for ParseFault {
    ghost use Rattle.std.specs.Prelude.{◌≡◌};
    ghost use Rattle.ak_input.specs.declared.parse_fault.ParseFault.TheVariants as fault;

    ghost from_gives = { λ _ e. e ≡ fault.NoMemory };

    fn from(_error: NoMemory) -> ParseFault {
        ParseFault::NoMemory
    }
}

impl From<AllocError> for ParseFault {
    ghost use Rattle.std.specs.Prelude.{◌≡◌};
    ghost use Rattle.ak_input.specs.declared.parse_fault.ParseFault.TheVariants as fault;

    ghost from_gives = { λ _ e. e ≡ fault.NoMemory };

    fn from(_error: AllocError) -> ParseFault {
        ParseFault::NoMemory
    }
}

impl<T: Drop> From<AllocFailed<T>> for ParseFault {
    ghost use Rattle.std.specs.Prelude.{◌≡◌};
    ghost use Rattle.ak_input.specs.declared.parse_fault.ParseFault.TheVariants as fault;

    ghost from_gives = { λ _ e. e ≡ fault.NoMemory };

    fn from(_error: AllocFailed<T>) -> ParseFault {
        ParseFault::NoMemory
    }
}
