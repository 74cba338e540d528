use ak_base::NoMemory;
use std::alloc::AllocFailed;
use std::error::Error;
use std::fmt;

/// Why handlers were not changed. They are tested in this order; each call names those that it may answer.
#[derive(Clone, Copy, Debug, PartialEq, Eq)]
pub enum HandlerFault {
    /// A handler has that name.
    NameInUse,
    /// There are 64 handlers, or no token is left.
    HandlerLimit,
    /// No handler has that token.
    BadHandler,
    /// It is the looper, which stays and has no next handler.
    IsLooper,
    /// The chain would come back to where it began.
    ChainLoop,
    /// Memory ran out.
    NoMemory,
}

impl fmt::Display for HandlerFault {
    fn fmt<W: fmt::Write>(&self, f: &mut fmt::Formatter<W>) -> fmt::Result {
        match self {
            HandlerFault::NameInUse => f.write_str("a handler has that name"),
            HandlerFault::HandlerLimit => f.write_str("there are 64 handlers, or no token is left"),
            HandlerFault::BadHandler => f.write_str("no handler has that token"),
            HandlerFault::IsLooper => f.write_str("it is the looper"),
            HandlerFault::ChainLoop => f.write_str("the chain would come back"),
            HandlerFault::NoMemory => f.write_str("no memory"),
        }
    }
}

impl Error for HandlerFault {}

impl From<NoMemory> for HandlerFault {
    ghost use Rattle.std.specs.Prelude.{◌≡◌};
    ghost use Rattle.ak_handler.specs.declared.fault.HandlerFault.TheVariants as fault;

    ghost from_gives = { λ _ e. e ≡ fault.NoMemory };

    fn from(_error: NoMemory) -> HandlerFault {
        HandlerFault::NoMemory
    }
}

impl<T: Drop> From<AllocFailed<T>> for HandlerFault {
    ghost use Rattle.std.specs.Prelude.{◌≡◌};
    ghost use Rattle.ak_handler.specs.declared.fault.HandlerFault.TheVariants as fault;

    ghost from_gives = { λ _ e. e ≡ fault.NoMemory };

    fn from(_error: AllocFailed<T>) -> HandlerFault {
        HandlerFault::NoMemory
    }
}
