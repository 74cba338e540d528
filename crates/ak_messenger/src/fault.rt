ghost use Rattle.std.specs.Prelude.{◌≡◌};

use ak_base::NoMemory;
use ak_flatten::{FlattenFault, UnflattenFault};
use std::error::Error;
use std::fmt;

/// Why a message was not sent, or has no reply. `TooLong` is tested first, then what the port refuses, in this
/// order. `NoMemory` may come at any step but in place of `TooLong`.
#[derive(Clone, Copy, Debug, PartialEq, Eq)]
pub enum SendFault {
    /// Its flat text has over 4,096 bytes.
    TooLong,
    /// Memory ran out.
    NoMemory,
    /// The port is shut.
    BadPort,
    /// The port has accepted as many items as it ever does.
    Spent,
    /// The port has no room. `post_at_turn` alone answers it; `post` and `ask` wait.
    WouldBlock,
}

impl fmt::Display for SendFault {
    fn fmt<W: fmt::Write>(&self, f: &mut fmt::Formatter<W>) -> fmt::Result {
        match self {
            SendFault::TooLong => f.write_str("the flat text has over 4,096 bytes"),
            SendFault::NoMemory => f.write_str("no memory"),
            SendFault::BadPort => f.write_str("the port is shut"),
            SendFault::Spent => f.write_str("the port accepts no more"),
            SendFault::WouldBlock => f.write_str("the port is full"),
        }
    }
}

impl Error for SendFault {}

impl From<NoMemory> for SendFault {
    ghost use Rattle.std.specs.Prelude.{◌≡◌};
    ghost use Rattle.ak_messenger.specs.declared.fault.SendFault.TheVariants as fault;

    ghost from_gives = { λ _ e. e ≡ fault.NoMemory };

    fn from(_error: NoMemory) -> SendFault {
        SendFault::NoMemory
    }
}

impl From<FlattenFault> for SendFault {
    ghost use Rattle.std.specs.Prelude.{◌≡◌};
    ghost use Rattle.ak_messenger.specs.Sends.{flatten_fault};

    ghost from_gives = { λ f e. e ≡ flatten_fault f };

    fn from(error: FlattenFault) -> SendFault {
        match error {
            FlattenFault::TooLong => SendFault::TooLong,
            FlattenFault::NoMemory => SendFault::NoMemory,
        }
    }
}
