use ak_base::NoMemory;
use ak_flatten::{FlattenFault, UnflattenFault};
use std::alloc::AllocFailed;

/// Why a row ends before its last operation.
#[derive(Clone, Copy, Debug, PartialEq, Eq)]
pub(crate) enum Stop {
    /// The answer is none to the want, or nothing waits for one.
    NoAnswer,
    /// The line is no operation, or one that may not come now.
    NoOperation,
    /// The last want has no answer.
    Waits,
    NoMemory,
}

impl From<NoMemory> for Stop {
    fn from(_error: NoMemory) -> Stop {
        Stop::NoMemory
    }
}

impl<T: Drop> From<AllocFailed<T>> for Stop {
    fn from(_error: AllocFailed<T>) -> Stop {
        Stop::NoMemory
    }
}

// A reply that has no flat text is no answer.
impl From<FlattenFault> for Stop {
    fn from(fault: FlattenFault) -> Stop {
        match fault {
            FlattenFault::TooLong => Stop::NoAnswer,
            FlattenFault::NoMemory => Stop::NoMemory,
        }
    }
}

impl From<UnflattenFault> for Stop {
    fn from(fault: UnflattenFault) -> Stop {
        match fault {
            UnflattenFault::Bad(_) => Stop::NoAnswer,
            UnflattenFault::NoMemory => Stop::NoMemory,
        }
    }
}
