use ak_base::NoMemory;
use ak_flatten::{FlattenFault, UnflattenFault};
use std::alloc::AllocFailed;

/// What of a looper's list is other than the rules make it of the looper's plan, its edits, and what its port accepted.
#[derive(Clone, Copy, Debug, PartialEq, Eq)]
pub enum Difference {
    /// It is the desk of another looper, or of none that the plans allow.
    Desk,
    /// The port accepted no such item.
    Item,
    /// What an edit came to.
    Edit,
    /// Where the message went.
    Route,
    /// The answer words.
    Words,
    /// Whether the looper is to end.
    Quit,
    /// The text with which the looper filled the slot of the one that waits.
    Reply,
    /// The same of an item that was left.
    Left,
}

/// Why no further entry is compared.
#[derive(Clone, Copy, Debug, PartialEq, Eq)]
pub(crate) enum Stop {
    /// That is other than it has to be.
    Differs(Difference),
    /// The entry tells that memory ran out in the run.
    Starved,
    /// Memory ran out here.
    NoMemory,
}

impl From<NoMemory> for Stop {
    fn from(_error: NoMemory) -> Stop {
        Stop::NoMemory
    }
}

impl<T: Drop> From<AllocFailed<T>> for Stop {
    fn from(_error: AllocFailed<T>) -> Stop {
        Stop::NoMemory
    }
}

// A reply is made to fit.
impl From<FlattenFault> for Stop {
    fn from(fault: FlattenFault) -> Stop {
        match fault {
            FlattenFault::TooLong => Stop::Differs(Difference::Reply),
            FlattenFault::NoMemory => Stop::NoMemory,
        }
    }
}

// The word of a reply is its flat text.
impl From<UnflattenFault> for Stop {
    fn from(fault: UnflattenFault) -> Stop {
        match fault {
            UnflattenFault::Bad(_) => Stop::Differs(Difference::Words),
            UnflattenFault::NoMemory => Stop::NoMemory,
        }
    }
}
