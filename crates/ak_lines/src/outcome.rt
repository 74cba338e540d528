use ak_base::KitError;

/// What a statement came to: the places of the entries that gave it, counted from 0 in the history of their object. A slot
/// and a position are the numbers that the reply book and the port gave.
#[derive(Clone, Copy, Debug, PartialEq, Eq)]
pub enum Outcome {
    /// A launch: its entry at the roster.
    Launched {
        place: u64,
    },
    /// A hey line was answered: the slot of its reply.
    Replied {
        slot: u64,
    },
    /// A post: the looper's number, and the item's position at its port.
    Posted {
        looper: u32,
        position: u64,
    },
    /// An edit: the looper's number, and the entry at its desk.
    Edited {
        looper: u32,
        place: u64,
    },
    /// A send was refused: the looper's number, the entry at its port, and the error that it is.
    SendRefused {
        looper: u32,
        place: u64,
        error: KitError,
    },
    /// No running team fits: the entry at the roster.
    NoTeam {
        place: u64,
    },
    /// The team has no such looper: the entry at the roster.
    NoLooper {
        place: u64,
    },
}
