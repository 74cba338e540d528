use ak_desk::EditAnswer;

/// What a look-up came to. Each but the last is an entry of the roster, at `place`, counted from 0.
#[derive(Clone, Copy, Debug, PartialEq, Eq)]
pub enum Found {
    /// The least running team that fits: its number, that of its first looper, and how many loopers it has.
    Team {
        team: u32,
        first: u32,
        loopers: u32,
        place: u64,
    },
    /// No running team fits.
    NoTeam {
        place: u64,
    },
    /// Memory ran out.
    NoMemory,
}

/// What an edit came to. The first is an entry of the looper's desk, at `place`, counted from 0.
#[derive(Clone, Copy, Debug, PartialEq, Eq)]
pub enum Edited {
    /// It was answered so.
    Entered { answer: EditAnswer, place: u64 },
    /// Memory ran out.
    NoMemory,
}
