/// What a launch will come to, tested in the order NotFound, AlreadyRunning, Limit. These three are entries.
#[derive(Clone, Copy, Debug, PartialEq, Eq)]
pub enum Decision {
    /// No description fits.
    NotFound,
    /// The least team that keeps it from starting: of its path where its mode is single, of its signature where
    /// it is exclusive.
    AlreadyRunning {
        /// The number of that team.
        team: u32,
    },
    /// 16 teams were started, or there would be more than 32 loopers.
    Limit,
    /// `launch` will start it, in the same turn. There is no entry yet.
    Starts {
        /// The place of the description, counted from 0.
        description: u32,
        /// The team's number, the next one from 1 on.
        team: u32,
        /// The number of its first looper, the next one from 0 on; the others follow.
        first: u32,
    },
    /// Memory ran out: nothing changed, and there is no entry.
    NoMemory,
}

/// What a look-up is answered.
#[derive(Clone, Copy, Debug, PartialEq, Eq)]
pub enum FindAnswer {
    /// The least running team that fits, with the number of its first looper and how many loopers it has.
    Team { team: u32, first: u32, loopers: u32 },
    /// No running team fits.
    NoTeam,
    /// Memory ran out: nothing changed, and there is no entry.
    NoMemory,
}

/// What a launch that starts is answered.
#[derive(Drop)]
pub enum Launched<D> {
    /// The team runs, with that number, and its first looper has the number `first`.
    Started { team: u32, first: u32 },
    /// Memory ran out: nothing changed, there is no entry, and the doors are given back.
    NoMemory(Vec<D>),
}
