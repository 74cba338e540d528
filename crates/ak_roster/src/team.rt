/// How many launches may start in a run.
pub const TEAM_LIMIT: u32 = 16;

/// How many applications may be described.
pub const APP_LIMIT: usize = 16;

/// A team that runs.
#[derive(Clone, Copy, Debug, PartialEq, Eq)]
pub struct Running {
    /// Its number, from 1 on; none is used again.
    pub team: u32,
    /// The place of its description, counted from 0.
    pub description: u32,
    /// The number of its first looper, from 0 on over the whole run; the others follow.
    pub first: u32,
    /// How many loopers it has.
    pub loopers: u32,
}
