use ak_base::Items;
use ak_describe::AppText;
use ak_diary::Histories;

/// A run that ended.
#[derive(Drop)]
pub struct Ended {
    /// The applications, as the run was given them.
    pub apps: Vec<AppText>,
    /// The history of each of its objects.
    pub histories: Histories,
    /// The numbers of the loopers whose diaries tell that they found no memory.
    pub short: Items<u32>,
}

/// What a launch came to. Each but the last two is an entry of the roster, at `place`, counted from 0.
#[derive(Clone, Copy, Debug, PartialEq, Eq)]
pub enum LaunchAnswer {
    /// The team of that number was started.
    Started { team: u32, place: u64 },
    /// The team of that number keeps it from starting.
    Running { team: u32, place: u64 },
    /// No application fits.
    NotFound { place: u64 },
    /// 16 teams were started, or there would be more than 32 loopers.
    Limit { place: u64 },
    /// The thread of a looper could not be started: the team is ended.
    ThreadFault,
    /// Memory ran out.
    NoMemory,
}
