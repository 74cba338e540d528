ghost use Rattle.std.specs.Prelude.{◌≡◌, IfOk};

use ak_base::{AppWord, NoMemory, ThreadId};
use std::collections::LinkedList;

/// What a launch came to.
#[derive(Clone, Copy, Debug, PartialEq, Eq)]
pub enum LaunchOutcome {
    /// That description was started as that team.
    Started {
        /// The place of the description, counted from 0.
        description: u32,
        /// The team's number, from 1 on.
        team: u32,
        /// The number of its first looper, from 0 on over the whole run; the others follow.
        first: u32,
    },
    /// A team keeps it from starting.
    AlreadyRunning {
        /// The least such team.
        team: u32,
    },
    /// No description fits.
    NotFound,
    /// 16 teams were started, or there would be more than 32 loopers.
    Limit,
}

/// What a look-up came to.
#[derive(Clone, Copy, Debug, PartialEq, Eq)]
pub enum FindOutcome {
    /// The number of the least running team that fits.
    Team(u32),
    /// No running team fits.
    NoTeam,
}

/// What was done at the roster.
#[derive(Debug, Drop)]
pub enum RosterEvent {
    /// A launch was asked for.
    Launch {
        /// The word for the application.
        word: AppWord,
        /// What it came to.
        outcome: LaunchOutcome,
    },
    /// A running team was looked for.
    Find {
        /// The word for the application.
        word: AppWord,
        /// What was found.
        outcome: FindOutcome,
    },
    /// The team no longer runs.
    Gone {
        /// Its number.
        team: u32,
    },
    /// The thread got the door of that looper.
    Door {
        /// The looper's number in the run.
        looper: u32,
    },
}

/// What the journal shows of an entry of the roster's history.
#[derive(Debug, Drop)]
pub struct RosterEntry {
    /// One more than the greater of the clock's time and the last stamp before it.
    pub stamp: u64,
    /// The thread that made it.
    pub by: ThreadId,
    /// What was done.
    pub event: RosterEvent,
}

/// An entry of the roster's history, for proofs alone: what the journal shows of it, and what the doors of its
/// loopers tell where it started a team. No value of it is made.
pub struct EntryWithObjects<O> {
    /// What the journal shows of it.
    pub plain: RosterEntry,
    /// What the doors of the started loopers tell of their objects, in the order of the loopers; else nothing.
    pub objects: LinkedList<Option<O>>,
}

impl RosterEvent {
    /// An equal event, or `NoMemory` where memory ran out.
    pub fn try_clone(&self) -> Result<RosterEvent, NoMemory>
        ensures { IfOk result (λ e. e ≡ self.now) }
    {
        match self {
            RosterEvent::Launch { word, outcome } => Ok(RosterEvent::Launch {
                word: word.try_clone()?,
                outcome: *outcome,
            }),
            RosterEvent::Find { word, outcome } => Ok(RosterEvent::Find {
                word: word.try_clone()?,
                outcome: *outcome,
            }),
            RosterEvent::Gone { team } => Ok(RosterEvent::Gone { team: *team }),
            RosterEvent::Door { looper } => Ok(RosterEvent::Door { looper: *looper }),
        }
    }
}

impl RosterEntry {
    /// An equal entry, or `NoMemory` where memory ran out.
    pub fn try_clone(&self) -> Result<RosterEntry, NoMemory>
        ensures { IfOk result (λ e. e ≡ self.now) }
    {
        Ok(RosterEntry {
            stamp: self.stamp,
            by: self.by,
            event: self.event.try_clone()?,
        })
    }
}
