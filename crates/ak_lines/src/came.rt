ghost use Rattle.std.specs.Prelude.{◌≡◌};

use crate::outcome::Outcome;
use ak_print::Told;

/// What a statement or a line came to, and what is told of it.
#[derive(Drop)]
pub struct Came {
    pub outcome: Outcome,
    pub told: Told,
}

impl Came {
    /// No running team fits, as the entry at that place tells.
    pub fn no_team(place: u64) -> Came
        ensures outcome { result.outcome ≡ Outcome.NoTeam place }
        ensures told { result.told ≡ Told.NoTeam }
    {
        Came {
            outcome: Outcome::NoTeam { place },
            told: Told::NoTeam,
        }
    }

    /// The team that the entry at that place tells has no such looper.
    pub fn no_looper(place: u64) -> Came
        ensures outcome { result.outcome ≡ Outcome.NoLooper place }
        ensures told { result.told ≡ Told.NoLooper }
    {
        Came {
            outcome: Outcome::NoLooper { place },
            told: Told::NoLooper,
        }
    }
}
