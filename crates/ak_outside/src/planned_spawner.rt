ghost use Rattle.std.specs.Prelude.{◌≡◌};
ghost use Rattle.ak_outside.specs.Calls.{no_calls};

use crate::call_log::CallLog;
use crate::spawner::{NotStarted, Spawner};
use std::marker::Model;

/// A spawner that refuses the starts of these numbers, counted from 1. Of the others it counts those that the
/// system refuses.
#[derive(Debug, Drop)]
pub struct PlannedSpawner {
    log: CallLog,
}

impl Model for PlannedSpawner {
    ghost use Rattle.ak_outside.specs.Calls.{Calls};

    ghost Value = { Calls };

    ghost view = { λ s. s.log };
}

impl PlannedSpawner {
    /// A spawner that refuses the starts of these numbers, and was asked for none yet. Takes no memory.
    pub fn new(fails: Vec<u64>) -> PlannedSpawner
        ensures { result ≡ no_calls fails.items }
    {
        PlannedSpawner {
            log: CallLog::new(fails),
        }
    }

    /// How many starts it was asked for. The number stands still at the end of a `u64`. Takes no memory.
    pub fn asked(&self) -> u64
        ensures { result ≡ self.now.made }
    {
        self.log.made()
    }
}

impl Spawner for PlannedSpawner {
    ghost use Rattle.std.specs.Prelude.{Some};

    ghost calls = { λ s. Some s };

    ghost faults = { λ s. s.faults };

    fn refuses(&mut self) -> bool {
        self.log.refuses_next()
    }

    fn failed(&mut self, _start: NotStarted) {
        self.log.fail();
    }
}
