ghost use Rattle.std.specs.Prelude.{◌≡◌, ◌≤◌, ◌↔◌, if◌then◌else◌, IsTrue};
ghost use Rattle.ak_outside.specs.Calls.{no_calls, RefusesNext, with_call, with_fault};
ghost use Rattle.ak_outside.specs.Faults.{raised};

use std::marker::Model;

/// The calls of a source, a sink or a spawner in memory. A call has a number, counted from 1, and is refused
/// where its number is among those that the log was made with.
#[derive(Debug, Drop)]
pub(crate) struct CallLog {
    numbers: Vec<u64>,
    count: u64,
    failed: u64,
}

impl Model for CallLog {
    ghost use Rattle.ak_outside.specs.Calls.{Calls};

    ghost Value = { Calls };

    ghost view = { λ s. record { refused = s.numbers.items; made = s.count; faults = s.failed } };
}

impl CallLog {
    pub(crate) fn new(refused: Vec<u64>) -> CallLog
        ensures { result ≡ no_calls refused.items }
    {
        CallLog {
            numbers: refused,
            count: 0,
            failed: 0,
        }
    }

    /// How many calls were made.
    pub(crate) fn made(&self) -> u64
        ensures { result ≡ self.now.made }
    {
        self.count
    }

    /// Counts one more call, and says whether it is refused. A call that is refused has failed.
    pub(crate) fn refuses_next(&mut self) -> bool
        ensures refused { IsTrue result ↔ RefusesNext self.old }
        ensures counted { self.new ≡ (if result then with_fault self.old else with_call self.old) }
        ensures never_falls { self.old.faults ≤ self.new.faults }
    {
        self.count = self.count.saturating_add(1);
        let is_refused = self.numbers.contains(&self.count);
        if is_refused {
            self.failed = self.failed.saturating_add(1);
        }
        is_refused
    }

    /// Says that the call that was counted last has failed, though it was not refused.
    pub(crate) fn fail(&mut self)
        ensures counted { self.new ≡ record self.old { faults = raised self.old.faults } }
        ensures never_falls { self.old.faults ≤ self.new.faults }
    {
        self.failed = self.failed.saturating_add(1);
    }
}
