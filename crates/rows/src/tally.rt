ghost use Rattle.std.specs.Prelude.{◌≡◌, ◌+◌, ◌-◌, ◌^◌, if◌then◌else◌, min};

/// How many rows of a file there were, and how many of them were told as they say.
#[derive(Clone, Copy, Debug, PartialEq, Eq)]
pub struct Tally {
    /// How many rows there were.
    pub rows: u64,
    /// How many of them were told as they say.
    pub told: u64,
}

impl Tally {
    /// None so far.
    pub fn new() -> Tally
        ensures { result ≡ record { rows = 0; told = 0 } }
    {
        Tally { rows: 0, told: 0 }
    }

    /// One row more. Neither number passes 2^64 - 1.
    pub fn count(&mut self, as_it_says: bool)
        ensures rows { self.new.rows ≡ min (self.old.rows + 1) (2 ^ 64 - 1) }
        ensures told { self.new.told ≡ (if as_it_says then min (self.old.told + 1) (2 ^ 64 - 1) else self.old.told) }
    {
        self.rows = self.rows.saturating_add(1);
        if as_it_says {
            self.told = self.told.saturating_add(1);
        }
    }
}
