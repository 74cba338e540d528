//! The object whose turns are timed: a list of numbers, each with its stamp and its thread.
ghost use Rattle.std.specs.Prelude.{◌≡◌, ◌++◌, ◌∷◌, [], OnOk, OnErr};

use ak_base::{NoMemory, ThreadId};
use ak_turn::Book;
use std::alloc::Global;
use std::marker::Model;

/// A number that a thread entered.
#[derive(Clone, Copy)]
pub struct Count {
    pub stamp: u64,
    pub by: ThreadId,
    pub number: u32,
}

#[derive(Drop)]
pub struct Tally {
    entries: Vec<Count>,
}

impl Model for Tally {
    ghost use Rattle.std.specs.Prelude.{List};
    ghost use Rattle.kit_bench.specs.declared.tally.Count.{Count};

    ghost Value = { List Count };

    ghost view = { λ tally. tally.entries.items };
}

impl Tally {
    pub fn new(alloc: Global) -> Tally
        ensures { result ≡ [] }
    {
        Tally {
            entries: Vec::new(alloc),
        }
    }

    pub fn add(&mut self, count: Count) -> Result<(), NoMemory>
        ensures ok { OnOk result (self.new ≡ self.old ++ count ∷ []) }
        ensures err { OnErr result (self.new ≡ self.old) }
    {
        self.entries.push(count)?;
        Ok(())
    }
}

impl Book for Tally {
    type Plain = Count;

    type Opening = ();

    type Entry = Count;

    ghost opening = { λ _. tt };

    ghost entries = { λ tally. tally };

    ghost plain = { λ count. count };

    ghost by = { λ count. count.by.0 };

    ghost stamp = { λ count. count.stamp };

    ghost at_rest = { λ _. Unit {0} };

    fn last_stamp(&self) -> u64 {
        self.entries.last().map_or(0, |count| count.stamp)
    }

    fn len(&self) -> u64 {
        self.entries.len() as u64
    }

    fn entry(&self, place: u64) -> Result<Option<Count>, NoMemory> {
        Ok(self.entries.get(place as usize).copied())
    }
}
