ghost use Rattle.std.specs.Prelude.{◌≡◌, ℕ, List, length, option_map, slice_get, IfOk};
ghost use Rattle.ak_turn.specs.Entries.{last_stamp_of};

use crate::bells::Bells;
use ak_base::NoMemory;

/// An object that threads share, as the list of what was done to it. It has an opening, which no call
/// changes, and a list of entries, oldest first. An entry may hold more than the journal shows of it. No value
/// of an opening or an entry need exist.
pub trait Book: Drop {
    /// What the journal shows of an entry: its stamp, the thread that made it, what was done.
    type Plain;

    /// What no call changes of the object.
    type Opening;

    /// One thing done, and what is kept beside what the journal shows of it.
    type Entry;

    ghost opening: { Self → Self.Opening };
    // All that was done.
    ghost entries: { Self → List Self.Entry };
    // What the journal shows of an entry.
    ghost plain: { Self.Entry → Self.Plain };
    // The number of the thread that made the entry.
    ghost by: { Self.Plain → ℕ };

    ghost stamp: { Self.Plain → ℕ };
    // Nothing is begun in it: another thread may have it.
    ghost at_rest: { Self → Type 0 };

    /// The stamp of the last entry, 0 where there is none. Takes no memory.
    fn last_stamp(&self) -> u64
        ensures { result ≡ last_stamp_of (λ entry. stamp (plain entry)) (entries self.now) };

    /// How many entries there are. Takes no memory.
    fn len(&self) -> u64
        ensures { result ≡ length (entries self.now) };

    /// A copy of what the journal shows of the entry at that place, the oldest at 0. `None` from `len` on;
    /// `NoMemory` where memory ran out.
    fn entry(&self, place: u64) -> Result<Option<Self::Plain>, NoMemory>
        ensures { IfOk result (λ entry. entry ≡ option_map plain (slice_get (entries self.now) place)) };

    /// Which bells the last entry rings. Each thread that waits at a bell for what that entry brings has to be at one
    /// of these, or may sleep on. Nothing is claimed of it. Takes no memory.
    fn rings(&self) -> Bells {
        Bells::All
    }
}
