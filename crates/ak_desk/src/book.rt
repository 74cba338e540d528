use crate::desk::Desk;
use crate::ending::last_stamp;
use crate::entry::{DeskEntry, EntryWithItem};
use ak_action::DeskState;
use ak_base::NoMemory;
use ak_turn::Book;

impl Book for Desk {
    ghost use Rattle.std.specs.Prelude.{◌≡◌, None};

    type Plain = DeskEntry;

    type Opening = DeskState;

    type Entry = EntryWithItem;

    ghost opening = { λ d. d.opening };

    ghost entries = { λ d. d.entries };

    ghost plain = { λ entry. entry.plain };

    ghost by = { λ entry. entry.by.0 };

    ghost stamp = { λ entry. entry.stamp };

    ghost at_rest = { λ d. d.begun ≡ None };

    fn last_stamp(&self) -> u64 {
        last_stamp(&self.entries)
    }

    fn len(&self) -> u64 {
        self.entries.len() as u64
    }

    fn entry(&self, place: u64) -> Result<Option<DeskEntry>, NoMemory> {
        match self.entries.get(place as usize) {
            Some(entry) => Ok(Some(entry.plain.try_clone(*self.entries.allocator())?)),
            None => Ok(None),
        }
    }
}
