//! All entries of a run, in one list.
ghost use Rattle.std.specs.Prelude.{◌≡◌, IfOk};
ghost use Rattle.ak_world.specs.Merged.{IsMerged, entries_of};

use crate::listing::{put_book, put_desks, put_ports, put_roster};
use ak_base::NoMemory;
use ak_diary::Histories;
use ak_journal::{Entry, ObjectName};
use std::alloc::Global;

/// All entries of the histories in one list, by their stamps, and those of one stamp by their threads: main, the
/// sessions, the loopers. Where a thread has two of one stamp, they stand as the roster, the reply
/// book, the ports and the desks have them. Each is a copy. `NoMemory` where memory ran out. In time as many steps as there
/// are entries, times the logarithm of the number of objects.
pub fn merge(alloc: Global, histories: &Histories) -> Result<Vec<Entry>, NoMemory>
    ensures { IfOk result (λ entries. IsMerged histories.now entries.items) }
{
    let mut entries = all_entries(alloc, histories)?;
    entries.sort_by_key(|entry: &Entry| (entry.stamp, entry.by.0))?;
    Ok(entries)
}

// The entries of each object, one object after the other. The list of each is in order, so that the sort has as many
// runs as there are objects.
fn all_entries(alloc: Global, histories: &Histories) -> Result<Vec<Entry>, NoMemory>
    ensures { IfOk result (λ entries. entries.items ≡ entries_of histories.now) }
{
    let mut entries = Vec::new(alloc);
    put_roster(histories.roster.as_slice(), &mut entries)?;
    put_book(ObjectName::Book, &histories.book, &mut entries)?;
    put_ports(histories.ports.as_slice(), &mut entries)?;
    put_desks(histories.desks.as_slice(), &mut entries)?;
    Ok(entries)
}
