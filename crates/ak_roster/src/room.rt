//! Room that is taken before anything is changed.
ghost use Rattle.std.specs.Prelude.{◌≡◌, ◌<◌, ◌≤◌, ◌+◌, ◌++◌, ◌∷◌, [], length, OnOk, vec_capacity};

use crate::entry::RosterEntry;
use crate::team::Running;
use ak_base::NoMemory;

/// Room for so many entries and then for the ends of these teams.
pub(crate) fn reserve_after(
    entries: &mut Vec<RosterEntry>,
    more: usize,
    running: &[Running],
) -> Result<(), NoMemory>
    requires { more ≤ 2 }
    ensures items { entries.new.items ≡ entries.old.items }
    ensures room { vec_capacity entries.old ≤ vec_capacity entries.new }
    ensures ok { OnOk result (length entries.new.items + (more + length running.now) ≤ vec_capacity entries.new) }
{
    entries.reserve(more + running.len())?;
    Ok(())
}

/// Room for a launch with so many loopers, and then for the ends of all teams.
pub(crate) fn reserve_launch<D>(
    entries: &mut Vec<RosterEntry>,
    running: &mut Vec<Running>,
    doors: &mut Vec<D>,
    loopers: usize,
) -> Result<(), NoMemory>
    ensures entries { entries.new.items ≡ entries.old.items }
    ensures running { running.new.items ≡ running.old.items }
    ensures doors { doors.new.items ≡ doors.old.items }
    ensures room { vec_capacity entries.old ≤ vec_capacity entries.new }
    ensures entries_ok { OnOk result (length entries.new.items + (2 + length running.new.items) ≤ vec_capacity entries.new) }
    ensures running_ok { OnOk result (length running.new.items < vec_capacity running.new) }
    ensures doors_ok { OnOk result (length doors.new.items + loopers ≤ vec_capacity doors.new) }
{
    reserve_after(entries, 2, running)?;
    running.reserve(1)?;
    doors.reserve(loopers)?;
    Ok(())
}

/// Adds an item for which there is room.
pub(crate) fn push_reserved<T: Drop>(items: &mut Vec<T>, item: T)
    requires { length items.old.items < vec_capacity items.old }
    ensures items { items.new.items ≡ items.old.items ++ item ∷ [] }
    ensures room { vec_capacity items.old ≤ vec_capacity items.new }
{
    items.push(item).unwrap();
}

/// Adds items for which there is room.
pub(crate) fn append_reserved<T: Drop>(items: &mut Vec<T>, mut more: Vec<T>)
    requires { length items.old.items + length more.items ≤ vec_capacity items.old }
    ensures { items.new.items ≡ items.old.items ++ more.items }
{
    items.append(&mut more).unwrap();
}
