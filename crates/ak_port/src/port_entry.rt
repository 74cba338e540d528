ghost use Rattle.std.specs.Prelude.{◌≡◌, IfOk};

use ak_base::{NoMemory, ThreadId};
use ak_flatten::Item;
use ak_turn::Bells;
use std::alloc::Global;

/// The bell of those who wait for room.
pub(crate) const ROOM: u64 = 0;

/// The bell of the taker, who waits for an item.
pub(crate) const ITEMS: u64 = 1;

/// What was done to a port, by which thread, and when by its clock.
#[derive(Debug, Drop)]
pub struct PortEntry {
    /// One more than the greater of the clock's time and the last stamp before it.
    pub stamp: u64,
    /// The thread that made it.
    pub by: ThreadId,
    /// What was done.
    pub event: PortEvent,
}

/// What was done to a port. Positions count all items that were ever written, from 0.
#[derive(Debug, Drop)]
pub enum PortEvent {
    /// It was made, to hold so many items at a time, and to accept so many in all.
    Made { capacity: u32, life: u32 },
    /// An item was written, at that position: as many were written before it.
    Written { position: u64, item: Item },
    /// A write was refused, since as many items were pending as the port holds.
    Full,
    /// A write was refused, since the port was shut.
    Refused,
    /// A write was refused, since as many items were written as the port accepts in all.
    Spent,
    /// The taker took so many of the oldest pending items.
    Took(u32),
    /// After the port was shut the taker took what was pending, so many items.
    Rest(u32),
    /// It was shut: nothing is written any more.
    Shut,
}

/// What a write answers. The refusals are tested in the order in which they stand. A refused item is given back
/// as it was. Each answer but `NoMemory` is an entry.
#[derive(Debug, Drop)]
pub enum WriteAnswer {
    /// It was written, at that position, counted from 0.
    Wrote(u64),
    /// The port is shut.
    Closed(Item),
    /// As many items were written as the port accepts in all.
    Spent(Item),
    /// As many items are pending as the port holds. `write` waits then, and never answers it.
    Full(Item),
    /// Memory ran out: nothing was written, and there is no entry.
    NoMemory(Item),
}

/// Why a write is refused, tested in this order.
#[derive(Clone, Copy, Debug, PartialEq, Eq)]
pub(crate) enum Refusal {
    Closed,
    Spent,
    Full,
}

/// What a take answers, with the number of items that were handed out.
#[derive(Clone, Copy, Debug, PartialEq, Eq)]
pub enum TakeAnswer {
    /// The oldest pending items, at least one. The port is not shut.
    Took(u32),
    /// All that was pending, maybe nothing. The port is shut.
    Rest(u32),
}

/// What a closing answers.
#[derive(Clone, Copy, Debug, PartialEq, Eq)]
pub enum CloseAnswer {
    /// It shut the port.
    Shut,
    /// The port was shut before. There is no entry.
    AlreadyShut,
}

impl PortEvent {
    // Whom it concerns. Where a port is full, only a take or its closing ends that; where it holds nothing, only a
    // write or its closing.
    pub(crate) fn rings(&self) -> Bells {
        match self {
            PortEvent::Written { .. } => Bells::One(ITEMS),
            PortEvent::Took(_) | PortEvent::Rest(_) => Bells::One(ROOM),
            PortEvent::Shut => Bells::All,
            PortEvent::Made { .. } | PortEvent::Full | PortEvent::Refused | PortEvent::Spent => {
                Bells::None
            }
        }
    }

    /// An equal event, or `NoMemory` where memory ran out.
    pub fn try_clone(&self, alloc: Global) -> Result<PortEvent, NoMemory>
        ensures { IfOk result (λ event. event ≡ self.now) }
    {
        Ok(match self {
            PortEvent::Made { capacity, life } => PortEvent::Made {
                capacity: *capacity,
                life: *life,
            },
            PortEvent::Written { position, item } => PortEvent::Written {
                position: *position,
                item: item.try_clone(alloc)?,
            },
            PortEvent::Full => PortEvent::Full,
            PortEvent::Refused => PortEvent::Refused,
            PortEvent::Spent => PortEvent::Spent,
            PortEvent::Took(count) => PortEvent::Took(*count),
            PortEvent::Rest(count) => PortEvent::Rest(*count),
            PortEvent::Shut => PortEvent::Shut,
        })
    }
}

impl PortEntry {
    /// An equal entry, or `NoMemory` where memory ran out.
    pub fn try_clone(&self, alloc: Global) -> Result<PortEntry, NoMemory>
        ensures { IfOk result (λ entry. entry ≡ self.now) }
    {
        Ok(PortEntry {
            stamp: self.stamp,
            by: self.by,
            event: self.event.try_clone(alloc)?,
        })
    }
}
