//! Stamps, and the book that the tests of turns share.
use super::tally::{Count, Tally};
use ak_base::ThreadId;
use ak_turn::{Book, Clock};
use std::alloc::Global;
use std::test::Fail;

// The clock's time, the object's last stamp, and the stamp.
static STAMPS: [(u64, u64, u64); 7] = [
    (0, 0, 1),
    (0, 7, 8),
    (7, 0, 8),
    (7, 7, 8),
    (8, 7, 9),
    (7, 8, 9),
    ((1 << 63) - 1, (1 << 63) - 1, 1 << 63),
];

// The stamp behind that time and that last stamp, and the clock's time and thread then; zeros where no stamp is left.
fn stamped(time: u64, last: u64) -> Stamped {
    if time >= 1 << 63 || last >= 1 << 63 {
        return (0, 0, ThreadId(0));
    }
    let mut clock = Clock {
        thread: ThreadId(4),
        time,
    };
    let stamp = clock.stamp(last);
    (stamp, clock.time, clock.thread)
}

type Stamped = (u64, u64, ThreadId);

/// The first one that is stamped otherwise: its place, what came, and what was to come.
pub fn first_stamp() -> Option<(usize, Stamped, Stamped)> {
    for (place, &(time, last, stamp)) in STAMPS.iter().enumerate() {
        let wanted = (stamp, stamp, ThreadId(4));
        let came = stamped(time, last);
        if came != wanted {
            return Some((place, came, wanted));
        }
    }
    None
}

/// Two stamps of one thread.
pub fn two_stamps() -> (u64, u64) {
    let mut clock = Clock {
        thread: ThreadId(0),
        time: 0,
    };
    let first = clock.stamp(5);
    (first, clock.stamp(0))
}

const FIRST: Count = Count {
    stamp: 3,
    by: ThreadId(1),
    number: 40,
};

const SECOND: Count = Count {
    stamp: 5,
    by: ThreadId(2),
    number: 50,
};

/// The last stamp of a tally, how long it is, and its first three entries.
pub type Told = (u64, u64, [Option<Count>; 3]);

fn told_by(tally: &Tally) -> Result<Told, Fail> {
    let entries = [tally.entry(0)?, tally.entry(1)?, tally.entry(2)?];
    Ok((tally.last_stamp(), tally.len(), entries))
}

/// A tally before and after two entries.
pub fn two_entries(alloc: Global) -> Result<(Told, Told), Fail> {
    let mut tally = Tally::new(alloc);
    let before = told_by(&tally)?;
    tally.add(FIRST)?;
    tally.add(SECOND)?;
    Ok((before, told_by(&tally)?))
}

/// What is told of it.
pub const BOOKS: (Told, Told) = (
    (0, 0, [None, None, None]),
    (5, 2, [Some(FIRST), Some(SECOND), None]),
);
