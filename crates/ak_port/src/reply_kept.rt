use ak_base::ThreadId;
use ak_turn::{BELL_COUNT, Bells};

/// Where a text stands in the book's bytes.
#[derive(Clone, Copy)]
pub(crate) struct Range {
    pub(crate) from: usize,
    pub(crate) len: usize,
}

#[derive(Clone, Copy)]
pub(crate) enum KeptEvent {
    Opened(u64),
    Filled(u64, Range),
    Cancelled(u64),
    Taken(u64),
}

/// An entry as the book keeps it: the bytes of all texts stand in one store.
#[derive(Clone, Copy)]
pub(crate) struct Kept {
    pub(crate) stamp: u64,
    pub(crate) by: ThreadId,
    pub(crate) event: KeptEvent,
}

/// The bell of those who wait for the opening of a slot.
pub(crate) const OPENINGS: u64 = 0;

/// The bell of whoever waits until that slot is filled.
pub(crate) fn filling(n: u64) -> u64 {
    1 + n % (BELL_COUNT as u64 - 1)
}

impl KeptEvent {
    // Whom it concerns. A slot is waited for by its opener alone, who then cancels and takes nothing.
    pub(crate) fn rings(&self) -> Bells {
        match self {
            KeptEvent::Opened(_) => Bells::One(OPENINGS),
            KeptEvent::Filled(n, _) => Bells::One(filling(*n)),
            KeptEvent::Cancelled(_) | KeptEvent::Taken(_) => Bells::None,
        }
    }
}
