use ak_base::{Bytes, ThreadId};

/// What was done to a slot, which its number tells. Slots count from 0.
#[derive(Debug, Drop)]
pub enum ReplyEvent {
    /// The entry's thread opened it.
    Opened(u64),
    /// It was filled, with the flat text of the reply.
    Filled(u64, Bytes),
    /// The opener cancelled it, while it was open.
    Cancelled(u64),
    /// The opener took what it was filled with.
    Taken(u64),
}

/// An entry of a reply book.
#[derive(Debug, Drop)]
pub struct ReplyEntry {
    /// One more than the greater of the clock's time and the last stamp before it.
    pub stamp: u64,
    /// The thread that made it.
    pub by: ThreadId,
    /// What was done.
    pub event: ReplyEvent,
}

/// What came of a fill.
#[derive(Clone, Copy, Debug, PartialEq, Eq)]
pub enum FillAnswer {
    /// The slot was open, and is filled now.
    Filled,
    /// The slot was filled or cancelled before. There is no entry.
    Duplicate,
}

/// What came of a cancelling.
#[derive(Clone, Copy, Debug, PartialEq, Eq)]
pub enum CancelAnswer {
    /// The slot was open, and is cancelled now.
    Cancelled,
    /// The slot was filled before. There is no entry.
    Duplicate,
}
