use ak_base::{Bytes, ThreadId};

/// How far a slot is.
#[derive(Clone, Copy, PartialEq, Eq)]
pub(crate) enum Progress {
    Open,
    Filled,
    Cancelled,
    Taken,
}

/// A slot: who opened it, how far it is, and its bytes. While it is open they are the text that stands for no
/// reply; once it is filled they are the reply's.
#[derive(Drop)]
pub(crate) struct Slot {
    pub(crate) opener: ThreadId,
    pub(crate) progress: Progress,
    pub(crate) flat: Bytes,
}
