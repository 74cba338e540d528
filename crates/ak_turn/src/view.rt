//! What each seat knows, for proofs alone: no value of these types is made.
use std::collections::LinkedList;

/// How far a seat is with its turn. Tickets count without a bound.
pub enum Stage {
    /// It has no ticket.
    Idle,
    /// It has drawn that ticket.
    Waits(u64),
    /// It has the turn, by that ticket.
    HasTurn(u64),
    /// It was joined to another seat.
    Spent,
}

/// A thread, the front that it has seen, and the places of its own entries in it.
pub struct Part<L> {
    /// The number of the thread.
    pub thread: u64,
    /// The beginning of the history that it has seen, oldest first.
    pub front: LinkedList<L>,
    /// The places there of its own entries, counted from 0.
    pub own: LinkedList<u64>,
}

/// What one seat knows.
pub struct View<O, L> {
    /// How far it is with its turn.
    pub stage: Stage,
    /// None in a spent view alone.
    pub opening: Option<O>,
    /// Its own thread.
    pub me: Part<L>,
    /// The parts of the seats that were joined to it.
    pub joined: LinkedList<Part<L>>,
    /// The threads that have had a seat. The head alone knows them.
    pub names: Option<LinkedList<u64>>,
}
