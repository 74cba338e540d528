use ak_base::ThreadId;
use ak_desk::DeskEvent;
use ak_port::{PortEvent, ReplyEvent};
use ak_roster::RosterEvent;

/// One thing done in a run: at which object, by which thread, and when by its clock.
#[derive(Debug, Drop)]
pub struct Entry {
    /// One more than the greater of the clock's time and the last stamp before it at the object.
    pub stamp: u64,
    /// The thread that made it.
    pub by: ThreadId,
    /// Where it was made.
    pub object: ObjectName,
    /// What was done there.
    pub event: Event,
}

/// An object that threads share in a run. Loopers count from 0 over the whole run.
#[derive(Clone, Copy, Debug, PartialEq, Eq)]
pub enum ObjectName {
    /// The port of the looper with that number.
    Port(u32),
    /// The desk of the looper with that number.
    Desk(u32),
    /// The reply book.
    Book,
    /// The roster.
    Roster,
}

/// What was done, as the journal shows it.
#[derive(Debug, Drop)]
pub enum Event {
    /// To a port.
    Port(PortEvent),
    /// At a desk.
    Desk(DeskEvent),
    /// To a slot of the reply book.
    Book(ReplyEvent),
    /// At the roster.
    Roster(RosterEvent),
}
