use ak_desk::Desk;
use ak_port::{PortBook, ReplyBook};
use ak_roster::RosterEntry;

/// What was done in a run, object by object: the roster's entries; the reply book; the ports and the desks, by the
/// loopers' numbers from 0. Contracts see each book as its opening and its list of entries.
#[derive(Drop)]
pub struct Histories {
    /// The entries of the roster, oldest first.
    pub roster: Vec<RosterEntry>,
    /// The run's reply book.
    pub book: ReplyBook,
    /// The book of each looper's port.
    pub ports: Vec<PortBook>,
    /// The desk of each looper.
    pub desks: Vec<Desk>,
}
