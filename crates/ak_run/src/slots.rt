//! The sessions of a run, as main has them.
ghost use Rattle.std.specs.Prelude.{◌≡◌, ◌<◌, ◌≤◌, ◌++◌, ◌∷◌, [], All, None, OnOk, Some, false, is_some, length, true, vec_capacity};
ghost use Rattle.ak_gather.specs.Gathering.{GoesOnKnowing};
ghost use Rattle.ak_run.specs.Sessions.{AreSessionsJoined, IsClosedAt, IsSessionJoined, session_limit, told_in, told_of};

use ak_base::NoMemory;
use ak_looper::{Door, KeptDoor, Roster};
use ak_messenger::Hands;
use ak_port::ReplyBook;
use ak_roster::RosterBook;
use ak_session::Session;
use ak_turn::{Seat, TurnLock};
use std::snapshot::Snapshot;

/// A session that was opened: as it was then, and what it was closed with, if it was closed.
#[derive(Drop)]
pub(crate) struct Slot {
    pub(crate) opened: Snapshot<Session>,
    pub(crate) closed: Option<Session>,
}

/// The sessions of a run, in the order in which they were opened. The thread of each is one more than its place.
#[derive(Drop)]
pub(crate) struct Slots {
    pub(crate) sessions: Vec<Slot>,
    // Room for the doors of each, which the end takes in.
    pub(crate) ways: Vec<Vec<(u32, Door)>>,
}

impl Slots {
    /// Makes room for one session more.
    pub(crate) fn reserve(&mut self) -> Result<(), NoMemory>
        requires few { length (told_in self.old) < session_limit }
        ensures sessions { told_in self.new ≡ told_in self.old }
        ensures ways { self.new.ways.items ≡ self.old.ways.items }
        ensures never_falls { vec_capacity self.old.ways ≤ vec_capacity self.new.ways }
        ensures room { OnOk result (length self.new.sessions.items < vec_capacity self.new.sessions) }
        ensures room_for_ways { OnOk result (length (told_in self.new) < vec_capacity self.new.ways) }
    {
        self.sessions.reserve(1)?;
        self.ways.reserve(self.sessions.len() + 1)?;
        Ok(())
    }

    /// One session more, for which there is room.
    pub(crate) fn put(&mut self, session: &Session)
        requires room { length self.old.sessions.items < vec_capacity self.old.sessions }
        ensures sessions { told_in self.new ≡ told_in self.old ++ (session.now, None) ∷ [] }
        ensures ways { self.new.ways ≡ self.old.ways }
    {
        self.sessions.push_reserved(Slot {
            opened: Snapshot::of(session),
            closed: None,
        });
    }
}

// What the session was closed with.
fn closed_with(slot: Slot) -> Session
    requires { is_some slot.closed ≡ true }
    ensures { slot.closed ≡ Some result }
{
    let Slot { opened: _, closed } = slot;
    match closed {
        Some(session) => session,
        None => unreachable!(),
    }
}

// Main's seats take in what the session's seats know. With it come its doors.
fn join_slot(
    slot: Slot,
    roster: &Roster,
    roster_seat: &mut Seat<RosterBook<KeptDoor>>,
    book: &TurnLock<ReplyBook>,
    book_seat: &mut Seat<ReplyBook>,
) -> Vec<(u32, Door)>
    requires roster_of { roster_seat.old.lock ≡ roster.now }
    requires roster_idle { roster_seat.old.turn ≡ false }
    requires book_of { book_seat.old.lock ≡ book.now }
    requires book_idle { book_seat.old.turn ≡ false }
    requires closed { IsClosedAt roster.now book.now (told_of slot) }
    ensures joined { IsSessionJoined roster_seat.new book_seat.new (told_of slot) result }
    ensures roster { GoesOnKnowing roster_seat.old roster_seat.new }
    ensures book { GoesOnKnowing book_seat.old book_seat.new }
{
    let Session {
        hands,
        roster: _,
        roster_seat: at_roster,
        doors,
    } = closed_with(slot);
    let Hands {
        clock: _,
        book: _,
        book_seat: at_book,
    } = hands;
    roster.join(roster_seat, at_roster);
    book.join(book_seat, at_book);
    doors
}

/// Main's seats take in what the seats of all sessions know, which were closed. With it come the doors of each.
pub(crate) fn join_slots(
    slots: Slots,
    roster: &Roster,
    roster_seat: &mut Seat<RosterBook<KeptDoor>>,
    book: &TurnLock<ReplyBook>,
    book_seat: &mut Seat<ReplyBook>,
) -> Vec<Vec<(u32, Door)>>
    requires roster_of { roster_seat.old.lock ≡ roster.now }
    requires roster_idle { roster_seat.old.turn ≡ false }
    requires book_of { book_seat.old.lock ≡ book.now }
    requires book_idle { book_seat.old.turn ≡ false }
    requires closed { All (IsClosedAt roster.now book.now) (told_in slots) }
    requires no_ways { slots.ways.items ≡ [] }
    requires room { length (told_in slots) ≤ vec_capacity slots.ways }
    ensures joined { AreSessionsJoined roster_seat.new book_seat.new (told_in slots) result.items }
    ensures roster { GoesOnKnowing roster_seat.old roster_seat.new }
    ensures book { GoesOnKnowing book_seat.old book_seat.new }
{
    let Slots { sessions, mut ways } = slots;
    for slot in sessions {
        let doors = join_slot(slot, roster, roster_seat, book, book_seat);
        ways.push_reserved(doors);
    }
    ways
}
