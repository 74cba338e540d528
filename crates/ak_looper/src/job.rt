//! What a looper's thread is started with, and what it gives back.
ghost use Rattle.std.specs.Prelude.{◌≡◌, false};
ghost use Rattle.std.specs.Arc.{arc_value};
ghost use Rattle.ak_base.specs.Thread.{looper_thread};

use crate::door::Door;
use crate::kept_door::KeptDoor;
use crate::roster::Roster;
use ak_flatten::Taken;
use ak_messenger::Hands;
use ak_roster::RosterBook;
use ak_turn::Seat;
use std::collections::VecDeque;
use std::sync::Arc;

/// What a looper's thread is started with. Its clock and all its seats are of the looper's own thread, and have made
/// nothing yet.
#[derive(Drop)]
pub struct LooperJob {
    /// The looper's number in the run.
    pub number: u32,
    /// Its team's.
    pub team: u32,
    /// The number of its team's first looper, which is the application's own.
    pub first: u32,
    /// How many loopers its team has.
    pub loopers: u32,
    /// Its hands. The clock's time is the stamp of the launch of its team.
    pub hands: Hands,
    /// The door to itself.
    pub own: Door,
    /// Of an application's own looper the doors to the other loopers of its team, in order, each with its looper's number;
    /// of another looper none.
    pub doors: Vec<(u32, Door)>,
    /// What it takes into: empty, with room for as many items as its port holds.
    pub queue: VecDeque<Taken>,
    /// The run's roster.
    pub roster: Arc<Roster>,
    /// Its seat there, which has seen the launch of its team.
    pub roster_seat: Seat<RosterBook<KeptDoor>>,
    ghost looper: { hands.clock.thread.0 ≡ looper_thread number },
    ghost own_thread: { own.port_seat.thread ≡ hands.clock.thread.0 },
    ghost roster_of: { roster_seat.lock ≡ arc_value roster },
    ghost roster_idle: { roster_seat.turn ≡ false },
    ghost roster_thread: { roster_seat.thread ≡ hands.clock.thread.0 },
}

/// How a looper's thread ended.
#[derive(Clone, Copy, Debug, PartialEq, Eq)]
pub enum EndKind {
    /// A call of it found no memory.
    NoMemory,
    /// Its last dispatch told that it is to end.
    Quit,
    /// Its port was shut by others.
    TeamClosed,
}

/// What a looper's thread gives back: its hands and all its seats, which hold no turn.
#[derive(Drop)]
pub struct LooperEnd {
    /// The looper's number in the run.
    pub number: u32,
    /// Its hands.
    pub hands: Hands,
    /// The door to itself.
    pub own: Door,
    /// The doors that it was started with, and those that it got at the roster, in order.
    pub doors: Vec<(u32, Door)>,
    /// Its seat at the roster.
    pub roster_seat: Seat<RosterBook<KeptDoor>>,
    /// How it ended.
    pub kind: EndKind,
    ghost own_thread: { own.port_seat.thread ≡ hands.clock.thread.0 },
    ghost roster_idle: { roster_seat.turn ≡ false },
    ghost roster_thread: { roster_seat.thread ≡ hands.clock.thread.0 },
}
