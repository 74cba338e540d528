//! What a session has.
ghost use Rattle.std.specs.Prelude.{◌≡◌, ◌==◌, All, false, find, option_map};
ghost use Rattle.std.specs.Arc.{arc_value};

use ak_looper::{Door, KeptDoor, Roster};
use ak_messenger::Hands;
use ak_roster::RosterBook;
use ak_turn::Seat;
use std::sync::Arc;

/// What a session's thread has. Its clock and all its seats are of that thread, and hold no turn between calls.
#[derive(Drop)]
pub struct Session {
    /// Its hands.
    pub hands: Hands,
    /// The run's roster.
    pub roster: Arc<Roster>,
    /// Its seat there.
    pub roster_seat: Seat<RosterBook<KeptDoor>>,
    /// The doors that it got there, in order, each with its looper's number.
    pub doors: Vec<(u32, Door)>,
    ghost roster_of: { roster_seat.lock ≡ arc_value roster },
    ghost roster_idle: { roster_seat.turn ≡ false },
    ghost roster_thread: { roster_seat.thread ≡ hands.clock.thread.0 },
    ghost doors_thread: { All (λ door. door.1.port_seat.thread ≡ hands.clock.thread.0) doors.items },
}

impl Session {
    ghost use Rattle.std.specs.Prelude.{◌≡◌, length};
    ghost use Rattle.ak_session.specs.Stands.{front_at};

    /// How many entries it has seen at that looper's port: none where it has no door there.
    pub fn port_seen(&self, looper: u32) -> u64
        ensures { result ≡ length (front_at self.now looper) }
    {
        match door_to(&self.doors, looper) {
            Some(door) => door.1.port_seat.seen(),
            None => 0,
        }
    }
}

// The door to that looper, if there is one.
fn door_to(doors: &[(u32, Door)], looper: u32) -> Option<&(u32, Door)>
    ensures { option_map (λ door. door.now) result ≡ find (λ door. door.0 == looper) doors.now }
{
    doors.iter().find(|door| door.0 == looper)
}
