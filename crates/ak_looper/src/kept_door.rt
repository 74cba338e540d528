//! Doors that the roster keeps.
ghost use Rattle.std.specs.Prelude.{◌≡◌, ℕ, [], true, false, is_some};
ghost use Rattle.std.specs.Arc.{arc_value};
ghost use Rattle.ak_base.specs.Thread.{keeper_thread};
ghost use Rattle.ak_turn.specs.Entries.{made_by};
ghost use Rattle.ak_turn.specs.Steps.{IsNewName};
ghost use Rattle.ak_port.specs.PortCalls as ports;
ghost use Rattle.ak_desk.specs.Shared as desks;

use crate::door::Door;
use ak_base::{NoMemory, ThreadId};
use ak_desk::Desk;
use ak_port::{Port, PortBook};
use ak_roster::Grant;
use ak_turn::{Seat, TurnLock};
use std::sync::Arc;

/// The door to a looper that the roster keeps, with the seats of the keeper. These are the heads at the port and at the
/// desk, which know the threads that have had a seat there: no other thread has made an entry. The keeper makes none.
#[derive(Drop)]
pub struct KeptDoor {
    /// The looper's port, shared.
    pub port: Arc<Port>,
    /// The keeper's seat at the port.
    pub port_seat: Seat<PortBook>,
    /// The looper's desk, shared.
    pub desk: Arc<TurnLock<Desk>>,
    /// The keeper's seat at the desk.
    pub desk_seat: Seat<Desk>,
    ghost port_of: { port_seat.lock ≡ arc_value port },
    ghost port_idle: { port_seat.turn ≡ false },
    ghost desk_of: { desk_seat.lock ≡ arc_value desk },
    ghost desk_idle: { desk_seat.turn ≡ false },
    ghost names: { desk_seat.names ≡ port_seat.names },
    ghost head: { is_some port_seat.names ≡ true },
    ghost keeper: { port_seat.thread ≡ keeper_thread },
    ghost keeper_idle: { made_by ports.by_number keeper_thread port_seat.front ≡ [] },
    ghost desk_keeper: { desk_seat.thread ≡ keeper_thread },
    ghost desk_keeper_idle: { made_by desks.by_number keeper_thread desk_seat.front ≡ [] },
    ghost port_known: { (thread : ℕ) → IsNewName port_seat.names thread → made_by ports.by_number thread port_seat.front ≡ [] },
    ghost desk_known: { (thread : ℕ) → IsNewName desk_seat.names thread → made_by desks.by_number thread desk_seat.front ≡ [] },
}

impl Grant for KeptDoor {
    ghost use Rattle.std.specs.Prelude.{◌≡◌, IfOk, OnOk, OnErr};
    ghost use Rattle.std.specs.Arc.{arc_value};
    ghost use Rattle.ak_roster.specs.Told.{IsNewIn, told_with};
    ghost use Rattle.ak_looper.specs.Doors.{door_object, IsNewDoor};

    type Part = Door;

    type Object = (Port, TurnLock<Desk>);

    ghost object = { λ d. door_object (arc_value d.port) (arc_value d.desk) };

    ghost threads = { λ d. d.port_seat.names };

    ghost part_object = { λ d. door_object (arc_value d.port) (arc_value d.desk) };

    ghost is_for = { λ d thread. IsNewDoor thread d.port_seat d.desk_seat };

    fn part(&mut self, thread: ThreadId) -> Result<Door, NoMemory>
        requires new { IsNewIn self.old.port_seat.names thread.0 }
        ensures object { door_object (arc_value self.new.port) (arc_value self.new.desk) ≡ door_object (arc_value self.old.port) (arc_value self.old.desk) }
        ensures part { IfOk result (λ part. door_object (arc_value part.port) (arc_value part.desk) ≡ door_object (arc_value self.old.port) (arc_value self.old.desk)) }
        ensures thread { IfOk result (λ part. IsNewDoor thread.0 part.port_seat part.desk_seat) }
        ensures threads { OnOk result (self.new.port_seat.names ≡ told_with self.old.port_seat.names thread.0) }
        ensures err { OnErr result (self.new ≡ self.old) }
    {
        let port = Arc::try_clone(&self.port)?;
        let desk = Arc::try_clone(&self.desk)?;
        let port_seat = self.port.split(&mut self.port_seat, thread);
        let desk_seat = self.desk.split(&mut self.desk_seat, thread);
        Ok(Door {
            port,
            port_seat,
            desk,
            desk_seat,
        })
    }
}
