ghost use Rattle.std.specs.Prelude.{◌≡◌, false};
ghost use Rattle.std.specs.Arc.{arc_value};

use ak_desk::Desk;
use ak_port::{Port, PortBook};
use ak_turn::{Seat, TurnLock};
use std::sync::Arc;

/// The way of one thread to a looper: the looper's port and its desk, and the thread's seats there. Between calls each
/// seat is one at its lock and has no turn, and both are of one thread.
#[derive(Drop)]
pub struct Door {
    /// The looper's port, shared.
    pub port: Arc<Port>,
    /// The thread's seat at the port.
    pub port_seat: Seat<PortBook>,
    /// The looper's desk, shared.
    pub desk: Arc<TurnLock<Desk>>,
    /// The thread's seat at the desk.
    pub desk_seat: Seat<Desk>,
    ghost port_of: { port_seat.lock ≡ arc_value port },
    ghost port_idle: { port_seat.turn ≡ false },
    ghost desk_of: { desk_seat.lock ≡ arc_value desk },
    ghost desk_idle: { desk_seat.turn ≡ false },
    ghost thread: { desk_seat.thread ≡ port_seat.thread },
}
