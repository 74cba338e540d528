//! The doors to a looper that is about to start.
ghost use Rattle.std.specs.Prelude.{◌≡◌, ℕ, List, IfOk, OnOk, OnErr};
ghost use Rattle.std.specs.Arc.{arc_value};
ghost use Rattle.ak_base.specs.Thread.{keeper_thread};
ghost use Rattle.ak_team.specs.Doors.{HasGivenUpNames, HasNames, HasParted, IsKeptOf, IsNewAt, IsPartOf, KnowsBoth};

use ak_base::{NoMemory, ThreadId};
use ak_desk::Desk;
use ak_looper::{Door, KeptDoor};
use ak_port::{Port, PortBook};
use ak_turn::{TurnLock, new_seats_know};
use std::sync::Arc;

/// A door of that thread's, which has had none. What main's seats know of the port's list and the desk's they know after it.
pub(crate) fn part_door(door: &mut Door, thread: ThreadId) -> Result<Door, NoMemory>
    requires new { IsNewAt thread.0 door.old }
    ensures part { IfOk result (λ part. IsPartOf thread.0 door.old part) }
    ensures parted { OnOk result (HasParted thread.0 door.old door.new) }
    ensures known { KnowsBoth door.old → OnOk result (KnowsBoth door.new) }
    ensures err { OnErr result (door.new ≡ door.old) }
{
    new_seats_know::<PortBook>();
    new_seats_know::<Desk>();
    let port = Arc::try_clone(&door.port)?;
    let desk = Arc::try_clone(&door.desk)?;
    let port_seat = door.port.split(&mut door.port_seat, thread);
    let desk_seat = door.desk.split(&mut door.desk_seat, thread);
    Ok(Door {
        port,
        port_seat,
        desk,
        desk_seat,
    })
}

// The port and the desk that it leads to.
fn objects_of(door: &Door) -> Result<(Arc<Port>, Arc<TurnLock<Desk>>), NoMemory>
    ensures port { IfOk result (λ objects. arc_value objects.0 ≡ arc_value door.now.port) }
    ensures desk { IfOk result (λ objects. arc_value objects.1 ≡ arc_value door.now.desk) }
{
    let port = Arc::try_clone(&door.port)?;
    let desk = Arc::try_clone(&door.desk)?;
    Ok((port, desk))
}

/// The keeper's door. Its seats are the heads from then on.
pub(crate) fn keep_door(door: &mut Door) -> Result<KeptDoor, NoMemory>
    requires new { IsNewAt keeper_thread door.old }
    requires names { (names : List ℕ) × HasNames names door.old }
    requires known { KnowsBoth door.old }
    ensures kept { IfOk result (λ kept. IsKeptOf keeper_thread door.old kept) }
    ensures gave { OnOk result (HasGivenUpNames door.old door.new) }
    ensures err { OnErr result (door.new ≡ door.old) }
{
    let (port, desk) = objects_of(door)?;
    let port_seat = door.port.split_head(&mut door.port_seat, ThreadId::KEEPER);
    let desk_seat = door.desk.split_head(&mut door.desk_seat, ThreadId::KEEPER);
    Ok(KeptDoor {
        port,
        port_seat,
        desk,
        desk_seat,
    })
}
