//! Sends that a port refused.
ghost use Rattle.std.specs.Prelude.{◌≡◌, ◌<◌, ◌-◌, length};
ghost use Rattle.ak_session.specs.Stands.{front_at};
ghost use Rattle.ak_lines.specs.Came.{IsEnveloped, IsRefusal, MayRefuse};

use crate::came::Came;
use crate::outcome::Outcome;
use ak_base::{KitError, NoMemory};
use ak_message::Target;
use ak_messenger::{Envelope, SendFault};
use ak_print::Told;
use ak_session::Session;

/// From no team, with nothing popped, and no reply is posted back.
pub(crate) fn envelope(target: Target, dropped: bool) -> Envelope
    ensures { IsEnveloped target dropped result }
{
    Envelope {
        target,
        team: 0,
        dropped,
        popped: 0,
        back: None,
    }
}

/// What a send came to that was not written for that fault. Where the port refused it, the entry that tells so is the last that the session
/// has seen there. `NoMemory` where that is the fault.
pub(crate) fn refusal(session: &Session, looper: u32, fault: SendFault) -> Result<Came, NoMemory>
    requires may { MayRefuse (front_at session.now looper) fault }
    ensures { IsRefusal looper (front_at session.now looper) fault result }
{
    match fault {
        SendFault::BadPort => Ok(refused(session, looper, KitError::BadPortId)),
        SendFault::Spent => Ok(refused(session, looper, KitError::Spent)),
        SendFault::WouldBlock => Ok(refused(session, looper, KitError::WouldBlock)),
        SendFault::NoMemory => Err(NoMemory),
        SendFault::TooLong => unreachable!(),
    }
}

// The same with that error.
fn refused(session: &Session, looper: u32, error: KitError) -> Came
    requires some { 0 < length (front_at session.now looper) }
    ensures outcome { result.outcome ≡ Outcome.SendRefused looper (length (front_at session.now looper) - 1) error }
    ensures told { result.told ≡ Told.Refused error }
{
    let place = session.port_seen(looper) - 1;
    Came {
        outcome: Outcome::SendRefused {
            looper,
            place,
            error,
        },
        told: Told::Refused(error),
    }
}
