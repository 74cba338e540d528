//! Sends that a port refused.
ghost use Rattle.std.specs.Prelude.{◌≡◌, ◌<◌, ◌-◌, length};
ghost use Rattle.ak_run.specs.Recording.{fronts_of, list_at};
ghost use Rattle.ak_run.specs.Running.{IsRunning};
ghost use Rattle.ak_run.specs.Sending.{looper_count};
ghost use Rattle.ak_lines.specs.Came.{IsEnveloped, IsRefusal, MayRefuse};

use ak_base::{KitError, NoMemory};
use ak_lines::{Came, Outcome};
use ak_message::Target;
use ak_messenger::{Envelope, SendFault};
use ak_print::Told;
use ak_run::Run;

/// From no team, with nothing popped, and no reply is posted back.
pub(crate) fn envelope(target: Target, dropped: bool) -> Envelope
    ensures { IsEnveloped target dropped result }
{
    Envelope {
        target,
        team: 0,
        dropped,
        popped: 0,
        back: None,
    }
}

/// What a send came to that was not written for that fault. Where the port refused it, the entry that tells so is the last that main has
/// seen there. `NoMemory` where that is the fault.
pub(crate) fn refusal(run: &Run, looper: u32, fault: SendFault) -> Result<Came, NoMemory>
    requires running { IsRunning run.now }
    requires there { looper < looper_count run.now }
    requires may { MayRefuse (list_at (fronts_of run.now).ports looper) fault }
    ensures { IsRefusal looper (list_at (fronts_of run.now).ports looper) fault result }
{
    match fault {
        SendFault::BadPort => Ok(refused(run, looper, KitError::BadPortId)),
        SendFault::Spent => Ok(refused(run, looper, KitError::Spent)),
        SendFault::WouldBlock => Ok(refused(run, looper, KitError::WouldBlock)),
        SendFault::NoMemory => Err(NoMemory),
        SendFault::TooLong => unreachable!(),
    }
}

// The same with that error.
fn refused(run: &Run, looper: u32, error: KitError) -> Came
    requires running { IsRunning run.now }
    requires there { looper < looper_count run.now }
    requires some { 0 < length (list_at (fronts_of run.now).ports looper) }
    ensures outcome { result.outcome ≡ Outcome.SendRefused looper (length (list_at (fronts_of run.now).ports looper) - 1) error }
    ensures told { result.told ≡ Told.Refused error }
{
    let place = run.port_seen(looper) - 1;
    Came {
        outcome: Outcome::SendRefused {
            looper,
            place,
            error,
        },
        told: Told::Refused(error),
    }
}
