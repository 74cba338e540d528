//! What an application's own looper gets before it starts.
ghost use Rattle.std.specs.Prelude.{◌≡◌, ◌<◌, ◌≤◌, ◌∷◌, [], ℕ, length, option_map, IsErrOf, None, OnErr, OnOk, false};
ghost use Rattle.ak_base.specs.declared.thread.ThreadId.{ThreadId};
ghost use Rattle.ak_flatten.specs.Limits.{flat_limit};
ghost use Rattle.ak_flatten.specs.Spelling.{spelling};
ghost use Rattle.ak_turn.specs.Called.{KeepsSeat};
ghost use Rattle.ak_port.specs.PortCalls.{CanTake, HasAnswered};
ghost use Rattle.ak_team.specs.Doors.{KeepsDoor};
ghost use Rattle.ak_base.specs.Thread.{main_thread};
ghost use Rattle.ak_team.specs.InTime.{AddsAtPort};
ghost use Rattle.ak_team.specs.Greeting.{HasSent, IsAlone, arguments_told, made_event, told_first, written_from};

use ak_base::{Code, NoMemory};
use ak_looper::Door;
use ak_message::{Message, Target};
use ak_messenger::{Envelope, Hands, SendFault, post};
use std::alloc::Global;
use std::sync::Wait;

// From nobody's team, and with nothing owed for it.
const FROM_MAIN: Envelope = Envelope {
    target: Target::Preferred,
    team: 0,
    dropped: false,
    popped: 0,
    back: None,
};

/// Sends it to the looper that the door leads to, and waits for room. A port that refuses it changes nothing; without memory nothing is
/// entered there.
pub fn send<R: Wait>(
    alloc: Global,
    rt: &R,
    hands: &mut Hands,
    door: &mut Door,
    message: &Message,
) -> Result<(), NoMemory>
    requires thread { door.old.port_seat.thread ≡ hands.old.clock.thread.0 }
    ensures door { KeepsDoor door.old door.new }
    ensures adds { door.old.port_seat.thread ≡ main_thread → AddsAtPort hands.old.clock.time hands.new.clock.time door.old.port_seat.front door.new.port_seat.front }
    ensures sent { OnOk result (HasSent message.now hands.old.clock hands.new.clock door.old.port_seat door.new.port_seat) }
    ensures unsent { OnErr result (HasAnswered None hands.old.clock hands.new.clock door.old.port_seat door.new.port_seat) }
    ensures fits { OnErr result (¬ (flat_limit < length (spelling message.now))) }
    ensures book { hands.new.book ≡ hands.old.book }
    ensures book_seat { hands.new.book_seat ≡ hands.old.book_seat }
    ensures clock { hands.new.clock.thread ≡ hands.old.clock.thread }
{
    unless_memory_ran_out(post(
        alloc,
        hands,
        rt,
        &door.port,
        &mut door.port_seat,
        FROM_MAIN,
        message,
    ))
}

// Want of memory alone is a fault: it is main's, and no answer of the port.
fn unless_memory_ran_out(sent: Result<u64, SendFault>) -> Result<(), NoMemory>
    ensures sent { OnOk result (IsErrOf sent SendFault.NoMemory → ⊥) }
    ensures wanting { OnErr result (IsErrOf sent SendFault.NoMemory) }
{
    match sent {
        Err(SendFault::NoMemory) => Err(NoMemory),
        Err(SendFault::TooLong | SendFault::BadPort | SendFault::Spent | SendFault::WouldBlock) => {
            Ok(())
        }
        Ok(_) => Ok(()),
    }
}

// The same, where there is one.
fn send_if<R: Wait>(
    alloc: Global,
    rt: &R,
    hands: &mut Hands,
    door: &mut Door,
    message: Option<&Message>,
) -> Result<(), NoMemory>
    requires thread { door.old.port_seat.thread ≡ hands.old.clock.thread.0 }
    ensures door { KeepsDoor door.old door.new }
    ensures adds { door.old.port_seat.thread ≡ main_thread → AddsAtPort hands.old.clock.time hands.new.clock.time door.old.port_seat.front door.new.port_seat.front }
    ensures told { (capacity : ℕ) → 2 ≤ capacity → IsAlone (made_event capacity ∷ []) door.old.port_seat → OnOk result (IsAlone (made_event capacity ∷ written_from 0 (arguments_told (option_map (λ m. m.now) message.entry))) door.new.port_seat) }
    ensures book { hands.new.book ≡ hands.old.book }
    ensures book_seat { hands.new.book_seat ≡ hands.old.book_seat }
    ensures clock { hands.new.clock.thread ≡ hands.old.clock.thread }
{
    match message {
        Some(message) => send(alloc, rt, hands, door, message),
        None => Ok(()),
    }
}

/// Its arguments, if there are any, and then that it is ready to run.
pub(crate) fn greet<R: Wait>(
    alloc: Global,
    rt: &R,
    hands: &mut Hands,
    door: &mut Door,
    arguments: Option<&Message>,
) -> Result<(), NoMemory>
    requires thread { door.old.port_seat.thread ≡ hands.old.clock.thread.0 }
    ensures door { KeepsDoor door.old door.new }
    ensures adds { door.old.port_seat.thread ≡ main_thread → AddsAtPort hands.old.clock.time hands.new.clock.time door.old.port_seat.front door.new.port_seat.front }
    ensures told { (capacity : ℕ) → 2 ≤ capacity → IsAlone (made_event capacity ∷ []) door.old.port_seat → OnOk result (IsAlone (made_event capacity ∷ written_from 0 (told_first (option_map (λ m. m.now) arguments.entry))) door.new.port_seat) }
    ensures book { hands.new.book ≡ hands.old.book }
    ensures book_seat { hands.new.book_seat ≡ hands.old.book_seat }
    ensures clock { hands.new.clock.thread ≡ hands.old.clock.thread }
{
    send_if(alloc, rt, hands, door, arguments)?;
    let ready = Message::new(alloc, Code::READY_TO_RUN);
    send(alloc, rt, hands, door, &ready)
}
