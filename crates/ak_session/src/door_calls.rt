//! What a thread does through its door to a looper: main and the sessions alike.
ghost use Rattle.std.specs.Prelude.{◌≡◌, ◌≤◌, ◌<◌, ◌↔◌, length, IsErrOf};
ghost use Rattle.ak_message.specs.Fields.{specifier_count};
ghost use Rattle.ak_flatten.specs.Limits.{flat_limit};
ghost use Rattle.ak_flatten.specs.Spelling.{spelling};
ghost use Rattle.ak_turn.specs.Called.{KeepsSeat};
ghost use Rattle.ak_port.specs.PortCalls.{HasAnswered};
ghost use Rattle.ak_desk.specs.Shared as desks;
ghost use Rattle.ak_messenger.specs.Sends.{post_event};
ghost use Rattle.ak_session.specs.Calls.{IsAtPlace, edited_event};

use crate::answers::Edited;
use ak_desk::{Edit, EditAnswer, edit_shared};
use ak_looper::Door;
use ak_message::Message;
use ak_messenger::{Envelope, Hands, SendFault, post_at_turn};
use ak_turn::Clock;
use std::alloc::Global;
use std::sync::Wait;

/// Posts in one turn at the port to which the door leads, with or without room. It waits for its turn; that it does not wait for
/// room is told by no clause. What it answers is what the port's entry tells; there is none at `TooLong` and `NoMemory`.
pub fn post_through<R: Wait>(
    alloc: Global,
    rt: &R,
    hands: &mut Hands,
    door: &mut Door,
    envelope: Envelope,
    message: &Message,
) -> Result<u64, SendFault>
    requires thread { door.old.port_seat.thread ≡ hands.old.clock.thread.0 }
    requires popped { envelope.popped ≤ specifier_count message.now.fields }
    ensures answered { HasAnswered (post_event envelope message.now result) hands.old.clock hands.new.clock door.old.port_seat door.new.port_seat }
    ensures too_long { IsErrOf result SendFault.TooLong ↔ (flat_limit < length (spelling message.now)) }
    ensures port_seat { KeepsSeat door.old.port_seat door.new.port_seat }
    ensures desk_seat { door.new.desk_seat ≡ door.old.desk_seat }
    ensures book { hands.new.book ≡ hands.old.book }
    ensures book_seat { hands.new.book_seat ≡ hands.old.book_seat }
    ensures clock { hands.new.clock.thread ≡ hands.old.clock.thread }
{
    let turn = door.port.lock(rt, &mut door.port_seat);
    hands.clock.ready(rt);
    post_at_turn(
        alloc,
        &mut hands.clock,
        turn,
        &mut door.port_seat,
        envelope,
        message,
    )
}

/// Edits the handlers at the desk to which the door leads, by one entry there; without one at `NoMemory`. It waits for its turn.
/// Answers where that entry stands.
pub fn edit_through<R: Wait>(rt: &R, clock: &mut Clock, door: &mut Door, edit: Edit) -> Edited
    requires thread { door.old.desk_seat.thread ≡ clock.old.thread.0 }
    ensures answered { desks.HasAnswered (edited_event edit result) clock.old clock.new door.old.desk_seat door.new.desk_seat }
    ensures place { IsAtPlace result (length door.new.desk_seat.front) }
    ensures port_seat { door.new.port_seat ≡ door.old.port_seat }
    ensures clock { clock.new.thread ≡ clock.old.thread }
{
    match edit_shared(&door.desk, rt, &mut door.desk_seat, clock, edit) {
        EditAnswer::NoMemory => Edited::NoMemory,
        answer => Edited::Entered {
            answer,
            place: door.desk_seat.seen() - 1,
        },
    }
}
