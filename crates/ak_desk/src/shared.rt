//! Edits of a desk that threads share.
ghost use Rattle.std.specs.Prelude.{◌≡◌, ◌<◌, ◌^◌, None, false};
ghost use Rattle.ak_desk.specs.Desk.{HasAdded, edit_entry, stamp_in};
ghost use Rattle.ak_desk.specs.Machine.{IsHistory};
ghost use Rattle.ak_desk.specs.Shared.{HasAnswered, IsAtDesk, by_number};
ghost use Rattle.ak_turn.specs.Seats.{KnowsWhole};

use crate::desk::Desk;
use crate::entry::{Edit, EditAnswer};
use ak_turn::{Clock, Seat, TurnLock};
use std::sync::Wait;

/// Edits the handlers of a looper whose desk threads share. It waits for its turn. The seat is one at this
/// desk, without a turn, and of the clock's thread. The answer is the one that the handlers give at the entry's
/// place in the one list. The entry has the clock's next stamp, and is the last that the seat has seen.
/// `NoMemory` makes no entry. The entries by the thread are just the seat's own then.
pub fn edit_shared<R: Wait>(
    desk: &TurnLock<Desk>,
    rt: &R,
    seat: &mut Seat<Desk>,
    clock: &mut Clock,
    edit: Edit,
) -> EditAnswer
    requires of { seat.old.lock ≡ desk.now }
    requires idle { seat.old.turn ≡ false }
    requires thread { seat.old.thread ≡ clock.old.thread.0 }
    ensures answered { HasAnswered (edit_entry edit result) clock.old clock.new seat.old seat.new }
    ensures desk { IsAtDesk seat.new }
    ensures known { KnowsWhole by_number seat.new }
{
    let mut turn = desk.lock(rt, seat);
    clock.ready(rt);
    let answer = edited(turn.book(), clock, edit);
    turn.finish(seat);
    answer
}

// The edit in its turn; the list leads to the handlers then.
fn edited(desk: &mut Desk, clock: &mut Clock, edit: Edit) -> EditAnswer
    requires rest { desk.old.begun ≡ None }
    requires time { clock.old.time < 2 ^ 63 }
    requires last { stamp_in desk.old.entries < 2 ^ 63 }
    ensures added { HasAdded (edit_entry edit result) clock.old clock.new desk.old desk.new }
    ensures rest { desk.new.begun ≡ None }
    ensures history { IsHistory desk.new.opening desk.new.entries desk.new.state }
{
    let answer = desk.edit(edit, clock);
    // Reading the handlers shows that the list leads to them.
    let _state = desk.state();
    answer
}
