//! What a looper's thread does at the roster that threads share: each call is one turn there, and at most one entry.
ghost use Rattle.std.specs.Prelude.{◌≡◌, [], false, Ok, None, Some, IfOk, IfSome, OnOk, OnErr, IfNone};
ghost use Rattle.ak_turn.specs.Called.{KeepsSeat};
ghost use Rattle.ak_looper.specs.Rosters.{MayGetDoor, RosterSeat};
ghost use Rattle.ak_looper.specs.RosterCalls.{HasEnteredDoor, HasFound, HasLeft, HasSeenNone, IsPartOf};
ghost use Rattle.ak_looper.specs.RosterCalls.{heard_find};

use crate::door::Door;
use crate::kept_door::KeptDoor;
use ak_action::Answer;
use ak_base::{AppWord, NoMemory};
use ak_roster::{FindAnswer, RosterBook};
use ak_turn::{Clock, Seat, TurnLock};
use std::sync::Wait;

/// The run's roster, shared, which keeps the doors to all loopers.
pub type Roster = TurnLock<RosterBook<KeptDoor>>;

// What a look-up found, as the message hears it.
fn heard(found: FindAnswer) -> Answer
    ensures { result ≡ heard_find found }
{
    match found {
        FindAnswer::Team { team, first, .. } => Answer::Team { team, first },
        FindAnswer::NoTeam => Answer::NoTeam,
        FindAnswer::NoMemory => Answer::NoMemory,
    }
}

// Looks for a running application. It waits for its turn.
pub(crate) fn find<R: Wait>(
    roster: &Roster,
    rt: &R,
    seat: &mut Seat<RosterBook<KeptDoor>>,
    clock: &mut Clock,
    word: &AppWord,
) -> Answer
    requires of { seat.old.lock ≡ roster.now }
    requires idle { seat.old.turn ≡ false }
    requires thread { seat.old.thread ≡ clock.old.thread.0 }
    ensures found { HasFound word.now result clock.old clock.new seat.old seat.new }
    ensures seat { KeepsSeat seat.old seat.new }
    ensures clock { clock.new.thread ≡ clock.old.thread }
{
    let mut turn = roster.lock(rt, seat);
    clock.ready(rt);
    let found = turn.book().find(word, clock);
    turn.finish(seat);
    heard(found)
}

// Enters that a team no longer runs, unless that was entered before. It waits for its turn.
pub(crate) fn leave<R: Wait>(
    roster: &Roster,
    rt: &R,
    seat: &mut Seat<RosterBook<KeptDoor>>,
    clock: &mut Clock,
    team: u32,
)
    requires of { seat.old.lock ≡ roster.now }
    requires idle { seat.old.turn ≡ false }
    requires thread { seat.old.thread ≡ clock.old.thread.0 }
    ensures left { HasLeft team clock.old clock.new seat.old seat.new }
    ensures seat { KeepsSeat seat.old seat.new }
    ensures clock { clock.new.thread ≡ clock.old.thread }
{
    let mut turn = roster.lock(rt, seat);
    clock.ready(rt);
    turn.book().gone(team, clock);
    turn.finish(seat);
}

// One try to get the looper's door. None where no such looper was started yet.
fn try_door<R: Wait>(
    roster: &Roster,
    rt: &R,
    seat: &mut Seat<RosterBook<KeptDoor>>,
    clock: &mut Clock,
    looper: u32,
) -> Result<Option<Door>, NoMemory>
    requires of { seat.old.lock ≡ roster.now }
    requires idle { seat.old.turn ≡ false }
    requires thread { seat.old.thread ≡ clock.old.thread.0 }
    requires may { MayGetDoor looper seat.old }
    ensures part { IfOk result (λ door. IfSome door (λ d. IsPartOf looper seat.new d)) }
    ensures got { IfOk result (λ door. IfSome door (λ d. HasEnteredDoor looper clock.old clock.new seat.old seat.new)) }
    ensures none { IfOk result (λ door. IfNone door (HasSeenNone clock.old clock.new seat.old seat.new)) }
    ensures err { OnErr result (HasSeenNone clock.old clock.new seat.old seat.new) }
    ensures may { MayGetDoor looper seat.old → IfOk result (λ door. IfNone door (MayGetDoor looper seat.new)) }
    ensures seat { KeepsSeat seat.old seat.new }
    ensures clock { clock.new.thread ≡ clock.old.thread }
{
    let mut turn = roster.lock(rt, seat);
    clock.ready(rt);
    let kept = turn.book();
    // Reading the descriptions shows that the list is a roster's.
    let _ = kept.heads();
    let door = kept.grant(looper, clock);
    turn.finish(seat);
    door
}

/// Gets the looper's door, which the thread has not, by one entry at the roster. It waits for its turn. Where the looper is
/// not started yet it gives its turn back, and tries again once there is a new entry. The seat is one at this roster,
/// without a turn, and of the clock's thread. `NoMemory` makes no entry.
pub fn get_door<R: Wait>(
    roster: &Roster,
    rt: &R,
    seat: &mut Seat<RosterBook<KeptDoor>>,
    clock: &mut Clock,
    looper: u32,
) -> Result<Door, NoMemory>
    requires of { seat.old.lock ≡ roster.now }
    requires idle { seat.old.turn ≡ false }
    requires thread { seat.old.thread ≡ clock.old.thread.0 }
    requires may { MayGetDoor looper seat.old }
    ensures part { IfOk result (λ d. IsPartOf looper seat.new d) }
    ensures got { OnOk result (HasEnteredDoor looper clock.old clock.new seat.old seat.new) }
    ensures err { OnErr result (HasSeenNone clock.old clock.new seat.old seat.new) }
    ensures seat { KeepsSeat seat.old seat.new }
    ensures clock { clock.new.thread ≡ clock.old.thread }
{
    for _ in rt.forever() {
        if let Some(door) = try_door(roster, rt, seat, clock, looper)? {
            return Ok(door);
        }
        roster.wait_past(rt, seat.seen());
    }
    unreachable!()
}
