//! A roster that threads share, as a layer above it is written.
ghost use Rattle.std.specs.Prelude.{◌≡◌, false};
ghost use Rattle.ak_turn.specs.Seats.{HasCalled, HasSeen, KnowsWhole};
ghost use Rattle.ak_roster.specs.Answers.{OnFound, UnlessFound};

use super::calls::{Row, clock_of, roster_of};
use ak_base::{AppWord, ThreadId};
use ak_roster::{FindAnswer, Mode, RosterBook};
use ak_turn::{Clock, Seat, TurnLock};
use std::alloc::Global;
use std::sync::Wait;
use std::test::Fail;

/// Looks a team up, by the seat's thread.
pub fn find_in(
    rt: &impl Wait,
    roster: &TurnLock<RosterBook<()>>,
    seat: &mut Seat<RosterBook<()>>,
    clock: &mut Clock,
    word: &AppWord,
) -> FindAnswer
    requires of { seat.old.lock ≡ roster.now }
    requires idle { seat.old.turn ≡ false }
    requires thread { seat.old.thread ≡ clock.old.thread.0 }
    ensures called { OnFound result ((entry : _) × HasCalled (λ e. e.plain.by.0) entry seat.old seat.new) }
    ensures seen { UnlessFound result (HasSeen (λ e. e.plain.by.0) seat.old seat.new) }
    ensures known { KnowsWhole (λ e. e.plain.by.0) seat.new }
{
    let mut turn = roster.lock(rt, seat);
    clock.ready(rt);
    let answer = turn.book().find(word, clock);
    turn.finish(seat);
    answer
}

const DEMO: [Row; 1] = [(b"/boot/demo", b"application/demo", Mode::Single, 1)];

/// What a look-up of the first team of a new roster answers; how many entries the seat has seen then, and its clock's time.
pub fn look_up<R: Wait>(rt: &R, alloc: Global) -> Result<(FindAnswer, u64, u64), Fail> {
    let roster = roster_of(alloc, &DEMO)?;
    let (lock, mut seat) = TurnLock::new(alloc, roster, ThreadId(0))?;
    let mut clock = clock_of(0);
    let answer = find_in(rt, &lock, &mut seat, &mut clock, &AppWord::Team(1));
    Ok((answer, seat.seen(), clock.time))
}
