//! Look-ups of teams that run.
ghost use Rattle.std.specs.Prelude.{◌≡◌, ◌≤◌, ◌+◌, ℕ, List, false, length};
ghost use Rattle.ak_turn.specs.Called.{KeepsSeat};
ghost use Rattle.ak_roster.specs.declared.head.AppHead.{AppHead};
ghost use Rattle.ak_diary.specs.Step.{Step};
ghost use Rattle.ak_session.specs.Doing.{FoundSo, HasLoopers};
ghost use Rattle.ak_session.specs.Calls.{HasFound, IsEntered, IsFoundAt, IsOfLoopers};
ghost use Rattle.ak_session.specs.Stands.{GoesOn, IsStanding, KeepsSession, Stands};

use crate::answers::Found;
use crate::session::Session;
use ak_base::AppWord;
use ak_looper::{KeptDoor, Roster};
use ak_roster::{FindAnswer, RosterBook};
use ak_turn::{Clock, Seat};
use std::sync::Wait;

impl Session {
    /// Looks for the least running team that fits the word, by one entry at the roster. It waits for its turn. Answers where that entry
    /// stands.
    pub fn find<R: Wait>(&mut self, rt: &R, word: &AppWord) -> Found
        ensures goes { (heads : List AppHead) (start : ℕ) (so_far : List Step) → Stands heads start so_far self.old → GoesOn heads start so_far (FoundSo heads word.now result) self.new }
        ensures loopers { HasLoopers result }
        ensures standing { IsStanding self.old → IsStanding self.new }
        ensures keeps { KeepsSession self.old self.new }
    {
        let found = look_up(
            &self.roster,
            rt,
            &mut self.roster_seat,
            &mut self.hands.clock,
            word,
        );
        found_at(found, &self.roster_seat)
    }
}

// Looks for a running application, in one turn at the roster.
fn look_up<R: Wait>(
    roster: &Roster,
    rt: &R,
    seat: &mut Seat<RosterBook<KeptDoor>>,
    clock: &mut Clock,
    word: &AppWord,
) -> FindAnswer
    requires of { seat.old.lock ≡ roster.now }
    requires idle { seat.old.turn ≡ false }
    requires thread { seat.old.thread ≡ clock.old.thread.0 }
    ensures found { HasFound word.now result clock.old clock.new seat.old seat.new }
    ensures loopers { IsOfLoopers result }
    ensures seat { KeepsSeat seat.old seat.new }
    ensures clock { clock.new.thread ≡ clock.old.thread }
{
    let mut turn = roster.lock(rt, seat);
    clock.ready(rt);
    let kept = turn.book();
    // Reading the descriptions shows that the list is a roster's.
    let _ = kept.heads();
    let found = kept.find(word, clock);
    turn.finish(seat);
    found
}

/// What was found, by the last entry that the seat has seen: a thread's own, of that look-up.
pub fn found_at(found: FindAnswer, seat: &Seat<RosterBook<KeptDoor>>) -> Found
    requires { IsEntered found → 1 ≤ length seat.now.front }
    ensures { IsFoundAt found (length seat.now.front) result }
{
    match found {
        FindAnswer::Team {
            team,
            first,
            loopers,
        } => Found::Team {
            team,
            first,
            loopers,
            place: last_place(seat),
        },
        FindAnswer::NoTeam => Found::NoTeam {
            place: last_place(seat),
        },
        FindAnswer::NoMemory => Found::NoMemory,
    }
}

/// The place of the last entry that the seat at the roster has seen, counted from 0.
pub fn last_place(seat: &Seat<RosterBook<KeptDoor>>) -> u64
    requires { 1 ≤ length seat.now.front }
    ensures { length seat.now.front ≡ result + 1 }
{
    seat.seen() - 1
}
