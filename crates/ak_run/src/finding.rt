//! Look-ups of teams that run.
ghost use Rattle.std.specs.Prelude.{◌≡◌, ◌<◌, ◌^◌};
ghost use Rattle.ak_base.specs.Thread.{main_thread};
ghost use Rattle.ak_roster.specs.Roster.{IsAtRest, last_stamp};
ghost use Rattle.ak_describe.specs.Whole.{heads_of};
ghost use Rattle.ak_run.specs.Doing.{DoesSo, IsStartedTeam};
ghost use Rattle.ak_session.specs.Doing.{FoundSo};
ghost use Rattle.ak_run.specs.Finding.{LooksUp};
ghost use Rattle.ak_team.specs.Launching.{ByMain, IsTurnInTime};
ghost use Rattle.ak_run.specs.Running.{IsRunning};
ghost use Rattle.ak_run.specs.Sending.{looper_count};
ghost use Rattle.ak_run.specs.Sessions.{sessions_of};

use crate::run::Run;
use ak_base::AppWord;
use ak_looper::KeptDoor;
use ak_roster::{FindAnswer, RosterBook};
use ak_session::{Found, found_at};
use ak_team::count_by_main;
use ak_turn::Clock;
use std::sync::Wait;

impl Run {
    /// Looks for the least running team that fits the word, by one entry at the roster. Answers where that stands, and of a team its loopers,
    /// which were started.
    pub fn find<R: Wait>(&mut self, rt: &R, word: &AppWord) -> Found
        requires running { IsRunning self.old }
        ensures did { DoesSo (FoundSo (heads_of self.old.apps.items) word.now result) self.old self.new }
        ensures started { IsStartedTeam (looper_count self.new) result }
        ensures running { IsRunning self.new }
        ensures apps { self.new.apps ≡ self.old.apps }
        ensures sessions { sessions_of self.new ≡ sessions_of self.old }
        ensures count { looper_count self.new ≡ looper_count self.old }
    {
        let mut turn = self.shared.roster.lock(rt, &mut self.roster_seat);
        self.hands.clock.ready(rt);
        let answer = look_up_at_turn(turn.book(), &mut self.hands.clock, word);
        turn.finish(&mut self.roster_seat);
        found_at(answer, &self.roster_seat)
    }
}

// Looks a team up in the turn that main has at the roster.
fn look_up_at_turn(book: &mut RosterBook<KeptDoor>, clock: &mut Clock, word: &AppWord) -> FindAnswer
    requires rest { IsAtRest book.old }
    requires stamp { last_stamp book.old.entries < 2 ^ 63 }
    requires time { clock.old.time < 2 ^ 63 }
    requires main { clock.old.thread.0 ≡ main_thread }
    ensures found { LooksUp word.now result book.old book.new }
    ensures in_time { IsTurnInTime clock.old.time clock.new.time book.old book.new }
    ensures by_main { ByMain book.old }
    ensures rest { IsAtRest book.new }
    ensures clock { clock.new.thread ≡ clock.old.thread }
{
    count_by_main(book);
    // Reading the descriptions shows that the list is a roster's.
    let _ = book.heads();
    book.find(word, clock)
}
