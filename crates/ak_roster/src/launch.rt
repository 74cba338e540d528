//! Launches that start.
ghost use Rattle.std.specs.Prelude.{◌≡◌, ◌<◌, ◌^◌, ◌++◌, length, map};
ghost use Rattle.ak_roster.specs.Answers.{IsStarted, IsWord, LaunchedTo, OnStarted, UnlessStarted};
ghost use Rattle.ak_roster.specs.Machine.{launch_of, loopers_at, loopers_of};
ghost use Rattle.ak_roster.specs.Roster.{AreKept, Enters, IsAtRest, Stays, last_stamp, state};

use crate::answer::Launched;
use crate::book::RosterBook;
use crate::calls::entry_by;
use crate::entry::{LaunchOutcome, RosterEvent};
use crate::grant::Grant;
use crate::head::AppHead;
use crate::room::{append_reserved, push_reserved, reserve_launch};
use crate::team::Running;
use ak_base::AppWord;
use ak_turn::{Book, Clock};

impl<D: Grant> RosterBook<D> {
    /// Starts the application of which `decide` answered so, in the same turn, with a door for each of its
    /// loopers, in their order. The word is a path or a signature, and the book is at rest. Where a door tells
    /// its threads, main launches, and they are main, that looper, the team's first looper and the keeper. The
    /// team and its loopers have the numbers that were decided. The launch is one entry. `NoMemory` gives the
    /// doors back and makes none, and nothing changes. (The Be Book, The Application Kit, BRoster: Launch().)
    #[tactic(auto, using(crate::proofs::Launching::started_facts))]
    pub fn launch(&mut self, word: &AppWord, clock: &mut Clock, doors: Vec<D>) -> Launched<D>
        requires word { IsWord word.now }
        requires rest { IsAtRest self.old }
        requires starts { IsStarted (launch_of self.old.heads (state self.old) word.now) }
        requires doors { AreKept D.threads (length (state self.old).loopers) doors.items (loopers_of self.old.heads clock.old.thread.0 (launch_of self.old.heads (state self.old) word.now)) }
        requires time { clock.old.time < 2 ^ 63 }
        requires stamp { last_stamp self.old.entries < 2 ^ 63 }
        ensures answer { OnStarted result (LaunchedTo (launch_of self.old.heads (state self.old) word.now) result) }
        ensures entry { OnStarted result (Enters (RosterEvent.Launch word.now (launch_of self.old.heads (state self.old) word.now)) (map D.object doors.items) (self.old.doors ++ doors.items) self.old self.new clock.old clock.new) }
        ensures back { UnlessStarted result (λ back. back.items ≡ doors.items) }
        ensures stays { UnlessStarted result (λ _. Stays self.old self.new clock.old clock.new) }
        ensures rest { IsAtRest self.new }
    {
        let outcome = self.outcome(word);
        let LaunchOutcome::Started {
            description,
            team,
            first,
        } = outcome
        else {
            unreachable!()
        };
        let loopers = loopers_at(&self.heads, description);
        let Ok(word) = word.try_clone() else {
            return Launched::NoMemory(doors);
        };
        let last_stamp = self.last_stamp();
        let Ok(()) = reserve_launch(
            &mut self.entries,
            &mut self.running,
            &mut self.doors,
            doors.len(),
        ) else {
            return Launched::NoMemory(doors);
        };
        let entry = entry_by(clock, last_stamp, RosterEvent::Launch { word, outcome });
        let running = Running {
            team,
            description,
            first,
            loopers,
        };
        append_reserved(&mut self.doors, doors);
        push_reserved(&mut self.running, running);
        push_reserved(&mut self.entries, entry);
        self.teams = team;
        self.loopers = first + loopers;
        Launched::Started { team, first }
    }
}

// How many loopers the description at that place has.
fn loopers_at(heads: &[AppHead], place: u32) -> u32
    ensures { result ≡ loopers_at heads.now place }
{
    heads.get(place as usize).map_or(0, |head| head.loopers)
}
