//! Decisions on launches, look-ups, and the ends of teams.
ghost use Rattle.std.specs.Prelude.{◌≡◌, ◌<◌, ◌≤◌, ◌+◌, ◌^◌, [], length, if◌then◌else◌, IsTrue, IsFalse, OnOk, OnErr, vec_len, vec_capacity, max, filter, not, ◌++◌, ◌∷◌};
ghost use Rattle.std.specs.List.{list_any};
ghost use Rattle.ak_base.specs.Limits.{looper_limit};
ghost use Rattle.ak_roster.specs.Answers.{answer_of, decision_of, OnDecision, OnFound, OnRefusal, UnlessFound, UnlessRefusal};
ghost use Rattle.ak_roster.specs.Heads.{excluder, team_for};
ghost use Rattle.ak_roster.specs.Machine.{after, find_of, has_room, launch_of, launch_at, outcome_found, runs_team, IsLegal};
ghost use Rattle.ak_roster.specs.Kept.{count_of};
ghost use Rattle.ak_roster.specs.Roster.{Enters, IsAtRest, Stays, last_stamp, state};
ghost use Rattle.ak_roster.specs.Limits.{team_limit};

use crate::answer::{Decision, FindAnswer};
use crate::book::RosterBook;
use crate::entry::{FindOutcome, LaunchOutcome, RosterEntry, RosterEvent};
use crate::fit::{excluder, first_fit, team_for};
use crate::grant::Grant;
use crate::head::AppHead;
use crate::room::{push_reserved, reserve_after};
use crate::team::{Running, TEAM_LIMIT};
use ak_base::{AppWord, LOOPER_LIMIT, NoMemory};
use ak_turn::{Book, Clock};

impl<D: Grant> RosterBook<D> {
    /// What a launch of the first description that fits the word comes to. `NotFound` where none fits, as none
    /// fits a team's number. `AlreadyRunning`, with the least such team, where its mode is single and a team of
    /// its path runs, or exclusive and one of its signature. `Limit` where 16 teams were started, or there
    /// would be more than 32 loopers. They are tested in this order, and each is an entry. Where it starts
    /// there is none: `launch` makes it. `NoMemory` makes none either, and nothing changes.
    pub fn decide(&mut self, word: &AppWord, clock: &mut Clock) -> Decision
        requires time { clock.old.time < 2 ^ 63 }
        requires stamp { last_stamp self.old.entries < 2 ^ 63 }
        ensures answer { OnDecision result (result ≡ decision_of (launch_of self.old.heads (state self.old) word.now)) }
        ensures entry { OnRefusal result (Enters (RosterEvent.Launch word.now (launch_of self.old.heads (state self.old) word.now)) [] self.old.doors self.old self.new clock.old clock.new) }
        ensures stays { UnlessRefusal result (Stays self.old self.new clock.old clock.new) }
        ensures rest { IsAtRest self.old → IsAtRest self.new }
    {
        let outcome = self.outcome(word);
        let decision = match outcome {
            LaunchOutcome::Started {
                description,
                team,
                first,
            } => {
                return Decision::Starts {
                    description,
                    team,
                    first,
                };
            }
            LaunchOutcome::AlreadyRunning { team } => Decision::AlreadyRunning { team },
            LaunchOutcome::NotFound => Decision::NotFound,
            LaunchOutcome::Limit => Decision::Limit,
        };
        let Ok(word) = word.try_clone() else {
            return Decision::NoMemory;
        };
        match self.enter(RosterEvent::Launch { word, outcome }, clock) {
            Ok(()) => decision,
            Err(NoMemory) => Decision::NoMemory,
        }
    }

    /// The least running team that fits the word, by its number or its description. `NoTeam` where none fits.
    /// Both are entries. `NoMemory` makes none, and nothing changes. (The Be Book, The Application Kit,
    /// BRoster: TeamFor().)
    pub fn find(&mut self, word: &AppWord, clock: &mut Clock) -> FindAnswer
        requires time { clock.old.time < 2 ^ 63 }
        requires stamp { last_stamp self.old.entries < 2 ^ 63 }
        ensures answer { OnFound result (result ≡ answer_of (team_for self.old.heads (state self.old).running word.now)) }
        ensures entry { OnFound result (Enters (RosterEvent.Find word.now (find_of self.old.heads (state self.old) word.now)) [] self.old.doors self.old self.new clock.old clock.new) }
        ensures stays { UnlessFound result (Stays self.old self.new clock.old clock.new) }
        ensures rest { IsAtRest self.old → IsAtRest self.new }
    {
        let found = team_for(&self.heads, &self.running, word);
        let Ok(word) = word.try_clone() else {
            return FindAnswer::NoMemory;
        };
        let outcome = outcome_found(found);
        match self.enter(RosterEvent::Find { word, outcome }, clock) {
            Ok(()) => answer_of(found),
            Err(NoMemory) => FindAnswer::NoMemory,
        }
    }

    /// Enters that the team no longer runs, and answers true, where it ran; otherwise there is no entry. The
    /// team's number is not used again. Takes no memory.
    pub fn gone(&mut self, team: u32, clock: &mut Clock) -> bool
        requires time { clock.old.time < 2 ^ 63 }
        requires stamp { last_stamp self.old.entries < 2 ^ 63 }
        ensures answer { result ≡ list_any (runs_team team) (state self.old).running }
        ensures entry { IsTrue result → Enters (RosterEvent.Gone team) [] self.old.doors self.old self.new clock.old clock.new }
        ensures stays { IsFalse result → Stays self.old self.new clock.old clock.new }
        ensures rest { IsAtRest self.old → IsAtRest self.new }
    {
        if !runs(&self.running, team) {
            return false;
        }
        let entry = entry_by(clock, self.last_stamp(), RosterEvent::Gone { team });
        drop_team(&mut self.running, team);
        push_reserved(&mut self.entries, entry);
        true
    }

    // What a launch of that word comes to.
    pub(crate) fn outcome(&self, word: &AppWord) -> LaunchOutcome
        ensures { result ≡ launch_of self.now.heads (state self.now) word.now }
    {
        let Some(place) = first_fit(&self.heads, word) else {
            return LaunchOutcome::NotFound;
        };
        match self.heads.get(place) {
            Some(head) => self.outcome_at(place as u32, head),
            None => LaunchOutcome::NotFound,
        }
    }

    fn outcome_at(&self, place: u32, head: &AppHead) -> LaunchOutcome
        ensures { result ≡ launch_at self.now.heads (state self.now).running (state self.now).teams (length (state self.now).loopers) place (Some head.now) }
    {
        match excluder(&self.heads, &self.running, head) {
            Some(team) => LaunchOutcome::AlreadyRunning { team: team.team },
            None => next_outcome(self.teams, self.loopers, place, head),
        }
    }

    // Enters an event that changes no state.
    fn enter(&mut self, event: RosterEvent, clock: &mut Clock) -> Result<(), NoMemory>
        requires time { clock.old.time < 2 ^ 63 }
        requires stamp { last_stamp self.old.entries < 2 ^ 63 }
        requires legal { IsLegal self.old.heads (state self.old) clock.old.thread.0 event }
        requires quiet { after self.old.heads (state self.old) clock.old.thread.0 event ≡ state self.old }
        requires no_looper { count_of self.old.heads event ≡ 0 }
        ensures ok { OnOk result (Enters event [] self.old.doors self.old self.new clock.old clock.new) }
        ensures err { OnErr result (Stays self.old self.new clock.old clock.new) }
        ensures rest { IsAtRest self.old → IsAtRest self.new }
    {
        let last_stamp = self.last_stamp();
        reserve_after(&mut self.entries, 1, &self.running)?;
        let entry = entry_by(clock, last_stamp, event);
        push_reserved(&mut self.entries, entry);
        Ok(())
    }
}

// What a launch comes to that no team keeps from starting.
fn next_outcome(teams: u32, loopers: u32, place: u32, head: &AppHead) -> LaunchOutcome
    requires teams { teams ≤ team_limit }
    requires loopers { loopers ≤ looper_limit }
    ensures { result ≡ (if has_room teams loopers head.now then LaunchOutcome.Started place (teams + 1) loopers else LaunchOutcome.Limit) }
{
    if teams >= TEAM_LIMIT || head.loopers > LOOPER_LIMIT - loopers {
        return LaunchOutcome::Limit;
    }
    LaunchOutcome::Started {
        description: place,
        team: teams + 1,
        first: loopers,
    }
}

fn outcome_found(found: Option<Running>) -> FindOutcome
    ensures { result ≡ outcome_found found }
{
    match found {
        Some(team) => FindOutcome::Team(team.team),
        None => FindOutcome::NoTeam,
    }
}

fn answer_of(found: Option<Running>) -> FindAnswer
    ensures { result ≡ answer_of found }
{
    match found {
        Some(team) => FindAnswer::Team {
            team: team.team,
            first: team.first,
            loopers: team.loopers,
        },
        None => FindAnswer::NoTeam,
    }
}

/// A new entry by that clock, past that stamp.
pub(crate) fn entry_by(clock: &mut Clock, last_stamp: u64, event: RosterEvent) -> RosterEntry
    requires time { clock.old.time < 2 ^ 63 }
    requires stamp { last_stamp < 2 ^ 63 }
    ensures entry { result ≡ record { stamp = 1 + max clock.old.time last_stamp; by = clock.old.thread; event = event } }
    ensures clock { clock.new ≡ record clock.old { time = 1 + max clock.old.time last_stamp } }
{
    RosterEntry {
        stamp: clock.stamp(last_stamp),
        by: clock.thread,
        event,
    }
}

fn runs(running: &[Running], team: u32) -> bool
    ensures { result ≡ list_any (runs_team team) running.now }
{
    running.iter().any(|running| running.team == team)
}

// The team no longer runs.
fn drop_team(running: &mut Vec<Running>, team: u32)
    ensures items { running.new.items ≡ filter (λ r. not (runs_team team r)) running.old.items }
{
    running.retain(|running| running.team != team);
}
