//! The ends of teams.
ghost use Rattle.std.specs.Prelude.{◌≡◌, ◌+◌, ◌<◌, ◌≤◌, ◌^◌, length, IfSome};
ghost use Rattle.std.specs.List.{find, range_with_len};
ghost use Rattle.ak_base.specs.Thread.{main_thread};
ghost use Rattle.ak_roster.specs.Machine.{runs_team};
ghost use Rattle.ak_roster.specs.Roster.{IsAtRest, last_stamp};
ghost use Rattle.ak_describe.specs.Whole.{heads_of};
ghost use Rattle.ak_diary.specs.Turns.{Shuts, ShutsAll};
ghost use Rattle.ak_looper.specs.Rosters.{plain_of};
ghost use Rattle.ak_run.specs.Closing.{ClosesSo, EndsAllTeams, EndsTeam, LeavesBook, LeavesSo};
ghost use Rattle.ak_team.specs.Launching.{ByMain, IsTurnInTime};
ghost use Rattle.ak_run.specs.Recording.{RecordsBesideSo};
ghost use Rattle.ak_run.specs.Running.{IsRunning, IsStanding};
ghost use Rattle.ak_run.specs.Starting.{GoesOn};
ghost use Rattle.ak_run.specs.Stopping.{LeavesOrSees, StopsBeside};

use crate::run::Run;
use ak_looper::KeptDoor;
use ak_port::close;
use ak_roster::{RosterBook, Running, TEAM_LIMIT};
use ak_team::{Team, count_by_main};
use ak_turn::Clock;
use std::sync::Wait;

impl Run {
    /// Enters that the team no longer runs, where it runs, and shuts the ports of those of its loopers that were started: no later team
    /// was, so they are the last ones.
    pub(crate) fn stop_team<R: Wait>(&mut self, rt: &R, team: Team)
        requires stands { IsStanding self.old }
        requires first { team.first ≤ length self.old.members.items }
        ensures goes { GoesOn self.old self.new }
        ensures stops { StopsBeside team self.old self.new }
    {
        self.leave(rt, team.number);
        let started = self.members.len() as u32 - team.first;
        self.shut_ports(rt, team.first, started);
    }

    // Enters that the team no longer runs, where it runs.
    fn leave<R: Wait>(&mut self, rt: &R, team: u32)
        requires stands { IsStanding self.old }
        ensures goes { GoesOn self.old self.new }
        ensures left { RecordsBesideSo (LeavesOrSees (heads_of self.old.apps.items) (plain_of self.old.roster_seat) team) self.old self.new }
    {
        let mut turn = self.shared.roster.lock(rt, &mut self.roster_seat);
        self.hands.clock.ready(rt);
        turn.book().gone(team, &mut self.hands.clock);
        turn.finish(&mut self.roster_seat);
    }

    /// Ends each team that still runs, in order. No team has a number past the limit.
    pub(crate) fn leave_all<R: Wait>(&mut self, rt: &R)
        requires running { IsRunning self.old }
        ensures goes { GoesOn self.old self.new }
        ensures closed { ClosesSo (EndsAllTeams (heads_of self.old.apps.items)) self.old self.new }
    {
        for place in 0..TEAM_LIMIT {
            self.end_team(rt, place + 1);
        }
    }

    // Ends the team, where it runs: it is gone first, and then its ports are shut.
    fn end_team<R: Wait>(&mut self, rt: &R, team: u32)
        requires running { IsRunning self.old }
        ensures goes { GoesOn self.old self.new }
        ensures closed { ClosesSo (λ so_far. EndsTeam (heads_of self.old.apps.items) so_far team) self.old self.new }
    {
        match self.leave_running(rt, team) {
            Some(running) => self.shut_ports(rt, running.first, running.loopers),
            None => {}
        }
    }

    // Enters that the team no longer runs, where it runs, and answers what it was.
    fn leave_running<R: Wait>(&mut self, rt: &R, team: u32) -> Option<Running>
        requires running { IsRunning self.old }
        ensures goes { GoesOn self.old self.new }
        ensures closed { ClosesSo (λ so_far. LeavesSo (heads_of self.old.apps.items) so_far team result) self.old self.new }
        ensures started { IfSome result (λ running. running.first + running.loopers ≤ length self.new.members.items) }
    {
        let mut turn = self.shared.roster.lock(rt, &mut self.roster_seat);
        self.hands.clock.ready(rt);
        let left = leave_at_turn(turn.book(), &mut self.hands.clock, team);
        turn.finish(&mut self.roster_seat);
        left
    }

    // Shuts so many ports, in order, from that looper's on.
    fn shut_ports<R: Wait>(&mut self, rt: &R, first: u32, loopers: u32)
        requires stands { IsStanding self.old }
        requires there { first + loopers ≤ length self.old.members.items }
        ensures goes { GoesOn self.old self.new }
        ensures shut { RecordsBesideSo (ShutsAll (range_with_len first loopers)) self.old self.new }
    {
        for place in 0..loopers {
            self.shut_port(rt, first + place);
        }
    }

    // Shuts the port of that looper, where it is not shut.
    fn shut_port<R: Wait>(&mut self, rt: &R, looper: u32)
        requires stands { IsStanding self.old }
        requires there { looper < length self.old.members.items }
        ensures goes { GoesOn self.old self.new }
        ensures shut { RecordsBesideSo (Shuts looper) self.old self.new }
    {
        let door = &mut self.members[looper as usize].door;
        close(&door.port, rt, &mut door.port_seat, &mut self.hands.clock);
    }
}

// What the team of that number is, where it runs.
fn team_of(running: &[Running], team: u32) -> Option<Running>
    ensures { result ≡ find (runs_team team) running.now }
{
    running.iter().copied().find(|running| running.team == team)
}

// In the turn that main has at the roster: the team is gone, where it ran, and it is answered.
fn leave_at_turn(book: &mut RosterBook<KeptDoor>, clock: &mut Clock, team: u32) -> Option<Running>
    requires rest { IsAtRest book.old }
    requires stamp { last_stamp book.old.entries < 2 ^ 63 }
    requires time { clock.old.time < 2 ^ 63 }
    requires main { clock.old.thread.0 ≡ main_thread }
    ensures left { LeavesBook team result book.old book.new }
    ensures in_time { IsTurnInTime clock.old.time clock.new.time book.old book.new }
    ensures by_main { ByMain book.old }
    ensures rest { IsAtRest book.new }
    ensures clock { clock.new.thread ≡ clock.old.thread }
{
    count_by_main(book);
    let running = team_of(book.app_list(), team);
    book.gone(team, clock);
    running
}
