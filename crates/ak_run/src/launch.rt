//! Launches.
ghost use Rattle.std.specs.Prelude.{◌≡◌, ◌≢◌, ◌<◌, ◌≤◌, ◌-◌, ℕ, List, length, option_map};
ghost use Rattle.ak_outside.specs.Faults.{Rose};
ghost use Rattle.ak_roster.specs.Answers.{IsWord};
ghost use Rattle.ak_run.specs.Doing.{DoesSo, LaunchedSo};
ghost use Rattle.ak_run.specs.Entering.{DoesWith, EntersLaunch, GreetsAgain, GreetsSo};
ghost use Rattle.ak_run.specs.Running.{IsRunning};
ghost use Rattle.ak_run.specs.Sending.{looper_count};
ghost use Rattle.ak_run.specs.Sessions.{sessions_of};
ghost use Rattle.ak_run.specs.Starting.{HasEnteredLaunch, launched_fronts};
ghost use Rattle.ak_run.specs.Starts.{StartsMore, StopsStarting, thread_count};

use crate::answers::LaunchAnswer;
use crate::run::Run;
use crate::team::clones;
use ak_base::AppWord;
use ak_message::Message;
use ak_outside::{Gate, Spawner};
use ak_session::last_place;
use ak_team::{Launch, StartedTeam, launch_at_turn, send};
use std::sync::Wait;
use std::thread::Threads;

impl Run {
    /// Launches the first application that the word fits, and starts a thread for each of its loopers, in order. What it came to is one
    /// entry of the roster, and the answer tells where that stands; where a thread could not be started, the team is ended again: it is
    /// gone, and then each of its ports is shut, in order. Where a team starts, its ports are made before that entry, and its first looper is
    /// told the arguments and that it is ready to run; where one runs, its first looper is told the arguments behind it.
    pub fn launch<W: Spawner, G: Gate + 'static, R: Threads + Wait + Copy + Send + 'static>(
        &mut self,
        rt: &R,
        spawner: &mut W,
        gate: &G,
        word: &AppWord,
        arguments: Option<&Message>,
    ) -> LaunchAnswer
        requires running { IsRunning self.old }
        requires word { IsWord word.now }
        ensures did { DoesSo (LaunchedSo self.old.apps.items word.now (option_map (λ m. m.now) arguments.entry) result) self.old self.new }
        ensures cause { result ≡ LaunchAnswer.ThreadFault → Rose (W.faults spawner.old) (W.faults spawner.new) }
        ensures kept { result ≢ LaunchAnswer.ThreadFault → W.faults spawner.new ≡ W.faults spawner.old }
        ensures never_falls { W.faults spawner.old ≤ W.faults spawner.new }
        ensures starts { result ≢ LaunchAnswer.ThreadFault → StartsMore (thread_count self.old) (thread_count self.new) (W.calls spawner.old) (W.calls spawner.new) }
        ensures stops_starting { result ≡ LaunchAnswer.ThreadFault → StopsStarting (thread_count self.new - thread_count self.old) (thread_count self.old) (thread_count self.new) (W.calls spawner.old) (W.calls spawner.new) }
        ensures running { IsRunning self.new }
        ensures apps { self.new.apps ≡ self.old.apps }
        ensures sessions { sessions_of self.new ≡ sessions_of self.old }
        ensures count { looper_count self.old ≤ looper_count self.new }
    {
        let Ok(gates) = clones(*self.members.allocator(), gate) else {
            return LaunchAnswer::NoMemory;
        };
        match self.enter_launch(rt, word, arguments) {
            Launch::Started(StartedTeam { team, new }) => {
                let place = last_place(&self.roster_seat);
                if self.start_team(rt, spawner, gates, team, new) {
                    LaunchAnswer::Started {
                        team: team.number,
                        place,
                    }
                } else {
                    LaunchAnswer::ThreadFault
                }
            }
            Launch::Running { team, first } => self.greet_again(rt, team, first, arguments),
            Launch::NotFound => LaunchAnswer::NotFound {
                place: last_place(&self.roster_seat),
            },
            Launch::Limit => LaunchAnswer::Limit {
                place: last_place(&self.roster_seat),
            },
            Launch::NoMemory => LaunchAnswer::NoMemory,
        }
    }

    // One turn at the roster.
    fn enter_launch<R: Wait>(
        &mut self,
        rt: &R,
        word: &AppWord,
        arguments: Option<&Message>,
    ) -> Launch
        requires running { IsRunning self.old }
        requires word { IsWord word.now }
        ensures launch { HasEnteredLaunch self.old self.new result }
        ensures apps { self.new.apps ≡ self.old.apps }
        ensures slots { self.new.slots ≡ self.old.slots }
        ensures count { looper_count self.new ≡ looper_count self.old }
        ensures did { DoesWith (EntersLaunch self.old.apps.items word.now (option_map (λ m. m.now) arguments.entry) result self.new) (launched_fronts result) self.old self.new }
    {
        let alloc = *self.members.allocator();
        let shared = &self.shared;
        let mut turn = shared.roster.lock(rt, &mut self.roster_seat);
        self.hands.clock.ready(rt);
        let launch = launch_at_turn(
            alloc,
            rt,
            turn.book(),
            &mut self.hands,
            shared,
            &self.apps,
            word,
            arguments,
        );
        turn.finish(&mut self.roster_seat);
        launch
    }

    // The arguments of a launch go to the team that runs.
    fn greet_again<R: Wait>(
        &mut self,
        rt: &R,
        team: u32,
        first: u32,
        arguments: Option<&Message>,
    ) -> LaunchAnswer
        requires running { IsRunning self.old }
        requires there { first < length self.old.members.items }
        requires entered { 1 ≤ length self.old.roster_seat.front }
        ensures answer { GreetsAgain team (length self.old.roster_seat.front) (option_map (λ m. m.now) arguments.entry) result }
        ensures did { DoesSo (GreetsSo first (option_map (λ m. m.now) arguments.entry) result) self.old self.new }
        ensures running { IsRunning self.new }
        ensures apps { self.new.apps ≡ self.old.apps }
        ensures slots { self.new.slots ≡ self.old.slots }
        ensures count { looper_count self.new ≡ looper_count self.old }
    {
        let alloc = *self.members.allocator();
        let place = last_place(&self.roster_seat);
        if let Some(message) = arguments {
            let door = &mut self.members[first as usize].door;
            let Ok(()) = send(alloc, rt, &mut self.hands, door, message) else {
                return LaunchAnswer::NoMemory;
            };
        }
        LaunchAnswer::Running { team, place }
    }
}
