//! A launch, in one turn at the roster.
ghost use Rattle.std.specs.Prelude.{◌≡◌, ◌≢◌, ◌<◌, ◌^◌, ℕ, List, length, All, Any, find, option_map};
ghost use Rattle.ak_base.specs.Thread.{main_thread};
ghost use Rattle.ak_roster.specs.Answers.{IsWord};
ghost use Rattle.ak_roster.specs.Machine.{runs_team};
ghost use Rattle.ak_roster.specs.Roster.{IsAtRest, last_stamp, state};
ghost use Rattle.ak_describe.specs.declared.described.AppText.{AppText};
ghost use Rattle.ak_describe.specs.Whole.{IsWholeApp, heads_of};
ghost use Rattle.ak_team.specs.Launching.{ByMain, ComesTo, IsDecided, IsMade, IsRunningTeam, IsTeamOf, IsTurnInTime, LaunchInTime, TellsTeam};
ghost use Rattle.ak_looper.specs.declared.shared.Shared.{Shared};

use crate::new_team::{Making, NewTeam, make_team};
use ak_base::{AppWord, NoMemory};
use ak_describe::AppText;
use ak_looper::{KeptDoor, Shared};
use ak_message::Message;
use ak_messenger::Hands;
use ak_roster::{Decision, Launched, RosterBook, Running};
use std::alloc::Global;
use std::sync::Wait;

/// A team that was launched: its number, that of its first looper, how many loopers it has, and the time of its launch.
#[derive(Clone, Copy)]
pub struct Team {
    /// Its number.
    pub number: u32,
    /// The number of its first looper.
    pub first: u32,
    /// How many loopers it has.
    pub loopers: u32,
    /// The time of its launch.
    pub time: u64,
}

/// The same, with what its loopers are started with.
#[derive(Drop)]
pub struct StartedTeam {
    /// The team.
    pub team: Team,
    /// Its loopers.
    pub new: NewTeam,
}

/// What a launch came to.
#[derive(Drop)]
pub enum Launch {
    /// The team is to start.
    Started(StartedTeam),
    /// That team keeps it from starting; with the number of the first looper of that team.
    Running { team: u32, first: u32 },
    /// No application fits.
    NotFound,
    /// There is no room for its team.
    Limit,
    /// Memory ran out.
    NoMemory,
}

/// Launches the first application that the word fits, in the turn that main has at the roster. Where it starts, its ports and desks are made
/// before the entry, and what its own looper is greeted with stands in its port.
pub fn launch_at_turn<R: Wait>(
    alloc: Global,
    rt: &R,
    book: &mut RosterBook<KeptDoor>,
    hands: &mut Hands,
    shared: &Shared,
    apps: &[AppText],
    word: &AppWord,
    arguments: Option<&Message>,
) -> Launch
    requires rest { IsAtRest book.old }
    requires stamp { last_stamp book.old.entries < 2 ^ 63 }
    requires time { hands.old.clock.time < 2 ^ 63 }
    requires main { hands.old.clock.thread.0 ≡ main_thread }
    requires heads { book.old.heads ≡ heads_of apps.now }
    requires whole { All IsWholeApp apps.now }
    requires word { IsWord word.now }
    ensures launch { ComesTo apps.now shared.now word.now book.old book.new result }
    ensures told { TellsTeam apps.now (option_map (λ m. m.now) arguments.entry) word.now book.old result }
    ensures in_time { LaunchInTime hands.old.clock.time hands.new.clock.time book.old book.new result }
    ensures by_main { ByMain book.old }
    ensures rest { IsAtRest book.new }
    ensures book { hands.new.book ≡ hands.old.book }
    ensures book_seat { hands.new.book_seat ≡ hands.old.book_seat }
    ensures clock { hands.new.clock.thread ≡ hands.old.clock.thread }
{
    let time = hands.clock.time;
    match try_launch(alloc, rt, book, hands, shared, apps, word, arguments) {
        Launch::NoMemory => {
            // The ports that were made in vain are in no history.
            hands.clock.time = time;
            Launch::NoMemory
        }
        launch => launch,
    }
}

// The same, but that the time of ports made in vain has gone by.
fn try_launch<R: Wait>(
    alloc: Global,
    rt: &R,
    book: &mut RosterBook<KeptDoor>,
    hands: &mut Hands,
    shared: &Shared,
    apps: &[AppText],
    word: &AppWord,
    arguments: Option<&Message>,
) -> Launch
    requires rest { IsAtRest book.old }
    requires stamp { last_stamp book.old.entries < 2 ^ 63 }
    requires time { hands.old.clock.time < 2 ^ 63 }
    requires main { hands.old.clock.thread.0 ≡ main_thread }
    requires heads { book.old.heads ≡ heads_of apps.now }
    requires whole { All IsWholeApp apps.now }
    requires word { IsWord word.now }
    ensures launch { ComesTo apps.now shared.now word.now book.old book.new result }
    ensures told { TellsTeam apps.now (option_map (λ m. m.now) arguments.entry) word.now book.old result }
    ensures in_time { result ≢ Launch.NoMemory → LaunchInTime hands.old.clock.time hands.new.clock.time book.old book.new result }
    ensures by_main { ByMain book.old }
    ensures rest { IsAtRest book.new }
    ensures book { hands.new.book ≡ hands.old.book }
    ensures book_seat { hands.new.book_seat ≡ hands.old.book_seat }
    ensures clock { hands.new.clock.thread ≡ hands.old.clock.thread }
{
    count_by_main(book);
    match book.decide(word, &mut hands.clock) {
        Decision::Starts {
            description,
            team,
            first,
        } => {
            let app = &apps[description as usize];
            let plans = app.loopers.as_slice();
            let making = make_team(alloc, rt, hands, shared, plans, team, first, arguments);
            match making {
                Ok(making) => enter(rt, book, hands, word, making, team, first),
                Err(NoMemory) => Launch::NoMemory,
            }
        }
        Decision::AlreadyRunning { team } => running(book, team),
        Decision::NotFound => Launch::NotFound,
        Decision::Limit => Launch::Limit,
        Decision::NoMemory => Launch::NoMemory,
    }
}

/// Each looper that was started was started by main: each door that is kept tells so.
pub fn count_by_main(book: &RosterBook<KeptDoor>)
    requires rest { IsAtRest book.now }
    ensures { ByMain book.now }
{
    // Reading the descriptions shows that the list is a roster's.
    let _ = book.heads();
}

// The team of that number, where it runs.
fn running_team(running: &[Running], team: u32) -> Option<&Running>
    ensures { option_map (λ running. running.now) result ≡ find (runs_team team) running.now }
{
    running.iter().find(|running| running.team == team)
}

// The team that keeps the application from starting.
fn running(book: &RosterBook<KeptDoor>, team: u32) -> Launch
    requires runs { Any (λ running. running.team ≡ team) (state book.now).running }
    ensures { IsRunningTeam book.now team result }
{
    match running_team(book.app_list(), team) {
        Some(running) => Launch::Running {
            team,
            first: running.first,
        },
        None => unreachable!(),
    }
}

// Enters the launch that was decided on.
fn enter<R: Wait>(
    rt: &R,
    book: &mut RosterBook<KeptDoor>,
    hands: &mut Hands,
    word: &AppWord,
    making: Making,
    team: u32,
    first: u32,
) -> Launch
    requires rest { IsAtRest book.old }
    requires stamp { last_stamp book.old.entries < 2 ^ 63 }
    requires main { hands.old.clock.thread.0 ≡ main_thread }
    requires word { IsWord word.now }
    requires decided { (description : ℕ) × IsDecided book.old word.now making description team first }
    ensures launch { (apps : List AppText) (shared : Shared) (description : ℕ) → IsDecided book.old word.now making description team first → IsMade apps shared making description team first → ComesTo apps shared word.now book.old book.new result }
    ensures team { IsTeamOf making.team team first result }
    ensures in_time { IsTurnInTime hands.old.clock.time hands.new.clock.time book.old book.new }
    ensures rest { IsAtRest book.new }
    ensures book { hands.new.book ≡ hands.old.book }
    ensures book_seat { hands.new.book_seat ≡ hands.old.book_seat }
    ensures clock { hands.new.clock.thread ≡ hands.old.clock.thread }
{
    // Reading the descriptions shows that the list is a roster's.
    let _ = book.heads();
    let Making { team: new, kept } = making;
    let loopers = kept.len() as u32;
    hands.clock.ready(rt);
    match book.launch(word, &mut hands.clock, kept) {
        Launched::Started { .. } => Launch::Started(StartedTeam {
            team: Team {
                number: team,
                first,
                loopers,
                time: hands.clock.time,
            },
            new,
        }),
        Launched::NoMemory(_) => Launch::NoMemory,
    }
}
