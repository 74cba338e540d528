//! Launches, look-ups and ends.
ghost use Rattle.std.specs.Prelude.{IfOk};
ghost use Rattle.ak_roster.specs.Roster.{IsAtRest};

use super::calls::{Roster, Row, Word, clock_of, find, gone, launch, roster_of};
use super::doors::doors_given;
use super::shared::look_up;
use crate::compare::same;
use Step::{Ends, Finds, FindsNone, Refuses, Starts};
use ak_base::ThreadId;
use ak_roster::{
    Decision, FindAnswer, FindOutcome, LaunchOutcome, Mode, RosterEntry, RosterEvent,
    answers_follow, holders_are_told, last_parts_are_so, limits_hold, loopers_are_of_their_teams,
    modes_hold, no_team_returns, seats_tell_strangers, the_least_is_found,
};
use ak_turn::{Book, Clock};
use std::alloc::Global;
use std::process::Abort;
use std::test::Fail;

// ---- what is asked, and what is answered
/// What is asked of a roster, and what it has to answer.
enum Step {
    // A launch starts that application, with the team and its first looper.
    Starts(Word, u32, u32, u32),
    // A launch is decided otherwise.
    Refuses(Word, Decision),
    // A look-up finds that team, its first looper, and how many it has.
    Finds(Word, u32, u32, u32),
    FindsNone(Word),
    // A team ends, or does not run.
    Ends(u32, bool),
}

/// What a launch decides and what a look-up finds, where it is one; and whether a team ended.
type Answer = (Option<Decision>, Option<FindAnswer>, bool);

fn wanted(step: &Step) -> Answer {
    match *step {
        Starts(_, description, team, first) => {
            let start = Decision::Starts {
                description,
                team,
                first,
            };
            (Some(start), None, false)
        }
        Refuses(_, decision) => (Some(decision), None, false),
        Finds(_, team, first, loopers) => {
            let found = FindAnswer::Team {
                team,
                first,
                loopers,
            };
            (None, Some(found), false)
        }
        FindsNone(_) => (None, Some(FindAnswer::NoTeam), false),
        Ends(_, is_so) => (None, None, is_so),
    }
}

fn answer(
    alloc: Global,
    roster: &mut Roster,
    clock: &mut Clock,
    step: &Step,
) -> Result<Answer, Fail>
    requires { IsAtRest roster.old }
    ensures { IsAtRest roster.new }
{
    match step {
        Starts(word, _, _, _) | Refuses(word, _) => {
            Ok((Some(launch(alloc, roster, clock, word)?), None, false))
        }
        Finds(word, _, _, _) | FindsNone(word) => {
            Ok((None, Some(find(alloc, roster, clock, word)?), false))
        }
        Ends(team, _) => Ok((None, None, gone(roster, clock, *team)?)),
    }
}

// Each step is answered so, where they are taken in this order, and so many teams run behind it.
fn are_answered(
    rt: &impl Abort,
    alloc: Global,
    label: &str,
    roster: &mut Roster,
    clock: &mut Clock,
    steps: &[(Step, usize)],
) -> Result<(), Fail>
    requires { IsAtRest roster.old }
    ensures { IsAtRest roster.new }
{
    for (place, (step, running)) in steps.iter().enumerate() {
        let told = answer(alloc, roster, clock, step)?;
        same(
            rt,
            (label, place),
            (told, roster.app_list().len()),
            (wanted(step), *running),
        );
    }
    Ok(())
}

// The roster of these applications, once all these steps are answered so.
fn roster_after(rt: &impl Abort, alloc: Global, script: &Script) -> Result<Roster, Fail>
    ensures { IfOk result (λ roster. IsAtRest roster) }
{
    let (label, apps, steps, end) = *script;
    let mut roster = roster_of(alloc, apps)?;
    let mut clock = clock_of(0);
    are_answered(rt, alloc, label, &mut roster, &mut clock, steps)?;
    let told = (roster.len(), roster.last_stamp(), clock.time);
    same(rt, label, told, (end, end, end));
    Ok(roster)
}

// ---- the rows
/// Its name, the applications, the steps, and how many entries there are in the end, each with the next stamp.
type Script = (&'static str, &'static [Row], &'static [(Step, usize)], u64);

const DEMO: Word = Word::Path(b"/boot/demo");

const A: Word = Word::Path(b"/boot/a");

const B: Word = Word::Path(b"/boot/b");

const M: Word = Word::Path(b"/boot/m");

const N: Word = Word::Signature(b"application/n");

const MAIL: Word = Word::Path(b"/boot/mail");

const MODES: [Row; 4] = [
    (b"/boot/demo", b"application/demo", Mode::Single, 1),
    (b"/boot/a", b"application/ab", Mode::Exclusive, 2),
    (b"/boot/b", b"application/ab", Mode::Exclusive, 3),
    (b"/boot/m", b"application/m", Mode::Multiple, 4),
];

// Each script, and how many doors there are in the end: one for each looper that was started.
static SCRIPTS: [(Script, usize); 4] = [
    (
        (
            "modes decide what starts",
            &MODES,
            &[
                (Starts(DEMO, 0, 1, 0), 1),
                (Refuses(DEMO, Decision::AlreadyRunning { team: 1 }), 1),
                (Starts(A, 1, 2, 1), 2),
                (Refuses(B, Decision::AlreadyRunning { team: 2 }), 2),
                (Starts(M, 3, 3, 3), 3),
                (Starts(M, 3, 4, 7), 4),
                (Refuses(Word::Path(b"/boot/z"), Decision::NotFound), 4),
            ],
            7,
        ),
        11,
    ),
    (
        (
            "sixteen launches start",
            &[(b"/boot/m", b"application/m", Mode::Multiple, 2)],
            &[
                (Starts(M, 0, 1, 0), 1),
                (Starts(M, 0, 2, 2), 2),
                (Starts(M, 0, 3, 4), 3),
                (Starts(M, 0, 4, 6), 4),
                (Starts(M, 0, 5, 8), 5),
                (Starts(M, 0, 6, 10), 6),
                (Starts(M, 0, 7, 12), 7),
                (Starts(M, 0, 8, 14), 8),
                (Starts(M, 0, 9, 16), 9),
                (Starts(M, 0, 10, 18), 10),
                (Starts(M, 0, 11, 20), 11),
                (Starts(M, 0, 12, 22), 12),
                (Starts(M, 0, 13, 24), 13),
                (Starts(M, 0, 14, 26), 14),
                (Starts(M, 0, 15, 28), 15),
                (Starts(M, 0, 16, 30), 16),
                (Refuses(M, Decision::Limit), 16),
                (Finds(Word::Team(16), 16, 30, 2), 16),
                (FindsNone(Word::Team(17)), 16),
            ],
            19,
        ),
        32,
    ),
    (
        (
            "loopers are at most 32",
            &[
                (b"/boot/m", b"application/m", Mode::Multiple, 5),
                (b"/boot/n", b"application/n", Mode::Multiple, 2),
            ],
            &[
                (Starts(M, 0, 1, 0), 1),
                (Starts(M, 0, 2, 5), 2),
                (Starts(M, 0, 3, 10), 3),
                (Starts(M, 0, 4, 15), 4),
                (Starts(M, 0, 5, 20), 5),
                (Starts(M, 0, 6, 25), 6),
                (Refuses(M, Decision::Limit), 6),
                (Starts(N, 1, 7, 30), 7),
                (Refuses(N, Decision::Limit), 7),
            ],
            9,
        ),
        32,
    ),
    (
        (
            "the least team is found",
            &[
                (b"/boot/apps/mail", b"application/mail", Mode::Multiple, 1),
                (b"/boot/mail", b"application/other", Mode::Multiple, 1),
                (b"/boot/last", b"application/mail", Mode::Exclusive, 1),
            ],
            &[
                (Starts(MAIL, 1, 1, 0), 1),
                (Starts(Word::Path(b"/boot/apps/mail"), 0, 2, 1), 2),
                (Starts(Word::Signature(b"application/mail"), 0, 3, 2), 3),
                (Starts(MAIL, 1, 4, 3), 4),
                (
                    Refuses(
                        Word::Path(b"/boot/last"),
                        Decision::AlreadyRunning { team: 2 },
                    ),
                    4,
                ),
                (Finds(Word::Name(b"mail"), 1, 0, 1), 4),
                (FindsNone(Word::Name(b"ail")), 4),
                (FindsNone(Word::Name(b"apps/mail")), 4),
                (FindsNone(Word::Name(b"/mail")), 4),
                (FindsNone(Word::Name(b"")), 4),
                (Finds(Word::Signature(b"application/mail"), 2, 1, 1), 4),
                (FindsNone(Word::Signature(b"application")), 4),
                (Finds(MAIL, 1, 0, 1), 4),
                (FindsNone(Word::Path(b"mail")), 4),
                (Finds(Word::Team(3), 3, 2, 1), 4),
                (FindsNone(Word::Team(0)), 4),
                (FindsNone(Word::Team(5)), 4),
            ],
            17,
        ),
        4,
    ),
];

static GOES: Script = (
    "a team goes once",
    &MODES,
    &[
        (Ends(1, false), 0),
        (Starts(DEMO, 0, 1, 0), 1),
        (Ends(1, true), 0),
        (Ends(1, false), 0),
        (FindsNone(DEMO), 0),
        (Starts(DEMO, 0, 2, 1), 1),
    ],
    4,
);

// ---- entries
/// When an entry was made and by whom, what it decided or found, and the number in it.
type Told = (u64, u32, Option<LaunchOutcome>, Option<FindOutcome>, u32);

fn told_by(entry: &RosterEntry) -> Told {
    let (launch, find, number) = match &entry.event {
        RosterEvent::Launch { outcome, .. } => (Some(*outcome), None, 0),
        RosterEvent::Find { outcome, .. } => (None, Some(*outcome), 0),
        RosterEvent::Gone { team } => (None, None, *team),
        RosterEvent::Door { looper } => (None, None, *looper),
    };
    (entry.stamp, entry.by.0, launch, find, number)
}

fn told_at(entries: &[RosterEntry], place: usize) -> Option<Told> {
    match entries.get(place) {
        Some(entry) => Some(told_by(entry)),
        None => None,
    }
}

// How many entries there are, and the first four.
fn all_told(roster: Roster) -> (usize, [Option<Told>; 4]) {
    let entries = roster.into_entries();
    let told = [
        told_at(&entries, 0),
        told_at(&entries, 1),
        told_at(&entries, 2),
        told_at(&entries, 3),
    ];
    (entries.len(), told)
}

const FIRST: LaunchOutcome = LaunchOutcome::Started {
    description: 0,
    team: 1,
    first: 0,
};

const SECOND: LaunchOutcome = LaunchOutcome::Started {
    description: 0,
    team: 2,
    first: 1,
};

const ENTRIES: [Option<Told>; 4] = [
    Some((1, 0, Some(FIRST), None, 0)),
    Some((2, 0, None, None, 1)),
    Some((3, 0, None, Some(FindOutcome::NoTeam), 0)),
    Some((4, 0, Some(SECOND), None, 0)),
];

fn call_the_laws() {
    answers_follow();
    holders_are_told();
    last_parts_are_so();
    limits_hold();
    loopers_are_of_their_teams();
    modes_hold();
    no_team_returns();
    seats_tell_strangers::<()>();
    the_least_is_found();
}

#[test]
fn teams_are_launched_found_and_gone(rt: HostRuntime) -> Result<(), Fail> {
    let alloc = rt.alloc();
    call_the_laws();
    for (script, doors) in &SCRIPTS {
        let mut roster = roster_after(&rt, alloc, script)?;
        same(&rt, "doors", roster.take_doors().len(), *doors);
    }
    let told = all_told(roster_after(&rt, alloc, &GOES)?);
    same(&rt, "the entries of a team that goes", told, (4, ENTRIES));
    let given = ((None, 1), (Some(()), (2, ThreadId(1), 4), 5));
    same(
        &rt,
        "a door is given where its looper was started",
        doors_given(alloc)?,
        given,
    );
    let found = (FindAnswer::NoTeam, 1, 1);
    same(
        &rt,
        "a team is looked up in a shared roster",
        look_up(&rt, alloc)?,
        found,
    );
    Ok(())
}
