//! Two threads that take doors of one roster, a session's and a looper's. Each knows by its own entries that it has no
//! part yet.
ghost use Rattle.std.specs.Prelude.{◌≡◌, ◌≢◌, ◌+◌, ◌<◌, ◌≤◌, ◌^◌, false, [], All, Any, IfSome, IsTrue, slice_get};
ghost use Rattle.ak_turn.specs.Entries.{made_by};
ghost use Rattle.ak_turn.specs.Steps.{IsNewName, names_with};
ghost use Rattle.ak_roster.specs.Answers.{IfPart, UnlessPart};
ghost use Rattle.ak_roster.specs.Laws.{IsNoneOfFour};
ghost use Rattle.ak_roster.specs.Roster.{Enters, IsAtRest, Stays, last_stamp, plain_entries, state};

use super::calls::Roster;
use super::doors::{door_at, five};
use crate::compare::same;
use ak_base::{NoMemory, ThreadId};
use ak_roster::{
    RosterEvent, Running, holders_are_told, loopers_are_of_their_teams, seats_tell_strangers,
};
use ak_turn::{Book, Clock, Seat, TurnLock, fronts_go_on};
use std::alloc::Global;
use std::sync::Wait;
use std::test::Fail;
use std::thread::{Threads, join};

// Whether the thread is a session's, which has no part of any door by itself.
fn is_session(thread: ThreadId) -> bool
    ensures { IsTrue result → (1 ≤ thread.0) × (thread.0 < 10000) }
{
    1 <= thread.0 && thread.0 < ThreadId::FIRST_LOOPER.0
}

// Whether the looper is of that team, whose first one has another number.
fn is_apart(team: &Running, number: u32, looper: u32) -> bool
    ensures { IsTrue result → (team.now.first ≤ looper) × (looper < team.now.first + team.now.loopers) × (team.now.first ≢ number) }
{
    if looper < team.first {
        return false;
    }
    if looper - team.first >= team.loopers {
        return false;
    }
    team.first != number
}

// Whether the first team that runs is one of which the looper is, and whose first one has another number.
fn runs_apart(roster: &Roster, number: u32, looper: u32) -> bool
    ensures { IsTrue result → Any (λ team. (team.first ≤ looper) × (looper < team.first + team.loopers) × (team.first ≢ number)) (state roster.now).running }
{
    let Some(team) = roster.app_list().first() else {
        return false;
    };
    is_apart(team, number, looper)
}

// The number of the looper whose thread it is, if it is one's.
fn number_of(thread: ThreadId) -> Option<u32>
    ensures { IfSome result (λ number. (thread.0 ≡ 10000 + number) × (thread.0 < 20000)) }
{
    if thread.0 < ThreadId::FIRST_LOOPER.0 || thread.0 >= ThreadId::KEEPER.0 {
        return None;
    }
    Some(thread.0 - ThreadId::FIRST_LOOPER.0)
}

// Whether the thread is that of another looper, which is not the first one of the looper's team.
fn is_another(roster: &Roster, thread: ThreadId, looper: u32) -> bool
    ensures { IsTrue result → IfSome (slice_get (state roster.now).loopers looper) (IsNoneOfFour thread.0 looper) }
{
    loopers_are_of_their_teams();
    // Reading the descriptions shows that the list is a roster's.
    let _ = roster.heads();
    let Some(number) = number_of(thread) else {
        return false;
    };
    if number == looper {
        return false;
    }
    runs_apart(roster, number, looper)
}

// Whether the thread is none of the four that have a part of the looper's door by themselves.
#[tactic(auto, using(crate::proofs::OwnDoors::sessions))]
fn is_none_of_four(roster: &Roster, thread: ThreadId, looper: u32) -> bool
    ensures { IsTrue result → IfSome (slice_get (state roster.now).loopers looper) (IsNoneOfFour thread.0 looper) }
{
    if is_session(thread) {
        return true;
    }
    is_another(roster, thread, looper)
}

/// A part of the looper's door for the clock's thread, which made no entry of that door. None also where the thread
/// has a part by itself, or is not known to have none.
fn grant_by(roster: &mut Roster, looper: u32, clock: &mut Clock) -> Result<Option<()>, NoMemory>
    requires rest { IsAtRest roster.old }
    requires own { All (λ e. e.event ≢ RosterEvent.Door looper) (made_by (λ e. e.by.0) clock.old.thread.0 (plain_entries roster.old.entries)) }
    requires time { clock.old.time < 2 ^ 63 }
    requires stamp { last_stamp roster.old.entries < 2 ^ 63 }
    ensures entry { IfPart result (λ _. Enters (RosterEvent.Door looper) [] roster.new.doors roster.old roster.new clock.old clock.new) }
    ensures stays { UnlessPart result (Stays roster.old roster.new clock.old clock.new) }
    ensures rest { IsAtRest roster.new }
{
    holders_are_told();
    if !is_none_of_four(roster, clock.thread, looper) {
        return Ok(None);
    }
    // Reading the descriptions shows that the list is a roster's.
    let _ = roster.heads();
    roster.grant(looper, clock)
}

// The same at a turn, by a seat whose thread made no entry.
fn take_door<R: Wait>(
    rt: &R,
    lock: &TurnLock<Roster>,
    mut seat: Seat<Roster>,
    thread: ThreadId,
    looper: u32,
) -> Result<Option<()>, NoMemory>
    requires of { seat.lock ≡ lock.now }
    requires idle { seat.turn ≡ false }
    requires thread { seat.thread ≡ thread.0 }
    requires none { seat.own ≡ [] }
{
    fronts_go_on::<Roster>();
    seats_tell_strangers::<()>();
    let mut clock = Clock { thread, time: 0 };
    let mut turn = lock.lock(rt, &mut seat);
    let given = grant_by(turn.book(), looper, &mut clock);
    turn.finish(&mut seat);
    given
}

/// What two threads are given.
type Both = (Result<Option<()>, NoMemory>, Result<Option<()>, NoMemory>);

// Session 1 and looper 4 take a door each at a time, of the loopers 1 and 2.
fn two_take<R: Threads + Wait + Sync>(
    rt: &R,
    lock: &TurnLock<Roster>,
    one: Seat<Roster>,
    two: Seat<Roster>,
) -> Both
    requires one { (one.lock ≡ lock.now) × (one.turn ≡ false) × (one.thread ≡ 1) × (one.own ≡ []) }
    requires two { (two.lock ≡ lock.now) × (two.turn ≡ false) × (two.thread ≡ 10004) × (two.own ≡ []) }
{
    join(
        rt,
        || -> Result<Option<()>, NoMemory>
            requires { (one.lock ≡ lock.now) × (one.turn ≡ false) × (one.thread ≡ 1) × (one.own ≡ []) }
        { take_door(rt, lock, one, ThreadId(1), 1) },
        || -> Result<Option<()>, NoMemory>
            requires { (two.lock ≡ lock.now) × (two.turn ≡ false) × (two.thread ≡ 10004) × (two.own ≡ []) }
        { take_door(rt, lock, two, ThreadId(10_004), 2) },
    )
}

// A seat for a new thread.
fn seat_for(lock: &TurnLock<Roster>, seat: &mut Seat<Roster>, thread: ThreadId) -> Seat<Roster>
    requires of { seat.old.lock ≡ lock.now }
    requires idle { seat.old.turn ≡ false }
    requires name { IsNewName seat.old.names thread.0 }
    ensures of { seat.new.lock ≡ lock.now }
    ensures idle { seat.new.turn ≡ false }
    ensures new { (result.lock ≡ lock.now) × (result.turn ≡ false) × (result.thread ≡ thread.0) × (result.own ≡ []) }
    ensures names { seat.new.names ≡ names_with seat.old.names thread.0 }
{
    lock.split(seat, thread)
}

// The whole list, once both took their doors, and what they were given.
fn taken_by_two<R: Threads + Wait + Sync>(
    rt: &R,
    lock: &TurnLock<Roster>,
    mut seat: Seat<Roster>,
) -> (Roster, Both)
    requires of { seat.lock ≡ lock.now }
    requires idle { seat.turn ≡ false }
    requires one { IsNewName seat.names 1 }
    requires two { IsNewName (names_with seat.names 1) 10004 }
{
    let one = seat_for(lock, &mut seat, ThreadId(1));
    let two = seat_for(lock, &mut seat, ThreadId(10_004));
    let both = two_take(rt, lock, one, two);
    (lock.lock(rt, &mut seat).keep(), both)
}

/// What two threads are given, how many entries the list has then, and which doors were given to whom.
type Taken = ([Option<()>; 2], u64, [(u32, u32); 2]);

// The looper and the thread of the door's entry at that place.
fn taken_at(roster: &Roster, place: u64) -> Result<(u32, u32), Fail> {
    let (_, by, looper) = door_at(roster, place)?;
    Ok((looper, by.0))
}

// The one of the lesser looper first.
fn told(roster: &Roster, both: Both) -> Result<Taken, Fail> {
    let (one, two) = (taken_at(roster, 1)?, taken_at(roster, 2)?);
    let doors = if two.0 < one.0 {
        [two, one]
    } else {
        [one, two]
    };
    Ok(([both.0?, both.1?], roster.len(), doors))
}

fn two_threads<R: Threads + Wait + Sync>(rt: &R, alloc: Global) -> Result<Taken, Fail> {
    let roster = five(alloc)?;
    let (shared, seat) = TurnLock::new(alloc, roster, ThreadId(0))?;
    let (roster, both) = taken_by_two(rt, &shared, seat);
    told(&roster, both)
}

#[test]
fn two_threads_take_doors(rt: HostRuntime) -> Result<(), Fail> {
    let wanted = ([Some(()); 2], 3, [(1, 1), (2, 10_004)]);
    same(&rt, "doors", two_threads(&rt, rt.alloc())?, wanted);
    Ok(())
}
