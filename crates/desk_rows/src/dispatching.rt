//! Messages carried out, with an answer for each want.

ghost use Rattle.std.specs.Prelude.{◌≡◌, None, OnOk};
ghost use Rattle.ak_desk.specs.Desk.{DeskAwaits, DeskIsDone, DeskMayWant};

use crate::bench::Bench;
use crate::conditions::{counts_of, hand, hand_reply};
use crate::ending::tell_end;
use crate::operation::Hear;
use crate::stop::Stop;
use crate::wants::tell_want;
use ak_action::{Answer, Want};
use ak_base::Bytes;
use ak_desk::Desk;
use ak_flatten::{Item, Taken};
use run_lists::may_stamp;
use std::alloc::Global;

/// Carries out the message with these answers, and tells what is wanted and what it comes to.
pub(crate) fn send(
    alloc: Global,
    bench: &mut Bench,
    item: Item,
    heard: &[Hear],
    told: &mut Bytes,
) -> Result<(), Stop>
    requires { bench.old.desk.begun ≡ None }
    ensures { OnOk result (bench.new.desk.begun ≡ None) }
{
    let taken = Taken {
        position: counts_of(&bench.desk)?.dispatches,
        item,
    };
    bench.desk.begin(&taken)?;
    let all_heard = answer_all(alloc, &mut bench.desk, heard, told)?;
    end(bench, told)?;
    if all_heard {
        Ok(())
    } else {
        Err(Stop::NoAnswer)
    }
}

// Goes on with these answers to the end. Whether all of them were asked for.
fn answer_all(
    alloc: Global,
    desk: &mut Desk,
    heard: &[Hear],
    told: &mut Bytes,
) -> Result<bool, Stop>
    requires { DeskMayWant desk.old }
    ensures done { OnOk result (DeskIsDone desk.new) }
    ensures opening { desk.new.opening ≡ desk.old.opening }
{
    let Ok(want) = desk.want() else {
        return Ok(heard.is_empty());
    };
    if let Want::Done = want {
        return Ok(heard.is_empty());
    }
    tell_want(told, &want)?;
    let [hear, rest @ ..] = heard else {
        return Err(Stop::Waits);
    };
    hear_of(alloc, desk, &want, hear)?;
    answer_all(alloc, desk, rest, told)
}

fn hear_of(alloc: Global, desk: &mut Desk, want: &Want, hear: &Hear) -> Result<(), Stop>
    requires { DeskAwaits want.now desk.old }
    ensures goes_on { OnOk result (DeskMayWant desk.new) }
    ensures opening { desk.new.opening ≡ desk.old.opening }
{
    if let Hear::Reply(message) = hear {
        return hand_reply(alloc, desk, want, message);
    }
    match answer(hear) {
        Some(a) => hand(desk, want, a),
        None => Err(Stop::NoOperation),
    }
}

fn answer(hear: &Hear) -> Option<Answer> {
    match hear {
        Hear::Team(team, first) => Some(Answer::Team {
            team: *team,
            first: *first,
        }),
        Hear::NoTeam => Some(Answer::NoTeam),
        Hear::Written(place) => Some(Answer::Written(*place)),
        Hear::Full => Some(Answer::Full),
        Hear::Closed => Some(Answer::Closed),
        Hear::Spent => Some(Answer::Spent),
        Hear::TooLong => Some(Answer::TooLong),
        Hear::NoMemory => Some(Answer::NoMemory),
        Hear::Reply(_) | Hear::Unread => None,
    }
}

// Ends what came to its end.
fn end(bench: &mut Bench, told: &mut Bytes) -> Result<(), Stop>
    requires { DeskIsDone bench.old.desk }
    ensures { OnOk result (bench.new.desk.begun ≡ None) }
{
    if !may_stamp(&bench.desk, &bench.clock) {
        return Err(Stop::NoOperation);
    }
    let made = bench.desk.end(&mut bench.clock);
    Ok(tell_end(told, &bench.desk, &bench.clock, &made)?)
}

/// Gives the message up, as where there is no memory to begin it, and tells what it comes to. A desk does
/// so once.
pub(crate) fn give_up(bench: &mut Bench, item: Item, told: &mut Bytes) -> Result<(), Stop>
    requires { bench.old.desk.begun ≡ None }
    ensures { OnOk result (bench.new.desk.begun ≡ None) }
{
    let counts = counts_of(&bench.desk)?;
    if counts.gave_up || !may_stamp(&bench.desk, &bench.clock) {
        return Err(Stop::NoOperation);
    }
    let taken = Taken {
        position: counts.dispatches,
        item,
    };
    let made = bench.desk.give_up(&taken, &mut bench.clock);
    Ok(tell_end(told, &bench.desk, &bench.clock, &made)?)
}
