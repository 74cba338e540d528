//! What the calls of a desk ask of their caller, tested while a row is carried out.

ghost use Rattle.std.specs.Prelude.{◌≡◌, ◌-◌, ◌<◌, ◌^◌, ◌||◌, IsTrue, IfOk, OnOk};
ghost use Rattle.ak_action.specs.Interp.{AnswersFind};
ghost use Rattle.ak_desk.specs.Desk.{stamp_in, DeskAwaits, DeskMayWant, DeskTakes};
ghost use Rattle.ak_desk.specs.Machine.{counted, dispatches, gave_up, gives_up};
ghost use Rattle.ak_desk.specs.Answering.{AnswersAsk, AnswersForward, AnswersPost};

use crate::stop::Stop;
use ak_action::{Answer, Want};
use ak_base::NoMemory;
use ak_desk::{Desk, DeskEvent, EntryRoute};
use ak_flatten::{flatten, unflatten};
use ak_message::Message;
use ak_turn::{Book, Clock};
use std::alloc::Global;

// ---- the list
/// How many messages were dispatched, and whether one of them was given up.
#[derive(Clone, Copy)]
pub(crate) struct Counts {
    pub dispatches: u64,
    pub gave_up: bool,
}

/// Counts the entries of the list.
#[tactic(auto, using(crate::proofs::Counting::counting))]
pub(crate) fn counts_of(desk: &Desk) -> Result<Counts, NoMemory>
    ensures dispatches { IfOk result (λ c. c.dispatches ≡ dispatches desk.now.entries) }
    ensures gave_up { IfOk result (λ c. c.gave_up ≡ gave_up desk.now.entries) }
{
    let mut counts = Counts {
        dispatches: 0,
        gave_up: false,
    };
    for place in 0..desk.len() {
        let Some(entry) = desk.entry(place)? else {
            return Err(NoMemory);
        };
        counts = counted(counts, &entry.event);
    }
    Ok(counts)
}

// With one entry more.
fn counted(counts: Counts, event: &DeskEvent) -> Counts
    requires { counts.dispatches < 2 ^ 64 - 1 }
    ensures dispatches { result.dispatches ≡ counted counts.dispatches event.now }
    ensures gave_up { result.gave_up ≡ (counts.gave_up || gives_up event.now) }
{
    let gave_up = gives_up(event);
    match event {
        DeskEvent::Dispatched { .. } => Counts {
            dispatches: counts.dispatches + 1,
            gave_up: counts.gave_up || gave_up,
        },
        DeskEvent::Edited { .. } => Counts {
            dispatches: counts.dispatches,
            gave_up: counts.gave_up || gave_up,
        },
    }
}

fn gives_up(event: &DeskEvent) -> bool
    ensures { result ≡ gives_up event.now }
{
    match event {
        DeskEvent::Dispatched { route, .. } => matches!(route, EntryRoute::NoMemory),
        DeskEvent::Edited { .. } => false,
    }
}

// ---- answers
fn finds(a: &Answer) -> bool
    ensures { IsTrue result → AnswersFind a.now }
{
    matches!(a, Answer::Team { .. } | Answer::NoTeam | Answer::NoMemory)
}

fn posts(a: &Answer) -> bool
    ensures { IsTrue result → AnswersPost a.now }
{
    match a {
        Answer::Written(_)
        | Answer::Full
        | Answer::Closed
        | Answer::Spent
        | Answer::TooLong
        | Answer::NoMemory => true,
        _ => false,
    }
}

// Of all but a reply.
fn asks(a: &Answer) -> bool
    ensures { IsTrue result → AnswersAsk a.now }
{
    match a {
        Answer::Closed | Answer::Spent | Answer::TooLong | Answer::NoMemory => true,
        _ => false,
    }
}

fn forwards(a: &Answer) -> bool
    ensures { IsTrue result → AnswersForward a.now }
{
    match a {
        Answer::Written(_) | Answer::Closed | Answer::Spent | Answer::NoMemory => true,
        _ => false,
    }
}

// Whether it is an answer to what is wanted, and no reply.
fn is_answer(desk: &Desk, want: &Want, a: &Answer) -> bool
    requires { DeskAwaits want.now desk.now }
    ensures { IsTrue result → DeskTakes desk.now a.now }
{
    match want {
        Want::Find(_) => finds(a),
        Want::Post { .. } => posts(a),
        Want::Ask { .. } => asks(a),
        Want::Forward { .. } => forwards(a),
        Want::Done => false,
    }
}

/// Hands over an answer that is no reply.
pub(crate) fn hand(desk: &mut Desk, want: &Want, a: Answer) -> Result<(), Stop>
    requires { DeskAwaits want.now desk.old }
    ensures goes_on { OnOk result (DeskMayWant desk.new) }
    ensures opening { desk.new.opening ≡ desk.old.opening }
{
    if !is_answer(desk, want, &a) {
        return Err(Stop::NoAnswer);
    }
    desk.give(a);
    Ok(())
}

/// Hands over a reply.
pub(crate) fn hand_reply(
    alloc: Global,
    desk: &mut Desk,
    want: &Want,
    reply: &Message,
) -> Result<(), Stop>
    requires { DeskAwaits want.now desk.old }
    ensures goes_on { OnOk result (DeskMayWant desk.new) }
    ensures opening { desk.new.opening ≡ desk.old.opening }
{
    let Want::Ask { .. } = want else {
        return Err(Stop::NoAnswer);
    };
    let flat = flatten(alloc, reply)?;
    let message = unflatten(alloc, flat.as_slice())?;
    desk.give(Answer::Reply { flat, message });
    Ok(())
}
