//! The list of a looper's desk, carried out once more on a new one: edit by edit, and message by message as the port accepted them.

ghost use Rattle.std.specs.Prelude.{◌≡◌, ◌<◌, ◌^◌, None, OnOk, IsTrue};
ghost use Rattle.ak_desk.specs.Desk.{stamp_in, DeskIsDone};

use crate::fresh::Again;
use crate::heard::{answer_all, words_heard};
use crate::replies::Fills;
use crate::stop::{Difference, Stop};
use ak_action::AnswerWord;
use ak_base::{KitError, NoMemory};
use ak_desk::{Desk, DeskEvent, Edit, EditAnswer, EntryRoute};
use ak_flatten::{Item, Taken};
use ak_message::Message;
use ak_port::{PortBook, PortEvent};
use ak_turn::{Book, Clock};
use std::alloc::Global;

/// What a looper's list is compared with beside its desk: the items that its port accepted, in order, and the texts that filled slots.
#[derive(Clone, Copy)]
pub(crate) struct Given<'a> {
    pub items: &'a [Taken],
    pub fills: &'a Fills<'a>,
    /// The looper's own.
    pub thread: u32,
}

/// The items that the port accepted, in order.
pub(crate) fn accepted(alloc: Global, port: &PortBook) -> Result<Vec<Taken>, NoMemory> {
    let mut items = Vec::new(alloc);
    for place in 0..port.len() {
        if let Some(entry) = port.entry(place)? {
            add_item(&mut items, entry.event)?;
        }
    }
    Ok(items)
}

fn add_item(items: &mut Vec<Taken>, event: PortEvent) -> Result<(), NoMemory> {
    if let PortEvent::Written { position, item } = event {
        items.push(Taken { position, item })?;
    }
    Ok(())
}

fn same(is_same: bool, difference: Difference) -> Result<(), Stop> {
    if is_same {
        Ok(())
    } else {
        Err(Stop::Differs(difference))
    }
}

/// Whether there are stamps left for an entry more on the desk by the clock's thread.
pub fn may_stamp(desk: &Desk, clock: &Clock) -> bool
    ensures { IsTrue result → (clock.now.time < 2 ^ 63) × (stamp_in desk.now.entries < 2 ^ 63) }
{
    clock.time < 1 << 63 && desk.last_stamp() < 1 << 63
}

// ---- an edit
#[tactic(auto, using(crate::proofs::Counting::counting))]
fn edit_again(again: &mut Again, edit: Edit, answer: EditAnswer) -> Result<(), Stop>
    requires { again.old.desk.begun ≡ None }
    ensures { OnOk result (again.new.desk.begun ≡ None) }
{
    if !may_stamp(&again.desk, &again.clock) {
        return Err(Stop::Differs(Difference::Edit));
    }
    match again.desk.edit(edit, &mut again.clock) {
        EditAnswer::NoMemory => Err(Stop::NoMemory),
        other => same(other == answer, Difference::Edit),
    }
}

// ---- a message
// Ends what came to its end, and counts it.
fn end(again: &mut Again) -> Result<Option<Message>, Stop>
    requires { DeskIsDone again.old.desk }
    ensures { OnOk result (again.new.desk.begun ≡ None) }
{
    if !may_stamp(&again.desk, &again.clock) || again.count == u64::MAX {
        return Err(Stop::Differs(Difference::Item));
    }
    let made = again.desk.end(&mut again.clock);
    again.count += 1;
    Ok(made.reply)
}

// Carries the item out with the answers that these words tell. Answers the reply; none where it was sent on.
fn carry_out(
    alloc: Global,
    again: &mut Again,
    taken: &Taken,
    words: &[AnswerWord],
) -> Result<Option<Message>, Stop>
    requires { again.old.desk.begun ≡ None }
    ensures { OnOk result (again.new.desk.begun ≡ None) }
{
    if taken.position != again.count {
        return Err(Stop::Differs(Difference::Item));
    }
    let heard = words_heard(alloc, again.desk.state(), &taken.item, words)?;
    again.desk.begin(taken)?;
    answer_all(alloc, &mut again.desk, &heard)?;
    end(again)
}

fn is_same_word(word: &AnswerWord, other: &AnswerWord) -> bool {
    match (word, other) {
        (AnswerWord::Error(error), AnswerWord::Error(other)) => error == other,
        (AnswerWord::Reply(flat), AnswerWord::Reply(other)) => flat.as_slice() == other.as_slice(),
        (AnswerWord::Team(team), AnswerWord::Team(other)) => team == other,
        (AnswerWord::NoTeam, AnswerWord::NoTeam) => true,
        _ => false,
    }
}

fn are_same_words(words: &[AnswerWord], others: &[AnswerWord]) -> bool {
    words.len() == others.len()
        && words
            .iter()
            .zip(others.iter())
            .all(|(word, other)| is_same_word(word, other))
}

fn same_event(event: &DeskEvent, other: &DeskEvent) -> Result<(), Stop> {
    let DeskEvent::Dispatched {
        route,
        answers,
        quit,
        ..
    } = event
    else {
        return Ok(());
    };
    let DeskEvent::Dispatched {
        route: other_route,
        answers: other_answers,
        quit: other_quit,
        ..
    } = other
    else {
        return Err(Stop::Differs(Difference::Item));
    };
    same(route == other_route, Difference::Route)?;
    let words = are_same_words(answers.as_slice(), other_answers.as_slice());
    same(words, Difference::Words)?;
    same(quit == other_quit, Difference::Quit)
}

// Whether the last entry of the new desk is the same.
fn same_entry(desk: &Desk, event: &DeskEvent) -> Result<(), Stop> {
    let Some(place) = desk.len().checked_sub(1) else {
        return Err(Stop::Differs(Difference::Item));
    };
    match desk.entry(place)? {
        Some(entry) => same_event(event, &entry.event),
        None => Err(Stop::Differs(Difference::Item)),
    }
}

fn same_reply(
    alloc: Global,
    given: Given<'_>,
    item: &Item,
    reply: Option<Message>,
) -> Result<(), Stop> {
    match reply {
        Some(reply) => {
            let is_paid = given.fills.pay(alloc, given.thread, item, &reply)?;
            same(is_paid, Difference::Reply)
        }
        None => Ok(()),
    }
}

// Whether memory ran out for it.
fn is_starved(route: EntryRoute, words: &[AnswerWord]) -> bool {
    match (route, words.last()) {
        (EntryRoute::NoMemory, _) => true,
        (_, Some(AnswerWord::Error(error))) => *error == KitError::NoMemory,
        _ => false,
    }
}

// ---- the list
fn event_again(
    alloc: Global,
    again: &mut Again,
    given: Given<'_>,
    event: &DeskEvent,
) -> Result<(), Stop>
    requires { again.old.desk.begun ≡ None }
    ensures { OnOk result (again.new.desk.begun ≡ None) }
{
    let (route, words) = match event {
        DeskEvent::Edited { edit, answer } => {
            return edit_again(again, edit.try_clone()?, *answer);
        }
        DeskEvent::Dispatched { route, answers, .. } => (*route, answers.as_slice()),
    };
    if is_starved(route, words) {
        return Err(Stop::Starved);
    }
    let Some(taken) = given.items.get(again.count as usize) else {
        return Err(Stop::Differs(Difference::Item));
    };
    let reply = carry_out(alloc, again, taken, words)?;
    same_entry(&again.desk, event)?;
    same_reply(alloc, given, &taken.item, reply)
}

fn entry_again(
    alloc: Global,
    again: &mut Again,
    given: Given<'_>,
    kept: &Desk,
    place: u64,
) -> Result<(), Stop>
    requires { again.old.desk.begun ≡ None }
    ensures { OnOk result (again.new.desk.begun ≡ None) }
{
    match kept.entry(place)? {
        Some(entry) => event_again(alloc, again, given, &entry.event),
        None => Ok(()),
    }
}

// To each one that waits for an item behind so many there is no reply.
fn left_again(alloc: Global, given: Given<'_>, count: u64) -> Result<(), Stop> {
    for taken in given.items.iter().skip(count as usize) {
        let is_paid = given.fills.pay_nothing(alloc, given.thread, &taken.item)?;
        same(is_paid, Difference::Left)?;
    }
    Ok(())
}

/// Carries out the list on the new desk, and then looks at what was left. Answers how many entries are as they have to be, and why no
/// further one was looked at.
pub(crate) fn list_again(
    alloc: Global,
    mut again: Again,
    given: Given<'_>,
    kept: &Desk,
) -> (u64, Result<(), Stop>)
    requires { again.desk.begun ≡ None }
{
    for place in 0..kept.len() {
        if let Err(stop) = entry_again(alloc, &mut again, given, kept, place) {
            return (place, Err(stop));
        }
    }
    (kept.len(), left_again(alloc, given, again.count))
}
