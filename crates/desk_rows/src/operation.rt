//! What the lines of a row say to do.

use crate::words::Words;
use ak_base::{NoMemory, Text};
use ak_desk::Edit;
use ak_flatten::{Duty, FlattenFault, Item, ItemFault, flatten};
use ak_input::{Line, Word, read_message};
use ak_message::{Message, Target};
use std::alloc::Global;

/// An operation, and the answers behind it.
#[derive(Drop)]
pub(crate) struct Step {
    pub operation: Operation,
    pub heard: Vec<Hear>,
}

#[derive(Drop)]
pub(crate) enum Operation {
    Send(Item),
    Starve(Item),
    Edit(Edit),
    Time(u64),
    Look,
    List,
    // It is none.
    Unread,
}

/// An answer to a want.
#[derive(Drop)]
pub(crate) enum Hear {
    Team(u32, u32),
    NoTeam,
    Written(u64),
    Full,
    Closed,
    Spent,
    TooLong,
    Reply(Message),
    NoMemory,
    // It is none.
    Unread,
}

/// The operations of these lines, each with the answers behind it. An answer before all of them is one
/// to nothing.
pub(crate) fn steps_of(alloc: Global, lines: &[Line]) -> Result<Option<Vec<Step>>, NoMemory> {
    let mut steps: Vec<Step> = Vec::new(alloc);
    for line in lines {
        let mut words = Words::new(line.words.as_slice());
        if words.has(b"hear") {
            let Some(step) = steps.last_mut() else {
                return Ok(None);
            };
            step.heard.push(hear_of(alloc, words)?)?;
        } else {
            steps.push(Step {
                operation: operation_of(alloc, words)?,
                heard: Vec::new(alloc),
            })?;
        }
    }
    Ok(Some(steps))
}

fn operation_of(alloc: Global, mut words: Words) -> Result<Operation, NoMemory> {
    if words.has(b"send") {
        return Ok(match item_of(alloc, words)? {
            Some(item) => Operation::Send(item),
            None => Operation::Unread,
        });
    }
    if words.has(b"starve") {
        return Ok(match item_of(alloc, words)? {
            Some(item) => Operation::Starve(item),
            None => Operation::Unread,
        });
    }
    match edit_of(alloc, words)? {
        Some(edit) => Ok(Operation::Edit(edit)),
        None => Ok(plain_operation(words)),
    }
}

fn plain_operation(mut words: Words) -> Operation {
    let read = if words.has(b"time") {
        words.long().map(Operation::Time)
    } else if words.has(b"look") {
        Some(Operation::Look)
    } else if words.has(b"list") {
        Some(Operation::List)
    } else {
        None
    };
    match read {
        Some(operation) if words.are_over() => operation,
        _ => Operation::Unread,
    }
}

// ---- edits
fn edit_of(alloc: Global, mut words: Words) -> Result<Option<Edit>, NoMemory> {
    if words.has(b"add") {
        return added(alloc, words);
    }
    let edit = if words.has(b"remove") {
        words.long().map(Edit::Remove)
    } else if words.has(b"next") {
        next_of(&mut words)
    } else if words.has(b"prefer") {
        maybe_token(&mut words).map(Edit::Prefer)
    } else {
        None
    };
    Ok(if words.are_over() { edit } else { None })
}

fn added(alloc: Global, mut words: Words) -> Result<Option<Edit>, NoMemory> {
    let Some(name) = words.next() else {
        return Ok(None);
    };
    match Text::from_bytes(alloc, name) {
        Ok(name) if words.are_over() => Ok(Some(Edit::Add(name))),
        _ => Ok(None),
    }
}

fn next_of(words: &mut Words) -> Option<Edit> {
    let token = words.long()?;
    Some(Edit::Next(token, maybe_token(words)?))
}

// A token, or none where no word is left.
fn maybe_token(words: &mut Words) -> Option<Option<u64>> {
    if words.are_over() {
        return Some(None);
    }
    Some(Some(words.long()?))
}

// ---- messages
// What stands before a message.
#[derive(Clone, Copy)]
struct Envelope {
    target: Target,
    team: u32,
    dropped: bool,
    popped: u32,
    forwarded: Option<u32>,
    duty: Duty,
}

// What is said of the message, in this order.
fn envelope_of(words: &mut Words) -> Option<Envelope> {
    let target = if words.has(b"to") {
        Target::Token(words.long()?)
    } else {
        Target::Preferred
    };
    Some(Envelope {
        target,
        team: number_after(words, b"team")?.unwrap_or(0),
        dropped: words.has(b"dropped"),
        popped: number_after(words, b"popped")?.unwrap_or(0),
        forwarded: number_after(words, b"forwarded")?,
        duty: duty_of(words)?,
    })
}

// The number behind that word, if it comes next.
fn number_after(words: &mut Words, key: &[u8]) -> Option<Option<u32>> {
    if !words.has(key) {
        return Some(None);
    }
    Some(Some(words.short()?))
}

fn duty_of(words: &mut Words) -> Option<Duty> {
    if words.has(b"slot") {
        return Some(Duty::Slot(words.long()?));
    }
    if words.has(b"back") {
        return Some(Duty::Back(words.address()?));
    }
    Some(Duty::None)
}

// None where the words are no envelope and message.
fn item_of(alloc: Global, mut words: Words) -> Result<Option<Item>, NoMemory> {
    let Some(envelope) = envelope_of(&mut words) else {
        return Ok(None);
    };
    let Some(message) = message_of(alloc, words.rest) else {
        return Ok(None);
    };
    item_in(alloc, envelope, &message)
}

// None where the words are no message, or there is no memory for it.
fn message_of(alloc: Global, words: &[Word]) -> Option<Message> {
    read_message(alloc, words).ok()
}

fn item_in(alloc: Global, e: Envelope, message: &Message) -> Result<Option<Item>, NoMemory> {
    let flat = match flatten(alloc, message) {
        Ok(flat) => flat,
        Err(FlattenFault::TooLong) => return Ok(None),
        Err(FlattenFault::NoMemory) => return Err(NoMemory),
    };
    match Item::from_flat(alloc, e.target, e.team, e.dropped, e.duty, e.popped, flat) {
        Ok(item) => forwarded(alloc, item, e.forwarded),
        Err(ItemFault::NoMemory) => Err(NoMemory),
        Err(_) => Ok(None),
    }
}

// The item as it is sent on with so many specifiers popped.
fn forwarded(alloc: Global, item: Item, popped: Option<u32>) -> Result<Option<Item>, NoMemory> {
    let Some(popped) = popped else {
        return Ok(Some(item));
    };
    let message = item.message(alloc)?;
    if popped < item.popped() || popped > message.specifiers() {
        return Ok(None);
    }
    Ok(Some(item.forwarded(popped)))
}

// ---- answers
fn hear_of(alloc: Global, mut words: Words) -> Result<Hear, NoMemory> {
    if words.has(b"reply") {
        return Ok(match message_of(alloc, words.rest) {
            Some(message) => Hear::Reply(message),
            None => Hear::Unread,
        });
    }
    match plain_answer(&mut words) {
        Some(hear) if words.are_over() => Ok(hear),
        _ => Ok(Hear::Unread),
    }
}

fn plain_answer(words: &mut Words) -> Option<Hear> {
    if words.has(b"team") {
        let team = words.short()?;
        return team_answer(words, team);
    }
    match words.next()? {
        b"written" => Some(Hear::Written(words.long()?)),
        b"full" => Some(Hear::Full),
        b"closed" => Some(Hear::Closed),
        b"spent" => Some(Hear::Spent),
        b"no" => none_of(words),
        b"too" if words.has(b"long") => Some(Hear::TooLong),
        _ => None,
    }
}

fn team_answer(words: &mut Words, team: u32) -> Option<Hear> {
    if !words.has(b"first") {
        return None;
    }
    Some(Hear::Team(team, words.short()?))
}

fn none_of(words: &mut Words) -> Option<Hear> {
    if words.has(b"team") {
        Some(Hear::NoTeam)
    } else if words.has(b"memory") {
        Some(Hear::NoMemory)
    } else {
        None
    }
}
