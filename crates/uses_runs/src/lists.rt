//! The lists of a run's objects, told. Stamps are not told: which thread comes first is open, but where one waits for the
//! other. So of a port and of the roster what one thread made is told in its order.

use crate::telling::{put_address, put_flat, put_target, tell_thread};
use ak_action::AnswerWord;
use ak_base::{Bytes, Items, NoMemory};
use ak_desk::{Desk, DeskEvent, Edit, EditAnswer, EntryRoute};
use ak_flatten::{Duty, Item};
use ak_port::{PortBook, PortEvent, ReplyBook, ReplyEvent};
use ak_roster::{FindOutcome, LaunchOutcome, RosterEntry, RosterEvent};
use ak_turn::Book;
use run_lists::{Told, slot_of, tell};
use std::alloc::Global;

// ---- ports
/// What that thread made at the port, in a line.
pub fn tell_port(out: &mut Bytes, alloc: Global, port: &PortBook, thread: u32) -> Told {
    out.extend(b"at the port")?;
    tell_thread(out, thread)?;
    out.push(b':')?;
    for place in 0..port.len() {
        if let Some(entry) = port.entry(place)? {
            if entry.by.0 == thread {
                tell_port_event(out, alloc, &entry.event)?;
            }
        }
    }
    out.push(b'\n')
}

fn tell_port_event(out: &mut Bytes, alloc: Global, event: &PortEvent) -> Told {
    match event {
        PortEvent::Made { capacity, life } => {
            tell(out, b"made", u64::from(*capacity))?;
            tell(out, b"of", u64::from(*life))
        }
        PortEvent::Written { position, item } => {
            tell(out, b"written", *position)?;
            tell_item(out, alloc, item)
        }
        PortEvent::Full => out.extend(b" full"),
        PortEvent::Refused => out.extend(b" refused"),
        PortEvent::Spent => out.extend(b" spent"),
        PortEvent::Took(count) => tell(out, b"took", u64::from(*count)),
        PortEvent::Rest(count) => tell(out, b"rest", u64::from(*count)),
        PortEvent::Shut => out.extend(b" shut"),
    }
}

// Its message, its target and its team, and what is popped and owed, if anything.
fn tell_item(out: &mut Bytes, alloc: Global, item: &Item) -> Told {
    out.push(b' ')?;
    put_flat(out, alloc, item.flat())?;
    out.extend(b" to ")?;
    put_target(out, item.target())?;
    tell(out, b"team", u64::from(item.team()))?;
    if item.popped() > 0 {
        tell(out, b"popped", u64::from(item.popped()))?;
    }
    match item.duty() {
        Duty::None => Ok(()),
        Duty::Slot(slot) => tell(out, b"slot", slot),
        Duty::Back(address) => {
            out.extend(b" back ")?;
            put_address(out, &address)
        }
    }
}

// ---- desks
/// What was done at the desk, a line for each entry.
pub fn tell_desk(out: &mut Bytes, desk: &Desk) -> Told {
    for place in 0..desk.len() {
        if let Some(entry) = desk.entry(place)? {
            out.extend(b"at the desk")?;
            tell_thread(out, entry.by.0)?;
            out.push(b':')?;
            tell_desk_event(out, &entry.event)?;
            out.push(b'\n')?;
        }
    }
    Ok(())
}

fn tell_desk_event(out: &mut Bytes, event: &DeskEvent) -> Told {
    match event {
        DeskEvent::Dispatched {
            position,
            route,
            answers,
            quit,
        } => {
            tell(out, b"message", *position)?;
            tell_route(out, *route)?;
            tell_answers(out, answers)?;
            if *quit { out.extend(b" quits") } else { Ok(()) }
        }
        DeskEvent::Edited { edit, answer } => {
            tell_edit(out, edit)?;
            tell_edit_answer(out, *answer)
        }
    }
}

fn tell_route(out: &mut Bytes, route: EntryRoute) -> Told {
    match route {
        EntryRoute::To(token) => tell(out, b"to", token),
        EntryRoute::Skipped => out.extend(b" skipped"),
        EntryRoute::Dropped => out.extend(b" dropped"),
        EntryRoute::NotUnderstood => out.extend(b" not understood"),
        EntryRoute::Forward(looper) => tell(out, b"forwarded", u64::from(looper)),
        EntryRoute::NoMemory => out.extend(b" starved"),
    }
}

fn tell_answers(out: &mut Bytes, answers: &Items<AnswerWord>) -> Told {
    for answer in answers.as_slice() {
        match answer {
            AnswerWord::Error(error) => {
                out.push(b' ')?;
                out.extend(error.name().as_bytes())?;
            }
            AnswerWord::Reply(_) => out.extend(b" reply")?,
            AnswerWord::Team(team) => tell(out, b"team", u64::from(*team))?,
            AnswerWord::NoTeam => out.extend(b" no team")?,
        }
    }
    Ok(())
}

fn tell_edit(out: &mut Bytes, edit: &Edit) -> Told {
    match edit {
        Edit::Add(_) => out.extend(b" add"),
        Edit::Remove(token) => tell(out, b"remove", *token),
        Edit::Next(token, _) => tell(out, b"next", *token),
        Edit::Prefer(_) => out.extend(b" prefer"),
    }
}

fn tell_edit_answer(out: &mut Bytes, answer: EditAnswer) -> Told {
    match answer {
        EditAnswer::Done => out.extend(b" done"),
        EditAnswer::Token(token) => tell(out, b"token", token),
        EditAnswer::Refused(_) => out.extend(b" refused"),
        EditAnswer::NoMemory => out.extend(b" no memory"),
    }
}

// ---- the reply book
/// What was done with each slot, a line for each. Of two slots it is not told what came first.
pub fn tell_book(out: &mut Bytes, alloc: Global, book: &ReplyBook) -> Told {
    for slot in 0..book.slots() {
        out.extend(b"in the book")?;
        tell(out, b"slot", slot)?;
        tell_slot(out, alloc, book, slot)?;
    }
    Ok(())
}

/// The same of the slots that this thread opened, without their numbers.
pub fn tell_slots_of(out: &mut Bytes, alloc: Global, book: &ReplyBook, thread: u32) -> Told {
    for slot in 0..book.slots() {
        if opens(book, slot, thread)? {
            out.extend(b"in the book a slot")?;
            tell_slot(out, alloc, book, slot)?;
        }
    }
    Ok(())
}

fn opens(book: &ReplyBook, slot: u64, thread: u32) -> Result<bool, NoMemory> {
    for place in 0..book.len() {
        if let Some(entry) = book.entry(place)? {
            if slot_of(&entry.event) == slot {
                return Ok(entry.by.0 == thread);
            }
        }
    }
    Ok(false)
}

fn tell_slot(out: &mut Bytes, alloc: Global, book: &ReplyBook, slot: u64) -> Told {
    out.push(b':')?;
    for place in 0..book.len() {
        if let Some(entry) = book.entry(place)? {
            if slot_of(&entry.event) == slot {
                tell_reply_event(out, alloc, &entry.event)?;
                tell_thread(out, entry.by.0)?;
            }
        }
    }
    out.push(b'\n')
}

fn tell_reply_event(out: &mut Bytes, alloc: Global, event: &ReplyEvent) -> Told {
    match event {
        ReplyEvent::Opened(_) => out.extend(b" opened"),
        ReplyEvent::Filled(_, flat) => {
            out.extend(b" filled ")?;
            put_flat(out, alloc, flat.as_slice())
        }
        ReplyEvent::Cancelled(_) => out.extend(b" cancelled"),
        ReplyEvent::Taken(_) => out.extend(b" taken"),
    }
}

// ---- the roster
/// What that thread made at the roster, in a line.
pub fn tell_roster(out: &mut Bytes, roster: &[RosterEntry], thread: u32) -> Told {
    out.extend(b"at the roster")?;
    tell_thread(out, thread)?;
    out.push(b':')?;
    for entry in roster {
        if entry.by.0 == thread {
            tell_roster_event(out, &entry.event)?;
        }
    }
    out.push(b'\n')
}

fn tell_roster_event(out: &mut Bytes, event: &RosterEvent) -> Told {
    match event {
        RosterEvent::Launch { outcome, .. } => tell_launch(out, *outcome),
        RosterEvent::Find { outcome, .. } => tell_find(out, *outcome),
        RosterEvent::Gone { team } => tell(out, b"gone", u64::from(*team)),
        RosterEvent::Door { looper } => tell(out, b"door", u64::from(*looper)),
    }
}

fn tell_launch(out: &mut Bytes, outcome: LaunchOutcome) -> Told {
    match outcome {
        LaunchOutcome::Started { team, first, .. } => {
            tell(out, b"launched", u64::from(team))?;
            tell(out, b"first", u64::from(first))
        }
        LaunchOutcome::AlreadyRunning { team } => tell(out, b"running", u64::from(team)),
        LaunchOutcome::NotFound => out.extend(b" not found"),
        LaunchOutcome::Limit => out.extend(b" limit"),
    }
}

fn tell_find(out: &mut Bytes, outcome: FindOutcome) -> Result<(), NoMemory> {
    match outcome {
        FindOutcome::Team(team) => tell(out, b"found", u64::from(team)),
        FindOutcome::NoTeam => out.extend(b" found none"),
    }
}
