//! What messages came to, and the entries of the list, told.

use crate::editing::{tell_answer, tell_edit};
use crate::telling::{number, put_number, word};
use crate::values::put_message;
use ak_action::AnswerWord;
use ak_base::{Bytes, NoMemory};
use ak_desk::{Desk, DeskEntry, DeskEvent, EntryRoute, Made};
use ak_turn::{Book, Clock};

type Told = Result<(), NoMemory>;

// ---- the end of a message
/// Tells what the last message came to: its entry, and what was made of it.
pub(crate) fn tell_end(out: &mut Bytes, desk: &Desk, clock: &Clock, made: &Made) -> Told {
    let Some(entry) = last_entry(desk)? else {
        return out.extend(b"strange\n");
    };
    tell_event(out, &entry.event)?;
    if made.no_memory {
        out.extend(b" no memory")?;
    }
    if !is_by(&entry, clock) || quits(&entry.event) != made.quit {
        out.extend(b" strange")?;
    }
    tell_reply(out, made)?;
    out.push(b'\n')
}

fn last_entry(desk: &Desk) -> Result<Option<DeskEntry>, NoMemory> {
    match desk.len().checked_sub(1) {
        Some(place) => desk.entry(place),
        None => Ok(None),
    }
}

// Whether the clock has its stamp, and its thread made it.
fn is_by(entry: &DeskEntry, clock: &Clock) -> bool {
    entry.stamp == clock.time && entry.by == clock.thread
}

fn quits(event: &DeskEvent) -> bool {
    match event {
        DeskEvent::Dispatched { quit, .. } => *quit,
        DeskEvent::Edited { .. } => false,
    }
}

// A reply of a message that is sent on, or one with popped specifiers, is told as strange.
fn tell_reply(out: &mut Bytes, made: &Made) -> Told {
    match &made.reply {
        Some(reply) if !made.forwarded && reply.popped() == 0 => {
            out.extend(b" reply ")?;
            put_message(out, reply)
        }
        None if made.forwarded => out.extend(b" sent on"),
        _ => out.extend(b" strange"),
    }
}

// ---- events
fn tell_event(out: &mut Bytes, event: &DeskEvent) -> Told {
    match event {
        DeskEvent::Dispatched {
            position,
            route,
            answers,
            quit,
        } => {
            put_number(out, *position)?;
            tell_route(out, *route)?;
            tell_answers(out, answers.as_slice())?;
            if *quit { out.extend(b" quits") } else { Ok(()) }
        }
        DeskEvent::Edited { edit, answer } => {
            tell_edit(out, edit)?;
            out.extend(b": ")?;
            tell_answer(out, *answer)
        }
    }
}

fn tell_route(out: &mut Bytes, route: EntryRoute) -> Told {
    match route {
        EntryRoute::To(token) => {
            word(out, b"to")?;
            number(out, token)
        }
        EntryRoute::Skipped => word(out, b"skipped"),
        EntryRoute::Dropped => word(out, b"dropped"),
        EntryRoute::NotUnderstood => word(out, b"not understood"),
        EntryRoute::Forward(looper) => {
            word(out, b"forwarded")?;
            number(out, u64::from(looper))
        }
        EntryRoute::NoMemory => word(out, b"starved"),
    }
}

// Nothing where there are none.
fn tell_answers(out: &mut Bytes, answers: &[AnswerWord]) -> Told {
    if answers.is_empty() {
        return Ok(());
    }
    word(out, b"says")?;
    for answer in answers {
        tell_word(out, answer)?;
    }
    Ok(())
}

fn tell_word(out: &mut Bytes, answer: &AnswerWord) -> Told {
    match answer {
        AnswerWord::Error(error) => word(out, error.name().as_bytes()),
        AnswerWord::Reply(_) => word(out, b"reply"),
        AnswerWord::Team(team) => {
            word(out, b"team")?;
            number(out, u64::from(*team))
        }
        AnswerWord::NoTeam => word(out, b"no team"),
    }
}

// ---- the list
/// Tells the entries, oldest first. Where there is one behind the last one, or the last stamp is another than
/// the last entry's, that is strange.
pub(crate) fn tell_list(out: &mut Bytes, desk: &Desk) -> Told {
    let mut last = 0;
    for place in 0..desk.len() {
        match desk.entry(place)? {
            Some(entry) => {
                tell_entry(out, &entry)?;
                last = entry.stamp;
            }
            None => out.extend(b"strange\n")?,
        }
    }
    let behind = desk.entry(desk.len())?;
    if behind.is_some() || desk.last_stamp() != last {
        out.extend(b"strange\n")?;
    }
    Ok(())
}

fn tell_entry(out: &mut Bytes, entry: &DeskEntry) -> Told {
    out.extend(b"stamp")?;
    number(out, entry.stamp)?;
    word(out, b"by")?;
    number(out, u64::from(entry.by.0))?;
    out.push(b' ')?;
    tell_event(out, &entry.event)?;
    out.push(b'\n')
}
