ghost use Rattle.std.specs.Prelude.{◌≡◌, IfOk};

use ak_action::AnswerWord;
use ak_base::{Bytes, Items, NoMemory, Text, ThreadId};
use ak_flatten::Item;
use ak_handler::HandlerFault;
use std::alloc::Global;
use std::marker::Model;
use std::snapshot::Snapshot;

/// Where a message went, as the journal tells it.
#[derive(Clone, Copy, Debug, PartialEq, Eq)]
pub enum EntryRoute {
    /// To the handler with that token.
    To(u64),
    /// A filter skipped it.
    Skipped,
    /// It was for a token that no handler has.
    Dropped,
    /// Its specifiers led nowhere, or no handler of the chain took it.
    NotUnderstood,
    /// To the looper with that number in the run.
    Forward(u32),
    /// There was no memory to begin with it. It has no answer words then, and nothing changed.
    NoMemory,
}

/// A change of a looper's handlers that is asked for. Tokens tell the handlers; the looper's own is 0. The
/// refusals of each stand in the order in which they are tested.
#[derive(Debug, Drop)]
pub enum Edit {
    /// A new handler of that name at the end, which holds nothing and has the looper as its next handler.
    /// Refused with `NameInUse`, `HandlerLimit`. (The Be Book, The Application Kit, BLooper: AddHandler().)
    Add(Text),
    /// The handler with that token goes. What had it as next handler has the looper; where it was preferred,
    /// none is. Refused with `BadHandler`, `IsLooper`. (The Be Book, The Application Kit, BLooper:
    /// RemoveHandler().)
    Remove(u64),
    /// The handler of the first token has another next handler, or none. Refused with `BadHandler`, where
    /// either is not there, `IsLooper`, `ChainLoop`. (The Be Book, The Application Kit, BHandler:
    /// SetNextHandler().)
    Next(u64, Option<u64>),
    /// Another preferred handler, or none. Refused with `BadHandler`. (The Be Book, The Application Kit,
    /// BLooper: SetPreferredHandler().)
    Prefer(Option<u64>),
}

/// What an edit came to.
#[derive(Clone, Copy, Debug, PartialEq, Eq)]
pub enum EditAnswer {
    /// A removal, another next handler or another preferred one is done.
    Done,
    /// The token of the handler that was added.
    Token(u64),
    /// The handlers refuse it, for that reason: nothing changed.
    Refused(HandlerFault),
    /// Memory ran out: nothing changed, and there is no entry.
    NoMemory,
}

/// What happened at a desk.
#[derive(Debug, Drop)]
pub enum DeskEvent {
    /// The message at that position of the port was dispatched: where it went, its answer words, and whether
    /// the looper is to end.
    Dispatched {
        /// How many messages were dispatched before it, from 0 on.
        position: u64,
        /// Where it went.
        route: EntryRoute,
        /// The answer words of what was done, in order.
        answers: Items<AnswerWord>,
        /// Whether the looper is to end.
        quit: bool,
    },
    /// An edit was asked for, and was answered so.
    Edited {
        /// What was asked for.
        edit: Edit,
        /// What it came to.
        answer: EditAnswer,
    },
}

/// What the journal shows of an entry of a desk's list.
#[derive(Debug, Drop)]
pub struct DeskEntry {
    /// One more than the greater of the clock's time and the last stamp before it.
    pub stamp: u64,
    /// The thread that made it; of a dispatch the looper's own, 10,000 plus its number in the run.
    pub by: ThreadId,
    /// What happened.
    pub event: DeskEvent,
}

/// An entry of a desk's list: what the journal shows of it, and of a dispatch the message that it was of; none
/// where there was no memory to begin with it. Contracts alone see the message.
#[derive(Drop)]
pub struct EntryWithItem {
    pub(crate) plain: DeskEntry,
    pub(crate) item: Option<Snapshot<Item>>,
}

impl Model for EntryWithItem {
    ghost use Rattle.ak_desk.specs.Entry.{EntryData, entry_inside, coded_entry};

    ghost Value = { EntryData };

    ghost coded = { coded_entry };

    ghost view = { entry_inside };
}

impl Edit {
    /// An equal one, or `NoMemory` where memory ran out.
    pub fn try_clone(&self) -> Result<Edit, NoMemory>
        ensures { IfOk result (λ e. e ≡ self.now) }
    {
        match self {
            Edit::Add(name) => Ok(Edit::Add(name.try_clone()?)),
            Edit::Remove(token) => Ok(Edit::Remove(*token)),
            Edit::Next(token, next) => Ok(Edit::Next(*token, *next)),
            Edit::Prefer(token) => Ok(Edit::Prefer(*token)),
        }
    }
}

impl DeskEntry {
    /// An equal one, or `NoMemory` where memory ran out.
    pub fn try_clone(&self, alloc: Global) -> Result<DeskEntry, NoMemory>
        ensures { IfOk result (λ e. e ≡ self.now) }
    {
        Ok(DeskEntry {
            stamp: self.stamp,
            by: self.by,
            event: self.event.try_clone(alloc)?,
        })
    }
}

impl DeskEvent {
    /// An equal one, or `NoMemory` where memory ran out.
    pub fn try_clone(&self, alloc: Global) -> Result<DeskEvent, NoMemory>
        ensures { IfOk result (λ e. e ≡ self.now) }
    {
        match self {
            DeskEvent::Dispatched {
                position,
                route,
                answers,
                quit,
            } => Ok(DeskEvent::Dispatched {
                position: *position,
                route: *route,
                answers: Items::from_vec(copied(alloc, answers.as_slice())?),
                quit: *quit,
            }),
            DeskEvent::Edited { edit, answer } => Ok(DeskEvent::Edited {
                edit: edit.try_clone()?,
                answer: *answer,
            }),
        }
    }
}

fn copied(alloc: Global, words: &[AnswerWord]) -> Result<Vec<AnswerWord>, NoMemory>
    ensures { IfOk result (λ copies. copies.items ≡ words.now) }
{
    let mut copies = Vec::with_capacity(alloc, words.len())?;
    for word in words {
        copies.push(copy(alloc, word)?)?;
    }
    Ok(copies)
}

fn copy(alloc: Global, word: &AnswerWord) -> Result<AnswerWord, NoMemory>
    ensures { IfOk result (λ w. w ≡ word.now) }
{
    match word {
        AnswerWord::Error(error) => Ok(AnswerWord::Error(*error)),
        AnswerWord::Reply(flat) => {
            let mut bytes = Bytes::with_capacity(alloc, flat.len())?;
            bytes.extend(flat.as_slice())?;
            Ok(AnswerWord::Reply(bytes))
        }
        AnswerWord::Team(team) => Ok(AnswerWord::Team(*team)),
        AnswerWord::NoTeam => Ok(AnswerWord::NoTeam),
    }
}
