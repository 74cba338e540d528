ghost use Rattle.std.specs.Prelude.{◌≡◌, ◌+◌, ◌++◌, ◌∷◌, ◌<◌, ◌≤◌, ◌^◌, [], true, false, None, Some, is_some, if◌then◌else◌, option_map, vec_len, vec_capacity, IfSome};
ghost use Rattle.ak_base.specs.Thread.{looper_thread};
ghost use Rattle.ak_desk.specs.Desk.{entry_after, stamp_in, stamp_after};
ghost use Rattle.ak_desk.specs.Dispatch.{fitting, ran_out};

use crate::desk::{Begun, Desk};
use crate::entry::{DeskEntry, DeskEvent, EntryRoute, EntryWithItem};
use crate::made::Made;
use crate::replies::none_reply;
use crate::reserved::Spare;
use crate::task::Ended;
use ak_action::AnswerWord;
use ak_base::{Items, KitError};
use ak_flatten::{FLAT_LIMIT, Item, Taken, flat_len};
use ak_message::Message;
use ak_turn::Clock;
use std::alloc::Global;
use std::snapshot::Snapshot;

impl Desk {
    ghost use Rattle.ak_desk.specs.Desk.{clock_after, ended, given_up, made_by, made_without_memory, DeskIsDone, EndsDispatch, GivesUp};
    ghost use Rattle.ak_desk.specs.Machine.{dispatches, gave_up};

    /// Ends the message that was begun: adds its entry, and tells what it came to. The entry's stamp is one
    /// more than the greater of the clock's time and the last stamp, and becomes the time. A reply whose flat
    /// text has over 4,096 bytes is replaced by one that tells so. The clock is that of the looper's own
    /// thread. Takes no memory.
    pub fn end(&mut self, clock: &mut Clock) -> Made
        requires done { DeskIsDone self.old }
        requires looper { clock.old.thread.0 ≡ looper_thread self.old.opening.looper }
        requires time { clock.old.time < 2 ^ 63 }
        requires last { stamp_in self.old.entries < 2 ^ 63 }
        ensures desk { self.new ≡ ended self.old clock.old }
        ensures made { result ≡ made_by self.old.begun }
        ensures clock { clock.new ≡ clock_after self.old clock.old }
        ensures dispatched { IfSome self.old.begun (EndsDispatch clock.old clock.new self.old self.new result) }
    {
        let alloc = *self.entries.allocator();
        let Some(begun) = self.begun.take() else {
            unreachable!()
        };
        let Begun {
            position,
            route,
            task,
            room,
            spare,
            item,
            before: _,
            asked: _,
            heard: _,
            done: _,
        } = begun;
        let Ended {
            answers,
            reply,
            quit,
        } = task.finish(alloc, room);
        let no_memory = ran_out(answers.as_slice());
        let event = DeskEvent::Dispatched {
            position,
            route,
            answers,
            quit,
        };
        add(&mut self.entries, clock, event, Some(item));
        made(reply, quit, no_memory, spare)
    }

    /// Gives the message up where `begin` found no memory for it: adds its entry, in a place that the desk
    /// keeps for this, once. The entry has no answer word, the reply is `NONE` without fields, and the handlers
    /// stay as they are. The clock is that of the looper's own thread, and gives the entry's stamp as in `end`.
    /// Takes no memory.
    pub fn give_up(&mut self, taken: &Taken, clock: &mut Clock) -> Made
        requires rest { self.old.begun ≡ None }
        requires once { gave_up self.old.entries ≡ false }
        requires position { taken.now.position ≡ dispatches self.old.entries }
        requires looper { clock.old.thread.0 ≡ looper_thread self.old.opening.looper }
        requires time { clock.old.time < 2 ^ 63 }
        requires last { stamp_in self.old.entries < 2 ^ 63 }
        ensures desk { self.new ≡ given_up self.old clock.old taken.now }
        ensures made { result ≡ made_without_memory }
        ensures clock { clock.new ≡ clock_after self.old clock.old }
        ensures given_up { GivesUp clock.old clock.new self.old self.new taken.now result }
    {
        let alloc = *self.entries.allocator();
        let event = DeskEvent::Dispatched {
            position: taken.position,
            route: EntryRoute::NoMemory,
            answers: Items::from_vec(Vec::new(alloc)),
            quit: false,
        };
        add(&mut self.entries, clock, event, None);
        Made {
            reply: Some(none_reply(alloc)),
            forwarded: false,
            quit: false,
            no_memory: true,
        }
    }
}

// Adds an entry where there is a place for it. Takes no memory.
pub(crate) fn add(
    entries: &mut Vec<EntryWithItem>,
    clock: &mut Clock,
    event: DeskEvent,
    item: Option<Snapshot<Item>>,
)
    requires place { vec_len entries.old < vec_capacity entries.old }
    requires time { clock.old.time < 2 ^ 63 }
    requires last { stamp_in entries.old.items < 2 ^ 63 }
    ensures items { entries.new.items
        ≡ entries.old.items ++ entry_after entries.old.items clock.old event (option_map (λ x. x.value) item) ∷ [] }
    ensures len { vec_len entries.new ≡ vec_len entries.old + 1 }
    ensures capacity { vec_capacity entries.old ≤ vec_capacity entries.new }
    ensures clock { clock.new ≡ record clock.old { time = stamp_after entries.old.items clock.old } }
{
    let plain = DeskEntry {
        stamp: clock.stamp(last_stamp(entries)),
        by: clock.thread,
        event,
    };
    entries.push(EntryWithItem { plain, item }).unwrap();
}

pub(crate) fn last_stamp(entries: &[EntryWithItem]) -> u64
    ensures { result ≡ stamp_in entries.now }
{
    entries.last().map_or(0, |entry| entry.plain.stamp)
}

// Whether the last word tells that memory ran out.
fn ran_out(words: &[AnswerWord]) -> bool
    ensures { result ≡ ran_out words.now }
{
    match words.last() {
        Some(word) => matches!(word, AnswerWord::Error(KitError::NoMemory)),
        None => false,
    }
}

fn made(reply: Option<Message>, quit: bool, no_memory: bool, spare: Spare) -> Made
    ensures reply { result.reply ≡ option_map fitting reply }
    ensures forwarded { result.forwarded ≡ (if is_some reply then false else true) }
    ensures quit { result.quit ≡ quit }
    ensures no_memory { result.no_memory ≡ no_memory }
{
    match reply {
        Some(reply) => Made {
            reply: Some(fitting(reply, spare)),
            forwarded: false,
            quit,
            no_memory,
        },
        None => Made {
            reply: None,
            forwarded: true,
            quit,
            no_memory,
        },
    }
}

// The reply, or that it is too long.
fn fitting(reply: Message, spare: Spare) -> Message
    ensures { result ≡ fitting reply }
{
    if flat_len(&reply) > FLAT_LIMIT as u64 {
        spare.with(KitError::TooLong)
    } else {
        reply
    }
}
