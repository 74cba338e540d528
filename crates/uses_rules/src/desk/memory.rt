//! Want of memory at a desk. Nothing fails here by itself: `rt try --test --fail-alloc N` makes the Nth
//! allocation fail. Where that is one of the test's own, the test ends with want of memory.

ghost use Rattle.std.specs.Prelude.{◌≡◌, OnOk};
ghost use Rattle.ak_base.specs.Thread.{looper_thread};
ghost use Rattle.ak_desk.specs.Desk.{opened, DeskIsDone, DeskMayWant};

use super::{may_stamp, unused};
use ak_action::{AnswerWord, Want};
use ak_base::{Code, KitError, ThreadId};
use ak_desk::{Desk, DeskEvent, EntryRoute, Made};
use ak_flatten::{Duty, Item, Taken};
use ak_message::{Kind, Message, Target, Value};
use ak_turn::{Book, Clock};
use std::alloc::Global;
use std::test::Fail;

// A message on which there is a reaction.
const PING: Code = Code(0x7069_6E67);

// How far a message came: where it went, how many words tell that all is well, that memory ran out, and
// something else, the number that is replied, whether that tells of memory, and the value of `Count` then.
#[derive(Clone, Copy, Debug, PartialEq, Eq)]
struct Way {
    route: EntryRoute,
    words: [u32; 3],
    reply: Option<i32>,
    no_memory: bool,
    quit: bool,
    count: Option<i32>,
}

const fn way_to(route: EntryRoute, words: [u32; 3], reply: Option<i32>, count: i32) -> Way {
    Way {
        route,
        words,
        reply,
        no_memory: count == 3,
        quit: false,
        count: Some(count),
    }
}

// A reply is made, then the title is set, and then the count to 8; it was 3.
fn ways() -> [Way; 4] {
    let own = EntryRoute::To(0);
    [
        way_to(EntryRoute::NoMemory, [0, 0, 0], None, 3),
        way_to(own, [0, 1, 0], None, 3),
        way_to(own, [1, 1, 0], Some(1), 3),
        way_to(own, [3, 0, 0], Some(1), 8),
    ]
}

// Nothing is wanted, or there is no memory to go on.
fn come_to_an_end(desk: &mut Desk) -> Result<(), Fail>
    requires { DeskMayWant desk.old }
    ensures done { OnOk result (DeskIsDone desk.new) }
    ensures opening { desk.new.opening ≡ desk.old.opening }
{
    let Ok(want) = desk.want() else {
        return Ok(());
    };
    match want {
        Want::Done => Ok(()),
        _ => Err(Fail::new("an answer is missing")),
    }
}

// What the first message of a desk comes to. Where there is no memory to begin it, it is given up.
fn carried(desk: &mut Desk, clock: &mut Clock, taken: &Taken) -> Result<Made, Fail>
    requires unused { desk.old ≡ opened desk.old.opening }
    requires position { taken.now.position ≡ 0 }
    requires thread { clock.old.thread.0 ≡ looper_thread desk.old.opening.looper }
{
    if !may_stamp(desk, clock) {
        return Err(Fail::new("there is no stamp left"));
    }
    if desk.begin(taken).is_err() {
        return Ok(desk.give_up(taken, clock));
    }
    come_to_an_end(desk)?;
    if !may_stamp(desk, clock) {
        return Err(Fail::new("there is no stamp left"));
    }
    Ok(desk.end(clock))
}

fn words_in(words: &[AnswerWord]) -> [u32; 3] {
    let mut counts = [0_u32; 3];
    for word in words {
        let kind = match word {
            AnswerWord::Error(KitError::Ok) => 0_usize,
            AnswerWord::Error(KitError::NoMemory) => 1,
            _ => 2,
        };
        counts[kind] = counts[kind].saturating_add(1);
    }
    counts
}

// The number in the reply.
fn number_in(made: &Made) -> Option<i32> {
    let reply = made.reply.as_ref()?;
    match reply.find(b"n", Kind::Int32, 0) {
        Ok(Value::Int32(n)) => Some(*n),
        _ => None,
    }
}

fn count_in(desk: &Desk) -> Option<i32> {
    match desk.state().handlers.by_token(0)?.first_of(b"Count")? {
        Value::Int32(n) => Some(*n),
        _ => None,
    }
}

fn way_of(desk: &Desk, made: &Made) -> Result<Way, Fail> {
    let entry = desk.entry(0)?.ok_or("there is no entry")?;
    match entry.event {
        DeskEvent::Dispatched {
            route,
            answers,
            quit,
            ..
        } => Ok(Way {
            route,
            words: words_in(answers.as_slice()),
            reply: number_in(made),
            no_memory: made.no_memory,
            quit: quit || made.quit,
            count: count_in(desk),
        }),
        DeskEvent::Edited { .. } => Err(Fail::new("the entry is no dispatch")),
    }
}

fn came(alloc: Global) -> Result<Way, Fail> {
    let mut desk = unused(alloc)?;
    let mut clock = Clock {
        thread: ThreadId::looper(3),
        time: 0,
    };
    let m = Message::new(alloc, PING);
    let taken = Taken {
        position: 0,
        item: Item::new(alloc, Target::Preferred, 0, false, Duty::None, &m)?,
    };
    let made = carried(&mut desk, &mut clock, &taken)?;
    way_of(&desk, &made)
}

// Memory may run out before it begins, at its reply, at the title, or never.
#[test]
fn a_message_comes_as_far_as_memory_goes(rt: HostRuntime) -> Result<(), Fail> {
    let way = came(rt.alloc())?;
    assert!(rt; ways().contains(&way), "{way:?}");
    Ok(())
}
