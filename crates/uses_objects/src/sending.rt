//! What posts and asks answer, and what stands in the port and in the book then.
ghost use Rattle.std.specs.Prelude.{◌≡◌, ◌≤◌, false, None, IfOk};
ghost use Rattle.std.specs.Arc.{arc_value};
ghost use Rattle.ak_base.specs.declared.thread.ThreadId.{ThreadId};
ghost use Rattle.ak_base.specs.Thread.{looper_thread};
ghost use Rattle.ak_message.specs.Fields.{specifier_count};
ghost use Rattle.ak_port.specs.PortCalls.{CanTake};
ghost use Rattle.ak_port.specs.Reply.{IsFlatText};
ghost use Rattle.ak_turn.specs.Called.{KeepsSeat};

use crate::compare::same;
use crate::reply_text::reply_text;
use ak_base::{Bytes, Code, NoMemory, Text, ThreadId};
use ak_flatten::{Duty, Item};
use ak_message::{AddFault, Address, Message, Target, Value};
use ak_messenger::{Envelope, Hands, Reply, SendFault, ask, post, post_at_turn};
use ak_port::{FillAnswer, Port, PortBook, ReplyBook, ReplyEvent, close, fill, make, take};
use ak_turn::{Book, Clock, Seat, TurnLock};
use std::alloc::Global;
use std::collections::VecDeque;
use std::sync::{Arc, Wait};
use std::test::Fail;
use std::thread::{Threads, join};

const MAIN: ThreadId = ThreadId::MAIN;

const LOOPER: ThreadId = ThreadId::FIRST_LOOPER;

/// What an item tells beside its message: its target, its team, whether it was dropped, how many specifiers are popped,
/// and its duty.
type Told = (Target, u32, bool, u32, Duty);

fn told_by(item: &Item) -> Told {
    (
        item.target(),
        item.team(),
        item.dropped(),
        item.popped(),
        item.duty(),
    )
}

fn clock_of(thread: ThreadId) -> Clock
    ensures { result ≡ record { thread = thread; time = 0 } }
{
    Clock { thread, time: 0 }
}

// Main's hands; a port whose taker is the looper, and main's seat there; the looper's seats.
#[derive(Drop)]
struct Scene {
    hands: Hands,
    port: Arc<Port>,
    seat: Seat<PortBook>,
    taker: Seat<PortBook>,
    filler: Seat<ReplyBook>,
    ghost main: { hands.clock.thread.0 ≡ 0 },
    ghost of: { seat.lock ≡ arc_value port },
    ghost idle: { seat.turn ≡ false },
    ghost thread: { seat.thread ≡ 0 },
    ghost taker_of: { taker.lock ≡ arc_value port },
    ghost taker_idle: { taker.turn ≡ false },
    ghost taker_thread: { taker.thread ≡ looper_thread 0 },
    ghost filler_of: { filler.lock ≡ arc_value hands.book },
    ghost filler_idle: { filler.turn ≡ false },
    ghost filler_thread: { filler.thread ≡ looper_thread 0 },
}

// The port holds one item, and accepts so many.
fn make_scene(alloc: Global, life: u32) -> Result<Scene, NoMemory>
    requires { (1 ≤ life) × (life ≤ 9) }
    ensures { IfOk result (λ scene. CanTake LOOPER 1 scene.taker) }
{
    let (port, mut taker) = make(alloc, 1, life, LOOPER, &mut clock_of(LOOPER))?;
    let seat = port.split(&mut taker, MAIN);
    let (book, mut book_seat) = TurnLock::new(alloc, ReplyBook::new(alloc)?, MAIN)?;
    let filler = book.split(&mut book_seat, LOOPER);
    let hands = Hands {
        clock: clock_of(MAIN),
        book,
        book_seat,
    };
    Ok(Scene {
        hands,
        port,
        seat,
        taker,
        filler,
    })
}

// A dropped message of team 7 for the handler with token 3, with so many specifiers popped.
fn envelope(popped: u32) -> Envelope
    ensures popped { result.popped ≡ popped }
    ensures back { result.back ≡ None }
{
    Envelope {
        target: Target::Token(3),
        team: 7,
        dropped: true,
        popped,
        back: None,
    }
}

// A message with one specifier, which is not popped.
fn question(alloc: Global) -> Result<Message, AddFault> {
    let mut message = Message::new(alloc, Code::GET);
    let specifier = Value::from_message(alloc, Message::new(alloc, Code(1)))?;
    message.add(b"specifiers", specifier)?;
    Ok(message)
}

// A message whose flat text has 4,123 bytes.
fn long(alloc: Global) -> Result<Message, Fail> {
    let mut message = Message::new(alloc, Code(1));
    for _ in 0..4 {
        message.add(b"t", Value::Text(Text::from_bytes(alloc, &[b'x'; 1024])?))?;
    }
    Ok(message)
}

// The envelope of a post with all of the message's specifiers popped, and an address.
fn posting(m: &Message) -> Envelope
    ensures { result.popped ≡ specifier_count m.now.fields }
{
    let mut e = envelope(m.specifiers());
    e.back = Some(Address {
        looper: 2,
        target: Target::Preferred,
    });
    e
}

// Posts the message once there is room.
fn post_one<R: Wait>(
    rt: &R,
    alloc: Global,
    hands: &mut Hands,
    port: &Port,
    seat: &mut Seat<PortBook>,
    m: &Message,
) -> Result<u64, SendFault>
    requires of { seat.old.lock ≡ port.now }
    requires idle { seat.old.turn ≡ false }
    requires thread { seat.old.thread ≡ hands.old.clock.thread.0 }
    ensures seat { KeepsSeat seat.old seat.new }
    ensures clock { hands.new.clock.thread ≡ hands.old.clock.thread }
{
    post(alloc, hands, rt, port, seat, posting(m), m)
}

// Posts the message in a turn that is taken first, without waiting for room.
fn post_now<R: Wait>(
    rt: &R,
    alloc: Global,
    hands: &mut Hands,
    port: &Port,
    seat: &mut Seat<PortBook>,
    m: &Message,
) -> Result<u64, SendFault>
    requires of { seat.old.lock ≡ port.now }
    requires idle { seat.old.turn ≡ false }
    requires thread { seat.old.thread ≡ hands.old.clock.thread.0 }
    ensures seat { KeepsSeat seat.old seat.new }
    ensures clock { hands.new.clock.thread ≡ hands.old.clock.thread }
{
    let turn = port.lock(rt, seat);
    hands.clock.ready(rt);
    post_at_turn(alloc, &mut hands.clock, turn, seat, posting(m), m)
}

// Takes an item as the looper.
fn take_one<R: Wait>(
    rt: &R,
    alloc: Global,
    port: &Port,
    taker: &mut Seat<PortBook>,
) -> Result<Option<Item>, NoMemory>
    requires of { taker.old.lock ≡ port.now }
    requires idle { taker.old.turn ≡ false }
    requires thread { taker.old.thread ≡ looper_thread 0 }
    requires taking { CanTake LOOPER 1 taker.old }
{
    let mut out = VecDeque::with_capacity(alloc, 1)?;
    take(port, rt, taker, &mut clock_of(LOOPER), &mut out, 1);
    match out.pop_front() {
        Some(taken) => Ok(Some(taken.item)),
        None => Ok(None),
    }
}

/// What posts answer, what the item of the first tells, and how many entries there are then.
type Posts = ([Result<u64, SendFault>; 6], Told, u64);

// Posts to a port that has room, is full, is full for a message that is too long, has room again, has accepted all that it
// does, and is shut.
fn post_in_turn<R: Wait>(rt: &R, alloc: Global) -> Result<Posts, Fail> {
    let Scene {
        mut hands,
        port,
        mut seat,
        mut taker,
        ..
    } = make_scene(alloc, 2)?;
    let m = question(alloc)?;
    let first = post_one(rt, alloc, &mut hands, &port, &mut seat, &m);
    let full = post_now(rt, alloc, &mut hands, &port, &mut seat, &m);
    let long = post_now(rt, alloc, &mut hands, &port, &mut seat, &long(alloc)?);
    let item = take_one(rt, alloc, &port, &mut taker)?;
    let second = post_one(rt, alloc, &mut hands, &port, &mut seat, &m);
    let spent = post_one(rt, alloc, &mut hands, &port, &mut seat, &m);
    close(&port, rt, &mut seat, &mut hands.clock);
    let shut = post_now(rt, alloc, &mut hands, &port, &mut seat, &m);
    Ok((
        [first, full, long, second, spent, shut],
        told_by(&item.ok_or("an item")?),
        seat.seen(),
    ))
}

// What the posts have to answer.
const ANSWERS: Posts = (
    [
        Ok(0),
        Err(SendFault::WouldBlock),
        Err(SendFault::TooLong),
        Ok(1),
        Err(SendFault::Spent),
        Err(SendFault::BadPort),
    ],
    (
        Target::Token(3),
        7,
        true,
        1,
        Duty::Back(Address {
            looper: 2,
            target: Target::Preferred,
        }),
    ),
    // The making, four writes or refusals, the take, the closing, and a refusal.
    8,
);

// Asks, with all the specifiers of the message popped.
fn ask_one<R: Wait>(
    rt: &R,
    alloc: Global,
    hands: &mut Hands,
    port: &Port,
    seat: &mut Seat<PortBook>,
    m: &Message,
) -> Result<Reply, SendFault>
    requires of { seat.old.lock ≡ port.now }
    requires idle { seat.old.turn ≡ false }
    requires thread { seat.old.thread ≡ hands.old.clock.thread.0 }
    ensures seat { KeepsSeat seat.old seat.new }
    ensures clock { hands.new.clock.thread ≡ hands.old.clock.thread }
{
    ask(alloc, hands, rt, port, seat, envelope(m.specifiers()), m)
}

/// What refused asks answer, how many entries the book has then, and which slots its second and its fourth entry cancel.
type Asks = ([Option<SendFault>; 3], u64, [Option<u64>; 2]);

// The whole book.
fn whole<R: Wait>(rt: &R, hands: Hands) -> ReplyBook {
    let Hands {
        clock: _,
        book,
        mut book_seat,
    } = hands;
    book.lock(rt, &mut book_seat).keep()
}

// Which slot was cancelled by the entry at that place, if one was.
fn cancelled_at(book: &ReplyBook, place: u64) -> Result<Option<u64>, Fail> {
    let entry = book.entry(place)?.ok_or("an entry")?;
    match &entry.event {
        ReplyEvent::Cancelled(slot) => Ok(Some(*slot)),
        _ => Ok(None),
    }
}

// Asks by a message that is too long; at a port that has accepted all that it does; and at one that is shut.
fn ask_in_vain<R: Wait>(rt: &R, alloc: Global) -> Result<Asks, Fail> {
    let Scene {
        mut hands,
        port,
        mut seat,
        ..
    } = make_scene(alloc, 1)?;
    let m = question(alloc)?;
    post_one(rt, alloc, &mut hands, &port, &mut seat, &m)?;
    let long = ask_one(rt, alloc, &mut hands, &port, &mut seat, &long(alloc)?).err();
    let spent = ask_one(rt, alloc, &mut hands, &port, &mut seat, &m).err();
    close(&port, rt, &mut seat, &mut hands.clock);
    let shut = ask_one(rt, alloc, &mut hands, &port, &mut seat, &m).err();
    let book = whole(rt, hands);
    Ok((
        [long, spent, shut],
        book.len(),
        [cancelled_at(&book, 1)?, cancelled_at(&book, 3)?],
    ))
}

const IN_VAIN: Asks = (
    [
        Some(SendFault::TooLong),
        Some(SendFault::Spent),
        Some(SendFault::BadPort),
    ],
    4,
    [Some(0), Some(1)],
);

#[test]
fn posts_and_asks_answer_by_their_causes(rt: HostRuntime) -> Result<(), Fail> {
    let alloc = rt.alloc();
    same(
        &rt,
        "posts answer by their causes",
        post_in_turn(&rt, alloc)?,
        ANSWERS,
    );
    same(
        &rt,
        "asks in vain cancel their slots",
        ask_in_vain(&rt, alloc)?,
        IN_VAIN,
    );
    Ok(())
}

// Takes an item as the looper, and fills its slot with the text.
fn answer_one<R: Wait>(
    rt: &R,
    alloc: Global,
    port: &Port,
    mut taker: Seat<PortBook>,
    book: &TurnLock<ReplyBook>,
    mut filler: Seat<ReplyBook>,
    text: Bytes,
) -> Result<Option<Item>, NoMemory>
    requires of { taker.lock ≡ port.now }
    requires idle { taker.turn ≡ false }
    requires thread { taker.thread ≡ looper_thread 0 }
    requires taking { CanTake LOOPER 1 taker }
    requires filler_of { filler.lock ≡ book.now }
    requires filler_idle { filler.turn ≡ false }
    requires filler_thread { filler.thread ≡ looper_thread 0 }
    requires text { IsFlatText text }
{
    let Some(item) = take_one(rt, alloc, port, &mut taker)? else {
        return Ok(None);
    };
    if let Duty::Slot(n) = item.duty() {
        let _answer: FillAnswer = fill(book, rt, &mut filler, &mut clock_of(LOOPER), n, text);
    }
    Ok(Some(item))
}

// Asks once, and gives up the hands.
fn ask_alone<R: Wait>(
    rt: &R,
    alloc: Global,
    mut hands: Hands,
    port: &Port,
    mut seat: Seat<PortBook>,
    m: Message,
) -> Result<Reply, SendFault>
    requires of { seat.lock ≡ port.now }
    requires idle { seat.turn ≡ false }
    requires thread { seat.thread ≡ hands.clock.thread.0 }
{
    ask_one(rt, alloc, &mut hands, port, &mut seat, &m)
}

// Asks in one thread what another answers with the text: the reply, and the item.
fn ask_beside<R: Threads + Wait + Sync>(
    rt: &R,
    alloc: Global,
    text: Bytes,
) -> Result<(Reply, Option<Item>), Fail>
    requires { IsFlatText text }
{
    let Scene {
        hands,
        port,
        seat,
        taker,
        filler,
    } = make_scene(alloc, 1)?;
    let m = question(alloc)?;
    let shared = Arc::try_clone(&hands.book)?;
    let (port, book): (&Port, &TurnLock<ReplyBook>) = (&port, &shared);
    let (reply, item) = join(
        rt,
        || -> Result<Reply, SendFault>
            requires { (seat.lock ≡ port.now) × (seat.turn ≡ false) × (seat.thread ≡ hands.clock.thread.0) }
        { ask_alone(rt, alloc, hands, port, seat, m) },
        || -> Result<Option<Item>, NoMemory>
            requires { (taker.lock ≡ port.now) × (taker.turn ≡ false) × (taker.thread ≡ looper_thread 0) × CanTake LOOPER 1 taker × (filler.lock ≡ book.now) × (filler.turn ≡ false) × (filler.thread ≡ looper_thread 0) × IsFlatText text }
        { answer_one(rt, alloc, port, taker, book, filler, text) },
    );
    Ok((reply?, item?))
}

/// The reply of another thread: its slot, whether its text is the one that was given, and the code of its message; and
/// what the item tells.
type Replied = (u64, bool, Code, Told);

fn reply_of_another<R: Threads + Wait + Sync>(rt: &R, alloc: Global) -> Result<Replied, Fail> {
    let wanted = reply_text(alloc)?;
    let (reply, item) = ask_beside(rt, alloc, reply_text(alloc)?)?;
    Ok((
        reply.slot,
        reply.flat.as_slice() == wanted.as_slice(),
        reply.message.what(),
        told_by(&item.ok_or("an item")?),
    ))
}

const REPLIED: Replied = (
    0,
    true,
    Code::REPLY,
    (Target::Token(3), 7, true, 1, Duty::Slot(0)),
);

#[test]
fn an_ask_gets_the_reply_of_another_thread(rt: HostRuntime) -> Result<(), Fail> {
    same(&rt, "a reply", reply_of_another(&rt, rt.alloc())?, REPLIED);
    Ok(())
}
