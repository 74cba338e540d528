//! Two threads: one asks, and the looper's serves what it asks.
ghost use Rattle.std.specs.Prelude.{◌≡◌, ◌≤◌, false, None, Some, IfOk, IfSome};
ghost use Rattle.std.specs.Arc.{arc_value};
ghost use Rattle.ak_flatten.specs.Item.{ItemData};
ghost use Rattle.ak_message.specs.Fields.{specifier_count};
ghost use Rattle.ak_turn.specs.Entries.{StartsWith};
ghost use Rattle.ak_port.specs.PortMachine.{IsPort};
ghost use Rattle.ak_port.specs.Reply.{IsLegal};
ghost use Rattle.ak_messenger.specs.Sends.{item_in};
ghost use Rattle.uses_asks.specs.Laws.{AcceptsOne, EndsInOneReply, HasAskedOf};
ghost use Rattle.uses_asks.specs.Serving.{CanServe, HasServedThere};

use crate::laws::{an_ask_has_one_reply, one_item_is_alone};
use crate::scene::{Asker, LOOPER, Scene, Server, make_scene};
use crate::serving::{Served, serve_one};
use ak_base::Code;
use ak_desk::Desk;
use ak_flatten::{Duty, FlattenFault};
use ak_message::{Message, Target};
use ak_messenger::{Envelope, Hands, Reply, SendFault, ask};
use ak_port::{FillAnswer, Port, PortBook, ReplyBook, fill_none};
use ak_turn::{Clock, Seat, TurnLock};
use std::alloc::Global;
use std::sync::{Arc, Wait};
use std::test::Fail;
use std::thread::{Threads, join};

/// What the asking thread gives back: the reply, and with what it asked.
#[derive(Drop)]
pub struct Asked {
    reply: Reply,
    asker: Asker,
}

/// What the looper's thread gives back: what it served, and its seats.
#[derive(Drop)]
pub struct Answered {
    served: Served,
    server: Server,
}

// Asks at the port, which accepts one item.
fn ask_there<R: Wait>(
    rt: &R,
    alloc: Global,
    port: &Port,
    asker: Asker,
    e: Envelope,
    m: Message,
) -> Result<Asked, SendFault>
    requires of { asker.seat.lock ≡ port.now }
    requires one { AcceptsOne asker.seat.front }
    requires popped { e.popped ≤ specifier_count m.fields }
    requires back { e.back ≡ None }
    ensures asked { IfOk result (λ a. HasAskedOf (item_in e Duty.None m) a.reply a.asker.seat a.asker.hands.book_seat) }
    ensures of { IfOk result (λ a. a.asker.seat.lock ≡ port.now) }
    ensures book { IfOk result (λ a. a.asker.hands.book ≡ asker.hands.book) }
{
    let Asker {
        mut hands,
        mut seat,
    } = asker;
    let reply = ask(alloc, &mut hands, rt, port, &mut seat, e, &m)?;
    Ok(Asked {
        reply,
        asker: Asker { hands, seat },
    })
}

// Serves one message as the looper. None where there was none to be served.
fn serve_there<R: Wait>(
    rt: &R,
    alloc: Global,
    port: &Port,
    desk: &TurnLock<Desk>,
    book: &TurnLock<ReplyBook>,
    server: Server,
) -> Result<Option<Answered>, FlattenFault>
    requires { CanServe port.now desk.now book.now LOOPER server.taker server.seat server.filler }
    ensures { IfOk result (λ told. IfSome told (λ a. HasServedThere port.now desk.now book.now LOOPER a.served.position a.served.slot a.served.reply a.server.taker a.server.seat a.server.filler)) }
{
    let Server {
        mut taker,
        mut seat,
        mut filler,
    } = server;
    let mut clock = Clock {
        thread: LOOPER,
        time: 0,
    };
    let told = serve_one(
        rt,
        alloc,
        port,
        &mut taker,
        desk,
        &mut seat,
        book,
        &mut filler,
        &mut clock,
    )?;
    let Some(served) = told else {
        return Ok(None);
    };
    Ok(Some(Answered {
        served,
        server: Server {
            taker,
            seat,
            filler,
        },
    }))
}

// Asks in one thread what the looper's serves in another.
fn ask_beside<R: Threads + Wait + Sync>(
    rt: &R,
    alloc: Global,
    port: &Port,
    desk: &TurnLock<Desk>,
    book: &TurnLock<ReplyBook>,
    asker: Asker,
    server: Server,
    e: Envelope,
    m: Message,
) -> Result<(Asked, Option<Answered>), Fail>
    requires of { asker.seat.lock ≡ port.now }
    requires one { AcceptsOne asker.seat.front }
    requires serves { CanServe port.now desk.now book.now LOOPER server.taker server.seat server.filler }
    requires popped { e.popped ≤ specifier_count m.fields }
    requires back { e.back ≡ None }
    ensures asked { IfOk result (λ t. HasAskedOf (item_in e Duty.None m) t.0.reply t.0.asker.seat t.0.asker.hands.book_seat) }
    ensures of { IfOk result (λ t. t.0.asker.seat.lock ≡ port.now) }
    ensures book { IfOk result (λ t. t.0.asker.hands.book ≡ asker.hands.book) }
    ensures served { IfOk result (λ t. IfSome t.1 (λ a. HasServedThere port.now desk.now book.now LOOPER a.served.position a.served.slot a.served.reply a.server.taker a.server.seat a.server.filler)) }
{
    let (asked, answered) = join(
        rt,
        || -> Result<Asked, SendFault>
            requires { (asker.seat.lock ≡ port.now) × AcceptsOne asker.seat.front × (e.popped ≤ specifier_count m.fields) × (e.back ≡ None) }
            ensures { IfOk result (λ a. HasAskedOf (item_in e Duty.None m) a.reply a.asker.seat a.asker.hands.book_seat × (a.asker.seat.lock ≡ port.entry.now) × (a.asker.hands.book ≡ asker.hands.book)) }
        { ask_there(rt, alloc, port, asker, e, m) },
        || -> Result<Option<Answered>, FlattenFault>
            requires { CanServe port.now desk.now book.now LOOPER server.taker server.seat server.filler }
            ensures { IfOk result (λ told. IfSome told (λ a. HasServedThere port.entry.now desk.entry.now book.entry.now LOOPER a.served.position a.served.slot a.served.reply a.server.taker a.server.seat a.server.filler)) }
        { serve_there(rt, alloc, port, desk, book, server) },
    );
    Ok((asked?, answered?))
}

// The whole list of the port, which goes on from what both seats have seen.
fn whole_port<R: Wait>(
    rt: &R,
    port: &Port,
    mut seat: Seat<PortBook>,
    other: Seat<PortBook>,
) -> PortBook
    requires of { (seat.lock ≡ port.now) × (other.lock ≡ port.now) }
    requires idle { (seat.turn ≡ false) × (other.turn ≡ false) }
    ensures port { IsPort result.taker.0 result.entries }
    ensures own { StartsWith result.entries seat.front }
    ensures others { StartsWith result.entries other.front }
{
    port.join(&mut seat, other);
    let book = port.lock(rt, &mut seat).keep();
    // Reading the taker shows that the list is a port's.
    let _taker = book.taker();
    book
}

// A seat that knows what both have seen of the book, and has found that the slot is settled. None where it was not. A
// call finds that the list is a book's; a book that is kept does not tell it.
fn settled_book<R: Wait>(
    rt: &R,
    book: &TurnLock<ReplyBook>,
    hands: Hands,
    other: Seat<ReplyBook>,
    slot: u64,
) -> Option<Seat<ReplyBook>>
    requires same { arc_value hands.book ≡ book.now }
    requires of { other.lock ≡ book.now }
    requires idle { other.turn ≡ false }
    ensures legal { IfSome result (λ s. IsLegal s.front) }
    ensures own { IfSome result (λ s. StartsWith s.front hands.book_seat.front) }
    ensures others { IfSome result (λ s. StartsWith s.front other.front) }
{
    let Hands {
        mut clock,
        mut book_seat,
        ..
    } = hands;
    book.join(&mut book_seat, other);
    match fill_none(book, rt, &mut book_seat, &mut clock, slot) {
        FillAnswer::Duplicate => Some(book_seat),
        FillAnswer::Filled => None,
    }
}

// The whole desk, whose list goes on from what the seat has seen.
fn whole_desk<R: Wait>(rt: &R, desk: &TurnLock<Desk>, mut seat: Seat<Desk>) -> Desk
    requires of { seat.lock ≡ desk.now }
    requires idle { seat.turn ≡ false }
    ensures entries { StartsWith result.entries seat.front }
    ensures opening { seat.opening ≡ Some result.opening }
{
    desk.lock(rt, &mut seat).keep()
}

/// What is left once both have ended: the reply, what was served, and the lists.
#[derive(Drop)]
pub struct Talk {
    pub reply: Reply,
    pub served: Served,
    pub port: PortBook,
    pub book: Seat<ReplyBook>,
    pub desk: Desk,
}

// The lists, by what both threads gave back. The ask has one reply in them.
fn gather<R: Wait>(
    rt: &R,
    port: &Port,
    desk: &TurnLock<Desk>,
    book: &TurnLock<ReplyBook>,
    asked: Asked,
    answered: Answered,
) -> Result<Talk, Fail>
    requires of { asked.asker.seat.lock ≡ port.now }
    requires book { arc_value asked.asker.hands.book ≡ book.now }
    requires served { HasServedThere port.now desk.now book.now LOOPER answered.served.position answered.served.slot answered.served.reply answered.server.taker answered.server.seat answered.server.filler }
    ensures { IfOk result (λ t. (item : ItemData) → HasAskedOf item asked.reply asked.asker.seat asked.asker.hands.book_seat → EndsInOneReply t.port.entries t.book.front t.desk item t.reply t.served.position t.served.reply) }
{
    an_ask_has_one_reply();
    one_item_is_alone();
    let Asked { reply, asker } = asked;
    let Answered { served, server } = answered;
    if served.slot != reply.slot {
        return Err(Fail::new("another slot was served"));
    }
    let Asker { hands, seat: guest } = asker;
    let Server {
        taker,
        seat,
        filler,
    } = server;
    let items = whole_port(rt, port, guest, taker);
    let Some(slots) = settled_book(rt, book, hands, filler, reply.slot) else {
        return Err(Fail::new("the slot was not settled"));
    };
    let handlers = whole_desk(rt, desk, seat);
    Ok(Talk {
        reply,
        served,
        port: items,
        book: slots,
        desk: handlers,
    })
}

/// One thread asks, and the looper's takes the item, dispatches it and fills its slot. The ask has one reply, by the
/// lists of the port, of the book and of the desk: that of the desk's dispatch of the ask's own item.
pub fn ask_and_serve<R: Threads + Wait + Sync>(
    rt: &R,
    alloc: Global,
    port: &Port,
    desk: &TurnLock<Desk>,
    book: &TurnLock<ReplyBook>,
    asker: Asker,
    server: Server,
    e: Envelope,
    m: Message,
) -> Result<Talk, Fail>
    requires of { asker.seat.lock ≡ port.now }
    requires one { AcceptsOne asker.seat.front }
    requires same { arc_value asker.hands.book ≡ book.now }
    requires serves { CanServe port.now desk.now book.now LOOPER server.taker server.seat server.filler }
    requires popped { e.popped ≤ specifier_count m.fields }
    requires back { e.back ≡ None }
    ensures { IfOk result (λ t. EndsInOneReply t.port.entries t.book.front t.desk (item_in e Duty.None m) t.reply t.served.position t.served.reply) }
{
    let (asked, told) = ask_beside(rt, alloc, port, desk, book, asker, server, e, m)?;
    let Some(answered) = told else {
        return Err(Fail::new("nothing was served"));
    };
    let talk = gather(rt, port, desk, book, asked, answered)?;
    Ok(talk)
}

fn envelope() -> Envelope
    ensures popped { result.popped ≡ 0 }
    ensures back { result.back ≡ None }
{
    Envelope {
        target: Target::Preferred,
        team: 7,
        dropped: false,
        popped: 0,
        back: None,
    }
}

fn talk_of_two<R: Threads + Wait + Sync>(rt: &R, alloc: Global) -> Result<Talk, Fail> {
    let Scene {
        port,
        desk,
        asker,
        server,
    } = make_scene(alloc)?;
    let book = Arc::try_clone(&asker.hands.book)?;
    let message = Message::new(alloc, Code(1));
    ask_and_serve(
        rt,
        alloc,
        &port,
        &desk,
        &book,
        asker,
        server,
        envelope(),
        message,
    )
}

/// The slot of the reply and its code, and the position of what was served and the code of what was replied.
type Told = ((u64, Code), (u64, Code));

fn told_of_two<R: Threads + Wait + Sync>(rt: &R, alloc: Global) -> Result<Told, Fail> {
    let talk = talk_of_two(rt, alloc)?;
    let reply = (talk.reply.slot, talk.reply.message.what());
    Ok((reply, (talk.served.position, talk.served.reply.what())))
}

// The looper knows no such message.
#[test]
fn an_ask_has_the_reply_of_the_desk(rt: HostRuntime) -> Result<(), Fail> {
    let none = Code::NOT_UNDERSTOOD;
    assert_eq!(rt; told_of_two(&rt, rt.alloc())?, ((0, none), (0, none)));
    Ok(())
}
