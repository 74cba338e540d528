//! What the threads hold that are timed at a port and at a reply book.
ghost use Rattle.std.specs.Prelude.{◌≡◌, ◌≤◌, ◌+◌, ◌∷◌, [], false, Some, IfOk};
ghost use Rattle.std.specs.Arc.{arc_value};
ghost use Rattle.ak_base.specs.Limits.{capacity_limit};
ghost use Rattle.ak_port.specs.PortCalls.{CanTake};
ghost use Rattle.kit_bench.specs.Turns.{AreNamesBelow};

use crate::fault::BenchFault;
use crate::samples::{ASK, message_of};
use ak_base::ThreadId;
use ak_flatten::{Duty, Item};
use ak_message::Target;
use ak_port::{LIFE_LIMIT, Port, PortBook, ReplyBook, make};
use ak_turn::{Clock, Seat, TurnLock};
use std::alloc::Global;
use std::sync::Arc;

/// The thread that takes, and that answers where one asks.
const TAKER: ThreadId = ThreadId(0);

/// A small reply: an error number.
const REPLY: &[u8] = b"'RPLY' error=LONG:0";

/// What one thread holds: its clock, its seats at a port and at a reply book, and the item of which it sends copies.
#[derive(Drop)]
pub struct Hands {
    pub clock: Clock,
    pub port: Arc<Port>,
    pub at_port: Seat<PortBook>,
    pub book: Arc<TurnLock<ReplyBook>>,
    pub at_book: Seat<ReplyBook>,
    pub item: Item,
    ghost of_port: { at_port.lock ≡ arc_value port },
    ghost port_idle: { at_port.turn ≡ false },
    ghost port_thread: { at_port.thread ≡ clock.thread.0 },
    ghost of_book: { at_book.lock ≡ arc_value book },
    ghost book_idle: { at_book.turn ≡ false },
    ghost book_thread: { at_book.thread ≡ clock.thread.0 },
}

/// The item of the message that the text writes.
fn item_of(alloc: Global, text: &[u8]) -> Result<Item, BenchFault> {
    let message = message_of(alloc, text)?;
    Ok(Item::new(alloc, Target::Preferred, 0, false, Duty::None, &message)?)
}

/// The hands of the thread that takes from a new port, which holds so many items at a time, with a new reply book.
pub fn new_taker(alloc: Global, room: u32) -> Result<Hands, BenchFault>
    requires holds { 1 ≤ room }
    requires fits { room ≤ capacity_limit }
    ensures taking { IfOk result (λ taker. CanTake taker.clock.thread room taker.at_port) }
    ensures port_names { IfOk result (λ taker. taker.at_port.names ≡ Some (0 ∷ [])) }
    ensures book_names { IfOk result (λ taker. taker.at_book.names ≡ Some (0 ∷ [])) }
{
    let item = item_of(alloc, REPLY)?;
    let mut first = Clock {
        thread: TAKER,
        time: 0,
    };
    let (port, at_port) = make(alloc, room, LIFE_LIMIT, TAKER, &mut first)?;
    let (book, at_book) = TurnLock::new(alloc, ReplyBook::new(alloc)?, TAKER)?;
    Ok(Hands {
        clock: Clock {
            thread: TAKER,
            time: 0,
        },
        port,
        at_port,
        book,
        at_book,
        item,
    })
}

/// The hands of a new thread with that number, at the same port and book.
#[tactic(auto, using(crate::proofs::Naming::naming, ak_port::proofs::Surface::can_titled))]
fn split_off(alloc: Global, head: &mut Hands, room: u32, number: u32) -> Result<Hands, BenchFault>
    requires taking { CanTake head.old.clock.thread room head.old.at_port }
    requires port_names { AreNamesBelow number head.old.at_port.names }
    requires book_names { AreNamesBelow number head.old.at_book.names }
    ensures taking { CanTake head.new.clock.thread room head.new.at_port }
    ensures port_names { IfOk result (λ _. AreNamesBelow (number + 1) head.new.at_port.names) }
    ensures book_names { IfOk result (λ _. AreNamesBelow (number + 1) head.new.at_book.names) }
{
    let item = item_of(alloc, ASK)?;
    let port = Arc::try_clone(&head.port)?;
    let book = Arc::try_clone(&head.book)?;
    let thread = ThreadId(number);
    let at_port = port.split(&mut head.at_port, thread);
    let at_book = book.split(&mut head.at_book, thread);
    Ok(Hands {
        clock: Clock { thread, time: 0 },
        port,
        at_port,
        book,
        at_book,
        item,
    })
}

/// The hands of that many new threads. The taker stays at its port, and takes as many items at a time.
#[tactic(auto, using(crate::proofs::Naming::naming))]
pub fn split_all(
    alloc: Global,
    head: &mut Hands,
    room: u32,
    count: u32,
) -> Result<Vec<Hands>, BenchFault>
    requires few { count ≤ 9 }
    requires taking { CanTake head.old.clock.thread room head.old.at_port }
    requires port_names { head.old.at_port.names ≡ Some (0 ∷ []) }
    requires book_names { head.old.at_book.names ≡ Some (0 ∷ []) }
    ensures taking { CanTake head.new.clock.thread room head.new.at_port }
{
    let mut hands = Vec::new(alloc);
    for place in 0..count {
        hands.push(split_off(alloc, head, room, place + 1)?)?;
    }
    Ok(hands)
}
