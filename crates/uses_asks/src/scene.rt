//! What two threads hold before one asks the other.
ghost use Rattle.std.specs.Prelude.{◌≡◌, [], false, IfOk};
ghost use Rattle.std.specs.Arc.{arc_value};
ghost use Rattle.ak_port.specs.PortCalls.{CanTake};
ghost use Rattle.ak_port.specs.PortMachine.{state_of};
ghost use Rattle.ak_desk.specs.Desk.{opened};
ghost use Rattle.uses_asks.specs.Laws.{AcceptsOne};
ghost use Rattle.uses_asks.specs.Serving.{CanServe, IsOfLooper};

use ak_action::{DeskRow, LooperPlan, PlanParts, PlanRow};
use ak_base::{Items, NoMemory, Text, ThreadId};
use ak_desk::Desk;
use ak_filter::FilterList;
use ak_messenger::Hands;
use ak_port::{Port, PortBook, ReplyBook, make, new_seats_can_take};
use ak_turn::{Clock, Seat, TurnLock};
use std::alloc::Global;
use std::sync::Arc;
use std::test::Fail;

const MAIN: ThreadId = ThreadId::MAIN;

pub const LOOPER: ThreadId = ThreadId::FIRST_LOOPER;

/// Who asks: main's hands, and its seat at the port.
#[derive(Drop)]
pub struct Asker {
    pub hands: Hands,
    pub seat: Seat<PortBook>,
    ghost idle: { seat.turn ≡ false },
    ghost thread: { seat.thread ≡ hands.clock.thread.0 },
}

/// Who serves: the seats of the looper's thread at its port, at its desk and at the book.
#[derive(Drop)]
pub struct Server {
    pub taker: Seat<PortBook>,
    pub seat: Seat<Desk>,
    pub filler: Seat<ReplyBook>,
}

/// The port of looper 0 and its desk, and who asks and serves there.
#[derive(Drop)]
pub struct Scene {
    pub port: Arc<Port>,
    pub desk: Arc<TurnLock<Desk>>,
    pub asker: Asker,
    pub server: Server,
}

fn clock_of(thread: ThreadId) -> Clock
    ensures { result ≡ record { thread = thread; time = 0 } }
{
    Clock { thread, time: 0 }
}

// The looper's port, main's seat there and the looper's. It holds one item, and accepts one.
fn make_port(alloc: Global) -> Result<(Arc<Port>, Seat<PortBook>, Seat<PortBook>), NoMemory>
    ensures guest { IfOk result (λ p. (p.1.lock ≡ arc_value p.0) × (p.1.turn ≡ false) × (p.1.thread ≡ 0)) }
    ensures one { IfOk result (λ p. AcceptsOne p.1.front) }
    ensures taker { IfOk result (λ p. (p.2.lock ≡ arc_value p.0) × (p.2.turn ≡ false) × (p.2.thread ≡ LOOPER.0)) }
    ensures taking { IfOk result (λ p. CanTake LOOPER 1 p.2) }
    ensures nothing { IfOk result (λ p. (state_of p.2.front).taken ≡ 0) }
{
    new_seats_can_take();
    let mut clock = clock_of(LOOPER);
    let (port, mut taker) = make(alloc, 1, 1, LOOPER, &mut clock)?;
    let seat = port.split(&mut taker, MAIN);
    Ok((port, seat, taker))
}

// A looper that knows nothing of its own.
fn plan_of_one(alloc: Global) -> Result<LooperPlan, Fail> {
    let DeskRow {
        suites,
        table,
        elements,
        filters,
        reactions,
    } = DeskRow::empty(alloc);
    let row = PlanRow {
        name: Text::from_bytes(alloc, b"demo")?,
        next: None,
        suites,
        table,
        elements,
        filters,
        reactions,
    };
    let mut rows = Vec::with_capacity(alloc, 1)?;
    rows.push(row)?;
    let parts = PlanParts {
        name: Text::from_bytes(alloc, b"demo")?,
        capacity: 1,
        quit_refused: false,
        preferred: None,
        common: FilterList::new(alloc),
        rows: Items::from_vec(rows),
    };
    Ok(LooperPlan::new(alloc, parts)?)
}

// The desk of that looper, which is looper 0.
fn unused(alloc: Global) -> Result<Desk, Fail>
    ensures opened { IfOk result (λ d. d ≡ opened d.opening) }
    ensures looper { IfOk result (λ d. d.opening.looper ≡ 0) }
{
    let plan = plan_of_one(alloc)?;
    let mut names = Vec::with_capacity(alloc, 1)?;
    names.push(plan.parts().name.try_clone()?)?;
    if !plan.knows_loopers(&names) {
        return Err(Fail::new("a looper is missing"));
    }
    Ok(Desk::from_plan(alloc, plan, 0, 1, 0, Items::from_vec(names))?)
}

// That desk behind its lock, and the looper's seat there.
fn make_desk(alloc: Global) -> Result<(Arc<TurnLock<Desk>>, Seat<Desk>), Fail>
    ensures seat { IfOk result (λ d. (d.1.lock ≡ arc_value d.0) × (d.1.turn ≡ false) × (d.1.thread ≡ LOOPER.0)) }
    ensures looper { IfOk result (λ d. IsOfLooper LOOPER d.1) }
    ensures nothing { IfOk result (λ d. d.1.front ≡ []) }
{
    let desk = unused(alloc)?;
    let (lock, seat) = TurnLock::new(alloc, desk, LOOPER)?;
    Ok((lock, seat))
}

// Main's hands, and the looper's seat at their book.
fn make_hands(alloc: Global) -> Result<(Hands, Seat<ReplyBook>), NoMemory>
    ensures main { IfOk result (λ h. h.0.clock.thread.0 ≡ 0) }
    ensures filler { IfOk result (λ h. (h.1.lock ≡ arc_value h.0.book) × (h.1.turn ≡ false) × (h.1.thread ≡ LOOPER.0)) }
{
    let (book, mut book_seat) = TurnLock::new(alloc, ReplyBook::new(alloc)?, MAIN)?;
    let filler = book.split(&mut book_seat, LOOPER);
    let hands = Hands {
        clock: clock_of(MAIN),
        book,
        book_seat,
    };
    Ok((hands, filler))
}

/// Main may ask at the port, and the looper's thread may serve. Nothing was written, taken or dispatched yet.
pub fn make_scene(alloc: Global) -> Result<Scene, Fail>
    ensures asks { IfOk result (λ s. s.asker.seat.lock ≡ arc_value s.port) }
    ensures one { IfOk result (λ s. AcceptsOne s.asker.seat.front) }
    ensures serves { IfOk result (λ s. CanServe (arc_value s.port) (arc_value s.desk) (arc_value s.asker.hands.book) LOOPER s.server.taker s.server.seat s.server.filler) }
{
    let (port, guest, taker) = make_port(alloc)?;
    let (desk, seat) = make_desk(alloc)?;
    let (hands, filler) = make_hands(alloc)?;
    Ok(Scene {
        port,
        desk,
        asker: Asker { hands, seat: guest },
        server: Server {
            taker,
            seat,
            filler,
        },
    })
}
