//! What a looper's thread does with one message of its port.
ghost use Rattle.std.specs.Prelude.{◌≡◌, ◌-◌, ◌<◌, ◌^◌, ℕ, true, false, [], None, IfSome, IfNone, IfOk, OnOk, OnErr};
ghost use Rattle.std.specs.VecDeque.{deque_len, deque_capacity};
ghost use Rattle.ak_base.specs.Thread.{looper_thread};
ghost use Rattle.ak_flatten.specs.Item.{ItemData};
ghost use Rattle.ak_flatten.specs.Spelling.{spelling};
ghost use Rattle.ak_turn.specs.Entries.{made_by};
ghost use Rattle.ak_port.specs.PortCalls.{CanTake, IsAtPort};
ghost use Rattle.ak_port.specs.Reply.{IsFlatText};
ghost use Rattle.ak_turn.specs.Called.{KeepsSeat};
ghost use Rattle.ak_action.specs.declared.state.DeskState.{DeskState};
ghost use Rattle.ak_desk.specs.Answering.{AnswersWant};
ghost use Rattle.ak_desk.specs.Desk.{begun_with, stamp_in, DeskIsDone, DeskMayWant};
ghost use Rattle.ak_desk.specs.Machine.{dispatches};
ghost use Rattle.ak_desk.specs.Shared.{IsAtDesk, by_number};
ghost use Rattle.uses_asks.specs.Serving.{CanServe, Carries, DispatchesThere, EndsSo, HasServed, IsOfLooper, TakesNext};

use ak_action::{Answer, Want};
use ak_base::{Bytes, NoMemory};
use ak_desk::{Desk, Made, a_turn_dispatches, the_dispatches_are_its_own};
use ak_flatten::{Duty, FlattenFault, Item, Taken};
use ak_message::{Message, Target};
use ak_port::{FillAnswer, Port, PortBook, ReplyBook, TakeAnswer, fill, take};
use ak_turn::{Clock, Seat, TurnLock};
use std::alloc::Global;
use std::collections::VecDeque;
use std::sync::Wait;

/// What was served: the position of the message, the slot that it names, and the reply that was filled in.
#[derive(Drop)]
pub struct Served {
    pub position: u64,
    pub slot: u64,
    pub reply: Message,
}

// ---- the port
// Takes the oldest item into that room. None where the port was shut.
#[tactic(auto, using(crate::proofs::Taking::taking))]
fn take_next<R: Wait>(
    rt: &R,
    port: &Port,
    seat: &mut Seat<PortBook>,
    clock: &mut Clock,
    room: VecDeque<Taken>,
) -> Option<Taken>
    requires of { seat.old.lock ≡ port.now }
    requires idle { seat.old.turn ≡ false }
    requires thread { seat.old.thread ≡ clock.old.thread.0 }
    requires taking { CanTake clock.old.thread (deque_capacity room - deque_len room) seat.old }
    requires empty { room.items ≡ [] }
    ensures next { IfSome result (λ taken. TakesNext taken seat.old seat.new) }
    ensures taking { (most : ℕ) → CanTake clock.old.thread most seat.old → IfSome result (λ _. CanTake clock.old.thread most seat.new) }
    ensures port { IsAtPort seat.new }
    ensures seat { KeepsSeat seat.old seat.new }
    ensures clock { clock.new.thread ≡ clock.old.thread }
{
    let mut out = room;
    match take(port, rt, seat, clock, &mut out, 1) {
        TakeAnswer::Took(_) => out.pop_front(),
        TakeAnswer::Rest(_) => None,
    }
}

// ---- the desk
// Begins the message, where the looper's own thread has dispatched those before it.
fn begin(desk: &mut Desk, taken: &Taken) -> Result<(), NoMemory>
    requires rest { desk.old.begun ≡ None }
    requires position { taken.now.position ≡ dispatches (made_by by_number (looper_thread desk.old.opening.looper) desk.old.entries) }
    ensures begun { OnOk result (desk.new ≡ begun_with desk.old taken.now) }
    ensures goes_on { OnOk result (DeskMayWant desk.new) }
    ensures err { OnErr result (desk.new ≡ desk.old) }
{
    the_dispatches_are_its_own();
    // Reading the handlers shows that the list leads to them.
    let _state = desk.state();
    desk.begin(taken)
}

// The answer where no other looper is to be found; none where nothing is wanted.
fn refusal_of(want: &Want) -> Option<Answer>
    ensures some { IfSome result (λ answer. AnswersWant want.now answer) }
    ensures none { IfNone result (want.now ≡ Want.Done) }
{
    match want {
        Want::Find(_) => Some(Answer::NoTeam),
        Want::Post { .. } | Want::Ask { .. } | Want::Forward { .. } => Some(Answer::Closed),
        Want::Done => None,
    }
}

// Answers what is wanted. False where nothing is left to do.
fn goes_on(desk: &mut Desk) -> bool
    requires { DeskMayWant desk.old }
    ensures goes_on { result ≡ true → DeskMayWant desk.new }
    ensures done { result ≡ false → DeskIsDone desk.new }
    ensures carries { (position : ℕ) (item : ItemData) (before : DeskState) → Carries position item before desk.old → Carries position item before desk.new }
    ensures opening { desk.new.opening ≡ desk.old.opening }
    ensures entries { desk.new.entries ≡ desk.old.entries }
{
    let Ok(want) = desk.want() else {
        return false;
    };
    let Some(answer) = refusal_of(&want) else {
        return false;
    };
    desk.give(answer);
    true
}

// Carries out what is begun, to its end.
fn carry_out<R: Wait>(rt: &R, desk: &mut Desk)
    requires { DeskMayWant desk.old }
    ensures done { DeskIsDone desk.new }
    ensures carries { (position : ℕ) (item : ItemData) (before : DeskState) → Carries position item before desk.old → Carries position item before desk.new }
    ensures opening { desk.new.opening ≡ desk.old.opening }
    ensures entries { desk.new.entries ≡ desk.old.entries }
{
    for _ in rt.forever() {
        if !goes_on(desk) {
            return;
        }
    }
    unreachable!()
}

// Begins the message, carries it out and ends it. Where there is no memory to begin, nothing is done.
fn carried<R: Wait>(
    rt: &R,
    desk: &mut Desk,
    clock: &mut Clock,
    taken: &Taken,
) -> Result<Made, NoMemory>
    requires rest { desk.old.begun ≡ None }
    requires position { taken.now.position ≡ dispatches (made_by by_number (looper_thread desk.old.opening.looper) desk.old.entries) }
    requires looper { clock.old.thread.0 ≡ looper_thread desk.old.opening.looper }
    requires time { clock.old.time < 2 ^ 63 }
    requires last { stamp_in desk.old.entries < 2 ^ 63 }
    ensures ended { IfOk result (λ made. EndsSo clock.old clock.new taken.now made desk.old desk.new) }
    ensures err { OnErr result (desk.new ≡ desk.old) }
    ensures rest { desk.new.begun ≡ None }
    ensures opening { desk.new.opening ≡ desk.old.opening }
    ensures clock { clock.new.thread ≡ clock.old.thread }
{
    let Ok(()) = begin(desk, taken) else {
        return Err(NoMemory);
    };
    carry_out(rt, desk);
    Ok(desk.end(clock))
}

// Dispatches the message in one turn at the desk.
fn dispatch<R: Wait>(
    rt: &R,
    desk: &TurnLock<Desk>,
    seat: &mut Seat<Desk>,
    clock: &mut Clock,
    taken: &Taken,
) -> Result<Made, NoMemory>
    requires of { seat.old.lock ≡ desk.now }
    requires idle { seat.old.turn ≡ false }
    requires thread { seat.old.thread ≡ clock.old.thread.0 }
    requires looper { IsOfLooper clock.old.thread seat.old }
    requires position { taken.now.position ≡ dispatches (made_by by_number seat.old.thread seat.old.front) }
    ensures dispatched { IfOk result (λ made. DispatchesThere taken.now made seat.old seat.new) }
    ensures desk { OnOk result (IsAtDesk seat.new) }
    ensures clock { clock.new.thread ≡ clock.old.thread }
{
    a_turn_dispatches();
    let mut turn = desk.lock(rt, seat);
    clock.ready(rt);
    let made = carried(rt, turn.book(), clock, taken);
    turn.finish(seat);
    made
}

fn reply_of(made: Made) -> Option<Message>
    ensures { result ≡ made.reply }
{
    made.reply
}

// ---- the book
// The flat text of a reply.
fn flat_of(alloc: Global, reply: &Message) -> Result<Bytes, FlattenFault>
    ensures text { IfOk result (λ flat. flat ≡ spelling reply.now) }
    ensures flat { IfOk result IsFlatText }
{
    let item = Item::new(alloc, Target::Preferred, 0, false, Duty::None, reply)?;
    let text = item.flat();
    let mut flat = Bytes::with_capacity(alloc, text.len())?;
    flat.extend(text)?;
    Ok(flat)
}

/// Takes the oldest item of the port, dispatches it in one turn at the desk, and fills the slot that it names with
/// the reply. Nothing is answered where the port was shut, where the item names no slot, or where its slot was filled
/// before. The looper's thread has dispatched just as many messages as it took, and so it has again where it served one.
/// Other loopers are not to be found.
pub fn serve_one<R: Wait>(
    rt: &R,
    alloc: Global,
    port: &Port,
    taker: &mut Seat<PortBook>,
    desk: &TurnLock<Desk>,
    seat: &mut Seat<Desk>,
    book: &TurnLock<ReplyBook>,
    filler: &mut Seat<ReplyBook>,
    clock: &mut Clock,
) -> Result<Option<Served>, FlattenFault>
    requires { CanServe port.now desk.now book.now clock.old.thread taker.old seat.old filler.old }
    ensures served { IfOk result (λ told. IfSome told (λ s. HasServed s.position s.slot s.reply taker.new seat.old seat.new filler.new)) }
    ensures taker { KeepsSeat taker.old taker.new }
    ensures filler { KeepsSeat filler.old filler.new }
    ensures again { IfOk result (λ told. IfSome told (λ _. CanServe port.now desk.now book.now clock.old.thread taker.new seat.new filler.new)) }
    ensures clock { clock.new.thread ≡ clock.old.thread }
{
    let Ok(room) = VecDeque::with_capacity(alloc, 1) else {
        return Err(FlattenFault::NoMemory);
    };
    let Some(taken) = take_next(rt, port, taker, clock, room) else {
        return Ok(None);
    };
    let made = dispatch(rt, desk, seat, clock, &taken)?;
    let Some(reply) = reply_of(made) else {
        return Ok(None);
    };
    let Duty::Slot(slot) = taken.item.duty() else {
        return Ok(None);
    };
    let flat = flat_of(alloc, &reply)?;
    match fill(book, rt, filler, clock, slot, flat) {
        FillAnswer::Filled => Ok(Some(Served {
            position: taken.position,
            slot,
            reply,
        })),
        FillAnswer::Duplicate => Ok(None),
    }
}
