//! What a looper's thread does at one port, and at the reply book for it, by its hands and its seat there.
ghost use Rattle.std.specs.Prelude.{◌≡◌, ℕ, false, true};
ghost use Rattle.ak_base.specs.declared.thread.ThreadId.{ThreadId};
ghost use Rattle.ak_flatten.specs.declared.item.Duty.TheVariants as duty;
ghost use Rattle.ak_turn.specs.Called.{KeepsSeat};
ghost use Rattle.ak_port.specs.PortCalls.{CanTake};
ghost use Rattle.ak_action.specs.declared.answer.Answer.{Answer};
ghost use Rattle.ak_desk.specs.Answering.{AnswersAsk, AnswersForward, AnswersPost};
ghost use Rattle.ak_diary.specs.Wants.{AsksSo, ForwardsSo, PostsSo, owed_to, sent_item};
ghost use Rattle.ak_diary.specs.Turns.{Shuts};
ghost use Rattle.ak_looper.specs.Heard.{heard_ask, heard_post, heard_write, is_posted, RepliedSo};
ghost use Rattle.ak_port.specs.PortMachine.{state_of};
ghost use Rattle.ak_looper.specs.Side.{side, SideDoes};

use ak_action::Answer;
use ak_flatten::Item;
use ak_message::{Address, Message};
use ak_messenger::{Envelope, Hands, Reply, SendFault, ask, post_at_turn};
use ak_port::{Port, PortBook, WriteAnswer, close, write, write_at_turn};
use ak_turn::{Clock, Seat};
use std::alloc::Global;
use std::sync::Wait;

// What a sent message has on it: it is from that team, and nothing of it is popped.
fn envelope(team: u32, to: Address, back: Option<Address>) -> Envelope
    ensures { result ≡ record { target = to.target; team = team; dropped = false; popped = 0; back = back } }
{
    Envelope {
        target: to.target,
        team,
        dropped: false,
        popped: 0,
        back,
    }
}

// What a post came to, as the message hears it.
fn heard_of_post(sent: Result<u64, SendFault>) -> Answer
    ensures { result ≡ heard_post sent }
{
    match sent {
        Ok(position) => Answer::Written(position),
        Err(SendFault::TooLong) => Answer::TooLong,
        Err(SendFault::NoMemory) => Answer::NoMemory,
        Err(SendFault::BadPort) => Answer::Closed,
        Err(SendFault::Spent) => Answer::Spent,
        Err(SendFault::WouldBlock) => Answer::Full,
    }
}

// What an ask came to. It waits for room, so no full port is answered.
fn heard_of_ask(sent: Result<Reply, SendFault>) -> Answer
    ensures { result ≡ heard_ask sent }
{
    match sent {
        Ok(Reply { flat, message, .. }) => Answer::Reply { flat, message },
        Err(SendFault::TooLong) => Answer::TooLong,
        Err(SendFault::BadPort) => Answer::Closed,
        Err(SendFault::Spent) => Answer::Spent,
        Err(SendFault::NoMemory | SendFault::WouldBlock) => Answer::NoMemory,
    }
}

// What a write came to. It waits for room, so no full port is answered.
fn heard_of_write(written: WriteAnswer) -> Answer
    ensures { result ≡ heard_write written }
{
    match written {
        WriteAnswer::Wrote(position) => Answer::Written(position),
        WriteAnswer::Closed(_) => Answer::Closed,
        WriteAnswer::Spent(_) => Answer::Spent,
        WriteAnswer::Full(_) | WriteAnswer::NoMemory(_) => Answer::NoMemory,
    }
}

// Whether the port answered a write. False where memory was wanting.
fn was_posted(written: WriteAnswer) -> bool
    ensures { result ≡ is_posted written }
{
    match written {
        WriteAnswer::Wrote(_)
        | WriteAnswer::Closed(_)
        | WriteAnswer::Spent(_)
        | WriteAnswer::Full(_) => true,
        WriteAnswer::NoMemory(_) => false,
    }
}

// Posts the message without waiting for room.
pub(crate) fn post_there<R: Wait>(
    alloc: Global,
    rt: &R,
    hands: &mut Hands,
    port: &Port,
    seat: &mut Seat<PortBook>,
    team: u32,
    to: Address,
    back: Option<Address>,
    message: &Message,
) -> Answer
    requires of { seat.old.lock ≡ port.now }
    requires idle { seat.old.turn ≡ false }
    requires thread { seat.old.thread ≡ hands.old.clock.thread.0 }
    ensures does { SideDoes to.looper (PostsSo to message.now (sent_item team to (owed_to back) message.now) result) (side hands.old.clock hands.old.book_seat seat.old) (side hands.new.clock hands.new.book_seat seat.new) }
    ensures answer { AnswersPost result }
    ensures seat { KeepsSeat seat.old seat.new }
    ensures book { hands.new.book ≡ hands.old.book }
    ensures book_seat { KeepsSeat hands.old.book_seat hands.new.book_seat }
    ensures clock { hands.new.clock.thread ≡ hands.old.clock.thread }
    ensures taking { (thread : ThreadId) (room : ℕ) → CanTake thread room seat.old → CanTake thread room seat.new }
{
    let turn = port.lock(rt, seat);
    hands.clock.ready(rt);
    let sent = post_at_turn(
        alloc,
        &mut hands.clock,
        turn,
        seat,
        envelope(team, to, back),
        message,
    );
    heard_of_post(sent)
}

// Asks, and waits for room and for the reply.
pub(crate) fn ask_there<R: Wait>(
    alloc: Global,
    rt: &R,
    hands: &mut Hands,
    port: &Port,
    seat: &mut Seat<PortBook>,
    team: u32,
    to: Address,
    message: &Message,
) -> Answer
    requires of { seat.old.lock ≡ port.now }
    requires idle { seat.old.turn ≡ false }
    requires thread { seat.old.thread ≡ hands.old.clock.thread.0 }
    ensures does { SideDoes to.looper (AsksSo to message.now (sent_item team to duty.None message.now) result) (side hands.old.clock hands.old.book_seat seat.old) (side hands.new.clock hands.new.book_seat seat.new) }
    ensures answer { AnswersAsk result }
    ensures seat { KeepsSeat seat.old seat.new }
    ensures book { hands.new.book ≡ hands.old.book }
    ensures book_seat { KeepsSeat hands.old.book_seat hands.new.book_seat }
    ensures clock { hands.new.clock.thread ≡ hands.old.clock.thread }
    ensures taking { (thread : ThreadId) (room : ℕ) → CanTake thread room seat.old → CanTake thread room seat.new }
{
    let sent = ask(
        alloc,
        hands,
        rt,
        port,
        seat,
        envelope(team, to, None),
        message,
    );
    heard_of_ask(sent)
}

// Writes an item that is sent on, and waits for room.
pub(crate) fn forward_there<R: Wait>(
    rt: &R,
    hands: &mut Hands,
    port: &Port,
    seat: &mut Seat<PortBook>,
    item: Item,
) -> Answer
    requires of { seat.old.lock ≡ port.now }
    requires idle { seat.old.turn ≡ false }
    requires thread { seat.old.thread ≡ hands.old.clock.thread.0 }
    ensures does { (looper : ℕ) → SideDoes looper (ForwardsSo looper item result) (side hands.old.clock hands.old.book_seat seat.old) (side hands.new.clock hands.new.book_seat seat.new) }
    ensures answer { AnswersForward result }
    ensures seat { KeepsSeat seat.old seat.new }
    ensures book { hands.new.book ≡ hands.old.book }
    ensures book_seat { KeepsSeat hands.old.book_seat hands.new.book_seat }
    ensures clock { hands.new.clock.thread ≡ hands.old.clock.thread }
    ensures taking { (thread : ThreadId) (room : ℕ) → CanTake thread room seat.old → CanTake thread room seat.new }
{
    heard_of_write(write(port, rt, seat, &mut hands.clock, item))
}

// Writes an item with a reply without waiting for room, whatever comes of it. False where it found no memory.
pub(crate) fn reply_there<R: Wait>(
    rt: &R,
    hands: &mut Hands,
    port: &Port,
    seat: &mut Seat<PortBook>,
    item: Item,
) -> bool
    requires of { seat.old.lock ≡ port.now }
    requires idle { seat.old.turn ≡ false }
    requires thread { seat.old.thread ≡ hands.old.clock.thread.0 }
    ensures does { (looper : ℕ) → SideDoes looper (RepliedSo looper item result) (side hands.old.clock hands.old.book_seat seat.old) (side hands.new.clock hands.new.book_seat seat.new) }
    ensures seat { KeepsSeat seat.old seat.new }
    ensures book { hands.new.book ≡ hands.old.book }
    ensures book_seat { KeepsSeat hands.old.book_seat hands.new.book_seat }
    ensures clock { hands.new.clock.thread ≡ hands.old.clock.thread }
    ensures taking { (thread : ThreadId) (room : ℕ) → CanTake thread room seat.old → CanTake thread room seat.new }
{
    let turn = port.lock(rt, seat);
    hands.clock.ready(rt);
    was_posted(write_at_turn(turn, seat, &mut hands.clock, item))
}

// Shuts the port, unless it is shut.
pub(crate) fn shut_there<R: Wait>(rt: &R, hands: &mut Hands, port: &Port, seat: &mut Seat<PortBook>)
    requires of { seat.old.lock ≡ port.now }
    requires idle { seat.old.turn ≡ false }
    requires thread { seat.old.thread ≡ hands.old.clock.thread.0 }
    ensures does { (looper : ℕ) → SideDoes looper (Shuts looper) (side hands.old.clock hands.old.book_seat seat.old) (side hands.new.clock hands.new.book_seat seat.new) }
    ensures shut { (state_of seat.new.front).shut ≡ true }
    ensures seat { KeepsSeat seat.old seat.new }
    ensures book { hands.new.book ≡ hands.old.book }
    ensures book_seat { KeepsSeat hands.old.book_seat hands.new.book_seat }
    ensures clock { hands.new.clock.thread ≡ hands.old.clock.thread }
    ensures taking { (thread : ThreadId) (room : ℕ) → CanTake thread room seat.old → CanTake thread room seat.new }
{
    close(port, rt, seat, &mut hands.clock);
}
