ghost use Rattle.std.specs.Prelude.{◌≡◌, ◌≤◌, ◌<◌, ◌↔◌, ◌^◌, ℕ, false, true, length, Some, IfSome, IsErrOf};
ghost use Rattle.ak_base.specs.declared.thread.ThreadId.{ThreadId};
ghost use Rattle.ak_message.specs.Fields.{specifier_count};
ghost use Rattle.ak_flatten.specs.Spelling.{spelling};
ghost use Rattle.ak_flatten.specs.Limits.{flat_limit};
ghost use Rattle.ak_turn.specs.Entries.{last_stamp_of};
ghost use Rattle.ak_turn.specs.Seats.{at_leisure, IsGiven, KnowsWhole};
ghost use Rattle.ak_port.specs.PortCalls.{by_number, stamp_number, CanTake, HasAnswered, HasAnsweredAtTurn, IsAtPort, KeepsTaken, PortSeat};
ghost use Rattle.ak_port.specs.PortMachine.{state_of, write_event, LacksRoom};
ghost use Rattle.ak_turn.specs.Called.{KeepsSeat};
ghost use Rattle.ak_messenger.specs.Sends.{back_duty, item_in, post_answer, post_event, IfReached};

use crate::envelope::Envelope;
use crate::fault::SendFault;
use crate::hands::Hands;
use ak_message::Message;
use ak_port::{Port, PortBook, WriteAnswer, write, write_at_turn};
use ak_turn::{Clock, Seat, Turn};
use std::alloc::Global;
use std::sync::Wait;

// What a write answers, as a post answers it.
fn posted(answer: WriteAnswer) -> Result<u64, SendFault>
    ensures { result ≡ post_answer answer }
{
    match answer {
        WriteAnswer::Wrote(position) => Ok(position),
        WriteAnswer::Closed(_) => Err(SendFault::BadPort),
        WriteAnswer::Spent(_) => Err(SendFault::Spent),
        WriteAnswer::Full(_) => Err(SendFault::WouldBlock),
        WriteAnswer::NoMemory(_) => Err(SendFault::NoMemory),
    }
}

/// Writes the message with its envelope to the port, and answers its position there, counted from 0. It waits for
/// its turn and for room. `TooLong`, exactly where the flat text has over 4,096 bytes, comes before any step.
/// `BadPort` and `Spent` are the port's refusals, in this order, each with its entry there. `NoMemory` makes none,
/// and is not answered in place of waiting for room; nor is `WouldBlock`. The seat is one at this port, without a
/// turn, and of the thread of these hands. The envelope pops no more specifiers than there are. Where it has an
/// address, the item has the duty to post a reply back. Whoever is not to wait for room calls `post_at_turn`. (The Be
/// Book, The Application Kit, BMessenger: SendMessage().)
pub fn post<R: Wait>(
    alloc: Global,
    hands: &mut Hands,
    rt: &R,
    port: &Port,
    seat: &mut Seat<PortBook>,
    envelope: Envelope,
    message: &Message,
) -> Result<u64, SendFault>
    requires of { seat.old.lock ≡ port.now }
    requires idle { seat.old.turn ≡ false }
    requires thread { seat.old.thread ≡ hands.old.clock.thread.0 }
    requires popped { envelope.popped ≤ specifier_count message.now.fields }
    ensures answered { HasAnswered (post_event envelope message.now result) hands.old.clock hands.new.clock seat.old seat.new }
    ensures too_long { IsErrOf result SendFault.TooLong ↔ (flat_limit < length (spelling message.now)) }
    ensures unsent { IsErrOf result SendFault.TooLong → seat.new ≡ seat.old }
    ensures not_blocked { IsErrOf result SendFault.WouldBlock → ⊥ }
    ensures wanting { IsErrOf result SendFault.NoMemory → LacksRoom seat.new.front → seat.new ≡ seat.old }
    ensures port { IsAtPort seat.old → IsAtPort seat.new }
    ensures at_port { IfReached result (IsAtPort seat.new) }
    ensures known { IfReached result (KnowsWhole by_number seat.new) }
    ensures knows_still { KnowsWhole by_number seat.old → KnowsWhole by_number seat.new }
    ensures seat { KeepsSeat seat.old seat.new }
    ensures taking { (thread : ThreadId) (room : ℕ) → CanTake thread room seat.old → CanTake thread room seat.new }
    ensures taken { KeepsTaken seat.old seat.new }
    ensures book { hands.new.book ≡ hands.old.book }
    ensures book_seat { hands.new.book_seat ≡ hands.old.book_seat }
    ensures clock { hands.new.clock.thread ≡ hands.old.clock.thread }
{
    let item = envelope.item(alloc, envelope.duty(), message)?;
    posted(write(port, rt, seat, &mut hands.clock, item))
}

// Passes the turn on without an entry.
fn pass_on(turn: Turn<'_, PortBook>, seat: &mut Seat<PortBook>)
    requires of { seat.old.lock ≡ turn.lock }
    requires turn { seat.old.turn ≡ true }
    requires opening { seat.old.opening ≡ Some turn.book.taker }
    requires list { turn.book.entries ≡ seat.old.front }
    ensures after { seat.new ≡ at_leisure seat.old }
    ensures port { IsAtPort seat.new }
    ensures known { KnowsWhole by_number seat.old → KnowsWhole by_number seat.new }
{
    let mut turn = turn;
    // Reading the taker shows that the list is a port's.
    let _ = turn.book().taker();
    turn.finish(seat);
}

/// Writes the message with its envelope in the turn that the seat has at the port, answers its position there, and
/// passes the turn on. `TooLong`, exactly where the flat text has over 4,096 bytes, makes no entry. `BadPort`, `Spent`
/// and `WouldBlock` are the port's refusals, in this order, each with its entry there. `NoMemory` makes none. It is
/// handed nothing to wait with: its answer is the one for the list as the turn shows it. The envelope pops no more
/// specifiers than there are. Where it has an address, the item has the duty to post a reply back. (The Be Book, The
/// Application Kit, BMessenger: SendMessage().)
pub fn post_at_turn(
    alloc: Global,
    clock: &mut Clock,
    turn: Turn<'_, PortBook>,
    seat: &mut Seat<PortBook>,
    envelope: Envelope,
    message: &Message,
) -> Result<u64, SendFault>
    requires of { seat.old.lock ≡ turn.lock }
    requires turn { seat.old.turn ≡ true }
    requires thread { seat.old.thread ≡ clock.old.thread.0 }
    requires opening { seat.old.opening ≡ Some turn.book.taker }
    requires list { turn.book.entries ≡ seat.old.front }
    requires time { clock.old.time < 2 ^ 63 }
    requires last { last_stamp_of stamp_number turn.book.entries < 2 ^ 63 }
    requires popped { envelope.popped ≤ specifier_count message.now.fields }
    ensures answered { HasAnsweredAtTurn (post_event envelope message.now result) clock.old clock.new seat.old seat.new }
    ensures machine { IfSome (post_event envelope message.now result) (λ event. event ≡ write_event (state_of seat.old.front) (item_in envelope (back_duty envelope.back) message.now)) }
    ensures too_long { IsErrOf result SendFault.TooLong ↔ (flat_limit < length (spelling message.now)) }
    ensures seat { KeepsSeat (at_leisure seat.old) seat.new }
    ensures clock { clock.new.thread ≡ clock.old.thread }
    ensures port { IsAtPort seat.new }
    ensures known { KnowsWhole by_number seat.old → KnowsWhole by_number seat.new }
    ensures taking { (thread : ThreadId) (room : ℕ) (before : PortSeat) → CanTake thread room before → IsGiven by_number before seat.old → CanTake thread room seat.new }
    ensures taken { (before : PortSeat) → IsGiven by_number before seat.old → KeepsTaken before seat.new }
{
    match envelope.item(alloc, envelope.duty(), message) {
        Ok(item) => posted(write_at_turn(turn, seat, clock, item)),
        Err(fault) => {
            pass_on(turn, seat);
            Err(SendFault::from(fault))
        }
    }
}
