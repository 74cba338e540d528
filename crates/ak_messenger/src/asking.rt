ghost use Rattle.std.specs.Prelude.{◌≡◌, ◌≤◌, ◌<◌, ◌↔◌, ℕ, false, None, Err, length, IfOk, IsErrOf};
ghost use Rattle.ak_base.specs.declared.thread.ThreadId.{ThreadId};
ghost use Rattle.ak_message.specs.Fields.{specifier_count};
ghost use Rattle.ak_flatten.specs.Item.{spelled};
ghost use Rattle.ak_flatten.specs.Laws.{Spells};
ghost use Rattle.ak_flatten.specs.Spelling.{spelling};
ghost use Rattle.ak_turn.specs.Seats.{KnowsWhole};
ghost use Rattle.ak_flatten.specs.Limits.{flat_limit};
ghost use Rattle.ak_port.specs.PortCalls.{by_number, CanTake, IsAtPort, KeepsTaken};
ghost use Rattle.ak_port.specs.ReplySeats.{maker_of, MayCancel, MayTake};
ghost use Rattle.ak_turn.specs.Called.{KeepsSeat};
ghost use Rattle.ak_messenger.specs.Sends.{item_in, write_fault, IfReached};
ghost use Rattle.ak_messenger.specs.Asks.{AskTells, BecameOf, HasClosed, IsReplied, IsWritten};

use crate::envelope::Envelope;
use crate::fault::SendFault;
use crate::hands::Hands;
use ak_base::Bytes;
use ak_flatten::{Duty, Item, unflatten};
use ak_message::Message;
use ak_port::{Port, PortBook, WriteAnswer, cancel, open_ask, wait_for, write};
use ak_turn::{Clock, Seat};
use std::alloc::Global;
use std::sync::Wait;

/// The reply to an ask.
#[derive(Drop)]
pub struct Reply {
    /// The slot that it came by, counted from 0.
    pub slot: u64,
    /// Its flat text, as the slot was filled with it.
    pub flat: Bytes,
    /// The message which the flat text spells.
    pub message: Message,
}

// Why a write was refused, if it was.
fn refusal(answer: WriteAnswer) -> Option<SendFault>
    ensures { result ≡ write_fault answer }
{
    match answer {
        WriteAnswer::Wrote(_) => None,
        WriteAnswer::Closed(_) => Some(SendFault::BadPort),
        WriteAnswer::Spent(_) => Some(SendFault::Spent),
        WriteAnswer::Full(_) => Some(SendFault::WouldBlock),
        WriteAnswer::NoMemory(_) => Some(SendFault::NoMemory),
    }
}

// Writes the item once there is room. The answer is why it was not written, if it was not.
fn write_once_free<R: Wait>(
    port: &Port,
    rt: &R,
    seat: &mut Seat<PortBook>,
    clock: &mut Clock,
    item: Item,
) -> Option<SendFault>
    requires of { seat.old.lock ≡ port.now }
    requires idle { seat.old.turn ≡ false }
    requires thread { seat.old.thread ≡ clock.old.thread.0 }
    ensures written { IsWritten item clock.old clock.new seat.old seat.new result }
    ensures port { IsAtPort seat.new }
    ensures known { KnowsWhole by_number seat.new }
    ensures seat { KeepsSeat seat.old seat.new }
    ensures taking { (thread : ThreadId) (room : ℕ) → CanTake thread room seat.old → CanTake thread room seat.new }
    ensures taken { KeepsTaken seat.old seat.new }
    ensures clock { clock.new.thread ≡ clock.old.thread }
{
    refusal(write(port, rt, seat, clock, item))
}

// Cancels a slot whose item was not written. The answer is that fault.
fn give_up<R: Wait>(h: &mut Hands, rt: &R, slot: u64, fault: SendFault) -> Result<Reply, SendFault>
    requires { MayCancel h.old.book_seat.thread slot h.old.book_seat.front }
    ensures closed { HasClosed slot h.old.clock h.new.clock h.old.book_seat h.new.book_seat }
    ensures fault { result ≡ Err fault }
    ensures book_known { KnowsWhole maker_of h.new.book_seat }
    ensures book { h.new.book ≡ h.old.book }
    ensures book_seat { KeepsSeat h.old.book_seat h.new.book_seat }
    ensures clock { h.new.clock.thread ≡ h.old.clock.thread }
{
    cancel(&h.book, rt, &mut h.book_seat, &mut h.clock, slot);
    Err(fault)
}

// Waits for the reply, and reads its message.
fn await_reply<R: Wait>(alloc: Global, h: &mut Hands, rt: &R, slot: u64) -> Result<Reply, SendFault>
    requires { MayTake h.old.book_seat.thread slot h.old.book_seat.front }
    ensures replied { IsReplied slot h.old.clock h.new.clock h.old.book_seat h.new.book_seat result }
    ensures message { IfOk result (λ reply. reply.message ≡ spelled reply.flat) }
    ensures spells { IfOk result (λ reply. Spells reply.flat reply.message) }
    ensures book_known { KnowsWhole maker_of h.new.book_seat }
    ensures book { h.new.book ≡ h.old.book }
    ensures book_seat { KeepsSeat h.old.book_seat h.new.book_seat }
    ensures clock { h.new.clock.thread ≡ h.old.clock.thread }
{
    let flat = wait_for(&h.book, rt, &mut h.book_seat, &mut h.clock, slot);
    let Ok(message) = unflatten(alloc, flat.as_slice()) else {
        // It is a flat text, so nothing but memory can be missing.
        return Err(SendFault::NoMemory);
    };
    Ok(Reply {
        slot,
        flat,
        message,
    })
}

// Writes the item with the duty to fill the slot, and waits for the reply; or gives the slot up.
fn converse<R: Wait>(
    alloc: Global,
    h: &mut Hands,
    rt: &R,
    port: &Port,
    seat: &mut Seat<PortBook>,
    item: Item,
    slot: u64,
) -> Result<Reply, SendFault>
    requires of { seat.old.lock ≡ port.now }
    requires idle { seat.old.turn ≡ false }
    requires thread { seat.old.thread ≡ h.old.clock.thread.0 }
    requires take { MayTake h.old.book_seat.thread slot h.old.book_seat.front }
    requires cancel { MayCancel h.old.book_seat.thread slot h.old.book_seat.front }
    ensures became { BecameOf item h.old.clock h.new.clock h.old.book_seat h.new.book_seat seat.old seat.new slot result }
    ensures message { IfOk result (λ reply. reply.message ≡ spelled reply.flat) }
    ensures spells { IfOk result (λ reply. Spells reply.flat reply.message) }
    ensures port { IsAtPort seat.new }
    ensures known { KnowsWhole by_number seat.new }
    ensures book_known { KnowsWhole maker_of h.new.book_seat }
    ensures seat { KeepsSeat seat.old seat.new }
    ensures taking { (thread : ThreadId) (room : ℕ) → CanTake thread room seat.old → CanTake thread room seat.new }
    ensures taken { KeepsTaken seat.old seat.new }
    ensures book { h.new.book ≡ h.old.book }
    ensures book_seat { KeepsSeat h.old.book_seat h.new.book_seat }
    ensures clock { h.new.clock.thread ≡ h.old.clock.thread }
{
    let item = item.with_duty(Duty::Slot(slot));
    match write_once_free(port, rt, seat, &mut h.clock, item) {
        None => await_reply(alloc, h, rt, slot),
        Some(fault) => give_up(h, rt, slot, fault),
    }
}

// Asks by an item that has no duty yet.
fn ask_by<R: Wait>(
    alloc: Global,
    h: &mut Hands,
    rt: &R,
    port: &Port,
    seat: &mut Seat<PortBook>,
    item: Item,
) -> Result<Reply, SendFault>
    requires of { seat.old.lock ≡ port.now }
    requires idle { seat.old.turn ≡ false }
    requires thread { seat.old.thread ≡ h.old.clock.thread.0 }
    ensures answered { AskTells item h.old.clock h.new.clock h.old.book_seat h.new.book_seat seat.old seat.new result }
    ensures not_long { IsErrOf result SendFault.TooLong → ⊥ }
    ensures message { IfOk result (λ reply. reply.message ≡ spelled reply.flat) }
    ensures spells { IfOk result (λ reply. Spells reply.flat reply.message) }
    ensures port { IsAtPort seat.old → IsAtPort seat.new }
    ensures at_port { IfReached result (IsAtPort seat.new) }
    ensures known { IfReached result (KnowsWhole by_number seat.new) }
    ensures knows_still { KnowsWhole by_number seat.old → KnowsWhole by_number seat.new }
    ensures book_known { KnowsWhole maker_of h.new.book_seat }
    ensures seat { KeepsSeat seat.old seat.new }
    ensures taking { (thread : ThreadId) (room : ℕ) → CanTake thread room seat.old → CanTake thread room seat.new }
    ensures taken { KeepsTaken seat.old seat.new }
    ensures book { h.new.book ≡ h.old.book }
    ensures book_seat { KeepsSeat h.old.book_seat h.new.book_seat }
    ensures clock { h.new.clock.thread ≡ h.old.clock.thread }
{
    let slot = open_ask(&h.book, rt, &mut h.book_seat, &mut h.clock)?;
    converse(alloc, h, rt, port, seat, item, slot)
}

/// Writes the message with its envelope to the port, waits for the reply, and answers it. It waits for its
/// turns, for room at the port, and for the reply. `TooLong`, exactly where the flat text has over 4,096 bytes,
/// comes before any step. Then a slot is opened, and the item written with the duty to fill it. Where the item
/// is not written, for `BadPort`, `Spent` or want of memory, the slot is cancelled, unless it was filled by
/// then. `WouldBlock` is not answered, nor want of memory in place of waiting for room. After `NoMemory` the entries
/// so far stay; the reply is lost where memory ran out for its message. The seat is one at this port, without a turn,
/// and of the thread of these hands. The envelope has no address for a reply, and pops no more specifiers than there
/// are. (The Be Book, The Application Kit, BMessenger: SendMessage(), with a reply that is waited for.)
pub fn ask<R: Wait>(
    alloc: Global,
    hands: &mut Hands,
    rt: &R,
    port: &Port,
    seat: &mut Seat<PortBook>,
    envelope: Envelope,
    message: &Message,
) -> Result<Reply, SendFault>
    requires of { seat.old.lock ≡ port.now }
    requires idle { seat.old.turn ≡ false }
    requires thread { seat.old.thread ≡ hands.old.clock.thread.0 }
    requires popped { envelope.popped ≤ specifier_count message.now.fields }
    requires back { envelope.back ≡ None }
    ensures answered { AskTells (item_in envelope Duty.None message.now) hands.old.clock hands.new.clock hands.old.book_seat hands.new.book_seat seat.old seat.new result }
    ensures too_long { IsErrOf result SendFault.TooLong ↔ (flat_limit < length (spelling message.now)) }
    ensures message { IfOk result (λ reply. reply.message ≡ spelled reply.flat) }
    ensures spells { IfOk result (λ reply. Spells reply.flat reply.message) }
    ensures port { IsAtPort seat.old → IsAtPort seat.new }
    ensures at_port { IfReached result (IsAtPort seat.new) }
    ensures known { IfReached result (KnowsWhole by_number seat.new) }
    ensures knows_still { KnowsWhole by_number seat.old → KnowsWhole by_number seat.new }
    ensures book_known { IfReached result (KnowsWhole maker_of hands.new.book_seat) }
    ensures book_knows_still { KnowsWhole maker_of hands.old.book_seat → KnowsWhole maker_of hands.new.book_seat }
    ensures seat { KeepsSeat seat.old seat.new }
    ensures taking { (thread : ThreadId) (room : ℕ) → CanTake thread room seat.old → CanTake thread room seat.new }
    ensures taken { KeepsTaken seat.old seat.new }
    ensures book { hands.new.book ≡ hands.old.book }
    ensures book_seat { KeepsSeat hands.old.book_seat hands.new.book_seat }
    ensures clock { hands.new.clock.thread ≡ hands.old.clock.thread }
{
    let item = envelope.item(alloc, Duty::None, message)?;
    ask_by(alloc, hands, rt, port, seat, item)
}
