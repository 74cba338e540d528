//! Ports that threads share.
ghost use Rattle.std.specs.Prelude.{◌≡◌, ℕ, ◌+◌, ◌-◌, ◌∷◌, ◌++◌, [], ◌<◌, ◌≤◌, ◌^◌, false, true, min, Some, IfOk, IfErr, IfSome, IfNone, OnOk, OnErr};
ghost use Rattle.std.specs.Arc.{arc_value};
ghost use Rattle.std.specs.VecDeque.{deque_len, deque_capacity};
ghost use Rattle.ak_turn.specs.Entries.{last_stamp_of};
ghost use Rattle.ak_turn.specs.Seats.{at_leisure, first_seat, IsGiven, KnowsWhole};
ghost use Rattle.ak_port.specs.PortMachine.{last_taken, pending_count, refusal_of, state_of, taken_items, write_event, IsRested, LacksItems, LacksRoom};
ghost use Rattle.ak_port.specs.PortCalls.{by_number, clock_after, close_entry, making, stamp_number, take_count, take_event, write_entry, CanTake, GivesBack, HasAnswered, HasAnsweredAtTurn, HasEntered, HasLooked, IfNoMemory, IfRefused, IfRest, IfTook, IsAtPort, IsFull, KeepsTaken, PortSeat};
ghost use Rattle.ak_turn.specs.Called.{KeepsSeat};
ghost use Rattle.ak_base.specs.declared.thread.ThreadId.{ThreadId};
ghost use Rattle.ak_base.specs.Limits.{capacity_limit};
ghost use Rattle.ak_port.specs.Limits.{life_limit};

use crate::port_book::PortBook;
use crate::port_entry::{CloseAnswer, ITEMS, ROOM, TakeAnswer, WriteAnswer};
use ak_base::{CAPACITY_LIMIT, NoMemory, ThreadId};
use ak_flatten::{Item, Taken};
use ak_turn::{Clock, Seat, Turn, TurnLock};
use std::alloc::Global;
use std::collections::VecDeque;
use std::sync::{Arc, Wait};

/// The most items that a port accepts in all.
pub const LIFE_LIMIT: u32 = 8192;

/// A port, shared: the book of one port behind a lock, at which each thread has a seat. A call asks of the seat
/// that it is one at this port, has no turn, and is of the clock's thread. The seat stays so. (The Be Book, The
/// Kernel Kit, Ports.)
pub type Port = TurnLock<PortBook>;

/// A new port for that taker, which holds `capacity` items at a time, 1 to 1,000, and accepts `life` in all, 1
/// to 8,192. It comes with the maker's seat, which is the head. The making is its first entry, by the maker's
/// clock. It reserves the entries that shutting it and taking the rest need, and room for as many pending items
/// as it holds. The clock's time is below 2^63. `NoMemory` makes no entry, and the clock stands. (The Be Book,
/// The Kernel Kit, Ports: create_port().)
pub fn make(
    alloc: Global,
    capacity: u32,
    life: u32,
    taker: ThreadId,
    clock: &mut Clock,
) -> Result<(Arc<Port>, Seat<PortBook>), NoMemory>
    requires capacity { (1 ≤ capacity) × (capacity ≤ CAPACITY_LIMIT) }
    requires life { (1 ≤ life) × (life ≤ LIFE_LIMIT) }
    requires time { clock.old.time < 2 ^ 63 }
    ensures limits { (CAPACITY_LIMIT ≡ capacity_limit) × (LIFE_LIMIT ≡ life_limit) }
    ensures made { IfOk result (λ made. made.1 ≡ first_seat (arc_value made.0) taker (making clock.old capacity life ∷ []) (0 ∷ []) clock.old.thread.0) }
    ensures port { IfOk result (λ made. IsAtPort made.1) }
    ensures known { IfOk result (λ made. KnowsWhole by_number made.1) }
    ensures taking { IfOk result (λ made. CanTake taker capacity made.1) }
    ensures clock { OnOk result (clock.new ≡ clock_after clock.old []) }
    ensures err { OnErr result (clock.new ≡ clock.old) }
{
    let book = PortBook::new(alloc, capacity, life, taker, clock)?;
    let made = TurnLock::new(alloc, book, clock.thread)?;
    clock.stamp(0);
    Ok(made)
}

/// Writes an item at the end of what is pending in the turn that the seat has, answers its position, and passes the
/// turn on. Refused, in this order, with `Closed`, `Spent` and `Full`; the item is given back as it was. Each of
/// these is one entry. `NoMemory` gives the item back too, and makes none. It is handed nothing to wait with: its
/// answer is the one for the list as the turn shows it. So whoever is not to wait for room takes a turn, readies the
/// clock and calls it.
pub fn write_at_turn(
    turn: Turn<'_, PortBook>,
    seat: &mut Seat<PortBook>,
    clock: &mut Clock,
    item: Item,
) -> WriteAnswer
    requires of { seat.old.lock ≡ turn.lock }
    requires turn { seat.old.turn ≡ true }
    requires thread { seat.old.thread ≡ clock.old.thread.0 }
    requires opening { seat.old.opening ≡ Some turn.book.taker }
    requires list { turn.book.entries ≡ seat.old.front }
    requires time { clock.old.time < 2 ^ 63 }
    requires last { last_stamp_of stamp_number turn.book.entries < 2 ^ 63 }
    ensures answered { HasAnsweredAtTurn (write_entry result item) clock.old clock.new seat.old seat.new }
    ensures machine { IfSome (write_entry result item) (λ event. event ≡ write_event (state_of seat.old.front) item) }
    ensures back { GivesBack result item }
    ensures seat { KeepsSeat (at_leisure seat.old) seat.new }
    ensures clock { clock.new.thread ≡ clock.old.thread }
    ensures port { IsAtPort seat.new }
    ensures known { KnowsWhole by_number seat.old → KnowsWhole by_number seat.new }
    ensures taking { (thread : ThreadId) (room : ℕ) (before : PortSeat) → CanTake thread room before → IsGiven by_number before seat.old → CanTake thread room seat.new }
    ensures taken { (before : PortSeat) → IsGiven by_number before seat.old → KeepsTaken before seat.new }
{
    let mut turn = turn;
    let answer = turn.book().write(clock, item);
    turn.finish(seat);
    answer
}

// One try of a write that waits for room: `Err` gives the item back, without an entry, where the port is full.
fn try_write<R: Wait>(
    port: &Port,
    rt: &R,
    seat: &mut Seat<PortBook>,
    clock: &mut Clock,
    item: Item,
) -> Result<WriteAnswer, Item>
    requires of { seat.old.lock ≡ port.now }
    requires idle { seat.old.turn ≡ false }
    requires thread { seat.old.thread ≡ clock.old.thread.0 }
    ensures answered { IfOk result (λ answer. HasAnswered (write_entry answer item) clock.old clock.new seat.old seat.new) }
    ensures back { IfOk result (λ answer. GivesBack answer item) }
    ensures room { IfOk result (λ answer. IsFull answer ≡ true → ⊥) }
    ensures wanting { IfOk result (λ answer. IfNoMemory answer (¬ (LacksRoom seat.new.front))) }
    ensures looked { OnErr result (HasLooked clock.old clock.new seat.old seat.new) }
    ensures item { IfErr result (λ back. back ≡ item) }
    ensures waits { OnErr result (LacksRoom seat.new.front) }
    ensures port { IsAtPort seat.new }
    ensures known { KnowsWhole by_number seat.new }
{
    let mut turn = port.lock(rt, seat);
    clock.ready(rt);
    if turn.book().is_full() {
        turn.finish(seat);
        return Err(item);
    }
    Ok(write_at_turn(turn, seat, clock, item))
}

// A write that waits for room: it gives its turn back, and tries again once there may be some.
fn write_once_free<R: Wait>(
    port: &Port,
    rt: &R,
    seat: &mut Seat<PortBook>,
    clock: &mut Clock,
    item: Item,
) -> WriteAnswer
    requires of { seat.old.lock ≡ port.now }
    requires idle { seat.old.turn ≡ false }
    requires thread { seat.old.thread ≡ clock.old.thread.0 }
    ensures answered { HasAnswered (write_entry result item) clock.old clock.new seat.old seat.new }
    ensures back { GivesBack result item }
    ensures room { IsFull result ≡ true → ⊥ }
    ensures wanting { IfNoMemory result (¬ (LacksRoom seat.new.front)) }
    ensures port { IsAtPort seat.new }
    ensures known { KnowsWhole by_number seat.new }
{
    let mut item = item;
    for _ in rt.forever() {
        match try_write(port, rt, seat, clock, item) {
            Ok(answer) => return answer,
            Err(back) => item = back,
        }
        port.wait_at_bell(rt, seat.seen(), ROOM);
    }
    unreachable!()
}

/// Writes an item at the end of what is pending, and answers its position, counted from 0. Refused, in this
/// order, with `Closed` and `Spent`; the item is given back as it was. Each of these is one entry. `NoMemory`
/// gives the item back too, and makes none; no full port is answered so. It waits for its turn. Where it finds the
/// port full it gives its turn back, and tries again once there may be room: `Full` is not answered. Whoever is
/// not to wait for room calls `write_at_turn`. It copies the flat text, which stays in the history, and reserves
/// what taking the item needs. (The Be Book, The Kernel Kit, Ports: write_port().)
pub fn write<R: Wait>(
    port: &Port,
    rt: &R,
    seat: &mut Seat<PortBook>,
    clock: &mut Clock,
    item: Item,
) -> WriteAnswer
    requires of { seat.old.lock ≡ port.now }
    requires idle { seat.old.turn ≡ false }
    requires thread { seat.old.thread ≡ clock.old.thread.0 }
    ensures answered { HasAnswered (write_entry result item) clock.old clock.new seat.old seat.new }
    ensures refused { IfRefused result (λ why. refusal_of (state_of seat.new.front) ≡ Some why) }
    ensures seat { KeepsSeat seat.old seat.new }
    ensures clock { clock.new.thread ≡ clock.old.thread }
    ensures port { IsAtPort seat.new }
    ensures known { KnowsWhole by_number seat.new }
    ensures back { GivesBack result item }
    ensures not_full { IsFull result ≡ true → ⊥ }
    ensures wanting { IfNoMemory result (¬ (LacksRoom seat.new.front)) }
    ensures taking { (thread : ThreadId) (room : ℕ) → CanTake thread room seat.old → CanTake thread room seat.new }
    ensures taken { KeepsTaken seat.old seat.new }
{
    write_once_free(port, rt, seat, clock, item)
}

// One try of a take.
fn try_take<R: Wait>(
    port: &Port,
    rt: &R,
    seat: &mut Seat<PortBook>,
    clock: &mut Clock,
    out: &mut VecDeque<Taken>,
    most: u32,
) -> Option<TakeAnswer>
    requires of { seat.old.lock ≡ port.now }
    requires idle { seat.old.turn ≡ false }
    requires thread { seat.old.thread ≡ clock.old.thread.0 }
    requires taking { CanTake clock.old.thread (deque_capacity out.old - deque_len out.old) seat.old }
    requires most { 1 ≤ most }
    ensures answered { IfSome result (λ answer. HasEntered clock.old clock.new (take_event answer) seat.old seat.new) }
    ensures items { IfSome result (λ answer. out.new.items ≡ out.old.items ++ last_taken (take_count answer) (state_of seat.new.front)) }
    ensures count { IfSome result (λ answer. IfTook answer (λ k. k ≡ min most (k + pending_count (state_of seat.new.front)))) }
    ensures room { deque_capacity out.new ≡ deque_capacity out.old }
    ensures looked { IfNone result (HasLooked clock.old clock.new seat.old seat.new) }
    ensures nothing { IfNone result (out.new ≡ out.old) }
    ensures empty { IfNone result (LacksItems seat.new.front) }
    ensures port { IsAtPort seat.new }
    ensures known { KnowsWhole by_number seat.new }
{
    let mut turn = port.lock(rt, seat);
    clock.ready(rt);
    let tried = turn.book().take(clock, out, most);
    turn.finish(seat);
    tried
}

/// Takes the oldest pending items, as many as there are but no more than `most`, with their positions, to the
/// end of `out`. Where nothing is pending it waits. Once the port is shut it takes all that is left, maybe
/// nothing, which is the last that is taken: then all that the port ever accepted is taken. The thread is the
/// port's taker and has not taken the rest; `out` has room for the port's capacity. The take is one entry.
/// Takes no memory. (The Be Book, The Kernel Kit, Ports: read_port().)
pub fn take<R: Wait>(
    port: &Port,
    rt: &R,
    seat: &mut Seat<PortBook>,
    clock: &mut Clock,
    out: &mut VecDeque<Taken>,
    most: u32,
) -> TakeAnswer
    requires of { seat.old.lock ≡ port.now }
    requires idle { seat.old.turn ≡ false }
    requires thread { seat.old.thread ≡ clock.old.thread.0 }
    requires taking { CanTake clock.old.thread (deque_capacity out.old - deque_len out.old) seat.old }
    requires most { 1 ≤ most }
    ensures answered { HasEntered clock.old clock.new (take_event result) seat.old seat.new }
    ensures seat { KeepsSeat seat.old seat.new }
    ensures clock { clock.new.thread ≡ clock.old.thread }
    ensures port { IsAtPort seat.new }
    ensures known { KnowsWhole by_number seat.new }
    ensures items { out.new.items ≡ out.old.items ++ last_taken (take_count result) (state_of seat.new.front) }
    ensures count { IfTook result (λ k. k ≡ min most (k + pending_count (state_of seat.new.front))) }
    ensures some { IfTook result (λ k. 1 ≤ k) }
    ensures rises { (state_of seat.new.front).taken ≡ (state_of seat.old.front).taken + take_count result }
    ensures goes_on { taken_items (state_of seat.new.front) ≡ taken_items (state_of seat.old.front) ++ last_taken (take_count result) (state_of seat.new.front) }
    ensures rest { IfRest result (IsRested seat.new.front) }
    ensures room { deque_capacity out.new ≡ deque_capacity out.old }
    ensures taking { (room : ℕ) → CanTake clock.old.thread room seat.old → IfTook result (λ _. CanTake clock.old.thread room seat.new) }
{
    for _ in rt.forever() {
        if let Some(answer) = try_take(port, rt, seat, clock, out, most) {
            return answer;
        }
        port.wait_at_bell(rt, seat.seen(), ITEMS);
    }
    unreachable!()
}

// The closing itself.
fn try_close<R: Wait>(
    port: &Port,
    rt: &R,
    seat: &mut Seat<PortBook>,
    clock: &mut Clock,
) -> CloseAnswer
    requires of { seat.old.lock ≡ port.now }
    requires idle { seat.old.turn ≡ false }
    requires thread { seat.old.thread ≡ clock.old.thread.0 }
    ensures answered { HasAnswered (close_entry result) clock.old clock.new seat.old seat.new }
    ensures port { IsAtPort seat.new }
    ensures known { KnowsWhole by_number seat.new }
    ensures already { result ≡ CloseAnswer.AlreadyShut → (state_of seat.new.front).shut ≡ true }
{
    let mut turn = port.lock(rt, seat);
    clock.ready(rt);
    let shuts = turn.book().shut(clock);
    turn.finish(seat);
    if shuts {
        CloseAnswer::Shut
    } else {
        CloseAnswer::AlreadyShut
    }
}

/// Shuts the port: nothing is written any more, and what is pending stays to be taken. Any thread with a seat
/// may shut it. That is one entry; `AlreadyShut`, without an entry, where it is shut. It waits for its turn.
/// Takes no memory. (The Be Book, The Kernel Kit, Ports: close_port().)
pub fn close<R: Wait>(
    port: &Port,
    rt: &R,
    seat: &mut Seat<PortBook>,
    clock: &mut Clock,
) -> CloseAnswer
    requires of { seat.old.lock ≡ port.now }
    requires idle { seat.old.turn ≡ false }
    requires thread { seat.old.thread ≡ clock.old.thread.0 }
    ensures answered { HasAnswered (close_entry result) clock.old clock.new seat.old seat.new }
    ensures seat { KeepsSeat seat.old seat.new }
    ensures clock { clock.new.thread ≡ clock.old.thread }
    ensures port { IsAtPort seat.new }
    ensures known { KnowsWhole by_number seat.new }
    ensures shut { (state_of seat.new.front).shut ≡ true }
    ensures taking { (thread : ThreadId) (room : ℕ) → CanTake thread room seat.old → CanTake thread room seat.new }
    ensures taken { KeepsTaken seat.old seat.new }
{
    try_close(port, rt, seat, clock)
}
