ghost use Rattle.std.specs.Prelude.{◌≡◌, ◌+◌, ◌∷◌, ◌++◌, [], ◌<◌, ◌≤◌, ◌^◌, false, true, min, take, drop, length, IfOk, IfErr, IfSome, IfNone, OnErr, None, Some, vec_len, vec_capacity};
ghost use Rattle.std.specs.VecDeque.{deque_len, deque_capacity};
ghost use Rattle.ak_base.specs.Limits.{capacity_limit};
ghost use Rattle.ak_turn.specs.Entries.{last_stamp_of};
ghost use Rattle.ak_port.specs.PortInside.{one_unless};
ghost use Rattle.ak_port.specs.PortMachine.{numbered, last_taken, pending_count, refusal_of, refused_event, state_of, write_event, LacksItems, LacksRoom};
ghost use Rattle.ak_port.specs.PortCalls.{clock_after, entry_now, making, stamp_number, GivesBack, HasAdded, IfTook, IsFull, IsPortBook, refused_answer, take_count, take_event, write_entry};
ghost use Rattle.ak_port.specs.Limits.{life_limit};

use crate::port_entry::{PortEntry, PortEvent, Refusal, TakeAnswer, WriteAnswer};
use ak_base::{NoMemory, ThreadId};
use ak_flatten::{Item, Taken};
use ak_turn::{Bells, Book, Clock};
use std::alloc::Global;
use std::collections::VecDeque;
use std::marker::Model;

/// A port, as its taker and the list of what was done to it, oldest first. (The Be Book, The Kernel Kit,
/// Ports.)
#[derive(Drop)]
pub struct PortBook {
    taker: ThreadId,
    capacity: u32,
    life: u32,
    entries: Vec<PortEntry>,
    // What was written and not taken, the oldest first, in a ring with room for the capacity.
    pending: VecDeque<Item>,
    // How many items were ever written.
    written: u64,
    shut: bool,
    rested: bool,
}

impl Model for PortBook {
    ghost use Rattle.ak_port.specs.PortCalls.{PortData};
    ghost use Rattle.ak_port.specs.PortInside.{port_inside, IsSound};

    ghost Value = { PortData };

    ghost view = { port_inside };

    ghost invariant = { IsSound };
}

impl Book for PortBook {
    type Plain = PortEntry;

    type Opening = ThreadId;

    type Entry = PortEntry;

    ghost opening = { λ port. port.taker };

    ghost entries = { λ port. port.entries };

    ghost plain = { λ entry. entry };

    ghost by = { λ entry. entry.by.0 };

    ghost stamp = { λ entry. entry.stamp };

    ghost at_rest = { λ _. Unit {0} };

    fn last_stamp(&self) -> u64 {
        last_stamp(self.entries.as_slice())
    }

    fn len(&self) -> u64 {
        self.entries.len() as u64
    }

    fn entry(&self, place: u64) -> Result<Option<PortEntry>, NoMemory> {
        match self.entries.get(place as usize) {
            None => Ok(None),
            Some(entry) => Ok(Some(entry.try_clone(*self.entries.allocator())?)),
        }
    }

    fn rings(&self) -> Bells {
        match self.entries.last() {
            None => Bells::None,
            Some(entry) => entry.event.rings(),
        }
    }
}

// The stamp of the last entry, 0 where there is none.
fn last_stamp(entries: &[PortEntry]) -> u64
    ensures { result ≡ last_stamp_of stamp_number entries.now }
{
    entries.last().map_or(0, |entry| entry.stamp)
}

// Adds an entry of that event by the clock's thread, in room that was reserved.
fn enter(entries: &mut Vec<PortEntry>, clock: &mut Clock, event: PortEvent)
    requires room { vec_len entries.old < vec_capacity entries.old }
    requires time { clock.old.time < 2 ^ 63 }
    requires last { last_stamp_of stamp_number entries.old.items < 2 ^ 63 }
    ensures items { entries.new.items ≡ entries.old.items ++ entry_now clock.old entries.old.items event ∷ [] }
    ensures len { vec_len entries.new ≡ vec_len entries.old + 1 }
    ensures capacity { vec_capacity entries.new ≡ vec_capacity entries.old }
    ensures clock { clock.new ≡ clock_after clock.old entries.old.items }
{
    let stamp = clock.stamp(last_stamp(entries.as_slice()));
    entries.push_reserved(PortEntry {
        stamp,
        by: clock.thread,
        event,
    });
}

// Hands out the oldest item, with that position, in room that is there.
fn hand_one(pending: &mut VecDeque<Item>, out: &mut VecDeque<Taken>, position: u64)
    requires some { 0 < deque_len pending.old }
    requires room { deque_len out.old < deque_capacity out.old }
    ensures pending { pending.new.items ≡ drop 1 pending.old.items }
    ensures pending_len { deque_len pending.new + 1 ≡ deque_len pending.old }
    ensures pending_room { deque_capacity pending.new ≡ deque_capacity pending.old }
    ensures out { out.new.items ≡ out.old.items ++ numbered position (take 1 pending.old.items) }
    ensures out_len { deque_len out.new ≡ deque_len out.old + 1 }
    ensures out_room { deque_capacity out.new ≡ deque_capacity out.old }
{
    if let Some(item) = pending.pop_front() {
        out.push_back_reserved(Taken { position, item });
    }
}

// Hands out so many of the oldest items, with their positions from `first` on, in room that is there.
fn hand_out(pending: &mut VecDeque<Item>, out: &mut VecDeque<Taken>, first: u64, count: u32)
    requires count { count ≤ deque_len pending.old }
    requires room { deque_len out.old + count ≤ deque_capacity out.old }
    requires positions { first + count < 2 ^ 64 }
    ensures pending { pending.new.items ≡ drop count pending.old.items }
    ensures pending_len { deque_len pending.new + count ≡ deque_len pending.old }
    ensures pending_room { deque_capacity pending.new ≡ deque_capacity pending.old }
    ensures out { out.new.items ≡ out.old.items ++ numbered first (take count pending.old.items) }
    ensures out_room { deque_capacity out.new ≡ deque_capacity out.old }
{
    for k in 0..count {
        hand_one(pending, out, first + u64::from(k));
    }
}

// The event and the answer of a refused write.
fn event_of(refusal: Refusal) -> PortEvent
    ensures { result ≡ refused_event refusal }
{
    match refusal {
        Refusal::Closed => PortEvent::Refused,
        Refusal::Spent => PortEvent::Spent,
        Refusal::Full => PortEvent::Full,
    }
}

fn answer_of(refusal: Refusal, item: Item) -> WriteAnswer
    ensures { result ≡ refused_answer refusal item }
{
    match refusal {
        Refusal::Closed => WriteAnswer::Closed(item),
        Refusal::Spent => WriteAnswer::Spent(item),
        Refusal::Full => WriteAnswer::Full(item),
    }
}

// Makes room for so many more entries. False where there is no memory.
fn reserve(entries: &mut Vec<PortEntry>, more: usize) -> bool
    ensures items { entries.new.items ≡ entries.old.items }
    ensures len { vec_len entries.new ≡ vec_len entries.old }
    ensures capacity { vec_capacity entries.old ≤ vec_capacity entries.new }
    ensures room { result ≡ true → vec_len entries.new + more ≤ vec_capacity entries.new }
{
    entries.reserve(more).is_ok()
}

// How many entries are reserved: for the takes of so many items, for the Shut and for the Rest.
fn reserve_of(pending: usize, shut: bool, rested: bool) -> usize
    requires { pending < 2 ^ 63 }
    ensures { result ≡ pending + one_unless shut + one_unless rested }
{
    let shuts = if shut { 0 } else { 1 };
    let rests = if rested { 0 } else { 1 };
    pending + shuts + rests
}

impl PortBook {
    /// A port that was just made by the clock's thread, and its reserved entries.
    pub(crate) fn new(
        alloc: Global,
        capacity: u32,
        life: u32,
        taker: ThreadId,
        clock: &Clock,
    ) -> Result<PortBook, NoMemory>
        requires capacity { capacity ≤ capacity_limit }
        requires life { life ≤ life_limit }
        requires time { clock.now.time < 2 ^ 63 }
        ensures { IfOk result (λ port. port ≡ record { taker = taker; entries = making clock.now capacity life ∷ [] }) }
    {
        let pending = VecDeque::with_capacity(alloc, capacity as usize)?;
        let mut entries = Vec::with_capacity(alloc, 3)?;
        entries.push_reserved(PortEntry {
            stamp: clock.time + 1,
            by: clock.thread,
            event: PortEvent::Made { capacity, life },
        });
        Ok(PortBook {
            taker,
            capacity,
            life,
            entries,
            pending,
            written: 0,
            shut: false,
            rested: false,
        })
    }

    /// The thread that takes. The list is the history of a port with that taker. Takes no memory.
    pub fn taker(&self) -> ThreadId
        ensures value { result ≡ self.now.taker }
        ensures port { IsPortBook self.now }
    {
        self.taker
    }

    // Why a write is refused now.
    fn refusal(&self) -> Option<Refusal>
        ensures { result ≡ refusal_of (state_of self.now.entries) }
    {
        if self.shut {
            return Some(Refusal::Closed);
        }
        if self.written == u64::from(self.life) {
            return Some(Refusal::Spent);
        }
        if self.pending.len() == self.capacity as usize {
            return Some(Refusal::Full);
        }
        None
    }

    // How many items are pending.
    fn pending_len(&self) -> u32
        ensures count { result ≡ pending_count (state_of self.now.entries) }
        ensures within { result ≤ (state_of self.now.entries).capacity }
    {
        self.pending.len() as u32
    }

    // The position of the oldest pending item.
    fn oldest(&self) -> u64
        ensures { result ≡ (state_of self.now.entries).taken }
    {
        self.written - self.pending.len() as u64
    }

    // Writes the item where nothing refuses it.
    fn accept(&mut self, clock: &mut Clock, item: Item) -> WriteAnswer
        requires open { refusal_of (state_of self.old.entries) ≡ None }
        requires time { clock.old.time < 2 ^ 63 }
        requires last { last_stamp_of stamp_number self.old.entries < 2 ^ 63 }
        ensures added { HasAdded (write_entry result item) clock.old clock.new self.old self.new }
        ensures back { GivesBack result item }
        ensures not_full { IsFull result ≡ false }
        ensures port { IsPortBook self.new }
    {
        let Ok(copy) = item.try_clone(*self.entries.allocator()) else {
            return WriteAnswer::NoMemory(item);
        };
        let kept = reserve_of(self.pending.len(), self.shut, self.rested);
        // For this entry, for the one that takes the item, and what was reserved before.
        if !reserve(&mut self.entries, kept + 2) {
            return WriteAnswer::NoMemory(item);
        }
        let position = self.written;
        enter(
            &mut self.entries,
            clock,
            PortEvent::Written {
                position,
                item: copy,
            },
        );
        self.pending.push_back_reserved(item);
        self.written += 1;
        WriteAnswer::Wrote(position)
    }

    // Notes that the write was refused.
    fn refuse(&mut self, clock: &mut Clock, item: Item, refusal: Refusal) -> WriteAnswer
        requires refused { refusal_of (state_of self.old.entries) ≡ Some refusal }
        requires time { clock.old.time < 2 ^ 63 }
        requires last { last_stamp_of stamp_number self.old.entries < 2 ^ 63 }
        ensures added { HasAdded (write_entry result item) clock.old clock.new self.old self.new }
        ensures back { GivesBack result item }
        ensures full { IsFull result ≡ true → refusal ≡ Refusal.Full }
        ensures port { IsPortBook self.new }
    {
        let kept = reserve_of(self.pending.len(), self.shut, self.rested);
        if !reserve(&mut self.entries, kept + 1) {
            return WriteAnswer::NoMemory(item);
        }
        enter(&mut self.entries, clock, event_of(refusal));
        answer_of(refusal, item)
    }

    /// Whether a write that waits has to: as many items are pending as it holds, and nothing else refuses one.
    pub(crate) fn is_full(&self) -> bool
        ensures full { result ≡ true → LacksRoom self.now.entries }
        ensures free { result ≡ false → LacksRoom self.now.entries → ⊥ }
        ensures port { IsPortBook self.now }
    {
        // Reading the taker shows that the list is a port's.
        let _ = &self.taker;
        match self.refusal() {
            Some(Refusal::Full) => true,
            None | Some(Refusal::Closed | Refusal::Spent) => false,
        }
    }

    /// Writes the item, or notes why not.
    pub(crate) fn write(&mut self, clock: &mut Clock, item: Item) -> WriteAnswer
        requires time { clock.old.time < 2 ^ 63 }
        requires last { last_stamp_of stamp_number self.old.entries < 2 ^ 63 }
        ensures added { HasAdded (write_entry result item) clock.old clock.new self.old self.new }
        ensures back { GivesBack result item }
        ensures machine { IfSome (write_entry result item) (λ event. event ≡ write_event (state_of self.old.entries) item) }
        ensures full { IsFull result ≡ true → LacksRoom self.old.entries }
        ensures port { IsPortBook self.new }
    {
        // Reading the taker shows that the list is a port's.
        let _ = &self.taker;
        match self.refusal() {
            None => self.accept(clock, item),
            Some(refusal) => self.refuse(clock, item, refusal),
        }
    }

    // Takes the oldest pending items, as many as there are, but no more than `most`.
    fn take_oldest(&mut self, clock: &mut Clock, out: &mut VecDeque<Taken>, most: u32) -> u32
        requires taker { clock.old.thread ≡ self.old.taker }
        requires open { (state_of self.old.entries).shut ≡ false }
        requires some { 0 < pending_count (state_of self.old.entries) }
        requires most { 0 < most }
        requires room { deque_len out.old + (state_of self.old.entries).capacity ≤ deque_capacity out.old }
        requires time { clock.old.time < 2 ^ 63 }
        requires last { last_stamp_of stamp_number self.old.entries < 2 ^ 63 }
        ensures added { HasAdded (Some (PortEvent.Took result)) clock.old clock.new self.old self.new }
        ensures items { out.new.items ≡ out.old.items ++ last_taken result (state_of self.new.entries) }
        ensures count { result ≡ min most (result + pending_count (state_of self.new.entries)) }
        ensures room { deque_capacity out.new ≡ deque_capacity out.old }
        ensures port { IsPortBook self.new }
    {
        let count = most.min(self.pending_len());
        let first = self.oldest();
        hand_out(&mut self.pending, out, first, count);
        enter(&mut self.entries, clock, PortEvent::Took(count));
        count
    }

    // Takes what is pending, once, after the port was shut.
    fn take_rest(&mut self, clock: &mut Clock, out: &mut VecDeque<Taken>) -> u32
        requires taker { clock.old.thread ≡ self.old.taker }
        requires shut { (state_of self.old.entries).shut ≡ true }
        requires unrested { (state_of self.old.entries).rested ≡ false }
        requires room { deque_len out.old + (state_of self.old.entries).capacity ≤ deque_capacity out.old }
        requires time { clock.old.time < 2 ^ 63 }
        requires last { last_stamp_of stamp_number self.old.entries < 2 ^ 63 }
        ensures added { HasAdded (Some (PortEvent.Rest result)) clock.old clock.new self.old self.new }
        ensures items { out.new.items ≡ out.old.items ++ last_taken result (state_of self.new.entries) }
        ensures room { deque_capacity out.new ≡ deque_capacity out.old }
        ensures port { IsPortBook self.new }
    {
        let count = self.pending_len();
        let first = self.oldest();
        hand_out(&mut self.pending, out, first, count);
        enter(&mut self.entries, clock, PortEvent::Rest(count));
        self.rested = true;
        count
    }

    /// Takes the oldest pending items, or the rest where the port is shut. `None` where nothing is pending
    /// and the port is not shut.
    pub(crate) fn take(
        &mut self,
        clock: &mut Clock,
        out: &mut VecDeque<Taken>,
        most: u32,
    ) -> Option<TakeAnswer>
        requires taker { clock.old.thread ≡ self.old.taker }
        requires unrested { IsPortBook self.old → (state_of self.old.entries).rested ≡ false }
        requires most { 0 < most }
        requires room { IsPortBook self.old → deque_len out.old + (state_of self.old.entries).capacity ≤ deque_capacity out.old }
        requires time { clock.old.time < 2 ^ 63 }
        requires last { last_stamp_of stamp_number self.old.entries < 2 ^ 63 }
        ensures added { IfSome result (λ answer. HasAdded (Some (take_event answer)) clock.old clock.new self.old self.new) }
        ensures items { IfSome result (λ answer. out.new.items ≡ out.old.items ++ last_taken (take_count answer) (state_of self.new.entries)) }
        ensures count { IfSome result (λ answer. IfTook answer (λ k. k ≡ min most (k + pending_count (state_of self.new.entries)))) }
        ensures room { deque_capacity out.new ≡ deque_capacity out.old }
        ensures none { IfNone result (HasAdded None clock.old clock.new self.old self.new) }
        ensures nothing { IfNone result (out.new ≡ out.old) }
        ensures empty { IfNone result (LacksItems self.old.entries) }
        ensures port { IsPortBook self.new }
    {
        if self.shut {
            return Some(TakeAnswer::Rest(self.take_rest(clock, out)));
        }
        if self.pending.is_empty() {
            return None;
        }
        Some(TakeAnswer::Took(self.take_oldest(clock, out, most)))
    }

    /// Shuts the port. False, and nothing else, where it is shut.
    pub(crate) fn shut(&mut self, clock: &mut Clock) -> bool
        requires time { clock.old.time < 2 ^ 63 }
        requires last { last_stamp_of stamp_number self.old.entries < 2 ^ 63 }
        ensures shut { result ≡ true → HasAdded (Some PortEvent.Shut) clock.old clock.new self.old self.new }
        ensures same { result ≡ false → HasAdded None clock.old clock.new self.old self.new }
        ensures already { result ≡ false → (state_of self.old.entries).shut ≡ true }
        ensures port { IsPortBook self.new }
    {
        if self.shut {
            return false;
        }
        enter(&mut self.entries, clock, PortEvent::Shut);
        self.shut = true;
        true
    }
}
