ghost use Rattle.std.specs.Prelude.{◌≡◌, ◌+◌, ◌*◌, ◌-◌, ◌<◌, ◌≤◌, ◌^◌, ◌↔◌, [], ◌∷◌, ◌++◌, length, All, IsNone, None, Some, IfOk, IfErr, IfNone, IfSome, IsSome, IsTrue, OnOk, OnErr, option_map, slice_get, unwrap_or, vec_len, vec_capacity, max};
ghost use Rattle.ak_turn.specs.Entries.{last_stamp_of};
ghost use Rattle.ak_flatten.specs.Limits.{flat_limit};
ghost use Rattle.ak_port.specs.ReplyKept.{entry_seen, IsMoved, IsWithin};
ghost use Rattle.ak_port.specs.Reply.{HasFlatText, IsFlatText, IsLegal, FillsWith, IsFilled, IsSettled, none_text, open_stage, slots_after};

use crate::reply_entry::{CancelAnswer, FillAnswer, ReplyEntry, ReplyEvent};
use crate::reply_kept::{Kept, KeptEvent, Range};
use crate::reply_slot::{Progress, Slot};
use ak_base::{Bytes, Code, NoMemory, ThreadId};
use ak_flatten::{FLAT_LIMIT, flatten};
use ak_message::Message;
use ak_turn::{Bells, Book, Clock};
use std::alloc::Global;
use std::marker::Model;
use std::mem;

/// The slots that waiting senders open for replies, as the list of what was done to them, oldest first. A call
/// at a shared book asks of the seat that it is one there, has no turn, and is of the clock's thread. The seat
/// stays so. (The Be Book, The Application Kit, BMessenger: a synchronous SendMessage() waits for its reply.)
#[derive(Drop)]
pub struct ReplyBook {
    entries: Vec<Kept>,
    /// The texts of all entries. Each open slot has 4,096 bytes of it kept free.
    store: Vec<u8>,
    slots: Vec<Slot>,
    /// How many slots are open, and how many are filled and not taken.
    waiting: usize,
    filled: usize,
    /// The flat text that stands for no reply.
    none: Bytes,
}

impl Model for ReplyBook {
    ghost use Rattle.std.specs.Prelude.{List};
    ghost use Rattle.std.specs.Coded.{coded_list};
    ghost use Rattle.ak_port.specs.declared.reply_entry.ReplyEntry.{ReplyEntry};
    ghost use Rattle.ak_port.specs.contracts.reply_entry.ReplyEntry.{the_row};

    ghost Value = { List ReplyEntry };

    ghost coded = { coded_list the_row.coded };

    ghost use Rattle.ak_port.specs.ReplyInside.{entries_inside, IsSound};

    ghost view = { entries_inside };

    ghost invariant = { IsSound };
}

// The flat text that stands for no reply.
fn text_for_none(alloc: Global) -> Result<Bytes, NoMemory>
    ensures { IfOk result (λ bytes. bytes ≡ none_text) }
{
    match flatten(alloc, &Message::new(alloc, Code::NO_REPLY)) {
        Ok(text) => Ok(text),
        Err(_) => Err(NoMemory),
    }
}

fn copy_of(alloc: Global, text: &[u8]) -> Result<Bytes, NoMemory>
    ensures { IfOk result (λ bytes. bytes ≡ text.now) }
{
    let mut copy = Bytes::with_capacity(alloc, text.len())?;
    copy.extend(text)?;
    Ok(copy)
}

// Adds an entry in memory that was kept for it.
fn enter(entries: &mut Vec<Kept>, clock: &mut Clock, event: KeptEvent)
    requires room { vec_len entries.old < vec_capacity entries.old }
    requires time { clock.old.time < 2 ^ 63 }
    requires last { last_stamp_of (λ entry. entry.stamp) entries.old.items < 2 ^ 63 }
    ensures clock { clock.new ≡ record clock.old { time = 1 + max clock.old.time (last_stamp_of (λ entry. entry.stamp) entries.old.items) } }
    ensures entered { entries.new.items ≡ entries.old.items ++ (record { stamp = clock.new.time; by = clock.old.thread; event = event }) ∷ [] }
    ensures len { vec_len entries.new ≡ vec_len entries.old + 1 }
    ensures capacity { vec_capacity entries.old ≤ vec_capacity entries.new }
{
    let last = entries.last().map_or(0, |entry| entry.stamp);
    let stamp = clock.stamp(last);
    entries
        .push(Kept {
            stamp,
            by: clock.thread,
            event,
        })
        .unwrap();
}

// Adds a text in memory that was kept for it.
fn put(store: &mut Vec<u8>, text: &[u8]) -> Range
    requires room { vec_len store.old + length text.now ≤ vec_capacity store.old }
    ensures range { result ≡ record { from = length store.old.items; len = length text.now } }
    ensures store { store.new.items ≡ store.old.items ++ text.now }
    ensures len { vec_len store.new ≡ vec_len store.old + length text.now }
    ensures capacity { vec_capacity store.old ≤ vec_capacity store.new }
{
    let range = Range {
        from: store.len(),
        len: text.len(),
    };
    store.extend_from_slice(text).unwrap();
    range
}

// Whether there is such a slot, and it is so far.
fn is_at(slots: &[Slot], place: usize, progress: Progress) -> bool
    ensures { IsTrue result ↔ (option_map (λ slot. slot.progress) (slice_get slots.now place) ≡ Some progress) }
{
    match slots.get(place) {
        Some(slot) => slot.progress == progress,
        None => false,
    }
}

// An open slot is filled with the text, or with the one that it has for no reply.
fn fill_slot(slots: &mut Vec<Slot>, place: usize, flat: Option<Bytes>)
    requires { place < vec_len slots.old }
    ensures moved { IsMoved slots.old.items slots.new.items place Progress.Filled (λ old. unwrap_or flat old) }
    ensures len { vec_len slots.new ≡ vec_len slots.old }
{
    let slot = &mut slots[place];
    slot.progress = Progress::Filled;
    if let Some(text) = flat {
        slot.flat = text;
    }
}

// A slot is done with. Its bytes are given out.
fn close_slot(slots: &mut Vec<Slot>, place: usize, progress: Progress) -> Bytes
    requires { place < vec_len slots.old }
    ensures moved { IsMoved slots.old.items slots.new.items place progress (λ old. []) }
    ensures bytes { option_map (λ slot. slot.flat) (slice_get slots.old.items place) ≡ Some result }
{
    let nothing = Bytes::new(*slots.allocator());
    let slot = &mut slots[place];
    slot.progress = progress;
    mem::replace(&mut slot.flat, nothing)
}

// Keeps memory for one open slot more: for two entries of each open slot and one of each filled one, for the
// opening, for 4,096 bytes of each open slot, and for the slot itself. It answers a copy of the text for no reply.
fn make_room(
    entries: &mut Vec<Kept>,
    store: &mut Vec<u8>,
    slots: &mut Vec<Slot>,
    waiting: usize,
    filled: usize,
    none: &[u8],
) -> Result<Bytes, NoMemory>
    requires entries { vec_len entries.old + (2 * waiting + filled) ≤ vec_capacity entries.old }
    requires bytes { vec_len store.old + flat_limit * waiting ≤ vec_capacity store.old }
    ensures entries { (entries.new.items ≡ entries.old.items) × (vec_len entries.new ≡ vec_len entries.old) }
    ensures bytes { (store.new.items ≡ store.old.items) × (vec_len store.new ≡ vec_len store.old) }
    ensures slots { (slots.new.items ≡ slots.old.items) × (vec_len slots.new ≡ vec_len slots.old) }
    ensures entries_grow { vec_capacity entries.old ≤ vec_capacity entries.new }
    ensures bytes_grow { vec_capacity store.old ≤ vec_capacity store.new }
    ensures entries_room { OnOk result (vec_len entries.new + (2 * waiting + filled + 3) ≤ vec_capacity entries.new) }
    ensures bytes_room { OnOk result (vec_len store.new + flat_limit * (waiting + 1) ≤ vec_capacity store.new) }
    ensures slots_room { OnOk result (vec_len slots.new < vec_capacity slots.new) }
    ensures copy { IfOk result (λ bytes. bytes ≡ none.now) }
{
    entries.reserve(2 * waiting + filled + 3)?;
    store.reserve(FLAT_LIMIT * (waiting + 1))?;
    slots.reserve(1)?;
    Ok(copy_of(*slots.allocator(), none)?)
}

// Adds an open slot in memory that was kept for it.
fn add_slot(slots: &mut Vec<Slot>, opener: ThreadId, flat: Bytes)
    requires { vec_len slots.old < vec_capacity slots.old }
    ensures { slots.new.items ≡ slots.old.items ++ (record { opener = opener; progress = Progress.Open; flat = flat }) ∷ [] }
{
    slots
        .push(Slot {
            opener,
            progress: Progress::Open,
            flat,
        })
        .unwrap();
}

// A copy of an entry, whose text stands in the store.
fn shown(alloc: Global, store: &[u8], entry: &Kept) -> Result<ReplyEntry, NoMemory>
    requires { IsWithin (length store.now) entry.now.event }
    ensures { IfOk result (λ copy. copy ≡ entry_seen store.now entry.now) }
{
    let event = match entry.event {
        KeptEvent::Opened(n) => ReplyEvent::Opened(n),
        KeptEvent::Filled(n, range) => {
            let text = &store[range.from..range.from + range.len];
            ReplyEvent::Filled(n, copy_of(alloc, text)?)
        }
        KeptEvent::Cancelled(n) => ReplyEvent::Cancelled(n),
        KeptEvent::Taken(n) => ReplyEvent::Taken(n),
    };
    Ok(ReplyEntry {
        stamp: entry.stamp,
        by: entry.by,
        event,
    })
}

impl ReplyBook {
    ghost use Rattle.ak_turn.specs.declared.clock.Clock.{Clock};
    ghost use Rattle.ak_port.specs.ReplySeats.{clock_after, entry_at, stamp_of, IsItsSlot, MayCancel, MayTake};

    /// A book without slots and without entries, or `NoMemory` where memory ran out.
    pub fn new(alloc: Global) -> Result<ReplyBook, NoMemory>
        ensures { IfOk result (λ book. book ≡ []) }
    {
        let none = text_for_none(alloc)?;
        Ok(ReplyBook {
            entries: Vec::new(alloc),
            store: Vec::new(alloc),
            slots: Vec::new(alloc),
            waiting: 0,
            filled: 0,
            none,
        })
    }

    /// How many slots were opened. The list is a legal one, and each text in it is a flat text. Takes no memory.
    pub fn slots(&self) -> u64
        ensures count { result ≡ length (slots_after self.now) }
        ensures legal { IsLegal self.now }
        ensures texts { All (λ entry. HasFlatText entry.event) self.now }
    {
        self.slots.len() as u64
    }

    // Opens the next slot, and keeps the memory for all that may become of it.
    pub(crate) fn open_slot(&mut self, clock: &mut Clock) -> Result<u64, NoMemory>
        requires time { clock.old.time < 2 ^ 63 }
        requires last { last_stamp_of stamp_of self.old < 2 ^ 63 }
        ensures legal { IsLegal self.new }
        ensures entered { IfOk result (λ n. self.new ≡ self.old ++ entry_at clock.new (ReplyEvent.Opened n) ∷ []) }
        ensures clock { OnOk result (clock.new ≡ clock_after clock.old self.old) }
        ensures err { OnErr result (self.new ≡ self.old) }
        ensures err_clock { OnErr result (clock.new ≡ clock.old) }
    {
        let n = self.slots.len() as u64;
        let room = make_room(
            &mut self.entries,
            &mut self.store,
            &mut self.slots,
            self.waiting,
            self.filled,
            self.none.as_slice(),
        );
        let Ok(flat) = room else {
            return Err(NoMemory);
        };
        add_slot(&mut self.slots, clock.thread, flat);
        self.waiting += 1;
        enter(&mut self.entries, clock, KeptEvent::Opened(n));
        Ok(n)
    }

    // Fills the slot with the text, or with the one for no reply. An `Err` gives the text back: there is no such
    // slot yet.
    pub(crate) fn fill(
        &mut self,
        clock: &mut Clock,
        n: u64,
        flat: Option<Bytes>,
    ) -> Result<FillAnswer, Option<Bytes>>
        requires time { clock.old.time < 2 ^ 63 }
        requires last { last_stamp_of stamp_of self.old < 2 ^ 63 }
        requires text { IfSome flat IsFlatText }
        ensures legal { IsLegal self.new }
        ensures filled { result ≡ Ok FillAnswer.Filled → self.new ≡ self.old ++ entry_at clock.new (ReplyEvent.Filled n (unwrap_or flat none_text)) ∷ [] }
        ensures clock { result ≡ Ok FillAnswer.Filled → clock.new ≡ clock_after clock.old self.old }
        ensures settled { result ≡ Ok FillAnswer.Duplicate → IsSettled n self.new }
        ensures duplicate { result ≡ Ok FillAnswer.Duplicate → self.new ≡ self.old }
        ensures duplicate_clock { result ≡ Ok FillAnswer.Duplicate → clock.new ≡ clock.old }
        ensures unopened { IfErr result (λ text. text ≡ flat) }
        ensures early { OnErr result (length (slots_after self.old) ≤ n) }
        ensures err { OnErr result (self.new ≡ self.old) }
        ensures err_clock { OnErr result (clock.new ≡ clock.old) }
    {
        let place = n as usize;
        if place >= self.slots.len() {
            return Err(flat);
        }
        if !is_at(&self.slots, place, Progress::Open) {
            return Ok(FillAnswer::Duplicate);
        }
        fill_slot(&mut self.slots, place, flat);
        self.waiting -= 1;
        self.filled += 1;
        let range = put(&mut self.store, self.slots[place].flat.as_slice());
        enter(&mut self.entries, clock, KeptEvent::Filled(n, range));
        Ok(FillAnswer::Filled)
    }

    // Cancels an open slot of the clock's thread.
    pub(crate) fn cancel(&mut self, clock: &mut Clock, n: u64) -> CancelAnswer
        requires time { clock.old.time < 2 ^ 63 }
        requires last { last_stamp_of stamp_of self.old < 2 ^ 63 }
        requires own { IsLegal self.old → MayCancel clock.old.thread.0 n self.old }
        ensures legal { IsLegal self.new }
        ensures cancelled { result ≡ CancelAnswer.Cancelled → self.new ≡ self.old ++ entry_at clock.new (ReplyEvent.Cancelled n) ∷ [] }
        ensures clock { result ≡ CancelAnswer.Cancelled → clock.new ≡ clock_after clock.old self.old }
        ensures filled { result ≡ CancelAnswer.Duplicate → IsFilled n self.new }
        ensures duplicate { result ≡ CancelAnswer.Duplicate → self.new ≡ self.old }
        ensures duplicate_clock { result ≡ CancelAnswer.Duplicate → clock.new ≡ clock.old }
    {
        let place = n as usize;
        if !is_at(&self.slots, place, Progress::Open) {
            return CancelAnswer::Duplicate;
        }
        let _none = close_slot(&mut self.slots, place, Progress::Cancelled);
        self.waiting -= 1;
        enter(&mut self.entries, clock, KeptEvent::Cancelled(n));
        CancelAnswer::Cancelled
    }

    // Takes out what a slot of the clock's thread was filled with. `None` where it is still open.
    pub(crate) fn take(&mut self, clock: &mut Clock, n: u64) -> Option<Bytes>
        requires time { clock.old.time < 2 ^ 63 }
        requires last { last_stamp_of stamp_of self.old < 2 ^ 63 }
        requires own { IsLegal self.old → MayTake clock.old.thread.0 n self.old }
        ensures legal { IsLegal self.new }
        ensures taken { IsSome result → self.new ≡ self.old ++ entry_at clock.new (ReplyEvent.Taken n) ∷ [] }
        ensures clock { IsSome result → clock.new ≡ clock_after clock.old self.old }
        ensures filled { IfSome result (λ flat. FillsWith n flat self.new) }
        ensures text { IfSome result IsFlatText }
        ensures open { IfNone result (IsItsSlot clock.old.thread.0 n open_stage self.old) }
        ensures waits { IfNone result (self.new ≡ self.old) }
        ensures waits_clock { IfNone result (clock.new ≡ clock.old) }
    {
        let place = n as usize;
        if !is_at(&self.slots, place, Progress::Filled) {
            return None;
        }
        let flat = close_slot(&mut self.slots, place, Progress::Taken);
        self.filled -= 1;
        enter(&mut self.entries, clock, KeptEvent::Taken(n));
        Some(flat)
    }
}

impl Book for ReplyBook {
    type Plain = ReplyEntry;

    type Opening = ();

    type Entry = ReplyEntry;

    ghost opening = { λ _. tt };

    ghost entries = { λ book. book };

    ghost plain = { λ entry. entry };

    ghost by = { λ entry. entry.by.0 };

    ghost stamp = { λ entry. entry.stamp };

    ghost at_rest = { λ _. Unit {0} };

    fn last_stamp(&self) -> u64 {
        self.entries.last().map_or(0, |entry| entry.stamp)
    }

    fn len(&self) -> u64 {
        self.entries.len() as u64
    }

    fn entry(&self, place: u64) -> Result<Option<ReplyEntry>, NoMemory> {
        let Some(entry) = self.entries.get(place as usize) else {
            return Ok(None);
        };
        Ok(Some(shown(*self.store.allocator(), &self.store, entry)?))
    }

    fn rings(&self) -> Bells {
        match self.entries.last() {
            None => Bells::None,
            Some(entry) => entry.event.rings(),
        }
    }
}
