//! What became of each slot of the reply book, and of those who waited on it, counted.

use crate::telling::{Told, tell, thread_of};
use ak_base::{Bytes, NoMemory};
use ak_flatten::Duty;
use ak_port::{PortBook, PortEvent, ReplyBook, ReplyEntry, ReplyEvent};
use ak_turn::Book;
use std::alloc::Global;

/// How often a slot was opened, filled, cancelled and taken from; who opened it, and who filled it. How many items with the duty to
/// fill it were accepted, and the looper to whose port the last of them came. And whether all of that was in its order.
#[derive(Clone, Copy, Debug, PartialEq, Eq)]
pub struct SlotAccount {
    pub opened: u64,
    pub opener: u32,
    pub filled: u64,
    pub filler: u32,
    pub cancelled: u64,
    pub taken: u64,
    pub items: u64,
    pub looper: u32,
    pub in_order: bool,
}

const UNUSED: SlotAccount = SlotAccount {
    opened: 0,
    opener: 0,
    filled: 0,
    filler: 0,
    cancelled: 0,
    taken: 0,
    items: 0,
    looper: 0,
    in_order: true,
};

impl SlotAccount {
    /// Whether the slot was opened once, and then either cancelled once with nothing accepted, or filled once, by the looper to
    /// which the item came last, and taken from once by the one that waits.
    pub fn is_settled_once(self) -> bool {
        let sent = self.items > 0;
        self.in_order
            && self.opened == 1
            && self.filled == u64::from(sent)
            && self.taken == u64::from(sent)
            && self.cancelled == u64::from(!sent)
            && (!sent || self.filler == thread_of(self.looper))
    }

    fn is_open(self) -> bool {
        self.opened == 1 && self.filled == 0 && self.cancelled == 0
    }
}

/// The slot that the event is of.
pub fn slot_of(event: &ReplyEvent) -> u64 {
    match event {
        ReplyEvent::Opened(slot)
        | ReplyEvent::Filled(slot, _)
        | ReplyEvent::Cancelled(slot)
        | ReplyEvent::Taken(slot) => *slot,
    }
}

// ---- the book
fn with_opening(account: SlotAccount, thread: u32) -> SlotAccount {
    SlotAccount {
        opened: account.opened.wrapping_add(1),
        opener: thread,
        ..account
    }
}

fn with_filling(account: SlotAccount, thread: u32) -> SlotAccount {
    SlotAccount {
        filled: account.filled.wrapping_add(1),
        filler: thread,
        in_order: account.in_order && account.is_open(),
        ..account
    }
}

fn with_cancelling(account: SlotAccount, thread: u32) -> SlotAccount {
    SlotAccount {
        cancelled: account.cancelled.wrapping_add(1),
        in_order: account.in_order && account.is_open() && thread == account.opener,
        ..account
    }
}

fn with_taking(account: SlotAccount, thread: u32) -> SlotAccount {
    SlotAccount {
        taken: account.taken.wrapping_add(1),
        in_order: account.in_order && account.filled == 1 && thread == account.opener,
        ..account
    }
}

fn with_entry(account: SlotAccount, entry: &ReplyEntry) -> SlotAccount {
    let thread = entry.by.0;
    match &entry.event {
        ReplyEvent::Opened(_) => with_opening(account, thread),
        ReplyEvent::Filled(_, _) => with_filling(account, thread),
        ReplyEvent::Cancelled(_) => with_cancelling(account, thread),
        ReplyEvent::Taken(_) => with_taking(account, thread),
    }
}

fn unused(alloc: Global, slots: u64) -> Result<Vec<SlotAccount>, NoMemory> {
    let mut accounts = Vec::new(alloc);
    for _ in 0..slots {
        accounts.push(UNUSED)?;
    }
    Ok(accounts)
}

fn add_book(accounts: &mut Vec<SlotAccount>, book: &ReplyBook) -> Told {
    for place in 0..book.len() {
        if let Some(entry) = book.entry(place)? {
            if let Some(account) = accounts.get_mut(slot_of(&entry.event) as usize) {
                *account = with_entry(*account, &entry);
            }
        }
    }
    Ok(())
}

// ---- the ports
// The first item is the opener's, and each other one comes from the looper that had it before.
fn with_item(account: SlotAccount, looper: u32, thread: u32) -> SlotAccount {
    let is_first = account.items == 0;
    let sender = if is_first {
        account.opener
    } else {
        thread_of(account.looper)
    };
    SlotAccount {
        items: account.items.wrapping_add(1),
        looper,
        in_order: account.in_order && thread == sender && (is_first || account.looper < looper),
        ..account
    }
}

// The slot that an item which was written is to fill.
fn slot_owed(event: &PortEvent) -> Option<u64> {
    match event {
        PortEvent::Written { item, .. } => match item.duty() {
            Duty::Slot(slot) => Some(slot),
            Duty::None | Duty::Back(_) => None,
        },
        PortEvent::Made { .. }
        | PortEvent::Full
        | PortEvent::Refused
        | PortEvent::Spent
        | PortEvent::Took(_)
        | PortEvent::Rest(_)
        | PortEvent::Shut => None,
    }
}

fn add_item(accounts: &mut Vec<SlotAccount>, looper: u32, thread: u32, slot: u64) {
    if let Some(account) = accounts.get_mut(slot as usize) {
        *account = with_item(*account, looper, thread);
    }
}

fn add_port(accounts: &mut Vec<SlotAccount>, looper: u32, port: &PortBook) -> Told {
    for place in 0..port.len() {
        if let Some(entry) = port.entry(place)? {
            if let Some(slot) = slot_owed(&entry.event) {
                add_item(accounts, looper, entry.by.0, slot);
            }
        }
    }
    Ok(())
}

fn add_ports(accounts: &mut Vec<SlotAccount>, ports: &[PortBook]) -> Told {
    let mut looper = 0_u32;
    for port in ports {
        add_port(accounts, looper, port)?;
        looper = looper.wrapping_add(1);
    }
    Ok(())
}

// ---- all slots
/// What became of each slot, in the order of their numbers. `NoMemory` where memory ran out.
pub fn slot_accounts(
    alloc: Global,
    book: &ReplyBook,
    ports: &[PortBook],
) -> Result<Vec<SlotAccount>, NoMemory> {
    let mut accounts = unused(alloc, book.slots())?;
    add_book(&mut accounts, book)?;
    add_ports(&mut accounts, ports)?;
    Ok(accounts)
}

/// Of how many of these slots the one that waited took a reply.
pub fn count_answered(accounts: &[SlotAccount]) -> u64 {
    let mut answered = 0_u64;
    for account in accounts {
        answered = answered.wrapping_add(account.taken);
    }
    answered
}

fn tell_slot(out: &mut Bytes, slot: u64, account: SlotAccount) -> Told {
    tell(out, b"slot", slot)?;
    tell(out, b"opened", account.opened)?;
    tell(out, b"by", u64::from(account.opener))?;
    tell(out, b"filled", account.filled)?;
    tell(out, b"by", u64::from(account.filler))?;
    tell(out, b"cancelled", account.cancelled)?;
    tell(out, b"taken", account.taken)?;
    tell(out, b"accepted", account.items)?;
    tell(out, b"last at looper", u64::from(account.looper))?;
    out.extend(if account.in_order {
        b"\n".as_slice()
    } else {
        b" out of order\n"
    })
}

/// Tells of each slot that was not settled once, in a line, what was counted.
pub(crate) fn tell_unsettled(out: &mut Bytes, accounts: &[SlotAccount]) -> Told {
    let mut slot = 0_u64;
    for account in accounts {
        if !account.is_settled_once() {
            tell_slot(out, slot, *account)?;
        }
        slot = slot.wrapping_add(1);
    }
    Ok(())
}
