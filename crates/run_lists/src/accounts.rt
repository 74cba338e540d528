//! What the lists of a looper's port and desk have, counted.

use crate::telling::{Told, tell, thread_of};
use ak_base::{Bytes, NoMemory};
use ak_desk::{Desk, DeskEvent};
use ak_port::{PortBook, PortEvent};
use ak_turn::Book;

/// How many items were written, taken one after the other, and left for the last take; how many were dispatched; how often
/// there was a last take, and how often the port was shut. And whether each was in its place: written and dispatched as
/// 0, 1, 2 and so on, nothing written behind the closing, nothing taken behind the last take; and whether the looper's thread
/// alone took and dispatched.
#[derive(Clone, Copy, Debug, PartialEq, Eq)]
pub struct Account {
    pub written: u64,
    pub taken: u64,
    pub left: u64,
    pub dispatched: u64,
    pub rests: u64,
    pub shut: u64,
    pub in_order: bool,
    pub by_its_thread: bool,
}

const NOTHING: Account = Account {
    written: 0,
    taken: 0,
    left: 0,
    dispatched: 0,
    rests: 0,
    shut: 0,
    in_order: true,
    by_its_thread: true,
};

impl Account {
    /// Whether the items that were written are those that were dispatched, and then those that were left.
    pub fn is_whole(self) -> bool {
        self.in_order
            && self.by_its_thread
            && self.rests == 1
            && self.shut == 1
            && self.dispatched == self.taken
            && self.written == self.taken.wrapping_add(self.left)
    }
}

// Of one entry of the port more.
fn with_port_event(account: Account, event: &PortEvent, is_own: bool) -> Account {
    let mut next = account;
    match event {
        PortEvent::Written { position, .. } => {
            next.in_order = account.in_order && account.shut == 0 && *position == account.written;
            next.written = account.written.wrapping_add(1);
        }
        PortEvent::Took(count) => {
            next.in_order = account.in_order && account.rests == 0 && *count == 1;
            next.by_its_thread = account.by_its_thread && is_own;
            next.taken = account.taken.wrapping_add(u64::from(*count));
        }
        PortEvent::Rest(count) => {
            next.in_order = account.in_order && account.shut == 1;
            next.by_its_thread = account.by_its_thread && is_own;
            next.rests = account.rests.wrapping_add(1);
            next.left = account.left.wrapping_add(u64::from(*count));
        }
        PortEvent::Shut => next.shut = account.shut.wrapping_add(1),
        PortEvent::Made { .. } | PortEvent::Full | PortEvent::Refused | PortEvent::Spent => {}
    }
    next
}

// Of one entry of the desk more.
fn with_desk_event(account: Account, event: &DeskEvent, is_own: bool) -> Account {
    match event {
        DeskEvent::Dispatched { position, .. } => Account {
            in_order: account.in_order && *position == account.dispatched,
            by_its_thread: account.by_its_thread && is_own,
            dispatched: account.dispatched.wrapping_add(1),
            ..account
        },
        DeskEvent::Edited { .. } => account,
    }
}

fn with_port(account: Account, port: &PortBook, thread: u32) -> Result<Account, NoMemory> {
    let mut account = account;
    for place in 0..port.len() {
        if let Some(entry) = port.entry(place)? {
            account = with_port_event(account, &entry.event, entry.by.0 == thread);
        }
    }
    Ok(account)
}

fn with_desk(account: Account, desk: &Desk, thread: u32) -> Result<Account, NoMemory> {
    let mut account = account;
    for place in 0..desk.len() {
        if let Some(entry) = desk.entry(place)? {
            account = with_desk_event(account, &entry.event, entry.by.0 == thread);
        }
    }
    Ok(account)
}

/// Counts what the looper's port and desk have. `NoMemory` where memory ran out.
pub fn account_of(looper: u32, port: &PortBook, desk: &Desk) -> Result<Account, NoMemory> {
    let thread = thread_of(looper);
    with_desk(with_port(NOTHING, port, thread)?, desk, thread)
}

/// Tells in a line that the looper accounts for all, or else what was counted.
pub fn tell_account(out: &mut Bytes, looper: u32, account: Account) -> Told {
    tell(out, b"looper", u64::from(looper))?;
    if account.is_whole() {
        return out.extend(b" accounts for all\n");
    }
    tell(out, b"written", account.written)?;
    tell(out, b"taken", account.taken)?;
    tell(out, b"left", account.left)?;
    tell(out, b"dispatched", account.dispatched)?;
    tell(out, b"last takes", account.rests)?;
    tell(out, b"shut", account.shut)?;
    out.extend(match (account.in_order, account.by_its_thread) {
        (true, true) => b"\n".as_slice(),
        (false, true) => b" out of order\n",
        (true, false) => b" by another thread\n",
        (false, false) => b" out of order by another thread\n",
    })
}
