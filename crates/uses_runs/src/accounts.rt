//! What holds of a looper's port in every schedule.

use ak_base::Bytes;
use ak_port::{PortBook, PortEntry, PortEvent};
use ak_roster::{RosterEntry, RosterEvent};
use ak_turn::Book;
use run_lists::{Account, Told, tell};
use std::alloc::Global;

/// Tells how many items the looper left beside so many that are known.
pub fn tell_left(out: &mut Bytes, account: Account, known: u64) -> Told {
    tell(out, b"left beside those", account.left.wrapping_sub(known))?;
    out.push(b'\n')
}

// ---- who wrote
fn is_try(entry: &PortEntry, thread: u32) -> bool {
    let tries = match &entry.event {
        PortEvent::Written { .. } | PortEvent::Full | PortEvent::Refused | PortEvent::Spent => true,
        PortEvent::Made { .. } | PortEvent::Took(_) | PortEvent::Rest(_) | PortEvent::Shut => false,
    };
    tries && entry.by.0 == thread
}

/// Tells how many writes that thread tried at the port, whatever they came to.
pub fn tell_tries(out: &mut Bytes, port: &PortBook, thread: u32) -> Told {
    let mut count = 0_u64;
    for place in 0..port.len() {
        if let Some(entry) = port.entry(place)? {
            if is_try(&entry, thread) {
                count = count.wrapping_add(1);
            }
        }
    }
    tell(out, b"tries", count)?;
    tell(out, b"by", u64::from(thread))?;
    out.push(b'\n')
}

// ---- a closing
fn add_shut(stamps: &mut Vec<u64>, port: &PortBook) -> Told {
    for place in 0..port.len() {
        if let Some(entry) = port.entry(place)? {
            if let PortEvent::Shut = entry.event {
                stamps.push(entry.stamp)?;
            }
        }
    }
    Ok(())
}

fn add_gone(stamps: &mut Vec<u64>, roster: &[RosterEntry], team: u32) -> Told {
    for entry in roster {
        if let RosterEvent::Gone { team: gone } = entry.event {
            if gone == team {
                stamps.push(entry.stamp)?;
            }
        }
    }
    Ok(())
}

fn do_rise(stamps: &[u64]) -> bool {
    let mut last = 0;
    for stamp in stamps {
        if *stamp <= last {
            return false;
        }
        last = *stamp;
    }
    true
}

/// Tells whether the team was gone first, and then its ports were shut in their order, each of this once.
pub fn tell_closing(
    out: &mut Bytes,
    alloc: Global,
    roster: &[RosterEntry],
    team: u32,
    ports: &[PortBook],
) -> Told {
    let mut stamps = Vec::new(alloc);
    add_gone(&mut stamps, roster, team)?;
    for port in ports {
        add_shut(&mut stamps, port)?;
    }
    tell(out, b"team", u64::from(team))?;
    let is_whole = stamps.len() == ports.len().wrapping_add(1);
    if is_whole && do_rise(&stamps) {
        out.extend(b" was closed in order\n")
    } else {
        out.extend(b" was not closed in order\n")
    }
}
