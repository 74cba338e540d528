//! What is faulty of a run's lists.

use crate::accounts::{account_of, tell_account};
use crate::fresh::fresh;
use crate::openings::{Opening, openings};
use crate::replays::{Given, accepted, list_again};
use crate::replies::{Fills, read_fills};
use crate::slots::{slot_accounts, tell_unsettled};
use crate::stop::{Difference, Stop};
use crate::telling::{Told, tell, thread_of};
use ak_action::LooperPlan;
use ak_base::{Bytes, NoMemory};
use ak_desk::Desk;
use ak_diary::Histories;
use ak_port::PortBook;
use std::alloc::Global;

// ---- what was counted
fn tell_counts(out: &mut Bytes, looper: u32, port: &PortBook, desk: &Desk) -> Told {
    let account = account_of(looper, port, desk)?;
    if account.is_whole() {
        Ok(())
    } else {
        tell_account(out, looper, account)
    }
}

// ---- what the rules make of it
fn name_of(difference: Difference) -> &'static [u8] {
    match difference {
        Difference::Desk => b"desk",
        Difference::Item => b"item",
        Difference::Edit => b"answer to the edit",
        Difference::Route => b"route",
        Difference::Words => b"words",
        Difference::Quit => b"mark of its end",
        Difference::Reply => b"reply",
        Difference::Left => b"reply to what was left",
    }
}

fn tell_difference(out: &mut Bytes, looper: u32, place: u64, difference: Difference) -> Told {
    tell(out, b"looper", u64::from(looper))?;
    tell(out, b"entry", place)?;
    out.extend(b" another ")?;
    out.extend(name_of(difference))?;
    out.push(b'\n')
}

// Of the looper that stands there.
fn tell_again(
    out: &mut Bytes,
    alloc: Global,
    looper: u32,
    opening: &Opening<'_>,
    port: &PortBook,
    desk: &Desk,
    fills: &Fills<'_>,
) -> Told {
    let Some(again) = fresh(alloc, looper, opening, desk.state())? else {
        return tell_difference(out, looper, 0, Difference::Desk);
    };
    let items = accepted(alloc, port)?;
    let given = Given {
        items: &items,
        fills,
        thread: thread_of(looper),
    };
    match list_again(alloc, again, given, desk) {
        (place, Err(Stop::Differs(difference))) => tell_difference(out, looper, place, difference),
        (_, Err(Stop::NoMemory)) => Err(NoMemory),
        (_, Ok(()) | Err(Stop::Starved)) => Ok(()),
    }
}

// ---- all of them
fn tell_loopers(
    out: &mut Bytes,
    alloc: Global,
    openings: &[Opening<'_>],
    histories: &Histories,
) -> Told {
    let fills = read_fills(alloc, &histories.book)?;
    let mut looper = 0_u32;
    let objects = histories.ports.iter().zip(histories.desks.iter());
    for ((port, desk), opening) in objects.zip(openings.iter()) {
        tell_counts(out, looper, port, desk)?;
        tell_again(out, alloc, looper, opening, port, desk, &fills)?;
        looper = looper.wrapping_add(1);
    }
    Ok(())
}

// Each looper that was started has a port and a desk.
fn tell_numbers(out: &mut Bytes, started: usize, ports: usize, desks: usize) -> Told {
    if ports == started && desks == started {
        return Ok(());
    }
    out.extend(b" there is not a port and a desk for each looper\n")
}

/// Tells what is faulty, in a line for each looper and each slot that it is of; nothing where nothing is. `apps` are the plans of the
/// loopers of each application that was described, in order.
pub fn tell_faults(
    out: &mut Bytes,
    alloc: Global,
    apps: &[&[LooperPlan]],
    histories: &Histories,
) -> Told {
    let openings = openings(alloc, apps, &histories.roster)?;
    let Histories { ports, desks, .. } = histories;
    tell_numbers(out, openings.len(), ports.len(), desks.len())?;
    tell_loopers(out, alloc, &openings, histories)?;
    let slots = slot_accounts(alloc, &histories.book, &histories.ports)?;
    tell_unsettled(out, &slots)
}
