//! The handlers through which a message goes, so that a route can be timed.

use crate::fault::BenchFault;
use crate::held::Held;
use ak_base::{Code, Text};
use ak_filter::{DeliveryIs, Filter, FilterList, SourceIs};
use ak_handler::{HandlerSet, LOOPER};
use ak_message::{Message, Target};
use ak_property::PropertyTable;
use ak_route::{Place, Route, Taker, route};
use std::alloc::Global;

/// What is sent: every looper takes it, and no handler else.
const SENT: Code = Code::QUIT_REQUESTED;

/// How many handlers a looper has, itself counted, and how many filters each of them has.
#[derive(Clone, Copy)]
pub struct Shape {
    pub handlers: u32,
    pub filters: u32,
}

/// Routes a message that many times, and answers how often it came to the looper. With filters it is
/// for the looper, and the last filter of each handler passes it to the next one; without filters it is for
/// the last handler. From there all of them are asked, down to the looper.
pub fn deliveries(alloc: Global, shape: Shape, rounds: u32) -> Result<u64, BenchFault> {
    let set = handlers(alloc, shape)?;
    let common = FilterList::new(alloc);
    let mut message = Message::new(alloc, SENT);
    let first = first_target(shape);
    let place = Place::other();
    let mut count: u64 = 0;
    for _ in 0..rounds {
        if is_at_the_looper(route(&set, &common, &mut message, true, false, first, &place)) {
            count = count.wrapping_add(1);
        }
    }
    Ok(count)
}

fn is_at_the_looper(route: Route) -> bool {
    route
        == Route::Deliver {
            token: LOOPER,
            taker: Taker::BuiltIn,
        }
}

fn first_target(shape: Shape) -> Target {
    if shape.filters == 0 {
        Target::Preferred
    } else {
        Target::Token(LOOPER)
    }
}

/// The looper and the handlers after it: the next one of each is the one before it, and the last one is
/// preferred.
fn handlers(alloc: Global, shape: Shape) -> Result<HandlerSet<Held>, BenchFault> {
    let mut set = looper(alloc, shape)?;
    for place in 1..shape.handlers {
        let token = add_handler(&mut set, alloc, shape, place)?;
        link_handler(&mut set, token)?;
    }
    Ok(set)
}

/// The looper alone.
fn looper(alloc: Global, shape: Shape) -> Result<HandlerSet<Held>, BenchFault> {
    let looper = held(alloc, shape, 0)?;
    Ok(HandlerSet::new(alloc, name(alloc, 0)?, looper)?)
}

/// The handler at that place, and its token.
fn add_handler(
    set: &mut HandlerSet<Held>,
    alloc: Global,
    shape: Shape,
    place: u32,
) -> Result<u64, BenchFault> {
    let handler = held(alloc, shape, place)?;
    Ok(set.add(name(alloc, place)?, handler)?)
}

/// Its next one is the one before it, and it is preferred.
fn link_handler(set: &mut HandlerSet<Held>, token: u64) -> Result<(), BenchFault> {
    set.set_next(token, token.checked_sub(1))?;
    set.set_preferred(Some(token))?;
    Ok(())
}

// The last digit of the number.
fn last_digit(number: u32) -> u8 {
    b'0' + (number % 10) as u8
}

// Two digits for the place.
fn name(alloc: Global, place: u32) -> Result<Text, BenchFault> {
    let name = [last_digit(place / 10), last_digit(place)];
    Ok(Text::from_bytes(alloc, name.as_slice())?)
}

/// The name of the handler after that place, if there is one.
fn name_after(alloc: Global, shape: Shape, place: u32) -> Result<Option<Text>, BenchFault> {
    let next = place.saturating_add(1);
    if next < shape.handlers {
        return Ok(Some(name(alloc, next)?));
    }
    Ok(None)
}

/// What the handler at that place holds: no property, its filters, and a reaction to another code.
fn held(alloc: Global, shape: Shape, place: u32) -> Result<Held, BenchFault> {
    let to = name_after(alloc, shape, place)?;
    Ok(Held {
        filters: filters(alloc, shape.filters, to)?,
        table: PropertyTable::new(alloc),
        reaction: Code::REPLY,
    })
}

/// That many filters which let the message be, but the last one passes it to that name.
fn filters(alloc: Global, count: u32, to: Option<Text>) -> Result<FilterList, BenchFault> {
    let mut list = FilterList::new(alloc);
    if count == 0 {
        return Ok(list);
    }
    for _ in 1..count {
        list.push(filter(None))?;
    }
    list.push(filter(to))?;
    Ok(list)
}

/// A filter that admits the message by each of its criteria.
fn filter(to: Option<Text>) -> Filter {
    Filter {
        what: Some(SENT),
        source: SourceIs::Local,
        delivery: DeliveryIs::Programmed,
        skip: false,
        to,
        set_what: Some(SENT),
    }
}
