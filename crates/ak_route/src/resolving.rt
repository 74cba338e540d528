//! Where the specifiers of a message lead, from the last one on.

ghost use Rattle.std.specs.Prelude.{◌≡◌, ◌≢◌, ◌≤◌, codes, length};
ghost use Rattle.std.specs.List.{position};
ghost use Rattle.std.specs.Str.{bytes_eq};
ghost use Rattle.ak_base.specs.Limits.{app_looper_limit};
ghost use Rattle.ak_message.specs.Specifier.{specifier_of};
ghost use Rattle.ak_specifier.specs.Current.{current_of, left_of, popped_once};
ghost use Rattle.ak_route.specs.Handlers.{handlers_seen, row_of};
ghost use Rattle.ak_route.specs.Matching.{matches};
ghost use Rattle.ak_route.specs.Resolving.{first_asked, matches_current, step, handler_step, looper_step, looper_if_there, stay_if, resolve, resolve_from};
ghost use Rattle.ak_route.specs.Seen.{destination_of, step_of};

use crate::matching::{counts_built_in, gets_built_in, matches};
use ak_base::Text;
use ak_handler::{HandlerSet, LOOPER};
use ak_message::{AtRef, Message, SpecifierRef, Target};
use ak_property::HandlerRow;
use ak_specifier::{current, left, pop};

/// Where they lead: to a handler, to a later looper of the application, or nowhere.
#[derive(Clone, Copy, Debug, PartialEq, Eq)]
pub(crate) enum Destination {
    Handler(u64),
    Looper(u32),
    Nowhere,
}

// What one specifier says of where to go.
#[derive(Clone, Copy, Debug, PartialEq, Eq)]
enum Step {
    // It is for the handler asked.
    Stay,
    ToHandler(u64),
    ToLooper(u32),
    Lost,
}

/// Pops each specifier that leads on.
pub(crate) fn resolve<R: HandlerRow + Drop>(
    set: &HandlerSet<R>,
    m: &mut Message,
    first: Target,
    loopers: &[Text],
    token: u64,
) -> Destination
    requires { length loopers.now ≤ app_looper_limit }
    ensures { record { place = destination_of result; message = m.new }
        ≡ resolve (handlers_seen R.told set.now) loopers.now m.old first token }
{
    if left(m) == 0 {
        return Destination::Handler(token);
    }
    let token = first_asked(set, m, first, token);
    follow(set, m, loopers, token)
}

// From that handler on, each one asked where to go.
fn follow<R: HandlerRow + Drop>(
    set: &HandlerSet<R>,
    m: &mut Message,
    loopers: &[Text],
    mut token: u64,
) -> Destination
    requires { length loopers.now ≤ app_looper_limit }
    ensures { record { place = destination_of result; message = m.new }
        ≡ resolve_from (handlers_seen R.told set.now) loopers.now (left_of m.old) m.old token }
{
    'steps: while left(m) > 0 {
        match next_step(set, m, loopers, token) {
            Step::Stay => return Destination::Handler(token),
            Step::Lost => return Destination::Nowhere,
            Step::ToHandler(next) => {
                pop_current(m);
                token = next;
            }
            Step::ToLooper(looper) => {
                pop_current(m);
                return Destination::Looper(looper);
            }
        }
    }
    Destination::Handler(token)
}

// The current one, which is there, so that this is no `Err`.
fn pop_current(m: &mut Message)
    requires { left_of m.old ≢ 0 }
    ensures { m.new ≡ popped_once m.old }
{
    let _ = pop(m);
}

// The looper in the place of the preferred handler, where that has no match.
fn first_asked<R: HandlerRow + Drop>(
    set: &HandlerSet<R>,
    m: &Message,
    first: Target,
    token: u64,
) -> u64
    ensures { result ≡ first_asked (handlers_seen R.told set.now) m.now first token }
{
    if first == Target::Preferred && !has_match(set, m, token) {
        LOOPER
    } else {
        token
    }
}

fn has_match<R: HandlerRow + Drop>(set: &HandlerSet<R>, m: &Message, token: u64) -> bool
    ensures { result ≡ matches_current (handlers_seen R.told set.now) m.now token (current_of m.now) }
{
    match current(m) {
        Ok(specifier) => handler_matches(set, m, token, specifier),
        Err(_) => false,
    }
}

fn handler_matches<R: HandlerRow + Drop>(
    set: &HandlerSet<R>,
    m: &Message,
    token: u64,
    specifier: SpecifierRef<'_>,
) -> bool
    ensures { result ≡ matches (row_of (handlers_seen R.told set.now) token) m.now (specifier_of specifier.entry) }
{
    match set.by_token(token) {
        Some(row) => matches(row.table(), m, specifier),
        // No such handler: as one without rows.
        None => gets_built_in(m, specifier),
    }
}

fn next_step<R: HandlerRow + Drop>(
    set: &HandlerSet<R>,
    m: &Message,
    loopers: &[Text],
    token: u64,
) -> Step
    requires { length loopers.now ≤ app_looper_limit }
    ensures { step_of result ≡ step (handlers_seen R.told set.now) loopers.now m.now token }
{
    let Ok(specifier) = current(m) else {
        return Step::Lost;
    };
    if handler_matches(set, m, token, specifier) {
        return Step::Stay;
    }
    if token != LOOPER {
        return Step::Lost;
    }
    let name = specifier.property.as_bytes();
    if name == b"Handler".as_slice() {
        handler_step(set, m, specifier)
    } else if name == b"Looper".as_slice() && !loopers.is_empty() {
        looper_step(loopers, m, specifier)
    } else {
        Step::Lost
    }
}

fn handler_step<R: HandlerRow + Drop>(
    set: &HandlerSet<R>,
    m: &Message,
    specifier: SpecifierRef<'_>,
) -> Step
    ensures { step_of result ≡ handler_step (handlers_seen R.told set.now) m.now (specifier_of specifier.entry) }
{
    let place = match specifier.at {
        AtRef::Direct => return stay_if(counts_built_in(m, specifier, b"Handler")),
        AtRef::Index(index) => u32::try_from(index).ok(),
        AtRef::Reverse(index) => match u32::try_from(index) {
            Ok(index) if index >= 1 => set.len().checked_sub(index),
            _ => None,
        },
        _ => None,
    };
    match place.and_then(|place| set.at(place)) {
        Some(token) => Step::ToHandler(token),
        None => Step::Lost,
    }
}

fn looper_step(loopers: &[Text], m: &Message, specifier: SpecifierRef<'_>) -> Step
    requires { length loopers.now ≤ app_looper_limit }
    ensures { step_of result ≡ looper_step loopers.now m.now (specifier_of specifier.entry) }
{
    let place = match specifier.at {
        AtRef::Direct => return stay_if(counts_built_in(m, specifier, b"Looper")),
        AtRef::Index(index) => usize::try_from(index).ok(),
        AtRef::Name(name) => looper_named(loopers, name),
        _ => None,
    };
    looper_at(loopers.len(), place)
}

fn looper_named(loopers: &[Text], name: &Text) -> Option<usize>
    ensures { result ≡ position (bytes_eq name.now) loopers.now }
{
    loopers
        .iter()
        .position(|looper| name.as_bytes() == looper.as_bytes())
}

// The first one is the looper that is asked.
fn looper_at(count: usize, place: Option<usize>) -> Step
    requires { count ≤ app_looper_limit }
    ensures { step_of result ≡ looper_if_there count place }
{
    match place {
        Some(place) if place < count => if place == 0 {
            Step::ToHandler(LOOPER)
        } else {
            Step::ToLooper(place as u32)
        },
        _ => Step::Lost,
    }
}

fn stay_if(holds: bool) -> Step
    ensures { step_of result ≡ stay_if holds }
{
    if holds { Step::Stay } else { Step::Lost }
}
