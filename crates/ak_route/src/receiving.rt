//! Which handler of a chain takes a message, and as what.

ghost use Rattle.std.specs.Prelude.{◌≡◌, Some, option_map};
ghost use Rattle.ak_handler.specs.Handlers.{chain_from};
ghost use Rattle.ak_specifier.specs.Current.{current_of};
ghost use Rattle.ak_route.specs.Handlers.{handlers_seen, row_of};
ghost use Rattle.ak_route.specs.Receiving.{receive, received, taker_of, or_else, property_taker, reaction_taker, property_place, is_property_command, takes_built_in, handler_takes, looper_takes, own_looper_takes, counts};

use crate::matching::{counts_built_in, gets_built_in, row_match};
use crate::outcome::Taker;
use ak_base::{Code, Text};
use ak_handler::{HandlerSet, LOOPER};
use ak_message::Message;
use ak_property::HandlerRow;
use ak_specifier::{current, left};

/// The first handler that takes it of the chain that begins with the target.
#[tactic(auto, using(crate::proofs::Mapped::handlers_as_seen, crate::proofs::Takers::receiving_steps))]
pub(crate) fn receive<R: HandlerRow + Drop>(
    set: &HandlerSet<R>,
    loopers: &[Text],
    m: &Message,
    target: u64,
) -> Option<(u64, Taker)>
    ensures { option_map (λ x. received x.0 x.1) result
        ≡ receive (handlers_seen R.told set.now) loopers.now m.now (chain_from (handlers_seen R.told set.now).list (Some target)) }
{
    let mut at = Some(target);
    for _ in 0..set.len() {
        let token = at?;
        if let Some(taker) = taker_of(set, loopers, m, token) {
            return Some((token, taker));
        }
        at = set.next_of(token);
    }
    None
}

// As its handler does, else as something built in.
#[tactic(auto, using(crate::proofs::Takers::or_else_joined))]
fn taker_of<R: HandlerRow + Drop>(
    set: &HandlerSet<R>,
    loopers: &[Text],
    m: &Message,
    token: u64,
) -> Option<Taker>
    ensures { result ≡ taker_of (handlers_seen R.told set.now) loopers.now m.now token }
{
    if let Some(taker) = own_taker(set, m, token) {
        return Some(taker);
    }
    if takes_built_in(loopers, m, token) {
        Some(Taker::BuiltIn)
    } else {
        None
    }
}

fn own_taker<R: HandlerRow + Drop>(set: &HandlerSet<R>, m: &Message, token: u64) -> Option<Taker>
    ensures { let row = row_of (handlers_seen R.told set.now) token in
        result ≡ or_else (property_taker row m.now (current_of m.now)) (reaction_taker row m.now) }
{
    row_taker(set.by_token(token)?, m)
}

// As a property, else as a reaction.
fn row_taker<R: HandlerRow>(row: &R, m: &Message) -> Option<Taker>
    ensures { result ≡ or_else (property_taker (R.told row.now) m.now (current_of m.now)) (reaction_taker (R.told row.now) m.now) }
{
    if let Some(place) = property_place(row, m) {
        return Some(Taker::Property(place));
    }
    let place = row.reaction_on(m.what())?;
    Some(Taker::Reaction(place))
}

fn property_place<R: HandlerRow>(row: &R, m: &Message) -> Option<u32>
    ensures { result ≡ property_place (R.told row.now) m.now (current_of m.now) }
{
    if !is_property_command(m.what()) {
        return None;
    }
    let place = row_match(row.table(), m, current(m).ok()?)?;
    Some(place as u32)
}

fn is_property_command(what: Code) -> bool
    ensures { result ≡ is_property_command what.0 }
{
    matches!(
        what,
        Code::GET | Code::SET | Code::COUNT | Code::CREATE | Code::DELETE
    )
}

fn takes_built_in(loopers: &[Text], m: &Message, token: u64) -> bool
    ensures { result ≡ takes_built_in loopers.now m.now token }
{
    handler_takes(m)
        || (token == LOOPER && (looper_takes(m) || (!loopers.is_empty() && own_looper_takes(m))))
}

// What every handler takes.
fn handler_takes(m: &Message) -> bool
    ensures { result ≡ handler_takes m.now (current_of m.now) }
{
    match current(m) {
        Ok(specifier) => gets_built_in(m, specifier),
        Err(_) => left(m) == 0 && m.what() == Code::SUITES,
    }
}

// What a looper takes beside that.
fn looper_takes(m: &Message) -> bool
    ensures { result ≡ looper_takes m.now (current_of m.now) }
{
    m.what() == Code::QUIT_REQUESTED || counts(m, b"Handler")
}

// What an application's own looper takes beside that.
fn own_looper_takes(m: &Message) -> bool
    ensures { result ≡ own_looper_takes m.now (current_of m.now) }
{
    m.what() == Code::ARGV_RECEIVED || m.what() == Code::READY_TO_RUN || counts(m, b"Looper")
}

fn counts(m: &Message, property: &[u8]) -> bool
    ensures { result ≡ counts m.now (current_of m.now) property.now }
{
    match current(m) {
        Ok(specifier) => counts_built_in(m, specifier, property),
        Err(_) => false,
    }
}
