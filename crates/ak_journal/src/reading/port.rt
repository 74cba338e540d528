//! Reads what was done to a port.

ghost use Rattle.std.specs.Prelude.{◌≡◌, option_map, IfOk, IfSome};
ghost use Rattle.ak_flatten.specs.Laws.{AreBytes};
ghost use Rattle.ak_message.specs.Whole.{FitsAddress, FitsTarget};
ghost use Rattle.ak_journal.specs.Answers.{Gives};
ghost use Rattle.ak_journal.specs.Parting.{texts};
ghost use Rattle.ak_journal.specs.Legible.{FitsDuty, IsLegibleItem, IsLegiblePort};
ghost use Rattle.ak_journal.specs.ReadParts.{read_and_rest};
ghost use Rattle.ak_journal.specs.ReadPort as reads;
ghost use Rattle.ak_journal.specs.ReadPort.{FitsHead};

use super::fault::Unread;
use super::parts::flat_at;
use super::words::{behind_key, cut_at, first_of, first_u32, u32_at, u32_of, u64_at, u64_of};
use ak_base::Bytes;
use ak_flatten::{Duty, Item, ItemFault};
use ak_message::{Address, Target};
use ak_port::PortEvent;
use std::alloc::Global;

/// What stands before the message of an item.
#[derive(Clone, Copy, Debug, PartialEq, Eq)]
pub(crate) struct Head {
    target: Target,
    team: u32,
    dropped: bool,
    duty: Duty,
    popped: u32,
}

pub(crate) fn port_event(alloc: Global, words: &[&[u8]]) -> Result<PortEvent, Unread>
    ensures read { Gives (λ e. e) result (reads.port_event (texts words.now)) }
    ensures legible { IfOk result IsLegiblePort }
{
    let Some((key, words)) = first_of(words) else {
        return Err(Unread::NoEntry);
    };
    if key == b"written".as_slice() {
        return written_of(alloc, words);
    }
    match short_event(key, words) {
        Some(event) => Ok(event),
        None => Err(Unread::NoEntry),
    }
}

// All but a write that was accepted.
fn short_event(key: &[u8], words: &[&[u8]]) -> Option<PortEvent>
    ensures read { result ≡ reads.short_event key.now (texts words.now) }
    ensures legible { IfSome result IsLegiblePort }
{
    if key == b"made".as_slice() {
        made_of(words)
    } else if key == b"full".as_slice() {
        Some(PortEvent::Full)
    } else if key == b"refused".as_slice() {
        Some(PortEvent::Refused)
    } else if key == b"spent".as_slice() {
        Some(PortEvent::Spent)
    } else if key == b"took".as_slice() {
        took_of(words)
    } else if key == b"rest".as_slice() {
        rest_of(words)
    } else if key == b"shut".as_slice() {
        Some(PortEvent::Shut)
    } else {
        None
    }
}

fn made_of(words: &[&[u8]]) -> Option<PortEvent>
    ensures read { result ≡ reads.made_of (texts words.now) }
    ensures legible { IfSome result IsLegiblePort }
{
    let (capacity, words) = u32_at(words)?;
    let life = first_u32(words)?;
    Some(PortEvent::Made { capacity, life })
}

fn took_of(words: &[&[u8]]) -> Option<PortEvent>
    ensures read { result ≡ reads.took_of (texts words.now) }
    ensures legible { IfSome result IsLegiblePort }
{
    let count = first_u32(words)?;
    Some(PortEvent::Took(count))
}

fn rest_of(words: &[&[u8]]) -> Option<PortEvent>
    ensures read { result ≡ reads.rest_of (texts words.now) }
    ensures legible { IfSome result IsLegiblePort }
{
    let count = first_u32(words)?;
    Some(PortEvent::Rest(count))
}

// ---- items
fn written_of(alloc: Global, words: &[&[u8]]) -> Result<PortEvent, Unread>
    ensures read { Gives (λ e. e) result (reads.written_of (texts words.now)) }
    ensures legible { IfOk result IsLegiblePort }
{
    let Some((position, words)) = u64_at(words) else {
        return Err(Unread::NoEntry);
    };
    let item = item_of(alloc, words)?;
    Ok(PortEvent::Written { position, item })
}

fn item_of(alloc: Global, words: &[&[u8]]) -> Result<Item, Unread>
    ensures read { Gives (λ item. item) result (reads.item_of (texts words.now)) }
    ensures legible { IfOk result IsLegibleItem }
{
    let Some((head, words)) = head_at(words) else {
        return Err(Unread::NoEntry);
    };
    let flat = flat_at(alloc, words)?;
    kept_item(alloc, head, flat)
}

// The item of that flat text, if it is one.
fn kept_item(alloc: Global, head: Head, flat: Bytes) -> Result<Item, Unread>
    requires head { FitsHead head }
    requires bytes { AreBytes flat }
    ensures read { Gives (λ item. item) result (reads.kept_item head flat) }
    ensures legible { IfOk result IsLegibleItem }
{
    let kept = Item::from_flat(
        alloc,
        head.target,
        head.team,
        head.dropped,
        head.duty,
        head.popped,
        flat,
    );
    match kept {
        Ok(item) => {
            // Reading it shows that it is one.
            let _popped = item.popped();
            Ok(item)
        }
        Err(ItemFault::NoMemory) => Err(Unread::NoMemory),
        Err(_) => Err(Unread::NoEntry),
    }
}

#[tactic(auto, unfolding(crate::specs::ReadPort::head_at))]
fn head_at<'a, 'w>(words: &'w [&'a [u8]]) -> Option<(Head, &'w [&'a [u8]])>
    ensures read { option_map read_and_rest result ≡ reads.head_at (texts words.now) }
    ensures fits { IfSome result (λ x. FitsHead x.0) }
{
    let (target, words) = target_at(words)?;
    let (team, words) = u32_at(words)?;
    let (dropped, words) = mark_at(words)?;
    let (duty, words) = duty_at(words)?;
    let (popped, words) = u32_at(words)?;
    let head = Head {
        target,
        team,
        dropped,
        duty,
        popped,
    };
    Some((head, words))
}

fn target_of(word: &[u8]) -> Option<Target>
    ensures read { result ≡ reads.target_of word.now }
    ensures fits { IfSome result FitsTarget }
{
    if word == b"p".as_slice() {
        return Some(Target::Preferred);
    }
    let token = u64_of(word)?;
    Some(Target::Token(token))
}

fn target_at<'a, 'w>(words: &'w [&'a [u8]]) -> Option<(Target, &'w [&'a [u8]])>
    ensures read { option_map read_and_rest result ≡ reads.target_at (texts words.now) }
    ensures fits { IfSome result (λ x. FitsTarget x.0) }
{
    let (word, rest) = first_of(words)?;
    let target = target_of(word)?;
    Some((target, rest))
}

fn mark_of(word: &[u8]) -> Option<bool>
    ensures { result ≡ reads.mark_of word.now }
{
    if word == b"drop".as_slice() {
        Some(true)
    } else if word == b"prog".as_slice() {
        Some(false)
    } else {
        None
    }
}

fn mark_at<'a, 'w>(words: &'w [&'a [u8]]) -> Option<(bool, &'w [&'a [u8]])>
    ensures { option_map read_and_rest result ≡ reads.mark_at (texts words.now) }
{
    let (word, rest) = first_of(words)?;
    let dropped = mark_of(word)?;
    Some((dropped, rest))
}

// ---- duties
fn duty_of(word: &[u8]) -> Option<Duty>
    ensures read { result ≡ reads.duty_of word.now }
    ensures fits { IfSome result FitsDuty }
{
    if word == b"none".as_slice() {
        return Some(Duty::None);
    }
    match behind_key(word, b"slot:") {
        Some(digits) => slot_of(digits),
        None => back_of(word),
    }
}

fn slot_of(digits: &[u8]) -> Option<Duty>
    ensures read { result ≡ reads.slot_of digits.now }
    ensures fits { IfSome result FitsDuty }
{
    let slot = u64_of(digits)?;
    Some(Duty::Slot(slot))
}

fn back_of(word: &[u8]) -> Option<Duty>
    ensures read { result ≡ reads.back_of word.now }
    ensures fits { IfSome result FitsDuty }
{
    let text = behind_key(word, b"back:")?;
    let address = address_of(text)?;
    Some(Duty::Back(address))
}

fn address_of(text: &[u8]) -> Option<Address>
    ensures read { result ≡ reads.address_of text.now }
    ensures fits { IfSome result FitsAddress }
{
    let (looper, target) = cut_at(text, b'.');
    let target = target?;
    let looper = u32_of(looper)?;
    let target = target_of(target)?;
    Some(Address { looper, target })
}

fn duty_at<'a, 'w>(words: &'w [&'a [u8]]) -> Option<(Duty, &'w [&'a [u8]])>
    ensures read { option_map read_and_rest result ≡ reads.duty_at (texts words.now) }
    ensures fits { IfSome result (λ x. FitsDuty x.0) }
{
    let (word, rest) = first_of(words)?;
    let duty = duty_of(word)?;
    Some((duty, rest))
}
