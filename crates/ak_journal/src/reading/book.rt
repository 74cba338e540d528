//! Reads what was done to a slot of the reply book.

ghost use Rattle.std.specs.Prelude.{◌≡◌, IfOk, IfSome};
ghost use Rattle.ak_journal.specs.Answers.{Gives};
ghost use Rattle.ak_journal.specs.Parting.{texts};
ghost use Rattle.ak_journal.specs.Legible.{Fits64, IsFlat, IsLegibleBook};
ghost use Rattle.ak_journal.specs.ReadBook as reads;

use super::fault::Unread;
use super::parts::{flat_at, is_flat};
use super::words::{first_of, first_u64, u64_at};
use ak_base::Bytes;
use ak_port::ReplyEvent;
use std::alloc::Global;

pub(crate) fn book_event(alloc: Global, words: &[&[u8]]) -> Result<ReplyEvent, Unread>
    ensures read { Gives (λ e. e) result (reads.book_event (texts words.now)) }
    ensures legible { IfOk result IsLegibleBook }
{
    let Some((key, words)) = first_of(words) else {
        return Err(Unread::NoEntry);
    };
    if key == b"filled".as_slice() {
        return filled_of(alloc, words);
    }
    match short_event(key, words) {
        Some(event) => Ok(event),
        None => Err(Unread::NoEntry),
    }
}

fn filled_of(alloc: Global, words: &[&[u8]]) -> Result<ReplyEvent, Unread>
    ensures read { Gives (λ e. e) result (reads.filled_of (texts words.now)) }
    ensures legible { IfOk result IsLegibleBook }
{
    let Some((slot, words)) = u64_at(words) else {
        return Err(Unread::NoEntry);
    };
    let flat = reply_of(alloc, words)?;
    Ok(ReplyEvent::Filled(slot, flat))
}

fn reply_of(alloc: Global, words: &[&[u8]]) -> Result<Bytes, Unread>
    ensures read { Gives (λ flat. flat) result (reads.reply_of (texts words.now)) }
    ensures legible { IfOk result IsFlat }
{
    let flat = flat_at(alloc, words)?;
    if is_flat(alloc, flat.as_slice())? {
        Ok(flat)
    } else {
        Err(Unread::NoEntry)
    }
}

// All but a slot that was filled.
fn short_event(key: &[u8], words: &[&[u8]]) -> Option<ReplyEvent>
    ensures read { result ≡ reads.short_event key.now (texts words.now) }
    ensures legible { IfSome result IsLegibleBook }
{
    let slot = first_u64(words)?;
    slot_event(key, slot)
}

fn slot_event(key: &[u8], slot: u64) -> Option<ReplyEvent>
    ensures read { result ≡ reads.slot_event key.now slot }
    ensures legible { Fits64 slot → IfSome result IsLegibleBook }
{
    if key == b"opened".as_slice() {
        Some(ReplyEvent::Opened(slot))
    } else if key == b"cancelled".as_slice() {
        Some(ReplyEvent::Cancelled(slot))
    } else if key == b"taken".as_slice() {
        Some(ReplyEvent::Taken(slot))
    } else {
        None
    }
}
