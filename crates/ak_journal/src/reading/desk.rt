//! Reads what happened at a desk.

ghost use Rattle.std.specs.Prelude.{◌≡◌, IfOk, IfSome, option_map};
ghost use Rattle.ak_journal.specs.Answers.{Gives};
ghost use Rattle.ak_journal.specs.Parting.{texts};
ghost use Rattle.ak_journal.specs.Legible.{FitsRoute, IsLegibleDesk, IsLegibleEdit, IsLegibleEditAnswer};
ghost use Rattle.ak_journal.specs.ReadDesk as reads;
ghost use Rattle.ak_journal.specs.ReadParts.{read_and_rest};

mod answers;
mod errors;

use super::fault::Unread;
use super::words::{behind_key, first_of, token_at, u32_at, u64_at, u64_of};
use ak_base::{KitError, Text, is_word};
use ak_desk::{DeskEvent, Edit, EditAnswer, EntryRoute};
use ak_handler::HandlerFault;
use answers::few_answers;
use errors::error_named;
use std::alloc::Global;

pub(crate) fn desk_event(alloc: Global, words: &[&[u8]]) -> Result<DeskEvent, Unread>
    ensures read { Gives (λ e. e) result (reads.desk_event (texts words.now)) }
    ensures legible { IfOk result IsLegibleDesk }
{
    let Some((key, words)) = first_of(words) else {
        return Err(Unread::NoEntry);
    };
    if key == b"dispatched".as_slice() {
        dispatched_of(alloc, words)
    } else if key == b"edited".as_slice() {
        edited_of(alloc, words)
    } else {
        Err(Unread::NoEntry)
    }
}

// ---- dispatches
fn dispatched_of(alloc: Global, words: &[&[u8]]) -> Result<DeskEvent, Unread>
    ensures read { Gives (λ e. e) result (reads.dispatched_of (texts words.now)) }
    ensures legible { IfOk result IsLegibleDesk }
{
    let Some((position, words)) = u64_at(words) else {
        return Err(Unread::NoEntry);
    };
    let Some((route, words)) = route_at(words) else {
        return Err(Unread::NoEntry);
    };
    let (quit, words) = quit_at(words);
    let answers = few_answers(alloc, words)?;
    Ok(DeskEvent::Dispatched {
        position,
        route,
        answers,
        quit,
    })
}

fn route_at<'a, 'w>(words: &'w [&'a [u8]]) -> Option<(EntryRoute, &'w [&'a [u8]])>
    ensures read { option_map read_and_rest result ≡ reads.route_at (texts words.now) }
    ensures fits { IfSome result (λ x. FitsRoute x.0) }
{
    let (key, words) = first_of(words)?;
    if key == b"to".as_slice() {
        to_of(words)
    } else if key == b"forward".as_slice() {
        forward_of(words)
    } else {
        Some((route_named(key)?, words))
    }
}

fn to_of<'a, 'w>(words: &'w [&'a [u8]]) -> Option<(EntryRoute, &'w [&'a [u8]])>
    ensures read { option_map read_and_rest result ≡ reads.to_of (texts words.now) }
    ensures fits { IfSome result (λ x. FitsRoute x.0) }
{
    let (token, rest) = u64_at(words)?;
    Some((EntryRoute::To(token), rest))
}

fn forward_of<'a, 'w>(words: &'w [&'a [u8]]) -> Option<(EntryRoute, &'w [&'a [u8]])>
    ensures read { option_map read_and_rest result ≡ reads.forward_of (texts words.now) }
    ensures fits { IfSome result (λ x. FitsRoute x.0) }
{
    let (looper, rest) = u32_at(words)?;
    Some((EntryRoute::Forward(looper), rest))
}

// The routes that are one word.
fn route_named(key: &[u8]) -> Option<EntryRoute>
    ensures read { result ≡ reads.route_named key.now }
    ensures fits { IfSome result FitsRoute }
{
    if key == b"skipped".as_slice() {
        Some(EntryRoute::Skipped)
    } else if key == b"dropped".as_slice() {
        Some(EntryRoute::Dropped)
    } else if key == b"not-understood".as_slice() {
        Some(EntryRoute::NotUnderstood)
    } else if key == b"no-memory".as_slice() {
        Some(EntryRoute::NoMemory)
    } else {
        None
    }
}

// Whether the looper is to end, and the words behind.
fn quit_at<'a, 'w>(words: &'w [&'a [u8]]) -> (bool, &'w [&'a [u8]])
    ensures { read_and_rest result ≡ reads.quit_at (texts words.now) }
{
    match first_of(words) {
        Some((key, rest)) if key == b"quit".as_slice() => (true, rest),
        _ => (false, words),
    }
}

// ---- edits
fn edited_of(alloc: Global, words: &[&[u8]]) -> Result<DeskEvent, Unread>
    ensures read { Gives (λ e. e) result (reads.edited_of (texts words.now)) }
    ensures legible { IfOk result IsLegibleDesk }
{
    let (edit, words) = edit_at(alloc, words)?;
    let Some(answer) = edit_answer_at(words) else {
        return Err(Unread::NoEntry);
    };
    Ok(DeskEvent::Edited { edit, answer })
}

fn edit_at<'a, 'w>(alloc: Global, words: &'w [&'a [u8]]) -> Result<(Edit, &'w [&'a [u8]]), Unread>
    ensures read { Gives read_and_rest result (reads.edit_at (texts words.now)) }
    ensures legible { IfOk result (λ x. IsLegibleEdit x.0) }
{
    let Some((key, words)) = first_of(words) else {
        return Err(Unread::NoEntry);
    };
    if key == b"add".as_slice() {
        return add_of(alloc, words);
    }
    match token_edit(key, words) {
        Some((edit, rest)) => Ok((edit, rest)),
        None => Err(Unread::NoEntry),
    }
}

fn add_of<'a, 'w>(alloc: Global, words: &'w [&'a [u8]]) -> Result<(Edit, &'w [&'a [u8]]), Unread>
    ensures read { Gives read_and_rest result (reads.add_of (texts words.now)) }
    ensures legible { IfOk result (λ x. IsLegibleEdit x.0) }
{
    let Some((name, rest)) = first_of(words) else {
        return Err(Unread::NoEntry);
    };
    if !is_word(name) {
        return Err(Unread::NoEntry);
    }
    Ok((Edit::Add(Text::from_word(alloc, name)?), rest))
}

// An edit of handlers that are there, which tokens tell.
fn token_edit<'a, 'w>(key: &[u8], words: &'w [&'a [u8]]) -> Option<(Edit, &'w [&'a [u8]])>
    ensures read { option_map read_and_rest result ≡ reads.token_edit key.now (texts words.now) }
    ensures legible { IfSome result (λ x. IsLegibleEdit x.0) }
{
    if key == b"remove".as_slice() {
        remove_of(words)
    } else if key == b"next".as_slice() {
        next_of(words)
    } else if key == b"prefer".as_slice() {
        prefer_of(words)
    } else {
        None
    }
}

fn remove_of<'a, 'w>(words: &'w [&'a [u8]]) -> Option<(Edit, &'w [&'a [u8]])>
    ensures read { option_map read_and_rest result ≡ reads.remove_of (texts words.now) }
    ensures legible { IfSome result (λ x. IsLegibleEdit x.0) }
{
    let (token, rest) = u64_at(words)?;
    Some((Edit::Remove(token), rest))
}

fn next_of<'a, 'w>(words: &'w [&'a [u8]]) -> Option<(Edit, &'w [&'a [u8]])>
    ensures read { option_map read_and_rest result ≡ reads.next_of (texts words.now) }
    ensures legible { IfSome result (λ x. IsLegibleEdit x.0) }
{
    let (token, rest) = u64_at(words)?;
    let (next, rest) = token_at(rest)?;
    Some((Edit::Next(token, next), rest))
}

fn prefer_of<'a, 'w>(words: &'w [&'a [u8]]) -> Option<(Edit, &'w [&'a [u8]])>
    ensures read { option_map read_and_rest result ≡ reads.prefer_of (texts words.now) }
    ensures legible { IfSome result (λ x. IsLegibleEdit x.0) }
{
    let (token, rest) = token_at(words)?;
    Some((Edit::Prefer(token), rest))
}

// ---- what an edit came to
fn edit_answer_at(words: &[&[u8]]) -> Option<EditAnswer>
    ensures read { result ≡ reads.edit_answer_at (texts words.now) }
    ensures legible { IfSome result IsLegibleEditAnswer }
{
    let (text, _rest) = first_of(words)?;
    edit_answer(text)
}

fn edit_answer(text: &[u8]) -> Option<EditAnswer>
    ensures read { result ≡ reads.edit_answer text.now }
    ensures legible { IfSome result IsLegibleEditAnswer }
{
    match behind_key(text, b"token:") {
        Some(digits) => token_answer(digits),
        None => answer_as(error_named(text)?),
    }
}

fn token_answer(digits: &[u8]) -> Option<EditAnswer>
    ensures read { result ≡ reads.token_answer digits.now }
    ensures legible { IfSome result IsLegibleEditAnswer }
{
    let token = u64_of(digits)?;
    Some(EditAnswer::Token(token))
}

// The answer that is printed as that error.
fn answer_as(error: KitError) -> Option<EditAnswer>
    ensures read { result ≡ reads.answer_as error }
    ensures legible { IfSome result IsLegibleEditAnswer }
{
    match error {
        KitError::Ok => Some(EditAnswer::Done),
        KitError::NameInUse => Some(EditAnswer::Refused(HandlerFault::NameInUse)),
        KitError::Limit => Some(EditAnswer::Refused(HandlerFault::HandlerLimit)),
        KitError::BadHandler => Some(EditAnswer::Refused(HandlerFault::BadHandler)),
        KitError::IsLooper => Some(EditAnswer::Refused(HandlerFault::IsLooper)),
        KitError::ChainLoop => Some(EditAnswer::Refused(HandlerFault::ChainLoop)),
        _ => None,
    }
}
