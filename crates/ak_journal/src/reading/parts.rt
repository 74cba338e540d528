//! Reads the words that are the same at several objects.

ghost use Rattle.std.specs.Prelude.{◌≡◌, ◌↔◌, None, option_map, IfOk, IfSome, IsTrue};
ghost use Rattle.ak_flatten.specs.Laws.{AreBytes, first_fault};
ghost use Rattle.ak_input.specs.Written.{is_launched, is_looked_up};
ghost use Rattle.ak_journal.specs.Answers.{Gives};
ghost use Rattle.ak_journal.specs.Parting.{texts};
ghost use Rattle.ak_journal.specs.Legible.{Fits32};
ghost use Rattle.ak_journal.specs.ReadParts as reads;
ghost use Rattle.ak_journal.specs.ReadParts.{read_and_rest};

use super::fault::Unread;
use super::words::{first_of, u32_of};
use ak_base::{AppWord, Bytes, NoMemory, ThreadId};
use ak_flatten::{UnflattenFault, unflatten};
use ak_input::{read_app_word, read_launch_word, read_number};
use hex::FromHexError;
use std::alloc::Global;

// ---- threads
fn session_of(digits: &[u8]) -> Option<ThreadId>
    ensures thread { result ≡ reads.session_of digits.now }
    ensures fits { IfSome result (λ thread. Fits32 thread.0) }
{
    let number = u32_of(digits)?;
    Some(ThreadId(number))
}

fn looper_of(digits: &[u8]) -> Option<ThreadId>
    ensures thread { result ≡ reads.looper_of digits.now }
    ensures fits { IfSome result (λ thread. Fits32 thread.0) }
{
    let number = read_number(digits, 0, 4_294_957_295)?;
    Some(ThreadId(ThreadId::FIRST_LOOPER.0 + number))
}

// `m`, `s` and the number of a session, or `l` and the number of a looper.
fn thread_of(word: &[u8]) -> Option<ThreadId>
    ensures thread { result ≡ reads.thread_of word.now }
    ensures fits { IfSome result (λ thread. Fits32 thread.0) }
{
    let (kind, number) = word.split_first()?;
    if *kind == b'm' {
        Some(ThreadId::MAIN)
    } else if *kind == b's' {
        session_of(number)
    } else if *kind == b'l' {
        looper_of(number)
    } else {
        None
    }
}

pub(crate) fn thread_at<'a, 'w>(words: &'w [&'a [u8]]) -> Option<(ThreadId, &'w [&'a [u8]])>
    ensures thread { option_map read_and_rest result ≡ reads.thread_at (texts words.now) }
    ensures fits { IfSome result (λ x. Fits32 x.0.0) }
{
    let (word, rest) = first_of(words)?;
    let thread = thread_of(word)?;
    Some((thread, rest))
}

// ---- applications
/// What is launched.
pub(crate) fn launch_word_at<'a, 'w>(
    alloc: Global,
    words: &'w [&'a [u8]],
) -> Result<(AppWord, &'w [&'a [u8]]), Unread>
    ensures word { Gives read_and_rest result (reads.launch_word_at (texts words.now)) }
    ensures form { IfOk result (λ x. IsTrue (is_launched x.0)) }
{
    let Some((word, rest)) = first_of(words) else {
        return Err(Unread::NoEntry);
    };
    let Some(app) = read_launch_word(alloc, word)? else {
        return Err(Unread::NoEntry);
    };
    Ok((app, rest))
}

/// What is looked up.
pub(crate) fn find_word_at<'a, 'w>(
    alloc: Global,
    words: &'w [&'a [u8]],
) -> Result<(AppWord, &'w [&'a [u8]]), Unread>
    ensures word { Gives read_and_rest result (reads.find_word_at (texts words.now)) }
    ensures form { IfOk result (λ x. IsTrue (is_looked_up x.0)) }
{
    let Some((word, rest)) = first_of(words) else {
        return Err(Unread::NoEntry);
    };
    let Some(app) = read_app_word(alloc, word)? else {
        return Err(Unread::NoEntry);
    };
    Ok((app, rest))
}

// ---- flat texts
fn bytes_of(alloc: Global, bytes: &[u8]) -> Result<Bytes, NoMemory>
    ensures copy { IfOk result (λ copy. copy ≡ bytes.now) }
    ensures bytes { IfOk result AreBytes }
{
    let mut copy = Bytes::with_capacity(alloc, bytes.len())?;
    copy.extend(bytes)?;
    Ok(copy)
}

/// The bytes that hexadecimal digits write.
pub(crate) fn flat_of(alloc: Global, word: &[u8]) -> Result<Bytes, Unread>
    ensures flat { Gives (λ flat. flat) result (reads.flat_of word.now) }
    ensures bytes { IfOk result AreBytes }
{
    match hex::decode(alloc, word) {
        Ok(bytes) => Ok(bytes_of(alloc, &bytes)?),
        Err(FromHexError::OutOfMemory) => Err(Unread::NoMemory),
        Err(_) => Err(Unread::NoEntry),
    }
}

pub(crate) fn flat_at(alloc: Global, words: &[&[u8]]) -> Result<Bytes, Unread>
    ensures flat { Gives (λ flat. flat) result (reads.flat_at (texts words.now)) }
    ensures bytes { IfOk result AreBytes }
{
    let Some((word, _rest)) = first_of(words) else {
        return Err(Unread::NoEntry);
    };
    flat_of(alloc, word)
}

/// Whether the bytes are the flat text of a message.
pub(crate) fn is_flat(alloc: Global, flat: &[u8]) -> Result<bool, NoMemory>
    ensures { IfOk result (λ is. IsTrue is ↔ (first_fault flat.now ≡ None)) }
{
    match unflatten(alloc, flat) {
        Ok(_message) => Ok(true),
        Err(UnflattenFault::NoMemory) => Err(NoMemory),
        Err(UnflattenFault::Bad(_)) => Ok(false),
    }
}
