//! `lock`

ghost use Rattle.std.specs.Prelude.{◌≡◌, IfOk, IfSome, IsTrue};
ghost use Rattle.ak_desk.specs.Plain.{is_plain_edit};
ghost use Rattle.ak_describe.specs.Words.{texts};
ghost use Rattle.ak_script.specs.Answers.{Gives, Tells};
ghost use Rattle.ak_script.specs.Forms as reads;
ghost use Rattle.ak_script.specs.StatementSeen.{lock_seen};

use crate::fault::{FormFault, StatementFault};
use crate::statement::Lock;
use crate::words::{first_of, looper_at, only, token_of};
use ak_base::{Text, is_word};
use ak_desk::Edit;
use ak_input::{Word, read_app_word};
use std::alloc::Global;

/// `APP [looper N] EDIT`
pub(crate) fn lock_of(alloc: Global, words: &[Word]) -> Result<Lock, StatementFault>
    ensures { Tells lock_seen result (reads.lock_of (texts words.now)) }
{
    let Some((app, words)) = first_of(words) else {
        return Err(StatementFault::BadValue);
    };
    let Some(app) = read_app_word(alloc, app)? else {
        return Err(StatementFault::BadValue);
    };
    let Some((looper, words)) = looper_at(words) else {
        return Err(StatementFault::BadValue);
    };
    let edit = edit_of(alloc, words)?;
    Ok(Lock { app, looper, edit })
}

// `add W`, `remove N`, `next N N|none` or `prefer N|none`
fn edit_of(alloc: Global, words: &[Word]) -> Result<Edit, FormFault>
    ensures read { Gives (λ e. e) result (reads.edit_of (texts words.now)) }
    ensures plain { IfOk result (λ e. IsTrue (is_plain_edit e)) }
{
    let Some((word, words)) = first_of(words) else {
        return Err(FormFault::BadValue);
    };
    if word == b"add".as_slice() {
        return add_from(alloc, words);
    }
    match token_edit(word, words) {
        Some(edit) => Ok(edit),
        None => Err(FormFault::BadValue),
    }
}

// The name of a new handler.
fn add_from(alloc: Global, words: &[Word]) -> Result<Edit, FormFault>
    ensures read { Gives (λ e. e) result (reads.add_form (texts words.now)) }
    ensures plain { IfOk result (λ e. IsTrue (is_plain_edit e)) }
{
    let Some(name) = only(words) else {
        return Err(FormFault::BadValue);
    };
    if !is_word(name) {
        return Err(FormFault::BadValue);
    }
    Ok(Edit::Add(Text::from_word(alloc, name)?))
}

// An edit of handlers that are there, which tokens tell.
fn token_edit(word: &[u8], words: &[Word]) -> Option<Edit>
    ensures read { result ≡ reads.token_edit word.now (texts words.now) }
    ensures plain { IfSome result (λ e. IsTrue (is_plain_edit e)) }
{
    if word == b"remove".as_slice() {
        remove_form(words)
    } else if word == b"next".as_slice() {
        next_form(words)
    } else if word == b"prefer".as_slice() {
        prefer_form(words)
    } else {
        None
    }
}

fn remove_form(words: &[Word]) -> Option<Edit>
    ensures read { result ≡ reads.remove_form (texts words.now) }
    ensures plain { IfSome result (λ e. IsTrue (is_plain_edit e)) }
{
    let token = token_of(only(words)?)?;
    Some(Edit::Remove(token))
}

#[tactic(auto, unfolding(crate::specs::Forms::next_form))]
fn next_form(words: &[Word]) -> Option<Edit>
    ensures read { result ≡ reads.next_form (texts words.now) }
    ensures plain { IfSome result (λ e. IsTrue (is_plain_edit e)) }
{
    let (first, words) = first_of(words)?;
    let token = token_of(first)?;
    let next = token_or_none(only(words)?)?;
    Some(Edit::Next(token, next))
}

fn prefer_form(words: &[Word]) -> Option<Edit>
    ensures read { result ≡ reads.prefer_form (texts words.now) }
    ensures plain { IfSome result (λ e. IsTrue (is_plain_edit e)) }
{
    let token = token_or_none(only(words)?)?;
    Some(Edit::Prefer(token))
}

// A token, or that there is none.
fn token_or_none(word: &[u8]) -> Option<Option<u64>>
    ensures { result ≡ reads.token_or_none word.now }
{
    if word == b"none".as_slice() {
        return Some(None);
    }
    let token = token_of(word)?;
    Some(Some(token))
}
