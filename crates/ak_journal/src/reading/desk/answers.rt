//! Reads what the actions of a dispatch came to.

ghost use Rattle.std.specs.Prelude.{◌≡◌, IfOk, IfSome, count_by};
ghost use Rattle.std.specs.List.{AllByRecursion};
ghost use Rattle.ak_journal.specs.Answers.{Gives};
ghost use Rattle.ak_journal.specs.Parting.{texts};
ghost use Rattle.ak_journal.specs.Legible as legible;
ghost use Rattle.ak_journal.specs.Legible.{AreLegibleAnswers, IsLegibleAnswer};
ghost use Rattle.ak_journal.specs.ReadDesk as reads;

use super::errors::error_named;
use crate::reading::fault::Unread;
use crate::reading::parts::{flat_of, is_flat};
use crate::reading::words::{behind_key, u32_of};
use ak_action::{ACTION_LIMIT, ANSWER_WORD_LIMIT, AnswerWord};
use ak_base::Items;
use std::alloc::Global;

/// The answer words that these words are, where they are no more than there may be.
pub(crate) fn few_answers(alloc: Global, words: &[&[u8]]) -> Result<Items<AnswerWord>, Unread>
    ensures read { Gives (λ answers. answers) result (reads.few_answers (texts words.now)) }
    ensures legible { IfOk result AreLegibleAnswers }
{
    let answers = answers_of(alloc, words)?;
    if are_few(&answers) {
        Ok(Items::from_vec(answers))
    } else {
        Err(Unread::NoEntry)
    }
}

fn are_few(answers: &[AnswerWord]) -> bool
    ensures { result ≡ reads.are_few answers.now }
{
    answers.len() <= ANSWER_WORD_LIMIT && replies(answers) <= ACTION_LIMIT
}

fn replies(answers: &[AnswerWord]) -> usize
    ensures { result ≡ count_by legible.is_reply answers.now }
{
    answers.iter().filter(|answer| is_reply(answer)).count()
}

fn is_reply(answer: &AnswerWord) -> bool
    ensures { result ≡ legible.is_reply answer.now }
{
    match answer {
        AnswerWord::Reply(_) => true,
        AnswerWord::Error(_) | AnswerWord::Team(_) | AnswerWord::NoTeam => false,
    }
}

fn answers_of(alloc: Global, words: &[&[u8]]) -> Result<Vec<AnswerWord>, Unread>
    ensures read { Gives (λ answers. answers.items) result (reads.answers_of (texts words.now)) }
    ensures legible { IfOk result (λ answers. AllByRecursion IsLegibleAnswer answers.items) }
{
    let mut answers = Vec::new(alloc);
    for word in words {
        let answer = answer_of(alloc, word)?;
        answers.push(answer)?;
    }
    Ok(answers)
}

fn answer_of(alloc: Global, text: &[u8]) -> Result<AnswerWord, Unread>
    ensures read { Gives (λ answer. answer) result (reads.answer_of text.now) }
    ensures legible { IfOk result IsLegibleAnswer }
{
    if let Some(digits) = behind_key(text, b"reply:") {
        return reply_word(alloc, digits);
    }
    match short_answer(text) {
        Some(answer) => Ok(answer),
        None => Err(Unread::NoEntry),
    }
}

fn reply_word(alloc: Global, digits: &[u8]) -> Result<AnswerWord, Unread>
    ensures read { Gives (λ answer. answer) result (reads.reply_word digits.now) }
    ensures legible { IfOk result IsLegibleAnswer }
{
    let flat = flat_of(alloc, digits)?;
    if is_flat(alloc, flat.as_slice())? {
        Ok(AnswerWord::Reply(flat))
    } else {
        Err(Unread::NoEntry)
    }
}

// A word without a reply.
fn short_answer(text: &[u8]) -> Option<AnswerWord>
    ensures read { result ≡ reads.short_answer text.now }
    ensures legible { IfSome result IsLegibleAnswer }
{
    if text == b"no-team".as_slice() {
        return Some(AnswerWord::NoTeam);
    }
    match behind_key(text, b"team:") {
        Some(digits) => team_word(digits),
        None => error_word(text),
    }
}

fn team_word(digits: &[u8]) -> Option<AnswerWord>
    ensures read { result ≡ reads.team_word digits.now }
    ensures legible { IfSome result IsLegibleAnswer }
{
    let team = u32_of(digits)?;
    Some(AnswerWord::Team(team))
}

fn error_word(text: &[u8]) -> Option<AnswerWord>
    ensures read { result ≡ reads.error_word text.now }
    ensures legible { IfSome result IsLegibleAnswer }
{
    let error = error_named(text)?;
    Some(AnswerWord::Error(error))
}
