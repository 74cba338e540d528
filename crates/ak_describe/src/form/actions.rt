//! The lines of actions. Of an action that passes a limit nothing is kept.

ghost use Rattle.std.specs.Prelude.{◌≡◌, option_map};
ghost use Rattle.ak_describe.specs.Actions as reads;
ghost use Rattle.ak_describe.specs.Answers.{Gives};
ghost use Rattle.ak_describe.specs.Seen.{flag_and_rest, read_and_rest, two_seen, word_and_rest};
ghost use Rattle.ak_describe.specs.Words.{texts};

use crate::fault::FormFault;
use crate::form::dest::{dest_at, may_be_asked};
use crate::form::template::{copied_from, given_values, property_name, template_form};
use crate::form::values::{number_from, one_from};
use crate::parts::{PropertyParts, property_named};
use crate::words::{ends, first_of, last_of, name_of};
use ak_action::{Action, Dest, Given, Template};
use ak_base::{Limited, Text};
use ak_input::Word;
use std::alloc::Global;

/// `MESSAGE`
#[tactic(auto, unfolding(crate::specs::Actions::reply_form))]
pub(crate) fn reply_form(
    alloc: Global,
    properties: &[PropertyParts],
    words: &[Word],
) -> Result<Limited<Action>, FormFault>
    ensures { Gives (λ a. a) result (reads.reply_form properties.now (texts words.now)) }
{
    match template_form(alloc, properties, words)? {
        Limited::Within(message) => Ok(Limited::Within(Action::Reply { message })),
        Limited::Over => Ok(Limited::Over),
    }
}

/// `DEST MESSAGE [back]`
#[tactic(auto, unfolding(crate::specs::Actions::post_form))]
pub(crate) fn post_form(
    alloc: Global,
    properties: &[PropertyParts],
    words: &[Word],
) -> Result<Limited<Action>, FormFault>
    ensures { Gives (λ a. a) result (reads.post_form properties.now (texts words.now)) }
{
    let (to, words) = dest_at(alloc, words)?;
    let (back, words) = back_behind(words);
    let message = template_form(alloc, properties, words)?;
    Ok(post_action(to, back, message))
}

fn post_action(to: Dest, back: bool, message: Limited<Template>) -> Limited<Action>
    ensures { result ≡ reads.post_action to back message }
{
    match message {
        Limited::Within(message) => Limited::Within(Action::Post { to, message, back }),
        Limited::Over => Limited::Over,
    }
}

// Whether the last word is `back`, and the words before it.
fn back_behind(words: &[Word]) -> (bool, &[Word])
    ensures { flag_and_rest result ≡ reads.back_behind (texts words.now) }
{
    let Some((last, front)) = last_of(words) else {
        return (false, words);
    };
    if last == b"back".as_slice() {
        (true, front)
    } else {
        (false, words)
    }
}

/// `DEST MESSAGE [into NAME]`, to what may be asked
#[tactic(auto, unfolding(crate::specs::Actions::ask_form))]
pub(crate) fn ask_form(
    alloc: Global,
    properties: &[PropertyParts],
    words: &[Word],
) -> Result<Limited<Action>, FormFault>
    ensures { Gives (λ a. a) result (reads.ask_form properties.now (texts words.now)) }
{
    let (to, words) = dest_at(alloc, words)?;
    if !may_be_asked(&to) {
        return Err(FormFault::BadValue);
    }
    let (into, words) = into_behind(alloc, properties, words)?;
    let message = template_form(alloc, properties, words)?;
    Ok(ask_action(to, into, message))
}

fn ask_action(to: Dest, into: Option<Text>, message: Limited<Template>) -> Limited<Action>
    ensures { result ≡ reads.ask_action to into message }
{
    match message {
        Limited::Within(message) => Limited::Within(Action::Ask { to, message, into }),
        Limited::Over => Limited::Over,
    }
}

// The property behind `into`, where this is the last word but one, and the words before it.
fn into_behind<'a>(
    alloc: Global,
    properties: &[PropertyParts],
    words: &'a [Word],
) -> Result<(Option<Text>, &'a [Word]), FormFault>
    ensures { Gives read_and_rest result (reads.into_behind properties.now (texts words.now)) }
{
    let Some((name, front)) = into_at_end(words) else {
        return Ok((None, words));
    };
    let name = property_name(alloc, properties, name)?;
    Ok((Some(name), front))
}

#[tactic(auto, unfolding(crate::specs::Actions::into_at_end))]
fn into_at_end(words: &[Word]) -> Option<(&[u8], &[Word])>
    ensures { option_map word_and_rest result ≡ reads.into_at_end (texts words.now) }
{
    let (name, front) = last_of(words)?;
    let (key, front) = last_of(front)?;
    if key == b"into".as_slice() {
        Some((name, front))
    } else {
        None
    }
}

// Two words and no more.
#[tactic(auto, unfolding(crate::specs::Actions::two_words))]
fn two_words(words: &[Word]) -> Result<(&[u8], &[u8]), FormFault>
    ensures { Gives two_seen result (reads.two_words (texts words.now)) }
{
    let (first, words) = first_of(words)?;
    let (second, words) = first_of(words)?;
    if ends(words) {
        Ok((first, second))
    } else {
        Err(FormFault::BadValue)
    }
}

/// `NAME VALUE`, `NAME $NAME` or `NAME @NAME`
#[tactic(auto, unfolding(crate::specs::Actions::set_form))]
pub(crate) fn set_form(
    alloc: Global,
    properties: &[PropertyParts],
    words: &[Word],
) -> Result<Limited<Action>, FormFault>
    ensures { Gives (λ a. a) result (reads.set_form properties.now (texts words.now)) }
{
    let (name, word) = two_words(words)?;
    let property = property_name(alloc, properties, name)?;
    let given = set_given(alloc, properties, word)?;
    Ok(set_action(property, given))
}

fn set_action(property: Text, value: Limited<Given>) -> Limited<Action>
    ensures { result ≡ reads.set_action property value }
{
    match value {
        Limited::Within(value) => Limited::Within(Action::Set { property, value }),
        Limited::Over => Limited::Over,
    }
}

#[tactic(auto, unfolding(crate::specs::Actions::set_given))]
fn set_given(
    alloc: Global,
    properties: &[PropertyParts],
    word: &[u8],
) -> Result<Limited<Given>, FormFault>
    ensures { Gives (λ g. g) result (reads.set_given properties.now word.now) }
{
    if let Some(given) = copied_from(alloc, properties, word)? {
        return Ok(Limited::Within(given));
    }
    Ok(given_values(one_from(alloc, word)?))
}

/// `NAME VALUE`, the value a whole number of the property's kind. No limit can be passed.
#[tactic(auto, unfolding(crate::specs::Actions::add_form))]
pub(crate) fn add_form(
    alloc: Global,
    properties: &[PropertyParts],
    words: &[Word],
) -> Result<Action, FormFault>
    ensures { Gives (λ a. a) result (reads.add_form properties.now (texts words.now)) }
{
    let (name, word) = two_words(words)?;
    let Some(parts) = property_named(properties, name) else {
        return Err(FormFault::BadValue);
    };
    let amount = number_from(alloc, parts.row.kind, word)?;
    let property = name_of(alloc, name)?;
    Ok(Action::Add { property, amount })
}
