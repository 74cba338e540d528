//! A hey line, word by word.

ghost use Rattle.std.specs.Prelude.{◌≡◌, Some, option_map};
ghost use Rattle.ak_hey.specs.Answers.{Gives};
ghost use Rattle.ak_hey.specs.Hey as reads;
ghost use Rattle.ak_hey.specs.Seen.{draft_of, state_of, place_and_draft};

use crate::brackets::bracket_at;
use crate::draft::Draft;
use crate::fault::WordFault;
use crate::value::{quoted_from, value_from};
use crate::words::{app_word_of, is_property, verb_of};
use ak_base::{AppWord, Limited, Text};
use ak_input::split_field;
use ak_message::{At, Message};
use std::alloc::Global;

/// What the words so far are.
#[derive(Drop)]
pub(crate) enum Reading<'a> {
    /// There are none.
    Start,
    /// `hey`
    Hey,
    /// `hey APP`
    App(AppWord),
    /// `hey APP VERB`, and what stands behind that up to the place.
    Body {
        app: AppWord,
        place: Place,
        draft: Draft<'a>,
    },
}

/// What the last word behind the application is.
#[derive(Drop)]
pub(crate) enum Place {
    Verb,
    Of,
    /// A property, whose elements may follow.
    Property(Text),
    /// The elements of a property.
    Elements,
    To,
    Data,
    /// `with` or `and`
    With,
    Field,
}

impl<'a> Reading<'a> {
    /// With one word more.
    pub(crate) fn with(self, alloc: Global, word: &'a [u8]) -> Result<Reading<'a>, WordFault>
        ensures { Gives state_of result (reads.next (state_of self.entry) word.now) }
    {
        match self {
            Reading::Start => begun(word),
            Reading::Hey => Ok(Reading::App(app_word_of(alloc, word)?)),
            Reading::App(app) => asked(alloc, app, word),
            Reading::Body { app, place, draft } => {
                let (place, draft) = step(alloc, place, draft, word)?;
                Ok(Reading::Body { app, place, draft })
            }
        }
    }

    /// What the words say, where they may end.
    pub(crate) fn finished(self, alloc: Global) -> Result<(AppWord, Limited<Message>), WordFault>
        ensures { Gives (λ said. said) result (reads.finished (state_of self.entry)) }
    {
        match self {
            Reading::Start => Err(WordFault::Bad),
            Reading::Hey => Err(WordFault::Bad),
            Reading::App(_) => Err(WordFault::Bad),
            Reading::Body { app, place, draft } => {
                let draft = ended(alloc, place, draft)?;
                Ok((app, draft.message()))
            }
        }
    }
}

fn begun<'a>(word: &[u8]) -> Result<Reading<'a>, WordFault>
    ensures { Gives state_of result (reads.begun word.now) }
{
    if word == b"hey".as_slice() {
        Ok(Reading::Hey)
    } else {
        Err(WordFault::Bad)
    }
}

fn asked<'a>(alloc: Global, app: AppWord, word: &[u8]) -> Result<Reading<'a>, WordFault>
    ensures { Gives state_of result (reads.asked app word.now) }
{
    let Some(what) = verb_of(word) else {
        return Err(WordFault::Bad);
    };
    Ok(Reading::Body {
        app,
        place: Place::Verb,
        draft: Draft::new(alloc, what),
    })
}

// The place and the draft behind one word more.
fn step<'a>(
    alloc: Global,
    place: Place,
    draft: Draft<'a>,
    word: &'a [u8],
) -> Result<(Place, Draft<'a>), WordFault>
    ensures { Gives place_and_draft result (reads.step place (draft_of draft.entry) word.now) }
{
    match place {
        Place::Verb => Ok((behind_verb(alloc, word)?, draft)),
        Place::Of => Ok((property(alloc, word)?, draft)),
        Place::Property(name) => behind_property(alloc, name, draft, word),
        Place::Elements => Ok((key(word)?, draft)),
        Place::To => Ok((Place::Data, with_data(alloc, draft, word)?)),
        Place::Data => Ok((leading(word, b"with")?, draft)),
        Place::With => Ok((Place::Field, with_field(alloc, draft, word)?)),
        Place::Field => Ok((leading(word, b"and")?, draft)),
    }
}

// The first `of` may be left out.
fn behind_verb(alloc: Global, word: &[u8]) -> Result<Place, WordFault>
    ensures { Gives (λ p. p) result (reads.behind_verb word.now) }
{
    match key_of(word) {
        Some(place) => Ok(place),
        None => property(alloc, word),
    }
}

fn property(alloc: Global, word: &[u8]) -> Result<Place, WordFault>
    ensures { Gives (λ p. p) result (reads.property word.now) }
{
    if is_property(word) {
        Ok(Place::Property(Text::from_word(alloc, word)?))
    } else {
        Err(WordFault::Bad)
    }
}

// What leads on behind a property and its elements.
fn key_of(word: &[u8]) -> Option<Place>
    ensures { result ≡ reads.key_of word.now }
{
    if word == b"of".as_slice() {
        Some(Place::Of)
    } else if word == b"to".as_slice() {
        Some(Place::To)
    } else if word == b"with".as_slice() {
        Some(Place::With)
    } else {
        None
    }
}

fn key(word: &[u8]) -> Result<Place, WordFault>
    ensures { Gives (λ p. p) result (reads.key_of word.now) }
{
    match key_of(word) {
        Some(place) => Ok(place),
        None => Err(WordFault::Bad),
    }
}

// `with` before the first field, and `and` before each further one.
fn leading(word: &[u8], wanted: &[u8]) -> Result<Place, WordFault>
    ensures { Gives (λ p. p) result (reads.leading word.now wanted.now) }
{
    if word == wanted {
        Ok(Place::With)
    } else {
        Err(WordFault::Bad)
    }
}

// Behind a property stand its elements, or else the property itself is meant.
fn behind_property<'a>(
    alloc: Global,
    name: Text,
    draft: Draft<'a>,
    word: &[u8],
) -> Result<(Place, Draft<'a>), WordFault>
    ensures { Gives place_and_draft result (reads.behind_property name (draft_of draft.entry) word.now) }
{
    let (place, at) = elements_or_key(alloc, word)?;
    let draft = draft.with_specifier(alloc, name, at)?;
    Ok((place, draft))
}

fn elements_or_key(alloc: Global, word: &[u8]) -> Result<(Place, Limited<At>), WordFault>
    ensures { Gives (λ p. p) result (reads.elements_or_key word.now) }
{
    match key_of(word) {
        Some(place) => Ok((place, Limited::Within(At::Direct))),
        None => Ok((Place::Elements, elements(alloc, word)?)),
    }
}

// Brackets, or a name in quotes.
fn elements(alloc: Global, word: &[u8]) -> Result<Limited<At>, WordFault>
    ensures { Gives (λ a. a) result (reads.elements word.now) }
{
    if word.starts_with(b"[") {
        bracket(word)
    } else {
        Ok(named(quoted_from(alloc, word)?))
    }
}

fn bracket(word: &[u8]) -> Result<Limited<At>, WordFault>
    ensures { Gives (λ a. a) result (reads.bracket word.now) }
{
    match bracket_at(word) {
        Some(at) => Ok(Limited::Within(at)),
        None => Err(WordFault::Bad),
    }
}

fn named(name: Limited<Text>) -> Limited<At>
    ensures { result ≡ reads.named name }
{
    match name {
        Limited::Within(name) => Limited::Within(At::Name(name)),
        Limited::Over => Limited::Over,
    }
}

#[tactic(auto, unfolding(crate::specs::Hey::with_data))]
fn with_data<'a>(alloc: Global, draft: Draft<'a>, word: &[u8]) -> Result<Draft<'a>, WordFault>
    ensures { Gives draft_of result (reads.with_data (draft_of draft.entry) word.now) }
{
    let value = value_from(alloc, word)?;
    draft.with_value(b"data", value)
}

#[tactic(auto, unfolding(crate::specs::Hey::with_field))]
fn with_field<'a>(alloc: Global, draft: Draft<'a>, word: &'a [u8]) -> Result<Draft<'a>, WordFault>
    ensures { Gives draft_of result (reads.with_field (draft_of draft.entry) word.now) }
{
    let Some((name, text)) = split_field(word) else {
        return Err(WordFault::Bad);
    };
    let value = value_from(alloc, text)?;
    draft.with_value(name, value)
}

// The draft, where the words may end at this place.
fn ended<'a>(alloc: Global, place: Place, draft: Draft<'a>) -> Result<Draft<'a>, WordFault>
    ensures { Gives draft_of result (reads.ended place (draft_of draft.entry)) }
{
    match place {
        Place::Verb | Place::Elements | Place::Data | Place::Field => Ok(draft),
        Place::Property(name) => draft.with_specifier(alloc, name, Limited::Within(At::Direct)),
        Place::Of | Place::To | Place::With => Err(WordFault::Bad),
    }
}
