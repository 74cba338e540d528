//! The lines of properties and of their elements.

ghost use Rattle.std.specs.Prelude.{◌≡◌, Some};
ghost use Rattle.ak_base.specs.Limited.{limited_map};
ghost use Rattle.ak_message.specs.Seen.{value_of};
ghost use Rattle.ak_input.specs.Written.{code_of};
ghost use Rattle.ak_describe.specs.Answers.{Gives};
ghost use Rattle.ak_describe.specs.Forms as reads;
ghost use Rattle.ak_describe.specs.Seen.{read_and_rest, items_and_rest, element_pair};
ghost use Rattle.ak_describe.specs.Words.{texts, many};

use crate::fault::FormFault;
use crate::form::values::{quoted_from, value_of_kind};
use crate::words::{behind, ends, first_of, kind_of, name_at};
use ak_base::{Code, Items, Limited, Text};
use ak_input::{Word, read_code, read_number};
use ak_message::{Kind, Value};
use std::alloc::Global;

// The last of the forms of specifiers.
const FORM_LIMIT: u32 = 7;

/// A property. Where `usage` passes a limit, the rest is told without it.
#[derive(Drop)]
pub(crate) struct PropertyForm {
    pub name: Text,
    pub kind: Kind,
    pub commands: Items<Code>,
    pub forms: Items<u32>,
    pub usage: Limited<Text>,
}

/// `NAME KIND [commands CODE ...] [forms NUMBER ...] [usage TEXT]`
#[tactic(auto, unfolding(crate::specs::Forms::property_form))]
pub(crate) fn property_form(alloc: Global, words: &[Word]) -> Result<PropertyForm, FormFault>
    ensures { Gives (λ f. f) result (reads.property_form (texts words.now)) }
{
    let (name, words) = name_at(alloc, words)?;
    let (kind, words) = kind_at(words)?;
    let (commands, words) = commands_at(alloc, words)?;
    let (forms, words) = forms_at(alloc, words)?;
    let (usage, words) = text_behind(alloc, words, b"usage")?;
    if !ends(words) {
        return Err(FormFault::BadValue);
    }
    Ok(PropertyForm {
        name,
        kind,
        commands,
        forms,
        usage,
    })
}

fn kind_at(words: &[Word]) -> Result<(Kind, &[Word]), FormFault>
    ensures { Gives read_and_rest result (reads.kind_at (texts words.now)) }
{
    let (word, rest) = first_of(words)?;
    match kind_of(word) {
        Some(kind) => Ok((kind, rest)),
        None => Err(FormFault::BadValue),
    }
}

// Behind `commands` stands one code or more.
fn commands_at(alloc: Global, words: &[Word]) -> Result<(Items<Code>, &[Word]), FormFault>
    ensures { Gives read_and_rest result (reads.commands_at (texts words.now)) }
{
    let Some(rest) = behind(words, b"commands") else {
        return Ok((Items::from_vec(Vec::new(alloc)), words));
    };
    let (commands, rest) = codes_at(alloc, rest)?;
    if commands.is_empty() {
        return Err(FormFault::BadValue);
    }
    Ok((Items::from_vec(commands), rest))
}

// All codes up to the first word that is none.
fn codes_at(alloc: Global, words: &[Word]) -> Result<(Vec<Code>, &[Word]), FormFault>
    ensures { Gives items_and_rest result (Some (many code_of (texts words.now))) }
{
    let mut codes = Vec::new(alloc);
    let mut rest = words;
    while let Some((word, others)) = rest.split_first() {
        let Some(code) = read_code(word.bytes.as_slice()) else {
            break;
        };
        codes.push(code)?;
        rest = others;
    }
    Ok((codes, rest))
}

// Behind `forms` stands one number or more.
fn forms_at(alloc: Global, words: &[Word]) -> Result<(Items<u32>, &[Word]), FormFault>
    ensures { Gives read_and_rest result (reads.forms_at (texts words.now)) }
{
    let Some(rest) = behind(words, b"forms") else {
        return Ok((Items::from_vec(Vec::new(alloc)), words));
    };
    let (forms, rest) = numbers_at(alloc, rest)?;
    if forms.is_empty() {
        return Err(FormFault::BadValue);
    }
    Ok((Items::from_vec(forms), rest))
}

// All numbers of forms up to the first word that is none.
fn numbers_at(alloc: Global, words: &[Word]) -> Result<(Vec<u32>, &[Word]), FormFault>
    ensures { Gives items_and_rest result (Some (many reads.form_of (texts words.now))) }
{
    let mut numbers = Vec::new(alloc);
    let mut rest = words;
    while let Some((word, others)) = rest.split_first() {
        let Some(number) = form_of(word.bytes.as_slice()) else {
            break;
        };
        numbers.push(number)?;
        rest = others;
    }
    Ok((numbers, rest))
}

// A form of specifiers, by its number.
fn form_of(word: &[u8]) -> Option<u32>
    ensures { result ≡ reads.form_of word.now }
{
    read_number(word, 1, FORM_LIMIT)
}

// The text behind that word, where it passes no limit. It is empty where the word does not stand here.
fn text_behind<'a>(
    alloc: Global,
    words: &'a [Word],
    key: &[u8],
) -> Result<(Limited<Text>, &'a [Word]), FormFault>
    ensures { Gives read_and_rest result (reads.text_behind (texts words.now) key.now) }
{
    let Some(rest) = behind(words, key) else {
        return Ok((Limited::Within(Text::empty(alloc)?), words));
    };
    let (word, rest) = first_of(rest)?;
    let text = quoted_from(alloc, word)?;
    Ok((text, rest))
}

/// `VALUE [name TEXT]`, the value of that kind: the name and the value, where neither passes a limit.
#[tactic(auto, unfolding(crate::specs::Forms::element_form))]
pub(crate) fn element_form(
    alloc: Global,
    kind: Kind,
    words: &[Word],
) -> Result<Limited<(Text, Value)>, FormFault>
    ensures { Gives (limited_map element_pair) result (reads.element_form kind (texts words.now)) }
{
    let (word, words) = first_of(words)?;
    let value = value_of_kind(alloc, kind, word)?;
    let (name, words) = text_behind(alloc, words, b"name")?;
    if !ends(words) {
        return Err(FormFault::BadValue);
    }
    Ok(both(name, value))
}

fn both(name: Limited<Text>, value: Limited<Value>) -> Limited<(Text, Value)>
    ensures { limited_map element_pair result ≡ reads.both name (limited_map value_of value) }
{
    let Limited::Within(name) = name else {
        return Limited::Over;
    };
    let Limited::Within(value) = value else {
        return Limited::Over;
    };
    Limited::Within((name, value))
}
