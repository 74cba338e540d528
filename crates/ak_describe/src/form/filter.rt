//! `[what CODE] [from local|remote] [by dropped|programmed]`, and then `skip` or `pass [to NAME] [as CODE]`.

ghost use Rattle.std.specs.Prelude.{◌≡◌};
ghost use Rattle.ak_describe.specs.Answers.{Gives};
ghost use Rattle.ak_describe.specs.Forms as reads;
ghost use Rattle.ak_describe.specs.Seen.{read_and_rest};
ghost use Rattle.ak_describe.specs.Words.{texts};

use crate::fault::FormFault;
use crate::words::{behind, code_at, ends, first_of, name_at};
use ak_base::{Code, Text};
use ak_filter::{DeliveryIs, Filter, SourceIs};
use ak_input::Word;
use std::alloc::Global;

#[tactic(auto, unfolding(crate::specs::Forms::filter_form))]
pub(crate) fn filter_form(alloc: Global, words: &[Word]) -> Result<Filter, FormFault>
    ensures { Gives (λ f. f) result (reads.filter_form (texts words.now)) }
{
    let (what, words) = code_behind(words, b"what")?;
    let (source, words) = source_at(words)?;
    let (delivery, words) = delivery_at(words)?;
    let Passing { skip, to, set_what } = passing_from(alloc, words)?;
    Ok(Filter {
        what,
        source,
        delivery,
        skip,
        to,
        set_what,
    })
}

fn code_behind<'a>(words: &'a [Word], key: &[u8]) -> Result<(Option<Code>, &'a [Word]), FormFault>
    ensures { Gives read_and_rest result (reads.code_behind (texts words.now) key.now) }
{
    match behind(words, key) {
        Some(rest) => {
            let (code, rest) = code_at(rest)?;
            Ok((Some(code), rest))
        }
        None => Ok((None, words)),
    }
}

fn source_at(words: &[Word]) -> Result<(SourceIs, &[Word]), FormFault>
    ensures { Gives read_and_rest result (reads.source_at (texts words.now)) }
{
    let Some(rest) = behind(words, b"from") else {
        return Ok((SourceIs::Any, words));
    };
    let (word, rest) = first_of(rest)?;
    match source_of(word) {
        Some(source) => Ok((source, rest)),
        None => Err(FormFault::BadValue),
    }
}

fn source_of(word: &[u8]) -> Option<SourceIs>
    ensures { result ≡ reads.source_of word.now }
{
    if word == b"local".as_slice() {
        Some(SourceIs::Local)
    } else if word == b"remote".as_slice() {
        Some(SourceIs::Remote)
    } else {
        None
    }
}

fn delivery_at(words: &[Word]) -> Result<(DeliveryIs, &[Word]), FormFault>
    ensures { Gives read_and_rest result (reads.delivery_at (texts words.now)) }
{
    let Some(rest) = behind(words, b"by") else {
        return Ok((DeliveryIs::Any, words));
    };
    let (word, rest) = first_of(rest)?;
    match delivery_of(word) {
        Some(delivery) => Ok((delivery, rest)),
        None => Err(FormFault::BadValue),
    }
}

fn delivery_of(word: &[u8]) -> Option<DeliveryIs>
    ensures { result ≡ reads.delivery_of word.now }
{
    if word == b"dropped".as_slice() {
        Some(DeliveryIs::Dropped)
    } else if word == b"programmed".as_slice() {
        Some(DeliveryIs::Programmed)
    } else {
        None
    }
}

// What becomes of a message that is admitted.
#[derive(Drop)]
struct Passing {
    skip: bool,
    to: Option<Text>,
    set_what: Option<Code>,
}

#[tactic(auto, unfolding(crate::specs::Forms::passing_from))]
fn passing_from(alloc: Global, words: &[Word]) -> Result<Passing, FormFault>
    ensures { Gives (λ p. p) result (reads.passing_from (texts words.now)) }
{
    if let Some(rest) = behind(words, b"skip") {
        return skipping(rest);
    }
    match behind(words, b"pass") {
        Some(rest) => passing_at(alloc, rest),
        None => Err(FormFault::BadValue),
    }
}

// A message is skipped, and nothing more is said.
fn skipping(words: &[Word]) -> Result<Passing, FormFault>
    ensures { Gives (λ p. p) result (reads.skipping_at (texts words.now)) }
{
    if ends(words) {
        Ok(Passing {
            skip: true,
            to: None,
            set_what: None,
        })
    } else {
        Err(FormFault::BadValue)
    }
}

// `[to NAME] [as CODE]`
#[tactic(auto, unfolding(crate::specs::Forms::passing_at))]
fn passing_at(alloc: Global, words: &[Word]) -> Result<Passing, FormFault>
    ensures { Gives (λ p. p) result (reads.passing_at (texts words.now)) }
{
    let (to, words) = name_behind(alloc, words, b"to")?;
    let (set_what, words) = code_behind(words, b"as")?;
    if !ends(words) {
        return Err(FormFault::BadValue);
    }
    Ok(Passing {
        skip: false,
        to,
        set_what,
    })
}

fn name_behind<'a>(
    alloc: Global,
    words: &'a [Word],
    key: &[u8],
) -> Result<(Option<Text>, &'a [Word]), FormFault>
    ensures { Gives read_and_rest result (reads.name_behind (texts words.now) key.now) }
{
    match behind(words, key) {
        Some(rest) => {
            let (name, rest) = name_at(alloc, rest)?;
            Ok((Some(name), rest))
        }
        None => Ok((None, words)),
    }
}
