//! Where an action sends a message.

ghost use Rattle.std.specs.Prelude.{◌≡◌};
ghost use Rattle.ak_describe.specs.Actions as reads;
ghost use Rattle.ak_describe.specs.Answers.{Gives};
ghost use Rattle.ak_describe.specs.Seen.{read_and_rest};
ghost use Rattle.ak_describe.specs.Words.{texts};

use crate::fault::FormFault;
use crate::words::{app_word_of, first_of, name_at};
use ak_action::Dest;
use ak_base::AppWord;
use ak_input::Word;
use std::alloc::Global;

/// `self`, `looper NAME`, `handler NAME` or `app APP`
#[tactic(auto, unfolding(crate::specs::Actions::dest_at))]
pub(crate) fn dest_at(alloc: Global, words: &[Word]) -> Result<(Dest, &[Word]), FormFault>
    ensures { Gives read_and_rest result (reads.dest_at (texts words.now)) }
{
    let (word, rest) = first_of(words)?;
    if word == b"self".as_slice() {
        Ok((Dest::Own, rest))
    } else if word == b"looper".as_slice() {
        to_looper(alloc, rest)
    } else if word == b"handler".as_slice() {
        to_handler(alloc, rest)
    } else if word == b"app".as_slice() {
        to_app(alloc, rest)
    } else {
        Err(FormFault::BadValue)
    }
}

fn to_looper(alloc: Global, words: &[Word]) -> Result<(Dest, &[Word]), FormFault>
    ensures { Gives read_and_rest result (reads.to_looper (texts words.now)) }
{
    let (name, rest) = name_at(alloc, words)?;
    Ok((Dest::Looper(name), rest))
}

fn to_handler(alloc: Global, words: &[Word]) -> Result<(Dest, &[Word]), FormFault>
    ensures { Gives read_and_rest result (reads.to_handler (texts words.now)) }
{
    let (name, rest) = name_at(alloc, words)?;
    Ok((Dest::Handler(name), rest))
}

fn to_app(alloc: Global, words: &[Word]) -> Result<(Dest, &[Word]), FormFault>
    ensures { Gives read_and_rest result (reads.to_app (texts words.now)) }
{
    let (word, rest) = first_of(words)?;
    let app = app_word_of(alloc, word)?;
    Ok((Dest::App(app), rest))
}

/// Whether it can be asked: a looper, or an application that is not given by the number of a team.
pub(crate) fn may_be_asked(to: &Dest) -> bool
    ensures { result ≡ reads.may_be_asked to.now }
{
    match to {
        Dest::Looper(_) => true,
        Dest::App(word) => is_described(word),
        Dest::Own | Dest::Handler(_) => false,
    }
}

fn is_described(word: &AppWord) -> bool
    ensures { result ≡ reads.is_described word.now }
{
    match word {
        AppWord::Team(_) => false,
        AppWord::Path(_) | AppWord::Signature(_) | AppWord::Name(_) => true,
    }
}
