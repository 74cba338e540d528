//! `hey`

ghost use Rattle.ak_script.specs.Answers.{Tells};
ghost use Rattle.ak_script.specs.Forms as reads;
ghost use Rattle.ak_script.specs.StatementSeen.{hey_seen};

use crate::fault::StatementFault;
use crate::statement::Hey;
use ak_hey::{HeyLine, end_of, read_hey};
use ak_input::Word;
use std::alloc::Global;

/// A hey line, with its first word.
pub(crate) fn hey_of(alloc: Global, words: &[Word]) -> Result<Hey, StatementFault>
    ensures { Tells hey_seen result (reads.hey_of words.now) }
{
    let HeyLine { app, message } = read_hey(alloc, words, end_of(words))?;
    Ok(Hey { app, message })
}
