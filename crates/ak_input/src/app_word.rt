ghost use Rattle.std.specs.Prelude.{◌≡◌, IfOk, IfSome, IsTrue};
ghost use Rattle.ak_input.specs.Written as reads;

use crate::payload::read_number;
use ak_base::{AppWord, NoMemory, Text, is_path, is_signature, is_word};
use std::alloc::Global;

/// How a word names an application: a team by its number, or by a signature, or by a name, which is a word
/// without a slash. A number is one that is printed so, up to 4,294,967,295. `None` where the word names none.
/// Answers `NoMemory` where memory ran out.
#[tactic(auto, unfolding(crate::specs::Written::app_word_of))]
pub fn read_app_word(alloc: Global, word: &[u8]) -> Result<Option<AppWord>, NoMemory>
    ensures word { IfOk result (λ app. app ≡ reads.app_word_of word.now) }
    ensures form { IfOk result (λ app. IfSome app (λ a. IsTrue (reads.is_looked_up a))) }
{
    if let Some(team) = read_number(word, 0, u32::MAX) {
        return Ok(Some(AppWord::Team(team)));
    }
    if is_signature(word) {
        return Ok(Some(AppWord::Signature(Text::from_word(alloc, word)?)));
    }
    if is_app_name(word) {
        return Ok(Some(AppWord::Name(Text::from_word(alloc, word)?)));
    }
    Ok(None)
}

/// The path or the signature by which a word names what is launched. `None` where the word is neither. Answers
/// `NoMemory` where memory ran out.
pub fn read_launch_word(alloc: Global, word: &[u8]) -> Result<Option<AppWord>, NoMemory>
    ensures word { IfOk result (λ app. app ≡ reads.launch_word_of word.now) }
    ensures form { IfOk result (λ app. IfSome app (λ a. IsTrue (reads.is_launched a))) }
{
    if is_path(word) {
        return Ok(Some(AppWord::Path(Text::from_word(alloc, word)?)));
    }
    if is_signature(word) {
        return Ok(Some(AppWord::Signature(Text::from_word(alloc, word)?)));
    }
    Ok(None)
}

// Of a path that is its last part.
fn is_app_name(word: &[u8]) -> bool
    ensures { result ≡ reads.is_app_name word.now }
{
    is_word(word) && !word.contains(&b'/')
}
