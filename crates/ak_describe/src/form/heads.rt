//! The lines that open applications and loopers, and the quit hook.

ghost use Rattle.std.specs.Prelude.{◌≡◌};
ghost use Rattle.ak_describe.specs.Answers.{Gives};
ghost use Rattle.ak_describe.specs.Forms as reads;
ghost use Rattle.ak_describe.specs.Words.{texts};

use crate::fault::FormFault;
use crate::words::{behind, ends, first_of, mode_of, name_at};
use ak_action::CAPACITY_LIMIT;
use ak_base::{Text, is_path, is_signature};
use ak_input::{Word, read_number};
use ak_roster::Mode;
use std::alloc::Global;

// What a port keeps where nothing is said.
const USUAL_CAPACITY: u32 = 100;

#[derive(Drop)]
pub(crate) struct AppForm {
    pub path: Text,
    pub signature: Text,
    pub mode: Mode,
}

/// `PATH SIGNATURE MODE`
#[tactic(auto, unfolding(crate::specs::Forms::app_form))]
pub(crate) fn app_form(alloc: Global, words: &[Word]) -> Result<AppForm, FormFault>
    ensures { Gives (λ f. f) result (reads.app_form (texts words.now)) }
{
    let (path, words) = first_of(words)?;
    let (signature, words) = first_of(words)?;
    let (mode, words) = first_of(words)?;
    if !ends(words) {
        return Err(FormFault::BadValue);
    }
    let Some(mode) = mode_of(mode) else {
        return Err(FormFault::BadValue);
    };
    if !is_path(path) || !is_signature(signature) {
        return Err(FormFault::BadValue);
    }
    Ok(AppForm {
        path: Text::from_word(alloc, path)?,
        signature: Text::from_word(alloc, signature)?,
        mode,
    })
}

#[derive(Drop)]
pub(crate) struct LooperForm {
    pub name: Text,
    pub capacity: u32,
}

/// `NAME` or `NAME capacity NUMBER`, the number from `least` on.
#[tactic(auto, unfolding(crate::specs::Forms::looper_form))]
pub(crate) fn looper_form(
    alloc: Global,
    least: u32,
    words: &[Word],
) -> Result<LooperForm, FormFault>
    ensures { Gives (λ f. f) result (reads.looper_form least (texts words.now)) }
{
    let (name, words) = name_at(alloc, words)?;
    let capacity = capacity_from(least, words)?;
    Ok(LooperForm { name, capacity })
}

#[tactic(auto, unfolding(crate::specs::Forms::capacity_from))]
fn capacity_from(least: u32, words: &[Word]) -> Result<u32, FormFault>
    ensures { Gives (λ n. n) result (reads.capacity_from least (texts words.now)) }
{
    if ends(words) {
        return Ok(USUAL_CAPACITY);
    }
    match behind(words, b"capacity") {
        Some(words) => capacity_at(least, words),
        None => Err(FormFault::BadValue),
    }
}

#[tactic(auto, unfolding(crate::specs::Forms::capacity_at))]
fn capacity_at(least: u32, words: &[Word]) -> Result<u32, FormFault>
    ensures { Gives (λ n. n) result (reads.capacity_at least (texts words.now)) }
{
    let (number, words) = first_of(words)?;
    if !ends(words) {
        return Err(FormFault::BadValue);
    }
    match read_number(number, least, CAPACITY_LIMIT) {
        Some(capacity) => Ok(capacity),
        None => Err(FormFault::BadValue),
    }
}

/// `quit refuse`
#[tactic(auto, unfolding(crate::specs::Forms::hook_form))]
pub(crate) fn hook_form(words: &[Word]) -> bool
    ensures { result ≡ reads.hook_form (texts words.now) }
{
    let Some(words) = behind(words, b"quit") else {
        return false;
    };
    let Some(words) = behind(words, b"refuse") else {
        return false;
    };
    ends(words)
}
