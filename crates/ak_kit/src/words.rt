//! The words of the command line.
ghost use Rattle.std.specs.Prelude.{◌≡◌, ◌≢◌, ◌≤◌, ◌∷◌, ◌↔◌, [], ℕ, pos, IsTrue, IfSome, IfNone};
ghost use Rattle.std.specs.Fmt.{decimal};
ghost use Rattle.ak_script.specs.Generated.{generated_limit};
ghost use Rattle.ak_kit.specs.Kit as kit;

use ak_base::{Bytes, one_int_text, printed_ints_are_read, read_int};
use ak_script::GENERATED_LIMIT;

/// What the program is asked to do.
#[derive(Clone, Copy, Debug)]
pub(crate) enum Command {
    /// `run`: an input is carried out.
    Run,
    /// `run -j`: it is carried out, and all that was done is told entry by entry.
    Journal,
    /// `read`: an input is told of.
    Read,
    /// `gen N`: the script of that number is carried out and told of. A script is made of it.
    Gen(u32),
}

/// The command that the words after the program's name say. None where they say none.
pub(crate) fn command_of(words: &[Bytes]) -> Option<Command>
    ensures said { IfSome result (kit.SaysCommand words.now) }
    ensures number { IfSome result (kit.TellsNumber words.now) }
    ensures none { IfNone result (¬ kit.IsCommand words.now) }
{
    let Some((word, behind)) = words.split_first() else {
        return None;
    };
    let Some((second, rest)) = behind.split_first() else {
        return plain_command(word.as_slice());
    };
    if !rest.is_empty() {
        return None;
    }
    if says_journal(word.as_slice(), second.as_slice()) {
        return Some(Command::Journal);
    }
    gen_command(word.as_slice(), second.as_slice())
}

fn is_word(word: &[u8], name: &[u8]) -> bool
    ensures { IsTrue result ↔ (word.now ≡ name.now) }
{
    word == name
}

// The command that this word alone says.
fn plain_command(word: &[u8]) -> Option<Command>
    ensures said { IfSome result (kit.SaysCommand (word.now ∷ [])) }
    ensures number { IfSome result (kit.TellsNumber (word.now ∷ [])) }
    ensures none { IfNone result (¬ kit.ReadsInput (word.now ∷ [])) }
{
    if is_word(word, b"run") {
        return Some(Command::Run);
    }
    if is_word(word, b"read") {
        return Some(Command::Read);
    }
    None
}

// Whether they are `run -j`.
fn says_journal(word: &[u8], flag: &[u8]) -> bool
    ensures { IsTrue result ↔ (word.now ∷ flag.now ∷ [] ≡ kit.journal_words) }
{
    is_word(word, b"run") && is_word(flag, b"-j")
}

// The command that a word and a number say.
fn gen_command(word: &[u8], number: &[u8]) -> Option<Command>
    ensures said { IfSome result (kit.SaysCommand (word.now ∷ number.now ∷ [])) }
    ensures number { IfSome result (kit.TellsNumber (word.now ∷ number.now ∷ [])) }
    ensures none { IfNone result (¬ kit.IsGen (word.now ∷ number.now ∷ [])) }
{
    if !is_word(word, b"gen") {
        return None;
    }
    match gen_number(number) {
        Some(n) => Some(Command::Gen(n)),
        None => None,
    }
}

// The number that is written so, if a script is made of it.
fn gen_number(digits: &[u8]) -> Option<u32>
    ensures some { IfSome result (λ n. 1 ≤ n) }
    ensures limit { IfSome result (λ n. n ≤ generated_limit) }
    ensures written { IfSome result (λ n. digits.now ≡ decimal n) }
    ensures only { IfSome result (λ n. (m : ℕ) → digits.now ≡ decimal m → m ≡ n) }
    ensures none { IfNone result ((n : ℕ) → 1 ≤ n → n ≤ generated_limit → digits.now ≡ decimal n → ⊥) }
{
    one_int_text();
    printed_ints_are_read();
    let Some(number) = read_int(digits) else {
        return None;
    };
    small_number(number)
}

// That number, if a script is made of it.
fn small_number(number: i128) -> Option<u32>
    ensures some { IfSome result (λ n. 1 ≤ n) }
    ensures limit { IfSome result (λ n. n ≤ generated_limit) }
    ensures same { IfSome result (λ n. number ≡ pos n) }
    ensures none { IfNone result ((n : ℕ) → 1 ≤ n → n ≤ generated_limit → number ≢ pos n) }
{
    if number < 1 || number > i128::from(GENERATED_LIMIT) {
        return None;
    }
    Some(number as u32)
}
