//! `launch`

ghost use Rattle.std.specs.Prelude.{◌≡◌, ◌≤◌, [], length, IfOk, IsTrue};
ghost use Rattle.ak_base.specs.Limited.{limited_map};
ghost use Rattle.ak_base.specs.declared.limited.Limited.TheVariants.{Within};
ghost use Rattle.ak_message.specs.Limits.{value_limit};
ghost use Rattle.ak_input.specs.Written.{is_launched, quoted_text};
ghost use Rattle.ak_describe.specs.Words.{texts};
ghost use Rattle.ak_script.specs.Answers.{Gives, Tells};
ghost use Rattle.ak_script.specs.Faults as faults;
ghost use Rattle.ak_script.specs.Forms as reads;
ghost use Rattle.ak_script.specs.Seen.{items_of};
ghost use Rattle.ak_script.specs.StatementSeen.{launch_seen};

use crate::fault::{FormFault, StatementFault};
use crate::messages::{arguments_message, is_short};
use crate::statement::Launch;
use crate::words::first_of;
use ak_base::{AppWord, Limited, NoMemory, Text};
use ak_describe::{behind, ends};
use ak_input::{ParseFault, Word, read_launch_word, read_quoted};
use ak_message::VALUE_LIMIT;
use std::alloc::Global;

/// `WORD`, or `WORD args TEXT ..`
pub(crate) fn launch_of(alloc: Global, words: &[Word]) -> Result<Launch, StatementFault>
    ensures { Tells launch_seen result (reads.launch_of (texts words.now)) }
{
    let Some((word, words)) = first_of(words) else {
        return Err(StatementFault::BadValue);
    };
    let Some(word) = read_launch_word(alloc, word)? else {
        return Err(StatementFault::BadValue);
    };
    launched(alloc, word, words)
}

// With the words behind the one that names the application.
fn launched(alloc: Global, word: AppWord, words: &[Word]) -> Result<Launch, StatementFault>
    requires { IsTrue (is_launched word) }
    ensures { Tells launch_seen result (reads.launched word (texts words.now)) }
{
    if ends(words) {
        return Ok(Launch {
            word,
            arguments: None,
        });
    }
    match arguments_at(alloc, words)? {
        Limited::Within(texts) => launch_kept(alloc, word, texts),
        Limited::Over => Err(StatementFault::Limit),
    }
}

// With these arguments, where the message that tells of them has at most 4,096 bytes of flat text.
fn launch_kept(alloc: Global, word: AppWord, texts: Vec<Text>) -> Result<Launch, StatementFault>
    requires form { IsTrue (is_launched word) }
    requires few { length texts.items ≤ value_limit }
    ensures { Tells launch_seen result (reads.launch_kept word texts.items) }
{
    let message = arguments_message(alloc, &texts)?;
    if !is_short(&message) {
        return Err(StatementFault::Limit);
    }
    Ok(Launch {
        word,
        arguments: Some(message),
    })
}

// `args TEXT ..`
#[tactic(auto, unfolding(crate::specs::Forms::arguments_at))]
fn arguments_at(alloc: Global, words: &[Word]) -> Result<Limited<Vec<Text>>, FormFault>
    ensures texts { Gives (limited_map items_of) result (reads.arguments_at (texts words.now)) }
    ensures few { IfOk result (λ read. reads.FewTexts (limited_map items_of read)) }
{
    let Some(words) = behind(words, b"args") else {
        return Err(FormFault::BadValue);
    };
    if ends(words) {
        return Err(FormFault::BadValue);
    }
    texts_in(alloc, words)
}

// Texts in quotes.
#[tactic(auto, unfolding(crate::specs::Forms::texts_behind))]
fn texts_in(alloc: Global, words: &[Word]) -> Result<Limited<Vec<Text>>, FormFault>
    ensures texts { Gives (limited_map items_of) result (reads.texts_behind (Within []) (texts words.now)) }
    ensures few { IfOk result (λ read. reads.FewTexts (limited_map items_of read)) }
{
    let mut read = Limited::Within(Vec::new(alloc));
    for word in words {
        let text = quoted_from(alloc, word.bytes.as_slice())?;
        read = with_text(read, text)?;
    }
    Ok(read)
}

// A text in quotes, where it is not too long.
fn quoted_from(alloc: Global, word: &[u8]) -> Result<Limited<Text>, FormFault>
    ensures { Gives (λ t. t) result (quoted_text word.now) }
{
    kept(read_quoted(alloc, word))
}

// What was read, where it passes no limit.
fn kept(read: Result<Text, ParseFault>) -> Result<Limited<Text>, FormFault>
    ensures { result ≡ faults.kept read }
{
    match read {
        Ok(text) => Ok(Limited::Within(text)),
        Err(ParseFault::Limit) => Ok(Limited::Over),
        Err(ParseFault::BadValue) => Err(FormFault::BadValue),
        Err(ParseFault::NoMemory) => Err(FormFault::NoMemory),
    }
}

// One more text, where it is not too long and there are not 255.
fn with_text(read: Limited<Vec<Text>>, text: Limited<Text>) -> Result<Limited<Vec<Text>>, NoMemory>
    ensures more { IfOk result (λ more. limited_map items_of more ≡ reads.with_text (limited_map items_of read) text) }
    ensures few { IfOk result (λ more. reads.FewTexts (limited_map items_of more)) }
{
    let Limited::Within(mut texts) = read else {
        return Ok(Limited::Over);
    };
    let Limited::Within(text) = text else {
        return Ok(Limited::Over);
    };
    if texts.len() >= VALUE_LIMIT {
        return Ok(Limited::Over);
    }
    texts.push(text)?;
    Ok(Limited::Within(texts))
}
