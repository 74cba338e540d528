//! `post`

ghost use Rattle.std.specs.Prelude.{◌≡◌, option_map, IsTrue};
ghost use Rattle.ak_input.specs.Written.{is_looked_up};
ghost use Rattle.ak_describe.specs.Words.{texts};
ghost use Rattle.ak_script.specs.Answers.{Tells};
ghost use Rattle.ak_script.specs.Faults as faults;
ghost use Rattle.ak_script.specs.Forms as reads;
ghost use Rattle.ak_script.specs.Seen.{way_and_rest, way_seen};
ghost use Rattle.ak_script.specs.StatementSeen.{post_seen};

use crate::fault::StatementFault;
use crate::messages::is_short;
use crate::statement::Post;
use crate::words::{first_of, flag_behind, looper_at, token_behind};
use ak_base::AppWord;
use ak_input::{ParseFault, Word, read_app_word, read_message};
use ak_message::{Message, Target};
use std::alloc::Global;

// To which looper a message is posted, for whom, and how.
#[derive(Clone, Copy)]
struct Posting {
    looper: u32,
    target: Target,
    dropped: bool,
    waits: bool,
}

/// `APP [looper N] [token N] [dropped] [wait] MESSAGE`
pub(crate) fn post_of(alloc: Global, words: &[Word]) -> Result<Post, StatementFault>
    ensures { Tells post_seen result (reads.post_of (texts words.now)) }
{
    let Some((app, words)) = first_of(words) else {
        return Err(StatementFault::BadValue);
    };
    let Some(app) = read_app_word(alloc, app)? else {
        return Err(StatementFault::BadValue);
    };
    let Some((posting, words)) = way_at(words) else {
        return Err(StatementFault::BadValue);
    };
    let message = message_from(read_message(alloc, words))?;
    post_kept(app, posting, message)
}

// What was read; what passes a limit is told by that.
fn message_from(read: Result<Message, ParseFault>) -> Result<Message, StatementFault>
    ensures { result ≡ faults.message_from read }
{
    match read {
        Ok(message) => Ok(message),
        Err(ParseFault::BadValue) => Err(StatementFault::BadValue),
        Err(ParseFault::Limit) => Err(StatementFault::Limit),
        Err(ParseFault::NoMemory) => Err(StatementFault::NoMemory),
    }
}

// `[looper N] [token N] [dropped] [wait]`
#[tactic(auto, unfolding(crate::specs::Forms::way_at))]
fn way_at(words: &[Word]) -> Option<(Posting, &[Word])>
    ensures { option_map way_and_rest result ≡ reads.way_at (texts words.now) }
{
    let (looper, words) = looper_at(words)?;
    let (token, words) = token_behind(words)?;
    let (dropped, words) = flag_behind(words, b"dropped");
    let (waits, words) = flag_behind(words, b"wait");
    let posting = Posting {
        looper,
        target: target_of(token),
        dropped,
        waits,
    };
    Some((posting, words))
}

// The preferred handler where no token is given.
fn target_of(token: Option<u64>) -> Target
    ensures { result ≡ reads.target_of token }
{
    match token {
        Some(token) => Target::Token(token),
        None => Target::Preferred,
    }
}

// The statement, where its message has at most 4,096 bytes of flat text.
fn post_kept(app: AppWord, posting: Posting, message: Message) -> Result<Post, StatementFault>
    requires { IsTrue (is_looked_up app) }
    ensures { Tells post_seen result (reads.post_kept app (way_seen posting) message) }
{
    if !is_short(&message) {
        return Err(StatementFault::Limit);
    }
    let Posting {
        looper,
        target,
        dropped,
        waits,
    } = posting;
    Ok(Post {
        app,
        looper,
        target,
        dropped,
        waits,
        message,
    })
}
