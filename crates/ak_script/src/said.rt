//! What a line says as a statement, by itself or in a session.

ghost use Rattle.ak_script.specs.Answers.{Tells};
ghost use Rattle.ak_script.specs.Forms as reads;
ghost use Rattle.ak_script.specs.StatementSeen.{line_seen, statement_seen};

use crate::fault::StatementFault;
use crate::form::hey::hey_of;
use crate::form::launch::launch_of;
use crate::form::lock::lock_of;
use crate::form::post::post_of;
use crate::statement::{SessionLine, Statement};
use crate::verb::{Verb, verb_of};
use ak_input::Word;
use std::alloc::Global;

/// The statement that the words of a line say, of which the first one says what it is.
#[tactic(auto, unfolding(crate::specs::Forms::statement_of))]
pub(crate) fn statement_of(alloc: Global, words: &[Word]) -> Result<Statement, StatementFault>
    ensures { Tells statement_seen result (reads.statement_of words.now) }
{
    let Some((first, rest)) = words.split_first() else {
        return Err(StatementFault::UnknownLine);
    };
    let Some(verb) = verb_of(first.bytes.as_slice()) else {
        return Err(StatementFault::UnknownLine);
    };
    match verb {
        Verb::Launch => Ok(Statement::Launch(launch_of(alloc, rest)?)),
        Verb::Hey => Ok(Statement::Hey(hey_of(alloc, words)?)),
        Verb::Post => Ok(Statement::Post(post_of(alloc, rest)?)),
        Verb::Lock => Ok(Statement::Lock(lock_of(alloc, rest)?)),
    }
}

/// What the words of a line say in a session, where nothing is launched.
#[tactic(auto, unfolding(crate::specs::Forms::session_line_of))]
pub(crate) fn session_line_of(alloc: Global, words: &[Word]) -> Result<SessionLine, StatementFault>
    ensures { Tells line_seen result (reads.session_line_of words.now) }
{
    let Some((first, rest)) = words.split_first() else {
        return Err(StatementFault::UnknownLine);
    };
    let Some(verb) = verb_of(first.bytes.as_slice()) else {
        return Err(StatementFault::UnknownLine);
    };
    match verb {
        Verb::Launch => Err(StatementFault::UnknownLine),
        Verb::Hey => Ok(SessionLine::Hey(hey_of(alloc, words)?)),
        Verb::Post => Ok(SessionLine::Post(post_of(alloc, rest)?)),
        Verb::Lock => Ok(SessionLine::Lock(lock_of(alloc, rest)?)),
    }
}
