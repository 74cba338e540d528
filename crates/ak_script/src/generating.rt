//! The script that is made of a number.

ghost use Rattle.std.specs.Prelude.{◌≡◌, ◌≤◌, IfOk};
ghost use Rattle.ak_describe.specs.Whole.{AreWholeApps};
ghost use Rattle.ak_script.specs.Generated as gen;
ghost use Rattle.ak_script.specs.Generated.{generated_limit, GeneratedCounts};
ghost use Rattle.ak_script.specs.Seen.{script_seen};
ghost use Rattle.ak_script.specs.StatementSeen.{launch_seen, statements_seen};

mod described;
mod messages;
mod reactions;
mod sessions;

use crate::script::Script;
use crate::statement::{Launch, Statement};
use ak_base::{AppWord, NoMemory, Text};
use described::app;
use messages::get_count;
use sessions::block;
use std::alloc::Global;

/// The greatest number that a script is made of.
pub const GENERATED_LIMIT: u32 = 500;

/// The script of a number from 1 to 500. It has one application, whose own looper, `work`, has three others beside
/// it, `w1`, `w2` and `w3`. On `'incr'` each of the three adds 1 to its property `Count`, which is 0 at first, and replies.
/// The script launches the application; then 4 sessions, side by side, send `'incr'` so many times each: statement
/// `i` of session `s`, both counted from 1, goes to the looper at the place `1 + (s + i) % 3`. Last it asks each of
/// the three for its `Count`. Answers `NoMemory` where memory ran out.
pub fn generated(alloc: Global, n: u32) -> Result<Script, NoMemory>
    requires some { 1 ≤ n }
    requires limit { n ≤ generated_limit }
    ensures script { IfOk result (λ script. script_seen script ≡ gen.generated n) }
    ensures whole { IfOk result (λ script. AreWholeApps script.apps.items) }
{
    let mut apps = Vec::with_capacity(alloc, 1)?;
    apps.push(app(alloc)?)?;
    let statements = statements(alloc, n)?;
    Ok(Script { apps, statements })
}

// The launch, the sessions, and the questions.
fn statements(alloc: Global, n: u32) -> Result<Vec<Statement>, NoMemory>
    requires some { 1 ≤ n }
    requires limit { n ≤ generated_limit }
    ensures { IfOk result (λ statements. statements_seen statements.items ≡ gen.statements n) }
{
    let mut statements = Vec::with_capacity(alloc, 5)?;
    statements.push(Statement::Launch(launch(alloc)?))?;
    statements.push(Statement::Together(block(alloc, n)?))?;
    for place in 0..3 {
        statements.push(Statement::Hey(get_count(alloc, place + 1)?))?;
    }
    Ok(statements)
}

fn launch(alloc: Global) -> Result<Launch, NoMemory>
    ensures { IfOk result (λ s. launch_seen s ≡ gen.launch) }
{
    Ok(Launch {
        word: AppWord::Path(Text::from_word(alloc, b"/gen/work")?),
        arguments: None,
    })
}

/// A script of a number has 4 sessions, each of so many lines, and 4 lines more, so it is within the limits; it has one
/// application, of 4 loopers.
pub fn generated_counts()
    ensures { GeneratedCounts }
{}
