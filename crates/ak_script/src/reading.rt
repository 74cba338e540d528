//! Reads a script in two passes.

ghost use Rattle.std.specs.Prelude.{◌≡◌, ◌≤◌, None, IfOk, IfErr};
ghost use Rattle.ak_describe.specs.Read.{end_fault};
ghost use Rattle.ak_describe.specs.Whole.{AreWholeApps};
ghost use Rattle.ak_script.specs.Answers.{Answers};
ghost use Rattle.ak_script.specs.Limits.{statement_limit};
ghost use Rattle.ak_script.specs.Pass as pass;
ghost use Rattle.ak_script.specs.Refusals.{IsRefusalOf, ScriptOf};
ghost use Rattle.ak_script.specs.Script as reads;
ghost use Rattle.ak_script.specs.Seen.{script_seen, so_far_of};
ghost use Rattle.ak_script.specs.Statement.{lines_in};
ghost use Rattle.ak_script.specs.StatementSeen.{statements_seen};

use crate::fault::{ScriptFault, refused};
use crate::laws::scripts_are_read;
use crate::script::Script;
use crate::so_far::ScriptSoFar;
use ak_describe::descriptions_are_whole;
use ak_input::{InputLines, Line, split_lines};
use std::alloc::Global;

/// The script that the input is the text of. Refused with the first fault. An input of over 1,048,576 bytes is
/// `InputTooLong`, before all else. Then the first pass goes line by line: the first line is `kit 1`, and behind
/// it stand lines that describe applications, then the line `script`, and statements, in at most 8,000 lines. A
/// statement is a line, or a block: the line `together`, 1 to 8 sessions, each of the line `session` and one or more
/// lines that launch nothing, and the line `end`. A line that begins otherwise, or may not stand there, is an
/// `UnknownLine`; one that begins with `hey` and is no hey line is `BadHey`, at its column; any other one with other
/// further words is a `BadValue`; one that gives a name again, or passes a limit, is told by that. A line without
/// words is told behind all lines before it. Where the lines end with an application without a looper, or in a
/// block, that is `Unfinished`. Where the first pass finds nothing, the second one goes over the names in the
/// descriptions: `UnknownName`, `ChainLoop` or `AskOrder`. An input in which no line says anything is the empty
/// script. Answers `NoMemory` where memory ran out.
pub fn read_script(alloc: Global, input: &[u8]) -> Result<Script, ScriptFault>
    ensures answer { Answers script_seen result (reads.script_of input.now) }
    ensures said { IfOk result (λ script. ScriptOf input.now (script_seen script)) }
    ensures refused { IfErr result (IsRefusalOf input.now) }
    ensures whole { IfOk result (λ script. AreWholeApps script.apps.items) }
{
    scripts_are_read();
    read_input(alloc, input)
}

// The same, as it is read.
#[tactic(auto, unfolding(crate::specs::Script::script_of))]
fn read_input(alloc: Global, input: &[u8]) -> Result<Script, ScriptFault>
    ensures answer { Answers script_seen result (reads.script_of input.now) }
    ensures whole { IfOk result (λ script. AreWholeApps script.apps.items) }
{
    let read = split_lines(alloc, input)?;
    script_in(alloc, &read)
}

#[tactic(auto, unfolding(crate::specs::Script::script_in))]
fn script_in(alloc: Global, read: &InputLines) -> Result<Script, ScriptFault>
    ensures answer { Answers script_seen result (reads.script_in read.now) }
    ensures whole { IfOk result (λ script. AreWholeApps script.apps.items) }
{
    let said = first_pass(alloc, read)?;
    second_pass(alloc, said)
}

// The first pass over all lines.
#[tactic(auto, unfolding(crate::specs::Pass::first_pass))]
fn first_pass(alloc: Global, read: &InputLines) -> Result<ScriptSoFar, ScriptFault>
    ensures answer { Answers so_far_of result (pass.first_pass read.now) }
    ensures ended { IfOk result (λ said. end_fault said.descriptions ≡ None) }
{
    let said = lines_said(alloc, read.lines.as_slice())?;
    if let Some(fault) = read.fault {
        return Err(refused(fault.line, fault.kind));
    }
    if let Some(fault) = said.descriptions.end_fault() {
        return Err(ScriptFault::from(fault));
    }
    if let Some(fault) = said.block_fault(read.lines.as_slice()) {
        return Err(fault);
    }
    Ok(said)
}

#[tactic(auto, unfolding(crate::specs::Pass::lines_said))]
fn lines_said(alloc: Global, lines: &[Line]) -> Result<ScriptSoFar, ScriptFault>
    ensures { Answers so_far_of result (pass.lines_said pass.nothing_said lines.now) }
{
    let mut said = ScriptSoFar::new(alloc);
    for line in lines {
        said.read_line(alloc, line)?;
    }
    Ok(said)
}

// The second pass, over the names.
fn second_pass(alloc: Global, said: ScriptSoFar) -> Result<Script, ScriptFault>
    requires ended { end_fault said.descriptions ≡ None }
    requires few { lines_in (statements_seen said.statements.items) ≤ statement_limit }
    ensures answer { Answers script_seen result (reads.second_pass (so_far_of said)) }
    ensures whole { IfOk result (λ script. AreWholeApps script.apps.items) }
{
    let apps = said.descriptions.second_pass(alloc)?;
    descriptions_are_whole();
    Ok(Script {
        apps,
        statements: said.statements,
    })
}
