//! The first pass over the lines of a script, as they come.

ghost use Rattle.std.specs.Prelude.{◌≡◌, option_map};
ghost use Rattle.ak_describe.specs.Read as descriptions;
ghost use Rattle.ak_script.specs.Faults.{told};
ghost use Rattle.ak_script.specs.Pass as reads;

use crate::block::BlockSoFar;
use crate::fault::{ScriptFault, refused};
use crate::front::{front_fault, more_fault};
use crate::part::Part;
use crate::said::statement_of;
use crate::script::STATEMENT_LIMIT;
use crate::statement::{SessionLine, Statement};
use ak_base::RefusalKind;
use ak_describe::{FirstPass, behind, ends};
use ak_input::{Line, Word};
use std::alloc::Global;
use std::mem;

/// What the lines say so far.
#[derive(Drop)]
pub(crate) struct ScriptSoFar {
    /// The part that the next line stands in.
    part: Part,
    /// The lines that describe applications.
    pub descriptions: FirstPass,
    pub statements: Vec<Statement>,
    /// The block that is open, where one is.
    block: BlockSoFar,
    /// How many lines say statements, those of sessions too.
    lines: usize,
}

impl ScriptSoFar {
    ghost use Rattle.std.specs.Prelude.{None};
    ghost use Rattle.ak_describe.specs.Words.{texts};
    ghost use Rattle.ak_script.specs.Answers.{Reaches};
    ghost use Rattle.ak_script.specs.Blocks.{new_block};
    ghost use Rattle.ak_script.specs.Seen.{block_seen, so_far_of};
    ghost use Rattle.ak_script.specs.StatementSeen.{line_seen, statement_seen};

    /// Before the first line. Takes no memory.
    pub(crate) fn new(alloc: Global) -> ScriptSoFar
        ensures { so_far_of result ≡ reads.nothing_said }
    {
        ScriptSoFar {
            part: Part::Front,
            descriptions: FirstPass::new(alloc),
            statements: Vec::new(alloc),
            block: BlockSoFar::new(alloc),
            lines: 0,
        }
    }

    /// Reads one line more.
    #[tactic(auto, unfolding(crate::specs::Pass::line_said))]
    pub(crate) fn read_line(&mut self, alloc: Global, line: &Line) -> Result<(), ScriptFault>
        ensures { Reaches result (so_far_of self.new) (reads.line_said (so_far_of self.old) line.now) }
    {
        match self.part {
            Part::Front => self.front_line(line),
            Part::Descriptions => self.description_line(alloc, line),
            Part::Statements => self.statement_line(alloc, line),
            Part::Block => self.block_line(alloc, line),
        }
    }

    // The line that says the version.
    fn front_line(&mut self, line: &Line) -> Result<(), ScriptFault>
        ensures { Reaches result (so_far_of self.new) (reads.front_line (so_far_of self.old) line.now) }
    {
        if let Some(kind) = front_fault(line.words.as_slice()) {
            return Err(refused(line.number, kind));
        }
        self.part = Part::Descriptions;
        Ok(())
    }

    // A line of descriptions, or the one that begins the statements.
    fn description_line(&mut self, alloc: Global, line: &Line) -> Result<(), ScriptFault>
        ensures { Reaches result (so_far_of self.new) (reads.description_line (so_far_of self.old) line.now) }
    {
        match behind(line.words.as_slice(), b"script") {
            Some(words) => self.script_line(line.number, words),
            None => self.described_line(alloc, line),
        }
    }

    // The line that begins the statements, with these further words.
    fn script_line(&mut self, number: u32, words: &[Word]) -> Result<(), ScriptFault>
        ensures { Reaches result (so_far_of self.new) (reads.script_line (so_far_of self.old) number (texts words.now)) }
    {
        if let Some(kind) = self.script_fault(words) {
            return Err(refused(number, kind));
        }
        self.part = Part::Statements;
        Ok(())
    }

    // It stands where the applications may end, with no further word.
    fn script_fault(&self, words: &[Word]) -> Option<RefusalKind>
        ensures { result ≡ reads.script_fault self.now.descriptions (texts words.now) }
    {
        if self.descriptions.end_fault().is_some() {
            Some(RefusalKind::UnknownLine)
        } else if ends(words) {
            None
        } else {
            Some(RefusalKind::BadValue)
        }
    }

    // A line that describes applications.
    fn described_line(&mut self, alloc: Global, line: &Line) -> Result<(), ScriptFault>
        ensures { Reaches result (so_far_of self.new) (reads.described_line (so_far_of self.old) line.now) }
    {
        self.descriptions.read_line(alloc, line)?;
        Ok(())
    }

    // A statement, or the line that begins a block.
    fn statement_line(&mut self, alloc: Global, line: &Line) -> Result<(), ScriptFault>
        ensures { Reaches result (so_far_of self.new) (reads.statement_line (so_far_of self.old) line.now) }
    {
        match behind(line.words.as_slice(), b"together") {
            Some(words) => self.together_line(line.number, words),
            None => self.single_line(alloc, line),
        }
    }

    // The line that begins a block, with these further words.
    fn together_line(&mut self, number: u32, words: &[Word]) -> Result<(), ScriptFault>
        ensures { Reaches result (so_far_of self.new) (reads.together_line (so_far_of self.old) number (texts words.now)) }
    {
        if let Some(kind) = more_fault(words) {
            return Err(refused(number, kind));
        }
        self.part = Part::Block;
        Ok(())
    }

    // A statement of one line.
    fn single_line(&mut self, alloc: Global, line: &Line) -> Result<(), ScriptFault>
        ensures { Reaches result (so_far_of self.new) (reads.single_line (so_far_of self.old) line.now) }
    {
        match statement_of(alloc, line.words.as_slice()) {
            Ok(statement) => self.add(line.number, statement),
            Err(fault) => Err(fault.at(line.number)),
        }
    }

    // One statement more, of the line with that number.
    fn add(&mut self, number: u32, statement: Statement) -> Result<(), ScriptFault>
        ensures { Reaches result (so_far_of self.new) (reads.statement_added (so_far_of self.old) number (statement_seen statement)) }
    {
        if let Some(kind) = count_fault(self.lines) {
            return Err(refused(number, kind));
        }
        self.statements.push(statement)?;
        self.lines += 1;
        Ok(())
    }

    // A line of a block.
    fn block_line(&mut self, alloc: Global, line: &Line) -> Result<(), ScriptFault>
        ensures { Reaches result (so_far_of self.new) (reads.block_line (so_far_of self.old) line.now) }
    {
        match behind(line.words.as_slice(), b"session") {
            Some(words) => self.session_line(alloc, line.number, words),
            None => self.line_in_session(alloc, line),
        }
    }

    // The line that begins a session, with these further words.
    #[tactic(auto, using(crate::proofs::Begun::begins_behind_a_line, crate::proofs::Begun::begins_with_room))]
    fn session_line(
        &mut self,
        alloc: Global,
        number: u32,
        words: &[Word],
    ) -> Result<(), ScriptFault>
        ensures { Reaches result (so_far_of self.new) (reads.session_line (so_far_of self.old) number (texts words.now)) }
    {
        if let Some(kind) = self.block.session_fault(words) {
            return Err(refused(number, kind));
        }
        self.block = self.take_block(alloc).with_session(alloc)?;
        Ok(())
    }

    // The block that is open; none is any more.
    fn take_block(&mut self, alloc: Global) -> BlockSoFar
        ensures block { block_seen result ≡ (so_far_of self.old).block }
        ensures left { so_far_of self.new ≡ record (so_far_of self.old) { block = new_block } }
    {
        mem::replace(&mut self.block, BlockSoFar::new(alloc))
    }

    // A line of the session that has begun, or the one that ends the block.
    fn line_in_session(&mut self, alloc: Global, line: &Line) -> Result<(), ScriptFault>
        ensures { Reaches result (so_far_of self.new) (reads.by_session (so_far_of self.old) line.now None) }
    {
        match behind(line.words.as_slice(), b"end") {
            Some(words) => self.end_line(alloc, line.number, words),
            None => self.inner_line(alloc, line),
        }
    }

    // The line that ends the block, with these further words.
    #[tactic(auto, using(crate::proofs::Begun::ends_behind_a_line))]
    fn end_line(&mut self, alloc: Global, number: u32, words: &[Word]) -> Result<(), ScriptFault>
        ensures { Reaches result (so_far_of self.new) (reads.end_line (so_far_of self.old) number (texts words.now)) }
    {
        if let Some(kind) = self.block.end_fault(words) {
            return Err(refused(number, kind));
        }
        let block = self.take_block(alloc).ended()?;
        self.statements.push(Statement::Together(block))?;
        self.part = Part::Statements;
        Ok(())
    }

    // A line of the session that has begun.
    fn inner_line(&mut self, alloc: Global, line: &Line) -> Result<(), ScriptFault>
        ensures { Reaches result (so_far_of self.new) (reads.inner_line (so_far_of self.old) line.now) }
    {
        match self.block.line_of(alloc, line.words.as_slice()) {
            Ok(said) => self.add_to_session(line.number, said),
            Err(fault) => Err(fault.at(line.number)),
        }
    }

    // One line more of the session that has begun, with that number.
    fn add_to_session(&mut self, number: u32, line: SessionLine) -> Result<(), ScriptFault>
        ensures { Reaches result (so_far_of self.new) (reads.line_added (so_far_of self.old) number (line_seen line)) }
    {
        if let Some(kind) = count_fault(self.lines) {
            return Err(refused(number, kind));
        }
        self.block.add(line)?;
        self.lines += 1;
        Ok(())
    }

    /// The lines end in a block that has no `end` yet.
    pub(crate) fn block_fault(&self, lines: &[Line]) -> Option<ScriptFault>
        ensures { result ≡ option_map told (reads.block_fault (so_far_of self.now).part lines.now) }
    {
        match self.part {
            Part::Front | Part::Descriptions | Part::Statements => None,
            Part::Block => unfinished_behind(lines),
        }
    }
}

// There is room for one more line that says a statement.
fn count_fault(lines: usize) -> Option<RefusalKind>
    ensures { result ≡ reads.count_fault lines }
{
    if lines < STATEMENT_LIMIT {
        None
    } else {
        Some(RefusalKind::Limit)
    }
}

// At the number behind the last line.
fn unfinished_behind(lines: &[Line]) -> Option<ScriptFault>
    ensures { result ≡ option_map told (descriptions.unfinished_behind (descriptions.last_number lines.now)) }
{
    let last = lines.last()?;
    Some(refused(last.number.saturating_add(1), RefusalKind::Unfinished))
}
