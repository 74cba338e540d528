//! The sessions of a block, as its lines come.

ghost use Rattle.std.specs.Prelude.{◌+◌, ◌≤◌, length};
ghost use Rattle.ak_script.specs.Blocks.{count_begun};
ghost use Rattle.ak_script.specs.Limits.{session_limit};

use crate::fault::StatementFault;
use crate::said::session_line_of;
use crate::statement::{SESSION_LIMIT, SessionLine, SessionLines, Together};
use ak_base::{NoMemory, RefusalKind};
use ak_describe::ends;
use ak_input::Word;
use std::alloc::Global;

/// The sessions of a block so far.
#[derive(Drop)]
pub(crate) struct BlockSoFar {
    /// Those that are whole.
    sessions: Vec<SessionLines>,
    /// The lines of the one that has begun, where one has.
    begun: Option<Vec<SessionLine>>,
    ghost few: { length sessions.items + count_begun begun ≤ session_limit },
}

impl BlockSoFar {
    ghost use Rattle.std.specs.Prelude.{◌≡◌, ◌<◌, false, true, IfOk, OnOk};
    ghost use Rattle.ak_describe.specs.Words.{texts};
    ghost use Rattle.ak_script.specs.Answers.{Tells};
    ghost use Rattle.ak_script.specs.Blocks as reads;
    ghost use Rattle.ak_script.specs.Seen.{block_seen};
    ghost use Rattle.ak_script.specs.StatementSeen.{line_seen, sessions_seen, together_seen};

    /// Before its first session. Takes no memory.
    pub(crate) fn new(alloc: Global) -> BlockSoFar
        ensures { block_seen result ≡ reads.new_block }
    {
        BlockSoFar {
            sessions: Vec::new(alloc),
            begun: None,
        }
    }

    /// What is wrong with the line that begins a session, with these further words.
    pub(crate) fn session_fault(&self, words: &[Word]) -> Option<RefusalKind>
        ensures { result ≡ reads.session_fault (block_seen self.now) (texts words.now) }
    {
        if self.is_bare() {
            Some(RefusalKind::UnknownLine)
        } else if ends(words) {
            self.room_fault()
        } else {
            Some(RefusalKind::BadValue)
        }
    }

    // A session has begun, and no line of it has come.
    fn is_bare(&self) -> bool
        ensures { result ≡ reads.is_bare (block_seen self.now).begun }
    {
        match &self.begun {
            Some(lines) => lines.is_empty(),
            None => false,
        }
    }

    // There are not 8 sessions yet.
    fn room_fault(&self) -> Option<RefusalKind>
        ensures { result ≡ reads.room_fault (reads.closed (block_seen self.now)) }
    {
        if self.count() < SESSION_LIMIT {
            None
        } else {
            Some(RefusalKind::Limit)
        }
    }

    // How many sessions there are, the one that has begun too.
    fn count(&self) -> usize
        ensures { result ≡ length (reads.closed (block_seen self.now)) }
    {
        match self.begun {
            Some(_) => self.sessions.len() + 1,
            None => self.sessions.len(),
        }
    }

    /// With one more session that has begun.
    #[tactic(auto, using(crate::proofs::Begun::as_many))]
    pub(crate) fn with_session(self, alloc: Global) -> Result<BlockSoFar, NoMemory>
        requires line { reads.is_bare (block_seen self).begun ≡ false }
        requires room { length (reads.closed (block_seen self)) < session_limit }
        ensures { IfOk result (λ block. block_seen block ≡ reads.session_begun (block_seen self)) }
    {
        let sessions = self.closed()?;
        Ok(BlockSoFar {
            sessions,
            begun: Some(Vec::new(alloc)),
        })
    }

    // All its sessions, the one that has begun too, which has a line.
    #[tactic(auto, using(crate::proofs::Begun::lines_there))]
    fn closed(self) -> Result<Vec<SessionLines>, NoMemory>
        requires { reads.is_bare (block_seen self).begun ≡ false }
        ensures sessions { IfOk result (λ sessions. sessions_seen sessions.items ≡ reads.closed (block_seen self)) }
        ensures count { IfOk result (λ sessions. length sessions.items ≡ length self.sessions.items + count_begun self.begun) }
    {
        let BlockSoFar {
            mut sessions,
            begun,
        } = self;
        if let Some(lines) = begun {
            sessions.push(SessionLines { lines })?;
        }
        Ok(sessions)
    }

    /// The block as a statement.
    #[tactic(auto, using(crate::proofs::Begun::not_bare_there, crate::proofs::Begun::one_begun))]
    pub(crate) fn ended(self) -> Result<Together, NoMemory>
        requires { reads.has_line (block_seen self).begun ≡ true }
        ensures { IfOk result (λ block. (together_seen block).sessions ≡ reads.closed (block_seen self)) }
    {
        let sessions = self.closed()?;
        Ok(Together { sessions })
    }

    /// What is wrong with the line that ends the block, with these further words.
    pub(crate) fn end_fault(&self, words: &[Word]) -> Option<RefusalKind>
        ensures { result ≡ reads.end_fault (block_seen self.now) (texts words.now) }
    {
        if !self.has_line() {
            Some(RefusalKind::UnknownLine)
        } else if ends(words) {
            None
        } else {
            Some(RefusalKind::BadValue)
        }
    }

    // A session has begun, and a line of it has come.
    fn has_line(&self) -> bool
        ensures { result ≡ reads.has_line (block_seen self.now).begun }
    {
        match &self.begun {
            Some(lines) => !lines.is_empty(),
            None => false,
        }
    }

    /// What the words of a line say in the session that has begun.
    #[tactic(auto, using(crate::proofs::Begun::begun_there))]
    pub(crate) fn line_of(
        &self,
        alloc: Global,
        words: &[Word],
    ) -> Result<SessionLine, StatementFault>
        ensures { Tells line_seen result (reads.line_of (block_seen self.now) words.now) }
    {
        if self.begun.is_none() {
            return Err(StatementFault::UnknownLine);
        }
        session_line_of(alloc, words)
    }

    /// Adds a line to the session that has begun, if one has.
    pub(crate) fn add(&mut self, line: SessionLine) -> Result<(), NoMemory>
        ensures { OnOk result (block_seen self.new ≡ reads.line_added (block_seen self.old) (line_seen line)) }
    {
        if let Some(lines) = &mut self.begun {
            lines.push(line)?;
        }
        Ok(())
    }
}
