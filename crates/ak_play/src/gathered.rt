//! What is gathered of the statements that were carried out.
ghost use Rattle.std.specs.Prelude.{◌≡◌, ◌≤◌, ◌<◌, ◌+◌, length, map, vec_capacity, IfOk, OnOk};
ghost use Rattle.ak_block.specs.Together.{part_of};
ghost use Rattle.ak_script.specs.Limits.{statement_limit};
ghost use Rattle.ak_play.specs.Gathered.{HasRoom, HasRoomFor, KeepsRoom, gathered_and, gathered_seen, nothing_gathered, of_came, of_session, of_sessions};
ghost use Rattle.ak_play.specs.Parts.{session_outcomes, session_tolds};

use ak_base::NoMemory;
use ak_block::Heard;
use ak_lines::{Came, Outcome};
use ak_print::Told;
use std::alloc::Global;

/// Of the statements so far, in order, those of a block session by session: the outcomes, and what is told of each; and the numbers of the
/// sessions that found no memory.
#[derive(Drop)]
pub(crate) struct Gathered {
    pub(crate) outcomes: Vec<Outcome>,
    pub(crate) tolds: Vec<Told>,
    pub(crate) short: Vec<u32>,
}

impl Gathered {
    /// Nothing so far, with room for that many lines.
    pub(crate) fn with_room(alloc: Global, lines: usize) -> Result<Gathered, NoMemory>
        ensures nothing { IfOk result (λ gathered. gathered_seen gathered ≡ nothing_gathered) }
        ensures room { IfOk result (λ gathered. HasRoom lines gathered) }
    {
        let outcomes = Vec::with_capacity(alloc, lines)?;
        let tolds = Vec::with_capacity(alloc, lines)?;
        let short = Vec::new(alloc);
        Ok(Gathered {
            outcomes,
            tolds,
            short,
        })
    }

    /// Makes room for the numbers of so many sessions more.
    pub(crate) fn make_room(&mut self, sessions: usize) -> Result<(), NoMemory>
        ensures seen { gathered_seen self.new ≡ gathered_seen self.old }
        ensures kept { KeepsRoom self.old self.new }
        ensures room { OnOk result (length self.old.short.items + sessions ≤ vec_capacity self.new.short) }
    {
        Ok(self.short.reserve(sessions)?)
    }

    /// Takes what a statement came to. Room is there.
    pub(crate) fn push(&mut self, came: Came)
        requires room { HasRoom 1 self.old }
        ensures seen { gathered_seen self.new ≡ gathered_and (gathered_seen self.old) (of_came came) }
        ensures kept { KeepsRoom self.old self.new }
    {
        self.outcomes.push_reserved(came.outcome);
        self.tolds.push_reserved(came.told);
    }

    // Takes what the session of that number came to. Room is there.
    fn push_session(&mut self, mut heard: Heard, number: u32)
        requires room { HasRoomFor (length heard.outcomes.items) (length heard.tolds.items) 1 self.old }
        ensures seen { gathered_seen self.new ≡ gathered_and (gathered_seen self.old) (of_session number (part_of heard)) }
        ensures kept { KeepsRoom self.old self.new }
        ensures kept_for_short { vec_capacity self.old.short ≤ vec_capacity self.new.short }
    {
        if self.outcomes.append(&mut heard.outcomes).is_err() {
            unreachable!();
        }
        if self.tolds.append(&mut heard.tolds).is_err() {
            unreachable!();
        }
        if heard.short {
            self.short.push_reserved(number);
        }
    }

    /// Takes what the sessions of a block came to, which are numbered from that one on. Room is there.
    pub(crate) fn push_sessions(&mut self, block: Vec<Heard>, from: u32)
        requires numbers { from + length block.items ≤ statement_limit + 1 }
        requires room { HasRoomFor (length (session_outcomes (map part_of block.items))) (length (session_tolds (map part_of block.items))) (length block.items) self.old }
        ensures seen { gathered_seen self.new ≡ gathered_and (gathered_seen self.old) (of_sessions from (map part_of block.items)) }
        ensures kept { KeepsRoom self.old self.new }
    {
        let mut number = from;
        for heard in block {
            self.push_session(heard, number);
            number += 1;
        }
    }
}
