use ak_base::Items;
use ak_diary::Histories;
use ak_lines::Outcome;
use ak_print::Told;
use ak_script::Script;

/// Who found no memory in a run.
#[derive(Debug, Drop)]
pub struct Short {
    /// Whether main did.
    pub main: bool,
    /// The numbers of the sessions that did.
    pub sessions: Items<u32>,
    /// Those of the loopers.
    pub loopers: Items<u32>,
}

/// What became of the lines of the outcomes of a run.
#[derive(Clone, Copy, Debug, PartialEq, Eq)]
pub enum Lines {
    /// All were written, and no write failed.
    Whole,
    /// A write failed: that line is not whole, and none stands behind it.
    Cut,
    /// No write failed, and there was no memory for a line of the last statement: it is missing, and those behind it are.
    Lacking,
}

/// A script that was carried out.
#[derive(Drop)]
pub struct RunEnd {
    pub script: Script,
    /// Of the statements that were carried out, in order; those of a block session by session.
    pub outcomes: Items<Outcome>,
    /// What is told of each outcome, at the same place.
    pub tolds: Items<Told>,
    /// What became of their lines.
    pub lines: Lines,
    /// The history of each object.
    pub histories: Histories,
    pub short: Short,
}
