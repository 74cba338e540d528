use ak_base::{Bytes, Items};

/// A word of a line: a piece of it between blanks, which may hold any byte.
#[derive(Debug, Drop)]
pub struct Word {
    /// Where its first byte stands in its line, in bytes, counted from 1.
    pub column: u32,
    /// Its bytes as they stand, quotes and escapes too.
    pub bytes: Bytes,
}

/// A line of an input that says something.
#[derive(Debug, Drop)]
pub struct Line {
    /// Its number in the input, counted from 1; lines that say nothing are counted too.
    pub number: u32,
    /// Its words, in their order.
    pub words: Items<Word>,
}
