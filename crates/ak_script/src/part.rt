/// What the next line of an input may be.
#[derive(Clone, Copy, Debug, PartialEq, Eq)]
pub(crate) enum Part {
    /// The first line, which says the version.
    Front,
    /// A line that describes applications, or the one that begins the statements.
    Descriptions,
    /// A statement, or the line that begins a block.
    Statements,
    /// A line of a block: one that begins a session, one of a session, or the one that ends the block.
    Block,
}
