use crate::outcome::Outcome;
use ak_print::Told;
use ak_script::SessionLines;
use ak_session::Session;

/// What a session's thread is to do: the lines, the session as it was opened, and room for what they come to.
#[derive(Drop)]
pub struct SessionJob {
    pub lines: SessionLines,
    pub session: Session,
    pub outcomes: Vec<Outcome>,
    pub tolds: Vec<Told>,
}

/// What came of it.
#[derive(Drop)]
pub struct SessionEnd {
    /// Of the lines that were carried out, in order.
    pub outcomes: Vec<Outcome>,
    /// What is told of each, at the same places.
    pub tolds: Vec<Told>,
    pub session: Session,
    /// A line found no memory, and the lines behind it were not carried out.
    pub short: bool,
}
