//! What a test has main do in a run, and what it looks at then: plain data.

use ak_message::Target;

/// The gate at which its loopers are started.
#[derive(Clone, Copy)]
pub enum At {
    Open,
    /// One that holds this looper in its first dispatch.
    Held(u32),
    /// One that waits at that call, for some seconds or a short while.
    Watched(u64, bool),
}

/// What main does.
#[derive(Clone, Copy)]
pub enum Act {
    /// Launches the application of that path.
    Launch(&'static [u8]),
    /// The same with these arguments.
    LaunchWith(&'static [u8], &'static [u8]),
    /// Posts to that looper, and waits for room.
    Post(u32, &'static [u8]),
    /// The same to one of its handlers.
    PostTo(u32, Target, &'static [u8]),
    /// The same so often, to each of these loopers, and nothing is told of it.
    Often(u32, &'static [u32], &'static [u8]),
    /// Posts notes to that looper, now and then, until others have written so many items there too.
    Notes(u32, u64),
    /// Asks that looper's preferred handler, and waits for the reply.
    Ask(u32, &'static [u8]),
    /// Asks one of its handlers.
    AskOf(u32, Target, &'static [u8]),
    /// Adds a handler of that name.
    Add(u32, &'static [u8]),
    /// Removes the handler with that token.
    Remove(u32, u64),
    /// Waits until the gate holds a looper.
    Await,
    /// Has the gate let it go.
    LetGo,
}

/// What is told of a run that has ended.
#[derive(Clone, Copy)]
pub enum Tell {
    /// What these threads made at that looper's port, one after the other.
    Port(u32, &'static [u32]),
    /// What was done at that looper's desk.
    Desk(u32),
    /// What was done with each slot of the reply book.
    Book,
    /// The same of the slots that this thread opened, without their numbers.
    SlotsOf(u32),
    /// What these threads made at the roster, one after the other.
    Roster(&'static [u32]),
    /// Whether that looper's port and desk account for each item.
    Account(u32),
    /// How many items that looper left beside the notes.
    Left(u32),
    /// How many writes the second thread tried at the first one's port.
    Tries(u32, u32),
    /// Whether the team was closed in order, which has the loopers from the first one on, below the last.
    Closing(u32, usize, usize),
    /// How many starts of threads were asked for.
    Asked,
    /// What the gate has seen.
    Seen,
}

/// A run: the lines of its applications, the starts of threads that are refused, and what is done and told.
pub struct Scene {
    pub text: &'static [u8],
    pub at: At,
    pub refused: &'static [u64],
    pub acts: &'static [Act],
    pub tells: &'static [Tell],
}
