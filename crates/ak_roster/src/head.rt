use ak_base::Text;

/// How often an application may run at once. (The names are those of The Be Book, The Application Kit,
/// BApplication.)
#[derive(Clone, Copy, Debug, PartialEq, Eq)]
pub enum Mode {
    /// It does not start while a team of its path runs.
    Single,
    /// It may run any number of times.
    Multiple,
    /// It does not start while a team of its signature runs, whatever that one's mode.
    Exclusive,
}

/// What the roster knows of a described application.
#[derive(Debug, Drop)]
pub struct AppHead {
    /// Its path. What stands after its last slash is the name of the application.
    pub path: Text,
    /// Its signature, which several may have.
    pub signature: Text,
    /// How often it may run at once.
    pub mode: Mode,
    /// How many loopers it has: 1 to 8.
    pub loopers: u32,
}
