ghost use Rattle.ak_message.specs.Whole.{FitsAddress};

/// Which handler of a looper a message is for.
#[derive(Clone, Copy, Debug, PartialEq, Eq)]
pub enum Target {
    /// The preferred handler, or the looper where there is none.
    Preferred,
    /// The handler with this token.
    Token(u64),
}

/// A looper, by its number in the run, and one of its handlers. (The Be Book, The Application Kit,
/// BMessenger.)
#[derive(Clone, Copy, Debug, PartialEq, Eq)]
pub struct Address {
    /// Loopers count from 0 over the whole run.
    pub looper: u32,
    /// For whom a message is there.
    pub target: Target,
}

impl Address {
    // Its numbers are in their types' ranges: reading them shows it.
    pub(crate) fn shows_that_it_fits(&self)
        ensures { FitsAddress self.now }
    {
        let _looper = self.looper;
        match self.target {
            Target::Preferred => {}
            Target::Token(token) => {
                let _token = token;
            }
        }
    }
}
