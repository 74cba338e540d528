ghost use Rattle.std.specs.Prelude.{◌≡◌, ◌≤◌, [], length};
ghost use Rattle.ak_base.specs.Limits.{app_looper_limit};

use ak_base::Text;
use std::marker::Model;

/// As what a handler takes a message: as the first of these that holds.
#[derive(Clone, Copy, Debug, PartialEq, Eq)]
pub enum Taker {
    /// As a command on the property of that row of its table. Rows count from 0.
    Property(u32),
    /// With its first reaction on the code, at that place. Reactions count from 0.
    Reaction(u32),
    /// As something that every handler, looper or application knows.
    BuiltIn,
}

/// Where a message goes.
#[derive(Clone, Copy, Debug, PartialEq, Eq)]
pub enum Route {
    /// To the handler with that token, which takes it as `taker` says.
    Deliver { token: u64, taker: Taker },
    /// A filter skipped it.
    Skipped,
    /// The handler whose token is its target is not there.
    Dropped,
    /// Its specifiers lead nowhere, or no handler of the chain takes it.
    NotUnderstood,
    /// To a later looper of the application, at that place among its loopers. The application's own has 0.
    Forward { looper: u32 },
}

/// Where a looper stands. An application's own looper has the names of the application's loopers, at most 8,
/// of which the first is taken for itself. Any other looper has none. Contracts see these names.
#[derive(Debug, Drop)]
pub struct Place<'a> {
    loopers: &'a [Text],
}

impl<'a> Model for Place<'a> {
    ghost use Rattle.std.specs.Prelude.{◌≤◌, ℕ, List, length};
    ghost use Rattle.ak_base.specs.Limits.{app_looper_limit};

    ghost Value = { List (List ℕ) };

    ghost view = { λ p. p.loopers.now };

    ghost invariant = { λ p. length p.loopers.now ≤ app_looper_limit };
}

impl<'a> Place<'a> {
    /// An application's own looper, with the names of the application's loopers in their order, at most 8.
    /// Without names it is as any other looper. Takes no memory.
    pub fn own(loopers: &'a [Text]) -> Place<'a>
        requires { length loopers.now ≤ app_looper_limit }
        ensures { result ≡ loopers.entry.now }
    {
        Place { loopers }
    }

    /// Any other looper. Takes no memory.
    pub fn other() -> Place<'a>
        ensures { result ≡ [] }
    {
        Place { loopers: &[] }
    }

    /// The names of the application's loopers, for its own looper.
    pub(crate) fn loopers(&self) -> &[Text]
        ensures value { result.now ≡ self.now }
        ensures limit { length self.now ≤ app_looper_limit }
    {
        self.loopers
    }
}
