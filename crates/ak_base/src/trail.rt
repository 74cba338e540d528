ghost use Rattle.std.specs.Prelude.{◌≡◌, [], ◌∷◌, ◌++◌};

use std::marker::Model;
use std::snapshot::Snapshot;

// One more behind those before it.
#[derive(Drop)]
pub(crate) enum Steps<T> {
    Start,
    More(Snapshot<Steps<T>>, Snapshot<T>),
}

/// What came so far, one after another. Contracts see the list, and they alone: it has no bytes, and takes
/// no memory as it grows.
#[derive(Drop)]
pub struct Trail<T> {
    steps: Steps<T>,
}

impl<T> Model for Trail<T> {
    ghost use Rattle.std.specs.Prelude.{List};
    ghost use Rattle.std.specs.Coded.{coded_list};
    ghost use Rattle.ak_base.specs.Trail.{items_of};

    ghost Value = { List T };

    ghost coded = { coded_list T.code };

    ghost view = { λ trail. items_of trail.steps };
}

impl<T> Trail<T> {
    /// Nothing came yet. Takes no memory.
    pub fn new() -> Trail<T>
        ensures { result ≡ [] }
    {
        Trail {
            steps: Steps::Start,
        }
    }

    /// One more came, behind those before it. It is not moved, and nothing of it is copied. Takes no memory.
    pub fn push(&mut self, x: &T)
        ensures { self.new ≡ self.old ++ x.now ∷ [] }
    {
        self.steps = Steps::More(Snapshot::of(&self.steps), Snapshot::of(x));
    }
}
