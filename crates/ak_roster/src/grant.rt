ghost use Rattle.std.specs.Prelude.{◌≡◌, ℕ, List, Option, None, IfOk, OnOk, OnErr};
ghost use Rattle.ak_roster.specs.Told.{IsNewIn, told_with};

use ak_base::{NoMemory, ThreadId};

/// A door to an object that threads share, which makes a part of its own for each thread that is to use the
/// object. It may tell its object, and the threads that have a part. No value of an object need exist.
pub trait Grant: Drop {
    /// What one thread gets, to use the object by.
    type Part;

    /// What the door leads to, for proofs alone.
    type Object;

    ghost object: { Self → Option Self.Object };
    // The numbers of the threads that have a part of the object.
    ghost threads: { Self → Option (List ℕ) };
    // The object of a part, where it tells it.
    ghost part_object: { Self.Part → Option Self.Object };
    // The part is a new one, for that thread.
    ghost is_for: { Self.Part → ℕ → Type 0 };

    /// A part of the object for that thread, which has none. The door tells the same object then, and, where it
    /// tells threads, that one too. `NoMemory` changes nothing.
    fn part(&mut self, thread: ThreadId) -> Result<Self::Part, NoMemory>
        requires new { IsNewIn (threads self.old) thread.0 }
        ensures object { object self.new ≡ object self.old }
        ensures part { IfOk result (λ part. part_object part ≡ object self.old) }
        ensures thread { IfOk result (λ part. is_for part thread.0) }
        ensures threads { OnOk result (threads self.new ≡ told_with (threads self.old) thread.0) }
        ensures err { OnErr result (self.new ≡ self.old) };
}

/// A door to nothing, which tells nothing.
impl Grant for () {
    type Part = ();

    type Object = ();

    ghost object = { λ _. None };

    ghost threads = { λ _. None };

    ghost part_object = { λ _. None };

    ghost is_for = { λ _ _. Unit {0} };

    fn part(&mut self, thread: ThreadId) -> Result<(), NoMemory> {
        let _ = thread;
        Ok(())
    }
}
