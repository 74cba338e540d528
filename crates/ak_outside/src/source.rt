ghost use Rattle.std.specs.Prelude.{◌≡◌, ◌≢◌, ◌<◌, ◌≤◌, ℕ, List, Option, None, length};
ghost use Rattle.ak_outside.specs.Faults.{Rose};
ghost use Rattle.ak_outside.specs.Source.{Reads};

/// What one read gave.
#[derive(Clone, Copy, Debug, PartialEq, Eq)]
pub enum SourceRead {
    /// This many bytes, at the front of the buffer: 0 only where nothing is left.
    Read(usize),
    /// Nothing was read, and the source counted a fault.
    Failed,
}

/// Where bytes come from.
pub trait Source {
    /// What is left to read, where it is told.
    ghost left: { Self → Option (List ℕ) } = { λ _. None };

    /// How many calls failed so far.
    ghost faults: { Self → ℕ };

    /// Reads the next bytes to the front of a buffer that has room. A buffer that is not filled is no sign of
    /// the end. A read that fails takes none, and raises the count of faults; any other leaves the count. A
    /// count at the end of a `u64` need not rise.
    fn read(&mut self, buf: &mut [u8]) -> SourceRead
        requires { 0 < length buf.old }
        ensures bytes { Reads (left self.old) (left self.new) buf.new result }
        ensures never_falls { faults self.old ≤ faults self.new }
        ensures cause { result ≡ SourceRead.Failed → Rose (faults self.old) (faults self.new) }
        ensures kept { result ≢ SourceRead.Failed → faults self.new ≡ faults self.old };
}
