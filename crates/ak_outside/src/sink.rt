ghost use Rattle.std.specs.Prelude.{◌≡◌, ◌≢◌, ◌<◌, ◌≤◌, ℕ, List, Option, None, length};
ghost use Rattle.ak_outside.specs.Faults.{Rose};
ghost use Rattle.ak_outside.specs.Sink.{Writes};

/// What one write did.
#[derive(Clone, Copy, Debug, PartialEq, Eq)]
pub enum SinkWrite {
    /// This many bytes were taken from the front of the piece, at least one.
    Wrote(usize),
    /// Nothing was taken, and the sink counted a fault.
    Failed,
}

/// Where bytes go.
pub trait Sink {
    /// What was written so far, where it is told.
    ghost written: { Self → Option (List ℕ) } = { λ _. None };

    /// How many calls failed so far.
    ghost faults: { Self → ℕ };

    /// Writes from the front of a piece that is not empty, and may take less than all of it. A write that fails
    /// takes nothing, and raises the count of faults; any other leaves the count. A count at the end of a `u64`
    /// need not rise.
    fn write(&mut self, piece: &[u8]) -> SinkWrite
        requires { 0 < length piece.now }
        ensures bytes { Writes (written self.old) (written self.new) piece.now result }
        ensures never_falls { faults self.old ≤ faults self.new }
        ensures cause { result ≡ SinkWrite.Failed → Rose (faults self.old) (faults self.new) }
        ensures kept { result ≢ SinkWrite.Failed → faults self.new ≡ faults self.old };
}
