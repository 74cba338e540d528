ghost use Rattle.std.specs.Prelude.{◌≡◌, ◌≢◌, ◌<◌, ◌≤◌, length};
ghost use Rattle.ak_outside.specs.Faults.{Rose, raised};
ghost use Rattle.ak_outside.specs.Sink.{Writes};
ghost use Rattle.ak_outside.specs.Source.{Reads};
ghost use Rattle.ak_outside.specs.Standard.{not_failed};

use crate::sink::{Sink, SinkWrite};
use crate::source::{Source, SourceRead};
use crate::spawner::{NotStarted, Spawner};
use std::io::{Read, Write};
use std::marker::Model;

/// A reader of the system as a source. It tells of its bytes what the reader tells: those of a slice, and
/// nothing of standard input's. The count of its faults stands still at the end of a `u64`.
#[derive(Drop)]
pub struct StdSource<R> {
    reader: R,
    failed: u64,
}

impl<R> Model for StdSource<R> {
    ghost use Rattle.ak_outside.specs.Standard.{Counted};

    ghost Value = { Counted R };

    ghost view = { λ s. record { inner = s.reader; faults = s.failed } };
}

impl<R> StdSource<R> {
    /// The reader as a source, of which no call has failed yet. Takes no memory.
    pub fn new(reader: R) -> StdSource<R>
        ensures { result ≡ not_failed reader }
    {
        StdSource { reader, failed: 0 }
    }
}

impl<R: Read> Source for StdSource<R> {
    ghost left = { λ s. R.remaining s.inner };

    ghost faults = { λ s. s.faults };

    fn read(&mut self, buf: &mut [u8]) -> SourceRead
        requires { 0 < length buf.old }
        ensures bytes { Reads (R.remaining self.old.inner) (R.remaining self.new.inner) buf.new result }
        ensures never_falls { self.old.faults ≤ self.new.faults }
        ensures cause { result ≡ SourceRead.Failed → Rose self.old.faults self.new.faults }
        ensures kept { result ≢ SourceRead.Failed → self.new.faults ≡ self.old.faults }
        ensures counted { result ≡ SourceRead.Failed → self.new.faults ≡ raised self.old.faults }
    {
        match self.reader.read(buf) {
            Ok(n) => SourceRead::Read(n),
            Err(_) => {
                self.failed = self.failed.saturating_add(1);
                SourceRead::Failed
            }
        }
    }
}

/// A writer of the system as a sink. It tells of its bytes what the writer tells: those of a `Vec`, and
/// nothing of standard output's. The count of its faults stands still at the end of a `u64`.
#[derive(Drop)]
pub struct StdSink<W> {
    writer: W,
    failed: u64,
}

impl<W> Model for StdSink<W> {
    ghost use Rattle.ak_outside.specs.Standard.{Counted};

    ghost Value = { Counted W };

    ghost view = { λ s. record { inner = s.writer; faults = s.failed } };
}

impl<W> StdSink<W> {
    /// The writer as a sink, of which no call has failed yet. Takes no memory.
    pub fn new(writer: W) -> StdSink<W>
        ensures { result ≡ not_failed writer }
    {
        StdSink { writer, failed: 0 }
    }
}

impl<W: Write> Sink for StdSink<W> {
    ghost written = { λ s. W.contents s.inner };

    ghost faults = { λ s. s.faults };

    /// A write that takes nothing is a fault, since the next would do no better.
    fn write(&mut self, piece: &[u8]) -> SinkWrite
        requires { 0 < length piece.now }
        ensures bytes { Writes (W.contents self.old.inner) (W.contents self.new.inner) piece.now result }
        ensures never_falls { self.old.faults ≤ self.new.faults }
        ensures cause { result ≡ SinkWrite.Failed → Rose self.old.faults self.new.faults }
        ensures kept { result ≢ SinkWrite.Failed → self.new.faults ≡ self.old.faults }
        ensures counted { result ≡ SinkWrite.Failed → self.new.faults ≡ raised self.old.faults }
    {
        match self.writer.write(piece) {
            Ok(n) if n > 0 => SinkWrite::Wrote(n),
            _ => {
                self.failed = self.failed.saturating_add(1);
                SinkWrite::Failed
            }
        }
    }
}

/// The spawner of the system's threads: it refuses none by itself, and counts those that the system refuses. It is
/// seen as that count, which stands still at the end of a `u64`.
#[derive(Debug, Drop)]
pub struct StdSpawner {
    refused: u64,
}

impl Model for StdSpawner {
    ghost use Rattle.std.specs.Prelude.{ℕ};

    ghost Value = { ℕ };

    ghost view = { λ s. s.refused };
}

impl StdSpawner {
    /// A spawner that has counted none yet. Takes no memory.
    pub fn new() -> StdSpawner
        ensures { result ≡ 0 }
    {
        StdSpawner { refused: 0 }
    }
}

impl Spawner for StdSpawner {
    ghost faults = { λ s. s };

    fn refuses(&mut self) -> bool {
        false
    }

    fn failed(&mut self, _start: NotStarted)
        ensures never_falls { self.old ≤ self.new }
        ensures cause { Rose self.old self.new }
        ensures counted { self.new ≡ raised self.old }
    {
        self.refused = self.refused.saturating_add(1);
    }
}
