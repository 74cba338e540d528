ghost use Rattle.std.specs.Prelude.{◌≡◌, ◌≢◌, ◌<◌, ◌≤◌, [], length, Some};
ghost use Rattle.ak_outside.specs.Calls.{no_calls};
ghost use Rattle.ak_outside.specs.Faults.{Rose};
ghost use Rattle.ak_outside.specs.ListSink.{WritesList};
ghost use Rattle.ak_outside.specs.Sink.{Writes};

use crate::call_log::CallLog;
use crate::sink::{Sink, SinkWrite};
use ak_base::Bytes;
use std::alloc::Global;
use std::marker::Model;

/// A sink that keeps what is written, and refuses the calls of these numbers, counted from 1. A write
/// that finds no memory fails too.
#[derive(Debug, Drop)]
pub struct ListSink {
    bytes: Bytes,
    log: CallLog,
}

impl Model for ListSink {
    ghost use Rattle.ak_outside.specs.ListSink.{ListState};

    ghost Value = { ListState };

    ghost view = { λ s. record { written = s.bytes; calls = s.log } };
}

impl ListSink {
    /// A sink of which the calls of these numbers fail. Nothing was written and no call was made yet. Takes no
    /// memory.
    pub fn new(alloc: Global, fails: Vec<u64>) -> ListSink
        ensures written { result.written ≡ [] }
        ensures calls { result.calls ≡ no_calls fails.items }
    {
        ListSink {
            bytes: Bytes::new(alloc),
            log: CallLog::new(fails),
        }
    }

    /// All that was written, in order. Takes no memory.
    pub fn written(&self) -> &[u8]
        ensures { result.now ≡ self.now.written }
    {
        self.bytes.as_slice()
    }
}

impl Sink for ListSink {
    ghost use Rattle.std.specs.Prelude.{Some};

    ghost written = { λ s. Some s.written };

    ghost faults = { λ s. s.calls.faults };

    fn write(&mut self, piece: &[u8]) -> SinkWrite
        requires { 0 < length piece.now }
        ensures bytes { Writes (Some self.old.written) (Some self.new.written) piece.now result }
        ensures never_falls { self.old.calls.faults ≤ self.new.calls.faults }
        ensures cause { result ≡ SinkWrite.Failed → Rose self.old.calls.faults self.new.calls.faults }
        ensures kept { result ≢ SinkWrite.Failed → self.new.calls.faults ≡ self.old.calls.faults }
        ensures exact { WritesList self.old self.new piece.now result }
    {
        if self.log.refuses_next() {
            return SinkWrite::Failed;
        }
        if self.bytes.extend(piece).is_err() {
            self.log.fail();
            return SinkWrite::Failed;
        }
        SinkWrite::Wrote(piece.len())
    }
}
