ghost use Rattle.std.specs.Prelude.{◌≡◌, ◌≢◌, ◌<◌, ◌≤◌, length, Some};
ghost use Rattle.ak_outside.specs.Calls.{no_calls};
ghost use Rattle.ak_outside.specs.Faults.{Rose};
ghost use Rattle.ak_outside.specs.Source.{Reads};
ghost use Rattle.ak_outside.specs.TextSource.{ReadsText};

use crate::call_log::CallLog;
use crate::source::{Source, SourceRead};
use ak_base::Bytes;
use std::marker::Model;

/// A source that gives these bytes, and refuses the calls of these numbers, counted from 1.
#[derive(Debug, Drop)]
pub struct TextSource {
    bytes: Bytes,
    position: usize,
    log: CallLog,
}

impl Model for TextSource {
    ghost use Rattle.std.specs.Prelude.{◌≤◌, drop, length};
    ghost use Rattle.ak_outside.specs.TextSource.{TextState};

    ghost Value = { TextState };

    ghost view = { λ s. record { left = drop s.position s.bytes; calls = s.log } };

    ghost invariant = { λ s. s.position ≤ length s.bytes };
}

impl TextSource {
    /// A source of these bytes, of which the calls of these numbers fail. No call was made yet. Takes no
    /// memory.
    pub fn new(bytes: Bytes, fails: Vec<u64>) -> TextSource
        ensures left { result.left ≡ bytes }
        ensures calls { result.calls ≡ no_calls fails.items }
    {
        TextSource {
            bytes,
            position: 0,
            log: CallLog::new(fails),
        }
    }
}

impl Source for TextSource {
    ghost use Rattle.std.specs.Prelude.{Some};

    ghost left = { λ s. Some s.left };

    ghost faults = { λ s. s.calls.faults };

    fn read(&mut self, buf: &mut [u8]) -> SourceRead
        requires { 0 < length buf.old }
        ensures bytes { Reads (Some self.old.left) (Some self.new.left) buf.new result }
        ensures never_falls { self.old.calls.faults ≤ self.new.calls.faults }
        ensures cause { result ≡ SourceRead.Failed → Rose self.old.calls.faults self.new.calls.faults }
        ensures kept { result ≢ SourceRead.Failed → self.new.calls.faults ≡ self.old.calls.faults }
        ensures exact { ReadsText self.old self.new buf.new result }
    {
        if self.log.refuses_next() {
            return SourceRead::Failed;
        }
        let left = &self.bytes.as_slice()[self.position..];
        let n = left.len().min(buf.len());
        buf[..n].copy_from_slice(&left[..n]);
        self.position += n;
        SourceRead::Read(n)
    }
}
