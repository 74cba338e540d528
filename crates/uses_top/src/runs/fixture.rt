//! The program, run in memory, and what is told of how it ended.
use ak_base::{Bytes, Ending, NoMemory, print_uint};
use ak_diary::Histories;
use ak_kit::{KitEnd, kit};
use ak_outside::{
    ListSink, OpenGate, PlannedSpawner, Sink, SinkWrite, Source, SourceRead, TextSource,
};
use ak_play::RunEnd;
use ak_port::{PortBook, PortEvent};
use ak_turn::Book;
use std::alloc::Global;
use std::sync::Wait;
use std::test::Fail;
use std::thread::Threads;

/// A looper that is asked, and another one.
pub const INPUT: &str = "kit 1
app /boot/Demo application/x-demo single
looper demo
property Count LONG
element 3
looper side
script
launch /boot/Demo
hey Demo get Count
";

/// The same with a block of two sessions of two lines each, and a statement behind it.
pub const BLOCK: &str = "kit 1
app /boot/Demo application/x-demo single
looper demo
property Count LONG
element 3
looper side
script
launch /boot/Demo
together
session
hey Demo get Count
hey Demo count Count
session
lock Demo add more
post Demo wait 'note'
end
hey Demo count Handler
";

/// What a run is made with: the words, and which read, which byte that is written, and which start of a thread fails,
/// counted from 1, where 0 is none.
#[derive(Clone, Copy)]
pub struct Case {
    pub words: &'static str,
    pub read: u64,
    pub byte: u64,
    pub start: u64,
}

/// `run`, with nothing that fails.
pub const RUN: Case = Case {
    words: "run",
    read: 0,
    byte: 0,
    start: 0,
};

// Takes one byte at a time, so that a line may end in its middle.
#[derive(Drop)]
struct Narrow<K> {
    sink: K,
}

impl<K: Sink> Sink for Narrow<K> {
    ghost faults = { λ s. K.faults s.sink };

    fn write(&mut self, piece: &[u8]) -> SinkWrite {
        self.sink.write(&piece[..1])
    }
}

/// These pieces, one behind the other.
pub fn bytes_of(alloc: Global, pieces: &[&[u8]]) -> Result<Bytes, NoMemory> {
    let mut bytes = Bytes::new(alloc);
    for piece in pieces {
        bytes.extend(piece)?;
    }
    Ok(bytes)
}

pub fn words_of(alloc: Global, words: &str) -> Result<Vec<Bytes>, NoMemory> {
    let mut given = Vec::new(alloc);
    for word in words.split_whitespace() {
        given.push(bytes_of(alloc, &[word.as_bytes()])?)?;
    }
    Ok(given)
}

// ---- what is told
fn ending_word(ending: Ending) -> &'static [u8] {
    match ending {
        Ending::Done => b"done",
        Ending::Usage => b"usage",
        Ending::Refused { .. } => b"refused",
        Ending::ReadFault => b"read fault",
        Ending::WriteFault => b"write fault",
        Ending::ThreadFault => b"thread fault",
        Ending::NoMemory => b"no memory",
    }
}

fn tell(out: &mut Bytes, number: usize, word: &[u8]) -> Result<(), NoMemory> {
    out.push(b' ')?;
    print_uint(number as u64, out)?;
    out.push(b' ')?;
    out.extend(word)
}

// Whether the rest of the port was taken: its looper has ended, in whichever thread.
fn has_ended(port: &PortBook) -> Result<bool, NoMemory> {
    for place in 0..port.len() {
        if let Some(entry) = port.entry(place)? {
            if let PortEvent::Rest(_) = entry.event {
                return Ok(true);
            }
        }
    }
    Ok(false)
}

fn count_ended(histories: &Histories) -> Result<usize, NoMemory> {
    let mut count = 0_usize;
    for port in &histories.ports {
        if has_ended(port)? {
            count = count.wrapping_add(1);
        }
    }
    Ok(count)
}

// How many statements have an outcome, how many loopers there are, and how many of these have ended.
fn tell_run(out: &mut Bytes, run: &Option<RunEnd>) -> Result<(), NoMemory> {
    match run {
        Some(run) => {
            tell(out, run.outcomes.as_slice().len(), b"outcomes,")?;
            tell(out, run.histories.ports.len(), b"loopers,")?;
            tell(out, count_ended(&run.histories)?, b"ended\n")
        }
        None => out.extend(b" no run\n"),
    }
}

// What was written, and behind it a line of the status and the ending, of how much is left to read, and of the run.
fn tell_end(out: &mut Bytes, written: &[u8], left: usize, end: &KitEnd) -> Result<(), NoMemory> {
    out.extend(written)?;
    out.extend(b"=")?;
    tell(out, usize::from(end.status), ending_word(end.ending))?;
    out.push(b',')?;
    tell(out, left, b"left,")?;
    tell_run(out, &end.run)
}

// How many bytes one read more gives, of 4,096 at most.
fn left_in(source: &mut TextSource) -> usize {
    let mut buffer = [0u8; 4_096];
    match source.read(&mut buffer) {
        SourceRead::Read(count) => count,
        SourceRead::Failed => 0,
    }
}

/// Runs the program so, and tells how it ended.
pub fn tell_case<R: Threads + Wait + Copy + Send + 'static>(
    out: &mut Bytes,
    rt: &R,
    alloc: Global,
    case: Case,
    input: Bytes,
) -> Result<(), Fail> {
    let words = words_of(alloc, case.words)?;
    let mut source = TextSource::new(input, vec![in alloc; case.read]?);
    let mut sink = Narrow {
        sink: ListSink::new(alloc, vec![in alloc; case.byte]?),
    };
    let mut spawner = PlannedSpawner::new(vec![in alloc; case.start]?);
    let end = kit(
        alloc,
        rt,
        &words,
        &mut source,
        &mut sink,
        &mut spawner,
        &OpenGate,
    );
    let left = left_in(&mut source);
    Ok(tell_end(out, sink.sink.written(), left, &end)?)
}

/// The same of each of these cases, all with that input.
pub fn told_of<R: Threads + Wait + Copy + Send + 'static>(
    rt: &R,
    alloc: Global,
    cases: &[Case],
    input: &str,
) -> Result<Bytes, Fail> {
    let mut out = Bytes::new(alloc);
    for case in cases {
        let text = bytes_of(alloc, &[input.as_bytes()])?;
        tell_case(&mut out, rt, alloc, *case, text)?;
    }
    Ok(out)
}
