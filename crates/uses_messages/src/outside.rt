// Sources and sinks, those in memory and those of the system.

ghost use Rattle.std.specs.Prelude.{◌≡◌, ◌≢◌, ◌∷◌, []};

use crate::compare::same;
use ak_base::{Bytes, NoMemory};
use ak_outside::{
    ListSink, ReadFault, Sink, SinkWrite, Source, SourceRead, StdSink, StdSource, TextSource,
    WriteFailed, read_all, write_all,
};
use std::alloc::Global;
use std::io;
use std::io::{ErrorKind, Read, Write};
use std::process::Abort;
use std::test::Fail;

// This many bytes, none of which is like the one before it.
fn text(alloc: Global, n: u32) -> Result<Bytes, NoMemory> {
    let mut bytes = Bytes::new(alloc);
    for i in 0..n {
        bytes.push((i % 251) as u8)?;
    }
    Ok(bytes)
}

// A source of that text, of which the calls with these numbers are refused.
fn source(alloc: Global, text: Bytes, refused: &[u64]) -> Result<TextSource, Fail> {
    Ok(TextSource::new(text, Vec::from_slice(alloc, refused)?))
}

// The length that is read of a text of that length, if it can be read, and whether the text begins so.
fn length_read(
    alloc: Global,
    length: u32,
    limit: u32,
    refused: u64,
) -> Result<Result<(usize, bool), ReadFault>, Fail> {
    let whole = text(alloc, length)?;
    let mut source = source(alloc, text(alloc, length)?, &[refused])?;
    match read_all(alloc, &mut source, limit) {
        Ok(bytes) => {
            let begins = whole.as_slice().starts_with(bytes.as_slice());
            Ok(Ok((bytes.as_slice().len(), begins)))
        }
        Err(fault) => Ok(Err(fault)),
    }
}

// A text's length, the limit, the call that is refused, or 0, and the length that is read.
static LENGTHS: [(u32, u32, u64, Option<usize>); 15] = [
    (0, 0, 0, Some(0)),
    (1, 0, 0, Some(1)),
    (2, 0, 0, Some(1)),
    (10_000, 20_000, 0, Some(10_000)),
    (10_000, 10_001, 0, Some(10_000)),
    (10_000, 10_000, 0, Some(10_000)),
    (10_000, 9_999, 0, Some(10_000)),
    (10_000, 9_998, 0, Some(9_999)),
    (10_000, 4_095, 0, Some(4_096)),
    (10_000, 4_096, 0, Some(4_097)),
    // three reads give the text, and where there is room a fourth finds its end
    (10_000, 20_000, 1, None),
    (10_000, 20_000, 2, None),
    (10_000, 20_000, 4, None),
    (10_000, 20_000, 5, Some(10_000)),
    (10_000, 9_999, 4, Some(10_000)),
];

// The text `hello`, whose first and third reads are refused, is given two bytes at a time.
fn gives_its_text(rt: &impl Abort, alloc: Global) -> Result<(), Fail> {
    let mut text = Bytes::new(alloc);
    text.extend(b"hello")?;
    let mut source = source(alloc, text, &[1, 3])?;
    let mut buf = *b"..";
    let rows = [
        (SourceRead::Failed, *b".."),
        (SourceRead::Read(2), *b"he"),
        (SourceRead::Failed, *b"he"),
        (SourceRead::Read(2), *b"ll"),
        (SourceRead::Read(1), *b"ol"),
        (SourceRead::Read(0), *b"ol"),
    ];
    for wanted in &rows {
        let read = source.read(&mut buf);
        same(rt, "hello", (read, buf), *wanted);
    }
    Ok(())
}

#[test]
fn texts_are_read(rt: HostRuntime) -> Result<(), Fail> {
    for (length, limit, refused, want) in &LENGTHS {
        let told = length_read(rt.alloc(), *length, *limit, *refused)?;
        let wanted = match want {
            Some(n) => Ok((*n, true)),
            None => Err(ReadFault::Failed),
        };
        same(&rt, (*length, *limit, *refused), told, wanted);
    }
    gives_its_text(&rt, rt.alloc())
}

// Takes one byte at a time.
#[derive(Drop)]
struct Narrow<K> {
    sink: K,
}

impl<K: Sink> Sink for Narrow<K> {
    ghost faults = { λ s. K.faults s.sink };

    fn write(&mut self, piece: &[u8]) -> SinkWrite {
        self.sink.write(&piece[..1])
    }
}

// A sink that refuses the calls of these numbers.
fn refusing(alloc: Global, calls: &[u64]) -> Result<ListSink, Fail> {
    Ok(ListSink::new(alloc, Vec::from_slice(alloc, calls)?))
}

// What is answered where four pieces are written, each whole.
fn write_four<K: Sink>(sink: &mut K) -> [Result<(), WriteFailed>; 4] {
    [
        write_all(sink, b"abc"),
        write_all(sink, b""),
        write_all(sink, b"defg"),
        write_all(sink, b"h"),
    ]
}

// The second call is refused.
fn is_written_by_few_calls(rt: &impl Abort, mut sink: ListSink) {
    let told = write_four(&mut sink);
    let wanted = (
        [Ok(()), Ok(()), Err(WriteFailed), Ok(())],
        b"abch".as_slice(),
    );
    same(rt, "abc, none, defg, h", (told, sink.written()), wanted);
}

// The sixth call is refused.
fn is_written_by_many_calls(rt: &impl Abort, sink: ListSink) {
    let mut narrow = Narrow { sink };
    let told = write_four(&mut narrow);
    let wanted = (
        [Ok(()), Ok(()), Err(WriteFailed), Ok(())],
        b"abcdeh".as_slice(),
    );
    same(
        rt,
        "a, b, c and so on",
        (told, narrow.sink.written()),
        wanted,
    );
}

// The second and the third call are refused.
fn keeps_what_is_written(rt: &impl Abort, mut sink: ListSink) {
    same(rt, "before", sink.written(), b"".as_slice());
    let rows = [
        (b"ab".as_slice(), SinkWrite::Wrote(2), b"ab".as_slice()),
        (b"c", SinkWrite::Failed, b"ab"),
        (b"d", SinkWrite::Failed, b"ab"),
        (b"efg", SinkWrite::Wrote(3), b"abefg"),
    ];
    for (piece, want, kept) in &rows {
        let wrote = sink.write(piece);
        same(rt, *piece, (wrote, sink.written()), (*want, *kept));
    }
}

#[test]
fn pieces_are_written(rt: HostRuntime) -> Result<(), Fail> {
    let alloc = rt.alloc();
    is_written_by_few_calls(&rt, refusing(alloc, &[2])?);
    is_written_by_many_calls(&rt, refusing(alloc, &[6])?);
    keeps_what_is_written(&rt, refusing(alloc, &[2, 3])?);
    Ok(())
}

// Fails at each call.
#[derive(Drop)]
struct Broken;

impl Read for Broken {
    fn read(&mut self, _buf: &mut [u8]) -> io::Result<usize> {
        Err(io::Error::from(ErrorKind::Other))
    }
}

impl Write for Broken {
    fn write(&mut self, _buf: &[u8]) -> io::Result<usize> {
        Err(io::Error::from(ErrorKind::Other))
    }

    fn flush(&mut self) -> io::Result<()> {
        Ok(())
    }
}

// Takes nothing, and does not call that an error.
#[derive(Drop)]
struct Full;

impl Write for Full {
    fn write(&mut self, _buf: &[u8]) -> io::Result<usize> {
        Ok(0)
    }

    fn flush(&mut self) -> io::Result<()> {
        Ok(())
    }
}

// What three reads of `abc` give, two bytes at a time.
type Read3 = ((SourceRead, [u8; 2]), (SourceRead, [u8; 2]), SourceRead);

fn read_abc() -> Read3 {
    let mut buf = [0u8; 2];
    let mut source = StdSource::new(b"abc".as_slice());
    let first = (source.read(&mut buf), buf);
    let second = (source.read(&mut buf), buf);
    (first, second, source.read(&mut buf))
}

// Two reads of a source that has not failed yet. Where both fail, two faults are counted.
fn read_twice(source: &mut StdSource<Broken>) -> [SourceRead; 2]
    ensures both { source.old.faults ≡ 0 → result ≡ SourceRead.Failed ∷ SourceRead.Failed ∷ [] → source.new.faults ≡ 2 }
{
    let mut buf = [0u8; 2];
    [source.read(&mut buf), source.read(&mut buf)]
}

// What is written of two pieces to the system, and what it has then.
fn write_twice(kept: &mut Vec<u8>) -> [SinkWrite; 2] {
    let mut sink = StdSink::new(kept);
    [sink.write(b"ab"), sink.write(b"c")]
}

// A write to a sink that has not failed yet. Where it fails, one fault is counted, and else none.
fn write_first<W: Write + Drop>(sink: &mut StdSink<W>) -> SinkWrite
    ensures failed { sink.old.faults ≡ 0 → result ≡ SinkWrite.Failed → sink.new.faults ≡ 1 }
    ensures wrote { result ≢ SinkWrite.Failed → sink.new.faults ≡ sink.old.faults }
{
    sink.write(b"ab")
}

#[test]
fn the_system_is_read_and_written(rt: HostRuntime) {
    let abc = (
        (SourceRead::Read(2), *b"ab"),
        (SourceRead::Read(1), *b"cb"),
        SourceRead::Read(0),
    );
    same(&rt, "abc", read_abc(), abc);
    let failed = [SourceRead::Failed; 2];
    same(
        &rt,
        "reads",
        read_twice(&mut StdSource::new(Broken)),
        failed,
    );
    let broken = write_first(&mut StdSink::new(Broken));
    let full = write_first(&mut StdSink::new(Full));
    same(&rt, "broken, full", [broken, full], [SinkWrite::Failed; 2]);
    let mut kept = Vec::new(rt.alloc());
    let told = write_twice(&mut kept);
    let wanted = (
        [SinkWrite::Wrote(2), SinkWrite::Wrote(1)],
        b"abc".as_slice(),
    );
    same(&rt, "ab, c", (told, kept.as_slice()), wanted);
}
