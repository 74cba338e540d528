//! The words `run -j`: behind the lines of the outcomes stands the journal, a line for each entry of each object.
use super::fixture::{BLOCK, Case, INPUT, RUN, bytes_of, told_of, words_of};
use crate::compare::same_text;
use ak_base::{Bytes, NoMemory, print_uint};
use ak_diary::Histories;
use ak_journal::{print_entry, read_entry};
use ak_kit::kit;
use ak_outside::{ListSink, OpenGate, PlannedSpawner, TextSource};
use ak_turn::Book;
use std::alloc::Global;
use std::str::from_utf8;
use std::sync::Wait;
use std::test::Fail;
use std::thread::Threads;

// ---- each line is that of an entry
// Whether the line is read, and what is read is printed so.
fn comes_back(alloc: Global, line: &[u8]) -> Result<bool, NoMemory> {
    let Some(entry) = read_entry(alloc, line)? else {
        return Ok(false);
    };
    let mut out = Bytes::new(alloc);
    print_entry(alloc, &entry, &mut out)?;
    Ok(out.as_slice() == line)
}

// How many entries the objects of the run have.
fn count_entries(histories: &Histories) -> u64 {
    let mut count = (histories.roster.len() as u64).wrapping_add(histories.book.len());
    for port in &histories.ports {
        count = count.wrapping_add(port.len());
    }
    for desk in &histories.desks {
        count = count.wrapping_add(desk.len());
    }
    count
}

// The lines up to `journal`, and then how many stand behind it, and how many of them come back.
fn tell_lines(out: &mut Bytes, alloc: Global, written: &str) -> Result<(), NoMemory> {
    let mut is_behind = false;
    let mut lines = 0_u64;
    let mut again = 0_u64;
    for line in written.lines() {
        if is_behind {
            lines = lines.wrapping_add(1);
            again = again.wrapping_add(u64::from(comes_back(alloc, line.as_bytes())?));
        } else {
            is_behind = line == "journal";
            out.extend(line.as_bytes())?;
            out.push(b'\n')?;
        }
    }
    print_uint(lines, out)?;
    out.extend(b" lines, ")?;
    print_uint(again, out)?;
    out.extend(b" read back, ")
}

fn tell_journal<R: Threads + Wait + Copy + Send + 'static>(
    out: &mut Bytes,
    rt: &R,
    alloc: Global,
    input: &str,
    start: u64,
) -> Result<(), Fail> {
    let words = words_of(alloc, "run -j")?;
    let mut source = TextSource::new(bytes_of(alloc, &[input.as_bytes()])?, Vec::new(alloc));
    let mut sink = ListSink::new(alloc, Vec::new(alloc));
    let mut spawner = PlannedSpawner::new(vec![in alloc; start]?);
    let end = kit(
        alloc,
        rt,
        &words,
        &mut source,
        &mut sink,
        &mut spawner,
        &OpenGate,
    );
    tell_lines(out, alloc, from_utf8(sink.written()).unwrap_or(""))?;
    let entries = end.run.map_or(0, |run| count_entries(&run.histories));
    print_uint(entries, out)?;
    Ok(out.extend(b" entries\n")?)
}

// Where a thread is not started, at the launch or of a session, the closing line stands behind the journal, and is that of no entry.
const ENTRIES: &str = "launch team 1
reply 'RPLY' result=LONG:3 error=LONG:0
journal
18 lines, 18 read back, 18 entries
launch team 1
reply 'RPLY' result=LONG:3 error=LONG:0
reply 'RPLY' result=LONG:1 error=LONG:0
edit token 1
posted
reply 'RPLY' result=LONG:2 error=LONG:0
journal
40 lines, 40 read back, 40 entries
journal
10 lines, 9 read back, 9 entries
launch team 1
reply 'RPLY' result=LONG:3 error=LONG:0
reply 'RPLY' result=LONG:1 error=LONG:0
journal
27 lines, 26 read back, 26 entries
";

#[test]
fn each_line_is_that_of_an_entry(rt: HostRuntime) -> Result<(), Fail> {
    let mut told = Bytes::new(rt.alloc());
    tell_journal(&mut told, &rt, rt.alloc(), INPUT, 0)?;
    tell_journal(&mut told, &rt, rt.alloc(), BLOCK, 0)?;
    tell_journal(&mut told, &rt, rt.alloc(), INPUT, 1)?;
    tell_journal(&mut told, &rt, rt.alloc(), BLOCK, 3)?;
    same_text(&rt, "each comes back", &told, ENTRIES);
    Ok(())
}

// ---- a write that fails
/// `run -j`, with nothing that fails.
const JOURNAL: Case = Case {
    words: "run -j",
    ..RUN
};

// The lines of the outcomes have 54 bytes, and the line `journal` has 8. In the last case there is no outcome: the launch starts no thread, and
// nothing stands behind the journal that is cut.
static CASES: [Case; 5] = [
    Case {
        byte: 20,
        ..JOURNAL
    },
    Case {
        byte: 55,
        ..JOURNAL
    },
    Case {
        byte: 62,
        ..JOURNAL
    },
    Case {
        byte: 63,
        ..JOURNAL
    },
    Case {
        byte: 3,
        start: 1,
        ..JOURNAL
    },
];

const FAILED: &str = "launch team 1
reply= 4 write fault, 0 left, 2 outcomes, 2 loopers, 2 ended
launch team 1
reply 'RPLY' result=LONG:3 error=LONG:0
= 4 write fault, 0 left, 2 outcomes, 2 loopers, 2 ended
launch team 1
reply 'RPLY' result=LONG:3 error=LONG:0
journal= 4 write fault, 0 left, 2 outcomes, 2 loopers, 2 ended
launch team 1
reply 'RPLY' result=LONG:3 error=LONG:0
journal
= 4 write fault, 0 left, 2 outcomes, 2 loopers, 2 ended
jo= 5 thread fault, 0 left, 0 outcomes, 2 loopers, 2 ended
";

#[test]
fn a_write_of_the_journal_may_fail(rt: HostRuntime) -> Result<(), Fail> {
    let told = told_of(&rt, rt.alloc(), &CASES, INPUT)?;
    same_text(&rt, "a front of it is written", &told, FAILED);
    Ok(())
}
