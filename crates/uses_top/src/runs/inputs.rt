//! Inputs that are refused, and how long one may be.
use super::fixture::{Case, INPUT, RUN, bytes_of, tell_case};
use crate::compare::same_text;
use ak_base::Bytes;
use std::alloc::Global;
use std::sync::Wait;
use std::test::Fail;
use std::thread::Threads;

// What stands behind the input, and the closing line that is refused at that byte, or at none.
static REFUSALS: [(&str, u64); 4] = [
    ("hey Demo gett Count\n", 0),
    ("launch Demo\n", 0),
    ("post Demo 'note'\n\nlooper late\n", 0),
    ("together\n", 9),
];

const REFUSED: &str = "refused line 10: bad hey at 10
= 2 refused, 0 left, no run
refused line 10: bad value
= 2 refused, 0 left, no run
refused line 12: unknown line
= 2 refused, 0 left, no run
refused = 2 refused, 0 left, no run
";

fn told_of_refusals<R: Threads + Wait + Copy + Send + 'static>(
    rt: &R,
    alloc: Global,
) -> Result<Bytes, Fail> {
    let mut out = Bytes::new(alloc);
    for (line, byte) in &REFUSALS {
        let input = bytes_of(alloc, &[INPUT.as_bytes(), line.as_bytes()])?;
        tell_case(&mut out, rt, alloc, Case { byte: *byte, ..RUN }, input)?;
    }
    Ok(out)
}

#[test]
fn an_input_may_be_refused(rt: HostRuntime) -> Result<(), Fail> {
    let told = told_of_refusals(&rt, rt.alloc())?;
    same_text(&rt, "its first fault is told", &told, REFUSED);
    Ok(())
}

// ---- how long it may be
// So many bytes, of which those behind the lines are one that says nothing.
fn long_input(alloc: Global, lines: &str, length: usize) -> Result<Bytes, Fail> {
    let comment = "#".repeat(alloc, length.saturating_sub(lines.len()))?;
    Ok(bytes_of(alloc, &[lines.as_bytes(), comment.as_bytes()])?)
}

// The lines, the length, and the read that fails, of 4,096 bytes each. The last input is one line.
static LENGTHS: [(&str, usize, u64); 5] = [
    (INPUT, 1_048_576, 0),
    (INPUT, 1_048_577, 0),
    (INPUT, 1_048_577, 200),
    (INPUT, 1_050_000, 0),
    ("", 1_048_577, 0),
];

const LONG: &str = "launch team 1
reply 'RPLY' result=LONG:3 error=LONG:0
= 0 done, 0 left, 2 outcomes, 2 loopers, 2 ended
refused line 10: input too long
= 2 refused, 0 left, no run
read fault
= 3 read fault, 4096 left, no run
refused line 10: input too long
= 2 refused, 1423 left, no run
refused line 1: input too long
= 2 refused, 0 left, no run
";

fn told_of_lengths<R: Threads + Wait + Copy + Send + 'static>(
    rt: &R,
    alloc: Global,
) -> Result<Bytes, Fail> {
    let mut out = Bytes::new(alloc);
    for (lines, length, read) in &LENGTHS {
        let input = long_input(alloc, *lines, *length)?;
        tell_case(&mut out, rt, alloc, Case { read: *read, ..RUN }, input)?;
    }
    Ok(out)
}

#[test]
fn an_input_may_be_too_long(rt: HostRuntime) -> Result<(), Fail> {
    let told = told_of_lengths(&rt, rt.alloc())?;
    same_text(&rt, "one byte more is read, and no more", &told, LONG);
    Ok(())
}
