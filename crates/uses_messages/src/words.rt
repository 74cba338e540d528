// The words of lines with their columns, and the longest input.

use crate::compare::same;
use ak_base::RefusalKind;
use ak_input::{INPUT_LIMIT, LinesFault, Word, WordsFault, split_lines, split_words};
use std::alloc::Global;
use std::test::Fail;

// ---- words
// Words with their columns.
type Begins = &'static [(u32, &'static [u8])];

// Whether these are the words, with their columns.
fn are_words(words: &[Word], wanted: Begins) -> bool {
    if words.len() != wanted.len() {
        return false;
    }
    for (word, (column, bytes)) in words.iter().zip(wanted) {
        if word.column != *column || word.bytes.as_slice() != *bytes {
            return false;
        }
    }
    true
}

// Whether a line has these words, if it is not long.
fn is_split(alloc: Global, line: &[u8], wanted: Begins) -> Result<bool, WordsFault> {
    if line.len() > 65_536 {
        return Ok(false);
    }
    Ok(are_words(split_words(alloc, line)?.as_slice(), wanted))
}

static SPLIT: [(&[u8], Begins); 20] = [
    (b"kit 1", &[(1, b"kit"), (5, b"1")]),
    (b"  kit \t 1  ", &[(3, b"kit"), (9, b"1")]),
    (b"", &[]),
    (b" \t", &[]),
    (b"Count[1]", &[(1, b"Count"), (6, b"[1]")]),
    (
        b"Count [0 to 1] of",
        &[(1, b"Count"), (7, b"[0 to 1]"), (16, b"of")],
    ),
    (b"[1]of [2]", &[(1, b"[1]of"), (7, b"[2]")]),
    (b"[1][2]", &[(1, b"[1]"), (4, b"[2]")]),
    (b"[a [b] c] d", &[(1, b"[a [b] c]"), (11, b"d")]),
    (b"a] } b", &[(1, b"a]"), (4, b"}"), (6, b"b")]),
    (b"\"a b\" c", &[(1, b"\"a b\""), (7, b"c")]),
    (b"x=\"a [ b\"y z", &[(1, b"x=\"a [ b\"y"), (12, b"z")]),
    (
        b"\"\\\"\\\\\\x0a\\x1f\\x7f\\x01\"",
        &[(1, b"\"\\\"\\\\\\x0a\\x1f\\x7f\\x01\"")],
    ),
    (
        b"'a b' '[]{' c",
        &[(1, b"'a b'"), (7, b"'[]{'"), (13, b"c")],
    ),
    (b"'\\' a", &[(1, b"'\\'"), (5, b"a")]),
    (
        b"m=MSGG:{'abcd' n=MSGG:{'efgh'  x=1}} y",
        &[(1, b"m=MSGG:{'abcd' n=MSGG:{'efgh'  x=1}}"), (38, b"y")],
    ),
    (b"{[} ]} a", &[(1, b"{[} ]}"), (8, b"a")]),
    (b"{ \"}\" '}' } a", &[(1, b"{ \"}\" '}' }"), (13, b"a")]),
    (
        b"\"\ta\" \x01 b",
        &[(1, b"\"\ta\""), (6, b"\x01"), (8, b"b")],
    ),
    (
        b"p\xc3\xa9 \xc3\xa9",
        &[(1, b"p\xc3\xa9"), (5, b"\xc3\xa9")],
    ),
];

#[test]
fn lines_are_split_into_words(rt: HostRuntime) {
    for (line, wanted) in &SPLIT {
        same(&rt, *line, is_split(rt.alloc(), line, wanted), Ok(true));
    }
}

// ---- lines
// The line of a fault and its kind.
type Fault = Option<(u32, RefusalKind)>;

// How many lines of an input say something, and the first fault, if there is one; or why it is refused.
type Told = Result<(usize, Fault), LinesFault>;

fn told_of(alloc: Global, input: &[u8]) -> Told {
    let split = split_lines(alloc, input)?;
    let fault = match &split.fault {
        Some(fault) => Some((fault.line, fault.kind)),
        None => None,
    };
    Ok((split.lines.as_slice().len(), fault))
}

// What the longest input is told, which has no words, one with a byte more, and that one with a line more before its end.
fn told_of_long(alloc: Global) -> Result<[Told; 3], Fail> {
    let mut input = vec![in alloc; b'#'; INPUT_LIMIT]?;
    input[0] = b'\n';
    input[2] = b'\n';
    let longest = told_of(alloc, &input);
    input.push(b'\n')?;
    let longer = told_of(alloc, &input);
    input[INPUT_LIMIT - 1] = b'\n';
    Ok([longest, longer, told_of(alloc, &input)])
}

#[test]
fn inputs_have_at_most_1048576_bytes(rt: HostRuntime) -> Result<(), Fail> {
    let wanted = [
        Ok((0, None)),
        Err(LinesFault::TooLong { line: 3 }),
        Err(LinesFault::TooLong { line: 4 }),
    ];
    same(
        &rt,
        "longest, longer, a line more",
        told_of_long(rt.alloc())?,
        wanted,
    );
    Ok(())
}
