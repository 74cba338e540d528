// Texts that no word of a line is, read as values.

use crate::compare::same;
use ParseFault::BadValue;
use ak_input::{ParseFault, read_quoted, read_value};
use std::alloc::Global;

static NO_VALUES: [&[u8]; 18] = [
    b"",
    b"true ",
    b"LONG: 1",
    b"LONG:1 ",
    b"CSTR:\"x",
    b"\"x\"\"",
    b"\"\x00\"",
    b"\"\\a\"",
    b"\"\\x00\"",
    b"\"\\x20\"",
    b"\"\\x7e\"",
    b"\"\\x0A\"",
    b"\"\\x0\"",
    b"\"\\",
    b"\"\xff\"",
    b"RAWT:0a ",
    b"MSGG:{'abcd'",
    b"MSGG:{'abcd'} ",
];

fn fault_of(alloc: Global, text: &[u8]) -> Option<ParseFault> {
    read_value(alloc, text).err()
}

#[test]
fn texts_that_are_no_words_are_no_values(rt: HostRuntime) {
    for text in &NO_VALUES {
        same(&rt, *text, fault_of(rt.alloc(), text), Some(BadValue));
    }
    let fault = read_quoted(rt.alloc(), b"\"x").err();
    same(&rt, "not closed", fault, Some(BadValue));
}
