// What is read back of the texts that are printed of messages, and of others.

use crate::compare::same;
use ak_print::read_message;
use std::alloc::Global;
use std::test::Fail;

const RPLY: u32 = 0x5250_4c59;

// Texts, and of those that are a message's its code and how many names it has.
static TEXTS: [(&[u8], Option<(u32, u32)>); 32] = [
    (b"'RPLY'", Some((RPLY, 0))),
    (b"'MNOT'", Some((0x4d4e_4f54, 0))),
    (b"0x0000000a", Some((10, 0))),
    (b"'RPLY' result=LONG:3 error=LONG:0", Some((RPLY, 2))),
    (b"'RPLY' error=LONG:-4", Some((RPLY, 1))),
    (b"'RPLY' total=LONG:1 error=LONG:0", Some((RPLY, 2))),
    (b"'RPLY' result=BOOL:true error=LONG:0", Some((RPLY, 2))),
    (b"'RPLY' result=CSTR:\"busy\" error=LONG:0", Some((RPLY, 2))),
    (
        b"'RPLY' result=CSTR:\"Hello\",CSTR:\"Lunch\" error=LONG:0",
        Some((RPLY, 2)),
    ),
    (
        b"'RPLY' suites=CSTR:\"suite/vnd.sample-mail\",CSTR:\"suite/vnd.Be-handler\",CSTR:\"suite/vnd.Be-looper\",CSTR:\"suite/vnd.Be-application\" properties=CSTR:\"Status\" error=LONG:0",
        Some((RPLY, 3)),
    ),
    (
        b"'RPLY' m=MSGG:{'PGET' t=CSTR:\"a b, {\\\"\\x0a\"} r=RAWT:00ff to=MSNG:1.p",
        Some((RPLY, 3)),
    ),
    // nothing, blanks, and other bytes behind or before
    (b"", None),
    (b" ", None),
    (b"'RPLY' ", None),
    (b" 'RPLY'", None),
    (b"'RPLY'\n", None),
    (b"'RPLY'  error=LONG:0", None),
    (b"'RPLY'\terror=LONG:0", None),
    (b"'RPLY' m=MSGG:{'PGET'  n=LONG:1}", None),
    (b"'RPLY'} m=MSGG:{'RPLY'", None),
    // what an input may write otherwise
    (b"'RPLY' error=0", None),
    (b"'RPLY' result=true", None),
    (b"'RPLY' result=\"busy\"", None),
    (b"0x52504c59", None),
    // what no input may write
    (b"0x0000000A", None),
    (b"'RPLY' r=RAWT:0A", None),
    (b"'RPLY' error=LONG:00", None),
    (b"'RPLY' error=LONG:0,BOOL:true", None),
    (b"'RPLY' error=LONG:0 error=LONG:0", None),
    (b"'RPLY' result=CSTR:\"busy", None),
    (b"'RPLY' result=CSTR:\"\xff\"", None),
    (b"RPLY", None),
];

fn read_back(alloc: Global, text: &[u8]) -> Result<Option<(u32, u32)>, Fail> {
    match read_message(alloc, text)? {
        Some(message) => Ok(Some((message.what().0, message.count_names()))),
        None => Ok(None),
    }
}

#[test]
fn printed_texts_are_read_back(rt: HostRuntime) -> Result<(), Fail> {
    for (text, wanted) in &TEXTS {
        same(&rt, *text, read_back(rt.alloc(), text)?, *wanted);
    }
    Ok(())
}
