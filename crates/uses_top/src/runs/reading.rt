//! The word `read`: how much an input describes, and how many statements it has.
use super::fixture::{BLOCK, Case, INPUT, RUN, bytes_of, tell_case};
use crate::compare::same_text;
use ak_base::{Bytes, NoMemory};
use ak_kit::kit_read;
use ak_outside::{ListSink, TextSource};
use std::alloc::Global;
use std::sync::Wait;
use std::test::Fail;
use std::thread::Threads;

/// `read`, with nothing that fails.
const READ: Case = Case {
    words: "read",
    ..RUN
};

const DEMO: &str = "kit 1
app /boot/demo application/x-vnd.demo single
looper demo capacity 2
property Count LONG
element LONG:3
script
launch /boot/demo
hey demo get Count
";

const MAIL: &str = "kit 1
app /boot/apps/Mail application/x-vnd.sample-mail exclusive
looper Mail
suite suite/vnd.sample-mail
property Status CSTR
element CSTR:\"idle\"
looper Inbox capacity 50
property Subject CSTR forms 1 2 3 4 6
element CSTR:\"Hello\" name \"m1\"
element CSTR:\"Lunch\" name \"m2\"
element CSTR:\"Minutes\" name \"m3\"
property Unread LONG
element LONG:2
handler Counter
property Total LONG
element LONG:0
on 'tick'
add Total LONG:1
reply 'RPLY' total=@Total error=LONG:0
looper Outbox
property Queued CSTR
script
launch /boot/apps/Mail
hey Mail get Status
hey Mail set Status to \"busy\"
hey application/x-vnd.sample-mail get Status
hey Mail count Looper
hey Mail get Subject [0 to 1] of Looper \"Inbox\"
hey Mail get Subject [-1] of Looper [1]
hey Mail get Subject \"m2\" of Looper \"Inbox\"
hey Mail get Subject [3] of Looper [1]
hey Mail set Unread of Looper [1] to 1
hey Mail set Unread of Looper [1] to \"one\"
hey Mail 'tick' of Handler [1] of Looper [1]
hey Mail count Queued of Looper [2]
hey Mail create Queued of Looper [2] to \"draft\"
hey Mail get Queued [0] of Looper [2]
hey Mail delete Queued [0] of Looper [2]
hey Mail get Queued of Looper [2]
hey Mail count Handler of Looper [1]
hey Mail getsuites
hey Mail quit
hey Mail get Status
";

// Handlers of two loopers of one application, and of one of another; and each other kind of statement.
const SEVERAL: &str = "kit 1
app /a application/a multiple
looper a
handler x
handler y
looper b
handler x
app /b application/b multiple
looper a
handler z
script
post a 'note'
# no statement

lock a add w
launch /a
";

// What is read, of a block each of its lines, and of the input of the fixture also with a read, or the write of a byte, that fails. Its line has 41
// bytes.
static READS: [(Case, &str); 12] = [
    (READ, DEMO),
    (READ, MAIL),
    (READ, SEVERAL),
    (READ, BLOCK),
    (READ, ""),
    (READ, "# nothing\n"),
    (READ, "kit 1\nscript\nhey demo get Count of\n"),
    (Case { read: 1, ..READ }, INPUT),
    (Case { read: 2, ..READ }, INPUT),
    (Case { byte: 1, ..READ }, INPUT),
    (Case { byte: 13, ..READ }, INPUT),
    (Case { byte: 41, ..READ }, INPUT),
];

const TOLD: &str = "apps 1 loopers 1 handlers 0 statements 2
= 0 done, 0 left, no run
apps 1 loopers 3 handlers 1 statements 21
= 0 done, 0 left, no run
apps 2 loopers 3 handlers 4 statements 3
= 0 done, 0 left, no run
apps 1 loopers 2 handlers 0 statements 6
= 0 done, 0 left, no run
apps 0 loopers 0 handlers 0 statements 0
= 0 done, 0 left, no run
apps 0 loopers 0 handlers 0 statements 0
= 0 done, 0 left, no run
refused line 3: bad hey at 22
= 2 refused, 0 left, no run
read fault
= 3 read fault, 145 left, no run
read fault
= 3 read fault, 0 left, no run
= 4 write fault, 0 left, no run
apps 1 loope= 4 write fault, 0 left, no run
apps 1 loopers 2 handlers 0 statements 2= 4 write fault, 0 left, no run
";

fn told_of_reads<R: Threads + Wait + Copy + Send + 'static>(
    rt: &R,
    alloc: Global,
) -> Result<Bytes, Fail> {
    let mut out = Bytes::new(alloc);
    for (case, input) in &READS {
        let text = bytes_of(alloc, &[input.as_bytes()])?;
        tell_case(&mut out, rt, alloc, *case, text)?;
    }
    Ok(out)
}

// What `kit_read` writes, which needs no runtime.
fn read_alone(alloc: Global, input: &str) -> Result<Bytes, NoMemory> {
    let text = bytes_of(alloc, &[input.as_bytes()])?;
    let mut source = TextSource::new(text, Vec::new(alloc));
    let mut sink = ListSink::new(alloc, Vec::new(alloc));
    kit_read(alloc, &mut source, &mut sink);
    bytes_of(alloc, &[sink.written()])
}

#[test]
fn an_input_may_be_told_of(rt: HostRuntime) -> Result<(), Fail> {
    let told = told_of_reads(&rt, rt.alloc())?;
    same_text(&rt, "nothing is run", &told, TOLD);
    let alone = read_alone(rt.alloc(), DEMO)?;
    same_text(
        &rt,
        "by itself",
        &alone,
        "apps 1 loopers 1 handlers 0 statements 2\n",
    );
    Ok(())
}
