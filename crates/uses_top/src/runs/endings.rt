//! Each ending has its cause, its status and its closing line.
use super::fixture::{Case, INPUT, RUN, told_of};
use crate::compare::same_text;
use std::test::Fail;

// ---- the words
// The last one's closing line is refused in its middle.
static OTHER_WORDS: [Case; 16] = [
    Case { words: "", ..RUN },
    Case {
        words: "Run",
        ..RUN
    },
    Case {
        words: "run -j -j",
        ..RUN
    },
    Case {
        words: "read -j",
        ..RUN
    },
    Case {
        words: "read run",
        ..RUN
    },
    Case {
        words: "--help run",
        ..RUN
    },
    Case {
        words: "gen",
        ..RUN
    },
    Case {
        words: "gen 0",
        ..RUN
    },
    Case {
        words: "gen 501",
        ..RUN
    },
    Case {
        words: "gen 1 2",
        ..RUN
    },
    Case {
        words: "gen +1",
        ..RUN
    },
    Case {
        words: "gen 01",
        ..RUN
    },
    Case {
        words: "gen x",
        ..RUN
    },
    Case {
        words: "gen -1",
        ..RUN
    },
    Case {
        words: "Gen 1",
        ..RUN
    },
    Case {
        words: "run run",
        byte: 7,
        ..RUN
    },
];

// The input has 145 bytes.
const USAGE: &str = "usage: kit run [-j] | read | gen N
= 1 usage, 145 left, no run
usage: kit run [-j] | read | gen N
= 1 usage, 145 left, no run
usage: kit run [-j] | read | gen N
= 1 usage, 145 left, no run
usage: kit run [-j] | read | gen N
= 1 usage, 145 left, no run
usage: kit run [-j] | read | gen N
= 1 usage, 145 left, no run
usage: kit run [-j] | read | gen N
= 1 usage, 145 left, no run
usage: kit run [-j] | read | gen N
= 1 usage, 145 left, no run
usage: kit run [-j] | read | gen N
= 1 usage, 145 left, no run
usage: kit run [-j] | read | gen N
= 1 usage, 145 left, no run
usage: kit run [-j] | read | gen N
= 1 usage, 145 left, no run
usage: kit run [-j] | read | gen N
= 1 usage, 145 left, no run
usage: kit run [-j] | read | gen N
= 1 usage, 145 left, no run
usage: kit run [-j] | read | gen N
= 1 usage, 145 left, no run
usage: kit run [-j] | read | gen N
= 1 usage, 145 left, no run
usage: kit run [-j] | read | gen N
= 1 usage, 145 left, no run
usage:= 1 usage, 145 left, no run
";

#[test]
fn other_words_tell_the_usage(rt: HostRuntime) -> Result<(), Fail> {
    let told = told_of(&rt, rt.alloc(), &OTHER_WORDS, INPUT)?;
    same_text(&rt, "nothing is read", &told, USAGE);
    Ok(())
}

// ---- the source
// The read that finds the end is the second one. The last one's closing line is refused at its first byte.
static READS: [Case; 3] = [
    Case { read: 1, ..RUN },
    Case { read: 2, ..RUN },
    Case {
        read: 1,
        byte: 1,
        ..RUN
    },
];

const READ_FAULTS: &str = "read fault
= 3 read fault, 145 left, no run
read fault
= 3 read fault, 0 left, no run
= 3 read fault, 145 left, no run
";

#[test]
fn a_source_may_fail(rt: HostRuntime) -> Result<(), Fail> {
    let told = told_of(&rt, rt.alloc(), &READS, INPUT)?;
    same_text(&rt, "nothing is launched", &told, READ_FAULTS);
    Ok(())
}

// ---- the sink
// The first line has 14 bytes, both together have 54.
static BYTES: [Case; 5] = [
    Case { byte: 1, ..RUN },
    Case { byte: 8, ..RUN },
    Case { byte: 15, ..RUN },
    Case { byte: 54, ..RUN },
    Case { byte: 55, ..RUN },
];

// Whatever was written, the application was launched, and its loopers have ended.
const WRITE_FAULTS: &str = "= 4 write fault, 0 left, 1 outcomes, 2 loopers, 2 ended
launch = 4 write fault, 0 left, 1 outcomes, 2 loopers, 2 ended
launch team 1
= 4 write fault, 0 left, 2 outcomes, 2 loopers, 2 ended
launch team 1
reply 'RPLY' result=LONG:3 error=LONG:0= 4 write fault, 0 left, 2 outcomes, 2 loopers, 2 ended
launch team 1
reply 'RPLY' result=LONG:3 error=LONG:0
= 0 done, 0 left, 2 outcomes, 2 loopers, 2 ended
";

#[test]
fn a_sink_may_fail(rt: HostRuntime) -> Result<(), Fail> {
    let told = told_of(&rt, rt.alloc(), &BYTES, INPUT)?;
    same_text(&rt, "the run is ended and told", &told, WRITE_FAULTS);
    Ok(())
}

// ---- the spawner
// The threads of the application's two loopers are asked for, or of the first one alone. The third case's closing line is
// refused.
static STARTS: [Case; 4] = [
    Case { start: 1, ..RUN },
    Case { start: 2, ..RUN },
    Case {
        start: 2,
        byte: 8,
        ..RUN
    },
    Case { start: 3, ..RUN },
];

const THREAD_FAULTS: &str = "thread fault
= 5 thread fault, 0 left, 0 outcomes, 2 loopers, 2 ended
thread fault
= 5 thread fault, 0 left, 0 outcomes, 2 loopers, 2 ended
thread = 5 thread fault, 0 left, 0 outcomes, 2 loopers, 2 ended
launch team 1
reply 'RPLY' result=LONG:3 error=LONG:0
= 0 done, 0 left, 2 outcomes, 2 loopers, 2 ended
";

#[test]
fn a_start_may_be_refused(rt: HostRuntime) -> Result<(), Fail> {
    let told = told_of(&rt, rt.alloc(), &STARTS, INPUT)?;
    same_text(&rt, "the team is ended", &told, THREAD_FAULTS);
    Ok(())
}
