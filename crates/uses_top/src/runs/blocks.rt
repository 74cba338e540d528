//! What comes of a block of sessions: its lines are written once all of them are carried out, session by session.
use super::fixture::{BLOCK, Case, RUN, told_of};
use crate::compare::same_text;
use std::test::Fail;

// ---- the sink
// The launch's line has 14 bytes, the block's lines have 40, 40, 13 and 7, and the last line has 40.
static BYTES: [Case; 6] = [
    RUN,
    Case { byte: 15, ..RUN },
    Case { byte: 60, ..RUN },
    Case { byte: 108, ..RUN },
    Case { byte: 115, ..RUN },
    Case { byte: 155, ..RUN },
];

// The block was carried out when its first line is written, so each of its lines has an outcome, whichever was not written. The
// statement behind it has none.
const WRITTEN: &str = "launch team 1
reply 'RPLY' result=LONG:3 error=LONG:0
reply 'RPLY' result=LONG:1 error=LONG:0
edit token 1
posted
reply 'RPLY' result=LONG:2 error=LONG:0
= 0 done, 0 left, 6 outcomes, 2 loopers, 2 ended
launch team 1
= 4 write fault, 0 left, 5 outcomes, 2 loopers, 2 ended
launch team 1
reply 'RPLY' result=LONG:3 error=LONG:0
reply= 4 write fault, 0 left, 5 outcomes, 2 loopers, 2 ended
launch team 1
reply 'RPLY' result=LONG:3 error=LONG:0
reply 'RPLY' result=LONG:1 error=LONG:0
edit token 1
= 4 write fault, 0 left, 5 outcomes, 2 loopers, 2 ended
launch team 1
reply 'RPLY' result=LONG:3 error=LONG:0
reply 'RPLY' result=LONG:1 error=LONG:0
edit token 1
posted
= 4 write fault, 0 left, 6 outcomes, 2 loopers, 2 ended
launch team 1
reply 'RPLY' result=LONG:3 error=LONG:0
reply 'RPLY' result=LONG:1 error=LONG:0
edit token 1
posted
reply 'RPLY' result=LONG:2 error=LONG:0
= 0 done, 0 left, 6 outcomes, 2 loopers, 2 ended
";

#[test]
fn a_sink_may_fail_at_a_line_of_a_block(rt: HostRuntime) -> Result<(), Fail> {
    let told = told_of(&rt, rt.alloc(), &BYTES, BLOCK)?;
    same_text(&rt, "no line behind it is written", &told, WRITTEN);
    Ok(())
}

// ---- the spawner
// The starts of the two loopers come first, then those of the two sessions. The third case's second line of the block is refused, and
// in the fourth one its closing line.
static STARTS: [Case; 5] = [
    Case { start: 3, ..RUN },
    Case { start: 4, ..RUN },
    Case {
        start: 4,
        byte: 60,
        ..RUN
    },
    Case {
        start: 3,
        byte: 101,
        ..RUN
    },
    Case { start: 5, ..RUN },
];

// Of the session that gets no thread the lines are carried out and written all the same, and then the closing line. Where one of them
// is not written, nothing is written behind it, and the ending is that of the thread.
const STARTED: &str = "launch team 1
reply 'RPLY' result=LONG:3 error=LONG:0
reply 'RPLY' result=LONG:1 error=LONG:0
thread fault
= 5 thread fault, 0 left, 3 outcomes, 2 loopers, 2 ended
launch team 1
reply 'RPLY' result=LONG:3 error=LONG:0
reply 'RPLY' result=LONG:1 error=LONG:0
edit token 1
posted
thread fault
= 5 thread fault, 0 left, 5 outcomes, 2 loopers, 2 ended
launch team 1
reply 'RPLY' result=LONG:3 error=LONG:0
reply= 5 thread fault, 0 left, 5 outcomes, 2 loopers, 2 ended
launch team 1
reply 'RPLY' result=LONG:3 error=LONG:0
reply 'RPLY' result=LONG:1 error=LONG:0
thread= 5 thread fault, 0 left, 3 outcomes, 2 loopers, 2 ended
launch team 1
reply 'RPLY' result=LONG:3 error=LONG:0
reply 'RPLY' result=LONG:1 error=LONG:0
edit token 1
posted
reply 'RPLY' result=LONG:2 error=LONG:0
= 0 done, 0 left, 6 outcomes, 2 loopers, 2 ended
";

#[test]
fn a_session_may_get_no_thread(rt: HostRuntime) -> Result<(), Fail> {
    let told = told_of(&rt, rt.alloc(), &STARTS, BLOCK)?;
    same_text(&rt, "its lines are written, and no more", &told, STARTED);
    Ok(())
}
