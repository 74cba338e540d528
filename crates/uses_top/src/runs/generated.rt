//! The words `gen N`: the script of a number is run, and told of by one line.
use super::fixture::{Case, INPUT, RUN, told_of};
use crate::compare::same_text;
use std::test::Fail;

/// `gen 1`, with nothing that fails.
const GEN: Case = Case {
    words: "gen 1",
    ..RUN
};

// The line of `gen 1` has 30 bytes. The starts of the four loopers come first, then those of the four sessions. In the last
// case the closing line is refused.
static CASES: [Case; 10] = [
    GEN,
    Case {
        words: "gen 3",
        ..RUN
    },
    Case { byte: 1, ..GEN },
    Case { byte: 8, ..GEN },
    Case { byte: 30, ..GEN },
    Case { byte: 31, ..GEN },
    Case { start: 4, ..GEN },
    Case { start: 5, ..GEN },
    Case { start: 8, ..GEN },
    Case {
        start: 5,
        byte: 8,
        ..GEN
    },
];

// Session `s` sends its first line to the looper at `1 + (s + 1) % 3`: of four sessions one line goes to `w1`, one to `w2`, and two
// to `w3`. Of three lines each looper gets one from each session. Where a session gets no thread its line is carried out all the
// same, and nothing behind it.
const TOLD: &str = "gen 1: replies 4 counts 1 1 2
= 0 done, 145 left, 8 outcomes, 4 loopers, 4 ended
gen 3: replies 12 counts 4 4 4
= 0 done, 145 left, 16 outcomes, 4 loopers, 4 ended
= 4 write fault, 145 left, 8 outcomes, 4 loopers, 4 ended
gen 1: = 4 write fault, 145 left, 8 outcomes, 4 loopers, 4 ended
gen 1: replies 4 counts 1 1 2= 4 write fault, 145 left, 8 outcomes, 4 loopers, 4 ended
gen 1: replies 4 counts 1 1 2
= 0 done, 145 left, 8 outcomes, 4 loopers, 4 ended
thread fault
= 5 thread fault, 145 left, 0 outcomes, 4 loopers, 4 ended
thread fault
= 5 thread fault, 145 left, 2 outcomes, 4 loopers, 4 ended
thread fault
= 5 thread fault, 145 left, 5 outcomes, 4 loopers, 4 ended
thread = 5 thread fault, 145 left, 2 outcomes, 4 loopers, 4 ended
";

#[test]
fn a_number_may_be_told_of(rt: HostRuntime) -> Result<(), Fail> {
    let told = told_of(&rt, rt.alloc(), &CASES, INPUT)?;
    same_text(&rt, "nothing is read", &told, TOLD);
    Ok(())
}
