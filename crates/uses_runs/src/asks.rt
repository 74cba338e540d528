//! Messages are asked, dispatched and answered.

use crate::compare::same;
use crate::scene::{Act, At, Scene, Tell};
use crate::stage::{GET_COUNT, GET_TOTAL, told_of};
use std::test::Fail;

// ---- a property
const ONE: &[u8] = b"app /boot/Demo application/x-demo single
looper demo capacity 4
property Count LONG
element 3
";

const ASKS_ONE: Scene = Scene {
    text: ONE,
    at: At::Open,
    refused: &[],
    acts: &[Act::Launch(b"/boot/Demo"), Act::Ask(0, GET_COUNT)],
    tells: &[
        Tell::Port(0, &[0, 10_000]),
        Tell::Desk(0),
        Tell::Book,
        Tell::Roster(&[0, 10_000]),
        Tell::Account(0),
        Tell::Closing(1, 0, 1),
    ],
};

// That it is ready to run comes first.
const PROPERTY: &str = "launch: started 1
ask: 'RPLY' result=LONG:3 error=LONG:0
at the port by 0: made 4 of 8192 written 0 '_RTR' to p team 0 written 1 'PGET' specifiers=MSGG: to p team 0 slot 0 shut
at the port by 10000: took 1 took 1 rest 0
at the desk by 10000: message 0 to 0
at the desk by 10000: message 1 to 0
in the book slot 0: opened by 0 filled 'RPLY' result=LONG:3 error=LONG:0 by 10000 taken by 0
at the roster by 0: launched 1 first 0 gone 1
at the roster by 10000:
 looper 0 accounts for all
 team 1 was closed in order
";

#[test]
fn a_property_is_asked_for(rt: HostRuntime) -> Result<(), Fail> {
    let alloc = rt.alloc();
    same(
        &rt,
        "one looper answers",
        &told_of(&rt, alloc, &ASKS_ONE)?,
        PROPERTY,
    );
    Ok(())
}

// ---- an ask of an action
const TWO: &[u8] = b"app /boot/Pair application/x-pair single
looper first
property Total LONG
element 0
on 'sum1'
ask looper second 'PGET' specifiers=MSGG:{0x00000001 property=\"Count\"} into Total
looper second
property Count LONG
element 5
";

const ASKS_ANOTHER: Scene = Scene {
    text: TWO,
    at: At::Open,
    refused: &[],
    acts: &[
        Act::Launch(b"/boot/Pair"),
        Act::Ask(0, b"'sum1'"),
        Act::Ask(0, GET_TOTAL),
    ],
    tells: &[
        Tell::Port(0, &[0, 10_000]),
        Tell::Desk(0),
        Tell::Port(1, &[0, 10_000, 10_001]),
        Tell::Desk(1),
        Tell::Book,
        Tell::Roster(&[10_000, 10_001]),
    ],
};

// An own looper has the doors of its team from the beginning.
const INTO: &str = "launch: started 1
ask: 'NONE'
ask: 'RPLY' result=LONG:5 error=LONG:0
at the port by 0: made 100 of 8192 written 0 '_RTR' to p team 0 written 1 'sum1' to p team 0 slot 0 written 2 'PGET' specifiers=MSGG: to p team 0 slot 2 shut
at the port by 10000: took 1 took 1 took 1 rest 0
at the desk by 10000: message 0 to 0
at the desk by 10000: message 1 to 0 reply
at the desk by 10000: message 2 to 0
at the port by 0: made 100 of 8192 shut
at the port by 10000: written 0 'PGET' specifiers=MSGG: to p team 1 slot 1
at the port by 10001: took 1 rest 0
at the desk by 10001: message 0 to 0
in the book slot 0: opened by 0 filled 'NONE' by 10000 taken by 0
in the book slot 1: opened by 10000 filled 'RPLY' result=LONG:5 error=LONG:0 by 10001 taken by 10000
in the book slot 2: opened by 0 filled 'RPLY' result=LONG:5 error=LONG:0 by 10000 taken by 0
at the roster by 10000:
at the roster by 10001:
";

#[test]
fn an_answer_goes_into_a_property(rt: HostRuntime) -> Result<(), Fail> {
    let alloc = rt.alloc();
    same(
        &rt,
        "a later looper is asked",
        &told_of(&rt, alloc, &ASKS_ANOTHER)?,
        INTO,
    );
    Ok(())
}
