//! Launches: with arguments, of what runs already, of what is not there, of several at once; and a run without any.

use crate::compare::same;
use crate::scene::{Act, At, Scene, Tell};
use crate::stage::told_of;
use std::test::Fail;

const TWO: &[u8] = b"app /boot/One application/x-one single
looper one
app /boot/Many application/x-many multiple
looper many
looper more
";

// The arguments of the second launch go to the team that runs.
const LAUNCHES: Scene = Scene {
    text: TWO,
    at: At::Open,
    refused: &[],
    acts: &[
        Act::LaunchWith(b"/boot/One", b"'_ARG' argv=\"a\""),
        Act::LaunchWith(b"/boot/One", b"'_ARG' argv=\"b\""),
        Act::Launch(b"/boot/One"),
        Act::Launch(b"/boot/None"),
        Act::Launch(b"/boot/Many"),
        Act::Launch(b"/boot/Many"),
        Act::Ask(0, b"'last'"),
        Act::Ask(
            3,
            b"'PCNT' specifiers=MSGG:{0x00000001 property=\"Looper\"}",
        ),
        Act::Ask(0, b"'_QRQ'"),
        Act::Launch(b"/boot/One"),
    ],
    tells: &[
        Tell::Port(0, &[0, 10_000]),
        Tell::Desk(0),
        Tell::Account(0),
        Tell::Account(1),
        Tell::Account(2),
        Tell::Account(3),
        Tell::Account(4),
        Tell::Account(5),
        Tell::Roster(&[0, 10_000]),
        Tell::Closing(1, 0, 1),
        Tell::Closing(3, 3, 5),
    ],
};

// Arguments come before it is told that it is ready to run.
const AGAIN: &str = "launch: started 1
launch: running 1
launch: running 1
launch: not found
launch: started 2
launch: started 3
ask: 'MNOT'
ask: 'RPLY' result=LONG:2 error=LONG:0
ask: 'RPLY' result=BOOL:true error=LONG:0
launch: started 4
at the port by 0: made 100 of 8192 written 0 '_ARG' argv=CSTR:a to p team 0 written 1 '_RTR' to p team 0 written 2 '_ARG' argv=CSTR:b to p team 0 written 3 'last' to p team 0 slot 0 written 4 '_QRQ' to p team 0 slot 2
at the port by 10000: took 1 took 1 took 1 took 1 took 1 shut rest 0
at the desk by 10000: message 0 to 0
at the desk by 10000: message 1 to 0
at the desk by 10000: message 2 to 0
at the desk by 10000: message 3 not understood
at the desk by 10000: message 4 to 0 quits
 looper 0 accounts for all
 looper 1 accounts for all
 looper 2 accounts for all
 looper 3 accounts for all
 looper 4 accounts for all
 looper 5 accounts for all
at the roster by 0: launched 1 first 0 running 1 running 1 not found launched 2 first 1 launched 3 first 3 launched 4 first 5 gone 2 gone 3 gone 4
at the roster by 10000: gone 1
 team 1 was closed in order
 team 3 was closed in order
";

const NO_LAUNCH: Scene = Scene {
    text: TWO,
    at: At::Open,
    refused: &[],
    acts: &[],
    tells: &[Tell::Book, Tell::Roster(&[0])],
};

#[test]
fn applications_are_launched(rt: HostRuntime) -> Result<(), Fail> {
    let alloc = rt.alloc();
    same(
        &rt,
        "a single one runs once, others several times",
        &told_of(&rt, alloc, &LAUNCHES)?,
        AGAIN,
    );
    same(
        &rt,
        "nothing is launched",
        &told_of(&rt, alloc, &NO_LAUNCH)?,
        "at the roster by 0:\n",
    );
    Ok(())
}
