//! A thread is not started: its team ends, and the loopers that got no thread end where they stand.

use crate::compare::same;
use crate::scene::{Act, At, Scene, Tell};
use crate::stage::told_of;
use std::test::Fail;

const THREE: &[u8] = b"app /boot/Three application/x-three single
looper own
looper second
looper third
";

// Main sends all the same, and launches once more.
const SECOND_IS_REFUSED: Scene = Scene {
    text: THREE,
    at: At::Open,
    refused: &[2],
    acts: &[
        Act::Launch(b"/boot/Three"),
        Act::Post(0, b"'late'"),
        Act::Ask(2, b"'late'"),
        Act::Launch(b"/boot/Three"),
        Act::Ask(3, b"'last'"),
    ],
    tells: &[
        Tell::Account(0),
        Tell::Account(1),
        Tell::Account(2),
        Tell::Account(3),
        Tell::Account(4),
        Tell::Account(5),
        Tell::Port(0, &[0]),
        Tell::Port(1, &[0, 10_001]),
        Tell::Port(2, &[0, 10_002]),
        Tell::Roster(&[0]),
        Tell::Closing(1, 0, 3),
        Tell::Closing(2, 3, 6),
        Tell::Asked,
    ],
};

// Whether the own looper was told yet that it is ready to run is open. No start is asked for behind the refused one.
const SECOND: &str = "launch: thread fault
post: B_BAD_PORT_ID
ask: B_BAD_PORT_ID
launch: started 2
ask: 'MNOT'
 looper 0 accounts for all
 looper 1 accounts for all
 looper 2 accounts for all
 looper 3 accounts for all
 looper 4 accounts for all
 looper 5 accounts for all
at the port by 0: made 100 of 8192 written 0 '_RTR' to p team 0 shut refused
at the port by 0: made 100 of 8192 shut
at the port by 10001: rest 0
at the port by 0: made 100 of 8192 shut refused
at the port by 10002: rest 0
at the roster by 0: launched 1 first 0 gone 1 launched 2 first 3 gone 2
 team 1 was closed in order
 team 2 was closed in order
 asked 5
";

const FIRST_IS_REFUSED: Scene = Scene {
    text: THREE,
    at: At::Open,
    refused: &[1],
    acts: &[
        Act::Launch(b"/boot/Three"),
        Act::Post(0, b"'late'"),
        Act::Ask(2, b"'late'"),
        Act::Launch(b"/boot/Three"),
        Act::Ask(3, b"'last'"),
    ],
    tells: &[
        Tell::Account(0),
        Tell::Account(1),
        Tell::Account(2),
        Tell::Account(3),
        Tell::Account(4),
        Tell::Account(5),
        Tell::Port(0, &[0]),
        Tell::Port(1, &[0, 10_001]),
        Tell::Port(2, &[0, 10_002]),
        Tell::Roster(&[0]),
        Tell::Closing(1, 0, 3),
        Tell::Closing(2, 3, 6),
        Tell::Asked,
    ],
};

// The same, but no thread is started at all.
const FIRST: &str = "launch: thread fault
post: B_BAD_PORT_ID
ask: B_BAD_PORT_ID
launch: started 2
ask: 'MNOT'
 looper 0 accounts for all
 looper 1 accounts for all
 looper 2 accounts for all
 looper 3 accounts for all
 looper 4 accounts for all
 looper 5 accounts for all
at the port by 0: made 100 of 8192 written 0 '_RTR' to p team 0 shut refused
at the port by 0: made 100 of 8192 shut
at the port by 10001: rest 0
at the port by 0: made 100 of 8192 shut refused
at the port by 10002: rest 0
at the roster by 0: launched 1 first 0 gone 1 launched 2 first 3 gone 2
 team 1 was closed in order
 team 2 was closed in order
 asked 4
";

#[test]
fn a_refused_start_ends_the_team(rt: HostRuntime) -> Result<(), Fail> {
    let alloc = rt.alloc();
    same(
        &rt,
        "the second start is refused",
        &told_of(&rt, alloc, &SECOND_IS_REFUSED)?,
        SECOND,
    );
    same(
        &rt,
        "the first start is refused",
        &told_of(&rt, alloc, &FIRST_IS_REFUSED)?,
        FIRST,
    );
    Ok(())
}
