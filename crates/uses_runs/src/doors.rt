//! Loopers of two applications: a door is got at the first need, and kept.

use crate::compare::same;
use crate::scene::{Act, At, Scene, Tell};
use crate::stage::told_of;
use std::test::Fail;

const TWO: &[u8] = b"app /boot/Left application/x-left single
looper own
looper side
on 'send'
post app application/x-right 'note'
app /boot/Right application/x-right single
looper right
";

// No such application runs at the first ask.
const POSTS_TWICE: Scene = Scene {
    text: TWO,
    at: At::Open,
    refused: &[],
    acts: &[
        Act::Launch(b"/boot/Left"),
        Act::Ask(1, b"'send'"),
        Act::Launch(b"/boot/Right"),
        Act::Ask(1, b"'send'"),
        Act::Ask(1, b"'send'"),
        Act::Ask(2, b"'last'"),
    ],
    tells: &[
        Tell::Desk(1),
        Tell::Port(2, &[0, 10_001, 10_002]),
        Tell::Desk(2),
        Tell::Book,
        Tell::Roster(&[0, 10_000, 10_001, 10_002]),
    ],
};

const ONE_DOOR: &str = "launch: started 1
ask: 'NONE'
launch: started 2
ask: 'NONE'
ask: 'NONE'
ask: 'MNOT'
at the desk by 10001: message 0 to 0 no team K_NO_TEAM
at the desk by 10001: message 1 to 0 team 2 B_OK
at the desk by 10001: message 2 to 0 team 2 B_OK
at the port by 0: made 100 of 8192 written 0 '_RTR' to p team 0 written 3 'last' to p team 0 slot 3 shut
at the port by 10001: written 1 'note' to p team 1 written 2 'note' to p team 1
at the port by 10002: took 1 took 1 took 1 took 1 rest 0
at the desk by 10002: message 0 to 0
at the desk by 10002: message 1 not understood
at the desk by 10002: message 2 not understood
at the desk by 10002: message 3 not understood
in the book slot 0: opened by 0 filled 'NONE' by 10001 taken by 0
in the book slot 1: opened by 0 filled 'NONE' by 10001 taken by 0
in the book slot 2: opened by 0 filled 'NONE' by 10001 taken by 0
in the book slot 3: opened by 0 filled 'MNOT' by 10002 taken by 0
at the roster by 0: launched 1 first 0 launched 2 first 2 gone 1 gone 2
at the roster by 10000:
at the roster by 10001: found none found 2 door 2 found 2
at the roster by 10002:
";

#[test]
fn a_door_is_kept(rt: HostRuntime) -> Result<(), Fail> {
    let alloc = rt.alloc();
    same(
        &rt,
        "two posts need one door",
        &told_of(&rt, alloc, &POSTS_TWICE)?,
        ONE_DOOR,
    );
    Ok(())
}
