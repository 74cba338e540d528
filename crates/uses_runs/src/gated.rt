//! What a gate sees of a looper's dispatches.

use crate::compare::same;
use crate::gates::{BEFORE_THIRD, BEHIND_THIRD};
use crate::scene::{Act, At, Scene, Tell};
use crate::stage::told_of;
use std::test::Fail;

const ONE: &[u8] = b"app /boot/Demo application/x-demo single
looper demo
";

// Main edits the handlers while the looper stands at that call of the gate, which waits for it a while.
const EDITS_BEHIND: Scene = Scene {
    text: ONE,
    at: At::Watched(BEHIND_THIRD, false),
    refused: &[],
    acts: &[
        Act::Launch(b"/boot/Demo"),
        Act::Post(0, b"'one1'"),
        Act::Post(0, b"'two2'"),
        Act::Await,
        Act::Add(0, b"more"),
        Act::LetGo,
        Act::Ask(0, b"'last'"),
    ],
    tells: &[Tell::Desk(0), Tell::Seen],
};

// Four messages are dispatched. The edit comes behind the third one, whether it waits for that one's turn or not.
const BEHIND: &str = "launch: started 1
post: written 1
post: written 2
ask: 'MNOT'
at the desk by 10000: message 0 to 0
at the desk by 10000: message 1 not understood
at the desk by 10000: message 2 not understood
at the desk by 0: add token 1
at the desk by 10000: message 3 not understood
 calls 8 strange 0 came 1
";

const EDITS_BEFORE: Scene = Scene {
    text: ONE,
    at: At::Watched(BEFORE_THIRD, true),
    refused: &[],
    acts: &[
        Act::Launch(b"/boot/Demo"),
        Act::Post(0, b"'one1'"),
        Act::Post(0, b"'two2'"),
        Act::Await,
        Act::Add(0, b"more"),
        Act::LetGo,
        Act::Ask(0, b"'last'"),
    ],
    tells: &[Tell::Desk(0), Tell::Seen],
};

const BEFORE: &str = "launch: started 1
post: written 1
post: written 2
ask: 'MNOT'
at the desk by 10000: message 0 to 0
at the desk by 10000: message 1 not understood
at the desk by 10000: message 2 not understood
at the desk by 0: add token 1
at the desk by 10000: message 3 not understood
 calls 8 strange 0 came 0
";

#[test]
fn a_gate_is_asked_in_the_turn_and_behind_it(rt: HostRuntime) -> Result<(), Fail> {
    let alloc = rt.alloc();
    same(
        &rt,
        "behind a dispatch the desk is free",
        &told_of(&rt, alloc, &EDITS_BEHIND)?,
        BEHIND,
    );
    same(
        &rt,
        "before a dispatch the looper has the desk's turn",
        &told_of(&rt, alloc, &EDITS_BEFORE)?,
        BEFORE,
    );
    Ok(())
}
