//! Many messages between two loopers, so that their threads run at once.

use crate::compare::same;
use crate::scene::{Act, At, Scene, Tell};
use crate::stage::told_of;
use std::test::Fail;

const TWINS: &[u8] = b"app /boot/Twins application/x-twins single
looper left capacity 1000
on 'send'
post looper right 'note'
looper right capacity 1000
on 'send'
post looper left 'note'
";

// Each has posted 1,000 messages to the other one when it answers the ask.
const POST_ACROSS: Scene = Scene {
    text: TWINS,
    at: At::Open,
    refused: &[],
    acts: &[
        Act::Launch(b"/boot/Twins"),
        Act::Often(1000, &[0, 1], b"'send'"),
        Act::Ask(0, b"'last'"),
        Act::Ask(1, b"'last'"),
    ],
    tells: &[
        Tell::Account(0),
        Tell::Account(1),
        Tell::Tries(0, 10_001),
        Tell::Tries(1, 10_000),
        Tell::Book,
    ],
};

const ACROSS: &str = "launch: started 1
ask: 'MNOT'
ask: 'MNOT'
 looper 0 accounts for all
 looper 1 accounts for all
 tries 1000 by 10001
 tries 1000 by 10000
in the book slot 0: opened by 0 filled 'MNOT' by 10000 taken by 0
in the book slot 1: opened by 0 filled 'MNOT' by 10001 taken by 0
";

#[test]
fn two_loopers_post_to_each_other(rt: HostRuntime) -> Result<(), Fail> {
    let alloc = rt.alloc();
    same(
        &rt,
        "all is dispatched or left",
        &told_of(&rt, alloc, &POST_ACROSS)?,
        ACROSS,
    );
    Ok(())
}

// ---- for ever
const GAME: &[u8] = b"app /boot/Game application/x-game single
looper left
on 'ball'
post looper right 'ball'
looper right
on 'ball'
post looper left 'ball'
";

// The end comes while they play.
const PLAY: Scene = Scene {
    text: GAME,
    at: At::Open,
    refused: &[],
    acts: &[
        Act::Launch(b"/boot/Game"),
        Act::Often(1, &[0], b"'ball'"),
        Act::Ask(1, b"'look'"),
        Act::Often(1, &[0], b"'ball'"),
        Act::Ask(1, b"'look'"),
        Act::Often(1, &[0], b"'ball'"),
        Act::Ask(1, b"'look'"),
    ],
    tells: &[
        Tell::Account(0),
        Tell::Account(1),
        Tell::Book,
        Tell::Closing(1, 0, 2),
    ],
};

const ENDED: &str = "launch: started 1
ask: 'MNOT'
ask: 'MNOT'
ask: 'MNOT'
 looper 0 accounts for all
 looper 1 accounts for all
in the book slot 0: opened by 0 filled 'MNOT' by 10001 taken by 0
in the book slot 1: opened by 0 filled 'MNOT' by 10001 taken by 0
in the book slot 2: opened by 0 filled 'MNOT' by 10001 taken by 0
 team 1 was closed in order
";

#[test]
fn a_game_has_an_end(rt: HostRuntime) -> Result<(), Fail> {
    let alloc = rt.alloc();
    same(
        &rt,
        "two loopers play until main ends the run",
        &told_of(&rt, alloc, &PLAY)?,
        ENDED,
    );
    Ok(())
}
