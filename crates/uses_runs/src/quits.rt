//! Loopers end: asked to, by a reaction while messages are pending, or since their port is shut by others.

use crate::compare::same;
use crate::scene::{Act, At, Scene, Tell};
use crate::stage::told_of;
use std::test::Fail;

// ---- asked to
const ASKED: &[u8] = b"app /boot/Quit application/x-quit single
looper stays
hook quit refuse
looper goes
";

const ASKS_BOTH: Scene = Scene {
    text: ASKED,
    at: At::Open,
    refused: &[],
    acts: &[
        Act::Launch(b"/boot/Quit"),
        Act::Ask(0, b"'_QRQ'"),
        Act::Ask(0, b"'last'"),
        Act::Ask(1, b"'_QRQ'"),
        Act::Ask(1, b"'last'"),
    ],
    tells: &[
        Tell::Port(0, &[0, 10_000]),
        Tell::Desk(0),
        Tell::Port(1, &[0, 10_000, 10_001]),
        Tell::Desk(1),
        Tell::Book,
        Tell::Roster(&[0, 10_000, 10_001]),
    ],
};

const ONE_QUITS: &str = "launch: started 1
ask: 'RPLY' result=BOOL:false error=LONG:0
ask: 'MNOT'
ask: 'RPLY' result=BOOL:true error=LONG:0
ask: B_BAD_PORT_ID
at the port by 0: made 100 of 8192 written 0 '_RTR' to p team 0 written 1 '_QRQ' to p team 0 slot 0 written 2 'last' to p team 0 slot 1 shut
at the port by 10000: took 1 took 1 took 1 rest 0
at the desk by 10000: message 0 to 0
at the desk by 10000: message 1 to 0
at the desk by 10000: message 2 not understood
at the port by 0: made 100 of 8192 written 0 '_QRQ' to p team 0 slot 2 refused
at the port by 10000:
at the port by 10001: took 1 shut rest 0
at the desk by 10001: message 0 to 0 quits
in the book slot 0: opened by 0 filled 'RPLY' result=BOOL:false error=LONG:0 by 10000 taken by 0
in the book slot 1: opened by 0 filled 'MNOT' by 10000 taken by 0
in the book slot 2: opened by 0 filled 'RPLY' result=BOOL:true error=LONG:0 by 10001 taken by 0
in the book slot 3: opened by 0 cancelled by 0
at the roster by 0: launched 1 first 0 gone 1
at the roster by 10000:
at the roster by 10001:
";

#[test]
fn a_looper_may_refuse_to_quit(rt: HostRuntime) -> Result<(), Fail> {
    let alloc = rt.alloc();
    same(
        &rt,
        "one refuses, another one quits",
        &told_of(&rt, alloc, &ASKS_BOTH)?,
        ONE_QUITS,
    );
    Ok(())
}

// ---- an own looper takes its team along
const TEAM: &[u8] = b"app /boot/Team application/x-team single
looper own
looper second
on 'stop'
quit
looper third
";

const QUITS_THE_TEAM: Scene = Scene {
    text: TEAM,
    at: At::Open,
    refused: &[],
    acts: &[
        Act::Launch(b"/boot/Team"),
        Act::Ask(0, b"'_QRQ'"),
        Act::Post(1, b"'late'"),
        Act::Ask(2, b"'late'"),
    ],
    tells: &[
        Tell::Port(0, &[0, 10_000]),
        Tell::Port(1, &[0, 10_000, 10_001]),
        Tell::Port(2, &[0, 10_000, 10_002]),
        Tell::Desk(0),
        Tell::Desk(1),
        Tell::Desk(2),
        Tell::Book,
        Tell::Roster(&[0, 10_000, 10_001, 10_002]),
        Tell::Closing(1, 0, 3),
    ],
};

const TEAM_GOES: &str = "launch: started 1
ask: 'RPLY' result=BOOL:true error=LONG:0
post: B_BAD_PORT_ID
ask: B_BAD_PORT_ID
at the port by 0: made 100 of 8192 written 0 '_RTR' to p team 0 written 1 '_QRQ' to p team 0 slot 0
at the port by 10000: took 1 took 1 shut rest 0
at the port by 0: made 100 of 8192 refused
at the port by 10000: shut
at the port by 10001: rest 0
at the port by 0: made 100 of 8192 refused
at the port by 10000: shut
at the port by 10002: rest 0
at the desk by 10000: message 0 to 0
at the desk by 10000: message 1 to 0 quits
in the book slot 0: opened by 0 filled 'RPLY' result=BOOL:true error=LONG:0 by 10000 taken by 0
in the book slot 1: opened by 0 cancelled by 0
at the roster by 0: launched 1 first 0
at the roster by 10000: gone 1
at the roster by 10001:
at the roster by 10002:
 team 1 was closed in order
";

#[test]
fn an_own_looper_closes_its_team(rt: HostRuntime) -> Result<(), Fail> {
    let alloc = rt.alloc();
    same(
        &rt,
        "its team is gone, and the ports are shut in order",
        &told_of(&rt, alloc, &QUITS_THE_TEAM)?,
        TEAM_GOES,
    );
    Ok(())
}

// The second looper is held with one message in hand and two pending, while the first one quits.
const QUITS_ABOVE_PENDING: Scene = Scene {
    text: TEAM,
    at: At::Held(1),
    refused: &[],
    acts: &[
        Act::Launch(b"/boot/Team"),
        Act::Post(1, b"'one1'"),
        Act::Await,
        Act::Post(1, b"'two2'"),
        Act::Post(1, b"'last'"),
        Act::Ask(0, b"'_QRQ'"),
        Act::LetGo,
    ],
    tells: &[
        Tell::Port(1, &[0, 10_000, 10_001]),
        Tell::Desk(1),
        Tell::Account(1),
        Tell::Book,
        Tell::Roster(&[0, 10_000, 10_001]),
        Tell::Closing(1, 0, 3),
    ],
};

// What it has in hand is dispatched all the same.
const TOLD_BY_ITS_PORT: &str = "launch: started 1
post: written 0
post: written 1
post: written 2
ask: 'RPLY' result=BOOL:true error=LONG:0
at the port by 0: made 100 of 8192 written 0 'one1' to p team 0 written 1 'two2' to p team 0 written 2 'last' to p team 0
at the port by 10000: shut
at the port by 10001: took 1 rest 2
at the desk by 10001: message 0 not understood
 looper 1 accounts for all
in the book slot 0: opened by 0 filled 'RPLY' result=BOOL:true error=LONG:0 by 10000 taken by 0
at the roster by 0: launched 1 first 0
at the roster by 10000: gone 1
at the roster by 10001:
 team 1 was closed in order
";

// The same, where what it has in hand tells it to quit: its port is shut already.
const QUITS_ABOVE_QUITTING: Scene = Scene {
    text: TEAM,
    at: At::Held(1),
    refused: &[],
    acts: &[
        Act::Launch(b"/boot/Team"),
        Act::Post(1, b"'stop'"),
        Act::Await,
        Act::Post(1, b"'two2'"),
        Act::Post(1, b"'last'"),
        Act::Ask(0, b"'_QRQ'"),
        Act::LetGo,
    ],
    tells: &[
        Tell::Port(1, &[0, 10_000, 10_001]),
        Tell::Desk(1),
        Tell::Account(1),
        Tell::Book,
        Tell::Roster(&[0, 10_000, 10_001]),
        Tell::Closing(1, 0, 3),
    ],
};

const QUITS_BEHIND: &str = "launch: started 1
post: written 0
post: written 1
post: written 2
ask: 'RPLY' result=BOOL:true error=LONG:0
at the port by 0: made 100 of 8192 written 0 'stop' to p team 0 written 1 'two2' to p team 0 written 2 'last' to p team 0
at the port by 10000: shut
at the port by 10001: took 1 rest 2
at the desk by 10001: message 0 to 0 B_OK quits
 looper 1 accounts for all
in the book slot 0: opened by 0 filled 'RPLY' result=BOOL:true error=LONG:0 by 10000 taken by 0
at the roster by 0: launched 1 first 0
at the roster by 10000: gone 1
at the roster by 10001:
 team 1 was closed in order
";

#[test]
fn a_looper_is_told_by_its_port(rt: HostRuntime) -> Result<(), Fail> {
    let alloc = rt.alloc();
    same(
        &rt,
        "another looper shuts its port",
        &told_of(&rt, alloc, &QUITS_ABOVE_PENDING)?,
        TOLD_BY_ITS_PORT,
    );
    same(
        &rt,
        "it quits behind that",
        &told_of(&rt, alloc, &QUITS_ABOVE_QUITTING)?,
        QUITS_BEHIND,
    );
    Ok(())
}

// ---- behind posts of its own
const LEAVER: &[u8] = b"app /boot/Leaver application/x-leaver single
looper leaver
on 'fini'
post self 'aaaa'
post self 'bbbb'
quit
";

// It has not taken its own two posts when it quits.
const QUITS_BEHIND_ITS_POSTS: Scene = Scene {
    text: LEAVER,
    at: At::Open,
    refused: &[],
    acts: &[
        Act::Launch(b"/boot/Leaver"),
        Act::Ask(0, b"'fini'"),
        Act::Ask(0, b"'late'"),
    ],
    tells: &[
        Tell::Port(0, &[0, 10_000]),
        Tell::Desk(0),
        Tell::Account(0),
        Tell::Book,
        Tell::Closing(1, 0, 1),
    ],
};

const LEAVES_ITS_POSTS: &str = "launch: started 1
ask: 'NONE'
ask: B_BAD_PORT_ID
at the port by 0: made 100 of 8192 written 0 '_RTR' to p team 0 written 1 'fini' to p team 0 slot 0 refused
at the port by 10000: took 1 took 1 written 2 'aaaa' to p team 1 written 3 'bbbb' to p team 1 shut rest 2
at the desk by 10000: message 0 to 0
at the desk by 10000: message 1 to 0 B_OK B_OK B_OK quits
 looper 0 accounts for all
in the book slot 0: opened by 0 filled 'NONE' by 10000 taken by 0
in the book slot 1: opened by 0 cancelled by 0
 team 1 was closed in order
";

#[test]
fn a_looper_leaves_its_own_posts(rt: HostRuntime) -> Result<(), Fail> {
    let alloc = rt.alloc();
    same(
        &rt,
        "it quits with two messages pending",
        &told_of(&rt, alloc, &QUITS_BEHIND_ITS_POSTS)?,
        LEAVES_ITS_POSTS,
    );
    Ok(())
}

// ---- by a reaction
const REACTS: &[u8] = b"app /boot/React application/x-react single
looper asker
on 'send'
ask looper goes 'size'
looper other
on 'send'
ask looper goes 'size'
looper goes capacity 1000
on 'stop'
quit
reply 'done'
";

// The third looper is held with what tells it to quit, while messages are pending; two of them are asks. The others
// have their replies when they answer main.
const QUITS_WITH_PENDING: Scene = Scene {
    text: REACTS,
    at: At::Held(2),
    refused: &[],
    acts: &[
        Act::Launch(b"/boot/React"),
        Act::Post(2, b"'stop'"),
        Act::Await,
        Act::Post(0, b"'send'"),
        Act::Post(1, b"'send'"),
        Act::Notes(2, 3),
        Act::LetGo,
        Act::Ask(0, b"'last'"),
        Act::Ask(1, b"'last'"),
    ],
    tells: &[
        Tell::Desk(0),
        Tell::Desk(1),
        Tell::Desk(2),
        Tell::Account(2),
        Tell::Left(2),
        Tell::SlotsOf(0),
        Tell::SlotsOf(10_000),
        Tell::SlotsOf(10_001),
        Tell::SlotsOf(10_002),
        Tell::Roster(&[0, 10_000, 10_001, 10_002]),
    ],
};

// How many notes there are is open. They are left, and with them the two asks, each of which gets no reply.
const LEAVES_PENDING: &str = "launch: started 1
post: written 0
post: written 1
post: written 0
ask: 'MNOT'
ask: 'MNOT'
at the desk by 10000: message 0 to 0
at the desk by 10000: message 1 to 0 reply
at the desk by 10000: message 2 not understood
at the desk by 10001: message 0 to 0 reply
at the desk by 10001: message 1 not understood
at the desk by 10002: message 0 to 0 B_OK B_OK quits
 looper 2 accounts for all
 left beside those 2
in the book a slot: opened by 0 filled 'MNOT' by 10000 taken by 0
in the book a slot: opened by 0 filled 'MNOT' by 10001 taken by 0
in the book a slot: opened by 10000 filled 'NONE' by 10002 taken by 10000
in the book a slot: opened by 10001 filled 'NONE' by 10002 taken by 10001
at the roster by 0: launched 1 first 0 gone 1
at the roster by 10000:
at the roster by 10001: door 2
at the roster by 10002:
";

#[test]
fn who_waits_for_a_looper_that_quits_is_answered(rt: HostRuntime) -> Result<(), Fail> {
    let alloc = rt.alloc();
    same(
        &rt,
        "what is pending is left",
        &told_of(&rt, alloc, &QUITS_WITH_PENDING)?,
        LEAVES_PENDING,
    );
    Ok(())
}
