//! A looper waits for room at a port that is shut then.

use crate::compare::same;
use crate::scene::{Act, At, Scene, Tell};
use crate::stage::told_of;
use std::test::Fail;

const ROOM_FOR_ONE: &[u8] = b"app /boot/Room application/x-room single
looper first
on 'send'
ask looper second 'size'
looper second capacity 1
on 'stop'
quit
";

// Counts the handlers of the application's second looper.
const COUNT_THERE: &[u8] =
    b"'PCNT' specifiers=MSGG:{0x00000001 property=\"Handler\"},MSGG:{0x00000002 property=\"Looper\" index=1}";

// The second looper is held with what tells it to quit, and its port is full. So what the first one is to write there
// finds no room, or a shut port.
const ASKS_WITHOUT_ROOM: Scene = Scene {
    text: ROOM_FOR_ONE,
    at: At::Held(1),
    refused: &[],
    acts: &[
        Act::Launch(b"/boot/Room"),
        Act::Post(1, b"'stop'"),
        Act::Await,
        Act::Post(1, b"'note'"),
        Act::Post(0, b"'send'"),
        Act::LetGo,
        Act::Ask(0, b"'last'"),
    ],
    tells: &[
        Tell::Desk(0),
        Tell::Port(1, &[0, 10_000, 10_001]),
        Tell::Desk(1),
        Tell::Account(1),
        Tell::SlotsOf(10_000),
    ],
};

const NOT_ASKED: &str = "launch: started 1
post: written 0
post: written 1
post: written 1
ask: 'MNOT'
at the desk by 10000: message 0 to 0
at the desk by 10000: message 1 to 0 B_BAD_PORT_ID
at the desk by 10000: message 2 not understood
at the port by 0: made 1 of 8192 written 0 'stop' to p team 0 written 1 'note' to p team 0
at the port by 10000: refused
at the port by 10001: took 1 shut rest 1
at the desk by 10001: message 0 to 0 B_OK quits
 looper 1 accounts for all
in the book a slot: opened by 10000 cancelled by 10000
";

const LEADS_WITHOUT_ROOM: Scene = Scene {
    text: ROOM_FOR_ONE,
    at: At::Held(1),
    refused: &[],
    acts: &[
        Act::Launch(b"/boot/Room"),
        Act::Post(1, b"'stop'"),
        Act::Await,
        Act::Post(1, b"'note'"),
        Act::Post(0, COUNT_THERE),
        Act::LetGo,
        Act::Ask(0, b"'last'"),
    ],
    tells: &[
        Tell::Desk(0),
        Tell::Port(1, &[0, 10_000, 10_001]),
        Tell::Desk(1),
        Tell::Account(1),
        Tell::SlotsOf(10_000),
    ],
};

const NOT_SENT_ON: &str = "launch: started 1
post: written 0
post: written 1
post: written 1
ask: 'MNOT'
at the desk by 10000: message 0 to 0
at the desk by 10000: message 1 forwarded 1 B_BAD_PORT_ID
at the desk by 10000: message 2 not understood
at the port by 0: made 1 of 8192 written 0 'stop' to p team 0 written 1 'note' to p team 0
at the port by 10000: refused
at the port by 10001: took 1 shut rest 1
at the desk by 10001: message 0 to 0 B_OK quits
 looper 1 accounts for all
";

#[test]
fn who_waits_for_room_is_told_of_the_end(rt: HostRuntime) -> Result<(), Fail> {
    let alloc = rt.alloc();
    same(
        &rt,
        "an ask is not written",
        &told_of(&rt, alloc, &ASKS_WITHOUT_ROOM)?,
        NOT_ASKED,
    );
    same(
        &rt,
        "a message is not sent on",
        &told_of(&rt, alloc, &LEADS_WITHOUT_ROOM)?,
        NOT_SENT_ON,
    );
    Ok(())
}
