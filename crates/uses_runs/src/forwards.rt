//! Messages are sent on to a later looper, which answers them or has ended.

use crate::compare::same;
use crate::scene::{Act, At, Scene, Tell};
use crate::stage::told_of;
use std::test::Fail;

const LEADS: &[u8] = b"app /boot/Lead application/x-lead single
looper first
looper second
property Count LONG
element 5
";

// Asks for the property `Count` of the application's second looper.
const GET_SECOND: &[u8] =
    b"'PGET' specifiers=MSGG:{0x00000001 property=\"Count\"},MSGG:{0x00000002 property=\"Looper\" index=1}";

const ASKS_THE_SECOND: Scene = Scene {
    text: LEADS,
    at: At::Open,
    refused: &[],
    acts: &[Act::Launch(b"/boot/Lead"), Act::Ask(0, GET_SECOND)],
    tells: &[
        Tell::Port(0, &[0, 10_000]),
        Tell::Desk(0),
        Tell::Port(1, &[0, 10_000, 10_001]),
        Tell::Desk(1),
        Tell::Book,
    ],
};

const ANSWERED: &str = "launch: started 1
ask: 'RPLY' result=LONG:5 error=LONG:0
at the port by 0: made 100 of 8192 written 0 '_RTR' to p team 0 written 1 'PGET' specifiers=MSGG:,MSGG: to p team 0 slot 0 shut
at the port by 10000: took 1 took 1 rest 0
at the desk by 10000: message 0 to 0
at the desk by 10000: message 1 forwarded 1 B_OK
at the port by 0: made 100 of 8192 shut
at the port by 10000: written 0 'PGET' specifiers=MSGG:,MSGG: to 0 team 0 popped 1 slot 0
at the port by 10001: took 1 rest 0
at the desk by 10001: message 0 to 0
in the book slot 0: opened by 0 filled 'RPLY' result=LONG:5 error=LONG:0 by 10001 taken by 0
";

#[test]
fn a_message_is_sent_on(rt: HostRuntime) -> Result<(), Fail> {
    let alloc = rt.alloc();
    same(
        &rt,
        "who it was sent on to answers",
        &told_of(&rt, alloc, &ASKS_THE_SECOND)?,
        ANSWERED,
    );
    Ok(())
}

// The second looper quits first.
const ASKS_THE_ENDED: Scene = Scene {
    text: LEADS,
    at: At::Open,
    refused: &[],
    acts: &[
        Act::Launch(b"/boot/Lead"),
        Act::Ask(1, b"'_QRQ'"),
        Act::Ask(0, GET_SECOND),
    ],
    tells: &[
        Tell::Port(0, &[0, 10_000]),
        Tell::Desk(0),
        Tell::Port(1, &[0, 10_000, 10_001]),
        Tell::Desk(1),
        Tell::Book,
        Tell::Roster(&[0, 10_000, 10_001]),
    ],
};

const REFUSED: &str = "launch: started 1
ask: 'RPLY' result=BOOL:true error=LONG:0
ask: 'RPLY' error=LONG:-5
at the port by 0: made 100 of 8192 written 0 '_RTR' to p team 0 written 1 'PGET' specifiers=MSGG:,MSGG: to p team 0 slot 1 shut
at the port by 10000: took 1 took 1 rest 0
at the desk by 10000: message 0 to 0
at the desk by 10000: message 1 forwarded 1 B_BAD_PORT_ID
at the port by 0: made 100 of 8192 written 0 '_QRQ' to p team 0 slot 0
at the port by 10000: refused
at the port by 10001: took 1 shut rest 0
at the desk by 10001: message 0 to 0 quits
in the book slot 0: opened by 0 filled 'RPLY' result=BOOL:true error=LONG:0 by 10001 taken by 0
in the book slot 1: opened by 0 filled 'RPLY' error=LONG:-5 by 10000 taken by 0
at the roster by 0: launched 1 first 0 gone 1
at the roster by 10000:
at the roster by 10001:
";

#[test]
fn a_message_is_not_sent_on_to_a_shut_port(rt: HostRuntime) -> Result<(), Fail> {
    let alloc = rt.alloc();
    same(
        &rt,
        "who leads to it answers",
        &told_of(&rt, alloc, &ASKS_THE_ENDED)?,
        REFUSED,
    );
    Ok(())
}
