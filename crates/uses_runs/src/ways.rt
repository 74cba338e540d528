//! The ways that a message may go at a looper, one after the other.

use crate::compare::same;
use crate::scene::{Act, At, Scene, Tell};
use crate::stage::{GET_COUNT, told_of};
use ak_message::Target;
use std::test::Fail;

const WAYS: &[u8] = b"app /boot/Ways application/x-ways single
looper ways
common what 'skip' skip
common what 'pass' pass as 'told'
property Count LONG
element 3
on 'told'
reply 'done'
reply 'more'
on 'hush'
add Count 1
on 'lost'
post looper side 'note'
handler second
looper side
";

// The second looper quits first, and so nothing is posted to it. There is no handler 2.
const EACH_WAY: Scene = Scene {
    text: WAYS,
    at: At::Open,
    refused: &[],
    acts: &[
        Act::Launch(b"/boot/Ways"),
        Act::Ask(1, b"'_QRQ'"),
        Act::Ask(0, GET_COUNT),
        Act::Ask(
            0,
            b"'PGET' specifiers=MSGG:{0x00000002 property=\"Count\" index=1}",
        ),
        Act::Ask(
            0,
            b"'PGET' specifiers=MSGG:{0x00000001 property=\"None\"},MSGG:{0x00000001 property=\"Count\"}",
        ),
        Act::Ask(
            0,
            b"'PCNT' specifiers=MSGG:{0x00000001 property=\"Handler\"}",
        ),
        Act::Ask(0, b"'told'"),
        Act::AskOf(0, Target::Token(1), b"'hush'"),
        Act::Ask(0, b"'skip'"),
        Act::AskOf(0, Target::Token(2), b"'told'"),
        Act::Ask(0, b"'what'"),
        Act::Ask(0, b"'pass'"),
        Act::Ask(0, b"'lost'"),
    ],
    tells: &[
        Tell::Port(0, &[0, 10_000]),
        Tell::Desk(0),
        Tell::Port(1, &[0, 10_000, 10_001]),
        Tell::Desk(1),
        Tell::Book,
        Tell::Roster(&[0, 10_000, 10_001]),
    ],
};

// What is asked of the second handler goes to the looper, which is its next one.
const EACH: &str = "launch: started 1
ask: 'RPLY' result=BOOL:true error=LONG:0
ask: 'RPLY' result=LONG:3 error=LONG:0
ask: 'RPLY' error=LONG:-4
ask: 'RPLY' error=LONG:-11
ask: 'RPLY' result=LONG:2 error=LONG:0
ask: 'done'
ask: 'NONE'
ask: 'NONE'
ask: 'NONE'
ask: 'MNOT'
ask: 'done'
ask: 'NONE'
at the port by 0: made 100 of 8192 written 0 '_RTR' to p team 0 written 1 'PGET' specifiers=MSGG: to p team 0 slot 1 written 2 'PGET' specifiers=MSGG: to p team 0 slot 2 written 3 'PGET' specifiers=MSGG:,MSGG: to p team 0 slot 3 written 4 'PCNT' specifiers=MSGG: to p team 0 slot 4 written 5 'told' to p team 0 slot 5 written 6 'hush' to 1 team 0 slot 6 written 7 'skip' to p team 0 slot 7 written 8 'told' to 2 team 0 slot 8 written 9 'what' to p team 0 slot 9 written 10 'pass' to p team 0 slot 10 written 11 'lost' to p team 0 slot 11 shut
at the port by 10000: took 1 took 1 took 1 took 1 took 1 took 1 took 1 took 1 took 1 took 1 took 1 took 1 rest 0
at the desk by 10000: message 0 to 0
at the desk by 10000: message 1 to 0
at the desk by 10000: message 2 to 0
at the desk by 10000: message 3 to 0
at the desk by 10000: message 4 to 0
at the desk by 10000: message 5 to 0 B_OK B_DUPLICATE_REPLY
at the desk by 10000: message 6 to 0 B_OK
at the desk by 10000: message 7 skipped
at the desk by 10000: message 8 dropped
at the desk by 10000: message 9 not understood
at the desk by 10000: message 10 to 0 B_OK B_DUPLICATE_REPLY
at the desk by 10000: message 11 to 0 B_BAD_PORT_ID
at the port by 0: made 100 of 8192 written 0 '_QRQ' to p team 0 slot 0
at the port by 10000: refused
at the port by 10001: took 1 shut rest 0
at the desk by 10001: message 0 to 0 quits
in the book slot 0: opened by 0 filled 'RPLY' result=BOOL:true error=LONG:0 by 10001 taken by 0
in the book slot 1: opened by 0 filled 'RPLY' result=LONG:3 error=LONG:0 by 10000 taken by 0
in the book slot 2: opened by 0 filled 'RPLY' error=LONG:-4 by 10000 taken by 0
in the book slot 3: opened by 0 filled 'RPLY' error=LONG:-11 by 10000 taken by 0
in the book slot 4: opened by 0 filled 'RPLY' result=LONG:2 error=LONG:0 by 10000 taken by 0
in the book slot 5: opened by 0 filled 'done' by 10000 taken by 0
in the book slot 6: opened by 0 filled 'NONE' by 10000 taken by 0
in the book slot 7: opened by 0 filled 'NONE' by 10000 taken by 0
in the book slot 8: opened by 0 filled 'NONE' by 10000 taken by 0
in the book slot 9: opened by 0 filled 'MNOT' by 10000 taken by 0
in the book slot 10: opened by 0 filled 'done' by 10000 taken by 0
in the book slot 11: opened by 0 filled 'NONE' by 10000 taken by 0
at the roster by 0: launched 1 first 0 gone 1
at the roster by 10000:
at the roster by 10001:
";

#[test]
fn each_way_has_its_reply(rt: HostRuntime) -> Result<(), Fail> {
    let alloc = rt.alloc();
    same(
        &rt,
        "one looper is asked in each way",
        &told_of(&rt, alloc, &EACH_WAY)?,
        EACH,
    );
    Ok(())
}
