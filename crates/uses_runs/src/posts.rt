//! Messages are posted: to another looper, to itself, and back to who posted.

use crate::compare::same;
use crate::scene::{Act, At, Scene, Tell};
use crate::stage::{GET_TOTAL, told_of};
use ak_message::Target;
use std::test::Fail;

// ---- to another one, and to itself
const POSTS: &[u8] = b"app /boot/Post application/x-post single
looper first capacity 2
on 'send'
post looper second 'note' n=7
on 'fill'
post self 'self'
post self 'self'
post self 'self'
reply 'full'
looper second
property Total LONG
element 0
on 'note'
set Total $n
";

// What was posted to itself is dispatched before the last ask.
const POSTS_TO_BOTH: Scene = Scene {
    text: POSTS,
    at: At::Open,
    refused: &[],
    acts: &[
        Act::Launch(b"/boot/Post"),
        Act::Ask(0, b"'send'"),
        Act::Ask(1, GET_TOTAL),
        Act::Ask(0, b"'fill'"),
        Act::Ask(0, b"'last'"),
    ],
    tells: &[
        Tell::Port(0, &[0, 10_000]),
        Tell::Desk(0),
        Tell::Port(1, &[0, 10_000, 10_001]),
        Tell::Desk(1),
        Tell::Book,
    ],
};

const POSTED: &str = "launch: started 1
ask: 'NONE'
ask: 'RPLY' result=LONG:7 error=LONG:0
ask: 'full'
ask: 'MNOT'
at the port by 0: made 2 of 8192 written 0 '_RTR' to p team 0 written 1 'send' to p team 0 slot 0 written 2 'fill' to p team 0 slot 2 written 5 'last' to p team 0 slot 3 shut
at the port by 10000: took 1 took 1 took 1 written 3 'self' to p team 1 written 4 'self' to p team 1 full took 1 took 1 took 1 rest 0
at the desk by 10000: message 0 to 0
at the desk by 10000: message 1 to 0 B_OK
at the desk by 10000: message 2 to 0 B_OK B_OK B_WOULD_BLOCK B_OK
at the desk by 10000: message 3 not understood
at the desk by 10000: message 4 not understood
at the desk by 10000: message 5 not understood
at the port by 0: made 100 of 8192 written 1 'PGET' specifiers=MSGG: to p team 0 slot 1 shut
at the port by 10000: written 0 'note' n=LONG:7 to p team 1
at the port by 10001: took 1 took 1 rest 0
at the desk by 10001: message 0 to 0 B_OK
at the desk by 10001: message 1 to 0
in the book slot 0: opened by 0 filled 'NONE' by 10000 taken by 0
in the book slot 1: opened by 0 filled 'RPLY' result=LONG:7 error=LONG:0 by 10001 taken by 0
in the book slot 2: opened by 0 filled 'full' by 10000 taken by 0
in the book slot 3: opened by 0 filled 'MNOT' by 10000 taken by 0
";

#[test]
fn a_post_waits_for_no_room(rt: HostRuntime) -> Result<(), Fail> {
    let alloc = rt.alloc();
    same(
        &rt,
        "a looper posts to another one and to itself",
        &told_of(&rt, alloc, &POSTS_TO_BOTH)?,
        POSTED,
    );
    Ok(())
}

// ---- back
const BACK: &[u8] = b"app /boot/Back application/x-back single
looper asker
handler listener
property Total LONG
element 0
on 'send'
post looper teller 'hush' back
post looper teller 'tell' back
on 'told'
set Total $n
looper teller
on 'hush'
reply 'NONE'
on 'tell'
reply 'told' n=7
";

// The teller has settled both of its messages when it answers the second ask. The reply to the first one is none.
const POSTS_WITH_BACK: Scene = Scene {
    text: BACK,
    at: At::Open,
    refused: &[],
    acts: &[
        Act::Launch(b"/boot/Back"),
        Act::AskOf(0, Target::Token(1), b"'send'"),
        Act::Ask(1, b"'last'"),
        Act::AskOf(0, Target::Token(1), GET_TOTAL),
    ],
    tells: &[
        Tell::Port(0, &[0, 10_000, 10_001]),
        Tell::Desk(0),
        Tell::Port(1, &[0, 10_000, 10_001]),
        Tell::Desk(1),
        Tell::Book,
        Tell::Roster(&[10_000, 10_001]),
    ],
};

const CAME_BACK: &str = "launch: started 1
ask: 'NONE'
ask: 'MNOT'
ask: 'RPLY' result=LONG:7 error=LONG:0
at the port by 0: made 100 of 8192 written 0 '_RTR' to p team 0 written 1 'send' to 1 team 0 slot 0 written 3 'PGET' specifiers=MSGG: to 1 team 0 slot 2 shut
at the port by 10000: took 1 took 1 took 1 took 1 rest 0
at the port by 10001: written 2 'told' n=LONG:7 to 1 team 1
at the desk by 10000: message 0 to 0
at the desk by 10000: message 1 to 1 B_OK B_OK
at the desk by 10000: message 2 to 1 B_OK
at the desk by 10000: message 3 to 1
at the port by 0: made 100 of 8192 written 2 'last' to p team 0 slot 1 shut
at the port by 10000: written 0 'hush' to p team 1 back 0.1 written 1 'tell' to p team 1 back 0.1
at the port by 10001: took 1 took 1 took 1 rest 0
at the desk by 10001: message 0 to 0 B_OK
at the desk by 10001: message 1 to 0 B_OK
at the desk by 10001: message 2 not understood
in the book slot 0: opened by 0 filled 'NONE' by 10000 taken by 0
in the book slot 1: opened by 0 filled 'MNOT' by 10001 taken by 0
in the book slot 2: opened by 0 filled 'RPLY' result=LONG:7 error=LONG:0 by 10000 taken by 0
at the roster by 10000:
at the roster by 10001: door 0
";

#[test]
fn a_reply_is_posted_back(rt: HostRuntime) -> Result<(), Fail> {
    let alloc = rt.alloc();
    same(
        &rt,
        "a handler gets the one reply to its two posts that is not none",
        &told_of(&rt, alloc, &POSTS_WITH_BACK)?,
        CAME_BACK,
    );
    Ok(())
}

// ---- to a handler that is gone
const ONE: &[u8] = b"app /boot/One application/x-one single
looper one
property Total LONG
element 3
";

// What main posts behind its edits finds no handler. The first ask is answered before them.
const POSTS_TO_NOBODY: Scene = Scene {
    text: ONE,
    at: At::Open,
    refused: &[],
    acts: &[
        Act::Launch(b"/boot/One"),
        Act::Ask(0, GET_TOTAL),
        Act::Add(0, b"more"),
        Act::Remove(0, 1),
        Act::PostTo(0, Target::Token(1), b"'ping'"),
        Act::Ask(0, GET_TOTAL),
    ],
    tells: &[Tell::Port(0, &[0, 10_000]), Tell::Desk(0), Tell::Book],
};

const DROPPED: &str = "launch: started 1
ask: 'RPLY' result=LONG:3 error=LONG:0
post: written 2
ask: 'RPLY' result=LONG:3 error=LONG:0
at the port by 0: made 100 of 8192 written 0 '_RTR' to p team 0 written 1 'PGET' specifiers=MSGG: to p team 0 slot 0 written 2 'ping' to 1 team 0 written 3 'PGET' specifiers=MSGG: to p team 0 slot 1 shut
at the port by 10000: took 1 took 1 took 1 took 1 rest 0
at the desk by 10000: message 0 to 0
at the desk by 10000: message 1 to 0
at the desk by 0: add token 1
at the desk by 0: remove 1 done
at the desk by 10000: message 2 dropped
at the desk by 10000: message 3 to 0
in the book slot 0: opened by 0 filled 'RPLY' result=LONG:3 error=LONG:0 by 10000 taken by 0
in the book slot 1: opened by 0 filled 'RPLY' result=LONG:3 error=LONG:0 by 10000 taken by 0
";

#[test]
fn a_post_to_a_handler_that_is_gone_is_dropped(rt: HostRuntime) -> Result<(), Fail> {
    let alloc = rt.alloc();
    same(
        &rt,
        "a handler is added, removed and posted to",
        &told_of(&rt, alloc, &POSTS_TO_NOBODY)?,
        DROPPED,
    );
    Ok(())
}
