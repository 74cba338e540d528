//! Where the first target and the specifiers lead.
use super::fixture::{
    A_AND_B, ARGV, AT_A, AT_B, AT_LOOPER, B_REACTS, BUILT_IN, BUILT_IN_A, BUILT_IN_B, COUNT,
    COUNTING, Change, DROPPED, FORWARD, GET, LOST, PING, PREFERRED, QUIT, READY, Row, SET, SUITES,
    Scene, TO_A, TO_B, TO_LOOPER,
};
use ak_message::Target;

const ROUTES: &[Row] = &[
    (false, PREFERRED, GET, b"T.Hb", AT_B, 1, GET),
    (false, PREFERRED, GET, b"T.H3", LOST, 0, GET),
    (false, PREFERRED, GET, b"T.H1", AT_A, 1, GET),
    (false, PREFERRED, GET, b"T.H0", LOST, 1, GET),
    (false, PREFERRED, GET, b"T.Ha", LOST, 0, GET),
    (false, PREFERRED, GET, b"T.Hd", LOST, 1, GET),
    (false, PREFERRED, GET, b"T.He", LOST, 0, GET),
    (false, PREFERRED, GET, b"T.Hw", LOST, 0, GET),
    (false, PREFERRED, GET, b"C.", AT_LOOPER, 0, GET),
    (false, PREFERRED, GET, b"N.", LOST, 0, GET),
    (false, PREFERRED, GET, b"C.C.", AT_LOOPER, 0, GET),
    (false, PREFERRED, COUNT, b"H.", BUILT_IN, 0, COUNT),
    (false, PREFERRED, COUNT, b"C.H.", LOST, 0, COUNT),
    (false, PREFERRED, COUNT, b"L.", LOST, 0, COUNT),
    (true, PREFERRED, COUNT, b"L.", BUILT_IN, 0, COUNT),
    (true, PREFERRED, GET, b"N.L1", FORWARD, 1, GET),
    (false, PREFERRED, GET, b"N.L1", LOST, 0, GET),
    (true, PREFERRED, GET, b"C.L0", AT_LOOPER, 1, GET),
    (true, PREFERRED, GET, b"N.Lw", FORWARD, 1, GET),
    (true, PREFERRED, GET, b"N.Lx", LOST, 0, GET),
    (true, PREFERRED, GET, b"N.L2", LOST, 0, GET),
    (true, PREFERRED, GET, b"N.Lb", LOST, 0, GET),
    (false, PREFERRED, GET, b"N.Lw", LOST, 0, GET),
    (false, PREFERRED, GET, b"N.Lb", LOST, 0, GET),
    (false, PREFERRED, GET, b"C.L0", LOST, 0, GET),
    (true, PREFERRED, GET, b"T.H1", AT_A, 1, GET),
    (true, PREFERRED, GET, b"T.Hb", AT_B, 1, GET),
    (true, PREFERRED, GET, b"T.Ha", LOST, 0, GET),
    (true, PREFERRED, GET, b"T.HA", LOST, 0, GET),
    (false, PREFERRED, GET, b"T.HA", LOST, 0, GET),
    (false, PREFERRED, GET, b"S.", BUILT_IN, 0, GET),
    (false, TO_B, GET, b"S.", BUILT_IN_B, 0, GET),
    (false, TO_A, GET, b"T.", AT_A, 0, GET),
    (false, TO_A, GET, b"C.", LOST, 0, GET),
    (false, Target::Token(9), GET, b"C.", DROPPED, 0, GET),
    (false, PREFERRED, PING, b"", LOST, 0, PING),
    (false, TO_B, PING, b"", B_REACTS, 0, PING),
    (false, TO_A, QUIT, b"", BUILT_IN, 0, QUIT),
    (false, TO_A, SUITES, b"", BUILT_IN_A, 0, SUITES),
    (true, PREFERRED, ARGV, b"", BUILT_IN, 0, ARGV),
    (false, PREFERRED, READY, b"", LOST, 0, READY),
    (true, PREFERRED, READY, b"", BUILT_IN, 0, READY),
];

// A badly formed specifier that is not current, and messages without specifiers, or with well formed ones alone, to the
// looper itself.
const BAD_ONCE_CURRENT: &[Row] = &[
    (false, PREFERRED, GET, b"!1H1", AT_A, 1, GET),
    (false, PREFERRED, GET, b"!2H1", LOST, 1, GET),
    (false, PREFERRED, GET, b"!9H1", LOST, 1, GET),
    (false, PREFERRED, GET, b"!2C.", AT_LOOPER, 0, GET),
    (false, PREFERRED, SET, b"!9C.", AT_LOOPER, 0, SET),
    (false, TO_LOOPER, QUIT, b"", BUILT_IN, 0, QUIT),
    (false, TO_LOOPER, GET, b"C.", AT_LOOPER, 0, GET),
    (false, TO_LOOPER, GET, b"S.", BUILT_IN, 0, GET),
];

// By index without one, by name without one, and of no form.
const BAD_TO_PREFERRED: &[Row] = &[
    (true, PREFERRED, GET, b"!2", LOST, 0, GET),
    (true, PREFERRED, QUIT, b"!2", LOST, 0, QUIT),
    (true, PREFERRED, PING, b"!2", LOST, 0, PING),
    (true, PREFERRED, GET, b"!6", LOST, 0, GET),
    (true, PREFERRED, QUIT, b"!6", LOST, 0, QUIT),
    (true, PREFERRED, PING, b"!6", LOST, 0, PING),
    (true, PREFERRED, GET, b"!9", LOST, 0, GET),
    (true, PREFERRED, QUIT, b"!9", LOST, 0, QUIT),
    (true, PREFERRED, PING, b"!9", LOST, 0, PING),
];

const BAD_TO_TOKENS: &[Row] = &[
    (true, TO_LOOPER, GET, b"!2", LOST, 0, GET),
    (true, TO_LOOPER, QUIT, b"!2", LOST, 0, QUIT),
    (true, TO_LOOPER, PING, b"!2", LOST, 0, PING),
    (true, TO_LOOPER, GET, b"!6", LOST, 0, GET),
    (true, TO_LOOPER, QUIT, b"!6", LOST, 0, QUIT),
    (true, TO_LOOPER, PING, b"!6", LOST, 0, PING),
    (true, TO_LOOPER, GET, b"!9", LOST, 0, GET),
    (true, TO_LOOPER, QUIT, b"!9", LOST, 0, QUIT),
    (true, TO_LOOPER, PING, b"!9", LOST, 0, PING),
    (true, TO_B, GET, b"!2", LOST, 0, GET),
    (true, TO_B, QUIT, b"!2", LOST, 0, QUIT),
    (true, TO_B, PING, b"!2", LOST, 0, PING),
    (true, TO_B, GET, b"!6", LOST, 0, GET),
    (true, TO_B, QUIT, b"!6", LOST, 0, QUIT),
    (true, TO_B, PING, b"!6", LOST, 0, PING),
    (true, TO_B, GET, b"!9", LOST, 0, GET),
    (true, TO_B, QUIT, b"!9", LOST, 0, QUIT),
    (true, TO_B, PING, b"!9", LOST, 0, PING),
];

// Without a match the looper is asked, which leads on to another handler, and to the same one.
const WITH_A_PREFERRED: &[Row] = &[
    (false, PREFERRED, GET, b"T.", AT_A, 0, GET),
    (false, PREFERRED, GET, b"C.", AT_LOOPER, 0, GET),
    (false, PREFERRED, QUIT, b"", BUILT_IN, 0, QUIT),
    (false, PREFERRED, GET, b"T.H2", AT_B, 1, GET),
    (false, PREFERRED, GET, b"T.H1", AT_A, 1, GET),
    (false, PREFERRED, GET, b"C.H1", LOST, 1, GET),
];

// The chain of `a` ends with it.
const WITHOUT_A_NEXT_ONE: &[Row] = &[(false, TO_A, QUIT, b"", LOST, 0, QUIT)];

// The token of `a` leads nowhere.
const ONCE_REMOVED: &[Row] = &[(false, TO_A, GET, b"T.", DROPPED, 0, GET)];

const BEFORE_B: &[Row] = &[
    (false, TO_A, PING, b"", B_REACTS, 0, PING),
    (false, TO_A, QUIT, b"", LOST, 0, QUIT),
];

const WITHOUT_B: &[Row] = &[
    (false, TO_A, PING, b"", LOST, 0, PING),
    (false, TO_A, QUIT, b"", BUILT_IN, 0, QUIT),
];

const PREFER_A: &[Change] = &[Change::Prefer(1)];

const PREFER_A_ALONE: &[Change] = &[Change::Prefer(1), Change::Next(1, None)];

const PREFER_A_AND_REMOVE_IT: &[Change] = &[
    Change::Prefer(1),
    Change::Next(1, None),
    Change::Remove(1),
];

// `b`, which has no next one, is next to `a`.
const B_NEXT_TO_A: &[Change] = &[Change::Next(2, None), Change::Next(1, Some(2))];

const B_NEXT_TO_A_REMOVED: &[Change] = &[
    Change::Next(2, None),
    Change::Next(1, Some(2)),
    Change::Remove(2),
];

/// Scenes of `demo`. Specifiers that are badly formed go to the preferred handler, which is the looper or `a`, and to tokens;
/// or they count once they are current.
pub static SCENES: [Scene; 10] = [
    Scene {
        label: "messages are routed",
        own: COUNTING,
        beside: A_AND_B,
        changes: &[],
        common: &[],
        rows: ROUTES,
    },
    Scene {
        label: "bad specifiers, to the preferred handler",
        own: COUNTING,
        beside: A_AND_B,
        changes: &[],
        common: &[],
        rows: BAD_TO_PREFERRED,
    },
    Scene {
        label: "bad specifiers, to tokens",
        own: COUNTING,
        beside: A_AND_B,
        changes: &[],
        common: &[],
        rows: BAD_TO_TOKENS,
    },
    Scene {
        label: "bad specifiers, once they are current",
        own: COUNTING,
        beside: A_AND_B,
        changes: &[],
        common: &[],
        rows: BAD_ONCE_CURRENT,
    },
    Scene {
        label: "the preferred handler is asked first",
        own: COUNTING,
        beside: A_AND_B,
        changes: PREFER_A,
        common: &[],
        rows: WITH_A_PREFERRED,
    },
    Scene {
        label: "bad specifiers, to another preferred handler",
        own: COUNTING,
        beside: A_AND_B,
        changes: PREFER_A,
        common: &[],
        rows: BAD_TO_PREFERRED,
    },
    Scene {
        label: "a preferred one without a next one",
        own: COUNTING,
        beside: A_AND_B,
        changes: PREFER_A_ALONE,
        common: &[],
        rows: WITHOUT_A_NEXT_ONE,
    },
    Scene {
        label: "a preferred one, once it is removed",
        own: COUNTING,
        beside: A_AND_B,
        changes: PREFER_A_AND_REMOVE_IT,
        common: &[],
        rows: ONCE_REMOVED,
    },
    Scene {
        label: "the last one is next",
        own: COUNTING,
        beside: A_AND_B,
        changes: B_NEXT_TO_A,
        common: &[],
        rows: BEFORE_B,
    },
    Scene {
        label: "the looper is next to one whose next is removed",
        own: COUNTING,
        beside: A_AND_B,
        changes: B_NEXT_TO_A_REMOVED,
        common: &[],
        rows: WITHOUT_B,
    },
];
