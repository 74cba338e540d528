//! Which handler takes a message, and as what.
use super::fixture::{
    A_AND_B, A_REACTS, ARGV, AT_LOOPER, BUILT_IN, Beside, COUNT, COUNTING, Change, DROPPED, GET,
    LOST, Own, PING, PONG, PREFERRED, Property, QUIT, REACTS, REACTS_OTHERWISE, READY, Row, SET,
    SUITES, Scene, TO_A, TO_LOOPER,
};
use ak_base::Code;
use ak_route::{Route, Taker};

// Four rows, of which three have one name, and reactions on `PONG` and on `PING`.
const FOUR_ROWS: &[Property] = &[
    (b"Title", &[], &[2]),
    (b"Title", &[GET], &[1]),
    (b"Title", &[SET], &[1]),
    (b"Count", &[], &[]),
];

// What the looper's property of that row takes, of the rows behind the first.
const SECOND_ROW: Route = Route::Deliver {
    token: 0,
    taker: Taker::Property(1),
};

const THIRD_ROW: Route = Route::Deliver {
    token: 0,
    taker: Taker::Property(2),
};

const FOURTH_ROW: Route = Route::Deliver {
    token: 0,
    taker: Taker::Property(3),
};

const DELETE: Code = Code::DELETE;

const CREATE: Code = Code::CREATE;

const TAKEN: &[Row] = &[
    (false, TO_LOOPER, GET, b"T.", SECOND_ROW, 0, GET),
    (false, TO_LOOPER, SET, b"T.", THIRD_ROW, 0, SET),
    (false, TO_LOOPER, COUNT, b"T.", LOST, 0, COUNT),
    (false, TO_LOOPER, DELETE, b"T.", LOST, 0, DELETE),
    (false, TO_LOOPER, GET, b"T1", AT_LOOPER, 0, GET),
    (false, TO_LOOPER, SET, b"T1", AT_LOOPER, 0, SET),
    (false, TO_LOOPER, DELETE, b"T1", AT_LOOPER, 0, DELETE),
    (false, TO_LOOPER, GET, b"Tb", LOST, 0, GET),
    // While more than one is left, no command is carried out, and so none is looked at.
    (false, TO_LOOPER, DELETE, b"C.T.", SECOND_ROW, 0, DELETE),
    (false, TO_LOOPER, DELETE, b"C.T1", AT_LOOPER, 0, DELETE),
    (false, TO_LOOPER, GET, b"C.Tb", LOST, 0, GET),
    (false, TO_LOOPER, GET, b"C.", FOURTH_ROW, 0, GET),
    (false, TO_LOOPER, DELETE, b"C.", FOURTH_ROW, 0, DELETE),
    (false, TO_LOOPER, CREATE, b"Cb", FOURTH_ROW, 0, CREATE),
    (false, TO_LOOPER, PONG, b"", REACTS, 0, PONG),
    (false, TO_LOOPER, PING, b"", REACTS_OTHERWISE, 0, PING),
    (false, TO_LOOPER, PING, b"C.", REACTS_OTHERWISE, 0, PING),
    (false, TO_LOOPER, PING, b"T.", LOST, 0, PING),
    (false, TO_LOOPER, PING, b"C.T.", REACTS_OTHERWISE, 0, PING),
];

// With any number of specifiers.
const WITH_ANY: &[Row] = &[
    (false, TO_LOOPER, QUIT, b"C.", BUILT_IN, 0, QUIT),
    (false, TO_LOOPER, QUIT, b"C.C.", BUILT_IN, 0, QUIT),
    (true, TO_LOOPER, READY, b"C.", BUILT_IN, 0, READY),
    (false, TO_LOOPER, READY, b"C.", LOST, 0, READY),
    (true, TO_LOOPER, ARGV, b"C.C.", BUILT_IN, 0, ARGV),
    (false, TO_LOOPER, ARGV, b"C.C.", LOST, 0, ARGV),
    (false, TO_LOOPER, SUITES, b"C.", LOST, 0, SUITES),
    (true, TO_LOOPER, SUITES, b"C.C.", LOST, 0, SUITES),
];

// Of a looper with `Count`, with `Suites` and with `Handler`; the last keeps what a looper would lead on.
const WITH_COUNT: &[Row] = &[
    (false, PREFERRED, GET, b"C.", AT_LOOPER, 0, GET),
    (false, PREFERRED, GET, b"S.", REACTS, 0, GET),
    (false, PREFERRED, QUIT, b"", REACTS_OTHERWISE, 0, QUIT),
    (false, PREFERRED, SUITES, b"", BUILT_IN, 0, SUITES),
    (false, PREFERRED, COUNT, b"H.", BUILT_IN, 0, COUNT),
];

const WITH_SUITES: &[Row] = &[(false, PREFERRED, GET, b"S.", AT_LOOPER, 0, GET)];

const WITH_HANDLER: &[Row] = &[
    (false, PREFERRED, COUNT, b"H.", AT_LOOPER, 0, COUNT),
    (false, PREFERRED, GET, b"T.H0", AT_LOOPER, 0, GET),
];

// With that property, and with reactions on `GET` and on `_QRQ`.
const WITH_REACTIONS: [Code; 2] = [GET, QUIT];

const WHILE_THERE: &[Row] = &[(false, TO_A, PING, b"", A_REACTS, 0, PING)];

const ONCE_REMOVED: &[Row] = &[
    (false, TO_A, PING, b"", DROPPED, 0, PING),
    (false, PREFERRED, GET, b"C.", AT_LOOPER, 0, GET),
];

// The handler `a` with `Title` and a reaction on `PING`.
const ONLY_A: &[Beside] = &[(b"a", PING, &[])];

const WITH_COUNT_AND_REACTIONS: Own = (&[(b"Count", &[], &[])], WITH_REACTIONS);

const WITH_SUITES_AND_REACTIONS: Own = (&[(b"Suites", &[], &[])], WITH_REACTIONS);

const WITH_HANDLER_AND_REACTIONS: Own = (&[(b"Handler", &[], &[])], WITH_REACTIONS);

/// Scenes in which commands and forms decide, a property comes first and what is built in last, and a handler is removed.
pub static SCENES: [Scene; 7] = [
    Scene {
        label: "commands and forms decide",
        own: (FOUR_ROWS, [PONG, PING]),
        beside: &[],
        changes: &[],
        common: &[],
        rows: TAKEN,
    },
    Scene {
        label: "with any number of specifiers",
        own: COUNTING,
        beside: A_AND_B,
        changes: &[],
        common: &[],
        rows: WITH_ANY,
    },
    Scene {
        label: "a property comes first",
        own: WITH_COUNT_AND_REACTIONS,
        beside: &[],
        changes: &[],
        common: &[],
        rows: WITH_COUNT,
    },
    Scene {
        label: "a property of suites comes first",
        own: WITH_SUITES_AND_REACTIONS,
        beside: &[],
        changes: &[],
        common: &[],
        rows: WITH_SUITES,
    },
    Scene {
        label: "a property keeps what leads on",
        own: WITH_HANDLER_AND_REACTIONS,
        beside: &[],
        changes: &[],
        common: &[],
        rows: WITH_HANDLER,
    },
    Scene {
        label: "a handler while it is there",
        own: COUNTING,
        beside: ONLY_A,
        changes: &[],
        common: &[],
        rows: WHILE_THERE,
    },
    Scene {
        label: "a removed handler gets nothing",
        own: COUNTING,
        beside: ONLY_A,
        changes: &[Change::Remove(1)],
        common: &[],
        rows: ONCE_REMOVED,
    },
];
