//! What the filters make of a message.
use super::fixture::{
    A_AND_B, A_REACTS, AT_LOOPER, B_REACTS, Beside, COUNT, COUNTING, Change, FilterRow, GET, LOST,
    NO_CODE, Own, PING, PONG, PREFERRED, REACTS, Row, SET, SKIPPED, Scene, TO_A, TO_B, TO_LOOPER,
    Told, looper_of, message, routed_from,
};
use ak_filter::{DeliveryIs, Filter, FilterList, SourceIs};
use std::alloc::Global;
use std::test::Fail;

// The looper with `Count` and a reaction on `PONG`.
const PONGING: Own = (&[(b"Count", &[], &[])], [PONG, NO_CODE]);

// The code of a `SET` message changes twice, though no handler has the name to which it is passed.
const FILTERS_IN_ORDER: &[FilterRow] = &[
    (Some(GET), true, b"", None),
    (Some(PONG), true, b"", None),
    (Some(PING), false, b"b", None),
    (Some(SET), false, b"none", Some(PING)),
    (Some(PING), false, b"", Some(PONG)),
];

const IN_ORDER: &[Row] = &[
    (false, PREFERRED, GET, b"C.", SKIPPED, 0, GET),
    (false, PREFERRED, SET, b"", LOST, 0, PONG),
    (false, PREFERRED, SET, b"C.", LOST, 0, PONG),
    (false, PREFERRED, COUNT, b"C.", AT_LOOPER, 0, COUNT),
    (false, PREFERRED, PONG, b"", SKIPPED, 0, PONG),
    (false, PREFERRED, PING, b"", LOST, 0, PONG),
];

// A filter that passes to a name that is not there, and one that sees the code which that sets.
const PASSING_TO_NONE: &[FilterRow] = &[
    (Some(SET), false, b"none", Some(PING)),
    (Some(PING), false, b"", Some(PONG)),
];

const NO_REFUSAL: &[Row] = &[
    (false, PREFERRED, SET, b"", REACTS, 0, PONG),
    (false, PREFERRED, SET, b"C.", REACTS, 0, PONG),
    (false, PREFERRED, PING, b"", REACTS, 0, PONG),
    (false, PREFERRED, GET, b"C.", AT_LOOPER, 0, GET),
];

// In the other order nothing makes a `PONG` of the `PING` that was made of a `SET`.
const IN_THE_OTHER_ORDER: &[FilterRow] = &[
    (Some(PING), false, b"", Some(PONG)),
    (Some(SET), false, b"", Some(PING)),
];

const OTHER_ORDER: &[Row] = &[(false, PREFERRED, SET, b"", LOST, 0, PING)];

// And then with a filter more, which skips each `PONG`.
const SKIPPING_PONG: &[FilterRow] = &[
    (Some(PING), false, b"", Some(PONG)),
    (Some(SET), false, b"", Some(PING)),
    (Some(PONG), true, b"", None),
];

// What is skipped keeps the code that it came with, though it was skipped for another.
const SKIPPED_AS_IT_CAME: &[Row] = &[(false, PREFERRED, PING, b"", SKIPPED, 0, PING)];

const PASSED_ONCE: &[Row] = &[(false, PREFERRED, PING, b"", A_REACTS, 0, PING)];

// The handlers `a`, which is preferred, and `b`: each passes all that it gets to the other.
const TO_EACH_OTHER: &[Beside] = &[
    (b"a", PING, &[(None, false, b"b", None)]),
    (b"b", PING, &[(None, false, b"a", None)]),
];

const BY_ITSELF: &[Row] = &[
    (false, TO_LOOPER, PING, b"", LOST, 0, PING),
    (false, TO_A, PING, b"", SKIPPED, 0, PING),
    (false, TO_A, PONG, b"", A_REACTS, 0, PONG),
    (false, TO_B, PING, b"", B_REACTS, 0, PONG),
];

// The filters of the handler that it was for do not run, and those of `a` do.
const PASSED_TO_A: &[Row] = &[
    (false, TO_B, PING, b"", SKIPPED, 0, PING),
    (false, TO_B, PONG, b"", B_REACTS, 0, PONG),
];

// The handler `a`, which skips each `PING`, and `b`, which makes a `PONG` of it; and a common filter that passes each
// `PING` to `a`.
const WITH_FILTERS: &[Beside] = &[
    (b"a", PONG, &[(Some(PING), true, b"", None)]),
    (b"b", PONG, &[(Some(PING), false, b"", Some(PONG))]),
];

const PASSING_TO_A: &[FilterRow] = &[(Some(PING), false, b"a", None)];

/// Scenes in which common filters run in order, and those of a handler once.
pub static SCENES: [Scene; 7] = [
    Scene {
        label: "filters run in order",
        own: COUNTING,
        beside: A_AND_B,
        changes: &[],
        common: FILTERS_IN_ORDER,
        rows: IN_ORDER,
    },
    Scene {
        label: "passed to none",
        own: PONGING,
        beside: &[],
        changes: &[],
        common: PASSING_TO_NONE,
        rows: NO_REFUSAL,
    },
    Scene {
        label: "in the other order",
        own: PONGING,
        beside: &[],
        changes: &[],
        common: IN_THE_OTHER_ORDER,
        rows: OTHER_ORDER,
    },
    Scene {
        label: "skipped as it came",
        own: PONGING,
        beside: &[],
        changes: &[],
        common: SKIPPING_PONG,
        rows: SKIPPED_AS_IT_CAME,
    },
    Scene {
        label: "handlers pass to each other",
        own: COUNTING,
        beside: TO_EACH_OTHER,
        changes: &[Change::Prefer(1)],
        common: &[],
        rows: PASSED_ONCE,
    },
    Scene {
        label: "filters of a handler run",
        own: COUNTING,
        beside: WITH_FILTERS,
        changes: &[],
        common: &[],
        rows: BY_ITSELF,
    },
    Scene {
        label: "filters of a handler run once",
        own: COUNTING,
        beside: WITH_FILTERS,
        changes: &[],
        common: PASSING_TO_A,
        rows: PASSED_TO_A,
    },
];

// Whether a message is local, and whether it was dropped.
static ORIGINS: [(bool, bool); 4] = [(true, false), (true, true), (false, false), (false, true)];

// What comes of a `PONG` of each origin at a looper that reacts to it and skips all that comes from there, in that way.
fn pong_of_each_origin(
    alloc: Global,
    source: SourceIs,
    delivery: DeliveryIs,
) -> Result<[Told; 4], Fail> {
    let set = looper_of(alloc, &PONGING)?;
    let common = skipping(alloc, source, delivery)?;
    let mut told = [(LOST, 0, PONG); 4];
    for (place, origin) in told.iter_mut().zip(&ORIGINS) {
        let pong = message(alloc, PONG, b"")?;
        *place = routed_from(alloc, &set, &common, false, *origin, PREFERRED, pong)?;
    }
    Ok(told)
}

fn skipping(alloc: Global, source: SourceIs, delivery: DeliveryIs) -> Result<FilterList, Fail> {
    let mut filters = FilterList::new(alloc);
    filters.push(Filter {
        what: None,
        source,
        delivery,
        skip: true,
        to: None,
        set_what: None,
    })?;
    Ok(filters)
}

// What comes of a `PONG` that is skipped, or not.
fn told_of(skipped: bool) -> Told {
    (if skipped { SKIPPED } else { REACTS }, 0, PONG)
}

// Where a filter asks that a message comes from, in which way, and whether it skips one of each origin.
static SKIPPING: [(SourceIs, DeliveryIs, [bool; 4]); 6] = [
    (SourceIs::Local, DeliveryIs::Any, [true, true, false, false]),
    (
        SourceIs::Remote,
        DeliveryIs::Any,
        [false, false, true, true],
    ),
    (
        SourceIs::Any,
        DeliveryIs::Dropped,
        [false, true, false, true],
    ),
    (
        SourceIs::Any,
        DeliveryIs::Programmed,
        [true, false, true, false],
    ),
    (
        SourceIs::Local,
        DeliveryIs::Dropped,
        [false, true, false, false],
    ),
    (
        SourceIs::Remote,
        DeliveryIs::Programmed,
        [false, false, true, false],
    ),
];

/// The first of these that is told otherwise: its place, what came, and what was to come.
pub fn first_origin(alloc: Global) -> Result<Option<(usize, [Told; 4], [Told; 4])>, Fail> {
    for (place, &(source, delivery, [a, b, c, d])) in SKIPPING.iter().enumerate() {
        let told = pong_of_each_origin(alloc, source, delivery)?;
        let wanted = [told_of(a), told_of(b), told_of(c), told_of(d)];
        if told != wanted {
            return Ok(Some((place, told, wanted)));
        }
    }
    Ok(None)
}
