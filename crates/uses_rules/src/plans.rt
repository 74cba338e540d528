//! Plans that no description gives, and which fault is answered where there are several. Expected values come
//! from the table of faults.

use crate::compare::same;
use crate::parts::{NONE, Told, actions_of, text, text_or_none};
use ak_action::{
    ElementsList, LooperPlan, Number, PlanFault, PlanParts, PlanRow, Reaction, ReactionList,
};
use ak_base::{Code, Items, Text};
use ak_filter::FilterList;
use ak_message::Kind;
use ak_property::{PropertyRow, PropertyTable};
use ak_value::Elements;
use std::alloc::Global;
use std::test::Fail;

// A handler without properties, filters and reactions. The empty text is no next handler.
fn bare_row(alloc: Global, name: &[u8], next: &[u8]) -> Result<PlanRow, Fail> {
    Ok(PlanRow {
        name: text(alloc, name)?,
        next: text_or_none(alloc, next)?,
        suites: Items::from_vec(Vec::new(alloc)),
        table: PropertyTable::new(alloc),
        elements: ElementsList::from_vec(Vec::new(alloc)),
        filters: FilterList::new(alloc),
        reactions: ReactionList::new(alloc),
    })
}

// The looper `desk` with these handlers. The empty text is no preferred one.
fn desk(
    alloc: Global,
    capacity: u32,
    preferred: &[u8],
    rows: Vec<PlanRow>,
) -> Result<PlanParts, Fail> {
    Ok(PlanParts {
        name: text(alloc, b"desk")?,
        capacity,
        quit_refused: true,
        preferred: text_or_none(alloc, preferred)?,
        common: FilterList::new(alloc),
        rows: Items::from_vec(rows),
    })
}

// Handlers by their names and those of their next ones.
type Names = &'static [(&'static [u8], &'static [u8])];

fn linked(alloc: Global, names: Names) -> Result<Vec<PlanRow>, Fail> {
    let mut rows = Vec::new(alloc);
    for (name, next) in names {
        rows.push(bare_row(alloc, name, next)?)?;
    }
    Ok(rows)
}

// What is wrong with the looper and these handlers.
fn fault(
    alloc: Global,
    capacity: u32,
    preferred: &[u8],
    rows: Vec<PlanRow>,
) -> Result<Option<PlanFault>, Fail> {
    Ok(LooperPlan::new(alloc, desk(alloc, capacity, preferred, rows)?).err())
}

// ---- loopers, names and chains
// The capacity, the preferred handler, the names, how many handlers there are besides, and what is told of all that is
// wrong.
type Looper = (u32, &'static [u8], Names, u8, Option<PlanFault>);

const BAD_LOOPER: Option<PlanFault> = Some(PlanFault::BadLooper);

const BAD_CAPACITY: Option<PlanFault> = Some(PlanFault::BadCapacity);

const HANDLER_LIMIT: Option<PlanFault> = Some(PlanFault::HandlerLimit);

const BAD_NAME: Option<PlanFault> = Some(PlanFault::BadName);

const NAME_IN_USE: Option<PlanFault> = Some(PlanFault::NameInUse);

const UNKNOWN_NAME: Option<PlanFault> = Some(PlanFault::UnknownName);

// A looper has up to 64 handlers: the capacity is tested before how many there are, and that before names.
static LOOPERS: [Looper; 16] = [
    (100, b"", &[], 0, BAD_LOOPER),
    (100, b"", &[(b"other", b"")], 0, BAD_LOOPER),
    (100, b"", &[(b"desk", b"desk")], 0, BAD_LOOPER),
    (100, b"", &[(b"a", b""), (b"desk", b"")], 0, BAD_LOOPER),
    (0, b"", &[(b"a", b"")], 0, BAD_LOOPER),
    (
        u32::MAX,
        b"",
        &[(b"desk", b""), (b"a b", b"")],
        0,
        BAD_CAPACITY,
    ),
    (100, b"", &[(b"desk", b""), (b"a b", b"")], 0, BAD_NAME),
    (100, b"", &[(b"desk", b""), (b"", b"")], 0, BAD_NAME),
    (
        100,
        b"",
        &[(b"desk", b""), (b"a b", b""), (b"a b", b"")],
        0,
        BAD_NAME,
    ),
    (
        100,
        b"",
        &[(b"desk", b""), (b"a", b"x"), (b"a", b"")],
        0,
        NAME_IN_USE,
    ),
    (
        100,
        b"",
        &[(b"desk", b""), (b"a", b"a"), (b"b", b"x")],
        0,
        UNKNOWN_NAME,
    ),
    (100, b"x", &[(b"desk", b""), (b"a", b"a")], 0, UNKNOWN_NAME),
    (100, b"", &[(b"desk", b""), (b"zz", b"")], 62, None),
    (100, b"", &[(b"desk", b""), (b"zz", b"")], 63, HANDLER_LIMIT),
    (0, b"", &[(b"desk", b""), (b"zz", b"")], 63, BAD_CAPACITY),
    (
        100,
        b"",
        &[(b"desk", b""), (b"a b", b"")],
        63,
        HANDLER_LIMIT,
    ),
];

// Adds so many handlers, each with two letters as its name.
fn crowd(alloc: Global, rows: &mut Vec<PlanRow>, count: u8) -> Result<(), Fail> {
    for n in 0..count {
        rows.push(bare_row(alloc, &[b'a' + n / 16, b'a' + n % 16], b"")?)?;
    }
    Ok(())
}

fn fault_of_looper(alloc: Global, looper: &Looper) -> Result<Option<PlanFault>, Fail> {
    let &(capacity, preferred, names, count, _) = looper;
    let mut rows = linked(alloc, names)?;
    crowd(alloc, &mut rows, count)?;
    fault(alloc, capacity, preferred, rows)
}

// The place of a case, what came, and what was to come.
type Other = (usize, Option<PlanFault>, Option<PlanFault>);

fn first_looper(alloc: Global) -> Result<Option<Other>, Fail> {
    for (place, looper) in LOOPERS.iter().enumerate() {
        let fault = fault_of_looper(alloc, looper)?;
        if fault != looper.4 {
            return Ok(Some((place, fault, looper.4)));
        }
    }
    Ok(None)
}

// ---- handlers
// Properties in plain data.
type Properties = &'static [(&'static [u8], Kind)];

fn table(alloc: Global, properties: Properties) -> Result<PropertyTable, Fail> {
    let mut table = PropertyTable::new(alloc);
    for (name, kind) in properties {
        table.add_row(PropertyRow {
            name: text(alloc, name)?,
            kind: *kind,
            commands: Items::from_vec(Vec::new(alloc)),
            forms: Items::from_vec(Vec::new(alloc)),
            usage: text(alloc, b"")?,
        })?;
    }
    Ok(table)
}

fn elements(alloc: Global, kinds: &[Kind]) -> Result<ElementsList, Fail> {
    let mut elements = Vec::new(alloc);
    for kind in kinds {
        elements.push(Elements::new(alloc, *kind, Vec::new(alloc))?)?;
    }
    Ok(ElementsList::from_vec(elements))
}

fn suites(alloc: Global, count: u8) -> Result<Items<Text>, Fail> {
    let mut suites = Vec::new(alloc);
    for _ in 0..count {
        suites.push(text(alloc, b"suite/vnd.demo")?)?;
    }
    Ok(Items::from_vec(suites))
}

// One on that action, or none.
fn reactions(alloc: Global, actions: &[Told<'_>]) -> Result<ReactionList, Fail> {
    let mut reactions = ReactionList::new(alloc);
    if !actions.is_empty() {
        reactions.push(Reaction {
            what: Code(7),
            actions: actions_of(alloc, actions)?,
        })?;
    }
    Ok(reactions)
}

// The handler that the next one to `b` is, how many suites the handler `a` has, its properties, the kinds of its elements,
// its reaction's actions, and what is told.
type Handler = (
    &'static [u8],
    u8,
    Properties,
    &'static [Kind],
    &'static [Told<'static>],
    Option<PlanFault>,
);

const TWO: Properties = &[(b"Count", Kind::Int32), (b"Title", Kind::Text)];

const TWICE: Properties = &[
    (b"Count", Kind::Int32),
    (b"Title", Kind::Text),
    (b"Count", Kind::Int32),
];

const MESSAGES: Properties = &[(b"Last", Kind::Message)];

const BOTH: &[Kind] = &[Kind::Int32, Kind::Text];

const BAD: Option<PlanFault> = Some(PlanFault::BadTable);

// It posts to a handler that is not there, which is no fault: one of that name may be added.
const POSTS: &[Told<'static>] = &[(b'p', 1, "", NONE, (b'h', "none of them"), "back")];

// It adds to a property that it does not have.
const ADDS: &[Told<'static>] = &[(b'+', 0, "", Number::Int32(1), (b'-', ""), "Other")];

// Each property has its elements; and chains come before suites, these before tables, and these before actions.
static HANDLERS: [Handler; 15] = [
    (b"a", 0, &[], &[], &[], None),
    (b"a", 0, TWO, BOTH, &[], None),
    (b"a", 0, TWO, &[Kind::Int32], &[], BAD),
    (b"a", 0, TWO, &[], &[], BAD),
    (
        b"a",
        0,
        TWO,
        &[Kind::Int32, Kind::Text, Kind::Text],
        &[],
        BAD,
    ),
    (b"a", 0, TWO, &[Kind::Text, Kind::Int32], &[], BAD),
    (b"a", 0, TWO, &[Kind::Int32, Kind::Raw], &[], BAD),
    (
        b"a",
        0,
        TWICE,
        &[Kind::Int32, Kind::Text, Kind::Int32],
        &[],
        BAD,
    ),
    (b"a", 0, MESSAGES, &[Kind::Message], &[], BAD),
    (b"a", 0, TWO, BOTH, POSTS, None),
    (b"a", 0, TWO, BOTH, ADDS, Some(PlanFault::BadAction)),
    (b"a", 0, TWO, &[], ADDS, BAD),
    (b"a", 16, TWO, &[], ADDS, BAD),
    (b"a", 17, TWO, &[], ADDS, Some(PlanFault::SuiteLimit)),
    (b"b", 17, &[], &[], &[], Some(PlanFault::ChainLoop)),
];

fn row_of(alloc: Global, handler: &Handler) -> Result<PlanRow, Fail> {
    let &(_, count, properties, kinds, actions, _) = handler;
    Ok(PlanRow {
        name: text(alloc, b"a")?,
        next: None,
        suites: suites(alloc, count)?,
        table: table(alloc, properties)?,
        elements: elements(alloc, kinds)?,
        filters: FilterList::new(alloc),
        reactions: reactions(alloc, actions)?,
    })
}

fn fault_of_handler(alloc: Global, handler: &Handler) -> Result<Option<PlanFault>, Fail> {
    let mut rows = Vec::new(alloc);
    rows.push(bare_row(alloc, b"desk", b"")?)?;
    rows.push(bare_row(alloc, b"b", handler.0)?)?;
    rows.push(row_of(alloc, handler)?)?;
    fault(alloc, 100, b"", rows)
}

fn first_handler(alloc: Global) -> Result<Option<Other>, Fail> {
    for (place, handler) in HANDLERS.iter().enumerate() {
        let fault = fault_of_handler(alloc, handler)?;
        if fault != handler.5 {
            return Ok(Some((place, fault, handler.5)));
        }
    }
    Ok(None)
}

#[test]
fn plans_have_their_first_fault(rt: HostRuntime) -> Result<(), Fail> {
    let alloc = rt.alloc();
    same(
        &rt,
        "loopers are tested before names and these before chains",
        first_looper(alloc)?,
        None,
    );
    same(
        &rt,
        "chains come before suites, tables and actions",
        first_handler(alloc)?,
        None,
    );
    Ok(())
}
