//! What the parts of a looper's description hold in states that no description gives, and which fault is answered at their
//! limits.

use crate::actions::state_with;
use crate::compare::same;
use crate::parts::{deep, row_of, text};
use ak_action::Number::{Int8, Int16, Int32, Int64, UInt32, UInt64};
use ak_action::{
    Action, ActionList, DeskRow, ElementsList, Given, Number, Reaction, TemplateFault,
    TemplateField, TemplateFields, Values, ValuesFault,
};
use ak_base::Code;
use ak_message::{AtRef, Kind, Message, Value};
use ak_property::HandlerRow;
use ak_value::ElementFault;
use std::alloc::Global;
use std::test::Fail;

// ---- the values of a field
// 255 messages, the first one 15 deep.
fn full(alloc: Global) -> Result<Values, Fail> {
    let mut values = Values::one(alloc, deep(alloc, 15)?)?;
    for _ in 1..255 {
        values.push(deep(alloc, 1)?)?;
    }
    Ok(values)
}

// What a message so deep is refused for.
fn refused(alloc: Global, values: &mut Values, depth: u32) -> Result<Option<ValuesFault>, Fail> {
    Ok(values.push(deep(alloc, depth)?).err())
}

// What a value that is too deep is refused for: alone, beside another one, beside one of another kind; and one
// that is not, beside another one. Then, beside one that is too deep itself and was taken alone, another such one,
// and one that is not.
fn depth_faults(alloc: Global) -> Result<[Option<ValuesFault>; 6], Fail> {
    let mut values = Values::one(alloc, deep(alloc, 15)?)?;
    let mut other = Values::one(alloc, Value::Bool(true))?;
    let mut alone = Values::alone(alloc, deep(alloc, 16)?)?;
    Ok([
        Values::one(alloc, deep(alloc, 16)?).err(),
        refused(alloc, &mut values, 16)?,
        refused(alloc, &mut other, 16)?,
        refused(alloc, &mut values, 15)?,
        refused(alloc, &mut alone, 16)?,
        refused(alloc, &mut alone, 15)?,
    ])
}

// What is refused beside as many as there can be: one that is too deep, one of another kind, and one like them; and
// how many these and their copies are, and of which kinds.
fn limits(alloc: Global) -> Result<([Option<ValuesFault>; 3], [(usize, Kind); 2]), Fail> {
    let mut full = full(alloc)?;
    let faults = [
        refused(alloc, &mut full, 16)?,
        full.push(Value::Bool(true)).err(),
        refused(alloc, &mut full, 1)?,
    ];
    let copy = full.try_clone()?;
    let told = [
        (full.as_slice().len(), full.kind()),
        (copy.as_slice().len(), copy.kind()),
    ];
    Ok((faults, told))
}

// ---- the fields of a template
fn add(
    alloc: Global,
    fields: &mut TemplateFields,
    name: &[u8],
) -> Result<Option<TemplateFault>, Fail> {
    let field = TemplateField {
        name: text(alloc, name)?,
        given: Given::Field(text(alloc, b"x")?),
    };
    Ok(fields.add(field).err())
}

// 64 fields with two letters as their names, the first one `aa`.
fn full_template(alloc: Global) -> Result<TemplateFields, Fail> {
    let mut fields = TemplateFields::new(alloc);
    for i in 0..64 {
        if add(alloc, &mut fields, &[b'a' + i / 8, b'a' + i % 8])?.is_some() {
            return Err(Fail::new("a field is refused"));
        }
    }
    Ok(fields)
}

// Names are tested before how many fields there are.
static NAMES: [&[u8]; 6] = [b"more", b"aa", b"hh", b"", b"two words", &[b'n'; 65]];

const NAME_FAULTS: [Option<TemplateFault>; 6] = [
    Some(TemplateFault::FieldLimit),
    Some(TemplateFault::NameInUse),
    Some(TemplateFault::NameInUse),
    Some(TemplateFault::BadName),
    Some(TemplateFault::BadName),
    Some(TemplateFault::BadName),
];

fn name_faults(alloc: Global) -> Result<([Option<TemplateFault>; 6], usize), Fail> {
    let mut fields = full_template(alloc)?;
    let mut faults = [None; 6];
    for (fault, name) in faults.iter_mut().zip(&NAMES) {
        *fault = add(alloc, &mut fields, name)?;
    }
    Ok((faults, fields.as_slice().len()))
}

// ---- what a handler holds
// The property `one` with 10 and 20, and `two` without elements.
const LINES: &[u8] = b"app /boot/Demo application/x-demo single
looper list
property one LONG
element 10
element 20 name \"b\"
property two LONG
on 0x00000007
on 0x00000008
";

// With reactions on the codes 7, 8 and 7.
fn described(alloc: Global) -> Result<DeskRow, Fail> {
    let mut row = row_of(alloc, LINES)?;
    row.reactions.push(Reaction {
        what: Code(7),
        actions: ActionList::new(alloc),
    })?;
    Ok(row)
}

fn number_in(value: Option<&Value>) -> Option<i32> {
    match value {
        Some(Value::Int32(n)) => Some(*n),
        _ => None,
    }
}

// The places of three names, the first elements of the first two, and the places of reactions on three codes.
type Found = ([Option<usize>; 3], [Option<i32>; 2], [Option<u32>; 3]);

fn found(row: &DeskRow) -> Found {
    (
        [
            row.place_of(b"one"),
            row.place_of(b"two"),
            row.place_of(b"three"),
        ],
        [
            number_in(row.first_of(b"one")),
            number_in(row.first_of(b"two")),
        ],
        [
            row.reaction_on(Code(7)),
            row.reaction_on(Code(8)),
            row.reaction_on(Code(9)),
        ],
    )
}

// In that row, and in an empty one.
fn all_found(alloc: Global) -> Result<[Found; 2], Fail> {
    Ok([found(&described(alloc)?), found(&DeskRow::empty(alloc))])
}

const FOUND: Found = (
    [Some(0), Some(1), None],
    [Some(10), None],
    [Some(0), Some(1), None],
);

const NOT_FOUND: Found = ([None; 3], [None; 2], [None; 3]);

// ---- loopers by their names
fn loopers(alloc: Global) -> Result<[Option<u32>; 4], Fail> {
    let state = state_with(alloc, DeskRow::empty(alloc), Action::Quit)?;
    Ok([
        state.looper_named(b"alpha"),
        state.looper_named(b"beta"),
        state.looper_named(b"bet"),
        state.looper_named(b""),
    ])
}

// ---- the elements of properties
// The first elements at the places 0, 1 and 2.
type Firsts = [Option<i32>; 3];

fn firsts(list: &ElementsList) -> Firsts {
    [
        number_in(list.first_at(0)),
        number_in(list.first_at(1)),
        number_in(list.first_at(2)),
    ]
}

const TEN: Firsts = [Some(10), None, None];

// The first elements where one is set at a place that is not there, by itself and by the result of a reply.
fn set_nowhere(alloc: Global) -> Result<Firsts, Fail> {
    let mut list = row_of(alloc, LINES)?.elements;
    list.set_first_at(2, Value::Int32(11));
    let mut reply = Message::new(alloc, Code::REPLY);
    reply.add(b"result", Value::Int32(7))?;
    list.take_result_at(2, reply);
    Ok(firsts(&list))
}

// What a command is answered at that place.
fn fault_at(
    list: &mut ElementsList,
    what: Code,
    at: AtRef<'_>,
    m: &Message,
) -> Option<ElementFault> {
    list.access_at(2, what, at, m).err()
}

fn asked_nowhere(alloc: Global) -> Result<[Option<ElementFault>; 2], Fail> {
    let mut list = row_of(alloc, LINES)?.elements;
    let m = Message::new(alloc, Code::GET);
    Ok([
        fault_at(&mut list, Code::COUNT, AtRef::Direct, &m),
        fault_at(&mut list, Code::GET, AtRef::Index(0), &m),
    ])
}

fn kinds(alloc: Global) -> Result<[Option<Kind>; 3], Fail> {
    let copy = row_of(alloc, LINES)?.elements.try_clone()?;
    Ok([copy.kind_at(0), copy.kind_at(1), copy.kind_at(2)])
}

const LONG: Option<Kind> = Some(Kind::Int32);

// ---- whole numbers
static TWO_KINDS: [(Number, Number); 3] = [
    (Int8(1), Int16(1)),
    (Int32(1), UInt32(1)),
    (UInt64(0), Int64(0)),
];

// The first two numbers that have a sum: the numbers, and the sum in each order.
fn first_sum() -> Option<([Number; 2], [Option<Number>; 2])> {
    for &(a, b) in &TWO_KINDS {
        let sums = [a.plus(b), b.plus(a)];
        if sums != [None, None] {
            return Some(([a, b], sums));
        }
    }
    None
}

#[test]
fn lists_are_limited(rt: HostRuntime) -> Result<(), Fail> {
    let alloc = rt.alloc();
    let deep = Some(ValuesFault::TooDeep);
    let kind = Some(ValuesFault::BadType);
    let limit = Some(ValuesFault::ValueLimit);
    same(
        &rt,
        "kinds are tested before depth",
        depth_faults(alloc)?,
        [deep, deep, kind, None, deep, None],
    );
    let many = [(255, Kind::Message); 2];
    let told = limits(alloc)?;
    same(
        &rt,
        "kinds are tested before how many and that before depth",
        told,
        ([limit, kind, limit], many),
    );
    same(
        &rt,
        "names are tested before how many fields",
        name_faults(alloc)?,
        (NAME_FAULTS, 64),
    );
    Ok(())
}

#[test]
fn a_handler_holds_properties_and_reactions(rt: HostRuntime) -> Result<(), Fail> {
    let alloc = rt.alloc();
    same(
        &rt,
        "the first of a name or a code is found",
        all_found(alloc)?,
        [FOUND, NOT_FOUND],
    );
    same(
        &rt,
        "loopers are named",
        loopers(alloc)?,
        [Some(3), Some(4), None, None],
    );
    same(&rt, "nothing is set", set_nowhere(alloc)?, TEN);
    same(
        &rt,
        "no command goes to a place that is not there",
        asked_nowhere(alloc)?,
        [Some(ElementFault::BadScript); 2],
    );
    same(
        &rt,
        "each property has its kind",
        kinds(alloc)?,
        [LONG, LONG, None],
    );
    same(&rt, "numbers of two kinds have no sum", first_sum(), None);
    Ok(())
}
