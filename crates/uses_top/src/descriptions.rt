//! What the rows of `describe_rows` cannot say of descriptions: elements by their names, and lines of which the first
//! one is not the first line of an input.
use crate::compare::same;
use ak_base::{Code, RefusalKind, Text};
use ak_describe::{
    AppText, DescribeFault, FirstPass, described_or_faulty, descriptions_are_read,
    names_have_places, passes_make_descriptions, read_description,
};
use ak_input::split_lines;
use ak_message::{AtRef, Message, Value};
use ak_value::Elements;
use std::alloc::Global;
use std::test::Fail;

const NAMED_LINES: &str = "app /a application/a single
looper l
property P LONG
element 1 name \"first\"
element 2
element 3 name \"two words\"
element 4 name \"\\\"\"
element 5 name \"\"
element 6 name \"first\"
";

static NAMES: [&str; 6] = ["first", "two words", "\"", "", "First", "two"];

// The elements of the only property of the first handler.
fn only_elements(apps: &[AppText]) -> Option<&Elements> {
    let looper = apps.first()?.loopers.as_slice().first()?;
    let row = looper.parts().rows.as_slice().first()?;
    match row.elements.as_slice() {
        [only] => Some(only),
        _ => None,
    }
}

// The first element of that name, 0 where there is none, and -1 where it is no number.
fn got(alloc: Global, elements: &Elements, name: &str) -> Result<i32, Fail> {
    let name = Text::from_bytes(alloc, name.as_bytes())?;
    let got = elements.try_clone()?.access(
        Code::GET,
        AtRef::Name(&name),
        &Message::new(alloc, Code::GET),
    );
    match got {
        Ok(Some(values)) => match values.as_slice() {
            [Value::Int32(n)] => Ok(*n),
            _ => Ok(-1),
        },
        _ => Ok(0),
    }
}

fn numbers_by_name(alloc: Global) -> Result<[i32; 6], Fail> {
    let input = split_lines(alloc, NAMED_LINES.as_bytes())?;
    let apps = read_description(alloc, input.lines.as_slice())?;
    let Some(elements) = only_elements(&apps) else {
        return Err("not one property".into());
    };
    let mut numbers = [0; 6];
    for (number, name) in numbers.iter_mut().zip(&NAMES) {
        *number = got(alloc, elements, name)?;
    }
    Ok(numbers)
}

// Each with the line that is told, counted in the whole input.
static REFUSED: [(&str, u32, RefusalKind); 4] = [
    ("kit 1\nscript", 2, RefusalKind::UnknownLine),
    (
        "kit 1\n\napp /a application/a single\n# end\n",
        4,
        RefusalKind::Unfinished,
    ),
    (
        "kit 1\napp /a application/a single\nlooper l\nprefer x",
        4,
        RefusalKind::UnknownName,
    ),
    (
        "kit 1
app /boot/demo application/x-vnd.demo single
looper demo capacity 2
property Count LONG
element LONG:3
looper work
on 'x111'
ask looper demo 'y111'
",
        8,
        RefusalKind::AskOrder,
    ),
];

// The refusal of the lines behind the first one.
fn refusal(alloc: Global, input: &str) -> Result<Option<DescribeFault>, Fail> {
    let input = split_lines(alloc, input.as_bytes())?;
    match input.lines.as_slice().split_first() {
        Some((_, lines)) => Ok(read_description(alloc, lines).err()),
        None => Ok(None),
    }
}

// The first input that is refused otherwise, what came, and what was to come.
type Other = (&'static str, Option<DescribeFault>, DescribeFault);

fn first_refusal(alloc: Global) -> Result<Option<Other>, Fail> {
    for &(input, line, kind) in &REFUSED {
        let wanted = DescribeFault::Refused { line, kind };
        let came = refusal(alloc, input)?;
        if came != Some(wanted) {
            return Ok(Some((input, came, wanted)));
        }
    }
    Ok(None)
}

// How many of the lines are refused, at how many of them the lines so far may end, and how many applications the
// others describe.
type Counts = (u32, u32, usize);

const SOME_REFUSED: &str = "app /a application/a single
looper
looper l
looper l
property P LONG
";

// Reads them as they come, and leaves out each that is refused.
fn ends(alloc: Global, input: &str) -> Result<Counts, Fail> {
    let input = split_lines(alloc, input.as_bytes())?;
    let mut pass = FirstPass::new(alloc);
    let mut refused: u32 = 0;
    let mut ends: u32 = 0;
    for line in input.lines.as_slice() {
        if pass.read_line(alloc, line).is_err() {
            refused = refused.saturating_add(1);
        }
        if pass.end_fault().is_none() {
            ends = ends.saturating_add(1);
        }
    }
    match pass.end_fault() {
        Some(_) => Err("unfinished".into()),
        None => Ok((refused, ends, pass.second_pass(alloc)?.len())),
    }
}

#[test]
fn lines_are_read_as_they_come(rt: HostRuntime) -> Result<(), Fail> {
    let alloc = rt.alloc();
    passes_make_descriptions();
    same(
        &rt,
        "all lines are taken",
        ends(alloc, NAMED_LINES)?,
        (0, 8, 1),
    );
    same(
        &rt,
        "a refused line changes nothing",
        ends(alloc, SOME_REFUSED)?,
        (2, 3, 1),
    );
    Ok(())
}

#[test]
fn descriptions_are_read_and_refused(rt: HostRuntime) -> Result<(), Fail> {
    let alloc = rt.alloc();
    described_or_faulty();
    descriptions_are_read();
    names_have_places();
    same(
        &rt,
        "elements have their names",
        numbers_by_name(alloc)?,
        [1, 3, 4, 2, 0, 0],
    );
    same(
        &rt,
        "lines are counted in the whole input",
        first_refusal(alloc)?,
        None,
    );
    Ok(())
}
