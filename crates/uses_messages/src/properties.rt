// Property tables that no description gives, and how many rows one takes.

use crate::compare::same;
use ak_base::{Code, Items, Text};
use ak_message::Kind;
use ak_property::{PropertyRow, PropertyTable, RowFault};
use std::alloc::Global;
use std::process::Abort;
use std::test::Fail;

fn row(alloc: Global, name: &[u8], commands: &[Code], forms: &[u32]) -> Result<PropertyRow, Fail> {
    Ok(PropertyRow {
        name: Text::from_bytes(alloc, name)?,
        kind: Kind::Int32,
        commands: Items::from_vec(Vec::from_slice(alloc, commands)?),
        forms: Items::from_vec(Vec::from_slice(alloc, forms)?),
        usage: Text::from_bytes(alloc, b"as told")?,
    })
}

// A row in plain data: its name, commands and forms.
type Plain = (&'static [u8], &'static [Code], &'static [u32]);

fn table_of(alloc: Global, rows: &[Plain]) -> Result<PropertyTable, Fail> {
    let mut table = PropertyTable::new(alloc);
    for &(name, commands, forms) in rows {
        table.add_row(row(alloc, name, commands, forms)?)?;
    }
    Ok(table)
}

// What is looked for, by name, code, index and form, and the place of the first row that fits.
type Case = (&'static [u8], Code, u32, u32, Option<usize>);

// Of no description are several rows of one name, more specifiers than a message has, or another form.
static TABLES: [(&[Plain], &[Case]); 2] = [
    (
        &[(b"Count", &[Code::GET], &[1])],
        &[(b"Count", Code::GET, u32::MAX, 1, Some(0))],
    ),
    (
        &[
            (b"Count", &[Code::GET], &[1]),
            (b"Count", &[Code::SET], &[1, 2]),
            (b"Other", &[], &[]),
            (b"Count", &[], &[2, 6]),
            (b"Count", &[Code::GET, Code::DELETE], &[]),
            (b"Count", &[Code::GET], &[1]),
        ],
        &[
            (b"Count", Code::GET, 0, 1, Some(0)),
            (b"Count", Code::SET, 0, 1, Some(1)),
            (b"Count", Code::SET, 0, 2, Some(1)),
            (b"Count", Code::GET, 0, 2, Some(3)),
            (b"Count", Code::EXECUTE, 0, 6, Some(3)),
            (b"Count", Code::DELETE, 0, 1, Some(4)),
            (b"Count", Code::DELETE, 0, 3, Some(4)),
            (b"Count", Code::EXECUTE, 0, 1, None),
            (b"Count", Code::SET, 0, 3, None),
            (b"Count", Code::EXECUTE, 1, 1, Some(0)),
            (b"Count", Code::EXECUTE, 2, 2, Some(1)),
            (b"Count", Code::EXECUTE, 1, 3, Some(4)),
            (b"Other", Code::EXECUTE, 0, 9, Some(2)),
        ],
    ),
];

fn place_of(
    alloc: Global,
    table: &PropertyTable,
    name: &[u8],
    what: Code,
    index: u32,
    form: u32,
) -> Result<Option<usize>, Fail> {
    let name = Text::from_bytes(alloc, name)?;
    Ok(table.find_match(what, index, form, &name))
}

// In a table of these rows what is looked for is found, or is not.
fn are_found(rt: &impl Abort, alloc: Global, rows: &[Plain], cases: &[Case]) -> Result<(), Fail> {
    let table = table_of(alloc, rows)?;
    for (name, what, index, form, wanted) in cases {
        let place = place_of(alloc, &table, name, *what, *index, *form)?;
        same(rt, (*name, *what, *index, *form), place, *wanted);
    }
    Ok(())
}

// What one row more than 64 is answered, and how many there are then.
fn told_of_full(alloc: Global) -> Result<(Result<(), RowFault>, usize), Fail> {
    let mut table = PropertyTable::new(alloc);
    for _ in 0..64 {
        table.add_row(row(alloc, b"Count", &[], &[])?)?;
    }
    let answer = table.add_row(row(alloc, b"Count", &[], &[])?);
    Ok((answer, table.as_slice().len()))
}

// How many rows a copy of a table with one row has, and the table, once it has taken another row.
fn copied(alloc: Global) -> Result<(usize, usize), Fail> {
    let mut table = table_of(alloc, &[(b"Count", &[], &[])])?;
    let copy = table.try_clone()?;
    table.add_row(row(alloc, b"More", &[], &[])?)?;
    Ok((copy.as_slice().len(), table.as_slice().len()))
}

// Whether a copy of a row is used as the row, which nothing but a description tells.
fn is_used_so(alloc: Global) -> Result<bool, Fail> {
    let copy = row(alloc, b"Count", &[], &[])?.try_clone(alloc)?;
    Ok(copy.usage.as_bytes() == b"as told".as_slice())
}

#[test]
fn the_first_row_that_fits_is_found(rt: HostRuntime) -> Result<(), Fail> {
    let alloc = rt.alloc();
    for (rows, cases) in &TABLES {
        are_found(&rt, alloc, rows, cases)?;
    }
    let limit = Err(RowFault::RowLimit);
    same(&rt, "64, and one more", told_of_full(alloc)?, (limit, 64));
    same(&rt, "a copy, a table", copied(alloc)?, (1, 2));
    same(&rt, "a copy of a row", is_used_so(alloc)?, true);
    Ok(())
}
