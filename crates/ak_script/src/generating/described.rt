//! The application whose loopers count.

ghost use Rattle.std.specs.Prelude.{◌≡◌, ◌∷◌, [], true, IfOk};
ghost use Rattle.ak_base.specs.Word.{is_word};
ghost use Rattle.ak_action.specs.Plan.{IsPlan};
ghost use Rattle.ak_script.specs.Generated as gen;

use crate::generating::reactions::counts_up;
use ak_action::{ElementsList, LooperPlan, PlanParts, PlanRow, ReactionFault, ReactionList};
use ak_base::{Items, NoMemory, Text};
use ak_describe::AppText;
use ak_filter::FilterList;
use ak_message::{Kind, Value};
use ak_property::{PropertyRow, PropertyTable, RowFault};
use ak_roster::Mode;
use ak_value::Elements;
use std::alloc::Global;

/// `app /gen/work application/x-vnd.gen multiple`, and its loopers.
pub(crate) fn app(alloc: Global) -> Result<AppText, NoMemory>
    ensures { IfOk result (λ app. app ≡ gen.app) }
{
    Ok(AppText {
        path: Text::from_word(alloc, b"/gen/work")?,
        signature: Text::from_word(alloc, b"application/x-vnd.gen")?,
        mode: Mode::Multiple,
        loopers: Items::from_vec(loopers(alloc)?),
    })
}

// Its own looper, and three that count.
fn loopers(alloc: Global) -> Result<Vec<LooperPlan>, NoMemory>
    ensures { IfOk result (λ loopers. loopers.items ≡ gen.loopers) }
{
    let mut loopers = Vec::with_capacity(alloc, 4)?;
    loopers.push(looper(alloc, 2, bare_row(alloc, b"work")?)?)?;
    loopers.push(looper(alloc, 100, counting_row(alloc, b"w1")?)?)?;
    loopers.push(looper(alloc, 100, counting_row(alloc, b"w2")?)?)?;
    loopers.push(looper(alloc, 100, counting_row(alloc, b"w3")?)?)?;
    Ok(loopers)
}

// The looper of that capacity, which has no other handler than its own row.
fn looper(alloc: Global, capacity: u32, row: PlanRow) -> Result<LooperPlan, NoMemory>
    requires { IsPlan (gen.looper capacity row) }
    ensures { IfOk result (λ plan. plan ≡ gen.looper capacity row) }
{
    let name = row.name.try_clone()?;
    let mut rows = Vec::with_capacity(alloc, 1)?;
    rows.push(row)?;
    let parts = PlanParts {
        name,
        capacity,
        quit_refused: false,
        preferred: None,
        common: FilterList::new(alloc),
        rows: Items::from_vec(rows),
    };
    match LooperPlan::new(alloc, parts) {
        Ok(plan) => Ok(plan),
        Err(_) => unreachable!(),
    }
}

// ---- rows
fn bare_row(alloc: Global, name: &[u8]) -> Result<PlanRow, NoMemory>
    requires { is_word name.now ≡ true }
    ensures { IfOk result (λ row. row ≡ gen.bare_row name.now) }
{
    Ok(PlanRow {
        name: Text::from_word(alloc, name)?,
        next: None,
        suites: Items::from_vec(Vec::new(alloc)),
        table: PropertyTable::new(alloc),
        elements: ElementsList::from_vec(Vec::new(alloc)),
        filters: FilterList::new(alloc),
        reactions: ReactionList::new(alloc),
    })
}

// It counts on `'incr'`.
fn counting_row(alloc: Global, name: &[u8]) -> Result<PlanRow, NoMemory>
    requires { is_word name.now ≡ true }
    ensures { IfOk result (λ row. row ≡ gen.counting_row name.now) }
{
    let mut row = bare_row(alloc, name)?;
    row.table = table(alloc)?;
    row.elements = elements(alloc)?;
    row.reactions = reactions(alloc)?;
    Ok(row)
}

// `property Count LONG`
fn table(alloc: Global) -> Result<PropertyTable, NoMemory>
    ensures { IfOk result (λ table. table ≡ gen.count_row ∷ []) }
{
    let row = PropertyRow {
        name: Text::from_word(alloc, b"Count")?,
        kind: Kind::Int32,
        commands: Items::from_vec(Vec::new(alloc)),
        forms: Items::from_vec(Vec::new(alloc)),
        usage: Text::empty(alloc)?,
    };
    let mut table = PropertyTable::new(alloc);
    match table.add_row(row) {
        Ok(()) => Ok(table),
        Err(fault) => {
            prove!(matches!(fault, RowFault::NoMemory));
            Err(NoMemory)
        }
    }
}

// `element LONG:0`
fn elements(alloc: Global) -> Result<ElementsList, NoMemory>
    ensures { IfOk result (λ list. list ≡ gen.count_elements ∷ []) }
{
    let mut zero = Vec::with_capacity(alloc, 1)?;
    zero.push((Text::empty(alloc)?, Value::Int32(0)))?;
    let mut list = Vec::with_capacity(alloc, 1)?;
    list.push(Elements::new(alloc, Kind::Int32, zero)?)?;
    Ok(ElementsList::from_vec(list))
}

fn reactions(alloc: Global) -> Result<ReactionList, NoMemory>
    ensures { IfOk result (λ list. list ≡ gen.counts_up ∷ []) }
{
    let mut list = ReactionList::new(alloc);
    match list.push(counts_up(alloc)?) {
        Ok(()) => Ok(list),
        Err(fault) => {
            prove!(matches!(fault, ReactionFault::NoMemory));
            Err(NoMemory)
        }
    }
}
