//! What the parts of applications come to, once nothing is wrong with them.

ghost use Rattle.std.specs.Prelude.{◌≡◌, ◌≤◌, ◌<◌, [], ◌∷◌, ◌++◌, length, All, IfOk, OnOk};
ghost use Rattle.ak_property.specs.Limits.{row_limit};
ghost use Rattle.ak_action.specs.Plan.{IsPlan};
ghost use Rattle.ak_action.specs.Limits.{reaction_limit};
ghost use Rattle.ak_describe.specs.Described as reads;
ghost use Rattle.ak_describe.specs.Seen.{app_data, apps_data, looper_data, loopers_data, row_data, rows_data};

use crate::parts::{AppParts, LooperParts, PropertyParts, RowParts};
use ak_action::{
    ElementsList, LooperPlan, PlanParts, PlanRow, Reaction, ReactionFault, ReactionList,
};
use ak_base::{Items, NoMemory, Text};
use ak_property::{PropertyRow, PropertyTable, RowFault};
use ak_roster::Mode;
use std::alloc::Global;

/// An application as it is described.
#[derive(Drop)]
pub struct AppText {
    /// Its path, which no other one has.
    pub path: Text,
    /// Its signature, which several may have.
    pub signature: Text,
    /// How often it may run at once.
    pub mode: Mode,
    /// The plans of its loopers, 1 to 8, its own first.
    pub loopers: Items<LooperPlan>,
}

/// The applications of these parts, in which every name is there.
pub(crate) fn described(alloc: Global, apps: Vec<AppParts>) -> Result<Vec<AppText>, NoMemory>
    requires { reads.AreWhole (apps_data apps.items) }
    ensures { IfOk result (λ texts. texts.items ≡ reads.described (apps_data apps.items)) }
{
    let mut texts = Vec::with_capacity(alloc, apps.len())?;
    for app in apps {
        texts.push(app_text(alloc, app)?)?;
    }
    Ok(texts)
}

fn app_text(alloc: Global, app: AppParts) -> Result<AppText, NoMemory>
    requires { All reads.IsWhole (app_data app).loopers }
    ensures { IfOk result (λ text. text ≡ reads.app_text (app_data app)) }
{
    let AppParts {
        path,
        signature,
        mode,
        loopers,
    } = app;
    let loopers = plans(alloc, loopers)?;
    Ok(AppText {
        path,
        signature,
        mode,
        loopers: Items::from_vec(loopers),
    })
}

fn plans(alloc: Global, loopers: Vec<LooperParts>) -> Result<Vec<LooperPlan>, NoMemory>
    requires { All reads.IsWhole (loopers_data loopers.items) }
    ensures { IfOk result (λ plans. plans.items ≡ reads.plans (loopers_data loopers.items)) }
{
    let mut plans = Vec::with_capacity(alloc, loopers.len())?;
    for looper in loopers {
        plans.push(plan(alloc, looper)?)?;
    }
    Ok(plans)
}

fn plan(alloc: Global, looper: LooperParts) -> Result<LooperPlan, NoMemory>
    requires { reads.IsWhole (looper_data looper) }
    ensures { IfOk result (λ plan. plan ≡ reads.plan_parts (looper_data looper)) }
{
    let parts = plan_parts(alloc, looper)?;
    Ok(plan_of(alloc, parts))
}

// The plan of parts with which nothing is wrong.
fn plan_of(alloc: Global, parts: PlanParts) -> LooperPlan
    requires { IsPlan parts }
    ensures { result ≡ parts }
{
    match LooperPlan::new(alloc, parts) {
        Ok(plan) => plan,
        Err(_) => unreachable!(),
    }
}

fn plan_parts(alloc: Global, looper: LooperParts) -> Result<PlanParts, NoMemory>
    requires { All reads.HasRoom (looper_data looper).rows }
    ensures { IfOk result (λ parts. parts ≡ reads.plan_parts (looper_data looper)) }
{
    let LooperParts {
        name,
        capacity,
        quit_refused,
        preferred,
        common,
        rows,
    } = looper;
    let rows = plan_rows(alloc, rows)?;
    Ok(PlanParts {
        name,
        capacity,
        quit_refused,
        preferred,
        common,
        rows: Items::from_vec(rows),
    })
}

fn plan_rows(alloc: Global, rows: Vec<RowParts>) -> Result<Vec<PlanRow>, NoMemory>
    requires { All reads.HasRoom (rows_data rows.items) }
    ensures { IfOk result (λ plans. plans.items ≡ reads.plan_rows (rows_data rows.items)) }
{
    let mut plans = Vec::with_capacity(alloc, rows.len())?;
    for row in rows {
        plans.push(plan_row(alloc, row)?)?;
    }
    Ok(plans)
}

fn plan_row(alloc: Global, row: RowParts) -> Result<PlanRow, NoMemory>
    requires { reads.HasRoom (row_data row) }
    ensures { IfOk result (λ plan. plan ≡ reads.plan_row (row_data row)) }
{
    let RowParts {
        name,
        next,
        suites,
        properties,
        filters,
        reactions,
    } = row;
    let (table, elements) = tables(alloc, properties)?;
    let reactions = reaction_list(alloc, reactions)?;
    Ok(PlanRow {
        name,
        next,
        suites: Items::from_vec(suites),
        table,
        elements,
        filters,
        reactions,
    })
}

// The properties, of which there are at most 64, and the elements of each.
fn tables(
    alloc: Global,
    properties: Vec<PropertyParts>,
) -> Result<(PropertyTable, ElementsList), NoMemory>
    requires { length properties.items ≤ row_limit }
    ensures table { IfOk result (λ x. x.0 ≡ reads.table_of properties.items) }
    ensures elements { IfOk result (λ x. x.1 ≡ reads.elements_of properties.items) }
{
    let mut table = PropertyTable::new(alloc);
    let mut all = Vec::with_capacity(alloc, properties.len())?;
    for property in properties {
        let PropertyParts { row, elements } = property;
        all.push(elements)?;
        add_row(&mut table, row)?;
    }
    Ok((table, ElementsList::from_vec(all)))
}

// One row more, of which there are fewer than 64.
fn add_row(table: &mut PropertyTable, row: PropertyRow) -> Result<(), NoMemory>
    requires { length table.old < row_limit }
    ensures { OnOk result (table.new ≡ table.old ++ row ∷ []) }
{
    match table.add_row(row) {
        Ok(()) => Ok(()),
        Err(fault) => {
            prove!(matches!(fault, RowFault::NoMemory));
            Err(NoMemory)
        }
    }
}

// The reactions, of which there are at most 64.
fn reaction_list(alloc: Global, reactions: Vec<Reaction>) -> Result<ReactionList, NoMemory>
    requires { length reactions.items ≤ reaction_limit }
    ensures { IfOk result (λ list. list ≡ reactions.items) }
{
    let mut list = ReactionList::new(alloc);
    for reaction in reactions {
        add_reaction(&mut list, reaction)?;
    }
    Ok(list)
}

// One reaction more, of which there are fewer than 64.
fn add_reaction(list: &mut ReactionList, reaction: Reaction) -> Result<(), NoMemory>
    requires { length list.old < reaction_limit }
    ensures { OnOk result (list.new ≡ list.old ++ reaction ∷ []) }
{
    match list.push(reaction) {
        Ok(()) => Ok(()),
        Err(fault) => {
            prove!(matches!(fault, ReactionFault::NoMemory));
            Err(NoMemory)
        }
    }
}
