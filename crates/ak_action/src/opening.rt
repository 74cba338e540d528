ghost use Rattle.std.specs.Prelude.{◌≡◌, IfOk, length, option_and_then};
ghost use Rattle.ak_action.specs.Opening.{FitsPlace, Opens, contains, fits_dest, knows_loopers, names_in, names_loopers, reaction_knows_loopers, row_knows_loopers};
ghost use Rattle.ak_action.specs.OpeningInside.{described_row, described_with, nexts_from};
ghost use Rattle.ak_action.specs.Plan.{next_place, place_named};

use crate::action::{Action, Dest, Reaction};
use crate::plan::{LooperPlan, PlanParts, PlanRow, next_place, place_named};
use crate::row::DeskRow;
use crate::state::DeskState;
use ak_base::{Items, NoMemory, Text};
use ak_handler::HandlerSet;
use std::alloc::Global;

impl DeskState {
    /// The state in which the looper of the plan begins. It has the number `looper`, and its team is `team`.
    /// `names` are those of the application's loopers, of which the first has the number `first`. The
    /// handlers have the tokens 0, 1, 2 and so on, in the plan's order. The names have to be at most 8, to
    /// differ, and to have numbers below 32. The looper has to be the one of its name among them, and its
    /// actions may name these alone (`knows_loopers`). `NoMemory` where memory ran out.
    pub fn from_plan(
        alloc: Global,
        plan: LooperPlan,
        looper: u32,
        team: u32,
        first: u32,
        names: Items<Text>,
    ) -> Result<DeskState, NoMemory>
        requires { FitsPlace plan looper first names }
        ensures { IfOk result (λ s. Opens plan looper team first names s) }
    {
        let parts = plan.into_parts();
        let preferred = preferred_token(&parts);
        let nexts = next_tokens(alloc, parts.rows.as_slice())?;
        let rows = described(alloc, parts.rows.into_vec(), nexts)?;
        Ok(DeskState {
            looper,
            team,
            first,
            names,
            quit_refused: parts.quit_refused,
            handlers: HandlerSet::from_rows(alloc, rows, preferred)?,
            common: parts.common,
        })
    }
}

impl LooperPlan {
    /// Whether each looper that an action of the plan names is one of these. Takes no memory.
    pub fn knows_loopers(&self, names: &[Text]) -> bool
        ensures { result ≡ knows_loopers names.now self.now.rows }
    {
        self.parts()
            .rows
            .as_slice()
            .iter()
            .all(|row| row_knows_loopers(row, names))
    }
}

/// The names of the loopers of these plans, in their order: those that `DeskState::from_plan` takes. `NoMemory` where memory ran out.
pub fn looper_names(alloc: Global, plans: &[LooperPlan]) -> Result<Items<Text>, NoMemory>
    ensures { IfOk result (λ names. names ≡ names_in plans.now) }
{
    let mut names = Vec::new(alloc);
    for plan in plans {
        names.push(plan.parts().name.try_clone()?)?;
    }
    Ok(Items::from_vec(names))
}

fn row_knows_loopers(row: &PlanRow, names: &[Text]) -> bool
    ensures { result ≡ row_knows_loopers names.now row.now }
{
    row.reactions
        .as_slice()
        .iter()
        .all(|reaction| reaction_knows_loopers(reaction, names))
}

fn reaction_knows_loopers(reaction: &Reaction, names: &[Text]) -> bool
    ensures { result ≡ reaction_knows_loopers names.now reaction.now }
{
    reaction
        .actions
        .as_slice()
        .iter()
        .all(|action| names_loopers(action, names))
}

fn names_loopers(action: &Action, names: &[Text]) -> bool
    ensures { result ≡ names_loopers names.now action.now }
{
    match action {
        Action::Post { to, .. } | Action::Ask { to, .. } => fits_dest(to, names),
        Action::Reply { .. }
        | Action::Set { .. }
        | Action::Add { .. }
        | Action::Stop
        | Action::Quit => true,
    }
}

fn fits_dest(to: &Dest, names: &[Text]) -> bool
    ensures { result ≡ fits_dest names.now to.now }
{
    match to {
        Dest::Looper(name) => contains(names, name.as_bytes()),
        Dest::Own | Dest::Handler(_) | Dest::App(_) => true,
    }
}

pub(crate) fn contains(names: &[Text], name: &[u8]) -> bool
    ensures { result ≡ contains names.now name.now }
{
    names.iter().any(|other| other.as_bytes() == name)
}

// The token of the preferred handler, which is its place.
fn preferred_token(parts: &PlanParts) -> Option<u64>
    ensures { result ≡ option_and_then (place_named parts.now.rows) parts.now.preferred }
{
    match &parts.preferred {
        Some(name) => Some(place_named(parts.rows.as_slice(), name.as_bytes())? as u64),
        None => None,
    }
}

fn next_token(rows: &[PlanRow], place: usize) -> Option<u64>
    ensures { result ≡ next_place rows.now place }
{
    Some(next_place(rows, place)? as u64)
}

// The tokens of the next handlers, which are their places.
fn next_tokens(alloc: Global, rows: &[PlanRow]) -> Result<Vec<Option<u64>>, NoMemory>
    ensures { IfOk result (λ nexts. nexts.items ≡ nexts_from rows.now 0 (length rows.now)) }
{
    let mut nexts = Vec::with_capacity(alloc, rows.len())?;
    for place in 0..rows.len() {
        nexts.push(next_token(rows, place))?;
    }
    Ok(nexts)
}

// Each handler with its name, its next handler, and what it holds.
fn described(
    alloc: Global,
    rows: Vec<PlanRow>,
    nexts: Vec<Option<u64>>,
) -> Result<Vec<(Text, Option<u64>, DeskRow)>, NoMemory>
    ensures { IfOk result (λ described. described.items ≡ described_with rows.items nexts.items) }
{
    let described = rows
        .into_iter()
        .zip(nexts)
        .map(|(row, next)| described_row(row, next))
        .collect(alloc)?;
    Ok(described)
}

fn described_row(row: PlanRow, next: Option<u64>) -> (Text, Option<u64>, DeskRow)
    ensures { result ≡ described_row row next }
{
    let held = DeskRow {
        suites: row.suites,
        table: row.table,
        elements: row.elements,
        filters: row.filters,
        reactions: row.reactions,
    };
    (row.name, next, held)
}
