ghost use Rattle.std.specs.Prelude.{◌≡◌, ◌≤◌, length, is_none, option_and_then, Some};
ghost use Rattle.std.specs.List.{position};
ghost use Rattle.ak_action.specs.Plan.{actions_fit, begin_with_looper, rows_fault, suites_fit, tables_fit, names_are_words, names_differ, names_are_there, may_be, chains_end, place_named, next_place, place_after, fits_table, kinds_fit, fits_kind, is_named, table_names_differ};

use super::actions::fits_actions;
use super::{PlanFault, PlanRow, SUITE_LIMIT};
use ak_base::{Text, is_word};
use ak_message::Kind;
use ak_property::PropertyRow;
use ak_value::Elements;

// Of each handler by itself: its suites, its properties, and its actions.
pub(super) fn rows_fault(rows: &[PlanRow]) -> Option<PlanFault>
    ensures { result ≡ rows_fault rows.now }
{
    if !suites_fit(rows) {
        return Some(PlanFault::SuiteLimit);
    }
    if !tables_fit(rows) {
        return Some(PlanFault::BadTable);
    }
    if !actions_fit(rows) {
        return Some(PlanFault::BadAction);
    }
    None
}

fn suites_fit(rows: &[PlanRow]) -> bool
    ensures { result ≡ suites_fit rows.now }
{
    rows.iter()
        .all(|row| row.suites.as_slice().len() <= SUITE_LIMIT)
}

fn tables_fit(rows: &[PlanRow]) -> bool
    ensures { result ≡ tables_fit rows.now }
{
    rows.iter().all(|row| fits_table(row))
}

fn actions_fit(rows: &[PlanRow]) -> bool
    ensures { result ≡ actions_fit rows.now }
{
    rows.iter().all(|row| fits_actions(row))
}

// ---- names
// The looper is the first one, and has no next handler.
pub(super) fn begin_with_looper(rows: &[PlanRow], name: &Text) -> bool
    ensures { result ≡ begin_with_looper rows.now name.now }
{
    match rows.first() {
        Some(row) => row.next.is_none() && row.name.as_bytes() == name.as_bytes(),
        None => false,
    }
}

pub(super) fn names_are_words(rows: &[PlanRow]) -> bool
    ensures { result ≡ names_are_words rows.now }
{
    rows.iter().all(|row| is_word(row.name.as_bytes()))
}

pub(super) fn names_differ(rows: &[PlanRow]) -> bool
    ensures { result ≡ names_differ rows.now }
{
    let mut rest = rows;
    while let Some((row, others)) = rest.split_first() {
        if place_named(others, row.name.as_bytes()).is_some() {
            return false;
        }
        rest = others;
    }
    true
}

// The place of the handler of that name.
pub(crate) fn place_named(rows: &[PlanRow], name: &[u8]) -> Option<usize>
    ensures { result ≡ place_named rows.now name.now }
{
    rows.iter().position(|row| row.name.as_bytes() == name)
}

// None, or one of the handlers.
pub(super) fn may_be(rows: &[PlanRow], name: &Option<Text>) -> bool
    ensures { result ≡ may_be rows.now name.now }
{
    match name {
        Some(name) => place_named(rows, name.as_bytes()).is_some(),
        None => true,
    }
}

pub(super) fn names_are_there(rows: &[PlanRow]) -> bool
    ensures { result ≡ names_are_there rows.now }
{
    rows.iter().all(|row| may_be(rows, &row.next))
}

// ---- chains
// The place of the next handler of the one at that place: the looper where it names none, and of the looper
// none.
pub(crate) fn next_place(rows: &[PlanRow], place: usize) -> Option<usize>
    ensures { result ≡ next_place rows.now place }
{
    if place == 0 {
        return None;
    }
    match &rows.get(place)?.next {
        Some(name) => place_named(rows, name.as_bytes()),
        None => Some(0),
    }
}

// Each chain has ended after as many steps as there are handlers.
#[tactic(auto, using(crate::proofs::Chained::ending))]
pub(super) fn chains_end(rows: &[PlanRow]) -> bool
    ensures { result ≡ chains_end rows.now }
{
    for place in 0..rows.len() {
        if !ends(rows, place) {
            return false;
        }
    }
    true
}

#[tactic(auto, using(crate::proofs::Chained::stepping))]
fn ends(rows: &[PlanRow], place: usize) -> bool
    ensures { result ≡ is_none (place_after rows.now (length rows.now) (Some place)) }
{
    let mut at = Some(place);
    for _ in 0..rows.len() {
        at = next_of(rows, at);
    }
    at.is_none()
}

// The place of the next handler of the one at that place, if there is one there.
fn next_of(rows: &[PlanRow], at: Option<usize>) -> Option<usize>
    ensures { result ≡ option_and_then (next_place rows.now) at }
{
    match at {
        Some(place) => next_place(rows, place),
        None => None,
    }
}

// ---- properties
fn fits_table(row: &PlanRow) -> bool
    ensures { result ≡ fits_table row.now }
{
    table_names_differ(row.table.as_slice())
        && kinds_fit(row.table.as_slice(), row.elements.as_slice())
}

fn table_names_differ(rows: &[PropertyRow]) -> bool
    ensures { result ≡ table_names_differ rows.now }
{
    let mut rest = rows;
    while let Some((row, others)) = rest.split_first() {
        if is_named(others, row.name.as_bytes()) {
            return false;
        }
        rest = others;
    }
    true
}

// Whether a property has that name.
pub(super) fn is_named(rows: &[PropertyRow], name: &[u8]) -> bool
    ensures { result ≡ is_named rows.now name.now }
{
    rows.iter().any(|row| row.name.as_bytes() == name)
}

// Each property has its elements, which are of its kind, and is not of messages.
fn kinds_fit(rows: &[PropertyRow], elements: &[Elements]) -> bool
    ensures { result ≡ kinds_fit rows.now elements.now }
{
    let Some((row, rows)) = rows.split_first() else {
        return elements.is_empty();
    };
    let Some((first, elements)) = elements.split_first() else {
        return false;
    };
    fits_kind(row, first) && kinds_fit(rows, elements)
}

fn fits_kind(row: &PropertyRow, elements: &Elements) -> bool
    ensures { result ≡ fits_kind row.now elements.now }
{
    elements.kind() == row.kind && row.kind != Kind::Message
}
