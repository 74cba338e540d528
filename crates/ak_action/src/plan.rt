ghost use Rattle.std.specs.Prelude.{◌≡◌, Some, Err, IfOk, IfSome, IfNone, IsOk};
ghost use Rattle.ak_action.specs.Plan.{IsPlan, plan_fault, looper_fault, names_fault};

use crate::action::ReactionList;
use crate::properties::ElementsList;
use ak_base::{CAPACITY_LIMIT, Items, NoMemory, Text};
use ak_filter::FilterList;
use ak_handler::HANDLER_LIMIT;
use ak_property::PropertyTable;
use std::alloc::Global;
use std::error::Error;
use std::fmt;
use std::marker::Model;

mod actions;
mod copies;
mod rows;
mod whole;

pub(crate) use rows::{next_place, place_named};
pub use whole::plans_are_whole;

/// How many suites of its own a handler may have.
pub const SUITE_LIMIT: usize = 16;

/// A handler as it is described.
#[derive(Drop)]
pub struct PlanRow {
    /// Its name, which in a plan is a word that no other handler has.
    pub name: Text,
    /// The name of its next handler. None means the looper; the looper itself has none.
    pub next: Option<Text>,
    /// Its own suites, in a plan at most 16.
    pub suites: Items<Text>,
    /// Its properties.
    pub table: PropertyTable,
    /// The elements of its properties, in the order of the table.
    pub elements: ElementsList,
    /// Its filters, in the order in which they run.
    pub filters: FilterList,
    /// Its reactions. The first one on a code counts.
    pub reactions: ReactionList,
}

/// A looper as it is described. `LooperPlan::new` tests it.
#[derive(Drop)]
pub struct PlanParts {
    /// Its name, which is that of its first handler.
    pub name: Text,
    /// How many items its port holds at a time.
    pub capacity: u32,
    /// Whether it refuses to quit.
    pub quit_refused: bool,
    /// The name of the preferred handler, if one is.
    pub preferred: Option<Text>,
    /// The common filters, in the order in which they run.
    pub common: FilterList,
    /// Its handlers, the looper itself first.
    pub rows: Items<PlanRow>,
}

/// Why a description is no plan. They are tested in this order.
#[derive(Clone, Copy, Debug, PartialEq, Eq)]
pub enum PlanFault {
    /// There is no handler, the first one has another name than the looper, or it has a next handler.
    BadLooper,
    /// The capacity is not from 1 to 1,000.
    BadCapacity,
    /// There are over 64 handlers, the looper counted.
    HandlerLimit,
    /// A handler's name is no word.
    BadName,
    /// Two handlers have one name.
    NameInUse,
    /// A next handler, or the preferred one, is none of the handlers.
    UnknownName,
    /// The next handlers lead back to a handler.
    ChainLoop,
    /// A handler has over 16 suites.
    SuiteLimit,
    /// Two properties of a handler have one name, or a property is of messages. Or the elements are not those
    /// of the properties, one list for each, in order and of its kind.
    BadTable,
    /// An action names a property that its handler does not have, or adds a number of another kind than the
    /// property's. Or it asks a handler, or its own looper without naming it, or it sets several values.
    BadAction,
}

impl fmt::Display for PlanFault {
    fn fmt<W: fmt::Write>(&self, f: &mut fmt::Formatter<W>) -> fmt::Result {
        match self {
            PlanFault::BadLooper => f.write_str("the first handler is not the looper"),
            PlanFault::BadCapacity => f.write_str("the capacity is not from 1 to 1,000"),
            PlanFault::HandlerLimit => f.write_str("there are over 64 handlers"),
            PlanFault::BadName => f.write_str("a name is no word"),
            PlanFault::NameInUse => f.write_str("two handlers have one name"),
            PlanFault::UnknownName => f.write_str("a handler that is named is not there"),
            PlanFault::ChainLoop => f.write_str("the next handlers lead back to a handler"),
            PlanFault::SuiteLimit => f.write_str("a handler has over 16 suites"),
            PlanFault::BadTable => f.write_str("the properties and the elements do not fit"),
            PlanFault::BadAction => f.write_str("an action does not fit its handler"),
        }
    }
}

impl Error for PlanFault {}

/// The plan of a looper: a description in which everything that is named is there. Contracts see its
/// parts.
#[derive(Drop)]
pub struct LooperPlan {
    alloc: Global,
    parts: PlanParts,
}

impl Model for LooperPlan {
    ghost use Rattle.ak_action.specs.contracts.plan.PlanParts as contracts;
    ghost use Rattle.ak_action.specs.declared.plan.PlanParts.{PlanParts};
    ghost use Rattle.ak_action.specs.Plan.{IsPlan};

    ghost Value = { PlanParts };

    ghost coded = { contracts.the_row.coded };

    ghost view = { λ p. p.parts };

    ghost invariant = { λ p. IsPlan p.parts };
}

impl LooperPlan {
    /// The plan of these parts. The faults are tested in the order of `PlanFault`; no other one comes. After
    /// an `Err` the parts are dropped. Takes no memory. The allocator is kept for copies.
    pub fn new(alloc: Global, parts: PlanParts) -> Result<LooperPlan, PlanFault>
        ensures refused { IfSome (plan_fault parts) (λ f. result ≡ Err f) }
        ensures only { IfNone (plan_fault parts) (IsOk result) }
        ensures ok { IfOk result (λ p. p ≡ parts) }
    {
        match parts.fault() {
            Some(fault) => Err(fault),
            None => Ok(LooperPlan { alloc, parts }),
        }
    }

    /// Its parts. Takes no memory.
    pub fn parts(&self) -> &PlanParts
        ensures value { result.now ≡ self.now }
        ensures is_plan { IsPlan self.now }
    {
        &self.parts
    }

    /// Its parts, given back. Takes no memory.
    pub fn into_parts(self) -> PlanParts
        ensures value { result ≡ self }
        ensures is_plan { IsPlan self }
    {
        self.parts
    }

    /// An equal plan. `NoMemory` where memory ran out.
    pub fn try_clone(&self) -> Result<LooperPlan, NoMemory>
        ensures { IfOk result (λ p. p ≡ self.now) }
    {
        Ok(LooperPlan {
            alloc: self.alloc,
            parts: self.parts.try_clone(self.alloc)?,
        })
    }
}

impl PlanParts {
    // Why they are no plan.
    fn fault(&self) -> Option<PlanFault>
        ensures { result ≡ plan_fault self.now }
    {
        let rows = self.rows.as_slice();
        if let Some(fault) = self.looper_fault(rows) {
            return Some(fault);
        }
        if let Some(fault) = self.names_fault(rows) {
            return Some(fault);
        }
        rows::rows_fault(rows)
    }

    // Of the looper itself, and of how many handlers there are.
    fn looper_fault(&self, rows: &[PlanRow]) -> Option<PlanFault>
        ensures { result ≡ looper_fault self.now rows.now }
    {
        if !rows::begin_with_looper(rows, &self.name) {
            return Some(PlanFault::BadLooper);
        }
        if self.capacity < 1 || self.capacity > CAPACITY_LIMIT {
            return Some(PlanFault::BadCapacity);
        }
        if rows.len() > HANDLER_LIMIT {
            return Some(PlanFault::HandlerLimit);
        }
        None
    }

    // Of the names, and the chains that they lead to.
    fn names_fault(&self, rows: &[PlanRow]) -> Option<PlanFault>
        ensures { result ≡ names_fault self.now rows.now }
    {
        if !rows::names_are_words(rows) {
            return Some(PlanFault::BadName);
        }
        if !rows::names_differ(rows) {
            return Some(PlanFault::NameInUse);
        }
        if !rows::names_are_there(rows) || !rows::may_be(rows, &self.preferred) {
            return Some(PlanFault::UnknownName);
        }
        if !rows::chains_end(rows) {
            return Some(PlanFault::ChainLoop);
        }
        None
    }
}
