ghost use Rattle.std.specs.Prelude.{◌≡◌, ◌++◌, ◌∷◌, [], ◌≤◌, ◌↔◌, length, IfOk, OnOk, OnErr, IsErrOf};
ghost use Rattle.ak_filter.specs.declared.list.TheConstants.{FILTER_LIMIT};
ghost use Rattle.ak_filter.specs.Limits.{filter_limit};

use crate::filter::Filter;
use ak_base::NoMemory;
use std::alloc::{AllocFailed, Global};
use std::error::Error;
use std::fmt;
use std::marker::Model;

/// How many filters a list may have.
pub const FILTER_LIMIT: usize = 32;

/// Why a filter was not added. They are tested in this order.
#[derive(Clone, Copy, Debug, PartialEq, Eq)]
pub enum FilterFault {
    /// There are 32 filters.
    FilterLimit,
    /// Memory ran out.
    NoMemory,
}

impl fmt::Display for FilterFault {
    fn fmt<W: fmt::Write>(&self, f: &mut fmt::Formatter<W>) -> fmt::Result {
        match self {
            FilterFault::FilterLimit => f.write_str("there are 32 filters"),
            FilterFault::NoMemory => f.write_str("no memory"),
        }
    }
}

impl Error for FilterFault {}

impl<T: Drop> From<AllocFailed<T>> for FilterFault {
    ghost use Rattle.std.specs.Prelude.{◌≡◌};
    ghost use Rattle.ak_filter.specs.declared.list.FilterFault.TheVariants.{NoMemory};

    ghost from_gives = { λ _ e. e ≡ NoMemory };

    fn from(_error: AllocFailed<T>) -> FilterFault {
        FilterFault::NoMemory
    }
}

/// Filters in the order in which they run, at most 32. Contracts see their list. (The Be Book, The
/// Application Kit, BHandler: FilterList().)
#[derive(Debug, Drop)]
pub struct FilterList {
    filters: Vec<Filter>,
}

impl Model for FilterList {
    ghost use Rattle.std.specs.Prelude.{◌≤◌, List, length};
    ghost use Rattle.ak_filter.specs.declared.filter.Filter.{Filter};
    ghost use Rattle.ak_filter.specs.Limits.{filter_limit};

    ghost Value = { List Filter };

    ghost view = { λ l. l.filters.items };

    ghost invariant = { λ l. length l.filters.items ≤ filter_limit };
}

impl FilterList {
    /// A list without filters. Takes no memory.
    pub fn new(alloc: Global) -> FilterList
        ensures { result ≡ [] }
    {
        FilterList {
            filters: Vec::new(alloc),
        }
    }

    /// Adds a filter at the end. `FilterLimit` at 32 filters. An `Err` changes nothing, and the filter is
    /// dropped. `NoMemory` where memory ran out. (The Be Book, The Application Kit, BHandler: AddFilter().)
    pub fn push(&mut self, filter: Filter) -> Result<(), FilterFault>
        ensures limit { FILTER_LIMIT ≡ filter_limit }
        ensures full { IsErrOf result FilterFault.FilterLimit ↔ (length self.old ≡ filter_limit) }
        ensures ok { OnOk result (self.new ≡ self.old ++ filter ∷ []) }
        ensures err { OnErr result (self.new ≡ self.old) }
    {
        if self.filters.len() >= FILTER_LIMIT {
            return Err(FilterFault::FilterLimit);
        }
        self.filters.push(filter)?;
        Ok(())
    }

    /// An equal list. `NoMemory` where memory ran out.
    pub fn try_clone(&self) -> Result<FilterList, NoMemory>
        ensures { IfOk result (λ l. l ≡ self.now) }
    {
        let filters = copied(*self.filters.allocator(), &self.filters)?;
        Ok(FilterList { filters })
    }

    /// The filters in their order. Takes no memory.
    pub fn as_slice(&self) -> &[Filter]
        ensures value { result.now ≡ self.now }
        ensures limit { length self.now ≤ filter_limit }
    {
        self.filters.as_slice()
    }
}

fn copied(alloc: Global, filters: &[Filter]) -> Result<Vec<Filter>, NoMemory>
    ensures { IfOk result (λ copies. copies.items ≡ filters.now) }
{
    let mut copies = Vec::with_capacity(alloc, filters.len())?;
    for filter in filters {
        copies.push(filter.try_clone()?)?;
    }
    Ok(copies)
}
