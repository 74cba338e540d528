//! Filters: which messages one admits, and lists of at most 32. What a filter does with a message that it
//! admits is for routing to say. Nothing here waits, and nothing is shared. (The Be Book, The Application
//! Kit, BMessageFilter.)
#![tactic(auto)]

mod filter;
mod list;

pub use filter::{DeliveryIs, Filter, Head, SourceIs, admits};
pub use list::{FILTER_LIMIT, FilterFault, FilterList};
