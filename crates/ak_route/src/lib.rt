//! Routing: who of a looper's handlers gets a message, and as what. The first target, where the
//! specifiers lead from there, what the filters make of it, and which handler of the chain takes it.
//! It works in place, and has no answer for want of memory. Nothing here waits, and nothing is shared. (The
//! Be Book, The Application Kit, BLooper, BMessageFilter and Scripting.)
#![tactic(auto)]

mod filtering;
mod laws;
mod matching;
mod outcome;
mod receiving;
mod resolving;
mod routing;

pub use ak_property::HandlerRow;
pub use laws::{
    filters_run_at_most_once, following_only_pops, forwards_are_to_later_loopers,
    no_specifiers_no_steps, resolved_handlers_are_there, routes_pop_within, takers_are_there,
    takers_lie_within,
};
pub use matching::{BuiltInName, built_in_of, is_built_in_name};
pub use outcome::{Place, Route, Taker};
pub use routing::route;
