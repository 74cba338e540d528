//! The elements of a property: values of one kind, each with a name and an id that is never used again.
//! A scripting command gets, sets, counts, creates or deletes those that the form of its specifier
//! chooses. Nothing here waits, and nothing is shared. (The Be Book, The Application Kit, Scripting.)
#![tactic(auto)]

mod access;
mod choice;
mod elements;
mod fault;
mod laws;

pub use elements::{ELEMENT_LIMIT, Elements, ID_LIMIT};
pub use fault::ElementFault;
pub use laws::{
    chosen_lie_within, ids_are_never_used_again, one_cause_a_refusal, reverse_counts_from_the_end,
};
