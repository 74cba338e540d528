//! Messages: a code and fields, each a name with one or more values of one kind, in the order of adding.
//! A value may be a message itself, so a message is a tree, at most 16 messages deep.
//! Contracts see a message as a record of lists. Nothing here waits, and nothing is shared. (The Be Book, The
//! Application Kit, BMessage.)
#![tactic(auto)]

mod address;
mod fault;
mod field_ref;
mod kind;
mod message;
mod specifier;

pub use address::{Address, Target};
pub use fault::{AddFault, FindFault, RemoveFault, ReplaceFault};
pub use field_ref::FieldRef;
pub use kind::Kind;
pub use message::{
    DEPTH_LIMIT, FIELD_LIMIT, Field, Message, VALUE_LIMIT, Value, added_values_are_found,
};
pub use specifier::{At, AtRef, Specifier, SpecifierRef};
