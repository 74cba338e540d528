//! The handlers of a looper, the looper itself as the first of them. Each has a token that no other one ever
//! had, a name, and what it holds. Its next handler is asked where it does not take a message; every such
//! chain ends. Contracts see a list. Nothing here waits, and nothing is shared. (The Be Book, The Application
//! Kit, BLooper and BHandler.)
#![tactic(auto)]

mod changes;
mod fault;
mod laws;
mod next;
mod rows;
mod set;

pub use fault::HandlerFault;
pub use laws::{chains_are_whole, tokens_are_never_used_again};
pub use set::{HANDLER_LIMIT, HandlerSet, LOOPER};
