//! Every entry of a run is plain: what is launched is a path or a signature, what is looked up a number of a team, a signature
//! or a name, what fills a slot or answers an ask the flat text of a message, and so on. So each line of its journal is read
//! back as its entry. There is no thread here, and no lock.
#![tactic(auto)]

mod laws;

pub use laws::{entries_are_plain, merged_is_plain};
