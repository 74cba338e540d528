//! A plain test of the lists of a run that has ended, as a reader of them would make it: entries are counted and compared, and
//! no definition of the proofs is looked at. Of each looper, whether what its port accepted is what it dispatched, and then what
//! it left; and whether a new desk of its plan, on which its edits and messages are carried out once more, answers and routes as its
//! list tells, with the same words and the same mark of its end. Of each slot, whether who waited on it had one reply, and that the
//! one that the new desk makes. Programs and tests tell what is faulty by it.
#![tactic(auto)]

mod accounts;
mod faults;
mod fresh;
mod heard;
mod openings;
mod replays;
mod replies;
mod slots;
mod stop;
mod telling;

pub use accounts::{Account, account_of, tell_account};
pub use faults::tell_faults;
pub use replays::may_stamp;
pub use slots::{SlotAccount, count_answered, slot_accounts, slot_of};
pub use telling::{Told, tell};
