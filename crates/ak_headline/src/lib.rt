//! What holds of every run that ended, whatever the schedule. A run is told by the lists of its objects, and by the
//! diaries of the threads that made them. Six laws say what they tell: what each port accepted is what its looper
//! dispatched, and then what it left; each message was dispatched as the rules say; each accepted waiting send got one
//! reply, the one that the rules make for it, and it is the same message all the way; no fill and no cancel of a slot is
//! missing; each slot that was opened comes to one end; and want of memory is told. Eight more say what the diaries tell
//! of each slot: who opened it, asked, sent on, filled it and took from it. There is no thread here, and no lock.
#![tactic(auto)]

mod laws;
mod tallies;

pub use laws::{
    each_slot_comes_to_one_end, each_waiting_send_got_one_reply, no_fill_is_missing,
    runs_are_accounted, runs_go_by_rule, want_of_memory_is_told,
};
pub use tallies::{
    loopers_pay, loopers_send_so, loopers_send_up, loopers_tally, main_asks_so, main_tallies,
    sessions_ask_so, sessions_tally,
};
