//! A run as one sequence. The list of all its entries, by their stamps, is the one such list; it has the list of each
//! object and the diary of each thread; and entry after entry it is a run of one machine, whose state is a world: all
//! objects at one moment, and what each looper has in hand, has left and owes. There is no thread here, and no lock.
#![tactic(auto)]

mod laws;
mod worlds;

pub use laws::{
    main_stays_behind_sessions, merged_has_each_diary, merged_has_each_history, merged_is_one,
    merged_runs_objects, merged_runs_worlds, runs_are_sequences, stamps_rise,
};
pub use worlds::{
    a_shut_port_stays_shut, a_slot_is_filled_behind_its_last_item, a_step_leads_to_one_world,
    each_dispatch_is_of_its_item, each_step_keeps_a_world_sound, items_are_dispatched_in_order,
    items_are_written_in_order, nothing_is_dispatched_before_it_is_written,
    nothing_is_dispatched_behind_the_rest, nothing_is_taken_before_it_is_filled,
    nothing_is_written_to_a_shut_port, worlds_are_sound,
};
