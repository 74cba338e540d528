//! What holds of the list of all entries.

ghost use Rattle.ak_sequence.specs.Laws as law;
ghost use Rattle.ak_sequence.specs.Worlds as worlds;

use crate::worlds::{
    a_slot_is_filled_behind_its_last_item, items_are_dispatched_in_order,
    items_are_written_in_order, nothing_is_dispatched_before_it_is_written,
    nothing_is_dispatched_behind_the_rest, nothing_is_taken_before_it_is_filled,
    nothing_is_written_to_a_shut_port, worlds_are_sound,
};

/// Of all histories there is a merged list; and two lists that are merged of the same histories are the same list.
pub fn merged_is_one()
    ensures one { law.MergedIsOne }
    ensures there { law.OneIsMerged }
{}

/// Of a run, the stamps of each object's list rise; and no thread made two entries of one stamp, at whatever objects.
pub fn stamps_rise()
    ensures { law.RunsRise }
{}

/// Of a run, the entries of a merged list at one object, the roster, the reply book, a port or a desk, are just those of
/// that object's list, in the same order.
pub fn merged_has_each_history()
    ensures { law.MergedHasEachHistory }
{}

/// Of a run, the entries of a merged list by one thread, main, a looper or a session, are just those of its diary, in the
/// same order; and there are no entries by others.
pub fn merged_has_each_diary()
    ensures { law.MergedHasEachDiary }
{}

/// Of a run, a merged list is a run of the objects: each entry, one after the other, is a step of its object by that object's
/// own rules, from where nothing is launched; a looper acts only behind the launch that started it, and a desk is one of a
/// looper that was started; and a dispatch is of the item that the port accepted at its position.
pub fn merged_runs_objects()
    ensures { law.MergedRunsObjects }
{
    merged_runs_worlds();
}

/// Of a run, a merged list is a run of worlds: from where nothing is launched each entry, one after the other, is a step of
/// its object by that object's own rules; and what the loopers have in hand, have left and owe allows it, and goes on by it;
/// and it leaves the objects as the run's lists say: the roster, the slots, each port, and each desk with its count of dispatches.
pub fn merged_runs_worlds()
    ensures { worlds.MergedRunsWorlds }
{
    ak_desk::the_list_tells_the_handlers();
    ak_headline::no_fill_is_missing();
}

/// Of a run in which main made what it made past a time behind a session, at each object, no entry of that session stands
/// behind such a one of main's at the same object, in a merged list.
pub fn main_stays_behind_sessions()
    ensures { law.MergedIsBehind }
{
    merged_has_each_history();
}

/// Each run is one sequence: of its histories there is the merged list; it has each history and each diary; it is a run of
/// worlds; and what holds of all runs of worlds holds of it.
pub fn runs_are_sequences()
    ensures { worlds.RunsAreSequences }
{
    merged_is_one();
    merged_has_each_history();
    merged_has_each_diary();
    merged_runs_worlds();
    worlds_are_sound();
    nothing_is_dispatched_before_it_is_written();
    nothing_is_taken_before_it_is_filled();
    a_slot_is_filled_behind_its_last_item();
    items_are_written_in_order();
    items_are_dispatched_in_order();
    nothing_is_written_to_a_shut_port();
    nothing_is_dispatched_behind_the_rest();
}
