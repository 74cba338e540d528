//! What holds of every run of worlds: entry after entry, from where nothing is launched.

ghost use Rattle.ak_sequence.specs.Worlds as law;

/// At each moment the world is sound: each slot that an accepted item owes is filled, or open and in exactly one place, and
/// none of them is cancelled; in each place there is an item that owes the slot; and each looper holds in order what it took
/// and did not dispatch.
pub fn worlds_are_sound()
    ensures { law.WorldsAreSound }
{}

/// The world in which nothing is launched is sound, and of a sound world each entry makes a sound one.
pub fn each_step_keeps_a_world_sound()
    ensures first { law.FirstIsSound }
    ensures steps { law.StepsKeepSound }
{}

/// Of a sound world an entry makes one world alone; so from where nothing is launched a list of entries leads to one world.
pub fn a_step_leads_to_one_world()
    ensures step { law.StepIsOne }
    ensures run { law.WorldIsOne }
{
    ak_desk::an_entry_tells_its_reply();
}

/// A port that is shut stays shut, whatever entry comes.
pub fn a_shut_port_stays_shut()
    ensures { law.ShutStaysShut }
{}

/// Before a looper dispatches at a position, its port accepted an item at that position.
pub fn nothing_is_dispatched_before_it_is_written()
    ensures { law.OfWorlds law.IsDispatchedAfterWritten }
{}

/// What a looper dispatches at a position is the item that its port accepted at that position, before.
pub fn each_dispatch_is_of_its_item()
    ensures { law.EachIsOfItsItem }
{}

/// Before a reply is taken from a slot, the slot was filled.
pub fn nothing_is_taken_before_it_is_filled()
    ensures { law.OfWorlds law.IsTakenAfterFilled }
{}

/// A slot is filled by the looper whose port accepted the last item that owes it: behind the dispatch of that item, or behind
/// the entry that took the rest of that port, where the item is never dispatched.
pub fn a_slot_is_filled_behind_its_last_item()
    ensures { law.OfWorlds law.IsFilledBehindTheLast }
{}

/// What a port accepts first has the lesser position.
pub fn items_are_written_in_order()
    ensures { law.OfWorlds law.IsWrittenInOrder }
{}

/// Before a looper dispatches at a position, it dispatched at each lesser one; and behind that, only at greater ones.
pub fn items_are_dispatched_in_order()
    ensures { law.OfWorlds law.IsDispatchedInOrder }
{}

/// Behind the entry that shuts a port, the port accepts nothing.
pub fn nothing_is_written_to_a_shut_port()
    ensures { law.OfWorlds law.IsNoneWrittenWhenShut }
{}

/// Behind the entry that takes the rest of a port, its looper dispatches nothing.
pub fn nothing_is_dispatched_behind_the_rest()
    ensures { law.OfWorlds law.IsNoneDispatchedBehindTheRest }
{}
