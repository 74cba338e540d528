//! What holds of all desks.

ghost use Rattle.ak_desk.specs.Laws as law;

/// What holds of every list that the machine of a desk allows. Each entry stands on the state that those before
/// it leave. A dispatched message has as its position how many were dispatched before it. A refused edit
/// changes nothing. The opening and the list tell the state.
pub fn the_list_tells_the_handlers()
    ensures follows { law.EachEntryFollows }
    ensures positions { law.PositionsCount }
    ensures refused { law.RefusedEditsChangeNothing }
    ensures one { law.StateIsOne }
{
    ak_action::words_replay();
}

/// Of an entry that the machine allows, the state before, where the message went, the item and the words
/// tell whether the looper is to end, the state after and the reply. The word of a message that was sent on
/// is one of four, and tells its reply; none of the four is that its port was full.
pub fn an_entry_tells_its_reply()
    ensures tells { law.EntryTellsReply }
    ensures forward { law.ForwardTellsReply }
{
    ak_action::words_replay();
}

/// Of a list that the machine allows, how many messages were dispatched, and whether one was given up, is
/// told by the entries that the looper's own thread made.
pub fn the_dispatches_are_its_own()
    ensures { law.DispatchesAreOwn }
{}

/// Of the values of a reply and of suites that fit nothing is left out, and a value that fits a field is held.
pub fn what_fits_is_told()
    ensures values { law.AllValuesAreTold }
    ensures suites { law.AllSuitesAreTold }
    ensures held { law.ShallowIsHeld }
{}

/// A message that the looper's own thread begins and ends in one turn at a shared desk is dispatched there:
/// its entry is the last of the seat's front, which goes on from all that the seat had seen by entries of
/// others alone, and is a list that the machine allows.
pub fn a_turn_dispatches()
    ensures { law.ATurnDispatches }
{}

/// A message that the looper's own thread gives up in one turn at a shared desk is given up there, as one that
/// it begins and ends is dispatched: its entry is the last of the seat's front, which goes on from all that the
/// seat had seen by entries of others alone, and is a list that the machine allows.
pub fn a_turn_gives_up()
    ensures { law.ATurnGivesUp }
{}
