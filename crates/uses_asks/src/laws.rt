//! What holds of an ask and of what a looper's thread did with its item.

ghost use Rattle.uses_asks.specs.Laws as law;

use ak_desk::an_entry_tells_its_reply;
use ak_port::{ports_stay_within_limits, slots_are_settled_once, written_is_taken_or_pending};

/// An ask and a looper's thread that served its slot, at one port and one reply book. The text that the ask took is
/// that of the reply which was filled in, which is the one reply of the desk's entry, made to fit. The slot was settled
/// once and taken once. Where the looper took the item at the position at which the ask wrote it, it dispatched the
/// ask's own item.
pub fn an_ask_has_one_reply()
    ensures { law.AnAskHasOneReply }
{
    written_is_taken_or_pending();
    slots_are_settled_once();
    an_entry_tells_its_reply();
}

/// Where a port's list tells that it accepts one item, what was written to it is one item.
pub fn one_item_is_alone()
    ensures { law.OneItemAlone }
{
    written_is_taken_or_pending();
    ports_stay_within_limits();
}
