//! What holds of every taker of a port.

ghost use Rattle.ak_port.specs.TakerLaws as law;

/// A take adds what it hands out to what was taken before it. No other thread takes, and no other call of the taker's
/// own. So what was written is what the taker's seat knows as taken, and then what is pending. The taker's own entries,
/// each with what stood before it, tell all that was taken, and it is as many items as the port counts.
pub fn takes_go_on()
    ensures more { law.TakesGoOn }
    ensures others { law.OthersTakeNothing }
    ensures own { law.OwnCallsTakeNothing }
    ensures at_turn { law.OwnTurnsTakeNothing }
    ensures pending { law.TakenThenPending }
    ensures told { law.TakesAreTold }
    ensures counted { law.TakenAreCounted }
{}

/// A seat that was just split for a port's taker can take, and the taker's own still can that one was split from.
pub fn new_seats_can_take()
    ensures new { law.NewSeatsTake }
    ensures old { law.SplitSeatsTake }
{}

/// After the rest was taken nothing more is written, taken or pending: what was taken is all that the port ever
/// accepted.
pub fn nothing_comes_after_the_rest()
    ensures { law.NothingAfterRest }
{}
