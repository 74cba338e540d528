//! What holds of all seats.

ghost use Rattle.ak_turn.specs.Laws as law;
ghost use Rattle.ak_turn.specs.Entries.{maker};
ghost use Rattle.ak_turn.specs.Noted as noting;

use crate::book::Book;

/// Calls of one seat, one after another. Where it has seen and then has seen, it has seen. Where it has seen
/// and then has called, it has called. What a thread made is what is known of it. A seat that knows its list
/// has at the places of its own just what its thread made.
pub fn fronts_go_on<B: Book>()
    ensures seen { law.SeenThenSeen B.Opening B.Entry (maker B.plain B.by) }
    ensures called { law.SeenThenCalled B.Opening B.Entry (maker B.plain B.by) }
    ensures made { law.KnownIsMade B.Entry (maker B.plain B.by) }
    ensures own { law.OwnIsMade B.Opening B.Entry (maker B.plain B.by) }
{}

/// The first seat of a lock knows its list. Where a head that knows its list is split for a new thread, so does
/// each of the two seats.
pub fn new_seats_know<B: Book>()
    ensures first { law.FirstSeatsKnow B.Opening B.Entry (maker B.plain B.by) }
    ensures split { law.SplitSeatsKnow B.Opening B.Entry (maker B.plain B.by) }
    ensures split_head { law.SplitHeadsKnow B.Opening B.Entry (maker B.plain B.by) }
{}

/// What a thread makes from one of its seats to a later one. It makes nothing where the seat has seen, and one entry
/// where it has called. Who makes some and then makes others makes the others behind them. What the front has by the
/// thread goes on by what it makes, and so does what it has made. A thread whose seat began with nothing of its own had
/// made nothing before.
pub fn makings_go_on<B: Book>()
    ensures seen { law.SeenMakesNothing B.Opening B.Entry (maker B.plain B.by) }
    ensures called { law.CalledMakesOne B.Opening B.Entry (maker B.plain B.by) }
    ensures both { law.MakesThenMakes B.Opening B.Entry (maker B.plain B.by) }
    ensures made { law.MadeGoesOn B.Opening B.Entry (maker B.plain B.by) }
    ensures more { law.MakesMore B.Opening B.Entry (maker B.plain B.by) }
    ensures before { law.NothingBefore B.Opening B.Entry (maker B.plain B.by) }
{}

/// What a thread did at an object, as its entries with all that stood before each. They are the entries that it made, and
/// each stands so in the list. A seat that has seen notes nothing more, and one that has called its new entry.
pub fn what_was_done_is_noted<B: Book>()
    ensures made { noting.NotedIsMade B.Entry (maker B.plain B.by) }
    ensures stands { noting.NotedStands B.Entry (maker B.plain B.by) }
    ensures seen { noting.SeenNotesNothing B.Opening B.Entry (maker B.plain B.by) }
    ensures called { noting.CalledNotesOne B.Opening B.Entry (maker B.plain B.by) }
{}
