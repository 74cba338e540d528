//! What the diaries of a run's threads tell of each slot.

ghost use Rattle.ak_headline.specs.Diaries as diaries;

/// What main's diary tells of a slot: each ask that was written opened it and took from it, and main filled none.
pub fn main_tallies()
    ensures { diaries.MainTallies }
{}

/// What a session's diary tells of a slot: the same as main's, each ask that was written opened it and took from it, and
/// the session filled none.
pub fn sessions_tally()
    ensures { diaries.SessionsTally }
{}

/// What a looper's diary tells of a slot: each ask that was written opened it and took from it; and each item that owes
/// it was sent on, or the slot was filled or found to be settled.
pub fn loopers_tally()
    ensures { diaries.LoopersTally }
{
    ak_route::forwards_are_to_later_loopers();
    ak_diary::accepted_is_dispatched_then_left();
}

/// What a looper writes with a slot from which it takes nothing goes to a looper of a greater number.
pub fn loopers_send_up()
    ensures { diaries.LoopersSendUp }
{
    ak_route::forwards_are_to_later_loopers();
    ak_diary::accepted_is_dispatched_then_left();
}

/// What a looper fills a slot with is the text of the reply that the rules make for the item that owes it, with the
/// handlers as its desk's list makes them there, or of the error in its place where it is too long. It is the text of
/// no reply where there was no memory for that text, which is so at its last dispatch alone, and for an item that was
/// left.
pub fn loopers_pay()
    ensures { diaries.LoopersPay }
{
    ak_diary::accepted_is_dispatched_then_left();
}

/// Each item that a looper wrote for which someone waits it asked, or sent on for a dispatch of its desk, as it was but
/// for its target and what is popped of it; and each dispatch that was sent on has such a write.
pub fn loopers_send_so()
    ensures { diaries.LoopersSendSo }
{
    ak_route::forwards_are_to_later_loopers();
    ak_route::following_only_pops();
}

/// Each item that main wrote for which someone waits it asked.
pub fn main_asks_so()
    ensures { diaries.MainAsksSo }
{}

/// Each item that a session wrote for which someone waits it asked.
pub fn sessions_ask_so()
    ensures { diaries.SessionsAskSo }
{}
