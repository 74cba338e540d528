//! The laws of runs that ended.

ghost use Rattle.ak_headline.specs.Headline as headline;

use crate::tallies::{
    loopers_pay, loopers_send_so, loopers_send_up, loopers_tally, main_asks_so, main_tallies,
    sessions_ask_so, sessions_tally,
};

/// The messages that each looper dispatched, followed by those that it left, are exactly what its port accepted, in
/// order and each once.
pub fn runs_are_accounted()
    ensures { headline.RunsAreAccounted }
{
    ak_diary::accepted_is_dispatched_then_left();
}

/// Each message was dispatched as the rules say for the handlers of its looper at that moment.
pub fn runs_go_by_rule()
    ensures { headline.RunsGoByRule }
{
    ak_diary::each_is_dispatched_by_rule();
}

/// Want of memory is told: where a looper gave a dispatch up, or the last word of one tells that memory ran out, the
/// looper is among those that found no memory, and dispatched nothing more. Each other dispatch is what the rules make
/// of its message with memory at every place.
pub fn want_of_memory_is_told()
    ensures { headline.RunsTellWantOfMemory }
{
    ak_diary::each_is_dispatched_by_rule();
}

/// By what the diaries tell of each slot, each accepted waiting send got one reply.
fn tallies_tell_replies()
    ensures { headline.TalliesTellReplies }
{
    ak_diary::accepted_is_dispatched_then_left();
    ak_diary::each_is_dispatched_by_rule();
    ak_desk::the_list_tells_the_handlers();
    ak_desk::an_entry_tells_its_reply();
}

/// Each accepted waiting send got one reply, the one that the rules make for it, by the looper to which it came last; it
/// took the reply who had asked, and each looper on the way got the message that was asked.
pub fn each_waiting_send_got_one_reply()
    ensures { headline.RunsAnswer }
{
    tallies_tell_replies();
    loopers_tally();
    loopers_send_up();
    loopers_pay();
    main_tallies();
    sessions_tally();
    loopers_send_so();
    main_asks_so();
    sessions_ask_so();
}

/// No fill and no cancel of a run is missing: the diaries of main, of each looper and of each session have no sight of
/// the reply book without an entry. So each slot that one of them was to fill or to cancel it filled or cancelled itself.
pub fn no_fill_is_missing()
    ensures { headline.RunsMissNone }
{
    ak_diary::accepted_is_dispatched_then_left();
    ak_diary::each_is_dispatched_by_rule();
    ak_desk::the_list_tells_the_handlers();
    ak_desk::an_entry_tells_its_reply();
    loopers_tally();
    loopers_send_up();
    loopers_pay();
    main_tallies();
    sessions_tally();
    loopers_send_so();
    main_asks_so();
    sessions_ask_so();
}

/// Each slot that was opened comes to one end: it got one reply; or it was withdrawn, which is that its opener cancelled
/// it, nobody filled it, and no port accepted an item that owes it.
pub fn each_slot_comes_to_one_end()
    ensures { headline.RunsEndSlots }
{
    ak_diary::accepted_is_dispatched_then_left();
    ak_diary::each_is_dispatched_by_rule();
    ak_desk::the_list_tells_the_handlers();
    ak_desk::an_entry_tells_its_reply();
    loopers_tally();
    loopers_send_up();
    loopers_pay();
    main_tallies();
    sessions_tally();
    loopers_send_so();
    main_asks_so();
    sessions_ask_so();
}
