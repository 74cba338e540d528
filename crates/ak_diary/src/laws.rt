//! What the diary of a looper's thread tells of the lists of its port and of its desk.

ghost use Rattle.ak_diary.specs.Laws as law;

/// The messages that a looper dispatched, followed by those that it left, are exactly those that its port accepted, in
/// order and each once. It took the rest of its port once, and behind that nothing was written or taken. All that it had
/// taken before it had dispatched, so what it left is that rest.
pub fn accepted_is_dispatched_then_left()
    ensures { law.AcceptedIsDispatchedThenLeft }
{
    ak_port::takes_go_on();
    ak_port::ports_stay_within_limits();
    ak_port::nothing_comes_after_the_rest();
    ak_desk::the_dispatches_are_its_own();
}

/// Each message of a looper was dispatched as the rules say for the handlers at that moment: it is the one that the
/// port accepted at its position; it went where the rules send it, in the state that the list before it leads to; what
/// came of it is what they make of it; and exactly one reply goes with it. Or there was no memory to begin with it, and
/// nothing was done.
pub fn each_is_dispatched_by_rule()
    ensures { law.EachIsDispatchedByRule }
{
    accepted_is_dispatched_then_left();
    ak_desk::the_list_tells_the_handlers();
    ak_desk::an_entry_tells_its_reply();
}
