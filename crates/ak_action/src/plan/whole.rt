ghost use Rattle.ak_action.specs.Whole.{PlansAreWhole};

/// What every plan is. Its looper is the first of at most 64 handlers, whose names are words and differ. Each
/// next handler and the preferred one is among them. The handlers that it opens are handlers of a looper, so
/// that each chain of next handlers ends. The port keeps from 1 to 1,000 messages, and no handler has over 16
/// suites. Each property has elements of its kind, which is not that of messages, and a name of its own.
pub fn plans_are_whole()
    ensures { PlansAreWhole }
{}
