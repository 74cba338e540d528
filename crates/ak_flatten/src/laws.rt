ghost use Rattle.ak_flatten.specs.Laws.{OneSpelling, SpelledOrFaulty, WrittenIsRead};

/// No bytes are the flat text of two messages.
pub fn one_spelling()
    ensures { OneSpelling }
{}

/// Of any bytes exactly one holds: they are the flat text of a message, or they have a first fault.
pub fn spelled_or_faulty()
    ensures { SpelledOrFaulty }
{}

/// What is written of a message, in at most 4,096 bytes, is the flat text of that message with nothing
/// popped, at any depth.
pub fn written_is_read()
    ensures { WrittenIsRead }
{}
