//! What holds of every port.

ghost use Rattle.ak_port.specs.PortLaws as law;

/// What was written is what was handed out, then what is pending, in order and each once. What was handed out
/// is the beginning of what was written, as long as was taken.
pub fn written_is_taken_or_pending()
    ensures each_once { law.EachOnce }
    ensures oldest_first { law.OldestFirst }
{}

/// Nothing is written after a port was shut.
pub fn nothing_is_written_after_shut()
    ensures { law.NothingAfterShut }
{}

/// No more is taken than was written, no more written than the port's life, no more pending than it holds.
pub fn ports_stay_within_limits()
    ensures { law.WithinLimits }
{}

/// In each state that is within its limits one answer of a write is legal: the one that the tests in their
/// order find.
pub fn a_write_has_one_answer()
    ensures one { law.OneAnswer }
    ensures some { law.SomeAnswer }
{}
