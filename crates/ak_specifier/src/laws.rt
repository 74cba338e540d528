//! What holds of all specifiers.

ghost use Rattle.ak_specifier.specs.Laws as law;

/// A specifier is read exactly where the message shows it.
pub fn specifiers_are_read_as_shown()
    ensures { law.ReadAsShown }
{}

/// What is written shows the specifier and is read as it, and once added it is the current one.
pub fn written_specifiers_are_read()
    ensures written { law.WrittenIsRead }
    ensures added { law.AddedIsCurrent }
{}

/// A pop leaves one specifier less.
pub fn a_pop_leaves_one_less()
    ensures { law.PopLeavesOneLess }
{}

/// A pop makes the specifier current that was added before.
pub fn a_pop_shows_the_one_before()
    ensures { law.PopShowsTheOneBefore }
{}
