//! What holds of all hey lines.

ghost use Rattle.ak_hey.specs.Bracketed.{BracketsAreRead};
ghost use Rattle.ak_hey.specs.Kindred.{OneKindEach};
ghost use Rattle.ak_hey.specs.Laws as law;

/// Exactly what a line says is read of it. Any other line is refused at the first word with which the words
/// so far begin no hey line, or behind its last word where a hey line begins with all of them.
pub fn hey_lines_are_read()
    ensures said { law.SaidIsRead }
    ensures refused { law.RefusedAtFirstBad }
{}

/// The values of a line fit together exactly where any two of one name have one kind.
pub fn values_agree()
    ensures { OneKindEach }
{}

/// Exactly what brackets mean is read of them.
pub fn brackets_are_read()
    ensures { BracketsAreRead }
{}
