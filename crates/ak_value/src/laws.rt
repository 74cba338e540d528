//! What holds of all elements and commands.

ghost use Rattle.ak_value.specs.Laws as law;

/// What is chosen is one element or more, and lies within the list.
pub fn chosen_lie_within()
    ensures { law.ChosenLieWithin }
{}

/// The reverse forms choose what the forward forms choose on the reversed list, from 1 on. No form chooses by
/// an index, a reverse index, a count or an id below zero.
pub fn reverse_counts_from_the_end()
    ensures index { law.ReverseIsForward }
    ensures range { law.ReverseRangeIsForward }
    ensures ends { law.ReverseRangeEnds }
    ensures one { law.CountsFromOne }
    ensures below_zero { law.NoneBelowZero }
{}

/// Whatever commands are carried out, the ids rise from 1 up and are below the next one, which never falls.
/// No id is given twice.
pub fn ids_are_never_used_again()
    ensures rising { law.IdsStayRising }
    ensures once { law.NoIdIsUsedAgain }
{}

/// Each refusal comes exactly where its cause holds.
pub fn one_cause_a_refusal()
    ensures { law.OneCause }
{}
