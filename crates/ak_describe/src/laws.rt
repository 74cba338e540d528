//! What holds of all lines that describe applications.

ghost use Rattle.ak_describe.specs.Laws as law;
ghost use Rattle.ak_describe.specs.Whole.{DescriptionsAreWhole};

/// Exactly what lines describe is read of them, and exactly their first fault is told.
pub fn descriptions_are_read()
    ensures described { law.DescribedIsRead }
    ensures first_fault { law.FirstFaultIsTold }
{}

/// Lines describe applications or have a first fault, and not both; what they describe is one, and their
/// first fault is one.
pub fn described_or_faulty()
    ensures one { law.OneOfBoth }
    ensures not_both { law.NotBoth }
    ensures one_description { law.OneDescription }
    ensures one_fault { law.OneFirstFault }
{}

/// Lines may be read as they come: the first pass goes on by one line, a fault that it finds is the first one
/// whichever lines come behind, and what all lines describe is what both passes make of them.
pub fn passes_make_descriptions()
    ensures line_by_line { law.GoesLineByLine }
    ensures faults_stay { law.FaultsStay }
    ensures both { law.BothMakeIt }
{}

/// Each name that lines give to be found by others stands in a handler that they give.
pub fn names_have_places()
    ensures { law.NamesHavePlaces }
{}

/// What lines describe is whole: at most 16 applications, whose paths differ, with 1 to 8 loopers each, whose
/// names differ; the first of them keeps 2 messages or more; each looper is a plan, each one that an action
/// names is there, and whom a looper asks is described behind it. An action names an application by the number
/// of a team, a signature or a name. So a roster and the loopers' desks take it as it is.
pub fn descriptions_are_whole()
    ensures { DescriptionsAreWhole }
{}
