//! What holds of every input and of every run.
ghost use Rattle.ak_kit.specs.Laws.{InputsAreRead, RunsAreSo};

use ak_plain::entries_are_plain;
use ak_script::scripts_are_read;
use ak_sequence::runs_are_sequences;

/// Exactly the script that an input is the text of is read of it, and exactly its first refusal is told.
pub(crate) fn inputs_are_read()
    ensures { InputsAreRead }
{
    scripts_are_read();
}

/// Each run is one sequence, and its entries are plain.
pub(crate) fn runs_are_so()
    ensures { RunsAreSo }
{
    runs_are_sequences();
    entries_are_plain();
}
