//! What holds of the entries of every run.

ghost use Rattle.ak_plain.specs.Laws as law;

/// Of a run of a script, at whole applications whose loopers' desks were opened as they describe, each entry is plain.
pub fn entries_are_plain()
    ensures { law.EntriesArePlain }
{
    ak_action::two_words_an_action();
}

/// Where the entries of a run are plain, so are those of the list by their stamps.
pub fn merged_is_plain()
    ensures { law.MergedIsPlain }
{}
