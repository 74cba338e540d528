//! What holds of the lines of all legible entries.

ghost use Rattle.ak_journal.specs.Laws.{EntriesAreLines, LinesTellEntries};
ghost use Rattle.ak_journal.specs.Typed.{PlainIsLegible};

/// No two legible entries have one line. So a line that differs from that of an entry in one byte, or in more, is
/// the line of another entry, or of none.
pub fn lines_tell_entries()
    ensures { LinesTellEntries }
{}

/// A legible entry is a plain one whose numbers and bytes are in their ranges, as those of every entry that exists are.
pub fn plain_is_legible()
    ensures { PlainIsLegible }
{}

/// The line of a legible entry has no line end in it: so as many such entries, each ended by LF, are as many lines.
pub fn entries_are_lines()
    ensures { EntriesAreLines }
{}
