//! What holds of all inputs.

ghost use Rattle.ak_script.specs.Faulty.{FirstBadIsTold, LongHeysAreLimits, SessionFaultsAreTold, StatementFaultsAreTold};
ghost use Rattle.ak_script.specs.InputLines.{LinesAreSplit};
ghost use Rattle.ak_script.specs.Laws.{NotBoth, ScriptOrRefusal, ScriptsAreWhole};
ghost use Rattle.ak_script.specs.Refusals.{FirstRefusalIsTold, NeverBoth, OneFirstRefusal, OneOfBoth, OneScript, ScriptsAreRead};
ghost use Rattle.ak_script.specs.Says.{BadHeysAreTold, BadHeysInSessionsAreTold, SessionLinesAreRead, StatementsAreRead};
ghost use Rattle.ak_script.specs.SaysLines.{LinesAreRead};

use ak_describe::{descriptions_are_read, descriptions_are_whole, passes_make_descriptions};
use ak_hey::hey_lines_are_read;

/// An input is the text of a script, or it has a first refusal, and not both.
pub fn scripts_or_refusals()
    ensures either { ScriptOrRefusal }
    ensures not_both { NotBoth }
{}

/// Exactly the words that say a statement are read as it.
pub fn statements_are_read()
    ensures { StatementsAreRead }
{
    hey_lines_are_read();
}

/// Exactly the words that say a line of a session are read as it.
pub fn session_lines_are_read()
    ensures { SessionLinesAreRead }
{
    hey_lines_are_read();
}

/// Behind the line `script` exactly the lines that say statements are read as those: single lines, and blocks of 1
/// to 8 sessions, each of one line or more; at most 8,000 lines that say statements, those of sessions too.
pub fn lines_are_read()
    ensures { LinesAreRead }
{
    statements_are_read();
    session_lines_are_read();
}

/// A line that begins with `hey` and is no hey line is told at the first word with which none goes on, or behind
/// its last word where it ends too early.
pub fn bad_heys_are_told()
    ensures alone { BadHeysAreTold }
    ensures in_sessions { BadHeysInSessionsAreTold }
{
    hey_lines_are_read();
}

/// Where a line that begins with `hey` has a first word with which no hey line goes on, or ends too early, exactly that
/// is told; and exactly where it is a hey line whose message passes a limit, that is. So it is in sessions too.
pub fn hey_faults_are_told()
    ensures first_bad { FirstBadIsTold }
    ensures limit { LongHeysAreLimits }
{
    hey_lines_are_read();
}

/// Exactly what is wrong with words that say no statement is told of them: the first word begins none; or a hey line
/// goes wrong at a word, or ends too early; or the further words are of no form, or pass a limit.
pub fn statement_faults_are_told()
    ensures alone { StatementFaultsAreTold }
    ensures in_sessions { SessionFaultsAreTold }
{
    hey_lines_are_read();
}

/// An input is split into exactly its lines, up to the first one without words: each piece between two LFs that says
/// something, with its number, and its words with the blanks between them.
pub fn lines_are_split()
    ensures { LinesAreSplit }
{}

/// An input is the text of a script, or has a first refusal, and not both; the script is one, and so is the refusal.
pub fn one_script_or_refusal()
    ensures either { OneOfBoth }
    ensures not_both { NeverBoth }
    ensures one_script { OneScript }
    ensures one_refusal { OneFirstRefusal }
{
    descriptions_are_read();
    passes_make_descriptions();
    statements_are_read();
    session_lines_are_read();
    statement_faults_are_told();
}

/// Exactly the script that an input is the text of is read of it, and exactly its first refusal is told.
pub fn scripts_are_read()
    ensures said { ScriptsAreRead }
    ensures refused { FirstRefusalIsTold }
{
    descriptions_are_read();
    passes_make_descriptions();
    statements_are_read();
    session_lines_are_read();
    statement_faults_are_told();
}

/// The script that an input is the text of is whole: its applications are, its blocks have 1 to 8 sessions, each of
/// one line or more, and at most 8,000 lines say statements, those of sessions too.
pub fn scripts_are_whole()
    ensures { ScriptsAreWhole }
{
    descriptions_are_read();
    descriptions_are_whole();
}
