//! Prints what was done at the roster.

ghost use Rattle.std.specs.Prelude.{◌≡◌, [], ◌∷◌, ◌++◌, codes, OnOk};
ghost use Rattle.std.specs.Fmt.{decimal};
ghost use Rattle.ak_journal.specs.Parts.{behind_blanks, word_text};
ghost use Rattle.ak_journal.specs.RosterLine.{find_words, launch_words, roster_words};
ghost use Rattle.ak_journal.specs.Legible.{Fits32, FitsFind, FitsLaunch};
ghost use Rattle.ak_journal.specs.Typed.{IsTypedRoster};

use super::parts::{put_app_word, put_counted, put_number, put_word};
use ak_base::{AppWord, Bytes, NoMemory};
use ak_roster::{FindOutcome, LaunchOutcome, RosterEvent};

pub(crate) fn put_roster(out: &mut Bytes, event: &RosterEvent) -> Result<(), NoMemory>
    ensures line { OnOk result (out.new ≡ out.old ++ behind_blanks (roster_words event.now)) }
    ensures typed { OnOk result (IsTypedRoster event.now) }
{
    match event {
        RosterEvent::Launch { word, outcome } => put_launch(out, word, *outcome),
        RosterEvent::Find { word, outcome } => put_find(out, word, *outcome),
        RosterEvent::Gone { team } => put_counted(out, b"gone", u64::from(*team)),
        RosterEvent::Door { looper } => put_counted(out, b"door", u64::from(*looper)),
    }
}

fn put_launch(out: &mut Bytes, word: &AppWord, outcome: LaunchOutcome) -> Result<(), NoMemory>
    ensures line { OnOk result (out.new ≡ out.old ++ behind_blanks (codes "launch" ∷ word_text word.now ∷ launch_words outcome)) }
    ensures typed { OnOk result (FitsLaunch outcome) }
{
    put_word(out, b"launch")?;
    put_app_word(out, word)?;
    match outcome {
        LaunchOutcome::Started {
            description,
            team,
            first,
        } => put_started(out, description, team, first),
        LaunchOutcome::AlreadyRunning { team } => put_counted(out, b"running", u64::from(team)),
        LaunchOutcome::NotFound => put_word(out, b"not-found"),
        LaunchOutcome::Limit => put_word(out, b"limit"),
    }
}

fn put_started(out: &mut Bytes, description: u32, team: u32, first: u32) -> Result<(), NoMemory>
    ensures line { OnOk result (out.new ≡ out.old ++ behind_blanks (launch_words (LaunchOutcome.Started description team first))) }
    ensures typed { OnOk result (Fits32 description × Fits32 team × Fits32 first) }
{
    put_counted(out, b"started", u64::from(description))?;
    put_number(out, u64::from(team))?;
    put_number(out, u64::from(first))
}

fn put_find(out: &mut Bytes, word: &AppWord, outcome: FindOutcome) -> Result<(), NoMemory>
    ensures line { OnOk result (out.new ≡ out.old ++ behind_blanks (codes "find" ∷ word_text word.now ∷ find_words outcome)) }
    ensures typed { OnOk result (FitsFind outcome) }
{
    put_word(out, b"find")?;
    put_app_word(out, word)?;
    match outcome {
        FindOutcome::Team(team) => put_counted(out, b"team", u64::from(team)),
        FindOutcome::NoTeam => put_word(out, b"no-team"),
    }
}
