//! Reads what was done at the roster.

ghost use Rattle.std.specs.Prelude.{◌≡◌, IfOk, IfSome};
ghost use Rattle.ak_journal.specs.Answers.{Gives};
ghost use Rattle.ak_journal.specs.Parting.{texts};
ghost use Rattle.ak_journal.specs.Legible.{FitsFind, FitsLaunch, IsLegibleRoster};
ghost use Rattle.ak_journal.specs.ReadRoster as reads;

use super::fault::Unread;
use super::parts::{find_word_at, launch_word_at};
use super::words::{first_of, first_u32, u32_at};
use ak_roster::{FindOutcome, LaunchOutcome, RosterEvent};
use std::alloc::Global;

pub(crate) fn roster_event(alloc: Global, words: &[&[u8]]) -> Result<RosterEvent, Unread>
    ensures read { Gives (λ e. e) result (reads.roster_event (texts words.now)) }
    ensures legible { IfOk result IsLegibleRoster }
{
    let Some((key, words)) = first_of(words) else {
        return Err(Unread::NoEntry);
    };
    if key == b"launch".as_slice() {
        return launched_of(alloc, words);
    }
    if key == b"find".as_slice() {
        return found_of(alloc, words);
    }
    match short_event(key, words) {
        Some(event) => Ok(event),
        None => Err(Unread::NoEntry),
    }
}

fn launched_of(alloc: Global, words: &[&[u8]]) -> Result<RosterEvent, Unread>
    ensures read { Gives (λ e. e) result (reads.launched_of (texts words.now)) }
    ensures legible { IfOk result IsLegibleRoster }
{
    let (word, words) = launch_word_at(alloc, words)?;
    let Some(outcome) = launch_outcome(words) else {
        return Err(Unread::NoEntry);
    };
    Ok(RosterEvent::Launch { word, outcome })
}

fn found_of(alloc: Global, words: &[&[u8]]) -> Result<RosterEvent, Unread>
    ensures read { Gives (λ e. e) result (reads.found_of (texts words.now)) }
    ensures legible { IfOk result IsLegibleRoster }
{
    let (word, words) = find_word_at(alloc, words)?;
    let Some(outcome) = find_outcome(words) else {
        return Err(Unread::NoEntry);
    };
    Ok(RosterEvent::Find { word, outcome })
}

// Those that name no application.
fn short_event(key: &[u8], words: &[&[u8]]) -> Option<RosterEvent>
    ensures read { result ≡ reads.short_event key.now (texts words.now) }
    ensures legible { IfSome result IsLegibleRoster }
{
    if key == b"gone".as_slice() {
        gone_of(words)
    } else if key == b"door".as_slice() {
        door_of(words)
    } else {
        None
    }
}

fn gone_of(words: &[&[u8]]) -> Option<RosterEvent>
    ensures read { result ≡ reads.gone_of (texts words.now) }
    ensures legible { IfSome result IsLegibleRoster }
{
    let team = first_u32(words)?;
    Some(RosterEvent::Gone { team })
}

fn door_of(words: &[&[u8]]) -> Option<RosterEvent>
    ensures read { result ≡ reads.door_of (texts words.now) }
    ensures legible { IfSome result IsLegibleRoster }
{
    let looper = first_u32(words)?;
    Some(RosterEvent::Door { looper })
}

// ---- outcomes
fn launch_outcome(words: &[&[u8]]) -> Option<LaunchOutcome>
    ensures read { result ≡ reads.launch_outcome (texts words.now) }
    ensures fits { IfSome result FitsLaunch }
{
    let (key, words) = first_of(words)?;
    if key == b"started".as_slice() {
        started_of(words)
    } else if key == b"running".as_slice() {
        running_of(words)
    } else if key == b"not-found".as_slice() {
        Some(LaunchOutcome::NotFound)
    } else if key == b"limit".as_slice() {
        Some(LaunchOutcome::Limit)
    } else {
        None
    }
}

fn started_of(words: &[&[u8]]) -> Option<LaunchOutcome>
    ensures read { result ≡ reads.started_of (texts words.now) }
    ensures fits { IfSome result FitsLaunch }
{
    let (description, words) = u32_at(words)?;
    let (team, words) = u32_at(words)?;
    let first = first_u32(words)?;
    Some(LaunchOutcome::Started {
        description,
        team,
        first,
    })
}

fn running_of(words: &[&[u8]]) -> Option<LaunchOutcome>
    ensures read { result ≡ reads.running_of (texts words.now) }
    ensures fits { IfSome result FitsLaunch }
{
    let team = first_u32(words)?;
    Some(LaunchOutcome::AlreadyRunning { team })
}

fn find_outcome(words: &[&[u8]]) -> Option<FindOutcome>
    ensures read { result ≡ reads.find_outcome (texts words.now) }
    ensures fits { IfSome result FitsFind }
{
    let (key, words) = first_of(words)?;
    if key == b"team".as_slice() {
        team_of(words)
    } else if key == b"no-team".as_slice() {
        Some(FindOutcome::NoTeam)
    } else {
        None
    }
}

fn team_of(words: &[&[u8]]) -> Option<FindOutcome>
    ensures read { result ≡ reads.team_of (texts words.now) }
    ensures fits { IfSome result FitsFind }
{
    let team = first_u32(words)?;
    Some(FindOutcome::Team(team))
}
