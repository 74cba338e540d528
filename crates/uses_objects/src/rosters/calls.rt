//! The calls of a book whose doors lead to nothing.
ghost use Rattle.std.specs.Prelude.{◌≡◌, ◌<◌, ◌^◌, ℕ, All, length, [], IfOk};
ghost use Rattle.std.specs.Bool.{OnTrue};
ghost use Rattle.ak_roster.specs.Answers.{IsWord};
ghost use Rattle.ak_roster.specs.Heads.{IsHeads};
ghost use Rattle.ak_roster.specs.Machine.{loopers_at};
ghost use Rattle.ak_roster.specs.Roster.{IsAtRest, last_stamp, state};

use ak_base::{AppWord, Text, ThreadId};
use ak_roster::{AppHead, Decision, FindAnswer, Launched, Mode, RosterBook};
use ak_turn::{Book, Clock};
use std::alloc::Global;
use std::test::Fail;

pub type Roster = RosterBook<()>;

/// Path, signature, mode and number of loopers.
pub type Row = (&'static [u8], &'static [u8], Mode, u32);

/// A word in a table.
#[derive(Clone, Copy)]
pub enum Word {
    Path(&'static [u8]),
    Signature(&'static [u8]),
    Name(&'static [u8]),
    Team(u32),
}

pub fn clock_of(thread: u32) -> Clock
    ensures thread { result.thread.0 ≡ thread }
    ensures time { result.time ≡ 0 }
{
    Clock {
        thread: ThreadId(thread),
        time: 0,
    }
}

fn head(
    alloc: Global,
    path: &[u8],
    signature: &[u8],
    mode: Mode,
    loopers: u32,
) -> Result<AppHead, Fail>
    ensures { IfOk result (λ head. head.loopers ≡ loopers) }
{
    Ok(AppHead {
        path: Text::from_bytes(alloc, path)?,
        signature: Text::from_bytes(alloc, signature)?,
        mode,
        loopers,
    })
}

// Adds an application to those of a roster.
fn add_head(alloc: Global, heads: &mut Vec<AppHead>, row: Row) -> Result<(), Fail>
    requires { IsHeads heads.old.items }
    ensures { IsHeads heads.new.items }
{
    let (path, signature, mode, loopers) = row;
    if loopers < 1 || loopers > 8 || heads.len() >= 16 {
        return Err(Fail::from("no application"));
    }
    heads.push(head(alloc, path, signature, mode, loopers)?)?;
    Ok(())
}

/// A roster of these applications.
pub fn roster_of(alloc: Global, rows: &[Row]) -> Result<Roster, Fail>
    ensures rest { IfOk result (λ roster. IsAtRest roster) }
    ensures fresh { IfOk result (λ roster. All (λ l. l.given ≡ []) (state roster).loopers) }
    ensures empty { IfOk result (λ roster. roster.entries ≡ []) }
{
    let mut heads = Vec::new(alloc);
    for row in rows {
        add_head(alloc, &mut heads, *row)?;
    }
    Ok(RosterBook::new(alloc, heads)?)
}

pub fn word_of(alloc: Global, word: &Word) -> Result<AppWord, Fail> {
    match word {
        Word::Path(bytes) => Ok(AppWord::Path(Text::from_bytes(alloc, bytes)?)),
        Word::Signature(bytes) => Ok(AppWord::Signature(Text::from_bytes(alloc, bytes)?)),
        Word::Name(bytes) => Ok(AppWord::Name(Text::from_bytes(alloc, bytes)?)),
        Word::Team(team) => Ok(AppWord::Team(*team)),
    }
}

// Whether a launch may be asked for by that word.
fn is_launch_word(word: &AppWord) -> bool
    ensures { OnTrue result (IsWord word.now) }
{
    matches!(word, AppWord::Path(_) | AppWord::Signature(_))
}

// Whether stamps are left for the clock and the roster.
pub fn has_stamps(roster: &Roster, clock: &Clock) -> bool
    ensures time { OnTrue result (clock.now.time < 2 ^ 63) }
    ensures stamp { OnTrue result (last_stamp roster.now.entries < 2 ^ 63) }
{
    roster.last_stamp() < 1 << 63 && clock.time < 1 << 63
}

// A door to nothing for each looper of the application at that place.
fn doors_for(alloc: Global, heads: &[AppHead], place: u32) -> Result<Vec<()>, Fail>
    ensures { IfOk result (λ doors. length doors.items ≡ loopers_at heads.now place) }
{
    let loopers = heads.get(place as usize).map_or(0, |head| head.loopers);
    Ok(vec![in alloc; (); loopers as usize]?)
}

// Decides, and launches with doors to nothing where it starts.
fn decide_and_launch(
    alloc: Global,
    roster: &mut Roster,
    clock: &mut Clock,
    word: &AppWord,
) -> Result<Decision, Fail>
    requires rest { IsAtRest roster.old }
    requires word { IsWord word.now }
    requires time { clock.old.time < 2 ^ 63 }
    requires stamp { last_stamp roster.old.entries < 2 ^ 63 }
    ensures rest { IsAtRest roster.new }
    ensures fresh { All (λ l. l.given ≡ []) (state roster.old).loopers → All (λ l. l.given ≡ []) (state roster.new).loopers }
    ensures mine { (thread : ℕ) → clock.old.thread.0 ≡ thread → All (λ e. e.plain.by.0 ≡ thread) roster.old.entries → All (λ e. e.plain.by.0 ≡ thread) roster.new.entries }
{
    let decision = roster.decide(word, clock);
    let Decision::Starts { description, .. } = decision else {
        return Ok(decision);
    };
    let doors = doors_for(alloc, roster.heads(), description)?;
    match roster.launch(word, clock, doors) {
        Launched::Started { .. } => Ok(decision),
        Launched::NoMemory(_) => Ok(Decision::NoMemory),
    }
}

pub fn launch(
    alloc: Global,
    roster: &mut Roster,
    clock: &mut Clock,
    word: &Word,
) -> Result<Decision, Fail>
    requires { IsAtRest roster.old }
    ensures rest { IsAtRest roster.new }
    ensures fresh { All (λ l. l.given ≡ []) (state roster.old).loopers → All (λ l. l.given ≡ []) (state roster.new).loopers }
    ensures mine { (thread : ℕ) → clock.old.thread.0 ≡ thread → All (λ e. e.plain.by.0 ≡ thread) roster.old.entries → All (λ e. e.plain.by.0 ≡ thread) roster.new.entries }
{
    let word = word_of(alloc, word)?;
    if is_launch_word(&word) && has_stamps(roster, clock) {
        decide_and_launch(alloc, roster, clock, &word)
    } else {
        Err(Fail::from("no launch"))
    }
}

pub fn find(
    alloc: Global,
    roster: &mut Roster,
    clock: &mut Clock,
    word: &Word,
) -> Result<FindAnswer, Fail>
    ensures { IsAtRest roster.old → IsAtRest roster.new }
{
    let word = word_of(alloc, word)?;
    if !has_stamps(roster, clock) {
        return Err(Fail::from("no stamp is left"));
    }
    Ok(roster.find(&word, clock))
}

pub fn gone(roster: &mut Roster, clock: &mut Clock, team: u32) -> Result<bool, Fail>
    ensures { IsAtRest roster.old → IsAtRest roster.new }
{
    if !has_stamps(roster, clock) {
        return Err(Fail::from("no stamp is left"));
    }
    Ok(roster.gone(team, clock))
}
