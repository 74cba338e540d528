//! Doors that are given and taken.
ghost use Rattle.std.specs.Prelude.{◌≡◌, [], All, IfOk};
ghost use Rattle.ak_roster.specs.Roster.{IsAtRest, state};

use super::calls::{Roster, Row, Word, clock_of, has_stamps, launch, roster_of};
use ak_base::ThreadId;
use ak_roster::{Mode, RosterEvent};
use ak_turn::{Book, Clock};
use std::alloc::Global;
use std::test::Fail;

const FIVE: [Row; 1] = [(b"/boot/demo", b"application/demo", Mode::Single, 5)];

// A roster with an application of five loopers that main launched, and that gave no door yet.
pub(super) fn five(alloc: Global) -> Result<Roster, Fail>
    ensures rest { IfOk result (λ roster. IsAtRest roster) }
    ensures fresh { IfOk result (λ roster. All (λ l. l.given ≡ []) (state roster).loopers) }
    ensures mine { IfOk result (λ roster. All (λ e. e.plain.by.0 ≡ 0) roster.entries) }
{
    let mut roster = roster_of(alloc, &FIVE)?;
    let mut clock = clock_of(0);
    launch(alloc, &mut roster, &mut clock, &Word::Path(b"/boot/demo"))?;
    Ok(roster)
}

// A door to nothing of that looper, for session 1.
#[tactic(auto, using(crate::proofs::Calls::strangers))]
fn grant_to_session(roster: &mut Roster, looper: u32) -> Result<Option<()>, Fail>
    requires rest { IsAtRest roster.old }
    requires fresh { All (λ l. l.given ≡ []) (state roster.old).loopers }
    ensures { IsAtRest roster.new }
{
    let mut clock = Clock {
        thread: ThreadId(1),
        time: 0,
    };
    if !has_stamps(roster, &clock) {
        return Err(Fail::from("no stamp is left"));
    }
    Ok(roster.grant(looper, &mut clock)?)
}

// What a session is given where no looper was started, and how many entries there are then.
fn grant_of_none(alloc: Global) -> Result<(Option<()>, u64), Fail> {
    let mut roster = five(alloc)?;
    let given = grant_to_session(&mut roster, 5)?;
    Ok((given, roster.len()))
}

// When and by whom a door was given, and of which looper.
pub(super) fn door_at(roster: &Roster, place: u64) -> Result<(u64, ThreadId, u32), Fail> {
    let entry = roster.entry(place)?.ok_or("an entry")?;
    match &entry.event {
        RosterEvent::Door { looper } => Ok((entry.stamp, entry.by, *looper)),
        _ => Err(Fail::from("no door")),
    }
}

/// What a session is given of the last looper, the entry of that, and how many doors there are.
pub type Given = (Option<()>, (u64, ThreadId, u32), usize);

fn grant_of_the_last(alloc: Global) -> Result<Given, Fail> {
    let mut roster = five(alloc)?;
    let given = grant_to_session(&mut roster, 4)?;
    let entry = door_at(&roster, 1)?;
    Ok((given, entry, roster.take_doors().len()))
}

/// What comes of both.
pub fn doors_given(alloc: Global) -> Result<((Option<()>, u64), Given), Fail> {
    Ok((grant_of_none(alloc)?, grant_of_the_last(alloc)?))
}
