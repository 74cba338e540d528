ghost use Rattle.std.specs.Prelude.{◌≡◌, [], IfOk, slice_get};
ghost use Rattle.ak_turn.specs.Entries.{last_stamp_of};
ghost use Rattle.ak_roster.specs.Heads.{IsHeads};
ghost use Rattle.ak_roster.specs.Roster.{plain_entries, IsAtRest, IsRoster, state};

use crate::entry::{EntryWithObjects, RosterEntry};
use crate::grant::Grant;
use crate::head::AppHead;
use crate::team::{Running, TEAM_LIMIT};
use ak_base::{Items, LOOPER_LIMIT, NoMemory};
use ak_turn::Book;
use std::alloc::Global;
use std::marker::Model;
use std::snapshot::Snapshot;

/// The book of the roster: the described applications, the teams that run, and all that was done, oldest first.
/// It keeps a door for each looper that was started. Contracts see the descriptions, the entries and the doors.
/// It is at rest while it has a door of each of these. A call that is given a clock asks that its time and the
/// last stamp are below 2^63. So they are at a turn, once the clock is ready. (The Be Book, The Application
/// Kit, BRoster.)
#[derive(Drop)]
pub struct RosterBook<D: Grant> {
    pub(crate) heads: Vec<AppHead>,
    pub(crate) running: Vec<Running>,
    pub(crate) teams: u32,
    pub(crate) loopers: u32,
    pub(crate) entries: Vec<RosterEntry>,
    // The doors that were taken, for proofs alone.
    pub(crate) taken: Snapshot<Vec<D>>,
    pub(crate) doors: Vec<D>,
}

impl<D: Grant> Model for RosterBook<D> {
    ghost use Rattle.ak_roster.specs.Roster.{RosterData};
    ghost use Rattle.ak_roster.specs.Kept.{roster_seen, IsSound};
    ghost use Rattle.ak_roster.specs.RosterInside.{kept_inside};

    ghost Value = { RosterData D D.Object };

    ghost view = { λ r. roster_seen D.object (kept_inside r) };

    ghost invariant = { λ r. IsSound D.object D.threads (kept_inside r) };
}

impl<D: Grant> RosterBook<D> {
    /// A roster of these applications, at most 16, each with 1 to 8 loopers, with nothing done yet. It makes
    /// room for the teams and doors of a run. Answers `NoMemory` where memory ran out.
    pub fn new(alloc: Global, apps: Vec<AppHead>) -> Result<RosterBook<D>, NoMemory>
        requires { IsHeads apps.items }
        ensures { IfOk result (λ roster. roster ≡ record { heads = apps.items; entries = []; doors = [] }) }
    {
        let doors = Vec::with_capacity(alloc, LOOPER_LIMIT as usize)?;
        Ok(RosterBook {
            heads: apps,
            running: Vec::with_capacity(alloc, TEAM_LIMIT as usize)?,
            teams: 0,
            loopers: 0,
            entries: Vec::new(alloc),
            taken: Snapshot::of(&Vec::new(alloc)),
            doors,
        })
    }

    /// The described applications, in order. Takes no memory.
    pub fn heads(&self) -> &[AppHead]
        ensures value { result.now ≡ self.now.heads }
        ensures is_roster { IsRoster D.object D.threads self.now }
    {
        self.heads.as_slice()
    }

    /// The teams that run, in the order of their numbers. Takes no memory. (The Be Book, The Application Kit,
    /// BRoster: GetAppList().)
    pub fn app_list(&self) -> &[Running]
        ensures value { result.now ≡ (state self.now).running }
        ensures is_roster { IsRoster D.object D.threads self.now }
    {
        self.running.as_slice()
    }

    /// The entries, oldest first; the doors that are left are dropped. Takes no memory.
    pub fn into_entries(self) -> Vec<RosterEntry>
        ensures { result.items ≡ plain_entries self.entries }
    {
        let Self { entries, .. } = self;
        entries
    }
}

impl<D: Grant> Book for RosterBook<D> {
    type Plain = RosterEntry;

    type Opening = Items<AppHead>;

    type Entry = EntryWithObjects<D::Object>;

    ghost opening = { λ roster. roster.heads };

    ghost entries = { λ roster. roster.entries };

    ghost plain = { λ entry. entry.plain };

    ghost by = { λ entry. entry.by.0 };

    ghost stamp = { λ entry. entry.stamp };

    ghost at_rest = { λ roster. IsAtRest roster };

    fn last_stamp(&self) -> u64 {
        last_stamp_in(&self.entries)
    }

    fn len(&self) -> u64 {
        self.entries.len() as u64
    }

    fn entry(&self, place: u64) -> Result<Option<RosterEntry>, NoMemory> {
        Ok(entry_in(&self.entries, place)?)
    }
}

fn last_stamp_in(entries: &[RosterEntry]) -> u64
    ensures { result ≡ last_stamp_of (λ entry. entry.stamp) entries.now }
{
    entries.last().map_or(0, |entry| entry.stamp)
}

// A copy of the entry at that place, if there is one.
fn entry_in(entries: &[RosterEntry], place: u64) -> Result<Option<RosterEntry>, NoMemory>
    ensures { IfOk result (λ entry. entry ≡ slice_get entries.now place) }
{
    match entries.get(place as usize) {
        Some(entry) => Ok(Some(entry.try_clone()?)),
        None => Ok(None),
    }
}
