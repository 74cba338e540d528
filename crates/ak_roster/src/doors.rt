//! The doors of the loopers.
ghost use Rattle.std.specs.Prelude.{◌≡◌, ◌<◌, ◌≤◌, ◌^◌, ◌↔◌, [], length, IfSome, IfOk, OnErr, slice_get, vec_len};
ghost use Rattle.ak_roster.specs.Answers.{IfPart, UnlessPart};
ghost use Rattle.ak_roster.specs.Machine.{IsLegal};
ghost use Rattle.ak_roster.specs.Roster.{Enters, GivesPartAt, IsAtRest, IsRoster, IsStranger, Stays, last_stamp, objects_of, state};
ghost use Rattle.ak_roster.specs.Told.{IsNewIn};

use crate::book::RosterBook;
use crate::calls::entry_by;
use crate::entry::RosterEvent;
use crate::grant::Grant;
use crate::room::{push_reserved, reserve_after};
use ak_base::{NoMemory, ThreadId};
use ak_turn::{Book, Clock};
use std::mem;
use std::snapshot::Snapshot;

impl<D: Grant> RosterBook<D> {
    /// A part of the door of the looper with that number, for the clock's thread, which has none. So it is not
    /// main, nor that looper, nor the first looper of its team, nor the keeper. It did not get the door before.
    /// The book is at rest. `None` where no such looper was started, tested first; then there is no
    /// entry. The grant is one entry. `NoMemory` makes none, and nothing changes.
    pub fn grant(&mut self, looper: u32, clock: &mut Clock) -> Result<Option<D::Part>, NoMemory>
        requires rest { IsAtRest self.old }
        requires thread { IsStranger clock.old.thread.0 looper (slice_get (state self.old).loopers looper) }
        requires time { clock.old.time < 2 ^ 63 }
        requires stamp { last_stamp self.old.entries < 2 ^ 63 }
        ensures none { (result ≡ Ok None) ↔ (length (state self.old).loopers ≤ looper) }
        ensures part { IfPart result (λ part. GivesPartAt D.object D.threads D.part_object D.is_for looper part clock.old.thread.0 self.old.doors self.new.doors) }
        ensures object { IfPart result (λ part. slice_get (objects_of self.old.entries) looper ≡ Some (D.part_object part)) }
        ensures entry { IfPart result (λ _. Enters (RosterEvent.Door looper) [] self.new.doors self.old self.new clock.old clock.new) }
        ensures stays { UnlessPart result (Stays self.old self.new clock.old clock.new) }
        ensures rest { IsAtRest self.new }
    {
        let place = looper as usize;
        if place >= self.doors.len() {
            return Ok(None);
        }
        let last_stamp = self.last_stamp();
        reserve_after(&mut self.entries, 1, &self.running)?;
        let part = part_at(&mut self.doors, place, clock.thread)?;
        let entry = entry_by(clock, last_stamp, RosterEvent::Door { looper });
        push_reserved(&mut self.entries, entry);
        Ok(Some(part))
    }

    /// All doors, by the loopers' numbers from 0; the book keeps none, and is at rest no more where there were
    /// some. They tell the objects that the entries have, and the threads that have a part. It serves the end of
    /// a run. Takes no memory.
    pub fn take_doors(&mut self) -> Vec<D>
        requires rest { IsAtRest self.old }
        ensures doors { result.items ≡ self.old.doors }
        ensures after { self.new ≡ record self.old { doors = [] } }
        ensures is_roster { IsRoster D.object D.threads self.old }
    {
        self.taken = Snapshot::of(&self.doors);
        let alloc = *self.doors.allocator();
        mem::replace(&mut self.doors, Vec::new(alloc))
    }
}

// A part of the door at that place.
fn part_at<D: Grant>(
    doors: &mut Vec<D>,
    place: usize,
    thread: ThreadId,
) -> Result<D::Part, NoMemory>
    requires place { place < vec_len doors.old }
    requires new { IfSome (slice_get doors.old.items place) (λ door. IsNewIn (D.threads door) thread.0) }
    ensures ok { IfOk result (λ part. GivesPartAt D.object D.threads D.part_object D.is_for place part thread.0 doors.old.items doors.new.items) }
    ensures err { OnErr result (doors.new.items ≡ doors.old.items) }
{
    doors[place].part(thread)
}
