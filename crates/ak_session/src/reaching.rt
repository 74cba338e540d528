//! The way to a looper's port and desk: a door, which is got at the roster.
ghost use Rattle.std.specs.Prelude.{◌≡◌, ◌==◌, ℕ, List, None, IfOk, OnOk, OnErr};
ghost use Rattle.std.specs.List.{position};
ghost use Rattle.ak_roster.specs.declared.head.AppHead.{AppHead};
ghost use Rattle.ak_diary.specs.Step.{Step};
ghost use Rattle.ak_session.specs.Doing.{LacksDoor, Opens};
ghost use Rattle.ak_session.specs.Stands.{GoesOn, IsStanding, IsWay, KeepsSession, Stands};

use crate::session::Session;
use ak_base::NoMemory;
use ak_looper::{KeptDoor, get_door};
use ak_roster::{holders_are_told, seats_tell_strangers};
use std::sync::Wait;

impl Session {
    // The place of the door to that looper. A door that it has not is got at the roster, behind the others.
    pub(crate) fn way_to<R: Wait>(&mut self, rt: &R, looper: u32) -> Result<usize, NoMemory>
        requires standing { IsStanding self.old }
        ensures goes { (heads : List AppHead) (start : ℕ) (so_far : List Step) → Stands heads start so_far self.old → OnOk result (GoesOn heads start so_far (Opens so_far looper) self.new) }
        ensures lacks { (heads : List AppHead) (start : ℕ) (so_far : List Step) → Stands heads start so_far self.old → OnErr result (GoesOn heads start so_far (LacksDoor so_far looper) self.new) }
        ensures way { IfOk result (λ place. IsWay looper place self.new) }
        ensures keeps { KeepsSession self.old self.new }
    {
        if let Some(place) = self.place_of(looper) {
            return Ok(place);
        }
        self.open(rt, looper)
    }

    fn place_of(&self, looper: u32) -> Option<usize>
        ensures { result ≡ position (λ door. door.0 == looper) self.now.doors.items }
    {
        self.doors.iter().position(|door| door.0 == looper)
    }

    // Gets the door of that looper, which it has not.
    fn open<R: Wait>(&mut self, rt: &R, looper: u32) -> Result<usize, NoMemory>
        requires standing { IsStanding self.old }
        requires without { position (λ door. door.0 == looper) self.old.doors.items ≡ None }
        ensures goes { (heads : List AppHead) (start : ℕ) (so_far : List Step) → Stands heads start so_far self.old → OnOk result (GoesOn heads start so_far (Opens so_far looper) self.new) }
        ensures lacks { (heads : List AppHead) (start : ℕ) (so_far : List Step) → Stands heads start so_far self.old → OnErr result (GoesOn heads start so_far (LacksDoor so_far looper) self.new) }
        ensures way { IfOk result (λ place. IsWay looper place self.new) }
        ensures keeps { KeepsSession self.old self.new }
    {
        holders_are_told();
        seats_tell_strangers::<KeptDoor>();
        self.doors.reserve(1)?;
        let door = get_door(
            &self.roster,
            rt,
            &mut self.roster_seat,
            &mut self.hands.clock,
            looper,
        )?;
        let place = self.doors.len();
        self.doors.push_reserved((looper, door));
        Ok(place)
    }
}
