//! Edits of handlers.
ghost use Rattle.std.specs.Prelude.{ℕ, List};
ghost use Rattle.ak_roster.specs.declared.head.AppHead.{AppHead};
ghost use Rattle.ak_diary.specs.Step.{Step};
ghost use Rattle.ak_session.specs.Doing.{EditedSo, EditsThrough};
ghost use Rattle.ak_session.specs.Stands.{GoesOn, IsStanding, KeepsSession, Stands};

use crate::answers::Edited;
use crate::door_calls::edit_through;
use crate::session::Session;
use ak_desk::Edit;
use std::sync::Wait;

impl Session {
    /// Edits the handlers of that looper, by one entry at its desk. It waits for its turn. A door that it has not is got first. Answers
    /// where that entry stands.
    pub fn edit<R: Wait>(&mut self, rt: &R, looper: u32, edit: Edit) -> Edited
        requires standing { IsStanding self.old }
        ensures goes { (heads : List AppHead) (start : ℕ) (so_far : List Step) → Stands heads start so_far self.old → GoesOn heads start so_far (EditsThrough so_far looper result (EditedSo looper edit result)) self.new }
        ensures standing { IsStanding self.new }
        ensures keeps { KeepsSession self.old self.new }
    {
        let Ok(place) = self.way_to(rt, looper) else {
            return Edited::NoMemory;
        };
        edit_through(rt, &mut self.hands.clock, &mut self.doors[place].1, edit)
    }
}
