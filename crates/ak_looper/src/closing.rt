//! A looper closes its port, and an application's own looper those of its team.
ghost use Rattle.std.specs.Prelude.{◌≡◌, true};

use crate::reach::{Reach, Way};
use std::sync::Wait;

impl Reach {
    ghost use Rattle.std.specs.Prelude.{◌≡◌, ◌+◌, ◌<◌, ◌≤◌, ◌^◌, ◌==◌, ◌∷◌, [], ℕ, List, IsTrue, if◌then◌else◌};
    ghost use Rattle.std.specs.List.{range_with_len};
    ghost use Rattle.ak_diary.specs.Looper.{LooperFacts, closed_by};
    ghost use Rattle.ak_diary.specs.Step.{Step};
    ghost use Rattle.ak_diary.specs.Turns.{Closes, ClosesIf, Shuts, ShutsAll};
    ghost use Rattle.ak_port.specs.PortMachine.{state_of};
    ghost use Rattle.ak_looper.specs.Closing.{IsOfItsTeam};
    ghost use Rattle.ak_looper.specs.Stands.{GoesOn, IsStanding, Stands};
    ghost use Rattle.ak_looper.specs.Ways.{IsWay, KeepsReach};

    // The way to a looper of its team, which it has from its beginning.
    fn way_in_team(&self, looper: u32) -> Way
        requires stands { IsStanding self.now }
        requires of { IsOfItsTeam looper self.now }
        ensures { IsWay looper result self.now }
    {
        if looper == self.number {
            return Way::Own;
        }
        match self.place_of(looper) {
            Some(place) => Way::Through(place),
            None => unreachable!(),
        }
    }

    // Shuts the ports of its team in order.
    fn shut_team<R: Wait>(&mut self, rt: &R)
        requires stands { IsStanding self.old }
        requires own { self.old.number ≡ self.old.first }
        ensures goes { (l : LooperFacts) (start : ℕ) (so_far : List Step) → Stands l start so_far self.old → GoesOn l start so_far (ShutsAll (range_with_len l.first l.loopers)) self.new }
        ensures shut { (state_of self.new.port_seat.front).shut ≡ true }
        ensures keeps { KeepsReach self.old self.new }
    {
        for place in 0..self.loopers {
            let looper = self.first + place;
            let way = self.way_in_team(looper);
            self.shut(rt, way, looper);
        }
    }

    /// Closes: an application's own looper enters that its team no longer runs, and shuts the ports of its team in order;
    /// another looper shuts its own. What others did of this before is left. Takes no memory.
    pub(crate) fn close<R: Wait>(&mut self, rt: &R)
        requires stands { IsStanding self.old }
        ensures goes { (l : LooperFacts) (start : ℕ) (so_far : List Step) → Stands l start so_far self.old → GoesOn l start so_far (Closes l) self.new }
        ensures shut { (state_of self.new.port_seat.front).shut ≡ true }
        ensures keeps { KeepsReach self.old self.new }
    {
        if self.is_own() {
            self.leave(rt);
            self.shut_team(rt);
        } else {
            self.shut(rt, Way::Own, self.number);
        }
    }

    /// Closes where that is due.
    pub(crate) fn close_if<R: Wait>(&mut self, rt: &R, due: bool)
        requires stands { IsStanding self.old }
        ensures goes { (l : LooperFacts) (start : ℕ) (so_far : List Step) → Stands l start so_far self.old → GoesOn l start so_far (ClosesIf l due) self.new }
        ensures shut { due ≡ true → (state_of self.new.port_seat.front).shut ≡ true }
        ensures keeps { KeepsReach self.old self.new }
    {
        if due {
            self.close(rt);
        }
    }
}
