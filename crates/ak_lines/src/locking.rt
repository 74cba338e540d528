//! Edits of handlers.
ghost use Rattle.std.specs.Prelude.{◌≡◌, ℕ, List};
ghost use Rattle.ak_roster.specs.declared.head.AppHead.{AppHead};
ghost use Rattle.ak_diary.specs.Step.{Step};
ghost use Rattle.ak_session.specs.Stands.{GoesOn, IsStanding, KeepsSession, Stands};
ghost use Rattle.ak_lines.specs.Blocks.{CutsLock, IsLockLine};
ghost use Rattle.ak_lines.specs.Came.{EndsInVain, IsLocked, MayCome};

use crate::came::Came;
use crate::outcome::Outcome;
use ak_base::NoMemory;
use ak_print::Told;
use ak_script::Lock;
use ak_session::{Edited, Found, Session};
use std::sync::Wait;

/// Edits the handlers of the looper of the team at that place.
pub(crate) fn lock<R: Wait>(rt: &R, session: &mut Session, lock: &Lock) -> Result<Came, NoMemory>
    requires standing { IsStanding session.old }
    ensures goes { (heads : List AppHead) (start : ℕ) (so_far : List Step) → Stands heads start so_far session.old → GoesOn heads start so_far (MayCome (IsLockLine heads so_far lock.now) (CutsLock heads so_far lock.now) result) session.new }
    ensures standing { IsStanding session.new }
    ensures keeps { KeepsSession session.old session.new }
{
    match session.find(rt, &lock.app) {
        Found::Team {
            first,
            loopers,
            place,
            ..
        } => {
            if lock.looper < loopers {
                edit_looper(rt, session, first + lock.looper, lock)
            } else {
                Ok(Came::no_looper(place))
            }
        }
        Found::NoTeam { place } => Ok(Came::no_team(place)),
        Found::NoMemory => Err(NoMemory),
    }
}

// Edits the handlers of that looper.
fn edit_looper<R: Wait>(
    rt: &R,
    session: &mut Session,
    looper: u32,
    lock: &Lock,
) -> Result<Came, NoMemory>
    requires standing { IsStanding session.old }
    ensures goes { (heads : List AppHead) (start : ℕ) (so_far : List Step) → Stands heads start so_far session.old → GoesOn heads start so_far (MayCome (IsLocked so_far lock.now looper) (EndsInVain so_far looper) result) session.new }
    ensures standing { IsStanding session.new }
    ensures keeps { KeepsSession session.old session.new }
{
    let Ok(edit) = lock.edit.try_clone() else {
        return Err(NoMemory);
    };
    match session.edit(rt, looper, edit) {
        Edited::Entered { answer, place } => Ok(Came {
            outcome: Outcome::Edited { looper, place },
            told: Told::Edit(answer),
        }),
        Edited::NoMemory => Err(NoMemory),
    }
}
