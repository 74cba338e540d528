//! Edits of handlers.
ghost use Rattle.std.specs.Prelude.{◌≡◌, ◌<◌};
ghost use Rattle.ak_describe.specs.Whole.{heads_of};
ghost use Rattle.ak_run.specs.Running.{IsRunning};
ghost use Rattle.ak_run.specs.Sessions.{sessions_of};
ghost use Rattle.ak_run.specs.Sending.{looper_count};
ghost use Rattle.ak_run.specs.Doing.{DoesSo};
ghost use Rattle.ak_lines.specs.Blocks.{IsNothing};
ghost use Rattle.ak_play.specs.Blocks.{CutsLock, IsLockBlock};
ghost use Rattle.ak_play.specs.Came.{IsLocked, MayCome};

use ak_base::NoMemory;
use ak_lines::{Came, Outcome};
use ak_print::Told;
use ak_run::{Edited, Found, Run};
use ak_script::Lock;
use std::sync::Wait;

/// Edits the handlers of the looper of the team at that place.
pub(crate) fn lock<R: Wait>(run: &mut Run, rt: &R, lock: &Lock) -> Result<Came, NoMemory>
    requires running { IsRunning run.old }
    ensures did { DoesSo (MayCome (IsLockBlock (heads_of run.old.apps.items) lock.now) (CutsLock (heads_of run.old.apps.items) lock.now) result) run.old run.new }
    ensures running { IsRunning run.new }
    ensures count { looper_count run.new ≡ looper_count run.old }
    ensures apps { run.new.apps ≡ run.old.apps }
    ensures sessions { sessions_of run.new ≡ sessions_of run.old }
{
    match run.find(rt, &lock.app) {
        Found::Team {
            first,
            loopers,
            place,
            ..
        } => {
            if lock.looper < loopers {
                edit_looper(run, rt, first + lock.looper, lock)
            } else {
                Ok(Came::no_looper(place))
            }
        }
        Found::NoTeam { place } => Ok(Came::no_team(place)),
        Found::NoMemory => Err(NoMemory),
    }
}

// Edits the handlers of that looper.
fn edit_looper<R: Wait>(run: &mut Run, rt: &R, looper: u32, lock: &Lock) -> Result<Came, NoMemory>
    requires running { IsRunning run.old }
    requires there { looper < looper_count run.old }
    ensures did { DoesSo (MayCome (IsLocked lock.now looper) IsNothing result) run.old run.new }
    ensures running { IsRunning run.new }
    ensures count { looper_count run.new ≡ looper_count run.old }
    ensures apps { run.new.apps ≡ run.old.apps }
    ensures sessions { sessions_of run.new ≡ sessions_of run.old }
{
    let Ok(edit) = lock.edit.try_clone() else {
        return Err(NoMemory);
    };
    match run.edit(rt, looper, edit) {
        Edited::Entered { answer, place } => Ok(Came {
            outcome: Outcome::Edited { looper, place },
            told: Told::Edit(answer),
        }),
        Edited::NoMemory => Err(NoMemory),
    }
}
