//! Hey lines.
ghost use Rattle.std.specs.Prelude.{◌≡◌, ◌<◌};
ghost use Rattle.ak_describe.specs.Whole.{heads_of};
ghost use Rattle.ak_run.specs.Running.{IsRunning};
ghost use Rattle.ak_run.specs.Sessions.{sessions_of};
ghost use Rattle.ak_run.specs.Sending.{looper_count};
ghost use Rattle.ak_run.specs.Doing.{DoesSo};
ghost use Rattle.ak_play.specs.Blocks.{CutsHey, IsHeyBlock};
ghost use Rattle.ak_play.specs.Came.{IsAsked, IsAskedInVain, MayCome};

use crate::refusing::{envelope, refusal};
use ak_base::NoMemory;
use ak_lines::{Came, Outcome};
use ak_message::Target;
use ak_print::Told;
use ak_run::{Found, Run};
use ak_script::Hey;
use std::sync::Wait;

/// Asks the preferred handler of the team's first looper, and waits for the reply.
pub(crate) fn hey<R: Wait>(run: &mut Run, rt: &R, hey: &Hey) -> Result<Came, NoMemory>
    requires running { IsRunning run.old }
    ensures did { DoesSo (MayCome (IsHeyBlock (heads_of run.old.apps.items) hey.now) (CutsHey (heads_of run.old.apps.items) hey.now) result) run.old run.new }
    ensures running { IsRunning run.new }
    ensures count { looper_count run.new ≡ looper_count run.old }
    ensures apps { run.new.apps ≡ run.old.apps }
    ensures sessions { sessions_of run.new ≡ sessions_of run.old }
{
    match run.find(rt, &hey.app) {
        Found::Team { first, .. } => ask_looper(run, rt, first, hey),
        Found::NoTeam { place } => Ok(Came::no_team(place)),
        Found::NoMemory => Err(NoMemory),
    }
}

// Asks that looper.
fn ask_looper<R: Wait>(run: &mut Run, rt: &R, looper: u32, hey: &Hey) -> Result<Came, NoMemory>
    requires running { IsRunning run.old }
    requires there { looper < looper_count run.old }
    ensures did { DoesSo (MayCome (IsAsked hey.now looper) (IsAskedInVain hey.now looper) result) run.old run.new }
    ensures running { IsRunning run.new }
    ensures count { looper_count run.new ≡ looper_count run.old }
    ensures apps { run.new.apps ≡ run.old.apps }
    ensures sessions { sessions_of run.new ≡ sessions_of run.old }
{
    let envelope = envelope(Target::Preferred, false);
    match run.ask(rt, looper, envelope, &hey.message) {
        Ok(reply) => Ok(Came {
            outcome: Outcome::Replied { slot: reply.slot },
            told: Told::Reply(reply.message),
        }),
        Err(fault) => refusal(run, looper, fault),
    }
}
