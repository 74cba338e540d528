//! Posts.
ghost use Rattle.std.specs.Prelude.{◌≡◌, ◌<◌, false, IsErrOf};
ghost use Rattle.ak_describe.specs.Whole.{heads_of};
ghost use Rattle.ak_run.specs.Running.{IsRunning};
ghost use Rattle.ak_run.specs.Sessions.{sessions_of};
ghost use Rattle.ak_run.specs.Sending.{looper_count};
ghost use Rattle.ak_run.specs.Doing.{DoesSo, PostedSo};
ghost use Rattle.ak_lines.specs.Blocks.{IsNothing};
ghost use Rattle.ak_play.specs.Blocks.{CutsPost, IsPostBlock};
ghost use Rattle.ak_play.specs.Came.{IsSent, MayCome};
ghost use Rattle.ak_lines.specs.Came.{post_envelope};

use crate::refusing::{envelope, refusal};
use ak_base::NoMemory;
use ak_lines::{Came, Outcome};
use ak_messenger::SendFault;
use ak_print::Told;
use ak_run::{Found, Run};
use ak_script::Post;
use std::sync::Wait;

/// Posts to the looper of the team at that place.
pub(crate) fn post<R: Wait>(run: &mut Run, rt: &R, post: &Post) -> Result<Came, NoMemory>
    requires running { IsRunning run.old }
    ensures did { DoesSo (MayCome (IsPostBlock (heads_of run.old.apps.items) post.now) (CutsPost (heads_of run.old.apps.items) post.now) result) run.old run.new }
    ensures running { IsRunning run.new }
    ensures count { looper_count run.new ≡ looper_count run.old }
    ensures apps { run.new.apps ≡ run.old.apps }
    ensures sessions { sessions_of run.new ≡ sessions_of run.old }
{
    match run.find(rt, &post.app) {
        Found::Team {
            first,
            loopers,
            place,
            ..
        } => {
            if post.looper < loopers {
                post_to(run, rt, first + post.looper, post)
            } else {
                Ok(Came::no_looper(place))
            }
        }
        Found::NoTeam { place } => Ok(Came::no_team(place)),
        Found::NoMemory => Err(NoMemory),
    }
}

// Posts to that looper.
fn post_to<R: Wait>(run: &mut Run, rt: &R, looper: u32, post: &Post) -> Result<Came, NoMemory>
    requires running { IsRunning run.old }
    requires there { looper < looper_count run.old }
    ensures did { DoesSo (MayCome (IsSent post.now looper) IsNothing result) run.old run.new }
    ensures running { IsRunning run.new }
    ensures count { looper_count run.new ≡ looper_count run.old }
    ensures apps { run.new.apps ≡ run.old.apps }
    ensures sessions { sessions_of run.new ≡ sessions_of run.old }
{
    match send(run, rt, looper, post) {
        Ok(position) => Ok(Came {
            outcome: Outcome::Posted { looper, position },
            told: Told::Posted,
        }),
        Err(fault) => refusal(run, looper, fault),
    }
}

// Waits for room, or does not.
fn send<R: Wait>(run: &mut Run, rt: &R, looper: u32, post: &Post) -> Result<u64, SendFault>
    requires running { IsRunning run.old }
    requires there { looper < looper_count run.old }
    ensures did { DoesSo (PostedSo looper (post_envelope post.now) post.now.message result run.new) run.old run.new }
    ensures not_long { IsErrOf result SendFault.TooLong → ⊥ }
    ensures waits { IsErrOf result SendFault.WouldBlock → post.now.waits ≡ false }
    ensures running { IsRunning run.new }
    ensures count { looper_count run.new ≡ looper_count run.old }
    ensures apps { run.new.apps ≡ run.old.apps }
    ensures sessions { sessions_of run.new ≡ sessions_of run.old }
{
    let envelope = envelope(post.target, post.dropped);
    if post.waits {
        run.post(rt, looper, envelope, &post.message)
    } else {
        run.post_at_once(rt, looper, envelope, &post.message)
    }
}
