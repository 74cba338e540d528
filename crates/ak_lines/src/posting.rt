//! Posts.
ghost use Rattle.std.specs.Prelude.{◌≡◌, ℕ, List, false, IsErrOf};
ghost use Rattle.ak_roster.specs.declared.head.AppHead.{AppHead};
ghost use Rattle.ak_diary.specs.Step.{Step};
ghost use Rattle.ak_session.specs.Doing.{PostedSo, SendsThrough};
ghost use Rattle.ak_session.specs.Stands.{GoesOn, IsStanding, KeepsSession, Stands, front_at};
ghost use Rattle.ak_lines.specs.Blocks.{CutsPost, IsPostLine};
ghost use Rattle.ak_lines.specs.Came.{EndsInVain, IsSent, MayCome, post_envelope};

use crate::came::Came;
use crate::outcome::Outcome;
use crate::refusing::{envelope, refusal};
use ak_base::NoMemory;
use ak_messenger::SendFault;
use ak_print::Told;
use ak_script::Post;
use ak_session::{Found, Session};
use std::alloc::Global;
use std::sync::Wait;

/// Posts to the looper of the team at that place.
pub(crate) fn post<R: Wait>(
    alloc: Global,
    rt: &R,
    session: &mut Session,
    post: &Post,
) -> Result<Came, NoMemory>
    requires standing { IsStanding session.old }
    ensures goes { (heads : List AppHead) (start : ℕ) (so_far : List Step) → Stands heads start so_far session.old → GoesOn heads start so_far (MayCome (IsPostLine heads so_far post.now) (CutsPost heads so_far post.now) result) session.new }
    ensures standing { IsStanding session.new }
    ensures keeps { KeepsSession session.old session.new }
{
    match session.find(rt, &post.app) {
        Found::Team {
            first,
            loopers,
            place,
            ..
        } => {
            if post.looper < loopers {
                post_to(alloc, rt, session, first + post.looper, post)
            } else {
                Ok(Came::no_looper(place))
            }
        }
        Found::NoTeam { place } => Ok(Came::no_team(place)),
        Found::NoMemory => Err(NoMemory),
    }
}

// Posts to that looper.
fn post_to<R: Wait>(
    alloc: Global,
    rt: &R,
    session: &mut Session,
    looper: u32,
    post: &Post,
) -> Result<Came, NoMemory>
    requires standing { IsStanding session.old }
    ensures goes { (heads : List AppHead) (start : ℕ) (so_far : List Step) → Stands heads start so_far session.old → GoesOn heads start so_far (MayCome (IsSent so_far post.now looper) (EndsInVain so_far looper) result) session.new }
    ensures standing { IsStanding session.new }
    ensures keeps { KeepsSession session.old session.new }
{
    match send(alloc, rt, session, looper, post) {
        Ok(position) => Ok(Came {
            outcome: Outcome::Posted { looper, position },
            told: Told::Posted,
        }),
        Err(fault) => refusal(session, looper, fault),
    }
}

// Waits for room, or does not.
fn send<R: Wait>(
    alloc: Global,
    rt: &R,
    session: &mut Session,
    looper: u32,
    post: &Post,
) -> Result<u64, SendFault>
    requires standing { IsStanding session.old }
    ensures goes { (heads : List AppHead) (start : ℕ) (so_far : List Step) → Stands heads start so_far session.old → GoesOn heads start so_far (SendsThrough so_far looper result (PostedSo looper (post_envelope post.now) post.now.message result (front_at session.new looper))) session.new }
    ensures not_long { IsErrOf result SendFault.TooLong → ⊥ }
    ensures waits { IsErrOf result SendFault.WouldBlock → post.now.waits ≡ false }
    ensures standing { IsStanding session.new }
    ensures keeps { KeepsSession session.old session.new }
{
    let envelope = envelope(post.target, post.dropped);
    if post.waits {
        session.post(alloc, rt, looper, envelope, &post.message)
    } else {
        session.post_at_once(alloc, rt, looper, envelope, &post.message)
    }
}
