//! Hey lines.
ghost use Rattle.std.specs.Prelude.{◌≡◌, ℕ, List};
ghost use Rattle.ak_roster.specs.declared.head.AppHead.{AppHead};
ghost use Rattle.ak_diary.specs.Step.{Step};
ghost use Rattle.ak_session.specs.Stands.{GoesOn, IsStanding, KeepsSession, Stands};
ghost use Rattle.ak_lines.specs.Blocks.{CutsHey, IsHeyLine};
ghost use Rattle.ak_lines.specs.Came.{IsAsked, IsAskedInVain, MayCome};

use crate::came::Came;
use crate::outcome::Outcome;
use crate::refusing::{envelope, refusal};
use ak_base::NoMemory;
use ak_message::Target;
use ak_print::Told;
use ak_script::Hey;
use ak_session::{Found, Session};
use std::alloc::Global;
use std::sync::Wait;

/// Asks the preferred handler of the team's first looper, and waits for the reply.
pub(crate) fn hey<R: Wait>(
    alloc: Global,
    rt: &R,
    session: &mut Session,
    hey: &Hey,
) -> Result<Came, NoMemory>
    requires standing { IsStanding session.old }
    ensures goes { (heads : List AppHead) (start : ℕ) (so_far : List Step) → Stands heads start so_far session.old → GoesOn heads start so_far (MayCome (IsHeyLine heads so_far hey.now) (CutsHey heads so_far hey.now) result) session.new }
    ensures standing { IsStanding session.new }
    ensures keeps { KeepsSession session.old session.new }
{
    match session.find(rt, &hey.app) {
        Found::Team { first, .. } => ask_looper(alloc, rt, session, first, hey),
        Found::NoTeam { place } => Ok(Came::no_team(place)),
        Found::NoMemory => Err(NoMemory),
    }
}

// Asks that looper.
fn ask_looper<R: Wait>(
    alloc: Global,
    rt: &R,
    session: &mut Session,
    looper: u32,
    hey: &Hey,
) -> Result<Came, NoMemory>
    requires standing { IsStanding session.old }
    ensures goes { (heads : List AppHead) (start : ℕ) (so_far : List Step) → Stands heads start so_far session.old → GoesOn heads start so_far (MayCome (IsAsked so_far hey.now looper) (IsAskedInVain so_far hey.now looper) result) session.new }
    ensures standing { IsStanding session.new }
    ensures keeps { KeepsSession session.old session.new }
{
    let envelope = envelope(Target::Preferred, false);
    match session.ask(alloc, rt, looper, envelope, &hey.message) {
        Ok(reply) => Ok(Came {
            outcome: Outcome::Replied { slot: reply.slot },
            told: Told::Reply(reply.message),
        }),
        Err(fault) => refusal(session, looper, fault),
    }
}
