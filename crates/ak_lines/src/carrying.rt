//! Lines, one after the other.
ghost use Rattle.std.specs.Prelude.{◌≡◌, ◌≤◌, ℕ, List, [], length, vec_capacity};
ghost use Rattle.ak_roster.specs.declared.head.AppHead.{AppHead};
ghost use Rattle.ak_diary.specs.Step.{Step};
ghost use Rattle.ak_session.specs.Stands.{GoesOn, IsStanding, KeepsSession, Stands};
ghost use Rattle.ak_lines.specs.Blocks.{IsCutLine, IsLine};
ghost use Rattle.ak_lines.specs.Came.{MayCome};
ghost use Rattle.ak_lines.specs.Carried.{HasCarriedOut, HasCarriedTo, IsReadyJob};

use crate::asking::hey;
use crate::came::Came;
use crate::job::{SessionEnd, SessionJob};
use crate::locking::lock;
use crate::outcome::Outcome;
use crate::posting::post;
use ak_base::NoMemory;
use ak_print::Told;
use ak_script::SessionLine;
use ak_session::{Session, ready_sessions_stand};
use std::alloc::Global;
use std::sync::Wait;

/// Carries out the lines, one after the other, as the session's thread. Waits.
pub fn run_session<R: Wait>(alloc: Global, rt: &R, job: SessionJob) -> SessionEnd
    requires ready { IsReadyJob job }
    ensures { HasCarriedOut job result }
{
    ready_sessions_stand();
    let SessionJob {
        lines,
        mut session,
        mut outcomes,
        mut tolds,
    } = job;
    let carried = carry_out_all(
        alloc,
        rt,
        &mut session,
        &lines.lines,
        &mut outcomes,
        &mut tolds,
    );
    SessionEnd {
        outcomes,
        tolds,
        session,
        short: carried.is_err(),
    }
}

// Carries them out as far as there is memory, and keeps what each came to.
fn carry_out_all<R: Wait>(
    alloc: Global,
    rt: &R,
    session: &mut Session,
    lines: &[SessionLine],
    outcomes: &mut Vec<Outcome>,
    tolds: &mut Vec<Told>,
) -> Result<(), NoMemory>
    requires standing { IsStanding session.old }
    requires no_outcomes { outcomes.old.items ≡ [] }
    requires no_tolds { tolds.old.items ≡ [] }
    requires room_for_outcomes { length lines.now ≤ vec_capacity outcomes.old }
    requires room_for_tolds { length lines.now ≤ vec_capacity tolds.old }
    ensures carried { (heads : List AppHead) (start : ℕ) → Stands heads start [] session.old → HasCarriedTo heads start lines.now result outcomes.new.items tolds.new.items session.new }
    ensures keeps { KeepsSession session.old session.new }
{
    for line in lines {
        let came = carry_out(alloc, rt, session, line)?;
        outcomes.push_reserved(came.outcome);
        tolds.push_reserved(came.told);
    }
    Ok(())
}

// Carries out one line.
fn carry_out<R: Wait>(
    alloc: Global,
    rt: &R,
    session: &mut Session,
    line: &SessionLine,
) -> Result<Came, NoMemory>
    requires standing { IsStanding session.old }
    ensures goes { (heads : List AppHead) (start : ℕ) (so_far : List Step) → Stands heads start so_far session.old → GoesOn heads start so_far (MayCome (IsLine heads so_far line.now) (IsCutLine heads so_far line.now) result) session.new }
    ensures standing { IsStanding session.new }
    ensures keeps { KeepsSession session.old session.new }
{
    match line {
        SessionLine::Hey(line) => hey(alloc, rt, session, line),
        SessionLine::Post(line) => post(alloc, rt, session, line),
        SessionLine::Lock(line) => lock(rt, session, line),
    }
}
