//! The end of a run of statements.
ghost use Rattle.std.specs.Prelude.{◌≡◌, ◌≤◌, List, true};
ghost use Rattle.ak_describe.specs.Whole.{AreWholeApps, heads_of};
ghost use Rattle.ak_diary.specs.Step.{Step};
ghost use Rattle.ak_headline.specs.Headline.{EachGotOneReply, EachLooper, IsAccounted, IsByRule};
ghost use Rattle.ak_headline.specs.Run.{IsRunWith};
ghost use Rattle.ak_run.specs.Running.{IsRunning};
ghost use Rattle.ak_run.specs.Sessions.{all_closed, session_count};
ghost use Rattle.ak_script.specs.Limits.{statement_limit};
ghost use Rattle.ak_script.specs.Statement.{lines_in};
ghost use Rattle.ak_script.specs.StatementSeen.{statements_seen};
ghost use Rattle.ak_run.specs.AtEnd.{DoneAtEnd, SessionsDone};
ghost use Rattle.ak_run.specs.Doing.{HasDoneSoFar};
ghost use Rattle.ak_run.specs.Ending.{EndsAs};
ghost use Rattle.ak_run.specs.Opened.{WereOpened};
ghost use Rattle.ak_play.specs.Steps.{any_short, ended_as, is_lack, lines_after};

use crate::gathered::Gathered;
use crate::run_end::{RunEnd, Short};
use crate::stop::{Stop, is_lack, lines_after};
use ak_base::{Ending, Items};
use ak_run::{Ended, Run};
use ak_script::{Script, Statement};
use std::sync::Wait;
use std::thread::Threads;

// How it ended: done, unless a session or a looper found no memory.
fn ending_of(played: Result<(), Stop>, lacked: bool) -> Ending
    ensures { result ≡ ended_as played lacked }
{
    match played {
        Ok(()) if lacked => Ending::NoMemory,
        Ok(()) => Ending::Done,
        Err(Stop::WriteFault) => Ending::WriteFault,
        Err(Stop::ThreadFault(_)) => Ending::ThreadFault,
        Err(Stop::NoMemory(_)) => Ending::NoMemory,
    }
}

/// Ends the run of these statements.
pub(crate) fn finish<R: Threads + Wait>(
    rt: &R,
    run: Run,
    statements: Vec<Statement>,
    gathered: Gathered,
    played: Result<(), Stop>,
) -> (RunEnd, Ending)
    requires running { IsRunning run }
    requires closed { all_closed run ≡ true }
    requires whole { ∥ AreWholeApps run.apps.items ∥₁ }
    requires few { lines_in (statements_seen statements.items) ≤ statement_limit }
    ensures ending { result.1 ≡ ended_as played (any_short result.0.short) }
    ensures run { IsRunWith (session_count run) (heads_of run.apps.items) result.0.short.loopers result.0.histories }
    ensures sessions { SessionsDone run result.0.histories }
    ensures accepted { EachLooper result.0.histories IsAccounted }
    ensures dispatched { EachLooper result.0.histories IsByRule }
    ensures answered { EachGotOneReply result.0.short.loopers result.0.histories }
    ensures opened { WereOpened run.apps.items result.0.histories }
    ensures apps { result.0.script.apps.items ≡ run.apps.items }
    ensures statements { result.0.script.statements.items ≡ statements.items }
    ensures outcomes { result.0.outcomes ≡ gathered.outcomes.items }
    ensures tolds { result.0.tolds ≡ gathered.tolds.items }
    ensures lines { result.0.lines ≡ lines_after played }
    ensures short { result.0.short.main ≡ is_lack played }
    ensures short_sessions { result.0.short.sessions ≡ gathered.short.items }
    ensures same { EndsAs run result.0.histories }
    ensures did { (steps : List Step) → HasDoneSoFar steps run → DoneAtEnd (heads_of run.apps.items) steps result.0.histories }
{
    let Ended {
        apps,
        histories,
        short: loopers,
    } = run.end(rt);
    let Gathered {
        outcomes,
        tolds,
        short,
    } = gathered;
    let lacked = !short.is_empty() || !loopers.as_slice().is_empty();
    let end = RunEnd {
        script: Script { apps, statements },
        outcomes: Items::from_vec(outcomes),
        tolds: Items::from_vec(tolds),
        lines: lines_after(&played),
        histories,
        short: Short {
            main: is_lack(&played),
            sessions: Items::from_vec(short),
            loopers,
        },
    };
    (end, ending_of(played, lacked))
}
