//! A run as main has it.
ghost use Rattle.std.specs.Prelude.{◌≡◌, [], false, IfOk, All};
ghost use Rattle.std.specs.Arc.{arc_value};
ghost use Rattle.ak_base.specs.Thread.{main_thread};
ghost use Rattle.ak_describe.specs.Whole.{IsWholeApp, head_of, heads_of};
ghost use Rattle.ak_roster.specs.Heads.{IsHeads};

use crate::slots::Slots;
use ak_base::{LOOPER_LIMIT, NoMemory, ThreadId};
use ak_describe::AppText;
use ak_desk::Desk;
use ak_gather::{AllJoined, Member};
use ak_looper::{KeptDoor, Shared};
use ak_messenger::Hands;
use ak_port::{PortBook, ReplyBook};
use ak_roster::{AppHead, RosterBook};
use ak_turn::{Clock, Seat, TurnLock};
use std::alloc::Global;
use std::sync::Arc;

/// A run as main has it: the applications, main's hands, its seat at the roster, the loopers that were started, by their
/// numbers, and the sessions that were opened.
#[derive(Drop)]
pub struct Run {
    pub(crate) apps: Vec<AppText>,
    pub(crate) hands: Hands,
    pub(crate) shared: Shared,
    pub(crate) roster_seat: Seat<RosterBook<KeptDoor>>,
    pub(crate) members: Vec<Member>,
    pub(crate) slots: Slots,
    // Room for the end, which takes no memory.
    pub(crate) joined: AllJoined,
    pub(crate) ports: Vec<PortBook>,
    pub(crate) desks: Vec<Desk>,
    ghost book: { arc_value hands.book ≡ arc_value shared.book },
    ghost main: { hands.clock.thread.0 ≡ main_thread },
    ghost roster_of: { roster_seat.lock ≡ arc_value shared.roster },
    ghost roster_idle: { roster_seat.turn ≡ false },
    ghost roster_thread: { roster_seat.thread ≡ hands.clock.thread.0 },
}

// What the roster knows of the application.
fn head_of(app: &AppText) -> Result<AppHead, NoMemory>
    requires { IsWholeApp app.now }
    ensures { IfOk result (λ head. head ≡ head_of app.now) }
{
    Ok(AppHead {
        path: app.path.try_clone()?,
        signature: app.signature.try_clone()?,
        mode: app.mode,
        loopers: app.loopers.as_slice().len() as u32,
    })
}

fn heads_of(alloc: Global, apps: &[AppText]) -> Result<Vec<AppHead>, NoMemory>
    requires { All IsWholeApp apps.now }
    ensures { IfOk result (λ heads. heads.items ≡ heads_of apps.now) }
{
    let mut heads = Vec::with_capacity(alloc, apps.len())?;
    for app in apps {
        heads.push(head_of(app)?)?;
    }
    Ok(heads)
}

impl Run {
    ghost use Rattle.ak_run.specs.Doing.{HasDoneSoFar};
    ghost use Rattle.ak_run.specs.Running.{IsRunning};
    ghost use Rattle.ak_run.specs.Sending.{looper_count};
    ghost use Rattle.ak_run.specs.Sessions.{sessions_of};

    /// A run of these applications, which are as a description gives them, and in which nothing was done. It makes room for what its end
    /// needs. Answers `NoMemory` where memory ran out.
    pub fn new(alloc: Global, apps: Vec<AppText>) -> Result<Run, NoMemory>
        requires whole { All IsWholeApp apps.items }
        requires heads { IsHeads (heads_of apps.items) }
        ensures running { IfOk result (λ run. IsRunning run) }
        ensures apps { IfOk result (λ run. run.apps.items ≡ apps.items) }
        ensures none { IfOk result (λ run. looper_count run ≡ 0) }
        ensures sessions { IfOk result (λ run. sessions_of run ≡ []) }
        ensures nothing { IfOk result (λ run. HasDoneSoFar [] run) }
    {
        let heads = heads_of(alloc, &apps)?;
        let roster = RosterBook::new(alloc, heads)?;
        let (roster, roster_seat) = TurnLock::new(alloc, roster, ThreadId::MAIN)?;
        let (book, book_seat) = TurnLock::new(alloc, ReplyBook::new(alloc)?, ThreadId::MAIN)?;
        let shared = Shared {
            book: Arc::try_clone(&book)?,
            roster,
        };
        let hands = Hands {
            clock: Clock {
                thread: ThreadId::MAIN,
                time: 0,
            },
            book,
            book_seat,
        };
        Ok(Run {
            members: Vec::with_capacity(alloc, LOOPER_LIMIT as usize)?,
            slots: Slots {
                sessions: Vec::new(alloc),
                ways: Vec::new(alloc),
            },
            joined: AllJoined {
                loopers: Vec::with_capacity(alloc, LOOPER_LIMIT as usize)?,
                ways: Vec::with_capacity(alloc, LOOPER_LIMIT as usize)?,
                short: Vec::with_capacity(alloc, LOOPER_LIMIT as usize)?,
            },
            ports: Vec::with_capacity(alloc, LOOPER_LIMIT as usize)?,
            desks: Vec::with_capacity(alloc, LOOPER_LIMIT as usize)?,
            apps,
            hands,
            shared,
            roster_seat,
        })
    }
}
