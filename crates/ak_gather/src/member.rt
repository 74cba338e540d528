//! A looper of the run, as main has it.
ghost use Rattle.ak_looper.specs.Job.{HasLived};
ghost use Rattle.ak_gather.specs.Members.{IsLifeOf};

use ak_looper::{Door, LooperEnd, LooperJob};
use std::snapshot::Snapshot;
use std::thread::{Promise, PromisedHandle, Threads};

/// What a looper's thread gives back is what came of that job.
#[derive(Drop)]
pub struct Lives(pub Snapshot<LooperJob>);

impl Promise<LooperEnd> for Lives {
    ghost use Rattle.ak_looper.specs.Job.{HasLived};

    ghost kept_by = { λ p end. HasLived p.0.value end };
}

/// The life of a looper: in a thread of its own, or done already, where none could be started.
#[derive(Drop)]
pub enum Life {
    /// Its thread, to be joined.
    Running(PromisedHandle<LooperEnd, Lives>),
    /// What it came to.
    Over(LooperEnd),
}

impl Life {
    /// What it came to. Waits for its thread.
    pub(crate) fn end<R: Threads>(self, rt: &R) -> LooperEnd
        ensures { (job : LooperJob) → IsLifeOf job self → HasLived job result }
    {
        match self {
            Life::Running(handle) => handle.join(rt),
            Life::Over(end) => end,
        }
    }
}

/// A looper that was started: main's door to it, what it was started with, and its life.
#[derive(Drop)]
pub struct Member {
    /// Its number.
    pub number: u32,
    /// Main's door to it.
    pub door: Door,
    /// What it was started with.
    pub job: Snapshot<LooperJob>,
    /// Its life.
    pub life: Life,
}
