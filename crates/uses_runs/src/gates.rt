//! Gates: at two a looper is held, until main lets it go or another looper passes; the third watches what passes.

ghost use Rattle.std.specs.Prelude.{◌<◌};
ghost use Rattle.ak_base.specs.Thread.{keeper_thread, looper_thread};

use ak_base::ThreadId;
use ak_outside::{Gate, Point};
use std::alloc::{AllocError, Global};
use std::hint::spin_loop;
use std::sync::atomic::AtomicU64;
use std::sync::atomic::Ordering::SeqCst;
use std::sync::{Arc, Wait};
use std::thread::yield_now;

// How often a mark is looked at before that is given up: for some seconds, and for a fraction of one.
const LONG: u32 = 20_000;

const SHORT: u32 = 400;

// Sets the mark, and wakes whoever waits for that.
fn set(mark: &AtomicU64, value: u64) {
    mark.store(value, SeqCst);
    mark.wake_all();
}

// Waits until the mark is at least that.
fn await_mark<R: Wait>(rt: &R, mark: &AtomicU64, least: u64) {
    for _ in rt.forever() {
        let value = mark.load(SeqCst);
        if value >= least {
            return;
        }
        mark.park(rt, (value % (1 << 32)) as u32);
    }
}

// Whether the mark comes to be at least that, while it is looked at so often.
fn comes_to_be(mark: &AtomicU64, least: u64, looks: u32) -> bool {
    for _ in 0..looks {
        if mark.load(SeqCst) >= least {
            return true;
        }
        for _ in 0..5000 {
            spin_loop();
        }
        yield_now();
    }
    false
}

// ---- a looper is held
const ARRIVED: u64 = 1;

const LET_GO: u64 = 2;

/// Holds one looper in its first dispatch, before the message is routed, until it is let go.
#[derive(Drop)]
pub struct Hold {
    looper: ThreadId,
    mark: Arc<AtomicU64>,
}

impl Clone for Hold {
    fn clone(&self) -> Result<Hold, AllocError> {
        Ok(Hold {
            looper: self.looper,
            mark: Arc::try_clone(&self.mark)?,
        })
    }
}

impl Gate for Hold {
    fn at<R: Wait>(&self, rt: &R, thread: ThreadId, point: Point) {
        if thread != self.looper || point != Point::BeforeDispatch {
            return;
        }
        if self.mark.load(SeqCst) == 0 {
            set(&self.mark, ARRIVED);
            await_mark(rt, &self.mark, LET_GO);
        }
    }
}

impl Hold {
    /// Of the looper with that number.
    pub fn new(alloc: Global, looper: u32) -> Result<Hold, AllocError>
        requires { looper_thread looper < keeper_thread }
    {
        Ok(Hold {
            looper: ThreadId::looper(looper),
            mark: Arc::new(alloc, AtomicU64::new(0))?,
        })
    }

    /// Waits until the looper is held.
    pub fn await_arrival<R: Wait>(&self, rt: &R) {
        await_mark(rt, &self.mark, ARRIVED);
    }

    pub fn let_go(&self) {
        set(&self.mark, LET_GO);
    }
}

// ---- a looper waits for another one
/// Holds the first looper in its first dispatch, before the message is routed, until the second one has dispatched a message.
#[derive(Drop)]
pub struct Until {
    passed: Arc<AtomicU64>,
}

impl Clone for Until {
    fn clone(&self) -> Result<Until, AllocError> {
        Ok(Until {
            passed: Arc::try_clone(&self.passed)?,
        })
    }
}

impl Gate for Until {
    fn at<R: Wait>(&self, rt: &R, thread: ThreadId, point: Point) {
        if thread == ThreadId::FIRST_LOOPER && point == Point::BeforeDispatch {
            await_mark(rt, &self.passed, 1);
        } else if thread != ThreadId::FIRST_LOOPER && point == Point::AfterDispatch {
            set(&self.passed, 1);
        }
    }
}

impl Until {
    pub fn new(alloc: Global) -> Result<Until, AllocError> {
        Ok(Until {
            passed: Arc::new(alloc, AtomicU64::new(0))?,
        })
    }
}

// ---- what passes is watched
/// Which call of a looper it is at which a watch waits: that behind the third dispatch, or that before it.
pub const BEHIND_THIRD: u64 = 6;

pub const BEFORE_THIRD: u64 = 5;

// What a watch has seen.
#[derive(Drop)]
struct Marks {
    // The calls so far.
    calls: AtomicU64,
    // Those that came at the wrong point, or for another looper.
    strange: AtomicU64,
    // 1 while a call waits, and 2 once that for which it waits is done.
    waited: AtomicU64,
    // 1 where it was done before the call gave up.
    came: AtomicU64,
}

/// Counts the calls for looper 0, each dispatch having one before it and one behind. At one of them it waits a while.
#[derive(Drop)]
pub struct Watch {
    place: u64,
    looks: u32,
    marks: Arc<Marks>,
}

impl Clone for Watch {
    fn clone(&self) -> Result<Watch, AllocError> {
        Ok(Watch {
            place: self.place,
            looks: self.looks,
            marks: Arc::try_clone(&self.marks)?,
        })
    }
}

impl Gate for Watch {
    fn at<R: Wait>(&self, _rt: &R, thread: ThreadId, point: Point) {
        let before = self.marks.calls.fetch_add(1, SeqCst);
        let is_before = point == Point::BeforeDispatch;
        if thread != ThreadId::FIRST_LOOPER || is_before != (before % 2 == 0) {
            self.marks.strange.fetch_add(1, SeqCst);
        }
        if before.wrapping_add(1) == self.place {
            set(&self.marks.waited, 1);
            if comes_to_be(&self.marks.waited, 2, self.looks) {
                set(&self.marks.came, 1);
            }
        }
    }
}

impl Watch {
    /// Waits at that call, for some seconds or for a short while.
    pub fn new(alloc: Global, place: u64, is_short: bool) -> Result<Watch, AllocError> {
        let marks = Marks {
            calls: AtomicU64::new(0),
            strange: AtomicU64::new(0),
            waited: AtomicU64::new(0),
            came: AtomicU64::new(0),
        };
        Ok(Watch {
            place,
            looks: if is_short { SHORT } else { LONG },
            marks: Arc::new(alloc, marks)?,
        })
    }

    /// Waits until the call waits.
    pub fn await_call<R: Wait>(&self, rt: &R) {
        await_mark(rt, &self.marks.waited, 1);
    }

    /// What the call waits for is done.
    pub fn tell_done(&self) {
        set(&self.marks.waited, 2);
    }

    /// What it has seen: how many calls, how many strange ones among them, and 1 where that for which it waited came.
    pub fn seen(&self) -> (u64, u64, u64) {
        (
            self.marks.calls.load(SeqCst),
            self.marks.strange.load(SeqCst),
            self.marks.came.load(SeqCst),
        )
    }
}

// ---- one of these, or none
/// The gate of a test.
#[derive(Drop)]
pub enum AnyGate {
    Open,
    Hold(Hold),
    Watch(Watch),
}

impl Clone for AnyGate {
    fn clone(&self) -> Result<AnyGate, AllocError> {
        match self {
            AnyGate::Open => Ok(AnyGate::Open),
            AnyGate::Hold(hold) => Ok(AnyGate::Hold(hold.clone()?)),
            AnyGate::Watch(watch) => Ok(AnyGate::Watch(watch.clone()?)),
        }
    }
}

impl Gate for AnyGate {
    fn at<R: Wait>(&self, rt: &R, thread: ThreadId, point: Point) {
        match self {
            AnyGate::Open => {}
            AnyGate::Hold(hold) => hold.at(rt, thread, point),
            AnyGate::Watch(watch) => watch.at(rt, thread, point),
        }
    }
}

impl AnyGate {
    /// Waits until a looper is held, or the call waits.
    pub fn await_arrival<R: Wait>(&self, rt: &R) {
        match self {
            AnyGate::Open => {}
            AnyGate::Hold(hold) => hold.await_arrival(rt),
            AnyGate::Watch(watch) => watch.await_call(rt),
        }
    }

    /// The looper goes on, and what the call waits for is done.
    pub fn let_go(&self) {
        match self {
            AnyGate::Open => {}
            AnyGate::Hold(hold) => hold.let_go(),
            AnyGate::Watch(watch) => watch.tell_done(),
        }
    }
}
