// Starts of threads by spawners, and what a thread passes at a dispatch.

ghost use Rattle.std.specs.Prelude.{◌≡◌, ◌*◌, IsTrue, IsFalse};
ghost use Rattle.ak_outside.specs.Calls.{RefusesNext};
ghost use Rattle.ak_outside.specs.Faults.{Rose, raised};

use crate::compare::same;
use ak_base::ThreadId;
use ak_outside::{Gate, OpenGate, PlannedSpawner, Point, Spawner, StdSpawner, start_by};
use std::alloc::AllocError;
use std::sync::atomic::AtomicU64;
use std::sync::atomic::Ordering::SeqCst;
use std::sync::{Arc, Wait};
use std::test::Fail;
use std::thread::{Promise, Threads};

// The square of this number is answered.
#[derive(Clone, Copy)]
struct SquareOf(u32);

impl Promise<u64> for SquareOf {
    ghost kept_by = { λ promise answer. answer ≡ promise.0 * promise.0 };
}

fn square(number: u32) -> u64
    ensures { result ≡ number * number }
{
    number as u64 * number as u64
}

// The square of a number, and whether a thread was started for it. Otherwise this one makes it.
fn square_by<W: Spawner, R: Threads>(spawner: &mut W, rt: &R, number: u32) -> (u64, bool)
    ensures square { result.0 ≡ number * number }
    ensures kept { IsTrue result.1 → W.faults spawner.new ≡ W.faults spawner.old }
    ensures cause { IsFalse result.1 → Rose (W.faults spawner.old) (W.faults spawner.new) }
{
    match start_by(spawner, rt, SquareOf(number), move || square(number)) {
        Ok(handle) => (handle.join(rt), true),
        Err(work) => (work(), false),
    }
}

// The squares of three numbers, each by a start of its own.
fn squares_by<W: Spawner, R: Threads>(spawner: &mut W, rt: &R) -> [(u64, bool); 3] {
    [
        square_by(spawner, rt, 3),
        square_by(spawner, rt, 4),
        square_by(spawner, rt, 5),
    ]
}

// Whether a thread is started. It is not where this start is one of those that are refused.
fn is_started<R: Threads>(spawner: &mut PlannedSpawner, rt: &R) -> bool
    ensures refused { RefusesNext spawner.old → IsFalse result }
    ensures asked { spawner.new.made ≡ raised spawner.old.made }
{
    match start_by(spawner, rt, SquareOf(6), move || square(6)) {
        Ok(handle) => {
            handle.join(rt);
            true
        }
        Err(_) => false,
    }
}

#[test]
fn refused_starts_give_the_work_back(rt: HostRuntime) -> Result<(), Fail> {
    let mut planned = PlannedSpawner::new(Vec::from_slice(rt.alloc(), &[2, 4])?);
    let squares = squares_by(&mut planned, &rt);
    let fourth = is_started(&mut planned, &rt);
    same(
        &rt,
        "the second and the fourth are refused",
        (squares, fourth, planned.asked()),
        ([(9, true), (16, false), (25, true)], false, 4),
    );
    same(
        &rt,
        "the system refuses none",
        squares_by(&mut StdSpawner::new(), &rt),
        [(9, true), (16, true), (25, true)],
    );
    Ok(())
}

// Adds 1 at each point before a dispatch, and 100 at each behind one.
#[derive(Drop)]
struct Counter {
    passed: Arc<AtomicU64>,
}

impl Clone for Counter {
    fn clone(&self) -> Result<Counter, AllocError> {
        Ok(Counter {
            passed: Arc::try_clone(&self.passed)?,
        })
    }
}

impl Gate for Counter {
    fn at<R: Wait>(&self, _rt: &R, _thread: ThreadId, point: Point) {
        let step = match point {
            Point::BeforeDispatch => 1,
            Point::AfterDispatch => 100,
        };
        self.passed.fetch_add(step, SeqCst);
    }
}

// Comes to both points of a dispatch.
fn pass<G: Gate, R: Wait>(gate: &G, rt: &R) {
    gate.at(rt, ThreadId::FIRST_LOOPER, Point::BeforeDispatch);
    gate.at(rt, ThreadId::FIRST_LOOPER, Point::AfterDispatch);
}

// Nothing is asked of what is answered.
#[derive(Clone, Copy)]
struct Passed;

impl Promise<()> for Passed {
    ghost kept_by = { λ _ _. Unit {0} };
}

// A thread of the system's passes the gate, or this one where it cannot be started.
fn pass_there<G: Gate + 'static, R: Threads + Wait + Copy + Send + 'static>(rt: &R, gate: G) {
    let copy = *rt;
    match start_by(
        &mut StdSpawner::new(),
        rt,
        Passed,
        move || pass(&gate, &copy),
    ) {
        Ok(handle) => handle.join(rt),
        Err(work) => work(),
    }
}

#[test]
fn gates_are_passed(rt: HostRuntime) -> Result<(), Fail> {
    let passed = Arc::new(rt.alloc(), AtomicU64::new(0))?;
    let gate = Counter {
        passed: Arc::try_clone(&passed)?,
    };
    pass_there(&rt, gate.clone()?);
    pass(&gate, &rt);
    pass(&OpenGate, &rt);
    same(&rt, "two counters", passed.load(SeqCst), 202);
    Ok(())
}
