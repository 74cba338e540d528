//! Two locks do not wait for each other.
ghost use Rattle.std.specs.Prelude.{◌≡◌, false};
ghost use Rattle.std.specs.Arc.{arc_value};

use super::tally::Tally;
use ak_base::ThreadId;
use ak_turn::{Seat, TurnLock};
use std::alloc::Global;
use std::sync::atomic::AtomicBool;
use std::sync::atomic::Ordering::SeqCst;
use std::sync::{Arc, Wait};
use std::test::Fail;
use std::thread;
use std::thread::yield_now;

/// How often the first thread yields at most before it gives up.
const YIELDS: u32 = 10_000_000;

// Takes and finishes a turn, and says so.
fn visit<R: Wait>(rt: &R, lock: &TurnLock<Tally>, mut seat: Seat<Tally>, done: &AtomicBool)
    requires of { seat.lock ≡ lock.now }
    requires idle { seat.turn ≡ false }
{
    lock.lock(rt, &mut seat).finish(&mut seat);
    done.store(true, SeqCst);
}

// Yields until it is done, and says whether it came to that.
fn yield_until(done: &AtomicBool) -> bool {
    for _ in 0..YIELDS {
        if done.load(SeqCst) {
            return true;
        }
        yield_now();
    }
    false
}

#[test]
fn two_locks_do_not_wait_for_each_other(rt: HostRuntime) -> Result<(), Fail> {
    let alloc: Global = rt.alloc();
    let main = ThreadId(0);
    let (first, mut seat) = TurnLock::new(alloc, Tally::new(alloc), main)?;
    let (second, mut head) = TurnLock::new(alloc, Tally::new(alloc), main)?;
    let visitor = second.split(&mut head, ThreadId(1));
    let done = Arc::new(alloc, AtomicBool::new(false))?;
    let theirs = Arc::try_clone(&done)?;
    let turn = first.lock(&rt, &mut seat);
    let started = thread::spawn(
        &rt,
        move ||
            requires { (visitor.lock ≡ arc_value second) × (visitor.turn ≡ false) }
        { visit(&rt, &second, visitor, &theirs) },
    );
    match started {
        Ok(child) => {
            let came = yield_until(&done);
            turn.finish(&mut seat);
            child.join(&rt);
            assert!(rt; came, "one lock stands behind both");
        }
        Err(_) => turn.finish(&mut seat),
    }
    Ok(())
}
