ghost use Rattle.std.specs.Prelude.{◌≡◌, ◌≤◌, ℕ, Option, None, IsTrue, IsFalse, IfOk, IfErr, OnOk, OnErr};
ghost use Rattle.ak_outside.specs.Calls.{Calls};
ghost use Rattle.ak_outside.specs.Faults.{Rose};
ghost use Rattle.ak_outside.specs.Spawner.{Asks, CountsFault, HasGivenBack, HasStarted};

use std::thread::{Promise, PromisedHandle, Threads, spawn_with};

/// Says that the system has not started a thread that it was asked for. Only `start_by` makes one, so nobody
/// else can have a fault counted.
#[derive(Debug, Drop)]
pub struct NotStarted(());

/// Who decides whether threads are started, and counts the starts that are refused. `start_by` starts them.
pub trait Spawner {
    /// The starts that were asked for, where they are told.
    ghost calls: { Self → Option Calls } = { λ _. None };

    /// How many starts were refused so far, by the spawner or by the system.
    ghost faults: { Self → ℕ };

    /// Whether the start that is asked for now is refused without being tried. That raises the count of
    /// faults; otherwise the count stays. A count at the end of a `u64` need not rise.
    fn refuses(&mut self) -> bool
        ensures asked { Asks (calls self.old) (calls self.new) result }
        ensures never_falls { faults self.old ≤ faults self.new }
        ensures cause { IsTrue result → Rose (faults self.old) (faults self.new) }
        ensures kept { IsFalse result → faults self.new ≡ faults self.old };

    /// Counts the start that was asked for last as a fault, since the system has not started it.
    fn failed(&mut self, start: NotStarted)
        ensures told { CountsFault (calls self.old) (calls self.new) }
        ensures never_falls { faults self.old ≤ faults self.new }
        ensures cause { Rose (faults self.old) (faults self.new) };
}

/// Starts a thread that does the work. What the work answers has to keep the promise, whatever it is; so what
/// `join` of the handle gives keeps it. Where the spawner or the system refuses the start, the count of faults
/// rises and the work is given back as it was, to be done by the caller; otherwise the count stays. The promise
/// itself is let go in any case.
#[tactic(auto, using(crate::proofs::Starts::starts))]
pub fn start_by<
    W: Spawner,
    R: Threads,
    T: Send + Drop + 'static,
    P: Promise<T> + Drop,
    F: FnOnce() -> T + Send + 'static,
>(spawner: &mut W, rt: &R, promise: P, work: F) -> Result<PromisedHandle<T, P>, F>
    requires runs { F.pre work }
    requires keeps { (answer : T) → F.post work answer → P.kept_by promise answer }
    ensures ok { IfOk result (λ handle. handle.promise ≡ promise) }
    ensures started { OnOk result (HasStarted (W.calls spawner.old) (W.calls spawner.new)) }
    ensures kept { OnOk result (W.faults spawner.new ≡ W.faults spawner.old) }

    ensures back { IfErr result (λ back. back ≡ work) }
    ensures given_back { OnErr result (HasGivenBack (W.calls spawner.old) (W.calls spawner.new)) }
    ensures cause { OnErr result (Rose (W.faults spawner.old) (W.faults spawner.new)) }
    ensures never_falls { W.faults spawner.old ≤ W.faults spawner.new }
{
    if spawner.refuses() {
        return Err(work);
    }
    match spawn_with(rt, promise, work) {
        Ok(handle) => Ok(handle),
        Err(refused) => {
            spawner.failed(NotStarted(()));
            Err(refused.value)
        }
    }
}
