ghost use Rattle.std.specs.Prelude.{◌≡◌, ◌<◌};
ghost use Rattle.ak_base.specs.Thread.{main_thread, looper_thread, keeper_thread};

/// Who acts in a run, by its number. Main is 0, and the sessions of a script count from 1 in the order of
/// their lines. Looper L is 10,000 + L. The keeper of the roster's doors, which makes no entry, is 20,000.
#[derive(Clone, Copy, Debug, PartialEq, Eq, PartialOrd, Ord)]
pub struct ThreadId(pub u32);

impl ThreadId {
    /// Main, which launches.
    pub const MAIN: ThreadId = ThreadId(0);
    /// Looper 0. Those of the other loopers follow it in the order of their numbers.
    pub const FIRST_LOOPER: ThreadId = ThreadId(10_000);
    /// The keeper of the roster's doors.
    pub const KEEPER: ThreadId = ThreadId(20_000);

    /// The thread of the looper of that number, which comes before the keeper. Takes no memory.
    pub fn looper(number: u32) -> ThreadId
        requires { looper_thread number < keeper_thread }
        ensures { result.0 ≡ looper_thread number }
    {
        ThreadId(ThreadId::FIRST_LOOPER.0 + number)
    }
}

/// The named threads are main, the first looper and the keeper.
pub fn threads_are_named()
    ensures main { ThreadId.MAIN.0 ≡ main_thread }
    ensures first_looper { ThreadId.FIRST_LOOPER.0 ≡ looper_thread 0 }
    ensures keeper { ThreadId.KEEPER.0 ≡ keeper_thread }
{}
