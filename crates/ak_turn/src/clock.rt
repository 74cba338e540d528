ghost use Rattle.std.specs.Prelude.{◌≡◌, ◌+◌, ◌<◌, ◌^◌, max};

use crate::waiting::rest_for_ever;
use ak_base::ThreadId;
use std::sync::Wait;

/// The clock of one thread. It is no clock of the world: it gives each new entry its stamp, of whatever object.
/// A stamp is greater than those of the thread's earlier entries, and than that of the object's last one. The
/// clock of a new thread is to begin at the time of the thread that starts it; nothing tests that. No clock is
/// copied.
#[derive(Debug, Drop)]
pub struct Clock {
    /// The thread whose clock it is, which makes the entries.
    pub thread: ThreadId,
    /// The last stamp that it gave, or where it began.
    pub time: u64,
}

impl Clock {
    /// The stamp of a new entry of an object with that last stamp, 0 where it has no entry. It is one more than
    /// the greater of the last stamp and the time, and becomes the time. The last stamp and the time are below
    /// 2^63, as `ready` and `lock` see to. Takes no memory.
    pub fn stamp(&mut self, last_stamp: u64) -> u64
        requires time { self.old.time < 2 ^ 63 }
        requires last { last_stamp < 2 ^ 63 }
        ensures value { result ≡ 1 + max self.old.time last_stamp }
        ensures clock { self.new ≡ record self.old { time = result } }
    {
        self.time = 1 + self.time.max(last_stamp);
        self.time
    }

    /// Waits, and returns only where the time is below 2^63: a run that came to so many stamps would not
    /// return. Takes no memory.
    pub fn ready<R: Wait>(&self, rt: &R)
        ensures { self.now.time < 2 ^ 63 }
    {
        if self.time >= 1 << 63 {
            rest_for_ever(rt);
        }
    }
}
