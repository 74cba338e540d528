//! Bells: where threads wait for an entry, so that it wakes only those whom it concerns. No clause depends on them.
use std::array::from_fn;
use std::sync::atomic::AtomicU64;
use std::sync::atomic::Ordering::SeqCst;

/// How many bells a lock has.
pub const BELL_COUNT: usize = 64;

/// Which bells of its lock an entry rings. A bell goes by a number. Numbers with the same remainder by `BELL_COUNT` are
/// of one bell, so whoever waits there may be woken by an entry that does not concern it.
#[derive(Clone, Copy, Debug, PartialEq, Eq)]
pub enum Bells {
    All,
    None,
    One(u64),
}

/// Where threads wait.
#[derive(Drop)]
pub(crate) struct Bell {
    /// How many threads wait there.
    pub(crate) waiting: AtomicU64,
    /// How often it was rung while one waited. They park on this word.
    pub(crate) rung: AtomicU64,
}

impl Bell {
    fn quiet() -> Bell {
        Bell {
            waiting: AtomicU64::new(0),
            rung: AtomicU64::new(0),
        }
    }

    // Wakes all who wait there, if one does.
    fn ring(&self) {
        if self.waiting.load(SeqCst) != 0 {
            self.rung.fetch_add(1, SeqCst);
            self.rung.wake_all();
        }
    }
}

/// The threads that wait for an entry at a lock.
#[derive(Drop)]
pub(crate) struct Watchers {
    /// How many wait, at whatever bell.
    pub(crate) all: AtomicU64,
    /// The bell that each entry rings.
    each: Bell,
    bells: [Bell; BELL_COUNT],
}

impl Watchers {
    pub(crate) fn nobody() -> Watchers {
        Watchers {
            all: AtomicU64::new(0),
            each: Bell::quiet(),
            bells: from_fn(|_| Bell::quiet()),
        }
    }

    /// The bell that each entry rings.
    pub(crate) fn each(&self) -> &Bell {
        &self.each
    }

    /// The bell of that number.
    pub(crate) fn bell(&self, number: u64) -> &Bell {
        &self.bells[(number % BELL_COUNT as u64) as usize]
    }

    /// Wakes those who wait at the bells that a new entry rings.
    #[cold]
    #[inline(never)]
    pub(crate) fn ring(&self, bells: Bells) {
        self.each.ring();
        match bells {
            Bells::All => {
                for bell in &self.bells {
                    bell.ring();
                }
            }
            Bells::None => {}
            Bells::One(number) => self.bell(number).ring(),
        }
    }
}
