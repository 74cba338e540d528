//! What all threads of a run share.
ghost use Rattle.std.specs.Prelude.{IfOk};

use crate::roster::Roster;
use ak_base::NoMemory;
use ak_port::ReplyBook;
use ak_turn::TurnLock;
use std::sync::Arc;

/// The objects that all threads of a run share.
#[derive(Drop)]
pub struct Shared {
    /// The reply book.
    pub book: Arc<TurnLock<ReplyBook>>,
    /// The roster.
    pub roster: Arc<Roster>,
}

impl Shared {
    ghost use Rattle.ak_looper.specs.Shared.{AreSame};

    /// The same objects, shared once more.
    pub fn try_clone(&self) -> Result<Shared, NoMemory>
        ensures { IfOk result (λ s. AreSame s self.now) }
    {
        let book = Arc::try_clone(&self.book)?;
        let roster = Arc::try_clone(&self.roster)?;
        Ok(Shared { book, roster })
    }
}
