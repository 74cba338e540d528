//! The next handlers, and the chains that they form.
ghost use Rattle.std.specs.Prelude.{◌≡◌, ◌==◌, Err, IfSome, IfNone, IsOk, OnOk, OnErr};
ghost use Rattle.std.specs.List.{list_any};
ghost use Rattle.ak_handler.specs.Changes.{next_fault, with_next};
ghost use Rattle.ak_handler.specs.Handlers.{chain_from};

use crate::fault::HandlerFault;
use crate::set::{HandlerSet, LOOPER};

impl<R: Drop> HandlerSet<R> {
    /// Gives the handler with that token another next handler, or none. `BadHandler` where either is not
    /// there, `IsLooper` for token 0, `ChainLoop` where the new chain would come back to the handler. An
    /// `Err` changes nothing. It has no answer for want of memory. The three are tested in this order. (The
    /// Be Book, The Application Kit, BHandler: SetNextHandler().)
    pub fn set_next(&mut self, token: u64, next: Option<u64>) -> Result<(), HandlerFault>
        ensures refused { IfSome (next_fault self.old token next) (λ f. result ≡ Err f) }
        ensures only { IfNone (next_fault self.old token next) (IsOk result) }
        ensures ok { OnOk result (self.new ≡ with_next self.old token next) }
        ensures err { OnErr result (self.new ≡ self.old) }
    {
        let Some(place) = self.place(token) else {
            return Err(HandlerFault::BadHandler);
        };
        if !self.may_be(next) {
            return Err(HandlerFault::BadHandler);
        }
        if token == LOOPER {
            return Err(HandlerFault::IsLooper);
        }
        if self.meets(next, token) {
            return Err(HandlerFault::ChainLoop);
        }
        self.rows.set_next(place, next);
        Ok(())
    }

    // Whether the chain from there meets the handler.
    #[tactic(auto, using(crate::proofs::Meeting::meeting))]
    fn meets(&self, from: Option<u64>, token: u64) -> bool
        ensures { result ≡ list_any (λ t. t == token) (chain_from self.now.list from) }
    {
        let mut at = from;
        for _ in 0..self.len() {
            let Some(current) = at else {
                return false;
            };
            if current == token {
                return true;
            }
            at = self.next_of(current);
        }
        false
    }
}
