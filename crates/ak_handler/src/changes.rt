ghost use Rattle.std.specs.Prelude.{◌≡◌, Err, IfSome, IfNone, IfOk, IsOk, IsOkUnless, OnOk, OnErr};
ghost use Rattle.std.specs.Result.{result_ok};
ghost use Rattle.ak_handler.specs.Changes.{add_fault, with_handler, remove_fault, without_handler, preferred_fault, content_of, may_be};

use crate::fault::HandlerFault;
use crate::rows::{Row, unless};
use crate::set::{HANDLER_LIMIT, HandlerSet, LOOPER};
use ak_base::Text;

impl<R: Drop> HandlerSet<R> {
    /// Adds a handler at the end, with the looper as next, and answers its token. `NameInUse` where one has
    /// that name, and then `HandlerLimit` at 64 handlers or where no token is left. An `Err` changes nothing,
    /// and the handler is dropped. `NoMemory` comes last. (The Be Book, The Application Kit, BLooper:
    /// AddHandler().)
    pub fn add(&mut self, name: Text, content: R) -> Result<u64, HandlerFault>
        ensures refused { IfSome (add_fault self.old name) (λ f. result ≡ Err f) }
        ensures only { IfNone (add_fault self.old name) (IsOkUnless result HandlerFault.NoMemory) }
        ensures token { IfOk result (λ token. token ≡ self.old.next_token) }
        ensures ok { OnOk result (self.new ≡ with_handler self.old name content) }
        ensures err { OnErr result (self.new ≡ self.old) }
    {
        if self.by_name(&name).is_some() {
            return Err(HandlerFault::NameInUse);
        }
        if self.rows.len() >= HANDLER_LIMIT || self.next_token == u64::MAX {
            return Err(HandlerFault::HandlerLimit);
        }
        let token = self.next_token;
        self.rows.push(Row {
            token,
            name,
            next: Some(LOOPER),
            content,
        })?;
        self.next_token = token + 1;
        Ok(token)
    }

    /// Removes the handler with that token, and answers what it held. Those whose next it was have the looper
    /// as next; where it was preferred, none is. `BadHandler` where there is none, `IsLooper` for token 0. An
    /// `Err` changes nothing. It has no answer for want of memory. (The Be Book, The Application Kit,
    /// BLooper: RemoveHandler().)
    pub fn remove(&mut self, token: u64) -> Result<R, HandlerFault>
        ensures refused { IfSome (remove_fault self.old token) (λ f. result ≡ Err f) }
        ensures only { IfNone (remove_fault self.old token) (IsOk result) }
        ensures content { OnOk result (result_ok result ≡ content_of self.old.list token) }
        ensures ok { OnOk result (self.new ≡ without_handler self.old token) }
        ensures err { OnErr result (self.new ≡ self.old) }
    {
        let Some(place) = self.place(token) else {
            return Err(HandlerFault::BadHandler);
        };
        if token == LOOPER {
            return Err(HandlerFault::IsLooper);
        }
        let row = self.rows.remove(place);
        self.rows.relink_all(token);
        self.preferred = unless(token, None, self.preferred);
        Ok(row.content)
    }

    /// Makes the handler with that token the preferred one, or none. `BadHandler` where it is not there. An
    /// `Err` changes nothing. It has no answer for want of memory. (The Be Book, The Application Kit,
    /// BLooper: SetPreferredHandler().)
    pub fn set_preferred(&mut self, token: Option<u64>) -> Result<(), HandlerFault>
        ensures refused { IfSome (preferred_fault self.old token) (λ f. result ≡ Err f) }
        ensures only { IfNone (preferred_fault self.old token) (IsOk result) }
        ensures ok { OnOk result (self.new ≡ record self.old { preferred = token }) }
        ensures err { OnErr result (self.new ≡ self.old) }
    {
        if !self.may_be(token) {
            return Err(HandlerFault::BadHandler);
        }
        self.preferred = token;
        Ok(())
    }

    // Whether it is none, or a handler of the set.
    pub(crate) fn may_be(&self, token: Option<u64>) -> bool
        ensures { result ≡ may_be self.now.list token }
    {
        match token {
            Some(token) => self.by_token(token).is_some(),
            None => true,
        }
    }
}
