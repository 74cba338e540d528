ghost use Rattle.std.specs.Prelude.{◌≡◌, ◌≢◌, ◌<◌, Some, length, is_some, AllPairs, IfOk, IfSome, option_map};
ghost use Rattle.std.specs.Option.{option_copied_mut};
ghost use Rattle.std.specs.Borrow.{sem};
ghost use Rattle.ak_handler.specs.Changes.{looper_alone, content_of, from_rows, numbered_rows};
ghost use Rattle.ak_handler.specs.Handlers.{handler_of, next_in, place_of, token_at, token_named};
ghost use Rattle.ak_handler.specs.Rows.{handler_seen};
ghost use Rattle.ak_handler.specs.Limits.{handler_limit};

use crate::rows::{Row, Rows};
use ak_base::{NoMemory, Text};
use std::alloc::Global;
use std::marker::Model;

/// How many handlers a looper may have, itself counted.
pub const HANDLER_LIMIT: usize = 64;

/// The token of the looper.
pub const LOOPER: u64 = 0;

/// The handlers of a looper, in the order in which they were added, the looper first with the token 0. `R` is
/// what each holds. Tokens are birth numbers and are not used again. Every chain of next handlers ends.
/// Contracts see the list, the preferred handler and the next token. (The Be Book, The Application Kit,
/// BLooper and BHandler.)
#[derive(Drop)]
pub struct HandlerSet<R> {
    pub(crate) rows: Rows<R>,
    pub(crate) preferred: Option<u64>,
    pub(crate) next_token: u64,
}

impl<R> Model for HandlerSet<R> {
    ghost use Rattle.ak_handler.specs.Handlers.{HandlersData, handlers_code};
    ghost use Rattle.ak_handler.specs.Seen.{handlers_inside, IsSound};

    ghost Value = { HandlersData R };

    ghost coded = { handlers_code R.code };

    ghost view = { handlers_inside };

    ghost invariant = { IsSound };
}

impl<R: Drop> HandlerSet<R> {
    ghost use Rattle.ak_handler.specs.Handlers.{IsHandlers};
    ghost use Rattle.ak_handler.specs.Lending.{lends_content, lends_content_if};

    /// The looper of that name, without other handlers. It has no next handler, and none is preferred.
    /// `NoMemory` where memory ran out.
    pub fn new(alloc: Global, name: Text, content: R) -> Result<HandlerSet<R>, NoMemory>
        ensures { IfOk result (λ s. s ≡ looper_alone name content) }
    {
        let mut rows = Rows::with_capacity(alloc, 1)?;
        rows.push(Row {
            token: LOOPER,
            name,
            next: None,
            content,
        })?;
        Ok(HandlerSet {
            rows,
            preferred: None,
            next_token: 1,
        })
    }

    /// The handlers of these names, next handlers and contents, with the tokens 0, 1, 2 and so on. The first
    /// is the looper. They have to be handlers: 1 to 64, of which no two have one name. The looper has no
    /// next handler, the next and the preferred ones are there, and each chain ends. `NoMemory` where memory
    /// ran out.
    pub fn from_rows(
        alloc: Global,
        rows: Vec<(Text, Option<u64>, R)>,
        preferred: Option<u64>,
    ) -> Result<HandlerSet<R>, NoMemory>
        requires { IsHandlers (from_rows rows.items preferred) }
        ensures { IfOk result (λ s. s ≡ from_rows rows.items preferred) }
    {
        let next_token = rows.len() as u64;
        Ok(HandlerSet {
            rows: numbered(alloc, rows)?,
            preferred,
            next_token,
        })
    }

    /// How many handlers there are, the looper counted: 1 to 64. Takes no memory. (The Be Book, The
    /// Application Kit, BLooper: CountHandlers().)
    pub fn len(&self) -> u32
        ensures value { result ≡ length self.now.list }
        ensures is_handlers { IsHandlers self.now }
    {
        self.rows.len() as u32
    }

    /// The token of the preferred handler, if one is. Takes no memory. (The Be Book, The Application Kit,
    /// BLooper: PreferredHandler().)
    pub fn preferred(&self) -> Option<u64>
        ensures { result ≡ self.now.preferred }
    {
        self.preferred
    }

    /// What the handler with that token holds. `None` where there is none. Takes no memory.
    pub fn by_token(&self, token: u64) -> Option<&R>
        ensures { option_map (λ x. x.now) result ≡ content_of self.now.list token }
    {
        let row = self.row(token)?;
        Some(&row.content)
    }

    /// What the handler with that token holds, to change. `None` where there is none. Takes no memory.
    /// Nothing else of the handlers can be changed by it.
    pub fn by_token_mut(&mut self, token: u64) -> Option<&mut R>
        ensures* writes_back { sem 𝓛 (lends_content_if R.row self.entry token result) }
        ensures value { option_copied_mut result ≡ content_of self.old.list token }
    {
        let place = self.place(token)?;
        Some(self.content_at(token, place))
    }

    // What the handler with that token holds, which stands at that place.
    fn content_at(&mut self, token: u64, place: usize) -> &mut R
        requires { place_of self.old.list token ≡ Some place }
        ensures* writes_back { sem 𝓛 (lends_content R.row self.entry token result) }
        ensures value { Some result.now ≡ content_of self.old.list token }
    {
        self.rows.content_mut(place)
    }

    /// The name of the handler with that token. `None` where there is none. Takes no memory. (The Be Book,
    /// The Application Kit, BHandler: Name().)
    pub fn name_of(&self, token: u64) -> Option<&Text>
        ensures { option_map (λ x. x.now) result ≡ option_map (λ h. h.name) (handler_of self.now.list token) }
    {
        let row = self.row(token)?;
        Some(&row.name)
    }

    /// The token of the handler of that name. `None` where there is none. Takes no memory.
    pub fn by_name(&self, name: &Text) -> Option<u64>
        ensures { result ≡ token_named self.now.list name.now }
    {
        self.rows.token_named(name)
    }

    /// The token of the handler at that place, the looper at 0. `None` past the last one. Takes no memory.
    /// (The Be Book, The Application Kit, BLooper: HandlerAt().)
    pub fn at(&self, index: u32) -> Option<u64>
        ensures { result ≡ token_at self.now.list index }
    {
        let row = self.rows.at(index as usize)?;
        Some(row.token)
    }

    /// The place of the handler with that token, the looper at 0. `None` where there is none. Takes no
    /// memory. (The Be Book, The Application Kit, BLooper: IndexOf().)
    pub fn index_of(&self, token: u64) -> Option<u32>
        ensures { result ≡ place_of self.now.list token }
    {
        let place = self.place(token)?;
        Some(place as u32)
    }

    /// The token of the next handler of the one with that token. `None` where it has none, and where there is
    /// no such handler. Takes no memory. (The Be Book, The Application Kit, BHandler: NextHandler().)
    pub fn next_of(&self, token: u64) -> Option<u64>
        ensures { result ≡ next_in self.now.list token }
    {
        self.row(token)?.next
    }

    // The place of the row with that token.
    pub(crate) fn place(&self, token: u64) -> Option<usize>
        ensures place { result ≡ place_of self.now.list token }
        ensures found { is_some result ≡ is_some (handler_of self.now.list token) }
        ensures within { IfSome result (λ place. (place < length self.now.list) × (place < handler_limit)) }
    {
        self.rows.place(token)
    }

    // The row with that token.
    fn row(&self, token: u64) -> Option<&Row<R>>
        ensures { option_map (λ x. handler_seen x.now) result ≡ handler_of self.now.list token }
    {
        let place = self.place(token)?;
        self.rows.at(place)
    }
}

// The described rows, with the tokens from 0 on.
fn numbered<R: Drop>(
    alloc: Global,
    described: Vec<(Text, Option<u64>, R)>,
) -> Result<Rows<R>, NoMemory>
    requires { AllPairs (λ a b. a.name ≢ b.name) (numbered_rows 0 described.items) }
    ensures { IfOk result (λ rows. rows ≡ numbered_rows 0 described.items) }
{
    let mut rows = Rows::with_capacity(alloc, described.len())?;
    for (name, next, content) in described {
        let token = rows.len() as u64;
        rows.push(Row {
            token,
            name,
            next,
            content,
        })?;
    }
    Ok(rows)
}
