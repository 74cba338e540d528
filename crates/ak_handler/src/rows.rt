//! The handlers as the code holds them, by name, and in the order in which they were added.
ghost use Rattle.std.specs.Prelude.{◌≡◌, ◌==◌, ◌++◌, AllPairs, [], ◌∷◌, ◌<◌, length, map, option_map, position, remove, slice_get, slice_index_or, None, Some, IfOk, IsTrue, OnOk, OnErr};
ghost use Rattle.std.specs.Borrow.{sem};
ghost use Rattle.ak_handler.specs.Changes.{relinked, unless};
ghost use Rattle.ak_handler.specs.Handlers.{place_of, token_named};
ghost use Rattle.ak_handler.specs.Rows.{handler_seen, changed_at, Rise};

use crate::set::LOOPER;
use ak_base::{NoMemory, Text};
use indexmap::IndexMap;
use std::alloc::Global;
use std::marker::Model;

#[derive(Drop)]
pub(crate) struct Row<R> {
    pub(crate) token: u64,
    pub(crate) name: Text,
    pub(crate) next: Option<u64>,
    pub(crate) content: R,
}

/// The rows under their names, so that one is found by its name in constant time. A key has to be a type of
/// the standard library, so each name stands twice. Contracts see a list of handlers.
#[derive(Drop)]
pub(crate) struct Rows<R> {
    by_name: IndexMap<String, Row<R>>,
}

impl<R> Model for Rows<R> {
    ghost use Rattle.std.specs.Prelude.{List};
    ghost use Rattle.std.specs.Coded.{coded_list};
    ghost use Rattle.ak_handler.specs.Handlers.{HandlerData, handler_code};
    ghost use Rattle.ak_handler.specs.Rows.{rows_inside, AreNamed};

    ghost Value = { List (HandlerData R) };

    ghost coded = { coded_list (handler_code R.code) };

    ghost view = { rows_inside };

    ghost invariant = { AreNamed };
}

impl<R: Drop> Rows<R> {
    ghost use Rattle.ak_handler.specs.Lending.{lends_content_at};

    /// None, with room for so many.
    pub(crate) fn with_capacity(alloc: Global, count: usize) -> Result<Rows<R>, NoMemory>
        ensures { IfOk result (λ rows. rows ≡ []) }
    {
        Ok(Rows {
            by_name: IndexMap::with_capacity(alloc, count)?,
        })
    }

    pub(crate) fn len(&self) -> usize
        ensures { result ≡ length self.now }
    {
        self.by_name.len()
    }

    /// One more at the end, of a name that none has.
    pub(crate) fn push(&mut self, row: Row<R>) -> Result<(), NoMemory>
        requires { token_named self.old row.name ≡ None }
        ensures ok { OnOk result (self.new ≡ self.old ++ handler_seen row ∷ []) }
        ensures err { OnErr result (self.new ≡ self.old) }
    {
        let name = String::from_str(*self.by_name.allocator(), row.name.as_str())?;
        self.by_name.insert(name, row)?;
        Ok(())
    }

    /// The row at that place.
    pub(crate) fn at(&self, place: usize) -> Option<&Row<R>>
        ensures { option_map (λ row. handler_seen row.now) result ≡ slice_get self.now place }
    {
        self.by_name.values().as_slice().get(place)
    }

    /// The place of the row with that token.
    pub(crate) fn place(&self, token: u64) -> Option<usize>
        requires { AllPairs (λ a b. a.token < b.token) self.now }
        ensures { result ≡ place_of self.now token }
    {
        place_with(self.by_name.values().as_slice(), token)
    }

    pub(crate) fn token_named(&self, name: &Text) -> Option<u64>
        ensures { result ≡ token_named self.now name.now }
    {
        Some(self.by_name.get(name.as_str())?.token)
    }

    /// Takes out the row at that place. The others keep their order.
    pub(crate) fn remove(&mut self, place: usize) -> Row<R>
        requires { place < length self.old }
        ensures row { slice_get self.old place ≡ Some (handler_seen result) }
        ensures others { self.new ≡ remove self.old place }
    {
        let (_name, row) = self.by_name.shift_remove_index(place).unwrap();
        row
    }

    /// The next handler of the one at that place is another one, or none.
    pub(crate) fn set_next(&mut self, place: usize, next: Option<u64>)
        requires { place < length self.old }
        ensures { self.new ≡ changed_at self.old place (λ h. record h { next = next }) }
    {
        self.by_name[place].next = next;
    }

    /// What the handler at that place holds, to change.
    pub(crate) fn content_mut(&mut self, place: usize) -> &mut R
        requires { place < length self.old }
        ensures* writes_back { sem 𝓛 (lends_content_at R.row self.entry place result) }
        ensures value { option_map (λ h. h.content) (slice_get self.old place) ≡ Some result.now }
    {
        &mut self.by_name[place].content
    }

    /// Those whose next handler it was have the looper as next.
    pub(crate) fn relink_all(&mut self, token: u64)
        ensures { self.new ≡ map (relinked token) self.old }
    {
        for place in 0..self.len() {
            self.relink(place, token);
        }
    }

    fn relink(&mut self, place: usize, token: u64)
        requires { place < length self.old }
        ensures { self.new ≡ changed_at self.old place (relinked token) }
    {
        let row = &mut self.by_name[place];
        row.next = unless(token, Some(LOOPER), row.next);
    }
}

// The place of the row with that token. Where no row before it was removed, the token is the place; else it
// is found by halves.
fn place_with<R>(rows: &[Row<R>], token: u64) -> Option<usize>
    requires { Rise rows.now }
    ensures { result ≡ position (λ row. row.token == token) rows.now }
{
    let place = token as usize;
    if stands_at(rows, place, token) {
        return Some(place);
    }
    place_by_halves(rows, token)
}

fn stands_at<R>(rows: &[Row<R>], place: usize, token: u64) -> bool
    ensures { IsTrue result → (place < length rows.now) × ((d : Row R) → (slice_index_or rows.now place d).token ≡ token) }
{
    match rows.get(place) {
        Some(row) => row.token == token,
        None => false,
    }
}

fn place_by_halves<R>(rows: &[Row<R>], token: u64) -> Option<usize>
    requires { Rise rows.now }
    ensures { result ≡ position (λ row. row.token == token) rows.now }
{
    rows.binary_search_by_key(&token, |row| row.token).ok()
}

/// The other one in place of that token.
pub(crate) fn unless(token: u64, other: Option<u64>, at: Option<u64>) -> Option<u64>
    ensures { result ≡ unless token other at }
{
    if at == Some(token) { other } else { at }
}
