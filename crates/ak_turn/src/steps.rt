//! The steps on the table under a lock, as calls with contracts. Only `await_turn` waits.
ghost use Rattle.std.specs.Prelude.{◌≡◌, ℕ, ◌%◌, ◌^◌, [], ◌∷◌, Some, None, true, false};
ghost use Rattle.ak_turn.specs.Entries.{maker};
ghost use Rattle.ak_turn.specs.Steps.{IsWide, IsNewName, staged, entered, titled, newcomer, names_with, joined_view, TakesTurn, Glances, HoldsBook, IsSame, IsMore, IsNoted};
ghost use Rattle.ak_turn.specs.declared.view.Stage.TheVariants.{Idle, Waits};

use crate::book::Book;
use crate::plays::{Add, Both, Common, Draw, Glance, Head, Look, Newcomer, Pass, Place, Plain};
use crate::waiting::rest_for_turn;
use std::snapshot::Snapshot;
use std::sync::Wait;

/// The word that counts the tickets that were drawn.
pub(crate) const TICKET: usize = 0;

/// The word that counts the turns that were passed on.
pub(crate) const SERVING: usize = 1;

/// The word that counts the entries.
pub(crate) const COUNT: usize = 2;

const SLOT: usize = 0;

// Draws a ticket, and answers its number.
pub(crate) fn draw<B: Book>(common: &Common<B>, place: &mut Place<B>) -> u64
    requires wide { IsWide common.now.table_id }
    requires of { place.old.table_id ≡ common.now.table_id }
    requires idle { (place.old.me.0.stage ≡ Idle) × (place.old.me.1 ≡ []) }
    ensures of { place.new.table_id ≡ place.old.table_id }
    ensures ticket { (ticket : ℕ) × (result ≡ ticket % 2 ^ 64) × (place.new.me ≡ (staged (Waits ticket) place.old.me.0, [])) }
{
    common.fetch_add::<Draw>(place, TICKET, 1)
}

// Waits until the number is served that is the ticket's.
pub(crate) fn await_turn<B: Book, R: Wait>(
    rt: &R,
    common: &Common<B>,
    place: &mut Place<B>,
    mine: u64,
)
    requires wide { IsWide common.now.table_id }
    requires of { place.old.table_id ≡ common.now.table_id }
    requires waits { (ticket : ℕ) × (mine ≡ ticket % 2 ^ 64) × (place.old.me.0.stage ≡ Waits ticket) }
    requires empty { place.old.me.1 ≡ [] }
    ensures of { place.new.table_id ≡ place.old.table_id }
    ensures takes { (ticket : ℕ) × TakesTurn B.opening B.entries B.at_rest (maker B.plain B.by) ticket place.old.me place.new.me }
{
    let mut tries = 0u32;
    for _ in rt.forever() {
        let serving = common.load::<Look<B>>(place, SERVING);
        if serving == mine {
            return;
        }
        rest_for_turn(rt, common, serving, tries);
        tries = tries.saturating_add(1);
    }
    unreachable!()
}

// Counts the entries. Where the seat had seen fewer, its front goes on to so many.
pub(crate) fn look_at_count<B: Book>(common: &Common<B>, place: &mut Place<B>) -> u64
    requires wide { IsWide common.now.table_id }
    requires of { place.old.table_id ≡ common.now.table_id }
    requires idle { place.old.me.0.stage ≡ Idle }
    ensures of { place.new.table_id ≡ place.old.table_id }
    ensures glances { Glances (maker B.plain B.by) result place.old.me place.new.me }
{
    common.load::<Glance<B>>(place, COUNT)
}

// Takes the book out of the slot that the seat holds.
pub(crate) fn take_out<B: Book>(common: &Common<B>, place: &mut Place<B>) -> B
    requires of { place.old.table_id ≡ common.now.table_id }
    requires holds { (book : B) × (place.old.me.1 ≡ (0, Some book) ∷ []) }
    ensures of { place.new.table_id ≡ place.old.table_id }
    ensures book { (book : B) → place.old.me.1 ≡ (0, Some book) ∷ [] → result ≡ book }
    ensures after { place.new.me ≡ (place.old.me.0, (0, None) ∷ []) }
{
    match common.exchange(place, SLOT, None) {
        Some(book) => book,
        None => unreachable!(),
    }
}

// Puts the book into the slot that the seat holds.
pub(crate) fn put_back<B: Book>(common: &Common<B>, place: &mut Place<B>, book: B)
    requires of { place.old.table_id ≡ common.now.table_id }
    requires holds { place.old.me.1 ≡ (0, None) ∷ [] }
    ensures of { place.new.table_id ≡ place.old.table_id }
    ensures after { place.new.me ≡ (place.old.me.0, (0, Some book) ∷ []) }
{
    common.exchange(place, SLOT, Some(book));
}

// Counts the new entry of the book in the slot that the seat holds. From this step on it stands in the history.
fn count_entry<B: Book>(common: &Common<B>, place: &mut Place<B>, book: &Snapshot<B>)
    requires wide { IsWide common.now.table_id }
    requires of { place.old.table_id ≡ common.now.table_id }
    requires holds { HoldsBook B.entries book.now.value place.old.me }
    requires more { IsMore B.entries book.now.value (maker B.plain B.by) place.old.me }
    ensures of { place.new.table_id ≡ place.old.table_id }
    ensures after { place.new.me ≡ (entered (B.entries book.now.value) place.old.me.0, place.old.me.1) }
{
    let _ = book;
    common.fetch_add::<Add<B>>(place, COUNT, 1);
}

// Counts the new entry, if there is one: then the list is longer than what the seat had seen.
pub(crate) fn note_entry<B: Book>(
    common: &Common<B>,
    place: &mut Place<B>,
    book: &Snapshot<B>,
    is_longer: bool,
)
    requires wide { IsWide common.now.table_id }
    requires of { place.old.table_id ≡ common.now.table_id }
    requires holds { HoldsBook B.entries book.now.value place.old.me }
    requires same { is_longer ≡ false → IsSame B.entries book.now.value place.old.me }
    requires more { is_longer ≡ true → IsMore B.entries book.now.value (maker B.plain B.by) place.old.me }
    ensures of { place.new.table_id ≡ place.old.table_id }
    ensures noted { IsNoted B.entries book.now.value (maker B.plain B.by) place.old.me place.new.me }
{
    if is_longer {
        count_entry(common, place, book);
    }
}

// Passes the turn on, with the book in the slot that the seat holds. Answers the number that was served.
pub(crate) fn pass_on<B: Book>(common: &Common<B>, place: &mut Place<B>, book: &Snapshot<B>) -> u64
    requires wide { IsWide common.now.table_id }
    requires of { place.old.table_id ≡ common.now.table_id }
    requires holds { HoldsBook B.entries book.now.value place.old.me }
    requires same { IsSame B.entries book.now.value place.old.me }
    requires rest { B.at_rest book.now.value }
    requires opening { place.old.me.0.opening ≡ Some (B.opening book.now.value) }
    ensures of { place.new.table_id ≡ place.old.table_id }
    ensures after { place.new.me ≡ (staged Idle place.old.me.0, []) }
{
    let _ = book;
    common.fetch_add::<Pass>(place, SERVING, 1)
}

// A new seat for the thread that N picks.
pub(crate) fn split_off<B: Book, N: Newcomer>(
    common: &Common<B>,
    place: &mut Place<B>,
    thread: u32,
) -> Place<B>
    requires wide { IsWide common.now.table_id }
    requires of { place.old.table_id ≡ common.now.table_id }
    requires idle { (place.old.me.0.stage ≡ Idle) × (place.old.me.1 ≡ []) }
    requires thread { thread ≡ N.thread }
    requires new { IsNewName place.old.me.0.names thread }
    ensures of { (place.new.table_id ≡ place.old.table_id) × (result.table_id ≡ place.old.table_id) }
    ensures old { place.new.me ≡ (titled (names_with place.old.me.0.names thread) place.old.me.0, []) }
    ensures new { result.me ≡ (newcomer thread None place.old.me.0, []) }
{
    let _number = thread;
    common.split_seat::<Plain<N>>(place)
}

// The same, and the new seat has the names.
pub(crate) fn split_off_head<B: Book, N: Newcomer>(
    common: &Common<B>,
    place: &mut Place<B>,
    thread: u32,
) -> Place<B>
    requires wide { IsWide common.now.table_id }
    requires of { place.old.table_id ≡ common.now.table_id }
    requires idle { (place.old.me.0.stage ≡ Idle) × (place.old.me.1 ≡ []) }
    requires thread { thread ≡ N.thread }
    requires new { IsNewName place.old.me.0.names thread }
    ensures of { (place.new.table_id ≡ place.old.table_id) × (result.table_id ≡ place.old.table_id) }
    ensures old { place.new.me ≡ (titled None place.old.me.0, []) }
    ensures new { result.me ≡ (newcomer thread (names_with place.old.me.0.names thread) place.old.me.0, []) }
{
    let _number = thread;
    common.split_seat::<Head<N>>(place)
}

// The seat knows what both knew.
pub(crate) fn join_in<B: Book>(common: &Common<B>, place: &mut Place<B>, other: Place<B>)
    requires wide { IsWide common.now.table_id }
    requires of { (place.old.table_id ≡ common.now.table_id) × (other.table_id ≡ common.now.table_id) }
    requires idle { (place.old.me.0.stage ≡ Idle) × (place.old.me.1 ≡ []) }
    requires other_idle { (other.me.0.stage ≡ Idle) × (other.me.1 ≡ []) }
    ensures of { place.new.table_id ≡ place.old.table_id }
    ensures after { place.new.me ≡ (joined_view place.old.me.0 other.me.0, []) }
{
    common.join_seat::<Both>(place, other);
}
