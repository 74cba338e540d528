ghost use Rattle.std.specs.Prelude.{◌≡◌, ◌≢◌, ◌<◌, ◌≤◌, ◌^◌, length, All, None, Some, IfOk, false};
ghost use Rattle.std.specs.Arc.{arc_value};
ghost use Rattle.ak_turn.specs.Entries.{last_stamp_of, maker, places};
ghost use Rattle.ak_turn.specs.Seats.{HasSeen, IsGiven, KnowsWhole, first_seat, new_seat, titled_seat, joined_seat};
ghost use Rattle.ak_turn.specs.Steps.{IsNewName, names_with};

use crate::bells::Watchers;
use crate::book::Book;
use crate::plays::{Board, Start};
use crate::seat::Seat;
use crate::steps::{await_turn, draw, join_in, look_at_count, split_off, split_off_head, take_out};
use crate::turn::Turn;
use crate::waiting::{rest_before_ticket, rest_for_entry, rest_for_ever};
use ak_base::{NoMemory, ThreadId};
use atomic_table::Table;
use std::alloc::Global;
use std::marker::{Brand, Model};
use std::snapshot::Snapshot;
use std::sync::atomic::AtomicU64;
use std::sync::{Arc, Wait};

/// The lock of one object. Threads take turns, in the order of the tickets that they draw. A thread that asks
/// while others have tickets may first sleep a few times. The thread whose turn it is has the object's book.
#[derive(Drop)]
pub struct TurnLock<B: Book> {
    pub(crate) board: Board<B>,
    pub(crate) watchers: Watchers,
    pub(crate) sleepers: AtomicU64,
}

impl<B: Book> Model for TurnLock<B> {
    ghost use Rattle.ak_turn.specs.Seats.{LockId};
    ghost use Rattle.ak_turn.specs.Steps.{IsWide};
    ghost use Rattle.atomic_table.specs.Seated.{table_id_coded};

    ghost Value = { LockId };

    ghost coded = { table_id_coded };

    ghost view = { λ l. l.board.shared.table_id };

    ghost invariant = { λ l. IsWide l.board.shared.table_id };
}

// The number of a thread.
fn number_of(thread: ThreadId) -> u32
    ensures { result ≡ thread.0 }
{
    thread.0
}

impl<B: Book> TurnLock<B> {
    /// A lock for that book, and its first seat, for that thread. It is the head, and all entries are its own.
    /// The book is at rest, and has entries by that thread alone. `NoMemory` where memory ran out; the book is
    /// let go then.
    pub fn new(
        alloc: Global,
        book: B,
        thread: ThreadId,
    ) -> Result<(Arc<TurnLock<B>>, Seat<B>), NoMemory>
        requires rest { B.at_rest book }
        requires own { All (λ entry. B.by (B.plain entry) ≡ thread.0) (B.entries book) }
        ensures { IfOk result (λ made. made.1 ≡ first_seat (arc_value made.0) (B.opening book) (B.entries book) (places (maker B.plain B.by) thread.0 (B.entries book)) thread.0) }
    {
        let start = Start {
            book: Snapshot::of(&book),
            thread: number_of(thread),
        };
        let seen = book.len();
        let mut slots = Vec::with_capacity(alloc, 1)?;
        slots.push(Some(book))?;
        let Ok((board, place)) = Table::new(alloc, &[0, 0, seen], slots, &start) else {
            return Err(NoMemory);
        };
        let lock = Arc::new(
            alloc,
            TurnLock {
                board,
                watchers: Watchers::nobody(),
                sleepers: AtomicU64::new(0),
            },
        )?;
        Ok((lock, Seat { place, seen }))
    }

    /// Waits for the seat's turn, and gives it the book. The seat is one of this lock, and has no turn. The
    /// book is at rest, and its list goes on from the seat's front by entries of other threads; the seat has
    /// seen them all. The entries by the seat's thread are just its own, and so of each seat that was joined to
    /// it. Of the head each entry is by one of its names. It returns only where the last stamp is below 2^63.
    /// Takes no memory.
    // Part of its caller, as `finish` is: a turn that nobody waits for takes less time where the book is not moved about in memory.
    #[inline(always)]
    pub fn lock<'a, R: Wait>(&'a self, rt: &R, seat: &mut Seat<B>) -> Turn<'a, B>
        requires of { seat.old.lock ≡ self.now }
        requires idle { seat.old.turn ≡ false }
        ensures of { result.lock ≡ self.now }
        ensures rest { B.at_rest result.book }
        ensures opening { seat.old.opening ≡ Some (B.opening result.book) }
        ensures seen { IsGiven (maker B.plain B.by) seat.old seat.new }
        ensures known { KnowsWhole (maker B.plain B.by) seat.new }
        ensures list { B.entries result.book ≡ seat.new.front }
        ensures stamp { last_stamp_of (λ entry. B.stamp (B.plain entry)) (B.entries result.book) < 2 ^ 63 }
    {
        let common = &self.board.shared;
        rest_before_ticket(rt, common, &self.sleepers);
        let mine = draw(common, &mut seat.place);
        await_turn(rt, common, &mut seat.place, mine);
        let book = take_out(common, &mut seat.place);
        if book.last_stamp() >= 1 << 63 {
            rest_for_ever(rt);
        }
        seat.seen = book.len();
        Turn { lock: self, book }
    }

    /// The seat has seen `count` entries of the object, or more. It counts them, and takes no turn, so nobody who has one keeps it.
    /// Another seat of this lock tells how many to ask for; where the object has fewer, it never returns. The front goes on by
    /// entries of other threads alone. A seat that knows the whole of its front knows the whole of the longer one. It is one of
    /// this lock, and has no turn. Takes no memory.
    pub fn see<R: Wait>(&self, rt: &R, seat: &mut Seat<B>, count: u64)
        requires of { seat.old.lock ≡ self.now }
        requires idle { seat.old.turn ≡ false }
        ensures seen { HasSeen (maker B.plain B.by) seat.old seat.new }
        ensures many { count ≤ length seat.new.front }
        ensures known { KnowsWhole (maker B.plain B.by) seat.old → KnowsWhole (maker B.plain B.by) seat.new }
    {
        if seat.seen >= count {
            return;
        }
        let found = look_at_count(&self.board.shared, &mut seat.place);
        if found < count {
            rest_for_ever(rt);
        }
        seat.seen = found;
    }

    /// Waits while the object has just so many entries as `seen`, which a seat tells, and answers the other
    /// number that it found. It looks without a seat, so no seat knows more after it. Takes no memory.
    pub fn wait_past<R: Wait>(&self, rt: &R, seen: u64) -> u64
        ensures { result ≢ seen }
    {
        let each = self.watchers.each();
        rest_for_entry(rt, &self.board.shared, &self.watchers, each, seen)
    }

    /// The same for whoever is concerned only by entries that ring the bell of that number, as the book's `rings`
    /// tells: other entries let it sleep. It may return all the same once there is another entry. Takes no memory.
    pub fn wait_at_bell<R: Wait>(&self, rt: &R, seen: u64, number: u64) -> u64
        ensures { result ≢ seen }
    {
        let bell = self.watchers.bell(number);
        rest_for_entry(rt, &self.board.shared, &self.watchers, bell, seen)
    }

    /// A seat for a new thread. It has seen as much as the seat, and none of the entries is its own. The seat
    /// stays the head. It is the head of this lock, without a turn, and the thread is none of its names. Takes
    /// no memory.
    pub fn split(&self, seat: &mut Seat<B>, thread: ThreadId) -> Seat<B>
        requires of { seat.old.lock ≡ self.now }
        requires idle { seat.old.turn ≡ false }
        requires name { IsNewName seat.old.names thread.0 }
        ensures old { seat.new ≡ titled_seat (names_with seat.old.names thread.0) seat.old }
        ensures new { result ≡ new_seat thread.0 None seat.old }
    {
        let place = split_off::<B, Brand>(&self.board.shared, &mut seat.place, number_of(thread));
        Seat {
            place,
            seen: seat.seen,
        }
    }

    /// The same, and the new seat is the head from then on. Takes no memory.
    pub fn split_head(&self, seat: &mut Seat<B>, thread: ThreadId) -> Seat<B>
        requires of { seat.old.lock ≡ self.now }
        requires idle { seat.old.turn ≡ false }
        requires name { IsNewName seat.old.names thread.0 }
        ensures old { seat.new ≡ titled_seat None seat.old }
        ensures new { result ≡ new_seat thread.0 (names_with seat.old.names thread.0) seat.old }
    {
        let place = split_off_head::<B, Brand>(
            &self.board.shared,
            &mut seat.place,
            number_of(thread),
        );
        Seat {
            place,
            seen: seat.seen,
        }
    }

    /// The seat knows what both knew. At its next turn the list goes on from both fronts, and what the other
    /// made is all that there is by its thread. It is the head where one of the two was. Both are seats of this
    /// lock, and neither has a turn. Takes no memory.
    pub fn join(&self, seat: &mut Seat<B>, other: Seat<B>)
        requires of { (seat.old.lock ≡ self.now) × (other.lock ≡ self.now) }
        requires idle { seat.old.turn ≡ false }
        requires other_idle { other.turn ≡ false }
        ensures { seat.new ≡ joined_seat seat.old other }
    {
        let Seat { place, seen: _ } = other;
        join_in(&self.board.shared, &mut seat.place, place);
    }
}
