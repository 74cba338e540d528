ghost use Rattle.std.specs.Prelude.{◌≡◌, ◌++◌, ◌∷◌, [], Some, true};
ghost use Rattle.std.specs.Borrow.{sem};
ghost use Rattle.ak_turn.specs.Entries.{maker};
ghost use Rattle.ak_turn.specs.Seats.{at_leisure, entered_by, IsNext, KnowsWhole};

use crate::book::Book;
use crate::lock::TurnLock;
use crate::seat::Seat;
use crate::steps::{note_entry, pass_on, put_back};
use crate::waiting::wake;
use std::marker::Model;
use std::snapshot::Snapshot;

/// A turn at a lock: the object's book, which this thread alone has now. It must be spent, by `finish` or
/// by `keep`.
pub struct Turn<'a, B: Book> {
    pub(crate) lock: &'a TurnLock<B>,
    pub(crate) book: B,
}

impl<'a, B: Book> Model for Turn<'a, B> {
    ghost use Rattle.ak_turn.specs.Seats.{TurnData};

    ghost Value = { TurnData B };

    ghost view = { λ t. record { lock = t.lock.now; book = t.book } };
}

impl<'a, B: Book> Turn<'a, B> {
    ghost use Rattle.ak_turn.specs.Lending.{lends_book};

    /// The object's book, to read it and to make an entry. Takes no memory.
    pub fn book(&mut self) -> &mut B
        ensures* writes_back { sem 𝓛 (lends_book B.row B.Plain.row B.Opening.row B.Entry.row B.Book self.entry result) }
        ensures value { result.now ≡ self.old.book }
    {
        &mut self.book
    }

    /// Gives the book back, with one new entry by the seat's thread or as it was, and passes the turn on. The
    /// seat is the one that has the turn; the book is at rest, with its opening. The seat has then seen the
    /// whole list, and knows of it what it knew at the turn. Waits for nothing. Takes no memory.
    #[inline(always)]
    pub fn finish(self, seat: &mut Seat<B>)
        requires of { seat.old.lock ≡ self.lock }
        requires turn { seat.old.turn ≡ true }
        requires rest { B.at_rest self.book }
        requires opening { seat.old.opening ≡ Some (B.opening self.book) }
        requires list { IsNext (maker B.plain B.by) seat.old (B.entries self.book) }
        ensures same { B.entries self.entry.book ≡ seat.old.front → seat.new ≡ at_leisure seat.old }
        ensures entered { (added : B.Entry) → B.entries self.entry.book ≡ seat.old.front ++ added ∷ [] → seat.new ≡ at_leisure (entered_by seat.old added) }
        ensures known { KnowsWhole (maker B.plain B.by) seat.old → KnowsWhole (maker B.plain B.by) seat.new }
    {
        let Turn { lock, book } = self;
        let common = &lock.board.shared;
        let count = book.len();
        let bells = book.rings();
        let kept = Snapshot::of(&book);
        let is_longer = count != seat.seen;
        put_back(common, &mut seat.place, book);
        note_entry(common, &mut seat.place, &kept, is_longer);
        seat.seen = count;
        let served = pass_on(common, &mut seat.place, &kept);
        wake(
            common,
            &lock.watchers,
            &lock.sleepers,
            served,
            is_longer.then_some(bells),
        );
    }

    /// Gives the book out, and never passes the turn on: threads that ask for a turn then wait for ever. Takes
    /// no memory.
    pub fn keep(self) -> B
        ensures { result ≡ self.entry.book }
    {
        let Turn { lock: _, book } = self;
        book
    }
}
