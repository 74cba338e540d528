ghost use Rattle.std.specs.Prelude.{◌≡◌, length};

use crate::book::Book;
use crate::plays::Place;
use std::marker::Model;

/// A thread's seat at a lock. It knows the object's opening, and its front, which is the beginning of the
/// object's history that it has seen. It knows which entries there are its own. The head also knows the names,
/// which are the threads that have had a seat.
#[derive(Drop)]
pub struct Seat<B: Book> {
    pub(crate) place: Place<B>,
    pub(crate) seen: u64,
}

impl<B: Book> Model for Seat<B> {
    ghost use Rattle.std.specs.Prelude.{◌≡◌, length};
    ghost use Rattle.ak_turn.specs.Seats.{SeatData};
    ghost use Rattle.ak_turn.specs.Seen.{seat_seen, Carries};

    ghost Value = { SeatData B.Opening B.Entry };

    ghost view = { λ s. seat_seen s.place.table_id s.place.me.0 };

    ghost invariant = { λ s. (s.seen ≡ length s.place.me.0.me.front) × Carries s.place.me.0.stage s.place.me.1 };
}

impl<B: Book> Seat<B> {
    /// How many entries its front has. Takes no memory.
    pub fn seen(&self) -> u64
        ensures { result ≡ length self.now.front }
    {
        self.seen
    }
}
