ghost use Rattle.std.specs.Prelude.{◌≡◌, false};
ghost use Rattle.std.specs.Arc.{arc_value};

use ak_port::ReplyBook;
use ak_turn::{Clock, Seat, TurnLock};
use std::sync::Arc;

/// What one thread holds to send and to ask. Between calls the seat is one at that book, of the clock's thread,
/// and holds no turn.
#[derive(Drop)]
pub struct Hands {
    /// The thread's clock.
    pub clock: Clock,
    /// The run's reply book, shared.
    pub book: Arc<TurnLock<ReplyBook>>,
    /// The thread's seat at the book.
    pub book_seat: Seat<ReplyBook>,
    ghost of: { book_seat.lock ≡ arc_value book },
    ghost idle: { book_seat.turn ≡ false },
    ghost thread: { book_seat.thread ≡ clock.thread.0 },
}
