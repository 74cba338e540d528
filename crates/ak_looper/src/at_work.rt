//! A looper's thread between its turns.
ghost use Rattle.std.specs.Prelude.{◌≡◌, false};
ghost use Rattle.std.specs.Arc.{arc_value};

use crate::job::EndKind;
use crate::reach::Reach;
use ak_desk::Desk;
use ak_flatten::Taken;
use ak_turn::{Seat, TurnLock};
use std::collections::VecDeque;
use std::sync::Arc;

/// A looper's thread at work.
#[derive(Drop)]
pub(crate) struct Life {
    pub(crate) reach: Reach,
    pub(crate) desk: Arc<TurnLock<Desk>>,
    pub(crate) desk_seat: Seat<Desk>,
    pub(crate) queue: VecDeque<Taken>,
    ghost desk_of: { desk_seat.lock ≡ arc_value desk },
    ghost desk_idle: { desk_seat.turn ≡ false },
    ghost desk_thread: { desk_seat.thread ≡ reach.hands.clock.thread.0 },
}

/// What a served message leaves: whether the looper goes on, or how it ends.
#[derive(Clone, Copy)]
pub(crate) enum After {
    GoesOn,
    Closed(EndKind),
}
