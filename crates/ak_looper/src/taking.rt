//! A looper's thread takes from its own port.
ghost use Rattle.std.specs.Prelude.{◌≡◌, ◌-◌, ℕ, false, true, [], length};
ghost use Rattle.std.specs.VecDeque.{deque_len, deque_capacity};
ghost use Rattle.ak_turn.specs.Called.{KeepsSeat};
ghost use Rattle.ak_port.specs.PortCalls.{CanTake, IfTook};
ghost use Rattle.ak_port.specs.PortMachine.{state_of};
ghost use Rattle.ak_looper.specs.Taking.{IsTheRest, TakenSoFar, TakesSo};

use crate::reach::Reach;
use ak_flatten::Taken;
use ak_port::{Port, PortBook, TakeAnswer, take, takes_go_on};
use ak_turn::{Clock, Seat};
use std::collections::VecDeque;
use std::sync::Wait;

// Takes one item, or the rest, into an empty queue.
fn take_there<R: Wait>(
    rt: &R,
    port: &Port,
    seat: &mut Seat<PortBook>,
    clock: &mut Clock,
    queue: &mut VecDeque<Taken>,
) -> TakeAnswer
    requires of { seat.old.lock ≡ port.now }
    requires idle { seat.old.turn ≡ false }
    requires thread { seat.old.thread ≡ clock.old.thread.0 }
    requires can { CanTake clock.old.thread (deque_capacity queue.old - deque_len queue.old) seat.old }
    requires empty { queue.old.items ≡ [] }
    ensures took { TakesSo result queue.new.items clock.old clock.new seat.old seat.new }
    ensures one { IfTook result (λ k. length queue.new.items ≡ 1) }
    ensures count { IfTook result (λ k. k ≡ 1) }
    ensures rest { (state_of seat.old.front).shut ≡ true → IsTheRest result }
    ensures all { TakenSoFar seat.new }
    ensures can { (room : ℕ) → CanTake clock.old.thread room seat.old → IfTook result (λ _. CanTake clock.old.thread room seat.new) }
    ensures room { deque_capacity queue.new ≡ deque_capacity queue.old }
    ensures seat { KeepsSeat seat.old seat.new }
    ensures clock { clock.new.thread ≡ clock.old.thread }
{
    takes_go_on();
    take(port, rt, seat, clock, queue, 1)
}

impl Reach {
    ghost use Rattle.std.specs.Prelude.{List};
    ghost use Rattle.ak_diary.specs.Looper.{LooperFacts};
    ghost use Rattle.ak_diary.specs.Step.{Step};
    ghost use Rattle.ak_looper.specs.Stands.{GoesOn, Stands};
    ghost use Rattle.ak_looper.specs.Taking.{IsTaking, IsTheRest};
    ghost use Rattle.ak_looper.specs.Ways.{KeepsPlaces};

    /// Takes one item of its own port into an empty queue, or the rest where the port is shut.
    pub(crate) fn take<R: Wait>(&mut self, rt: &R, queue: &mut VecDeque<Taken>) -> TakeAnswer
        requires can { CanTake self.old.hands.clock.thread (deque_capacity queue.old - deque_len queue.old) self.old.port_seat }
        requires empty { queue.old.items ≡ [] }
        ensures goes { (l : LooperFacts) (start : ℕ) (so_far : List Step) → Stands l start so_far self.old → GoesOn l start so_far (IsTaking l so_far result queue.new.items) self.new }
        ensures one { IfTook result (λ k. length queue.new.items ≡ 1) }
        ensures count { IfTook result (λ k. k ≡ 1) }
        ensures rest { (state_of self.old.port_seat.front).shut ≡ true → IsTheRest result }
        ensures can { (room : ℕ) → CanTake self.old.hands.clock.thread room self.old.port_seat → IfTook result (λ _. CanTake self.old.hands.clock.thread room self.new.port_seat) }
        ensures room { deque_capacity queue.new ≡ deque_capacity queue.old }
        ensures keeps { KeepsPlaces self.old self.new }
    {
        take_there(
            rt,
            &self.port,
            &mut self.port_seat,
            &mut self.hands.clock,
            queue,
        )
    }
}
