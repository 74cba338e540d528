//! What a session sends.
ghost use Rattle.std.specs.Prelude.{◌≡◌, ◌≤◌, ◌<◌, ◌⊎◌, ℕ, List, None, length, IfOk, IsErrOf};
ghost use Rattle.ak_message.specs.Fields.{specifier_count};
ghost use Rattle.ak_flatten.specs.Item.{spelled};
ghost use Rattle.ak_flatten.specs.Laws.{Spells};
ghost use Rattle.ak_flatten.specs.Limits.{flat_limit};
ghost use Rattle.ak_flatten.specs.Spelling.{spelling};
ghost use Rattle.ak_roster.specs.declared.head.AppHead.{AppHead};
ghost use Rattle.ak_messenger.specs.Sends.{item_in, post_event};
ghost use Rattle.ak_diary.specs.Step.{Step};
ghost use Rattle.ak_session.specs.Doing.{AskedSo, PostedSo, SendsThrough};
ghost use Rattle.ak_session.specs.Stands.{GoesOn, IsStanding, KeepsSession, Stands, front_at};

use crate::door_calls::post_through;
use crate::session::Session;
use ak_flatten::Duty;
use ak_message::Message;
use ak_messenger::{Envelope, Reply, SendFault, ask, post};
use std::alloc::Global;
use std::sync::Wait;

impl Session {
    /// Asks that looper, and waits for room and for the reply. A door that it has not is got first; where memory ran out for it, the answer
    /// is `NoMemory`.
    pub fn ask<R: Wait>(
        &mut self,
        alloc: Global,
        rt: &R,
        looper: u32,
        envelope: Envelope,
        message: &Message,
    ) -> Result<Reply, SendFault>
        requires standing { IsStanding self.old }
        requires popped { envelope.popped ≤ specifier_count message.now.fields }
        requires back { envelope.back ≡ None }
        ensures goes { (heads : List AppHead) (start : ℕ) (so_far : List Step) → Stands heads start so_far self.old → GoesOn heads start so_far (SendsThrough so_far looper result (AskedSo looper (item_in envelope Duty.None message.now) result (front_at self.new looper))) self.new }
        ensures too_long { IsErrOf result SendFault.TooLong → flat_limit < length (spelling message.now) }
        ensures fits { flat_limit < length (spelling message.now) → IsErrOf result SendFault.TooLong ⊎ IsErrOf result SendFault.NoMemory }
        ensures message { IfOk result (λ reply. reply.message ≡ spelled reply.flat) }
        ensures spells { IfOk result (λ reply. Spells reply.flat reply.message) }
        ensures standing { IsStanding self.new }
        ensures keeps { KeepsSession self.old self.new }
    {
        let place = self.way_to(rt, looper)?;
        let door = &mut self.doors[place].1;
        ask(
            alloc,
            &mut self.hands,
            rt,
            &door.port,
            &mut door.port_seat,
            envelope,
            message,
        )
    }

    /// Posts to that looper, and waits for room. A door that it has not is got first; where memory ran out for it, the answer is
    /// `NoMemory`. What it answers is what the port's entry tells.
    pub fn post<R: Wait>(
        &mut self,
        alloc: Global,
        rt: &R,
        looper: u32,
        envelope: Envelope,
        message: &Message,
    ) -> Result<u64, SendFault>
        requires standing { IsStanding self.old }
        requires popped { envelope.popped ≤ specifier_count message.now.fields }
        ensures goes { (heads : List AppHead) (start : ℕ) (so_far : List Step) → Stands heads start so_far self.old → GoesOn heads start so_far (SendsThrough so_far looper result (PostedSo looper envelope message.now result (front_at self.new looper))) self.new }
        ensures too_long { IsErrOf result SendFault.TooLong → flat_limit < length (spelling message.now) }
        ensures fits { flat_limit < length (spelling message.now) → IsErrOf result SendFault.TooLong ⊎ IsErrOf result SendFault.NoMemory }
        ensures not_blocked { IsErrOf result SendFault.WouldBlock → ⊥ }
        ensures standing { IsStanding self.new }
        ensures keeps { KeepsSession self.old self.new }
    {
        let place = self.way_to(rt, looper)?;
        let door = &mut self.doors[place].1;
        post(
            alloc,
            &mut self.hands,
            rt,
            &door.port,
            &mut door.port_seat,
            envelope,
            message,
        )
    }

    /// Posts to that looper without waiting for room. That it does not wait for it is told by no clause.
    pub fn post_at_once<R: Wait>(
        &mut self,
        alloc: Global,
        rt: &R,
        looper: u32,
        envelope: Envelope,
        message: &Message,
    ) -> Result<u64, SendFault>
        requires standing { IsStanding self.old }
        requires popped { envelope.popped ≤ specifier_count message.now.fields }
        ensures goes { (heads : List AppHead) (start : ℕ) (so_far : List Step) → Stands heads start so_far self.old → GoesOn heads start so_far (SendsThrough so_far looper result (PostedSo looper envelope message.now result (front_at self.new looper))) self.new }
        ensures too_long { IsErrOf result SendFault.TooLong → flat_limit < length (spelling message.now) }
        ensures fits { flat_limit < length (spelling message.now) → IsErrOf result SendFault.TooLong ⊎ IsErrOf result SendFault.NoMemory }
        ensures standing { IsStanding self.new }
        ensures keeps { KeepsSession self.old self.new }
    {
        let place = self.way_to(rt, looper)?;
        let door = &mut self.doors[place].1;
        post_through(alloc, rt, &mut self.hands, door, envelope, message)
    }
}
