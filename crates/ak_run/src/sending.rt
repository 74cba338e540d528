//! What main does at the loopers that were started.
ghost use Rattle.std.specs.Prelude.{◌≡◌, ◌<◌, ◌≤◌, ◌↔◌, None, length, IfOk, IfSome, IsErrOf};
ghost use Rattle.ak_message.specs.Fields.{specifier_count};
ghost use Rattle.ak_flatten.specs.Item.{spelled};
ghost use Rattle.ak_flatten.specs.Laws.{Spells};
ghost use Rattle.ak_flatten.specs.Limits.{flat_limit};
ghost use Rattle.ak_flatten.specs.Spelling.{spelling};
ghost use Rattle.ak_messenger.specs.Sends.{item_in, post_event};
ghost use Rattle.ak_run.specs.Doing.{AskedSo, DoesSo, PostedSo};
ghost use Rattle.ak_session.specs.Doing.{EditedSo};
ghost use Rattle.ak_run.specs.Recording.{fronts_of, list_at};
ghost use Rattle.ak_run.specs.Running.{IsRunning};
ghost use Rattle.ak_run.specs.Sending.{AnswersAtDesk, AnswersAtPort, AsksAt, looper_count};
ghost use Rattle.ak_session.specs.Calls.{edited_event};
ghost use Rattle.ak_run.specs.Sessions.{sessions_of};

use crate::run::Run;
use ak_desk::Edit;
use ak_flatten::Duty;
use ak_message::Message;
use ak_messenger::{Envelope, Reply, SendFault, ask, post};
use ak_session::{Edited, edit_through, post_through};
use std::sync::Wait;

impl Run {
    /// How many loopers were started.
    pub fn loopers(&self) -> u32
        requires running { IsRunning self.now }
        ensures { result ≡ looper_count self.now }
    {
        self.members.len() as u32
    }

    /// Posts to that looper, and waits for room. A reply is posted back to a looper that was started. What it answers is what the
    /// port's entry tells.
    pub fn post<R: Wait>(
        &mut self,
        rt: &R,
        looper: u32,
        envelope: Envelope,
        message: &Message,
    ) -> Result<u64, SendFault>
        requires running { IsRunning self.old }
        requires there { looper < looper_count self.old }
        requires popped { envelope.popped ≤ specifier_count message.now.fields }
        requires back { IfSome envelope.back (λ back. back.looper < looper_count self.old) }
        ensures did { DoesSo (PostedSo looper envelope message.now result self.new) self.old self.new }
        ensures answered { AnswersAtPort looper (post_event envelope message.now result) self.old self.new }
        ensures too_long { IsErrOf result SendFault.TooLong ↔ (flat_limit < length (spelling message.now)) }
        ensures not_blocked { IsErrOf result SendFault.WouldBlock → ⊥ }
        ensures running { IsRunning self.new }
        ensures count { looper_count self.new ≡ looper_count self.old }
        ensures apps { self.new.apps ≡ self.old.apps }
        ensures sessions { sessions_of self.new ≡ sessions_of self.old }
    {
        let alloc = *self.members.allocator();
        let door = &mut self.members[looper as usize].door;
        post(
            alloc,
            &mut self.hands,
            rt,
            &door.port,
            &mut door.port_seat,
            envelope,
            message,
        )
    }

    /// Posts to that looper without waiting for room. That it does not wait is told by no clause.
    pub fn post_at_once<R: Wait>(
        &mut self,
        rt: &R,
        looper: u32,
        envelope: Envelope,
        message: &Message,
    ) -> Result<u64, SendFault>
        requires running { IsRunning self.old }
        requires there { looper < looper_count self.old }
        requires popped { envelope.popped ≤ specifier_count message.now.fields }
        requires back { IfSome envelope.back (λ back. back.looper < looper_count self.old) }
        ensures did { DoesSo (PostedSo looper envelope message.now result self.new) self.old self.new }
        ensures answered { AnswersAtPort looper (post_event envelope message.now result) self.old self.new }
        ensures too_long { IsErrOf result SendFault.TooLong ↔ (flat_limit < length (spelling message.now)) }
        ensures running { IsRunning self.new }
        ensures count { looper_count self.new ≡ looper_count self.old }
        ensures apps { self.new.apps ≡ self.old.apps }
        ensures sessions { sessions_of self.new ≡ sessions_of self.old }
    {
        let alloc = *self.members.allocator();
        let door = &mut self.members[looper as usize].door;
        post_through(alloc, rt, &mut self.hands, door, envelope, message)
    }

    /// Asks that looper, and waits for room and for the reply.
    pub fn ask<R: Wait>(
        &mut self,
        rt: &R,
        looper: u32,
        envelope: Envelope,
        message: &Message,
    ) -> Result<Reply, SendFault>
        requires running { IsRunning self.old }
        requires there { looper < looper_count self.old }
        requires popped { envelope.popped ≤ specifier_count message.now.fields }
        requires back { envelope.back ≡ None }
        ensures did { DoesSo (AskedSo looper (item_in envelope Duty.None message.now) result self.new) self.old self.new }
        ensures answered { AsksAt looper (item_in envelope Duty.None message.now) result self.old self.new }
        ensures too_long { IsErrOf result SendFault.TooLong ↔ (flat_limit < length (spelling message.now)) }
        ensures message { IfOk result (λ reply. reply.message ≡ spelled reply.flat) }
        ensures spells { IfOk result (λ reply. Spells reply.flat reply.message) }
        ensures running { IsRunning self.new }
        ensures count { looper_count self.new ≡ looper_count self.old }
        ensures apps { self.new.apps ≡ self.old.apps }
        ensures sessions { sessions_of self.new ≡ sessions_of self.old }
    {
        let alloc = *self.members.allocator();
        let door = &mut self.members[looper as usize].door;
        ask(
            alloc,
            &mut self.hands,
            rt,
            &door.port,
            &mut door.port_seat,
            envelope,
            message,
        )
    }

    /// Edits the handlers of that looper, by one entry at its desk. Answers where that stands.
    pub fn edit<R: Wait>(&mut self, rt: &R, looper: u32, edit: Edit) -> Edited
        requires running { IsRunning self.old }
        requires there { looper < looper_count self.old }
        ensures did { DoesSo (EditedSo looper edit result) self.old self.new }
        ensures answered { AnswersAtDesk looper (edited_event edit result) self.old self.new }
        ensures running { IsRunning self.new }
        ensures count { looper_count self.new ≡ looper_count self.old }
        ensures apps { self.new.apps ≡ self.old.apps }
        ensures sessions { sessions_of self.new ≡ sessions_of self.old }
    {
        let door = &mut self.members[looper as usize].door;
        edit_through(rt, &mut self.hands.clock, door, edit)
    }

    /// How many entries main has seen at that looper's port.
    pub fn port_seen(&self, looper: u32) -> u64
        requires there { looper < looper_count self.now }
        ensures { result ≡ length (list_at (fronts_of self.now).ports looper) }
    {
        self.members[looper as usize].door.port_seat.seen()
    }
}
