//! What a looper's thread does for one want of a message.
ghost use Rattle.std.specs.Prelude.{◌≡◌, ◌≢◌, ◌≤◌, ℕ, List};
ghost use Rattle.ak_flatten.specs.Item.{message_of};
ghost use Rattle.ak_message.specs.Fields.{specifier_count};

use crate::reach::Reach;
use ak_action::{Answer, Want};
use ak_flatten::Item;
use ak_message::{Address, Message};
use std::alloc::Global;
use std::sync::Wait;

impl Reach {
    ghost use Rattle.ak_flatten.specs.declared.item.Duty.TheVariants as duty;
    ghost use Rattle.ak_desk.specs.Answering.{AnswersAsk, AnswersForward, AnswersPost, AnswersWant};
    ghost use Rattle.ak_diary.specs.Looper.{LooperFacts};
    ghost use Rattle.ak_diary.specs.Step.{Step};
    ghost use Rattle.ak_diary.specs.Wants.{AsksSo, ForwardsSo, PostsSo, Serves, ThroughDoor, forwarded_item, owed_to, sent_item};
    ghost use Rattle.ak_looper.specs.Carrying.{FitsForward};
    ghost use Rattle.ak_looper.specs.Stands.{GoesOn, IsStanding, Stands};
    ghost use Rattle.ak_looper.specs.Ways.{KeepsReach};

    fn serve_post<R: Wait>(
        &mut self,
        alloc: Global,
        rt: &R,
        to: Address,
        back: Option<Address>,
        message: &Message,
    ) -> Answer
        requires stands { IsStanding self.old }
        ensures goes { (l : LooperFacts) (start : ℕ) (so_far : List Step) → Stands l start so_far self.old → GoesOn l start so_far (ThroughDoor l so_far to.looper result (PostsSo to message.now (sent_item l.team to (owed_to back) message.now) result)) self.new }
        ensures answer { AnswersPost result }
        ensures keeps { KeepsReach self.old self.new }
    {
        match self.way_to(rt, to.looper) {
            Ok(way) => self.post(alloc, rt, way, to, back, message),
            Err(_) => Answer::NoMemory,
        }
    }

    fn serve_ask<R: Wait>(
        &mut self,
        alloc: Global,
        rt: &R,
        to: Address,
        message: &Message,
    ) -> Answer
        requires stands { IsStanding self.old }
        ensures goes { (l : LooperFacts) (start : ℕ) (so_far : List Step) → Stands l start so_far self.old → GoesOn l start so_far (ThroughDoor l so_far to.looper result (AsksSo to message.now (sent_item l.team to duty.None message.now) result)) self.new }
        ensures answer { AnswersAsk result }
        ensures keeps { KeepsReach self.old self.new }
    {
        match self.way_to(rt, to.looper) {
            Ok(way) => self.ask(alloc, rt, way, to, message),
            Err(_) => Answer::NoMemory,
        }
    }

    fn serve_forward<R: Wait>(
        &mut self,
        alloc: Global,
        rt: &R,
        item: &Item,
        looper: u32,
        popped: u32,
    ) -> Answer
        requires stands { IsStanding self.old }
        requires at_least { item.now.popped ≤ popped }
        requires within { popped ≤ specifier_count (message_of item.now).fields }
        ensures goes { (l : LooperFacts) (start : ℕ) (so_far : List Step) → Stands l start so_far self.old → GoesOn l start so_far (ThroughDoor l so_far looper result (ForwardsSo looper (forwarded_item item.now popped) result)) self.new }
        ensures answer { AnswersForward result }
        ensures keeps { KeepsReach self.old self.new }
    {
        let Ok(way) = self.way_to(rt, looper) else {
            return Answer::NoMemory;
        };
        let Ok(copy) = item.try_clone(alloc) else {
            return Answer::NoMemory;
        };
        self.forward(rt, way, looper, copy.forwarded(popped))
    }

    /// Does what the message of that item asks for, and answers it.
    pub(crate) fn serve<R: Wait>(
        &mut self,
        alloc: Global,
        rt: &R,
        item: &Item,
        want: Want,
    ) -> Answer
        requires stands { IsStanding self.old }
        requires asks { want ≢ Want.Done }
        requires fits { FitsForward item.now want }
        ensures goes { (l : LooperFacts) (start : ℕ) (so_far : List Step) → Stands l start so_far self.old → GoesOn l start so_far (Serves l so_far item.now want result) self.new }
        ensures answer { AnswersWant want result }
        ensures keeps { KeepsReach self.old self.new }
    {
        match want {
            Want::Find(word) => self.find(rt, &word),
            Want::Post { to, message, back } => self.serve_post(alloc, rt, to, back, &message),
            Want::Ask { to, message } => self.serve_ask(alloc, rt, to, &message),
            Want::Forward { looper, popped } => {
                self.serve_forward(alloc, rt, item, looper, popped)
            }
            Want::Done => unreachable!(),
        }
    }
}
