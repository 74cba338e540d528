//! What is owed to the sender of a message is paid, once the message was dispatched.
ghost use Rattle.std.specs.Prelude.{◌≡◌};
ghost use Rattle.ak_message.specs.Whole.{IsWhole};
ghost use Rattle.ak_diary.specs.Turns.{is_no_reply};
ghost use Rattle.ak_looper.specs.Debts.{IsDebt, IsPayable, IsBackDebt, IsSlotDebt};

use crate::reach::Reach;
use ak_base::{Bytes, Code, codes_are_named};
use ak_flatten::{Duty, Item, flatten, written_is_read};
use ak_message::{Address, Message};
use ak_port::{fill, fill_none};
use std::alloc::Global;
use std::sync::Wait;

/// What is owed, made ready: nothing but a door and a write needs memory then.
#[derive(Drop)]
pub(crate) enum Debt {
    Nothing,
    /// The slot is to be filled with that flat text.
    Text { slot: u64, flat: Bytes },
    /// The slot is to be filled with the text that stands for no reply.
    NoReply { slot: u64 },
    /// The item is to be posted to that address.
    Back { to: Address, item: Item },
}

/// What is owed, and whether memory ran out for the text of the reply.
#[derive(Drop)]
pub(crate) struct Prepared {
    pub(crate) debt: Debt,
    pub(crate) lacked: bool,
}

// The message stands for no reply.
fn is_no_reply(message: &Message) -> bool
    ensures none { result ≡ is_no_reply message.now }
    ensures whole { IsWhole message.now }
{
    codes_are_named();
    message.what() == Code::NO_REPLY && message.count_names() == 0
}

// Of a reply that is there, to a slot: the text, or none.
fn for_slot(alloc: Global, slot: u64, reply: &Message) -> Prepared
    ensures debt { IsSlotDebt slot reply.now result.lacked result.debt }
    ensures payable { IsPayable result.debt }
{
    written_is_read();
    if is_no_reply(reply) {
        return Prepared {
            debt: Debt::NoReply { slot },
            lacked: false,
        };
    }
    match flatten(alloc, reply) {
        Ok(flat) => Prepared {
            debt: Debt::Text { slot, flat },
            lacked: false,
        },
        // A reply is made to fit, so nothing but memory can be missing.
        Err(_) => Prepared {
            debt: Debt::NoReply { slot },
            lacked: true,
        },
    }
}

// Of a reply that is there, to an address: the item; nothing where it stands for no reply, or memory ran out.
fn for_address(alloc: Global, team: u32, to: Address, reply: &Message) -> Prepared
    ensures debt { IsBackDebt team to reply.now result.lacked result.debt }
    ensures payable { IsPayable result.debt }
{
    let none = is_no_reply(reply);
    if none {
        return Prepared {
            debt: Debt::Nothing,
            lacked: false,
        };
    }
    match Item::new(alloc, to.target, team, false, Duty::None, reply) {
        Ok(item) => Prepared {
            debt: Debt::Back {
                to,
                item: item.with_popped(0),
            },
            lacked: false,
        },
        Err(_) => Prepared {
            debt: Debt::Nothing,
            lacked: true,
        },
    }
}

/// Makes ready what is owed for that reply, if there is one: a text where the duty asks for one.
pub(crate) fn prepare(alloc: Global, team: u32, owed: Duty, reply: Option<Message>) -> Prepared
    ensures debt { IsDebt team owed reply result.lacked result.debt }
    ensures payable { IsPayable result.debt }
{
    let nothing = Prepared {
        debt: Debt::Nothing,
        lacked: false,
    };
    let Some(reply) = reply else {
        return nothing;
    };
    match owed {
        Duty::None => nothing,
        Duty::Slot(slot) => for_slot(alloc, slot, &reply),
        Duty::Back(to) => for_address(alloc, team, to, &reply),
    }
}

impl Reach {
    ghost use Rattle.std.specs.Prelude.{◌≡◌, ℕ, List};
    ghost use Rattle.ak_diary.specs.Looper.{LooperFacts};
    ghost use Rattle.ak_diary.specs.Step.{Step};
    ghost use Rattle.ak_diary.specs.Turns.{Fills};
    ghost use Rattle.ak_port.specs.Reply.{IsFlatText, none_text};
    ghost use Rattle.ak_looper.specs.Debts.{IsPayable, PaysBack, PaysDebt};
    ghost use Rattle.ak_looper.specs.Stands.{GoesOn, IsStanding, Stands};
    ghost use Rattle.ak_looper.specs.Ways.{KeepsReach};

    // Fills the slot with that flat text, unless it is filled or cancelled.
    fn fill_with<R: Wait>(&mut self, rt: &R, slot: u64, flat: Bytes)
        requires { IsFlatText flat }
        ensures goes { (l : LooperFacts) (start : ℕ) (so_far : List Step) → Stands l start so_far self.old → GoesOn l start so_far (Fills slot flat) self.new }
        ensures keeps { KeepsReach self.old self.new }
    {
        let hands = &mut self.hands;
        fill(
            &hands.book,
            rt,
            &mut hands.book_seat,
            &mut hands.clock,
            slot,
            flat,
        );
    }

    /// Fills the slot with the text that stands for no reply, unless it is filled or cancelled.
    pub(crate) fn fill_with_none<R: Wait>(&mut self, rt: &R, slot: u64)
        ensures goes { (l : LooperFacts) (start : ℕ) (so_far : List Step) → Stands l start so_far self.old → GoesOn l start so_far (Fills slot none_text) self.new }
        ensures keeps { KeepsReach self.old self.new }
    {
        let hands = &mut self.hands;
        fill_none(
            &hands.book,
            rt,
            &mut hands.book_seat,
            &mut hands.clock,
            slot,
        );
    }

    // Posts a reply back. False where it found no memory for the door or for the write.
    fn post_back<R: Wait>(&mut self, rt: &R, to: Address, item: Item) -> bool
        requires stands { IsStanding self.old }
        ensures goes { (l : LooperFacts) (start : ℕ) (so_far : List Step) → Stands l start so_far self.old → GoesOn l start so_far (PaysBack l so_far to item result) self.new }
        ensures keeps { KeepsReach self.old self.new }
    {
        match self.way_to(rt, to.looper) {
            Ok(way) => self.reply(rt, way, to.looper, item),
            Err(_) => false,
        }
    }

    /// Pays what is owed. False where it found no memory for that.
    pub(crate) fn pay<R: Wait>(&mut self, rt: &R, debt: Debt) -> bool
        requires stands { IsStanding self.old }
        requires payable { IsPayable debt }
        ensures goes { (l : LooperFacts) (start : ℕ) (so_far : List Step) → Stands l start so_far self.old → GoesOn l start so_far (PaysDebt l so_far debt result) self.new }
        ensures keeps { KeepsReach self.old self.new }
    {
        match debt {
            Debt::Nothing => true,
            Debt::Text { slot, flat } => {
                self.fill_with(rt, slot, flat);
                true
            }
            Debt::NoReply { slot } => {
                self.fill_with_none(rt, slot);
                true
            }
            Debt::Back { to, item } => self.post_back(rt, to, item),
        }
    }
}
