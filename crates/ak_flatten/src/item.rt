ghost use Rattle.std.specs.Prelude.{◌≡◌, ◌<◌, ◌≤◌, ◌↔◌, None, length, IfOk, IfErr, OnOk, IsErrOf};
ghost use Rattle.ak_message.specs.Fields.{specifier_count};
ghost use Rattle.ak_flatten.specs.Laws.{first_fault};
ghost use Rattle.ak_flatten.specs.Item.{message_of, item_fault, IsItem, IsItemFault, spelled};
ghost use Rattle.ak_message.specs.Popped.{unpopped};
ghost use Rattle.ak_flatten.specs.Spelling.{spelling};
ghost use Rattle.ak_flatten.specs.Limits.{flat_limit};

use crate::fault::{FlattenFault, ItemFault, UnflattenFault};
use crate::reading::unflatten;
use crate::writing::flatten;
use ak_base::{Bytes, NoMemory};
use ak_message::{Address, Message, Target};
use std::alloc::Global;
use std::marker::Model;

/// What is owed to the sender of a message once it is dispatched or left.
#[derive(Clone, Copy, Debug, PartialEq, Eq)]
pub enum Duty {
    /// Nothing.
    None,
    /// A reply into the slot of that number, which a waiting sender opened. Slots count from 0.
    Slot(u64),
    /// A reply posted to that address.
    Back(Address),
}

/// A message as a port holds it, in six parts. These are its flat text, how many of its specifiers are
/// popped, and for which handler it is. The others are the sender's team, whether a user dropped it, and what
/// is owed to the sender. The flat text is always that of a message, and no more of its specifiers are popped
/// than it has. Contracts see the parts.
#[derive(Debug, Drop)]
pub struct Item {
    target: Target,
    team: u32,
    dropped: bool,
    duty: Duty,
    popped: u32,
    flat: Bytes,
}

/// An item that was taken out of a port.
#[derive(Debug, Drop)]
pub struct Taken {
    /// The number of the items that were written to the port before it.
    pub position: u64,
    /// The item itself.
    pub item: Item,
}

impl Model for Item {
    ghost use Rattle.ak_flatten.specs.Item.{ItemData, coded_item};
    ghost use Rattle.ak_flatten.specs.Inside.{item_inside, IsSound};

    ghost Value = { ItemData };

    ghost coded = { coded_item };

    ghost view = { item_inside };

    ghost invariant = { IsSound };
}

impl Item {
    /// The item of the message, with as many of its specifiers popped. `TooLong` where its flat text has
    /// over 4,096 bytes. `NoMemory` where memory ran out. In the messages inside nothing is popped then. A
    /// later change of the message does not reach the item.
    pub fn new(
        alloc: Global,
        target: Target,
        team: u32,
        dropped: bool,
        duty: Duty,
        message: &Message,
    ) -> Result<Item, FlattenFault>
        ensures ok { IfOk result (λ item. item ≡ record {
          target = target;
          team = team;
          dropped = dropped;
          duty = duty;
          popped = message.now.popped;
          flat = spelling message.now;
        }) }
        ensures too_long { IsErrOf result FlattenFault.TooLong ↔ (flat_limit < length (spelling message.now)) }
        ensures message { IfOk result (λ item. message_of item ≡ record (unpopped message.now) { popped = message.now.popped }) }
    {
        let flat = flatten(alloc, message)?;
        // Reading the code shows that the message is whole.
        let _code = message.what();
        let popped = message.popped();
        Ok(Item {
            target,
            team,
            dropped,
            duty,
            popped,
            flat,
        })
    }

    /// The item of a flat text, with so many specifiers popped. The faults are tested in the order of
    /// `ItemFault`: `Bad` with the first fault of the bytes, then `Popped`. `NoMemory` may come in place of
    /// any answer. An `Err` drops the bytes.
    pub fn from_flat(
        alloc: Global,
        target: Target,
        team: u32,
        dropped: bool,
        duty: Duty,
        popped: u32,
        flat: Bytes,
    ) -> Result<Item, ItemFault>
        ensures ok { IfOk result (λ item. item ≡ record {
          target = target;
          team = team;
          dropped = dropped;
          duty = duty;
          popped = popped;
          flat = flat;
        }) }
        ensures fits { OnOk result (item_fault flat popped ≡ None) }
        ensures fault { IfErr result (IsItemFault flat popped) }
    {
        let message = unflatten(alloc, flat.as_slice())?;
        if popped > message.specifiers() {
            return Err(ItemFault::Popped);
        }
        Ok(Item {
            target,
            team,
            dropped,
            duty,
            popped,
            flat,
        })
    }

    /// For which handler of its looper the message is.
    pub fn target(&self) -> Target
        ensures { result ≡ self.now.target }
    {
        self.target
    }

    /// The sender's team.
    pub fn team(&self) -> u32
        ensures { result ≡ self.now.team }
    {
        self.team
    }

    /// Whether a user dropped the message.
    pub fn dropped(&self) -> bool
        ensures { result ≡ self.now.dropped }
    {
        self.dropped
    }

    /// What is owed to the sender.
    pub fn duty(&self) -> Duty
        ensures { result ≡ self.now.duty }
    {
        self.duty
    }

    /// How many of the message's specifiers are popped, counted from the last.
    pub fn popped(&self) -> u32
        ensures value { result ≡ self.now.popped }
        ensures is_item { IsItem self.now }
    {
        self.popped
    }

    /// The message's flat text, at most 4,096 bytes.
    pub fn flat(&self) -> &[u8]
        ensures value { result.now ≡ self.now.flat }
        ensures is_item { IsItem self.now }
    {
        self.flat.as_slice()
    }

    /// The message, with so many of its specifiers popped. In the messages inside nothing is popped.
    /// `NoMemory` where memory ran out.
    pub fn message(&self, alloc: Global) -> Result<Message, NoMemory>
        ensures { IfOk result (λ m. m ≡ message_of self.now) }
    {
        let mut message = read_again(alloc, self.flat.as_slice())?;
        message.set_popped(self.popped);
        Ok(message)
    }

    /// The same with another duty. Takes no memory.
    pub fn with_duty(self, duty: Duty) -> Item
        ensures { result ≡ record self { duty = duty } }
    {
        Item { duty, ..self }
    }

    /// The same with so many of its specifiers popped. The message has to have so many. Takes no memory.
    pub fn with_popped(self, popped: u32) -> Item
        requires { popped ≤ specifier_count (message_of self).fields }
        ensures { result ≡ record self { popped = popped } }
    {
        Item { popped, ..self }
    }

    /// The same for the looper itself, with so many specifiers popped. The looper's token is 0. At least as
    /// many have to be popped as before, and the message has to have so many. Takes no memory.
    pub fn forwarded(self, popped: u32) -> Item
        requires at_least { self.popped ≤ popped }
        requires within { popped ≤ specifier_count (message_of self).fields }
        ensures { result ≡ record self { target = Target.Token 0; popped = popped } }
    {
        Item {
            target: Target::Token(0),
            popped,
            ..self
        }
    }

    /// An equal item. `NoMemory` where memory ran out.
    pub fn try_clone(&self, alloc: Global) -> Result<Item, NoMemory>
        ensures { IfOk result (λ item. item ≡ self.now) }
    {
        let mut flat = Bytes::with_capacity(alloc, self.flat.len())?;
        flat.extend(self.flat.as_slice())?;
        Ok(Item {
            target: self.target,
            team: self.team,
            dropped: self.dropped,
            duty: self.duty,
            popped: self.popped,
            flat,
        })
    }
}

// The message of bytes that are known to be a flat text.
fn read_again(alloc: Global, flat: &[u8]) -> Result<Message, NoMemory>
    requires { first_fault flat.now ≡ None }
    ensures { IfOk result (λ m. m ≡ spelled flat.now) }
{
    match unflatten(alloc, flat) {
        Ok(message) => Ok(message),
        Err(fault) => {
            // Nothing but memory can be missing.
            prove!(matches!(fault, UnflattenFault::NoMemory));
            Err(NoMemory)
        }
    }
}
