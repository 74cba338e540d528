ghost use Rattle.std.specs.Prelude.{◌≡◌, ◌≤◌, ◌<◌, ◌↔◌, length, IfOk, IsErrOf};
ghost use Rattle.ak_message.specs.Fields.{specifier_count};
ghost use Rattle.ak_flatten.specs.Spelling.{spelling};
ghost use Rattle.ak_flatten.specs.Limits.{flat_limit};

use ak_flatten::{Duty, FlattenFault, Item};
use ak_message::{Address, Message, Target};
use std::alloc::Global;

/// What stands on a message when it is sent. A message's own count of popped specifiers is not sent: the
/// envelope's is.
#[derive(Clone, Copy, Debug, PartialEq, Eq)]
pub struct Envelope {
    /// For which handler of the looper it is.
    pub target: Target,
    /// The sender's team.
    pub team: u32,
    /// Whether a user dropped it.
    pub dropped: bool,
    /// How many of its specifiers are popped.
    pub popped: u32,
    /// Where a reply is posted, if anywhere; nowhere for an ask.
    pub back: Option<Address>,
}

impl Envelope {
    ghost use Rattle.ak_messenger.specs.Sends.{back_duty, item_in};

    // What is owed to the sender of a post.
    pub(crate) fn duty(&self) -> Duty
        ensures { result ≡ back_duty self.now.back }
    {
        match self.back {
            Some(address) => Duty::Back(address),
            None => Duty::None,
        }
    }

    // The message as an item with this envelope and duty.
    #[tactic(auto, using(crate::proofs::Sending::popped_fits))]
    pub(crate) fn item(&self, alloc: Global, duty: Duty, m: &Message) -> Result<Item, FlattenFault>
        requires { self.now.popped ≤ specifier_count m.now.fields }
        ensures ok { IfOk result (λ item. item ≡ item_in self.now duty m.now) }
        ensures too_long { IsErrOf result FlattenFault.TooLong ↔ (flat_limit < length (spelling m.now)) }
    {
        let item = Item::new(alloc, self.target, self.team, self.dropped, duty, m)?;
        Ok(item.with_popped(self.popped))
    }
}
