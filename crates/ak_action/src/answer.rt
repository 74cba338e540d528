use ak_base::{AppWord, Bytes, Items, KitError};
use ak_message::{Address, Message};

/// What a looper wants from outside, for one answer.
#[derive(Drop)]
pub enum Want {
    /// To know the running application that the word names.
    Find(AppWord),
    /// A message sent without waiting.
    Post {
        /// Where it goes.
        to: Address,
        /// The message, made.
        message: Message,
        /// Where an answer is to go, if one is asked for.
        back: Option<Address>,
    },
    /// A message sent, and its reply.
    Ask {
        /// Where it goes.
        to: Address,
        /// The message, made.
        message: Message,
    },
    /// The message that is handled, sent on to that looper with so many of its specifiers popped. No reaction
    /// wants this.
    Forward {
        /// The looper's number in the run.
        looper: u32,
        /// How many of its specifiers are popped, counted from the last.
        popped: u32,
    },
    /// Nothing more.
    Done,
}

/// The answer to a want. `Find` is answered with `Team` or `NoTeam`. `Post` is answered with `Written`,
/// `Full`, `Closed`, `Spent` or `TooLong`, and `Ask` with `Reply`, `Closed`, `Spent` or `TooLong`. `Forward`
/// is answered with `Written`, `Closed` or `Spent`. Each may be answered with `NoMemory`.
#[derive(Drop)]
pub enum Answer {
    /// The least running team that fits, and the number of its first looper.
    Team { team: u32, first: u32 },
    /// No running team fits.
    NoTeam,
    /// Written to the port, at that position, counted from 0.
    Written(u64),
    /// The port holds as many as it may, and the sender does not wait.
    Full,
    /// The port is shut.
    Closed,
    /// The port has accepted all that it ever does.
    Spent,
    /// The message's flat text has over 4,096 bytes.
    TooLong,
    /// The reply, as its flat text and as the message that this spells.
    Reply { flat: Bytes, message: Message },
    /// Memory ran out.
    NoMemory,
}

/// What the journal says of an action's answer.
#[derive(Debug, Drop)]
pub enum AnswerWord {
    /// How it went; `KitError::Ok` where it was done.
    Error(KitError),
    /// The flat text of the reply to an ask.
    Reply(Bytes),
    /// The team that was found, to which the message then goes.
    Team(u32),
    /// No running team fits.
    NoTeam,
}

/// What a reaction came to.
#[derive(Drop)]
pub struct Acted {
    /// The words of its actions, in their order: at most two for each.
    pub answers: Items<AnswerWord>,
    /// The first reply that was made, if one was.
    pub reply: Option<Message>,
    /// Whether the looper is to end after this message.
    pub quit: bool,
}
