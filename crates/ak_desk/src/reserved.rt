//! What is taken before a message is carried out, so that nothing has to be taken at its end.

ghost use Rattle.std.specs.Prelude.{◌≡◌};
ghost use Rattle.ak_desk.specs.Replies.{error_reply};
ghost use Rattle.ak_desk.specs.Task.{word_list};

use crate::replies::error_reply;
use ak_action::AnswerWord;
use ak_base::{Items, KitError, NoMemory};
use ak_message::{Message, Value};
use std::alloc::Global;
use std::marker::Model;

/// A reply that tells an error, whichever it will be.
#[derive(Drop)]
pub(crate) struct Spare {
    reply: Message,
}

impl Model for Spare {
    ghost use Rattle.std.specs.Prelude.{◌≡◌};
    ghost use Rattle.ak_base.specs.declared.error.KitError.TheVariants as error;
    ghost use Rattle.ak_desk.specs.Replies.{error_reply};

    ghost Value = { Unit {0} };

    ghost view = { λ _. tt };

    ghost invariant = { λ spare. spare.reply ≡ error_reply error.TooLong };
}

impl Spare {
    pub(crate) fn new(alloc: Global) -> Result<Spare, NoMemory> {
        Ok(Spare {
            reply: error_reply(alloc, KitError::TooLong)?,
        })
    }

    /// The reply with that error. Takes no memory.
    pub(crate) fn with(self, error: KitError) -> Message
        ensures { result ≡ error_reply error }
    {
        let mut reply = self.reply;
        let _replaced = reply.replace(b"error", 0, Value::Int32(error.number()));
        reply
    }
}

/// Room for one word.
#[derive(Drop)]
pub(crate) struct WordRoom {
    list: Vec<AnswerWord>,
}

impl Model for WordRoom {
    ghost use Rattle.std.specs.Prelude.{◌≡◌, ◌<◌, [], vec_len, vec_capacity};

    ghost Value = { Unit {0} };

    ghost view = { λ _. tt };

    ghost invariant = { λ room. (room.list.items ≡ []) × (vec_len room.list < vec_capacity room.list) };
}

impl WordRoom {
    pub(crate) fn new(alloc: Global) -> Result<WordRoom, NoMemory> {
        Ok(WordRoom {
            list: Vec::with_capacity(alloc, 1)?,
        })
    }

    /// The word, if there is one. Takes no memory.
    pub(crate) fn with(self, word: Option<KitError>) -> Items<AnswerWord>
        ensures { result ≡ word_list word }
    {
        let mut list = self.list;
        if let Some(error) = word {
            list.push(AnswerWord::Error(error)).unwrap();
        }
        Items::from_vec(list)
    }
}
