ghost use Rattle.std.specs.Prelude.{◌≡◌, Some, None, IfOk, OnErr, slice_get};
ghost use Rattle.ak_action.specs.Interp.{started, next_of, give_of, nexted, failed, actions_of, MayFail, Given, MayGoOn, Answers, HasEnded};

use crate::answer::{Acted, Answer, Want};
use crate::doing::{Sending, preferred_of};
use crate::state::DeskState;
use crate::words::Words;
use ak_base::NoMemory;
use ak_message::Message;
use std::alloc::Global;
use std::marker::Model;
use std::mem;

mod answering;
mod asking;

use asking::want_of;

/// How many words the answers of a reaction can have: two for each action.
pub const ANSWER_WORD_LIMIT: usize = 32;

// Where a reaction stands.
#[derive(Drop)]
pub(crate) enum Stage {
    // The action at the place is to be carried out.
    Ready,
    // An application was asked for; the message is to be sent to it.
    Finding {
        how: Sending,
        message: Message,
    },
    // It was found; the message is to be sent to its first looper.
    Found {
        looper: u32,
        how: Sending,
        message: Message,
    },
    // The message was sent, and there is no answer yet.
    Sent {
        how: Sending,
    },
    // No action is left.
    Ended,
}

impl Stage {
    ghost use Rattle.ak_action.specs.Steps.{found_at};

    // Where it stands once the application that it asked for is found, with that first looper.
    fn found(self, looper: u32) -> Stage
        ensures { result ≡ found_at self looper }
    {
        match self {
            Stage::Finding { how, message } => Stage::Found {
                looper,
                how,
                message,
            },
            stage => stage,
        }
    }
}

/// One reaction of a handler on one message, carried out action by action. `next` says what it wants from
/// outside, and `give` hands it the answer. Contracts see the message, the place of the action, what it waits
/// for, and what was said so far.
#[derive(Drop)]
pub struct Interp {
    message: Message,
    token: u64,
    reaction: u32,
    // of the action that is next, or that waits for its answer
    place: usize,
    pub(crate) stage: Stage,
    words: Words,
    reply: Option<Message>,
    quit: bool,
}

impl Model for Interp {
    ghost use Rattle.ak_action.specs.Interp.{InterpData};
    ghost use Rattle.ak_action.specs.InterpCode.{coded_interp};

    ghost Value = { InterpData };

    ghost coded = { coded_interp };

    ghost use Rattle.ak_action.specs.InterpInside.{interp_inside, HasRoom};

    ghost view = { interp_inside };

    ghost invariant = { HasRoom };
}

impl Interp {
    /// The reaction at that place of the handler with that token, on the message. Reactions count from 0; one
    /// that is not there has no actions. Room for all answers is reserved: `NoMemory` where there is none.
    pub fn start(
        alloc: Global,
        message: Message,
        token: u64,
        reaction: u32,
    ) -> Result<Interp, NoMemory>
        ensures { IfOk result (λ i. i ≡ started message token reaction) }
    {
        Ok(Interp {
            message,
            token,
            reaction,
            place: 0,
            stage: Stage::Ready,
            words: Words::with_room(alloc, ANSWER_WORD_LIMIT)?,
            reply: None,
            quit: false,
        })
    }

    /// Carries out actions until one wants something from outside, which is answered; `Done` where none is
    /// left. Before a further call that want has to be answered. Where an action finds no memory it changes
    /// nothing, its word is that, and no further action is carried out: `NoMemory` is answered. That comes of no
    /// action but one that replies, sends or sets.
    #[tactic(auto, using(crate::proofs::Stages::stages))]
    pub fn next(&mut self, state: &mut DeskState) -> Result<Want, NoMemory>
        requires { MayGoOn self.old }
        ensures ok { IfOk result (λ want. next_of None self.old state.old ≡ nexted want self.new state.new) }
        ensures err { OnErr result (next_of (Some self.new.place) self.old state.old ≡ failed self.new state.new) }
        ensures memory { OnErr result (MayFail (slice_get (actions_of state.old self.old.token self.old.reaction) self.new.place)) }
    {
        match mem::replace(&mut self.stage, Stage::Ready) {
            Stage::Found {
                looper,
                how,
                message,
            } => {
                self.stage = Stage::Sent { how };
                Ok(want_of(preferred_of(looper), how, message))
            }
            Stage::Ready => self.go_on(state),
            _ => {
                self.stage = Stage::Ended;
                Ok(Want::Done)
            }
        }
    }

    /// Hands it the answer to the last want. It has to be one to that want, as `Answer` says, and the flat
    /// text of a reply has to spell its message. An answer `NoMemory` ends the list of actions. Takes no
    /// memory.
    #[tactic(auto, using(crate::proofs::Stages::stages))]
    pub fn give(&mut self, state: &mut DeskState, answer: Answer)
        requires { Answers self.old answer }
        ensures { give_of self.old state.old answer ≡ record { interp = self.new; state = state.new } }
    {
        match self.stage {
            Stage::Finding { .. } => self.hear_of_team(answer),
            Stage::Sent { how } => self.hear_of_send(state, how, answer),
            _ => {}
        }
    }

    /// What it came to. It has to have ended: by `Done`, by `NoMemory` of `next`, or by an answer `NoMemory`.
    /// Takes no memory.
    pub fn finish(self) -> Acted
        requires { HasEnded self }
        ensures answers { result.answers ≡ self.words }
        ensures reply { result.reply ≡ self.reply }
        ensures quit { result.quit ≡ self.quit }
    {
        Acted {
            answers: self.words.into_items(),
            reply: self.reply,
            quit: self.quit,
        }
    }
}
