ghost use Rattle.std.specs.Prelude.{◌≡◌, ◌<◌, Some};
ghost use Rattle.ak_action.specs.Acts.{error_of, taken_in};
ghost use Rattle.ak_action.specs.Interp.{hear_of_send};
ghost use Rattle.ak_action.specs.Steps.{IsInAction, IsFinding, team_heard};
ghost use Rattle.ak_action.specs.Limits.{action_limit};

use super::{Interp, Stage};
use crate::answer::{Answer, AnswerWord};
use crate::doing::Sending;
use crate::state::DeskState;
use ak_base::{Bytes, KitError};
use ak_message::Message;
use std::mem;

impl Interp {
    // The answer to the question for a running application.
    pub(super) fn hear_of_team(&mut self, a: Answer)
        requires finding { IsFinding self.old.stage }
        requires place { self.old.place < action_limit }
        ensures { self.new ≡ team_heard self.old.stage self.old a }
    {
        match a {
            Answer::Team { team, first } => {
                self.words.push(AnswerWord::Team(team));
                self.stage = mem::replace(&mut self.stage, Stage::Ended).found(first);
            }
            Answer::NoMemory => self.run_out_of_memory(),
            _ => {
                self.words.push(AnswerWord::NoTeam);
                self.words.push(AnswerWord::Error(KitError::NoTeam));
                self.place += 1;
                self.stage = Stage::Ready;
            }
        }
    }

    // The answer to a send.
    pub(super) fn hear_of_send(&mut self, state: &mut DeskState, how: Sending, a: Answer)
        requires sent { self.old.stage ≡ Stage.Sent how }
        requires place { self.old.place < action_limit }
        ensures { hear_of_send how self.old state.old a ≡ record { interp = self.new; state = state.new } }
    {
        match a {
            Answer::NoMemory => self.run_out_of_memory(),
            Answer::Reply { flat, message } => self.hear_of_reply(state, how, flat, message),
            other => self.pass(error_of(&other)),
        }
    }

    // The reply to an ask. A post has none.
    fn hear_of_reply(&mut self, state: &mut DeskState, how: Sending, flat: Bytes, message: Message)
        requires { IsInAction self.old }
        ensures { hear_of_send how self.old state.old (Answer.Reply flat message) ≡ record { interp = self.new; state = state.new } }
    {
        match how {
            Sending::Ask { into } => {
                self.words.push(AnswerWord::Reply(flat));
                self.place += 1;
                self.stage = Stage::Ready;
                take_result(state, self.token, into, message);
            }
            Sending::Post { .. } => self.pass(KitError::Ok),
        }
    }
}

// The property that an ask names, if it names one, gets the result of the reply.
fn take_result(state: &mut DeskState, token: u64, into: Option<usize>, reply: Message)
    ensures { state.new ≡ taken_in state.old token into reply }
{
    match into {
        Some(place) => take_in(state, token, place, reply),
        None => {}
    }
}

// The property at that place gets the result of the reply.
fn take_in(state: &mut DeskState, token: u64, place: usize, reply: Message)
    ensures { state.new ≡ taken_in state.old token (Some place) reply }
{
    if let Some(row) = state.handlers.by_token_mut(token) {
        row.elements.take_result_at(place, reply);
    }
}

fn error_of(a: &Answer) -> KitError
    ensures { result ≡ error_of a.now }
{
    match a {
        Answer::Team { .. } | Answer::Written(_) | Answer::Reply { .. } => KitError::Ok,
        Answer::NoTeam => KitError::NoTeam,
        Answer::Full => KitError::WouldBlock,
        Answer::Closed => KitError::BadPortId,
        Answer::Spent => KitError::Spent,
        Answer::TooLong => KitError::TooLong,
        Answer::NoMemory => KitError::NoMemory,
    }
}
