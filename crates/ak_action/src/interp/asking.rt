ghost use Rattle.std.specs.Prelude.{◌≡◌, ◌<◌, ◌≤◌, Some, None, drop, slice_get, option_map, IfOk, OnErr, IfSome, OnSome, IsSome};
ghost use Rattle.ak_message.specs.Seen.{value_of};
ghost use Rattle.ak_action.specs.Acts.{want_of, put};
ghost use Rattle.ak_action.specs.Doing.{row_of};
ghost use Rattle.ak_action.specs.DoingSeen.{doing_seen};
ghost use Rattle.ak_action.specs.Interp.{nexted, failed, carried, go_on, actions_of, out_of_memory, past, MayFail};
ghost use Rattle.ak_action.specs.Steps.{IsInAction, carried_as, stepped};
ghost use Rattle.ak_action.specs.Limits.{action_limit};

use super::{Interp, Stage};
use crate::action::Action;
use crate::answer::{AnswerWord, Want};
use crate::doing::{Doing, Sending, prepared};
use crate::row::DeskRow;
use crate::state::DeskState;
use ak_base::{KitError, NoMemory};
use ak_message::{Address, Message, Value};

impl Interp {
    // Carries out the actions from the place on, until one wants something.
    pub(super) fn go_on(&mut self, state: &mut DeskState) -> Result<Want, NoMemory>
        requires { self.old.stage ≡ Stage.Ready }
        ensures ok { IfOk result (λ want. go_on None (drop self.old.place (actions_of state.old self.old.token self.old.reaction)) self.old state.old
            ≡ nexted want self.new state.new) }
        ensures err { OnErr result (go_on (Some self.new.place) (drop self.old.place (actions_of state.old self.old.token self.old.reaction)) self.old state.old
            ≡ failed self.new state.new) }
        ensures memory { OnErr result (MayFail (slice_get (actions_of state.old self.old.token self.old.reaction) self.new.place)) }
    {
        let count = actions_of(state, self.token, self.reaction).len();
        for _ in self.place..count {
            if let Some(want) = self.step(state)? {
                return Ok(want);
            }
        }
        self.stage = Stage::Ended;
        Ok(Want::Done)
    }

    // Carries out the action at the place. `None` where the next one is ready.
    #[tactic(auto, using(crate::proofs::GoingOn::stepping))]
    fn step(&mut self, state: &mut DeskState) -> Result<Option<Want>, NoMemory>
        requires { self.old.stage ≡ Stage.Ready }
        ensures ok { IfOk result (λ want.
            stepped (slice_get (actions_of state.old self.old.token self.old.reaction) self.old.place) self.old state.old
            ≡ carried_as want self.new state.new) }
        ensures there { OnErr result (IsSome (slice_get (actions_of state.old self.old.token self.old.reaction) self.old.place)) }
        ensures memory { OnErr result (MayFail (slice_get (actions_of state.old self.old.token self.old.reaction) self.old.place)) }
        ensures err { OnErr result (self.new ≡ out_of_memory self.old) }
        ensures state_stays { OnErr result (state.new ≡ state.old) }
    {
        let Some((row, action)) = action_at(state, self.token, self.reaction, self.place) else {
            return Ok(None);
        };
        let replied = self.reply.is_some();
        let alloc = self.words.allocator();
        match prepared(
            alloc,
            state,
            row,
            self.token,
            &self.message,
            replied,
            action,
        ) {
            Ok(doing) => Ok(self.carry_out(state, doing)),
            Err(NoMemory) => {
                self.run_out_of_memory();
                Err(NoMemory)
            }
        }
    }

    // The action's word is that it found no memory, and no further one is carried out.
    pub(super) fn run_out_of_memory(&mut self)
        requires { IsInAction self.old }
        ensures { self.new ≡ out_of_memory self.old }
    {
        self.words.push(AnswerWord::Error(KitError::NoMemory));
        self.stage = Stage::Ended;
    }

    // The action at the place is done, with that answer.
    pub(super) fn pass(&mut self, error: KitError)
        requires { IsInAction self.old }
        ensures { self.new ≡ past error self.old }
    {
        self.words.push(AnswerWord::Error(error));
        self.place += 1;
        self.stage = Stage::Ready;
    }

    // What is wanted then. `None` where the next action is ready.
    fn carry_out(&mut self, state: &mut DeskState, doing: Doing) -> Option<Want>
        requires ready { self.old.stage ≡ Stage.Ready }
        requires place { self.old.place < action_limit }
        ensures { carried (doing_seen doing) self.old state.old ≡ carried_as result self.new state.new }
    {
        match doing {
            Doing::Says(error) => {
                self.pass(error);
                None
            }
            Doing::Replies(message) => {
                self.reply = Some(message);
                self.pass(KitError::Ok);
                None
            }
            Doing::Puts { place, value } => {
                put(state, self.token, place, value);
                self.pass(KitError::Ok);
                None
            }
            Doing::Sends { to, how, message } => {
                self.stage = Stage::Sent { how };
                Some(want_of(to, how, message))
            }
            Doing::Finds { word, how, message } => {
                self.stage = Stage::Finding { how, message };
                Some(Want::Find(word))
            }
            Doing::Stops => {
                self.pass(KitError::Ok);
                self.stage = Stage::Ended;
                Some(Want::Done)
            }
            Doing::Quits => {
                self.quit = true;
                self.pass(KitError::Ok);
                None
            }
        }
    }
}

// The first element of the property at that place gets the value, where nothing speaks against it.
fn put(state: &mut DeskState, token: u64, place: usize, value: Value)
    ensures { state.new ≡ put state.old token place (value_of value) }
{
    if let Some(row) = state.handlers.by_token_mut(token) {
        row.elements.set_first_at(place, value);
    }
}

pub(super) fn want_of(to: Address, how: Sending, message: Message) -> Want
    ensures { result ≡ want_of to how message }
{
    match how {
        Sending::Post { back } => Want::Post { to, message, back },
        Sending::Ask { into: _ } => Want::Ask { to, message },
    }
}

// The actions of that reaction of the handler with that token.
fn actions_of(state: &DeskState, token: u64, reaction: u32) -> &[Action]
    ensures { result.now ≡ actions_of state.now token reaction }
{
    let Some(row) = state.handlers.by_token(token) else {
        return &[];
    };
    match row.reactions.as_slice().get(reaction as usize) {
        Some(reaction) => reaction.actions.as_slice(),
        None => &[],
    }
}

// The action at that place, and what the handler holds.
fn action_at(
    state: &DeskState,
    token: u64,
    reaction: u32,
    place: usize,
) -> Option<(&DeskRow, &Action)>
    ensures action { option_map (λ x. x.1.now) result ≡ slice_get (actions_of state.now token reaction) place }
    ensures row { IfSome result (λ x. row_of state.now token ≡ x.0.now) }
    ensures limit { OnSome result (place < action_limit) }
{
    let row = state.handlers.by_token(token)?;
    let reaction = row.reactions.as_slice().get(reaction as usize)?;
    let action = reaction.actions.as_slice().get(place)?;
    Some((row, action))
}
