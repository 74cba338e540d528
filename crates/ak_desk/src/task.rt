//! What is still to do for a message, step by step.

ghost use Rattle.std.specs.Prelude.{◌≡◌, ◌+◌, ◌<◌, ◌^◌, None, Some, Ok, false, ℕ, IsSome, IsErr, IfOk, OnErr};
ghost use Rattle.ak_action.specs.declared.state.DeskState.{DeskState};
ghost use Rattle.ak_action.specs.Acts.{error_of};
ghost use Rattle.ak_desk.specs.Answering.{AnswersForward};
ghost use Rattle.ak_desk.specs.Dispatch.{forward_reply};
ghost use Rattle.ak_desk.specs.Replies.{error_reply};
ghost use Rattle.ak_desk.specs.Task.{taken_as, ready, task_by, Awaits, MayWant, TakesAnswer, IsDone, IsNoReaction, wants, wants_none, want_of, place_in, starved, spare_in, heard_of, words_of, reply_of, quits};

use crate::built_in::{built_in_quits, built_in_reply};
use crate::properties::property_replied;
use crate::replies::{none_reply, not_understood};
use crate::reserved::{Spare, WordRoom};
use ak_action::{Answer, AnswerWord, DeskState, Interp, Want};
use ak_base::{Items, KitError, NoMemory};
use ak_message::Message;
use ak_route::{Route, Taker};
use std::alloc::Global;
use std::mem;

/// What a looper has still to do for the message that it handles.
#[derive(Drop)]
pub(crate) enum Task {
    // The handler's reaction is carried out.
    Reaction(Interp),
    // The command on the property at that place of the handler's table.
    Property {
        token: u64,
        place: u32,
        message: Message,
    },
    // What every handler, looper or application's own looper knows.
    BuiltIn {
        token: u64,
        message: Message,
    },
    // The message is to be sent on to that looper, with so many specifiers popped.
    Forward {
        looper: u32,
        popped: u32,
        spare: Spare,
    },
    // It was sent on, and there is no answer yet.
    Forwarding {
        spare: Spare,
    },
    // Nothing is left: its word, if it has one, its reply, unless it was sent on, and whether the looper is
    // to end.
    Done {
        word: Option<KitError>,
        reply: Option<Message>,
        quit: bool,
    },
}

/// What a task came to.
#[derive(Drop)]
pub(crate) struct Ended {
    pub(crate) answers: Items<AnswerWord>,
    pub(crate) reply: Option<Message>,
    pub(crate) quit: bool,
}

impl Task {
    /// That of a message with this route; `first` is the number of the application's first looper.
    pub(crate) fn start(
        alloc: Global,
        first: u32,
        message: Message,
        route: Route,
    ) -> Result<Task, NoMemory>
        requires { (looper : ℕ) → route ≡ Route.Forward looper → first + looper < 2 ^ 32 }
        ensures task { IfOk result (λ t. t ≡ task_by first message route) }
        ensures goes_on { IfOk result MayWant }
    {
        match route {
            Route::Deliver { token, taker } => taken_as(alloc, token, message, taker),
            Route::Skipped | Route::Dropped => Ok(ready(none_reply(alloc))),
            Route::NotUnderstood => Ok(ready(not_understood(alloc))),
            Route::Forward { looper } => Ok(Task::Forward {
                looper: first + looper,
                popped: message.popped(),
                spare: Spare::new(alloc)?,
            }),
        }
    }

    /// Goes on until something is wanted from outside, which is answered; `Done` where nothing is left to do.
    /// Where there is no memory its last word is that, and nothing more is done.
    pub(crate) fn want(&mut self, alloc: Global, state: &mut DeskState) -> Result<Want, NoMemory>
        requires { MayWant self.old }
        ensures ok { IfOk result (λ w. want_of None self.old state.old ≡ wants w self.new state.new) }
        ensures err { OnErr result (want_of (Some (place_in self.new)) self.old state.old ≡ wants_none self.new state.new) }
        ensures awaits { IfOk result (λ w. Awaits w self.new) }
        ensures ends { OnErr result (IsDone self.new) }
    {
        match self {
            Task::Reaction(interp) => interp.next(state),
            _ => self.want_without(alloc, state),
        }
    }

    // Of all but a reaction.
    fn want_without(&mut self, alloc: Global, state: &mut DeskState) -> Result<Want, NoMemory>
        requires may { MayWant self.old }
        requires other { IsNoReaction self.old }
        ensures ok { IfOk result (λ w. want_of None self.old state.old ≡ wants w self.new state.new) }
        ensures err { OnErr result (want_of (Some (place_in self.new)) self.old state.old ≡ wants_none self.new state.new) }
        ensures awaits { IfOk result (λ w. Awaits w self.new) }
        ensures ends { OnErr result (IsDone self.new) }
    {
        match &*self {
            Task::Property {
                token,
                place,
                message,
            } => {
                let reply = property_replied(alloc, state, *token, *place as usize, message);
                self.answer(alloc, reply, false)
            }
            Task::BuiltIn { token, message } => {
                // Whether the looper is to end does not hang on memory for the reply.
                let quit = built_in_quits(state, message);
                let reply = built_in_reply(alloc, state, *token, message);
                self.answer(alloc, reply, quit)
            }
            Task::Forward { looper, popped, .. } => {
                let want = Want::Forward {
                    looper: *looper,
                    popped: *popped,
                };
                self.send_on(alloc);
                Ok(want)
            }
            Task::Reaction(_) | Task::Forwarding { .. } | Task::Done { .. } => Ok(Want::Done),
        }
    }

    // Nothing is left to do but to send the reply, or there was no memory for it.
    fn answer(
        &mut self,
        alloc: Global,
        reply: Result<Message, NoMemory>,
        quit: bool,
    ) -> Result<Want, NoMemory>
        ensures ok { IfOk reply (λ m. (result ≡ Ok Want.Done) × (self.new ≡ Task.Done None (Some m) quit)) }
        ensures err { OnErr reply (IsErr result × (self.new ≡ starved quit)) }
    {
        match reply {
            Ok(reply) => {
                *self = done(None, Some(reply), quit);
                Ok(Want::Done)
            }
            Err(NoMemory) => {
                *self = starved(alloc, quit);
                Err(NoMemory)
            }
        }
    }

    // The message is sent on, and there is no answer yet.
    fn send_on(&mut self, alloc: Global)
        requires { IsSome (spare_in self.old) }
        ensures { self.new ≡ Task.Forwarding tt }
    {
        if let Some(spare) = spare_of(mem::replace(self, starved(alloc, false))) {
            *self = Task::Forwarding { spare };
        }
    }

    /// Hands it the answer to the last want. Takes no memory.
    pub(crate) fn give(&mut self, alloc: Global, state: &mut DeskState, a: Answer)
        requires { TakesAnswer self.old a }
        ensures heard { heard_of self.old state.old a ≡ record { task = self.new; state = state.new } }
        ensures goes_on { MayWant self.new }
    {
        match self {
            Task::Reaction(interp) => interp.give(state, a),
            _ => self.hear_of_forward(alloc, a),
        }
    }

    // The answer to the sending on.
    fn hear_of_forward(&mut self, alloc: Global, a: Answer)
        requires takes { TakesAnswer self.old a }
        requires other { IsNoReaction self.old }
        ensures heard { (s : DeskState) → heard_of self.old s a ≡ record { task = self.new; state = s } }
        ensures goes_on { MayWant self.new }
    {
        if let Some(spare) = spare_of(mem::replace(self, starved(alloc, false))) {
            *self = forwarded(alloc, spare, a);
        }
    }

    /// What it came to. Takes no memory.
    pub(crate) fn finish(self, alloc: Global, room: WordRoom) -> Ended
        requires { IsDone self }
        ensures answers { result.answers ≡ words_of self }
        ensures reply { result.reply ≡ reply_of self }
        ensures quit { result.quit ≡ quits self }
    {
        match self {
            Task::Reaction(interp) => {
                let acted = interp.finish();
                Ended {
                    answers: acted.answers,
                    reply: Some(acted.reply.unwrap_or(none_reply(alloc))),
                    quit: acted.quit,
                }
            }
            Task::Done { word, reply, quit } => Ended {
                answers: room.with(word),
                reply,
                quit,
            },
            _ => Ended {
                answers: room.with(None),
                reply: None,
                quit: false,
            },
        }
    }
}

// What a message that is sent on, or is to be, keeps for a refusal.
fn spare_of(task: Task) -> Option<Spare>
    ensures { result ≡ spare_in task }
{
    match task {
        Task::Forward { spare, .. } | Task::Forwarding { spare } => Some(spare),
        _ => None,
    }
}

fn taken_as(alloc: Global, token: u64, message: Message, taker: Taker) -> Result<Task, NoMemory>
    ensures { IfOk result (λ t. t ≡ taken_as token message taker) }
{
    match taker {
        Taker::Property(place) => Ok(Task::Property {
            token,
            place,
            message,
        }),
        Taker::Reaction(place) => Ok(Task::Reaction(Interp::start(alloc, message, token, place)?)),
        Taker::BuiltIn => Ok(Task::BuiltIn { token, message }),
    }
}

// The reply, and no word.
fn ready(reply: Message) -> Task
    ensures { result ≡ ready reply }
{
    done(None, Some(reply), false)
}

// There was no memory for its reply.
fn starved(alloc: Global, quit: bool) -> Task
    ensures { result ≡ starved quit }
{
    done(Some(KitError::NoMemory), Some(none_reply(alloc)), quit)
}

fn done(word: Option<KitError>, reply: Option<Message>, quit: bool) -> Task
    ensures { result ≡ Task.Done word reply quit }
{
    Task::Done { word, reply, quit }
}

// What the answer to a sending on makes of it: only a refusal is told to the sender.
fn forwarded(alloc: Global, spare: Spare, a: Answer) -> Task
    requires { AnswersForward a }
    ensures { result ≡ Task.Done (Some (error_of a)) (forward_reply a) false }
{
    match a {
        Answer::Written(_) => done(Some(KitError::Ok), None, false),
        Answer::Closed => refused(spare, KitError::BadPortId),
        Answer::Spent => refused(spare, KitError::Spent),
        _ => starved(alloc, false),
    }
}

fn refused(spare: Spare, error: KitError) -> Task
    ensures { result ≡ Task.Done (Some error) (Some (error_reply error)) false }
{
    done(Some(error), Some(spare.with(error)), false)
}
