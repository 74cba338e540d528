ghost use Rattle.std.specs.Prelude.{◌≡◌, ◌+◌, ◌++◌, ◌∷◌, ◌<◌, ◌^◌, [], true, None, Some, ℕ, IfOk, OnErr, OnOk};
ghost use Rattle.ak_flatten.specs.Item.{IsItem, message_of};
ghost use Rattle.ak_route.specs.declared.outcome.Route.{Route};
ghost use Rattle.ak_route.specs.declared.outcome.Route.TheVariants as route;
ghost use Rattle.ak_desk.specs.Desk.{begun_at};
ghost use Rattle.ak_desk.specs.DeskInside.{asked_more, begun_seen, is_last, noted};
ghost use Rattle.ak_desk.specs.Dispatch.{entry_route};
ghost use Rattle.ak_desk.specs.Place.{loopers_of, routed_of};
ghost use Rattle.ak_desk.specs.Task.{heard_of, place_in, task_of, want_of, wants, wants_none, MayWant, TakesAnswer};

use crate::built_in::is_own;
use crate::entry::{EntryRoute, EntryWithItem};
use crate::reserved::{Spare, WordRoom};
use crate::task::Task;
use ak_action::{Answer, DeskState, LooperPlan, Want};
use ak_base::{Items, NoMemory, Text, Trail};
use ak_flatten::{Item, Taken};
use ak_message::Message;
use ak_route::{Place, Route, route};
use std::alloc::Global;
use std::marker::Model;
use std::snapshot::Snapshot;

// A message that is being carried out, and what its end needs.
#[derive(Drop)]
pub(crate) struct Begun {
    pub(crate) position: u64,
    pub(crate) route: EntryRoute,
    pub(crate) task: Task,
    pub(crate) room: WordRoom,
    pub(crate) spare: Spare,
    pub(crate) item: Snapshot<Item>,
    // The state in which it began.
    pub(crate) before: Snapshot<DeskState>,
    // What was asked for outside, and what was answered.
    pub(crate) asked: Trail<Want>,
    pub(crate) heard: Trail<Answer>,
    // Nothing is left to do.
    pub(crate) done: bool,
}

/// The handlers of one looper, and the list of all that was done on them, oldest first. While nothing is begun,
/// the list leads from the opening to the handlers as they are. Messages are carried out by the looper's own
/// thread, one at a time: `begin`, then `want` and `give` in turn, then `end`. A call that is given a clock
/// asks that its time and the last stamp are below 2^63. So they are at a turn, once the clock is ready. (The
/// Be Book, The Application Kit, BLooper.)
#[derive(Drop)]
pub struct Desk {
    pub(crate) state: DeskState,
    pub(crate) entries: Vec<EntryWithItem>,
    pub(crate) begun: Option<Begun>,
    opening: Snapshot<DeskState>,
}

impl Model for Desk {
    ghost use Rattle.ak_desk.specs.Desk.{DeskData};
    ghost use Rattle.ak_desk.specs.DeskCode.{coded_desk};
    ghost use Rattle.ak_desk.specs.DeskInside.{desk_inside, IsSound};

    ghost Value = { DeskData };

    ghost coded = { coded_desk };

    ghost view = { desk_inside };

    ghost invariant = { IsSound };
}

impl Desk {
    ghost use Rattle.ak_desk.specs.Desk.{opened, begun_with, DeskAwaits, DeskIsDone, DeskMayWant, DeskTakes, Fails, Forwards, Hears, OfBegun, Turns, Wants};
    ghost use Rattle.ak_action.specs.Opening.{FitsPlace, Opens};
    ghost use Rattle.ak_desk.specs.Machine.{IsHistory, dispatches};

    /// The desk of the looper of the plan, on which nothing was done. `looper` is its number in the run, from
    /// 0, `team` that of its team. `names` are those of the application's loopers, in order, at most 8 that
    /// differ. The first of them has the number `first`, and all numbers are below 32. The plan's name stands
    /// there at the looper's place, and its actions name no other loopers. The handlers have the tokens 0, 1, 2
    /// and so on, as the plan has them. Answers `NoMemory` where memory ran out.
    pub fn from_plan(
        alloc: Global,
        plan: LooperPlan,
        looper: u32,
        team: u32,
        first: u32,
        names: Items<Text>,
    ) -> Result<Desk, NoMemory>
        requires { FitsPlace plan looper first names }
        ensures opening { IfOk result (λ d. Opens plan looper team first names d.opening) }
        ensures opened { IfOk result (λ d. d ≡ opened d.opening) }
    {
        let state = DeskState::from_plan(alloc, plan, looper, team, first, names)?;
        Desk::open(alloc, state)
    }

    /// A desk that begins in that state, on which nothing was done.
    pub(crate) fn open(alloc: Global, state: DeskState) -> Result<Desk, NoMemory>
        ensures { IfOk result (λ d. d ≡ opened state) }
    {
        Ok(Desk {
            opening: Snapshot::of(&state),
            state,
            entries: Vec::with_capacity(alloc, 1)?,
            begun: None,
        })
    }

    /// The handlers as they are, with the looper's numbers and names. While nothing is begun, they are what the
    /// list makes of the opening. Takes no memory.
    pub fn state(&self) -> &DeskState
        ensures value { result.now ≡ self.now.state }
        ensures history { self.now.begun ≡ None → IsHistory self.now.opening self.now.entries self.now.state }
    {
        &self.state
    }

    /// Begins the message that was taken: it is routed, and all is reserved that its end needs. Nothing else is
    /// begun then, and the item's position is the number of messages dispatched before it. The handlers and the
    /// list stay as they are, and `want` comes next. `NoMemory` changes nothing; then `give_up` may come.
    pub fn begin(&mut self, taken: &Taken) -> Result<(), NoMemory>
        requires rest { self.old.begun ≡ None }
        requires position { taken.now.position ≡ dispatches self.old.entries }
        ensures ok { OnOk result (self.new ≡ begun_with self.old taken.now) }
        ensures goes_on { OnOk result (DeskMayWant self.new) }
        ensures err { OnErr result (self.new ≡ self.old) }
    {
        self.entries.reserve(2)?;
        let begun = begun_at(*self.entries.allocator(), &self.state, taken)?;
        self.begun = Some(begun);
        Ok(())
    }

    /// Goes on with the message that is begun until something is wanted from outside, which is answered; `give`
    /// comes next then. `Done` where nothing is left to do; `end` comes next then. `NoMemory` where memory ran
    /// out in this call, at an action or at the reply. The last word is that then, nothing more is done, what
    /// was done before stays, and `end` comes next. Behind an answer that tells of want of memory it is `Done`.
    pub fn want(&mut self) -> Result<Want, NoMemory>
        requires { DeskMayWant self.old }
        ensures opening { self.new.opening ≡ self.old.opening }
        ensures entries { self.new.entries ≡ self.old.entries }
        ensures ok { IfOk result (λ w. Turns (Wants w) self.old self.new) }
        ensures err { OnErr result (Turns Fails self.old self.new) }
        ensures awaits { IfOk result (λ w. DeskAwaits w self.new) }
        ensures forwards { IfOk result (λ w. OfBegun (Forwards w) self.new.begun) }
        ensures ends { OnErr result (DeskIsDone self.new) }
    {
        ak_route::routes_pop_within();
        ak_action::runs_act();
        ak_action::calls_act();
        let alloc = *self.entries.allocator();
        if let Some(begun) = &mut self.begun {
            return begun.want(alloc, &mut self.state);
        }
        unreachable!()
    }

    /// Hands it the answer to the last want, one that fits that want; `want` comes next. The result of a reply
    /// goes into the property that the ask names, where it names one. No other answer changes the handlers.
    /// Takes no memory.
    pub fn give(&mut self, answer: Answer)
        requires { DeskTakes self.old answer }
        ensures opening { self.new.opening ≡ self.old.opening }
        ensures entries { self.new.entries ≡ self.old.entries }
        ensures given { Turns (Hears answer) self.old self.new }
        ensures goes_on { DeskMayWant self.new }
    {
        ak_action::runs_act();
        ak_action::calls_act();
        let alloc = *self.entries.allocator();
        if let Some(begun) = &mut self.begun {
            begun.give(alloc, &mut self.state, answer);
        }
    }
}

impl Begun {
    // Goes on until something is wanted, and notes it.
    fn want(&mut self, alloc: Global, state: &mut DeskState) -> Result<Want, NoMemory>
        requires { MayWant self.old.task }
        ensures ok { IfOk result (λ w. self.new ≡ noted w (record self.old { task = self.new.task })) }
        ensures next { IfOk result (λ w. want_of None self.old.task state.old ≡ wants w self.new.task state.new) }
        ensures err { OnErr result (self.new ≡ record self.old { task = self.new.task; done = true }) }
        ensures failed { OnErr result (want_of (Some (place_in self.new.task)) self.old.task state.old ≡ wants_none self.new.task state.new) }
    {
        match self.task.want(alloc, state) {
            Ok(want) => {
                self.done = note(&mut self.asked, &want);
                Ok(want)
            }
            Err(NoMemory) => {
                self.done = true;
                Err(NoMemory)
            }
        }
    }

    // Hands it the answer to the last want, and notes it.
    fn give(&mut self, alloc: Global, state: &mut DeskState, a: Answer)
        requires { TakesAnswer self.old.task a }
        ensures message { self.new ≡ record self.old { task = self.new.task; heard = self.old.heard ++ a ∷ [] } }
        ensures heard { heard_of self.old.task state.old a ≡ record { task = self.new.task; state = state.new } }
    {
        self.heard.push(&a);
        self.task.give(alloc, state, a);
    }
}

// Whether nothing is wanted; else the want is one more.
fn note(asked: &mut Trail<Want>, want: &Want) -> bool
    ensures asked { asked.new ≡ asked_more want.now asked.old }
    ensures done { result ≡ is_last want.now }
{
    match want {
        Want::Done => true,
        Want::Find(_) | Want::Post { .. } | Want::Ask { .. } | Want::Forward { .. } => {
            asked.push(want);
            false
        }
    }
}

fn begun_at(alloc: Global, state: &DeskState, taken: &Taken) -> Result<Begun, NoMemory>
    ensures seen { IfOk result (λ b. begun_seen b ≡ begun_at state.now taken.now) }
    ensures item { IfOk result (λ b. IsItem b.item.value) }
    ensures task { IfOk result (λ b. b.task ≡ task_of state.now.first (routed_of state.now taken.now.item)) }
{
    // Reading how many specifiers are popped shows that no more are than there are.
    let _popped = taken.item.popped();
    let room = WordRoom::new(alloc)?;
    let spare = Spare::new(alloc)?;
    let mut message = taken.item.message(alloc)?;
    let route = routed(state, &taken.item, &mut message);
    Ok(Begun {
        position: taken.position,
        route: entry_route(state, route),
        task: Task::start(alloc, state.first, message, route)?,
        room,
        spare,
        item: Snapshot::of(&taken.item),
        before: Snapshot::of(state),
        asked: Trail::new(),
        heard: Trail::new(),
        done: false,
    })
}

// Where the message of the item goes.
fn routed(state: &DeskState, item: &Item, message: &mut Message) -> Route
    requires { message.old ≡ message_of item.now }
    ensures routed { record { route = result; message = message.new } ≡ routed_of state.now item.now }
    ensures forward { (looper : ℕ) → result ≡ route.Forward looper → state.now.first + looper < 2 ^ 32 }
{
    ak_route::forwards_are_to_later_loopers();
    let local = item.team() == state.team;
    let place = place_of(state);
    route(
        &state.handlers,
        &state.common,
        message,
        local,
        item.dropped(),
        item.target(),
        &place,
    )
}

fn place_of(state: &DeskState) -> Place<'_>
    ensures { result ≡ loopers_of state.now }
{
    if is_own(state) {
        Place::own(state.names.as_slice())
    } else {
        Place::other()
    }
}

// The route as an entry tells it.
fn entry_route(state: &DeskState, route: Route) -> EntryRoute
    requires { (looper : ℕ) → route ≡ Route.Forward looper → state.now.first + looper < 2 ^ 32 }
    ensures { result ≡ entry_route state.now route }
{
    match route {
        Route::Deliver { token, .. } => EntryRoute::To(token),
        Route::Skipped => EntryRoute::Skipped,
        Route::Dropped => EntryRoute::Dropped,
        Route::NotUnderstood => EntryRoute::NotUnderstood,
        Route::Forward { looper } => EntryRoute::Forward(state.first + looper),
    }
}
