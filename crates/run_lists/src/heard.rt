//! What a message heard from outside, as the answer words of its entry tell it.

ghost use Rattle.std.specs.Prelude.{◌≡◌, OnOk, IsTrue, length};
ghost use Rattle.ak_action.specs.Interp.{AnswersFind};
ghost use Rattle.ak_desk.specs.Answering.{AnswersAsk, AnswersForward, AnswersPost};
ghost use Rattle.ak_desk.specs.Desk.{DeskAwaits, DeskIsDone, DeskMayWant, DeskTakes};

use crate::stop::{Difference, Stop};
use ak_action::{Action, Answer, AnswerWord, DeskState, Want};
use ak_base::{Bytes, KitError, NoMemory};
use ak_desk::Desk;
use ak_flatten::{Item, unflatten};
use ak_route::{Place, Route, Taker, route};
use std::alloc::Global;

// ---- the words that are answers from outside
/// Those of the words that answer what the message of that item wants of a looper in that state.
pub(crate) fn words_heard<'a>(
    alloc: Global,
    state: &DeskState,
    item: &Item,
    words: &'a [AnswerWord],
) -> Result<Vec<&'a AnswerWord>, NoMemory> {
    let actions = actions_of(state, routed(alloc, state, item)?);
    let mut heard = Vec::new(alloc);
    let mut place = 0_usize;
    for word in words {
        if is_heard(word, actions.get(place)) {
            heard.push(word)?;
        }
        place = place.wrapping_add(usize::from(ends_action(word)));
    }
    Ok(heard)
}

fn routed(alloc: Global, state: &DeskState, item: &Item) -> Result<Route, NoMemory> {
    let mut message = item.message(alloc)?;
    let place = if state.looper == state.first {
        Place::own(state.names.as_slice())
    } else {
        Place::other()
    };
    Ok(route(
        &state.handlers,
        &state.common,
        &mut message,
        item.team() == state.team,
        item.dropped(),
        item.target(),
        &place,
    ))
}

// Those of the reaction that takes the message; none where none does.
fn actions_of(state: &DeskState, route: Route) -> &[Action] {
    let Route::Deliver {
        token,
        taker: Taker::Reaction(place),
    } = route
    else {
        return &[];
    };
    let Some(row) = state.handlers.by_token(token) else {
        return &[];
    };
    match row.reactions.as_slice().get(place as usize) {
        Some(reaction) => reaction.actions.as_slice(),
        None => &[],
    }
}

// Whether something from outside was the answer, and not the action itself. What is no action's is the sending on.
fn is_heard(word: &AnswerWord, action: Option<&Action>) -> bool {
    match action {
        Some(Action::Post { .. } | Action::Ask { .. }) | None => !is_nowhere(word),
        Some(_) => false,
    }
}

// Nothing was sent: whom it was for is not there.
fn is_nowhere(word: &AnswerWord) -> bool {
    matches!(
        word,
        AnswerWord::Error(KitError::NoTeam | KitError::BadHandler)
    )
}

// Behind the word of a look-up the action has one more.
fn ends_action(word: &AnswerWord) -> bool {
    matches!(word, AnswerWord::Error(_) | AnswerWord::Reply(_))
}

// ---- the words as answers
/// Goes on with these answers, until nothing is left to do.
pub(crate) fn answer_all(alloc: Global, desk: &mut Desk, heard: &[&AnswerWord]) -> Result<(), Stop>
    requires { DeskMayWant desk.old }
    ensures done { OnOk result (DeskIsDone desk.new) }
    ensures opening { desk.new.opening ≡ desk.old.opening }
    ensures entries { desk.new.entries ≡ desk.old.entries }
{
    let want = desk.want()?;
    if let Want::Done = want {
        return Ok(());
    }
    let [word, rest @ ..] = heard else {
        return Err(Stop::Differs(Difference::Words));
    };
    answer(alloc, desk, &want, word)?;
    answer_all(alloc, desk, rest)
}

fn answer(alloc: Global, desk: &mut Desk, want: &Want, word: &AnswerWord) -> Result<(), Stop>
    requires { DeskAwaits want.now desk.old }
    ensures goes_on { OnOk result (DeskMayWant desk.new) }
    ensures opening { desk.new.opening ≡ desk.old.opening }
    ensures entries { desk.new.entries ≡ desk.old.entries }
{
    match word {
        AnswerWord::Reply(flat) => hand_reply(alloc, desk, want, flat),
        // Who the team's first looper is, no word tells.
        AnswerWord::Team(team) => hand(
            desk,
            want,
            Answer::Team {
                team: *team,
                first: 0,
            },
        ),
        AnswerWord::NoTeam => hand(desk, want, Answer::NoTeam),
        AnswerWord::Error(error) => hand(desk, want, answer_by(*error)?),
    }
}

// Where it was written to, no word tells.
fn answer_by(error: KitError) -> Result<Answer, Stop> {
    match error {
        KitError::Ok => Ok(Answer::Written(0)),
        KitError::WouldBlock => Ok(Answer::Full),
        KitError::BadPortId => Ok(Answer::Closed),
        KitError::Spent => Ok(Answer::Spent),
        KitError::TooLong => Ok(Answer::TooLong),
        _ => Err(Stop::Differs(Difference::Words)),
    }
}

// ---- answers that fit
fn hand(desk: &mut Desk, want: &Want, a: Answer) -> Result<(), Stop>
    requires { DeskAwaits want.now desk.old }
    ensures goes_on { OnOk result (DeskMayWant desk.new) }
    ensures opening { desk.new.opening ≡ desk.old.opening }
    ensures entries { desk.new.entries ≡ desk.old.entries }
{
    if !is_answer(desk, want, &a) {
        return Err(Stop::Differs(Difference::Words));
    }
    desk.give(a);
    Ok(())
}

fn hand_reply(alloc: Global, desk: &mut Desk, want: &Want, flat: &Bytes) -> Result<(), Stop>
    requires { DeskAwaits want.now desk.old }
    ensures goes_on { OnOk result (DeskMayWant desk.new) }
    ensures opening { desk.new.opening ≡ desk.old.opening }
    ensures entries { desk.new.entries ≡ desk.old.entries }
{
    let Want::Ask { .. } = want else {
        return Err(Stop::Differs(Difference::Words));
    };
    let flat = copy_of(alloc, flat)?;
    let message = unflatten(alloc, flat.as_slice())?;
    desk.give(Answer::Reply { flat, message });
    Ok(())
}

fn copy_of(alloc: Global, bytes: &Bytes) -> Result<Bytes, NoMemory> {
    let mut copy = Bytes::with_capacity(alloc, bytes.len())?;
    copy.extend(bytes.as_slice())?;
    Ok(copy)
}

// Whether it is an answer to what is wanted, and no reply.
fn is_answer(desk: &Desk, want: &Want, a: &Answer) -> bool
    requires { DeskAwaits want.now desk.now }
    ensures { IsTrue result → DeskTakes desk.now a.now }
{
    match want {
        Want::Find(_) => finds(a),
        Want::Post { .. } => posts(a),
        Want::Ask { .. } => asks(a),
        Want::Forward { .. } => forwards(a),
        Want::Done => false,
    }
}

fn finds(a: &Answer) -> bool
    ensures { IsTrue result → AnswersFind a.now }
{
    matches!(a, Answer::Team { .. } | Answer::NoTeam)
}

fn posts(a: &Answer) -> bool
    ensures { IsTrue result → AnswersPost a.now }
{
    match a {
        Answer::Written(_) | Answer::Full | Answer::Closed | Answer::Spent | Answer::TooLong => {
            true
        }
        _ => false,
    }
}

fn asks(a: &Answer) -> bool
    ensures { IsTrue result → AnswersAsk a.now }
{
    match a {
        Answer::Closed | Answer::Spent | Answer::TooLong => true,
        _ => false,
    }
}

fn forwards(a: &Answer) -> bool
    ensures { IsTrue result → AnswersForward a.now }
{
    match a {
        Answer::Written(_) | Answer::Closed | Answer::Spent => true,
        _ => false,
    }
}
