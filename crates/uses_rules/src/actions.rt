//! Reactions in states that no description gives: actions that name what is not there, sums of two kinds, and a
//! property of messages. Expected values come from the rules.

ghost use Rattle.std.specs.Prelude.{◌≤◌, length, IfOk};
ghost use Rattle.ak_action.specs.Interp.{MayGoOn};

use crate::compare::same;
use crate::parts::{NONE, Told, action_of, deep, giving, row_of, text};
use ak_action::{
    Acted, Action, ActionList, Answer, AnswerWord, DeskRow, DeskState, ElementsList, Given, Interp,
    Number, Reaction, ReactionList, Values, Want,
};
use ak_base::{Code, Items, KitError, Text};
use ak_filter::FilterList;
use ak_flatten::{flatten, unflatten};
use ak_handler::HandlerSet;
use ak_message::{Message, Value};
use ak_value::Elements;
use std::alloc::Global;
use std::test::Fail;

// ---- the state
const LINES: &[u8] = b"app /boot/Demo application/x-demo single
looper alpha
property count LONG
element 5
property title CSTR
element \"t\"
property byte BYTE
element BYTE:1
property ulong ULNG
element ULNG:1
property ullg ULLG
element ULLG:0
";

// Of an application there are at most 8 loopers.
fn names(alloc: Global) -> Result<Items<Text>, Fail>
    ensures { IfOk result (λ names. length names ≤ 8) }
{
    let mut names = Vec::new(alloc);
    names.push(text(alloc, b"alpha")?)?;
    names.push(text(alloc, b"beta")?)?;
    Ok(Items::from_vec(names))
}

// One, of that action and `quit`.
fn reactions(alloc: Global, action: Action) -> Result<ReactionList, Fail> {
    let mut actions = ActionList::new(alloc);
    actions.push(action)?;
    actions.push(Action::Quit)?;
    let mut reactions = ReactionList::new(alloc);
    reactions.push(Reaction {
        what: Code(7),
        actions,
    })?;
    Ok(reactions)
}

fn handlers(
    alloc: Global,
    row: DeskRow,
    reactions: ReactionList,
) -> Result<HandlerSet<DeskRow>, Fail> {
    let row = DeskRow { reactions, ..row };
    Ok(HandlerSet::new(alloc, text(alloc, b"alpha")?, row)?)
}

/// The looper `alpha` of an application with another one, `beta`. It holds that row, but its only reaction is that action
/// and `quit`.
pub fn state_with(alloc: Global, row: DeskRow, action: Action) -> Result<DeskState, Fail> {
    let reactions = reactions(alloc, action)?;
    let handlers = handlers(alloc, row, reactions)?;
    Ok(DeskState {
        looper: 3,
        team: 2,
        first: 3,
        names: names(alloc)?,
        quit_refused: false,
        handlers,
        common: FilterList::new(alloc),
    })
}

// ---- a reaction that wants nothing from outside
// What it came to, where it wants nothing more.
#[tactic(auto, using(crate::proofs::Ending::done_has_ended))]
fn ended(interp: Interp, state: &mut DeskState) -> Result<Acted, Fail>
    requires { MayGoOn interp }
{
    let mut interp = interp;
    let Ok(Want::Done) = interp.next(state) else {
        return Err(Fail::new("something is wanted"));
    };
    Ok(interp.finish())
}

fn carried_out(alloc: Global, state: &mut DeskState) -> Result<Acted, Fail> {
    ended(
        Interp::start(alloc, Message::new(alloc, Code(7)), 0, 0)?,
        state,
    )
}

fn error_of(words: &[AnswerWord]) -> Option<KitError> {
    match words.first() {
        Some(AnswerWord::Error(error)) => Some(*error),
        _ => None,
    }
}

fn count_of(reply: &Option<Message>) -> Option<u32> {
    match reply {
        Some(reply) => Some(reply.count_names()),
        None => None,
    }
}

fn number_of(state: &DeskState, name: &[u8]) -> Option<Number> {
    Number::of(state.handlers.by_token(0)?.first_of(name)?)
}

// The word of the action, how many fields its reply has, the first element of a property where that is a number, and
// whether the list went on.
type Left = (Option<KitError>, Option<u32>, Option<Number>, bool);

fn left_by(alloc: Global, row: DeskRow, action: Action, name: &[u8]) -> Result<Left, Fail> {
    let mut state = state_with(alloc, row, action)?;
    let acted = carried_out(alloc, &mut state)?;
    Ok((
        error_of(acted.answers.as_slice()),
        count_of(&acted.reply),
        number_of(&state, name),
        acted.quit,
    ))
}

const GAMMA: (u8, &str) = (b'l', "gamma");

const FIVE: Option<Number> = Some(Number::Int32(5));

const BAD_VALUE: Option<KitError> = Some(KitError::BadValue);

const NO_TEAM: Option<KitError> = Some(KitError::NoTeam);

const fn adding(amount: Number, name: &'static str) -> Told<'static> {
    (b'+', 0, "", amount, (b'-', ""), name)
}

// What an action is called, the action, the property that is looked at then, and what is told.
type Case = (&'static str, Told<'static>, &'static [u8], Left);

// A number is added to one of another kind, or to a text.
fn sums() -> [Case; 5] {
    let byte = Some(Number::Int8(1));
    let ulong = Some(Number::UInt32(1));
    let ullg = Some(Number::UInt64(0));
    [
        (
            "a short to a byte",
            adding(Number::Int16(1), "byte"),
            b"byte",
            (BAD_VALUE, None, byte, true),
        ),
        (
            "a long to an unsigned one",
            adding(Number::Int32(1), "ulong"),
            b"ulong",
            (BAD_VALUE, None, ulong, true),
        ),
        (
            "a long long to a long",
            adding(Number::Int64(1), "count"),
            b"count",
            (BAD_VALUE, None, FIVE, true),
        ),
        (
            "0 to an unsigned 0",
            adding(Number::Int64(0), "ullg"),
            b"ullg",
            (BAD_VALUE, None, ullg, true),
        ),
        (
            "a long to a text",
            adding(Number::Int32(1), "title"),
            b"count",
            (BAD_VALUE, None, FIVE, true),
        ),
    ]
}

// What an action names is not there.
fn absences() -> [Case; 4] {
    [
        (
            "set to the value of a property that is not there",
            (b's', 0, "", NONE, (b'p', "absent"), "count"),
            b"count",
            (Some(KitError::NameNotFound), None, FIVE, true),
        ),
        (
            "a reply with such a value",
            (b'r', 21, "absent", NONE, (b'-', ""), ""),
            b"count",
            (Some(KitError::Ok), Some(0), FIVE, true),
        ),
        (
            "a post to no looper",
            (b'p', 21, "count", NONE, GAMMA, "back"),
            b"count",
            (NO_TEAM, None, FIVE, true),
        ),
        (
            "an ask of no looper",
            (b'a', 21, "count", NONE, GAMMA, "count"),
            b"count",
            (NO_TEAM, None, FIVE, true),
        ),
    ]
}

// The first one that is told otherwise: what it is called, what came, and what was to come.
fn first_other(alloc: Global, cases: &[Case]) -> Result<Option<(&'static str, Left, Left)>, Fail> {
    for (label, action, name, wanted) in cases {
        let left = left_by(
            alloc,
            row_of(alloc, LINES)?,
            action_of(alloc, action)?,
            name,
        )?;
        if left != *wanted {
            return Ok(Some((*label, left, *wanted)));
        }
    }
    Ok(None)
}

// ---- the reply to an ask
#[tactic(auto, using(crate::proofs::Ending::asks_take_replies, crate::proofs::Ending::a_reply_goes_on))]
fn asked(alloc: Global, state: &mut DeskState, reply: &Message) -> Result<Acted, Fail> {
    let mut interp = Interp::start(alloc, Message::new(alloc, Code(7)), 0, 0)?;
    let Ok(Want::Ask { .. }) = interp.next(state) else {
        return Err(Fail::new("nothing is asked"));
    };
    let flat = flatten(alloc, reply)?;
    let message = unflatten(alloc, flat.as_slice())?;
    interp.give(state, Answer::Reply { flat, message });
    ended(interp, state)
}

const ASKS_BETA: Told<'static> = (b'a', 21, "count", NONE, (b'l', "beta"), "absent");

// What `count` is, and whether the list went on, where the result is to become the value of a property that
// is not there.
fn result_into_nothing(alloc: Global) -> Result<(Option<Number>, bool), Fail> {
    let action = action_of(alloc, &ASKS_BETA)?;
    let mut state = state_with(alloc, row_of(alloc, LINES)?, action)?;
    let mut reply = Message::new(alloc, Code(9));
    reply.add(b"result", Value::Int32(30))?;
    let acted = asked(alloc, &mut state, &reply)?;
    Ok((number_of(&state, b"count"), acted.quit))
}

// ---- a property of messages
fn alone(alloc: Global, value: Value) -> Result<ElementsList, Fail> {
    let kind = value.kind();
    let mut list = Vec::new(alloc);
    list.push((text(alloc, b"")?, value))?;
    let mut elements = Vec::new(alloc);
    elements.push(Elements::new(alloc, kind, list)?)?;
    Ok(ElementsList::from_vec(elements))
}

const REPLIES: Told<'static> = (b'r', 21, "count", NONE, (b'-', ""), "");

// How many fields a reply has where the property to be copied is a message so deep.
fn names_copied(alloc: Global, depth: u32) -> Result<Option<u32>, Fail> {
    let elements = alone(alloc, deep(alloc, depth)?)?;
    let row = DeskRow {
        elements,
        ..row_of(alloc, LINES)?
    };
    Ok(left_by(alloc, row, action_of(alloc, &REPLIES)?, b"count")?.1)
}

// How many fields a reply has whose only one is given a message so deep.
fn names_given(alloc: Global, depth: u32) -> Result<Option<u32>, Fail> {
    let values = Values::alone(alloc, deep(alloc, depth)?)?;
    let message = giving(alloc, 21, Given::Values(values))?;
    let row = row_of(alloc, LINES)?;
    Ok(left_by(alloc, row, Action::Reply { message }, b"count")?.1)
}

fn names_left(alloc: Global) -> Result<[Option<u32>; 4], Fail> {
    Ok([
        names_copied(alloc, 15)?,
        names_copied(alloc, 16)?,
        names_given(alloc, 15)?,
        names_given(alloc, 16)?,
    ])
}

#[test]
fn actions_come_to_what_the_rules_say(rt: HostRuntime) -> Result<(), Fail> {
    let alloc = rt.alloc();
    same(
        &rt,
        "a sum is of one kind",
        first_other(alloc, &sums())?,
        None,
    );
    same(
        &rt,
        "what is not there is told or left out",
        first_other(alloc, &absences())?,
        None,
    );
    same(
        &rt,
        "a result for no property changes none",
        result_into_nothing(alloc)?,
        (FIVE, true),
    );
    let left = [Some(1), Some(0), Some(1), Some(0)];
    same(
        &rt,
        "a template leaves out what is too deep",
        names_left(alloc)?,
        left,
    );
    Ok(())
}
