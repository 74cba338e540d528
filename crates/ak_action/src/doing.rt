ghost use Rattle.std.specs.Prelude.{◌≡◌, IfOk, is_some, option_map, OnErr};
ghost use Rattle.ak_message.specs.Seen.{value_of};
ghost use Rattle.ak_action.specs.Building.{first_given};
ghost use Rattle.ak_action.specs.Doing.{doing_of, reply_of, row_of, sent_to, back_to, into_place, put_at, set_to, add_to, preferred_of};
ghost use Rattle.ak_action.specs.Interp.{TakesMemory};
ghost use Rattle.ak_action.specs.Row.{first_of};
ghost use Rattle.ak_action.specs.DoingSeen.{doing_seen};

use crate::action::{Action, Dest};
use crate::building::built;
use crate::number::Number;
use crate::row::DeskRow;
use crate::state::DeskState;
use crate::template::{Given, Template};
use ak_base::{AppWord, KitError, NoMemory, Text};
use ak_message::{Address, Message, Target, Value};
use ak_value::ElementFault;
use std::alloc::Global;

/// How a message is sent.
#[derive(Clone, Copy, Debug, PartialEq, Eq)]
pub enum Sending {
    /// Without waiting, with an address for an answer or none.
    Post { back: Option<Address> },
    /// Waiting for its reply, whose result the property at that place gets, if one does. Places count from 0.
    Ask { into: Option<usize> },
}

// What an action does, before it is done.
#[derive(Drop)]
pub(crate) enum Doing {
    // Its answer is known at once.
    Says(KitError),
    // The message is the reply.
    Replies(Message),
    // The first element of the property at that place gets the value.
    Puts {
        place: usize,
        value: Value,
    },
    Sends {
        to: Address,
        how: Sending,
        message: Message,
    },
    // A running application is looked for, and the message sent to it.
    Finds {
        word: AppWord,
        how: Sending,
        message: Message,
    },
    Stops,
    Quits,
}

// What the action of the handler with that token, which holds the row, does on the message. `replied` says
// whether there is a reply already.
pub(crate) fn prepared(
    alloc: Global,
    state: &DeskState,
    row: &DeskRow,
    token: u64,
    m: &Message,
    replied: bool,
    action: &Action,
) -> Result<Doing, NoMemory>
    requires { row_of state.now token ≡ row.now }
    ensures ok { IfOk result (λ d. doing_seen d ≡ doing_of state.now token m.now replied action.now) }
    ensures memory { OnErr result (TakesMemory action.now) }
{
    match action {
        Action::Reply { message } => reply(alloc, row, m, replied, message),
        Action::Post { to, message, back } => {
            let how = Sending::Post {
                back: back_to(state, token, *back),
            };
            sent_to(state, to, how, built(alloc, row, m, message)?)
        }
        Action::Ask { to, message, into } => {
            let how = Sending::Ask {
                into: into_place(row, into),
            };
            sent_to(state, to, how, built(alloc, row, m, message)?)
        }
        Action::Set { property, value } => set_to(alloc, row, property, first_given(row, m, value)),
        Action::Add { property, amount } => Ok(add_to(row, property, *amount)),
        Action::Stop => Ok(Doing::Stops),
        Action::Quit => Ok(Doing::Quits),
    }
}

// The first reply is the one that is kept.
fn reply(
    alloc: Global,
    row: &DeskRow,
    m: &Message,
    replied: bool,
    template: &Template,
) -> Result<Doing, NoMemory>
    ensures { IfOk result (λ d. doing_seen d ≡ reply_of row.now m.now template.now replied) }
{
    if replied {
        return Ok(Doing::Says(KitError::DuplicateReply));
    }
    Ok(Doing::Replies(built(alloc, row, m, template)?))
}

/// The preferred target of a looper.
pub(crate) fn preferred_of(looper: u32) -> Address
    ensures { result ≡ preferred_of looper }
{
    Address {
        looper,
        target: Target::Preferred,
    }
}

// Where an answer to a post goes, where one is asked for.
fn back_to(state: &DeskState, token: u64, back: bool) -> Option<Address>
    ensures { result ≡ back_to state.now token back }
{
    if back {
        Some(Address {
            looper: state.looper,
            target: Target::Token(token),
        })
    } else {
        None
    }
}

// The property that gets the result of an ask.
fn into_place(row: &DeskRow, into: &Option<Text>) -> Option<usize>
    ensures { result ≡ into_place row.now into.now }
{
    match into {
        Some(name) => row.place_of(name.as_bytes()),
        None => None,
    }
}

// The message sent to where the destination is now.
fn sent_to(state: &DeskState, to: &Dest, how: Sending, message: Message) -> Result<Doing, NoMemory>
    ensures { IfOk result (λ d. doing_seen d ≡ sent_to state.now to.now how message) }
{
    match to {
        Dest::Own => Ok(sends(preferred_of(state.looper), how, message)),
        Dest::Looper(name) => match state.looper_named(name.as_bytes()) {
            Some(looper) => Ok(sends(preferred_of(looper), how, message)),
            None => Ok(Doing::Says(KitError::NoTeam)),
        },
        Dest::Handler(name) => match state.handlers.by_name(name) {
            Some(token) => {
                let to = Address {
                    looper: state.looper,
                    target: Target::Token(token),
                };
                Ok(sends(to, how, message))
            }
            None => Ok(Doing::Says(KitError::BadHandler)),
        },
        Dest::App(word) => Ok(Doing::Finds {
            word: word.try_clone()?,
            how,
            message,
        }),
    }
}

fn sends(to: Address, how: Sending, message: Message) -> Doing
    ensures { result ≡ Doing.Sends to how message }
{
    Doing::Sends { to, how, message }
}

// The value that is given, or the first of them, if there is one.
fn first_given<'a>(row: &'a DeskRow, m: &'a Message, value: &'a Given) -> Option<&'a Value>
    ensures { option_map (λ v. value_of v.now) result ≡ first_given row.now m.now value.now }
{
    match value {
        Given::Values(values) => values.as_slice().first(),
        Given::Field(name) => m.first_named(name.as_bytes()),
        Given::Property(name) => row.first_of(name.as_bytes()),
    }
}

// The first element of the property gets a copy of the value, where that is there and nothing speaks against it.
fn set_to(
    alloc: Global,
    row: &DeskRow,
    property: &Text,
    value: Option<&Value>,
) -> Result<Doing, NoMemory>
    ensures { IfOk result (λ d. doing_seen d ≡ set_to row.now property.now (option_map (λ v. value_of v.now) value.entry)) }
{
    match value {
        Some(value) => Ok(put_at(
            row,
            row.place_of(property.as_bytes()),
            value.try_clone(alloc)?,
        )),
        None => Ok(Doing::Says(KitError::NameNotFound)),
    }
}

// The first element of the property gets the sum of it and the number, where its kind has it.
fn add_to(row: &DeskRow, property: &Text, amount: Number) -> Doing
    ensures { doing_seen result ≡ add_to row.now property.now (first_of row.now property.now) amount }
{
    let Some(value) = row.first_of(property.as_bytes()) else {
        return Doing::Says(KitError::BadIndex);
    };
    let sum = match Number::of(value) {
        Some(number) => number.plus(amount),
        None => None,
    };
    match sum {
        Some(sum) => put_at(row, row.place_of(property.as_bytes()), sum.value()),
        None => Doing::Says(KitError::BadValue),
    }
}

// The first element of the property at that place gets the value, where nothing speaks against it.
fn put_at(row: &DeskRow, place: Option<usize>, value: Value) -> Doing
    ensures { doing_seen result ≡ put_at row.now place (value_of value) }
{
    let Some(place) = place else {
        return Doing::Says(KitError::BadIndex);
    };
    match row.elements.set_fault_at(place, &value) {
        None => Doing::Puts { place, value },
        Some(ElementFault::BadType) => Doing::Says(KitError::BadType),
        Some(_) => Doing::Says(KitError::BadIndex),
    }
}
