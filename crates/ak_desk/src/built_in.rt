//! What every handler, every looper and every application's own looper answers by itself.

ghost use Rattle.std.specs.Prelude.{◌≡◌, ◌≤◌, take, length, IfOk};
ghost use Rattle.ak_message.specs.Message.{MessageData};
ghost use Rattle.ak_handler.specs.Limits.{handler_limit};
ghost use Rattle.ak_action.specs.Doing.{row_of};
ghost use Rattle.ak_specifier.specs.Current.{current_of};
ghost use Rattle.ak_property.specs.Limits.{told_suite_limit};
ghost use Rattle.ak_action.specs.Limits.{suite_limit};
ghost use Rattle.ak_desk.specs.BuiltIns.{suites_of, suites_told, messenger_told, name_told, count_told, asked_told, counted_told, property_asked, built_in_reply, built_in_quits};
ghost use Rattle.ak_desk.specs.Place.{is_own};

use crate::replies::{none_reply, value_reply};
use ak_action::{DeskRow, DeskState, SUITE_LIMIT};
use ak_base::{Code, NoMemory, Text};
use ak_handler::LOOPER;
use ak_message::{Address, Message, Target, Value};
use ak_property::suite_message;
use ak_route::{BuiltInName, built_in_of};
use ak_specifier::current;
use std::alloc::Global;

/// An application's own looper is its first one.
pub(crate) fn is_own(state: &DeskState) -> bool
    ensures { result ≡ is_own state.now }
{
    state.looper == state.first
}

/// The reply of the handler with that token to a message that it takes as something built in.
pub(crate) fn built_in_reply(
    alloc: Global,
    state: &DeskState,
    token: u64,
    m: &Message,
) -> Result<Message, NoMemory>
    ensures { IfOk result (λ reply. reply ≡ built_in_reply state.now token m.now) }
{
    match m.what() {
        Code::GET => asked_told(alloc, state, token, built_in_of(property_asked(m))),
        Code::SUITES => suites_told(alloc, state, token),
        Code::COUNT => counted_told(alloc, state, property_asked(m)),
        Code::QUIT_REQUESTED => value_reply(alloc, Value::Bool(!state.quit_refused)),
        _ => Ok(none_reply(alloc)),
    }
}

/// Whether the looper is to end then.
pub(crate) fn built_in_quits(state: &DeskState, m: &Message) -> bool
    ensures { result ≡ built_in_quits state.now m.now }
{
    m.what() == Code::QUIT_REQUESTED && !state.quit_refused
}

// The property that the current specifier names.
fn property_asked(m: &Message) -> &[u8]
    ensures { result.now ≡ property_asked (current_of m.now) }
{
    match current(m) {
        Ok(specifier) => specifier.property.as_bytes(),
        Err(_) => b"",
    }
}

// The suites, the messenger, or else the name.
fn asked_told(
    alloc: Global,
    state: &DeskState,
    token: u64,
    asked: Option<BuiltInName>,
) -> Result<Message, NoMemory>
    ensures { IfOk result (λ reply. reply ≡ asked_told state.now token asked) }
{
    match asked {
        Some(BuiltInName::Suites) => suites_told(alloc, state, token),
        Some(BuiltInName::Messenger) => messenger_told(alloc, state, token),
        Some(BuiltInName::InternalName) => name_told(alloc, state, token),
        // None of another name is taken as something built in.
        None => name_told(alloc, state, token),
    }
}

// The handlers, or else the loopers.
fn counted_told(alloc: Global, state: &DeskState, property: &[u8]) -> Result<Message, NoMemory>
    ensures { IfOk result (λ reply. reply ≡ counted_told state.now property.now) }
{
    if property == b"Handler".as_slice() {
        count_told(alloc, state.handlers.len())
    } else {
        count_told(alloc, state.names.as_slice().len() as u32)
    }
}

fn count_told(alloc: Global, count: u32) -> Result<Message, NoMemory>
    requires { count ≤ handler_limit }
    ensures { IfOk result (λ reply. reply ≡ count_told count) }
{
    value_reply(alloc, Value::Int32(count as i32))
}

fn messenger_told(alloc: Global, state: &DeskState, token: u64) -> Result<Message, NoMemory>
    ensures { IfOk result (λ reply. reply ≡ messenger_told state.now token) }
{
    let to = Address {
        looper: state.looper,
        target: Target::Token(token),
    };
    value_reply(alloc, Value::Messenger(to))
}

fn name_told(alloc: Global, state: &DeskState, token: u64) -> Result<Message, NoMemory>
    ensures { IfOk result (λ reply. reply ≡ name_told state.now token) }
{
    let name = match state.handlers.name_of(token) {
        Some(name) => name.try_clone()?,
        None => text(alloc, b"")?,
    };
    value_reply(alloc, Value::Text(name))
}

// Its own suites, and those of what it is.
fn suites_told(alloc: Global, state: &DeskState, token: u64) -> Result<Message, NoMemory>
    ensures { IfOk result (λ reply. reply ≡ suites_told state.now token) }
{
    let empty = DeskRow::empty(alloc);
    let row = state.handlers.by_token(token).unwrap_or(&empty);
    let suites = suites_of(alloc, state, row, token)?;
    suite_message(alloc, &suites, &row.table)
}

fn suites_of(
    alloc: Global,
    state: &DeskState,
    row: &DeskRow,
    token: u64,
) -> Result<Vec<Text>, NoMemory>
    requires { row_of state.now token ≡ row.now }
    ensures suites { IfOk result (λ suites. suites.items ≡ suites_of state.now token) }
    ensures some { IfOk result (λ suites. 1 ≤ length suites.items) }
    ensures limit { IfOk result (λ suites. length suites.items ≤ told_suite_limit) }
{
    let mut suites = copied(alloc, first_suites(row))?;
    suites.push(text(alloc, b"suite/vnd.Be-handler")?)?;
    if token != LOOPER {
        return Ok(suites);
    }
    suites.push(text(alloc, b"suite/vnd.Be-looper")?)?;
    if !is_own(state) {
        return Ok(suites);
    }
    suites.push(text(alloc, b"suite/vnd.Be-application")?)?;
    Ok(suites)
}

// Of more than 16 the first 16.
fn first_suites(row: &DeskRow) -> &[Text]
    ensures suites { result.now ≡ take suite_limit row.now.suites }
    ensures limit { length result.now ≤ suite_limit }
{
    let suites = row.suites.as_slice();
    if suites.len() > SUITE_LIMIT {
        &suites[..SUITE_LIMIT]
    } else {
        suites
    }
}

fn copied(alloc: Global, texts: &[Text]) -> Result<Vec<Text>, NoMemory>
    ensures { IfOk result (λ copies. copies.items ≡ texts.now) }
{
    let mut copies = Vec::with_capacity(alloc, texts.len())?;
    for text in texts {
        copies.push(text.try_clone()?)?;
    }
    Ok(copies)
}

// The text of bytes that are one: none of those here is refused.
fn text(alloc: Global, bytes: &[u8]) -> Result<Text, NoMemory>
    ensures { IfOk result (λ text. text ≡ bytes.now) }
{
    match Text::from_bytes(alloc, bytes) {
        Ok(text) => Ok(text),
        Err(_) => Err(NoMemory),
    }
}
