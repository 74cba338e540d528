//! A command on a property, and its reply.

ghost use Rattle.std.specs.Prelude.{◌≡◌, ◌≢◌, ◌++◌, ◌∷◌, [], map, IfOk, IsOk, OnErr, OnOk};
ghost use Rattle.ak_message.specs.Message.{MessageData};
ghost use Rattle.ak_message.specs.Seen.{value_of};
ghost use Rattle.ak_message.specs.Specifier.{at_of};
ghost use Rattle.ak_handler.specs.Changes.{with_content};
ghost use Rattle.ak_action.specs.Properties.{access_at};
ghost use Rattle.ak_value.specs.Seen.{answer_of};
ghost use Rattle.ak_desk.specs.Properties.{access_told, accessed, property_accessed, property_replied, row_in};
ghost use Rattle.ak_desk.specs.Replies.{error_field, error_of_fault, error_reply, values_reply, with_value, with_values, ResultAlone};

use crate::replies::{error_of, error_reply};
use ak_action::{DeskRow, DeskState, ElementsList};
use ak_base::{Code, Items, KitError, NoMemory};
use ak_handler::HandlerSet;
use ak_message::{AddFault, AtRef, Message, Value};
use ak_specifier::{current, left};
use ak_value::ElementFault;
use std::alloc::Global;

/// Carries out the command of the message on the property at that place of the handler's table, and makes
/// its reply. With more than one specifier left it is refused. An `Err` changes nothing.
pub(crate) fn property_replied(
    alloc: Global,
    state: &mut DeskState,
    token: u64,
    place: usize,
    m: &Message,
) -> Result<Message, NoMemory>
    ensures ok { IfOk result (λ reply. property_replied state.old token place m.now ≡ record { state = state.new; reply = reply }) }
    ensures err { OnErr result (state.new ≡ state.old) }
{
    property_accessed(alloc, &mut state.handlers, token, place, m)
}

// The same of the handlers alone.
fn property_accessed(
    alloc: Global,
    handlers: &mut HandlerSet<DeskRow>,
    token: u64,
    place: usize,
    m: &Message,
) -> Result<Message, NoMemory>
    ensures ok { IfOk result (λ reply. property_accessed handlers.old token place m.now ≡ record { handlers = handlers.new; reply = reply }) }
    ensures err { OnErr result (handlers.new ≡ handlers.old) }
{
    let Ok(specifier) = current(m) else {
        return error_reply(alloc, KitError::BadScriptSyntax);
    };
    if left(m) != 1 {
        return error_reply(alloc, KitError::BadScriptSyntax);
    }
    accessed(alloc, handlers, token, place, specifier.at, m)
}

// The command on the elements, which change once there is memory for all of it.
fn accessed(
    alloc: Global,
    handlers: &mut HandlerSet<DeskRow>,
    token: u64,
    place: usize,
    at: AtRef<'_>,
    m: &Message,
) -> Result<Message, NoMemory>
    ensures ok { IfOk result (λ reply. accessed handlers.old token (access_at (row_in handlers.old token).elements place m.now.what (at_of at.entry) m.now)
        ≡ record { handlers = handlers.new; reply = reply }) }
    ensures err { OnErr result (handlers.new ≡ handlers.old) }
{
    let elements = elements_of(alloc, handlers, token)?;
    let (reply, elements) = access(alloc, elements, place, at, m)?;
    let Some(elements) = elements else {
        return Ok(reply);
    };
    put(handlers, token, elements);
    Ok(reply)
}

// A copy of the elements of the handler with that token.
fn elements_of(
    alloc: Global,
    handlers: &HandlerSet<DeskRow>,
    token: u64,
) -> Result<ElementsList, NoMemory>
    ensures { IfOk result (λ list. list ≡ (row_in handlers.now token).elements) }
{
    match handlers.by_token(token) {
        Some(row) => row.elements.try_clone(),
        None => Ok(DeskRow::empty(alloc).elements),
    }
}

// The reply, and the elements as they are then, unless the command is refused.
fn access(
    alloc: Global,
    mut elements: ElementsList,
    place: usize,
    at: AtRef<'_>,
    m: &Message,
) -> Result<(Message, Option<ElementsList>), NoMemory>
    ensures { IfOk result (λ told. access_told (access_at elements place m.now.what (at_of at.entry) m.now) ≡ told) }
{
    match elements.access_at(place, m.what(), at, m) {
        Ok(values) => Ok((values_reply(alloc, values)?, Some(elements))),
        Err(fault) => Ok((refusal(alloc, fault)?, None)),
    }
}

// The reply that tells the refusal.
fn refusal(alloc: Global, fault: ElementFault) -> Result<Message, NoMemory>
    ensures reply { IfOk result (λ m. m ≡ error_reply (error_of_fault fault)) }
    ensures memory { IsOk result → fault ≢ ElementFault.NoMemory }
{
    match fault {
        ElementFault::NoMemory => Err(NoMemory),
        fault => error_reply(alloc, error_of(fault)),
    }
}

// The handler with that token, if it is there, holds these elements.
fn put(handlers: &mut HandlerSet<DeskRow>, token: u64, elements: ElementsList)
    ensures { handlers.new ≡ with_content handlers.old token (record (row_in handlers.old token) { elements = elements }) }
{
    if let Some(row) = handlers.by_token_mut(token) {
        row.elements = elements;
    }
}

// The values, and that all is well.
fn values_reply(alloc: Global, values: Option<Items<Value>>) -> Result<Message, NoMemory>
    ensures { IfOk result (λ m. m ≡ values_reply (answer_of values)) }
{
    let mut reply = Message::with_capacity(alloc, Code::REPLY, 2)?;
    if let Some(values) = values {
        add_values(&mut reply, values.into_vec())?;
    }
    add_ok(&mut reply)?;
    Ok(reply)
}

// Adds those that a message can hold.
fn add_values(reply: &mut Message, values: Vec<Value>) -> Result<(), NoMemory>
    requires { ResultAlone reply.old.fields }
    ensures values { OnOk result (reply.new ≡ record reply.old { fields = with_values reply.old.fields (map value_of values.items) }) }
    ensures alone { OnOk result (ResultAlone reply.new.fields) }
{
    for value in values {
        add_value(reply, value)?;
    }
    Ok(())
}

// Adds it where a message can hold it.
fn add_value(reply: &mut Message, value: Value) -> Result<(), NoMemory>
    requires { ResultAlone reply.old.fields }
    ensures value { OnOk result (reply.new ≡ record reply.old { fields = with_value reply.old.fields (value_of value) }) }
    ensures alone { OnOk result (ResultAlone reply.new.fields) }
{
    match reply.add(b"result", value) {
        Err(AddFault::NoMemory) => Err(NoMemory),
        _ => Ok(()),
    }
}

// Adds that all is well.
fn add_ok(reply: &mut Message) -> Result<(), NoMemory>
    requires { ResultAlone reply.old.fields }
    ensures { OnOk result (reply.new ≡ record reply.old { fields = reply.old.fields ++ error_field KitError.Ok ∷ [] }) }
{
    reply.add_fitting(b"error", Value::Int32(KitError::Ok.number()))
}
