ghost use Rattle.std.specs.Prelude.{◌≡◌, IfOk, OnOk, filter, option_map};
ghost use Rattle.ak_message.specs.Seen.{value_of};
ghost use Rattle.ak_action.specs.Building.{Fits, HasRoomFor, built, given_values, held, with_held, with_new};
ghost use Rattle.ak_action.specs.Values.{is_shallow};

use crate::row::DeskRow;
use crate::template::{Given, Template, TemplateField};
use crate::values::Values;
use ak_base::NoMemory;
use ak_message::{DEPTH_LIMIT, Message, Value};
use std::alloc::Global;

/// The message that the template makes for the handler that holds the row, of the message that it handles.
pub(crate) fn built(
    alloc: Global,
    row: &DeskRow,
    m: &Message,
    template: &Template,
) -> Result<Message, NoMemory>
    ensures { IfOk result (λ x. x ≡ built row.now m.now template.now) }
{
    let fields = template.fields.as_slice();
    let mut message = Message::with_capacity(alloc, template.what, fields.len())?;
    for field in fields {
        add_field(alloc, &mut message, row, m, field)?;
    }
    Ok(message)
}

// Adds the field with the values that are there.
fn add_field(
    alloc: Global,
    message: &mut Message,
    row: &DeskRow,
    m: &Message,
    field: &TemplateField,
) -> Result<(), NoMemory>
    requires { HasRoomFor message.old.fields field.now.name }
    ensures { OnOk result (message.new ≡ with_new message.old field.now.name (given_values row.now m.now field.now.given)) }
{
    let name = field.name.as_bytes();
    match &field.given {
        Given::Values(values) => add_values(alloc, message, name, values),
        Given::Field(from) => add_held(alloc, message, name, m.first_named(from.as_bytes())),
        Given::Property(property) => add_held(
            alloc,
            message,
            name,
            row.first_of(property.as_bytes()),
        ),
    }
}

// Adds a copy of a value that is there and that a message can hold.
fn add_held(
    alloc: Global,
    message: &mut Message,
    name: &[u8],
    value: Option<&Value>,
) -> Result<(), NoMemory>
    requires { HasRoomFor message.old.fields name.now }
    ensures { OnOk result (message.new ≡ with_new message.old name.now (held (option_map (λ v. value_of v.now) value.entry))) }
{
    match value {
        Some(value) if value.depth() < DEPTH_LIMIT => {
            let copy = value.try_clone(alloc)?;
            message.add_fitting(name, copy)
        }
        _ => Ok(()),
    }
}

/// Adds the field of that name with a copy of each value that a message can hold, in order; none where there is
/// no such value. The message has no field of that name and fewer than 64 fields, and the name is a word.
/// `NoMemory` where memory ran out; then the message has some of them.
pub fn add_values(
    alloc: Global,
    message: &mut Message,
    name: &[u8],
    values: &Values,
) -> Result<(), NoMemory>
    requires { HasRoomFor message.old.fields name.now }
    ensures { OnOk result (message.new ≡ with_new message.old name.now (filter is_shallow values.now.list)) }
{
    let list = values.as_slice();
    for value in list {
        add_value(alloc, message, name, value)?;
    }
    Ok(())
}

// Adds a copy of the value, where a message can hold it.
fn add_value(
    alloc: Global,
    message: &mut Message,
    name: &[u8],
    value: &Value,
) -> Result<(), NoMemory>
    requires { Fits message.old name.now (value_of value.now) }
    ensures { OnOk result (message.new ≡ with_held message.old name.now (value_of value.now)) }
{
    if value.depth() >= DEPTH_LIMIT {
        return Ok(());
    }
    let copy = value.try_clone(alloc)?;
    message.add_fitting(name, copy)
}
