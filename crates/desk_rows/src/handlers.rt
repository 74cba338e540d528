//! The handlers of a desk, told.

use crate::telling::{number, put_number, word};
use crate::values::put_value;
use ak_action::{DeskRow, DeskState};
use ak_base::{Bytes, Code, NoMemory};
use ak_message::{AtRef, Message, Value};
use ak_value::Elements;
use std::alloc::Global;

type Told = Result<(), NoMemory>;

/// Tells each handler in a line, and then which one is preferred.
pub(crate) fn tell_handlers(alloc: Global, out: &mut Bytes, state: &DeskState) -> Told {
    for place in 0..state.handlers.len() {
        if let Some(token) = state.handlers.at(place) {
            tell_handler(alloc, out, state, token)?;
        }
    }
    out.extend(b"preferred")?;
    tell_token(out, state.handlers.preferred())?;
    out.push(b'\n')
}

fn tell_token(out: &mut Bytes, token: Option<u64>) -> Told {
    match token {
        Some(token) => number(out, token),
        None => word(out, b"none"),
    }
}

fn tell_handler(alloc: Global, out: &mut Bytes, state: &DeskState, token: u64) -> Told {
    put_number(out, token)?;
    if let Some(name) = state.handlers.name_of(token) {
        word(out, name.as_bytes())?;
    }
    word(out, b"next")?;
    tell_token(out, state.handlers.next_of(token))?;
    if let Some(row) = state.handlers.by_token(token) {
        tell_properties(alloc, out, row)?;
    }
    out.push(b'\n')
}

fn tell_properties(alloc: Global, out: &mut Bytes, row: &DeskRow) -> Told {
    let elements = row.elements.as_slice();
    for (property, elements) in row.table.as_slice().iter().zip(elements) {
        word(out, property.name.as_bytes())?;
        out.push(b'=')?;
        tell_elements(alloc, out, elements)?;
    }
    Ok(())
}

fn tell_elements(alloc: Global, out: &mut Bytes, elements: &Elements) -> Told {
    let all = AtRef::Range {
        index: 0,
        count: elements.len() as i32,
    };
    match elements
        .try_clone()?
        .access(Code::GET, all, &Message::new(alloc, Code::GET))
    {
        Ok(Some(values)) => tell_values(out, values.as_slice()),
        _ => out.extend(b"none"),
    }
}

fn tell_values(out: &mut Bytes, values: &[Value]) -> Told {
    for (place, value) in values.iter().enumerate() {
        if place > 0 {
            out.push(b',')?;
        }
        put_value(out, value)?;
    }
    Ok(())
}
