//! Parts of loopers' descriptions, made of plain data or of lines.

use ak_action::{
    Action, ActionList, DeskRow, Dest, Given, LooperPlan, Number, Template, TemplateField,
    TemplateFields,
};
use ak_base::{Code, Text};
use ak_describe::read_description;
use ak_input::split_lines;
use ak_message::{Message, Value};
use std::alloc::Global;
use std::test::Fail;

pub fn text(alloc: Global, bytes: &[u8]) -> Result<Text, Fail> {
    Ok(Text::from_bytes(alloc, bytes)?)
}

/// None for the empty text.
pub fn text_or_none(alloc: Global, bytes: &[u8]) -> Result<Option<Text>, Fail> {
    if bytes.is_empty() {
        Ok(None)
    } else {
        Ok(Some(text(alloc, bytes)?))
    }
}

// ---- what lines describe
/// The first looper of the first application.
pub fn plan_of(alloc: Global, lines: &[u8]) -> Result<LooperPlan, Fail> {
    let lines = split_lines(alloc, lines)?;
    let apps = read_description(alloc, lines.lines.as_slice())?;
    let app = apps.into_iter().next().ok_or("no application")?;
    let plan = app.loopers.into_vec().into_iter().next();
    Ok(plan.ok_or("no looper")?)
}

/// What that looper itself holds.
pub fn row_of(alloc: Global, lines: &[u8]) -> Result<DeskRow, Fail> {
    let rows = plan_of(alloc, lines)?.into_parts().rows.into_vec();
    let row = rows.into_iter().next().ok_or("no handler")?;
    Ok(DeskRow {
        suites: row.suites,
        table: row.table,
        elements: row.elements,
        filters: row.filters,
        reactions: row.reactions,
    })
}

// ---- messages in one another
/// A message in which messages stand so deep, itself counted.
pub fn deep(alloc: Global, depth: u32) -> Result<Value, Fail> {
    let mut message = Message::new(alloc, Code(1));
    for _ in 1..depth {
        let inner = Value::from_message(alloc, message)?;
        message = Message::new(alloc, Code(1));
        message.add(b"in", inner)?;
    }
    Ok(Value::from_message(alloc, message)?)
}

// ---- templates
/// A template whose only field `copy` is given this.
pub fn giving(alloc: Global, what: u32, given: Given) -> Result<Template, Fail> {
    let mut fields = TemplateFields::new(alloc);
    fields.add(TemplateField {
        name: text(alloc, b"copy")?,
        given,
    })?;
    Ok(Template {
        what: Code(what),
        fields,
    })
}

// One whose field copies that property, and one without fields for none.
fn copying(alloc: Global, what: u32, property: &str) -> Result<Template, Fail> {
    if property.is_empty() {
        Ok(Template {
            what: Code(what),
            fields: TemplateFields::new(alloc),
        })
    } else {
        let property = text(alloc, property.as_bytes())?;
        giving(alloc, what, Given::Property(property))
    }
}

// ---- actions
/// An action in plain data: a letter; of its message the code, and the property that is copied; the number that is added;
/// the form and the name of where it goes, or of what is set; and a name.
pub type Told<'a> = (u8, u32, &'a str, Number, (u8, &'a str), &'a str);

fn dest_of(alloc: Global, form: u8, name: &str) -> Result<Dest, Fail> {
    match form {
        b'l' => Ok(Dest::Looper(text(alloc, name.as_bytes())?)),
        _ => Ok(Dest::Handler(text(alloc, name.as_bytes())?)),
    }
}

fn post_of(alloc: Global, told: &Told<'_>) -> Result<Action, Fail> {
    let &(_, what, copied, _, (form, other), back) = told;
    Ok(Action::Post {
        to: dest_of(alloc, form, other)?,
        message: copying(alloc, what, copied)?,
        back: back == "back",
    })
}

fn ask_of(alloc: Global, told: &Told<'_>) -> Result<Action, Fail> {
    let &(_, what, copied, _, (form, other), into) = told;
    Ok(Action::Ask {
        to: dest_of(alloc, form, other)?,
        message: copying(alloc, what, copied)?,
        into: text_or_none(alloc, into.as_bytes())?,
    })
}

fn set_of(alloc: Global, told: &Told<'_>) -> Result<Action, Fail> {
    let &(_, _, _, _, (_, other), property) = told;
    Ok(Action::Set {
        property: text(alloc, property.as_bytes())?,
        value: Given::Property(text(alloc, other.as_bytes())?),
    })
}

/// An action that is told so.
pub fn action_of(alloc: Global, told: &Told<'_>) -> Result<Action, Fail> {
    let &(letter, what, copied, amount, _, name) = told;
    match letter {
        b'r' => Ok(Action::Reply {
            message: copying(alloc, what, copied)?,
        }),
        b'p' => post_of(alloc, told),
        b'a' => ask_of(alloc, told),
        b's' => set_of(alloc, told),
        b'+' => Ok(Action::Add {
            property: text(alloc, name.as_bytes())?,
            amount,
        }),
        _ => Ok(Action::Quit),
    }
}

/// No number is added.
pub const NONE: Number = Number::Int32(0);

/// These actions in order.
pub fn actions_of(alloc: Global, actions: &[Told<'_>]) -> Result<ActionList, Fail> {
    let mut list = ActionList::new(alloc);
    for told in actions {
        list.push(action_of(alloc, told)?)?;
    }
    Ok(list)
}
