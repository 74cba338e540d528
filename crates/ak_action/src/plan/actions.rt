ghost use Rattle.std.specs.Prelude.{◌≡◌};
ghost use Rattle.ak_action.specs.Plan.{fits_actions, fits_action, fits_reaction, fits_template, fits_given, is_asked, may_be_property, is_property, is_property_of, is_one};

use super::PlanRow;
use super::rows::is_named;
use crate::action::{Action, Dest, Reaction};
use crate::template::{Given, Template};
use ak_base::Text;
use ak_message::Kind;

// The actions name properties that the handler has, and do what can be done.
pub(super) fn fits_actions(row: &PlanRow) -> bool
    ensures { result ≡ fits_actions row.now }
{
    row.reactions
        .as_slice()
        .iter()
        .all(|reaction| fits_reaction(row, reaction))
}

fn fits_reaction(row: &PlanRow, reaction: &Reaction) -> bool
    ensures { result ≡ fits_reaction row.now reaction.now }
{
    reaction
        .actions
        .as_slice()
        .iter()
        .all(|action| fits_action(row, action))
}

fn fits_action(row: &PlanRow, action: &Action) -> bool
    ensures { result ≡ fits_action row.now action.now }
{
    match action {
        Action::Reply { message } => fits_template(row, message),
        Action::Post { message, .. } => fits_template(row, message),
        Action::Ask { to, message, into } => {
            is_asked(to) && may_be_property(row, into) && fits_template(row, message)
        }
        Action::Set { property, value } => {
            is_property(row, property) && is_one(value) && fits_given(row, value)
        }
        Action::Add { property, amount } => is_property_of(row, property, amount.kind()),
        Action::Stop | Action::Quit => true,
    }
}

fn fits_template(row: &PlanRow, template: &Template) -> bool
    ensures { result ≡ fits_template row.now template.now }
{
    template
        .fields
        .as_slice()
        .iter()
        .all(|field| fits_given(row, &field.given))
}

fn fits_given(row: &PlanRow, given: &Given) -> bool
    ensures { result ≡ fits_given row.now given.now }
{
    match given {
        Given::Property(name) => is_property(row, name),
        Given::Values(_) | Given::Field(_) => true,
    }
}

// A looper or an application.
fn is_asked(to: &Dest) -> bool
    ensures { result ≡ is_asked to.now }
{
    matches!(to, Dest::Looper(_) | Dest::App(_))
}

fn is_one(given: &Given) -> bool
    ensures { result ≡ is_one given.now }
{
    match given {
        Given::Values(values) => values.as_slice().len() == 1,
        Given::Field(_) | Given::Property(_) => true,
    }
}

fn may_be_property(row: &PlanRow, name: &Option<Text>) -> bool
    ensures { result ≡ may_be_property row.now name.now }
{
    match name {
        Some(name) => is_property(row, name),
        None => true,
    }
}

fn is_property(row: &PlanRow, name: &Text) -> bool
    ensures { result ≡ is_property row.now name.now }
{
    is_named(row.table.as_slice(), name.as_bytes())
}

fn is_property_of(row: &PlanRow, name: &Text, kind: Kind) -> bool
    ensures { result ≡ is_property_of row.now name.now kind }
{
    row.table.as_slice().iter().any(|property| property.name.as_bytes() == name.as_bytes()
        && property.kind == kind)
}
