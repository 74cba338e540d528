//! What a looper does that counts.

ghost use Rattle.std.specs.Prelude.{◌≡◌, ◌<◌, ◌++◌, ◌∷◌, [], length, IfOk, OnOk};
ghost use Rattle.ak_action.specs.Limits.{action_limit};
ghost use Rattle.ak_script.specs.Generated as gen;

use crate::generating::messages::INCR;
use ak_action::{
    Action, ActionFault, ActionList, Given, Number, Reaction, Template, TemplateFault,
    TemplateField, TemplateFields, Values,
};
use ak_base::{Code, NoMemory, Text};
use ak_message::Value;
use std::alloc::Global;

/// `on 'incr'`: it adds 1 to its property, and replies.
pub(crate) fn counts_up(alloc: Global) -> Result<Reaction, NoMemory>
    ensures { IfOk result (λ reaction. reaction ≡ gen.counts_up) }
{
    let property = Text::from_word(alloc, b"Count")?;
    let amount = Number::Int32(1);
    let message = no_error(alloc)?;
    let mut actions = ActionList::new(alloc);
    push(&mut actions, Action::Add { property, amount })?;
    push(&mut actions, Action::Reply { message })?;
    Ok(Reaction {
        what: INCR,
        actions,
    })
}

// One action more, of which there are fewer than 16.
fn push(actions: &mut ActionList, action: Action) -> Result<(), NoMemory>
    requires { length actions.old < action_limit }
    ensures { OnOk result (actions.new ≡ actions.old ++ action ∷ []) }
{
    match actions.push(action) {
        Ok(()) => Ok(()),
        Err(fault) => {
            prove!(matches!(fault, ActionFault::NoMemory));
            Err(NoMemory)
        }
    }
}

// `'RPLY' error=LONG:0`
fn no_error(alloc: Global) -> Result<Template, NoMemory>
    ensures { IfOk result (λ message. message ≡ gen.no_error) }
{
    let error = TemplateField {
        name: Text::from_word(alloc, b"error")?,
        given: Given::Values(Values::alone(alloc, Value::Int32(0))?),
    };
    let mut fields = TemplateFields::new(alloc);
    match fields.add(error) {
        Ok(()) => Ok(Template {
            what: Code::REPLY,
            fields,
        }),
        Err(fault) => {
            prove!(matches!(fault, TemplateFault::NoMemory));
            Err(NoMemory)
        }
    }
}
