ghost use Rattle.std.specs.Prelude.{◌≡◌, if◌then◌else◌, nat_lt, None, Err, Some, OnOk, OnErr, IfOk, IfSome, IfNone, IsOkUnless};
ghost use Rattle.ak_specifier.specs.Specifier.{specifier_message};
ghost use Rattle.ak_specifier.specs.Current.{current_of, specifier_fault, with_specifier};

use ak_base::{Code, NoMemory};
use ak_message::{
    AddFault, At, FIELD_LIMIT, FindFault, Kind, Message, Specifier, VALUE_LIMIT, Value,
};
use std::alloc::Global;

/// Adds a specifier, which becomes the current one: none is popped any more. `BadType` where the field
/// `specifiers` is not of messages. Then `FieldLimit` where it has 255 values, or where it is new and there
/// are 64 fields. No other fault comes but `NoMemory`. An `Err` changes nothing, and the specifier is
/// dropped. (The Be Book, The Application Kit, BMessage: AddSpecifier().)
#[tactic(auto, using(crate::proofs::Last::added_is_current))]
pub fn add_specifier(
    alloc: Global,
    message: &mut Message,
    specifier: Specifier,
) -> Result<(), AddFault>
    ensures refused { IfSome (specifier_fault message.old) (λ f. result ≡ Err f) }
    ensures only { IfNone (specifier_fault message.old) (IsOkUnless result AddFault.NoMemory) }
    ensures ok { OnOk result (message.new ≡ with_specifier message.old specifier) }
    ensures current { OnOk result (current_of message.new ≡ Some specifier) }
    ensures err { OnErr result (message.new ≡ message.old) }
{
    if let Some(fault) = specifier_fault(message) {
        return Err(fault);
    }
    let shown = specifier_message(alloc, specifier)?;
    message.add_fitting(b"specifiers", Value::from_message(alloc, shown)?)?;
    message.set_popped(0);
    Ok(())
}

// Why no specifier has room in the message.
fn specifier_fault(m: &Message) -> Option<AddFault>
    ensures { result ≡ specifier_fault m.now }
{
    match m.find(b"specifiers", Kind::Message, 0) {
        Ok(_) => full_fault(m.specifiers() as usize, VALUE_LIMIT),
        Err(FindFault::NameNotFound) => full_fault(m.count_names() as usize, FIELD_LIMIT),
        Err(FindFault::BadType) => Some(AddFault::BadType),
        // A field without values, which no message has, has room.
        Err(FindFault::BadIndex) => None,
    }
}

fn full_fault(count: usize, limit: usize) -> Option<AddFault>
    ensures { result ≡ (if nat_lt count limit then None else Some AddFault.FieldLimit) }
{
    if count < limit {
        None
    } else {
        Some(AddFault::FieldLimit)
    }
}

fn specifier_message(alloc: Global, s: Specifier) -> Result<Message, NoMemory>
    ensures { IfOk result (λ m. m ≡ specifier_message s) }
{
    let mut message = Message::with_capacity(alloc, Code(s.at.form()), 3)?;
    message.add_fitting(b"property", Value::Text(s.property))?;
    match s.at {
        At::Direct => {}
        At::Index(index) | At::Reverse(index) => {
            message.add_fitting(b"index", Value::Int32(index))?;
        }
        At::Range { index, count } | At::ReverseRange { index, count } => {
            message.add_fitting(b"index", Value::Int32(index))?;
            message.add_fitting(b"range", Value::Int32(count))?;
        }
        At::Name(name) => message.add_fitting(b"name", Value::Text(name))?,
        At::Id(id) => message.add_fitting(b"id", Value::Int32(id))?,
    }
    Ok(message)
}
