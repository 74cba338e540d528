//! The replies that a looper makes.

ghost use Rattle.std.specs.Prelude.{◌≡◌, None, IfOk};
ghost use Rattle.ak_message.specs.Fields.{depth_fault};
ghost use Rattle.ak_message.specs.Seen.{value_of};
ghost use Rattle.ak_desk.specs.Replies.{none_reply, not_understood, error_reply, value_reply, error_of_fault};

use ak_base::{Code, KitError, NoMemory};
use ak_message::{Message, Value};
use ak_value::ElementFault;
use std::alloc::Global;

/// Nothing was replied. Takes no memory.
pub(crate) fn none_reply(alloc: Global) -> Message
    ensures { result ≡ none_reply }
{
    Message::new(alloc, Code::NO_REPLY)
}

/// The message was not understood. Takes no memory.
pub(crate) fn not_understood(alloc: Global) -> Message
    ensures { result ≡ not_understood }
{
    Message::new(alloc, Code::NOT_UNDERSTOOD)
}

/// The error alone.
pub(crate) fn error_reply(alloc: Global, error: KitError) -> Result<Message, NoMemory>
    ensures { IfOk result (λ m. m ≡ error_reply error) }
{
    let mut reply = Message::with_capacity(alloc, Code::REPLY, 1)?;
    reply.add_fitting(b"error", Value::Int32(error.number()))?;
    Ok(reply)
}

/// The value, and that all is well.
pub(crate) fn value_reply(alloc: Global, value: Value) -> Result<Message, NoMemory>
    requires { depth_fault (value_of value) ≡ None }
    ensures { IfOk result (λ m. m ≡ value_reply (value_of value)) }
{
    let mut reply = Message::with_capacity(alloc, Code::REPLY, 2)?;
    reply.add_fitting(b"result", value)?;
    reply.add_fitting(b"error", Value::Int32(KitError::Ok.number()))?;
    Ok(reply)
}

pub(crate) fn error_of(fault: ElementFault) -> KitError
    ensures { result ≡ error_of_fault fault }
{
    match fault {
        ElementFault::BadScript => KitError::BadScriptSyntax,
        ElementFault::BadValue => KitError::BadValue,
        ElementFault::BadType => KitError::BadType,
        ElementFault::NameNotFound => KitError::NameNotFound,
        ElementFault::BadIndex => KitError::BadIndex,
        ElementFault::ElementLimit => KitError::Limit,
        ElementFault::NoMemory => KitError::NoMemory,
    }
}
