//! A flat text to fill slots with.
ghost use Rattle.std.specs.Prelude.{IfOk};
ghost use Rattle.ak_port.specs.Reply.{IsFlatText};

use ak_base::{Bytes, Code, NoMemory};
use ak_flatten::flatten;
use ak_message::Message;
use std::alloc::Global;

/// The flat text of a reply without fields.
pub fn reply_text(alloc: Global) -> Result<Bytes, NoMemory>
    ensures { IfOk result IsFlatText }
{
    match flatten(alloc, &Message::new(alloc, Code::REPLY)) {
        Ok(text) => Ok(text),
        Err(_) => Err(NoMemory),
    }
}

/// The flat text of `NONE` without fields, which stands for no reply.
pub fn none_text(alloc: Global) -> Result<Bytes, NoMemory> {
    match flatten(alloc, &Message::new(alloc, Code::NO_REPLY)) {
        Ok(text) => Ok(text),
        Err(_) => Err(NoMemory),
    }
}
