ghost use Rattle.std.specs.Prelude.{◌≡◌, IfOk, map};
ghost use Rattle.ak_message.specs.Seen.{value_of, field_of, fields_of};

use super::{Field, Message, Value};
use ak_base::{Bytes, NoMemory};
use std::alloc::Global;

impl Message {
    /// An equal message, its popped specifiers too. `NoMemory` where memory ran out.
    #[cycle(copies)]
    pub fn try_clone(&self) -> Result<Message, NoMemory>
        ensures { IfOk result (λ m. m ≡ self.now) }
    {
        let fields = copied_fields(*self.fields.allocator(), &self.fields)?;
        Ok(Message {
            what: self.what,
            fields,
            popped: self.popped,
            depth: self.depth,
        })
    }
}

#[cycle(copies)]
fn copied_fields(alloc: Global, fields: &[Field]) -> Result<Vec<Field>, NoMemory>
    ensures { IfOk result (λ copies. fields_of copies.items ≡ fields_of fields.now) }
{
    let mut copies = Vec::new(alloc);
    for field in fields {
        copies.push(field.try_clone(alloc)?)?;
    }
    Ok(copies)
}

impl Field {
    #[cycle(copies)]
    fn try_clone(&self, alloc: Global) -> Result<Field, NoMemory>
        ensures { IfOk result (λ f. field_of f ≡ field_of self.now) }
    {
        let values = copied_values(alloc, &self.values)?;
        let mut name = Bytes::new(alloc);
        name.extend(self.name.as_slice())?;
        Ok(Field {
            name,
            kind: self.kind,
            values,
        })
    }
}

#[cycle(copies)]
fn copied_values(alloc: Global, values: &[Value]) -> Result<Vec<Value>, NoMemory>
    ensures { IfOk result (λ copies. map value_of copies.items ≡ map value_of values.now) }
{
    let mut copies = Vec::new(alloc);
    for value in values {
        copies.push(value.try_clone(alloc)?)?;
    }
    Ok(copies)
}

impl Value {
    /// An equal value. `NoMemory` where memory ran out.
    #[cycle(copies)]
    pub fn try_clone(&self, alloc: Global) -> Result<Value, NoMemory>
        ensures { IfOk result (λ v. value_of v ≡ value_of self.now) }
    {
        match self {
            Value::Bool(x) => Ok(Value::Bool(*x)),
            Value::Int8(x) => Ok(Value::Int8(*x)),
            Value::Int16(x) => Ok(Value::Int16(*x)),
            Value::Int32(x) => Ok(Value::Int32(*x)),
            Value::Int64(x) => Ok(Value::Int64(*x)),
            Value::UInt8(x) => Ok(Value::UInt8(*x)),
            Value::UInt16(x) => Ok(Value::UInt16(*x)),
            Value::UInt32(x) => Ok(Value::UInt32(*x)),
            Value::UInt64(x) => Ok(Value::UInt64(*x)),
            Value::Text(x) => Ok(Value::Text(x.try_clone()?)),
            Value::Message(x) => Ok(Value::Message(Box::new(alloc, x.try_clone()?)?)),
            Value::Messenger(x) => Ok(Value::Messenger(*x)),
            Value::Raw(x) => Ok(Value::Raw(x.try_clone()?)),
        }
    }
}
