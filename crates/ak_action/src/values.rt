ghost use Rattle.std.specs.Prelude.{◌≡◌, is_some, map, Some, Err, IfSome, IfNone, IfOk, IsOkUnless, OnOk, OnErr};
ghost use Rattle.ak_message.specs.Seen.{value_of};
ghost use Rattle.ak_action.specs.Values.{AreValues, one_value, with_last, depth_fault, push_fault};

use ak_base::NoMemory;
use ak_message::{DEPTH_LIMIT, Kind, VALUE_LIMIT, Value};
use std::alloc::{AllocFailed, Global};
use std::error::Error;
use std::fmt;
use std::marker::Model;

/// Why a value is not taken among values of one field. They are tested in this order.
#[derive(Clone, Copy, Debug, PartialEq, Eq)]
pub enum ValuesFault {
    /// It has another kind than the first one.
    BadType,
    /// There are 255 values.
    ValueLimit,
    /// It is a message in which messages stand 16 deep, so no message can hold it.
    TooDeep,
    /// Memory ran out.
    NoMemory,
}

impl fmt::Display for ValuesFault {
    fn fmt<W: fmt::Write>(&self, f: &mut fmt::Formatter<W>) -> fmt::Result {
        match self {
            ValuesFault::BadType => f.write_str("the value has another kind"),
            ValuesFault::ValueLimit => f.write_str("there are 255 values"),
            ValuesFault::TooDeep => f.write_str("messages stand too deep"),
            ValuesFault::NoMemory => f.write_str("no memory"),
        }
    }
}

impl Error for ValuesFault {}

impl From<NoMemory> for ValuesFault {
    ghost use Rattle.std.specs.Prelude.{◌≡◌};
    ghost use Rattle.ak_action.specs.declared.values.ValuesFault.TheVariants as fault;

    ghost from_gives = { λ _ e. e ≡ fault.NoMemory };

    fn from(_error: NoMemory) -> ValuesFault {
        ValuesFault::NoMemory
    }
}

impl<T: Drop> From<AllocFailed<T>> for ValuesFault {
    ghost use Rattle.std.specs.Prelude.{◌≡◌};
    ghost use Rattle.ak_action.specs.declared.values.ValuesFault.TheVariants as fault;

    ghost from_gives = { λ _ e. e ≡ fault.NoMemory };

    fn from(_error: AllocFailed<T>) -> ValuesFault {
        ValuesFault::NoMemory
    }
}

/// What a field of a message is given, or a property is set to: one value or more, at most 255, all of one
/// kind. Where they are messages, each has a depth below 16, so that a message can hold it; the first may be
/// 16 deep where it was taken by `alone`. Contracts see the kind and the list.
#[derive(Drop)]
pub struct Values {
    kind: Kind,
    list: Vec<Value>,
}

impl Model for Values {
    ghost use Rattle.ak_action.specs.Values.{ValuesData, coded_values, values_inside, IsSound};

    ghost Value = { ValuesData };

    ghost coded = { coded_values };

    ghost view = { values_inside };

    ghost invariant = { IsSound };
}

impl Values {
    /// This value alone, which a message can hold. It is refused with `TooDeep`, and else only with
    /// `NoMemory`; then it is dropped.
    pub fn one(alloc: Global, value: Value) -> Result<Values, ValuesFault>
        ensures refused { IfSome (depth_fault (value_of value)) (λ f. result ≡ Err f) }
        ensures only { IfNone (depth_fault (value_of value)) (IsOkUnless result ValuesFault.NoMemory) }
        ensures ok { IfOk result (λ v. v ≡ one_value (value_of value)) }
    {
        if is_too_deep(&value) {
            return Err(ValuesFault::TooDeep);
        }
        Ok(Values::alone(alloc, value)?)
    }

    /// This value alone, whatever it is: what a property is set to. A message that is made of it leaves out
    /// what it cannot hold.
    pub fn alone(alloc: Global, value: Value) -> Result<Values, NoMemory>
        ensures { IfOk result (λ v. v ≡ one_value (value_of value)) }
    {
        let kind = value.kind();
        let mut list = Vec::with_capacity(alloc, 1)?;
        list.push(value)?;
        Ok(Values { kind, list })
    }

    /// Adds a value at the end. The faults are tested in the order of `ValuesFault`. An `Err` changes
    /// nothing, and the value is dropped. `NoMemory` comes last.
    pub fn push(&mut self, value: Value) -> Result<(), ValuesFault>
        ensures refused { IfSome (push_fault self.old (value_of value)) (λ f. result ≡ Err f) }
        ensures only { IfNone (push_fault self.old (value_of value)) (IsOkUnless result ValuesFault.NoMemory) }
        ensures ok { OnOk result (self.new ≡ with_last self.old (value_of value)) }
        ensures err { OnErr result (self.new ≡ self.old) }
    {
        if self.kind != value.kind() {
            return Err(ValuesFault::BadType);
        }
        if self.list.len() >= VALUE_LIMIT {
            return Err(ValuesFault::ValueLimit);
        }
        if is_too_deep(&value) {
            return Err(ValuesFault::TooDeep);
        }
        self.list.push(value)?;
        Ok(())
    }

    /// The kind of each of them. Takes no memory.
    pub fn kind(&self) -> Kind
        ensures value { result ≡ self.now.kind }
        ensures are_values { AreValues self.now }
    {
        self.kind
    }

    /// The values in order, 1 to 255. Takes no memory.
    pub fn as_slice(&self) -> &[Value]
        ensures value { map value_of result.now ≡ self.now.list }
        ensures are_values { AreValues self.now }
    {
        self.list.as_slice()
    }

    /// Equal values. `NoMemory` where memory ran out.
    pub fn try_clone(&self) -> Result<Values, NoMemory>
        ensures { IfOk result (λ v. v ≡ self.now) }
    {
        let list = copied(*self.list.allocator(), &self.list)?;
        Ok(Values {
            kind: self.kind,
            list,
        })
    }
}

// Whether it is a message that no message can hold.
fn is_too_deep(value: &Value) -> bool
    ensures { result ≡ is_some (depth_fault (value_of value.now)) }
{
    value.depth() >= DEPTH_LIMIT
}

fn copied(alloc: Global, values: &[Value]) -> Result<Vec<Value>, NoMemory>
    ensures { IfOk result (λ copies. map value_of copies.items ≡ map value_of values.now) }
{
    let mut copies = Vec::with_capacity(alloc, values.len())?;
    for value in values {
        copies.push(value.try_clone(alloc)?)?;
    }
    Ok(copies)
}
