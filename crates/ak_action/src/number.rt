ghost use Rattle.std.specs.Prelude.{◌≡◌, ◌≤ℤ◌, ◌+ℤ◌, negsuc, pos};
ghost use Rattle.ak_message.specs.Message.{kind_of};
ghost use Rattle.ak_message.specs.Seen.{value_of};
ghost use Rattle.ak_action.specs.Number.{number_value, number_of, int_of, number_in, sum_of};

use ak_message::{Kind, Value};

/// A whole number of one of the eight kinds. The variants are named as those of `Kind`.
#[derive(Clone, Copy, Debug, PartialEq, Eq)]
pub enum Number {
    Int8(i8),
    Int16(i16),
    Int32(i32),
    Int64(i64),
    UInt8(u8),
    UInt16(u16),
    UInt32(u32),
    UInt64(u64),
}

impl Number {
    /// The number that a value is. `None` where it is no whole number. Takes no memory.
    pub fn of(value: &Value) -> Option<Number>
        ensures { result ≡ number_of (value_of value.now) }
    {
        match value {
            Value::Int8(n) => Some(Number::Int8(*n)),
            Value::Int16(n) => Some(Number::Int16(*n)),
            Value::Int32(n) => Some(Number::Int32(*n)),
            Value::Int64(n) => Some(Number::Int64(*n)),
            Value::UInt8(n) => Some(Number::UInt8(*n)),
            Value::UInt16(n) => Some(Number::UInt16(*n)),
            Value::UInt32(n) => Some(Number::UInt32(*n)),
            Value::UInt64(n) => Some(Number::UInt64(*n)),
            _ => None,
        }
    }

    /// The number as a value. Takes no memory.
    pub fn value(self) -> Value
        ensures { value_of result ≡ number_value self }
    {
        match self {
            Number::Int8(n) => Value::Int8(n),
            Number::Int16(n) => Value::Int16(n),
            Number::Int32(n) => Value::Int32(n),
            Number::Int64(n) => Value::Int64(n),
            Number::UInt8(n) => Value::UInt8(n),
            Number::UInt16(n) => Value::UInt16(n),
            Number::UInt32(n) => Value::UInt32(n),
            Number::UInt64(n) => Value::UInt64(n),
        }
    }

    /// Its kind. Takes no memory.
    pub fn kind(self) -> Kind
        ensures { result ≡ kind_of (number_value self) }
    {
        self.value().kind()
    }

    /// The sum of it and another number of its kind. `None` where the kinds differ, and where the sum is not
    /// in the kind's range. Takes no memory.
    pub fn plus(self, other: Number) -> Option<Number>
        ensures { result ≡ sum_of self other }
    {
        if self.kind() != other.kind() {
            return None;
        }
        Number::in_kind(self.kind(), self.int_sum(other))
    }

    // Their sum, whatever the range of their kinds.
    fn int_sum(self, other: Number) -> i128
        ensures { result ≡ int_of self +ℤ int_of other }
    {
        self.int() + other.int()
    }

    fn int(self) -> i128
        ensures value { result ≡ int_of self }
        ensures least { negsuc 9223372036854775807 ≤ℤ result }
        ensures greatest { result ≤ℤ pos 18446744073709551615 }
    {
        match self {
            Number::Int8(n) => i128::from(n),
            Number::Int16(n) => i128::from(n),
            Number::Int32(n) => i128::from(n),
            Number::Int64(n) => i128::from(n),
            Number::UInt8(n) => i128::from(n),
            Number::UInt16(n) => i128::from(n),
            Number::UInt32(n) => i128::from(n),
            Number::UInt64(n) => i128::from(n),
        }
    }

    // The number of that kind, where it is in the kind's range.
    fn in_kind(kind: Kind, n: i128) -> Option<Number>
        ensures { result ≡ number_in kind n }
    {
        match kind {
            Kind::Int8 => Some(Number::Int8(i8::try_from(n).ok()?)),
            Kind::Int16 => Some(Number::Int16(i16::try_from(n).ok()?)),
            Kind::Int32 => Some(Number::Int32(i32::try_from(n).ok()?)),
            Kind::Int64 => Some(Number::Int64(i64::try_from(n).ok()?)),
            Kind::UInt8 => Some(Number::UInt8(u8::try_from(n).ok()?)),
            Kind::UInt16 => Some(Number::UInt16(u16::try_from(n).ok()?)),
            Kind::UInt32 => Some(Number::UInt32(u32::try_from(n).ok()?)),
            Kind::UInt64 => Some(Number::UInt64(u64::try_from(n).ok()?)),
            _ => None,
        }
    }
}
