use ak_base::NoMemory;
use std::error::Error;
use std::fmt;

/// Why a value was not added. They are tested in this order.
#[derive(Clone, Copy, Debug, PartialEq, Eq)]
pub enum AddFault {
    /// The name is no word.
    BadName,
    /// The field of that name has another kind.
    BadType,
    /// The name is new and there are 64 fields, or its field has 255 values.
    FieldLimit,
    /// The value is a message that is 16 messages deep.
    TooDeep,
    /// Memory ran out.
    NoMemory,
}

impl fmt::Display for AddFault {
    fn fmt<W: fmt::Write>(&self, f: &mut fmt::Formatter<W>) -> fmt::Result {
        match self {
            AddFault::BadName => f.write_str("the name is no word"),
            AddFault::BadType => f.write_str("the field has another kind"),
            AddFault::FieldLimit => f.write_str("there are too many fields or values"),
            AddFault::TooDeep => f.write_str("messages stand too deep"),
            AddFault::NoMemory => f.write_str("no memory"),
        }
    }
}

impl Error for AddFault {}

/// Why no value was found. They are tested in this order.
#[derive(Clone, Copy, Debug, PartialEq, Eq)]
pub enum FindFault {
    /// No field has that name.
    NameNotFound,
    /// The field of that name has another kind.
    BadType,
    /// The field has not so many values.
    BadIndex,
}

impl fmt::Display for FindFault {
    fn fmt<W: fmt::Write>(&self, f: &mut fmt::Formatter<W>) -> fmt::Result {
        match self {
            FindFault::NameNotFound => f.write_str("no field has that name"),
            FindFault::BadType => f.write_str("the field has another kind"),
            FindFault::BadIndex => f.write_str("the field has not so many values"),
        }
    }
}

impl Error for FindFault {}

/// Why no value was replaced. They are tested in this order.
#[derive(Clone, Copy, Debug, PartialEq, Eq)]
pub enum ReplaceFault {
    /// No field has that name.
    NameNotFound,
    /// The field of that name has another kind than the value.
    BadType,
    /// The field has not so many values.
    BadIndex,
    /// The value is a message that is 16 messages deep.
    TooDeep,
}

impl fmt::Display for ReplaceFault {
    fn fmt<W: fmt::Write>(&self, f: &mut fmt::Formatter<W>) -> fmt::Result {
        match self {
            ReplaceFault::NameNotFound => f.write_str("no field has that name"),
            ReplaceFault::BadType => f.write_str("the field has another kind"),
            ReplaceFault::BadIndex => f.write_str("the field has not so many values"),
            ReplaceFault::TooDeep => f.write_str("messages stand too deep"),
        }
    }
}

impl Error for ReplaceFault {}

/// Why nothing was removed. They are tested in this order.
#[derive(Clone, Copy, Debug, PartialEq, Eq)]
pub enum RemoveFault {
    /// No field has that name.
    NameNotFound,
    /// The field has not so many values.
    BadIndex,
}

impl fmt::Display for RemoveFault {
    fn fmt<W: fmt::Write>(&self, f: &mut fmt::Formatter<W>) -> fmt::Result {
        match self {
            RemoveFault::NameNotFound => f.write_str("no field has that name"),
            RemoveFault::BadIndex => f.write_str("the field has not so many values"),
        }
    }
}

impl Error for RemoveFault {}

impl From<NoMemory> for AddFault {
    ghost use Rattle.std.specs.Prelude.{◌≡◌};
    ghost use Rattle.ak_message.specs.declared.fault.AddFault.TheVariants as fault;

    ghost from_gives = { λ _ e. e ≡ fault.NoMemory };

    fn from(_error: NoMemory) -> AddFault {
        AddFault::NoMemory
    }
}
