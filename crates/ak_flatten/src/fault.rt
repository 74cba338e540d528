use ak_base::NoMemory;
use std::error::Error;
use std::fmt;

/// What is wrong with bytes that are no flat text.
#[derive(Clone, Copy, Debug, PartialEq, Eq)]
pub enum FlatKind {
    /// They are over 4,096. This is tested first, on all the bytes alone.
    TooLong,
    /// A part passes the end of the bytes, or of the value that it stands in.
    Truncated,
    /// A message does not begin with `AKM1`.
    Magic,
    /// A message has over 64 fields.
    FieldCount,
    /// A type code is that of no kind.
    BadType,
    /// A name is no word.
    BadName,
    /// An earlier field of the message has the name.
    RepeatedName,
    /// A field has no value.
    NoValues,
    /// A value has another length than its kind allows.
    BadLength,
    /// The bytes of a value are none of its kind.
    BadValue,
    /// A message would stand in 16 others.
    TooDeep,
    /// Bytes stand after the last field of a message.
    Trailing,
}

impl fmt::Display for FlatKind {
    fn fmt<W: fmt::Write>(&self, f: &mut fmt::Formatter<W>) -> fmt::Result {
        match self {
            FlatKind::TooLong => f.write_str("over 4,096 bytes"),
            FlatKind::Truncated => f.write_str("a part passes the end"),
            FlatKind::Magic => f.write_str("a message does not begin with AKM1"),
            FlatKind::FieldCount => f.write_str("over 64 fields"),
            FlatKind::BadType => f.write_str("the type code of no kind"),
            FlatKind::BadName => f.write_str("a name is no word"),
            FlatKind::RepeatedName => f.write_str("a name stands twice"),
            FlatKind::NoValues => f.write_str("a field without values"),
            FlatKind::BadLength => f.write_str("a value of another length"),
            FlatKind::BadValue => f.write_str("a value that is none of its kind"),
            FlatKind::TooDeep => f.write_str("messages stand too deep"),
            FlatKind::Trailing => f.write_str("bytes behind the last field"),
        }
    }
}

/// The first fault from left to right, and at which byte: counted from 0 in all the bytes.
#[derive(Clone, Copy, Debug, PartialEq, Eq)]
pub struct FlatFault {
    /// The first byte of the part at fault, counted from 0; with `TooLong` 4,096.
    pub place: u32,
    /// What is wrong there.
    pub kind: FlatKind,
}

impl fmt::Display for FlatFault {
    fn fmt<W: fmt::Write>(&self, f: &mut fmt::Formatter<W>) -> fmt::Result {
        write!(f, "{} at byte {}", self.kind, self.place)
    }
}

impl Error for FlatFault {}

/// Why a message was not flattened.
#[derive(Clone, Copy, Debug, PartialEq, Eq)]
pub enum FlattenFault {
    /// Its flat text has over 4,096 bytes.
    TooLong,
    /// Memory ran out.
    NoMemory,
}

impl fmt::Display for FlattenFault {
    fn fmt<W: fmt::Write>(&self, f: &mut fmt::Formatter<W>) -> fmt::Result {
        match self {
            FlattenFault::TooLong => f.write_str("the flat text has over 4,096 bytes"),
            FlattenFault::NoMemory => f.write_str("no memory"),
        }
    }
}

impl Error for FlattenFault {}

/// Why no message was read.
#[derive(Clone, Copy, Debug, PartialEq, Eq)]
pub enum UnflattenFault {
    /// The bytes are no flat text: their first fault.
    Bad(FlatFault),
    /// Memory ran out.
    NoMemory,
}

impl fmt::Display for UnflattenFault {
    fn fmt<W: fmt::Write>(&self, f: &mut fmt::Formatter<W>) -> fmt::Result {
        match self {
            UnflattenFault::Bad(fault) => write!(f, "no flat text: {fault}"),
            UnflattenFault::NoMemory => f.write_str("no memory"),
        }
    }
}

impl Error for UnflattenFault {}

/// Why a flat text is kept as no item. They are tested in this order.
#[derive(Clone, Copy, Debug, PartialEq, Eq)]
pub enum ItemFault {
    /// The bytes are no flat text: their first fault.
    Bad(FlatFault),
    /// More specifiers are said to be popped than the message has.
    Popped,
    /// Memory ran out.
    NoMemory,
}

impl fmt::Display for ItemFault {
    fn fmt<W: fmt::Write>(&self, f: &mut fmt::Formatter<W>) -> fmt::Result {
        match self {
            ItemFault::Bad(fault) => write!(f, "no flat text: {fault}"),
            ItemFault::Popped => f.write_str("more specifiers are popped than there are"),
            ItemFault::NoMemory => f.write_str("no memory"),
        }
    }
}

impl Error for ItemFault {}

impl From<NoMemory> for FlattenFault {
    ghost use Rattle.std.specs.Prelude.{◌≡◌};
    ghost use Rattle.ak_flatten.specs.declared.fault.FlattenFault.TheVariants as fault;

    ghost from_gives = { λ _ e. e ≡ fault.NoMemory };

    fn from(_error: NoMemory) -> FlattenFault {
        FlattenFault::NoMemory
    }
}

impl From<NoMemory> for UnflattenFault {
    ghost use Rattle.std.specs.Prelude.{◌≡◌};
    ghost use Rattle.ak_flatten.specs.declared.fault.UnflattenFault.TheVariants as fault;

    ghost from_gives = { λ _ e. e ≡ fault.NoMemory };

    fn from(_error: NoMemory) -> UnflattenFault {
        UnflattenFault::NoMemory
    }
}

impl From<FlatFault> for UnflattenFault {
    ghost use Rattle.std.specs.Prelude.{◌≡◌};
    ghost use Rattle.ak_flatten.specs.declared.fault.UnflattenFault.TheVariants as fault;

    ghost from_gives = { λ f e. e ≡ fault.Bad f };

    fn from(fault: FlatFault) -> UnflattenFault {
        UnflattenFault::Bad(fault)
    }
}

impl From<UnflattenFault> for ItemFault {
    ghost use Rattle.std.specs.Prelude.{◌≡◌};
    ghost use Rattle.ak_flatten.specs.Item.{unread_fault};

    ghost from_gives = { λ f e. e ≡ unread_fault f };

    fn from(fault: UnflattenFault) -> ItemFault {
        match fault {
            UnflattenFault::Bad(fault) => ItemFault::Bad(fault),
            UnflattenFault::NoMemory => ItemFault::NoMemory,
        }
    }
}
