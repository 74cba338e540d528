use ak_base::NoMemory;
use std::alloc::AllocFailed;
use std::error::Error;
use std::fmt;

/// Why a command on elements was refused. They are tested in this order.
#[derive(Clone, Copy, Debug, PartialEq, Eq)]
pub enum ElementFault {
    /// The command is none on elements, or does not take that form.
    BadScript,
    /// The message has no field `data`.
    BadValue,
    /// The value has another kind than the elements.
    BadType,
    /// No element has that name.
    NameNotFound,
    /// There are no such elements.
    BadIndex,
    /// There are 64 elements, or no id is left.
    ElementLimit,
    /// Memory ran out.
    NoMemory,
}

impl fmt::Display for ElementFault {
    fn fmt<W: fmt::Write>(&self, f: &mut fmt::Formatter<W>) -> fmt::Result {
        match self {
            ElementFault::BadScript => f.write_str("the command does not take that form"),
            ElementFault::BadValue => f.write_str("the message has no data"),
            ElementFault::BadType => f.write_str("the value has another kind"),
            ElementFault::NameNotFound => f.write_str("no element has that name"),
            ElementFault::BadIndex => f.write_str("there are no such elements"),
            ElementFault::ElementLimit => f.write_str("there are 64 elements, or no id is left"),
            ElementFault::NoMemory => f.write_str("no memory"),
        }
    }
}

impl Error for ElementFault {}

impl From<NoMemory> for ElementFault {
    ghost use Rattle.std.specs.Prelude.{◌≡◌};
    ghost use Rattle.ak_value.specs.declared.fault.ElementFault.TheVariants as fault;

    ghost from_gives = { λ _ e. e ≡ fault.NoMemory };

    fn from(_error: NoMemory) -> ElementFault {
        ElementFault::NoMemory
    }
}

impl<T: Drop> From<AllocFailed<T>> for ElementFault {
    ghost use Rattle.std.specs.Prelude.{◌≡◌};
    ghost use Rattle.ak_value.specs.declared.fault.ElementFault.TheVariants as fault;

    ghost from_gives = { λ _ e. e ≡ fault.NoMemory };

    fn from(_error: AllocFailed<T>) -> ElementFault {
        ElementFault::NoMemory
    }
}
