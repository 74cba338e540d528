ghost use Rattle.std.specs.Prelude.{◌≡◌};
ghost use Rattle.ak_describe.specs.Faults.{fault_at};

use ak_action::ActionFault;
use ak_base::{NoMemory, RefusalKind};
use ak_filter::FilterFault;
use ak_value::ElementFault;
use std::alloc::AllocFailed;
use std::error::Error;
use std::fmt;

/// Why lines describe no applications.
#[derive(Clone, Copy, Debug, PartialEq, Eq)]
pub enum DescribeFault {
    /// The first line with a fault, by its number in the input, counted from 1, and what is wrong with it.
    Refused { line: u32, kind: RefusalKind },
    /// Memory ran out.
    NoMemory,
}

impl fmt::Display for DescribeFault {
    fn fmt<W: fmt::Write>(&self, f: &mut fmt::Formatter<W>) -> fmt::Result {
        match self {
            DescribeFault::Refused { line, kind } => {
                let text = text_of(*kind);
                write!(f, "line {line}: {text}")
            }
            DescribeFault::NoMemory => f.write_str("no memory"),
        }
    }
}

impl Error for DescribeFault {}

// What is wrong with a line, in plain words.
fn text_of(kind: RefusalKind) -> &'static str {
    match kind {
        RefusalKind::UnknownLine => "no such line may stand here",
        RefusalKind::BadValue => "the words are not of the line's form",
        RefusalKind::NameInUse => "the name was given before",
        RefusalKind::Limit => "a limit is passed",
        RefusalKind::Unfinished => "the application before it has no looper",
        RefusalKind::UnknownName => "who is named is not there",
        RefusalKind::ChainLoop => "the next handlers lead back to the handler",
        RefusalKind::AskOrder => "who is asked is not described later",
        RefusalKind::InputTooLong
        | RefusalKind::NotUtf8
        | RefusalKind::BadWord
        | RefusalKind::BadHey(_) => "it is no line of a description",
    }
}

impl From<NoMemory> for DescribeFault {
    ghost use Rattle.std.specs.Prelude.{◌≡◌};
    ghost use Rattle.ak_describe.specs.declared.fault.DescribeFault.TheVariants as fault;

    ghost from_gives = { λ _ e. e ≡ fault.NoMemory };

    fn from(_error: NoMemory) -> DescribeFault {
        DescribeFault::NoMemory
    }
}

impl<T: Drop> From<AllocFailed<T>> for DescribeFault {
    ghost use Rattle.std.specs.Prelude.{◌≡◌};
    ghost use Rattle.ak_describe.specs.declared.fault.DescribeFault.TheVariants as fault;

    ghost from_gives = { λ _ e. e ≡ fault.NoMemory };

    fn from(_error: AllocFailed<T>) -> DescribeFault {
        DescribeFault::NoMemory
    }
}

/// Why words are not of the form of their line.
#[derive(Clone, Copy, Debug, PartialEq, Eq)]
pub(crate) enum FormFault {
    BadValue,
    NoMemory,
}

impl From<NoMemory> for FormFault {
    ghost use Rattle.std.specs.Prelude.{◌≡◌};
    ghost use Rattle.ak_describe.specs.declared.fault.FormFault.TheVariants as fault;

    ghost from_gives = { λ _ e. e ≡ fault.NoMemory };

    fn from(_error: NoMemory) -> FormFault {
        FormFault::NoMemory
    }
}

impl<T: Drop> From<AllocFailed<T>> for FormFault {
    ghost use Rattle.std.specs.Prelude.{◌≡◌};
    ghost use Rattle.ak_describe.specs.declared.fault.FormFault.TheVariants as fault;

    ghost from_gives = { λ _ e. e ≡ fault.NoMemory };

    fn from(_error: AllocFailed<T>) -> FormFault {
        FormFault::NoMemory
    }
}

/// Why a line is not taken. They are tested in this order.
#[derive(Clone, Copy, Debug, PartialEq, Eq)]
pub(crate) enum LineFault {
    /// Its first word begins no line that may stand here.
    UnknownLine,
    /// Its further words are not of its form, or a value is not of its kind or in its range, or an action
    /// names a property that its handler does not have.
    BadValue,
    /// What has to be new was given before.
    NameInUse,
    /// A limit is passed.
    Limit,
    NoMemory,
}

impl LineFault {
    /// The fault of the line with that number.
    pub(crate) fn at(self, line: u32) -> DescribeFault
        ensures { result ≡ fault_at self line }
    {
        match self {
            LineFault::UnknownLine => refused(line, RefusalKind::UnknownLine),
            LineFault::BadValue => refused(line, RefusalKind::BadValue),
            LineFault::NameInUse => refused(line, RefusalKind::NameInUse),
            LineFault::Limit => refused(line, RefusalKind::Limit),
            LineFault::NoMemory => DescribeFault::NoMemory,
        }
    }
}

fn refused(line: u32, kind: RefusalKind) -> DescribeFault
    ensures { result ≡ DescribeFault.Refused line kind }
{
    DescribeFault::Refused { line, kind }
}

impl From<NoMemory> for LineFault {
    ghost use Rattle.std.specs.Prelude.{◌≡◌};
    ghost use Rattle.ak_describe.specs.declared.fault.LineFault.TheVariants as fault;

    ghost from_gives = { λ _ e. e ≡ fault.NoMemory };

    fn from(_error: NoMemory) -> LineFault {
        LineFault::NoMemory
    }
}

impl<T: Drop> From<AllocFailed<T>> for LineFault {
    ghost use Rattle.std.specs.Prelude.{◌≡◌};
    ghost use Rattle.ak_describe.specs.declared.fault.LineFault.TheVariants as fault;

    ghost from_gives = { λ _ e. e ≡ fault.NoMemory };

    fn from(_error: AllocFailed<T>) -> LineFault {
        LineFault::NoMemory
    }
}

impl From<FormFault> for LineFault {
    ghost use Rattle.std.specs.Prelude.{◌≡◌};
    ghost use Rattle.ak_describe.specs.Faults.{line_fault};

    ghost from_gives = { λ f e. e ≡ line_fault f };

    fn from(fault: FormFault) -> LineFault {
        match fault {
            FormFault::BadValue => LineFault::BadValue,
            FormFault::NoMemory => LineFault::NoMemory,
        }
    }
}

impl From<FilterFault> for LineFault {
    ghost use Rattle.std.specs.Prelude.{◌≡◌};
    ghost use Rattle.ak_describe.specs.Faults.{filter_fault};

    ghost from_gives = { λ f e. e ≡ filter_fault f };

    fn from(fault: FilterFault) -> LineFault {
        match fault {
            FilterFault::FilterLimit => LineFault::Limit,
            FilterFault::NoMemory => LineFault::NoMemory,
        }
    }
}

impl From<ActionFault> for LineFault {
    ghost use Rattle.std.specs.Prelude.{◌≡◌};
    ghost use Rattle.ak_describe.specs.Faults.{action_fault};

    ghost from_gives = { λ f e. e ≡ action_fault f };

    fn from(fault: ActionFault) -> LineFault {
        match fault {
            ActionFault::ActionLimit => LineFault::Limit,
            ActionFault::NoMemory => LineFault::NoMemory,
        }
    }
}

impl From<ElementFault> for LineFault {
    ghost use Rattle.std.specs.Prelude.{◌≡◌};
    ghost use Rattle.ak_describe.specs.Faults.{element_fault};

    ghost from_gives = { λ f e. e ≡ element_fault f };

    fn from(fault: ElementFault) -> LineFault {
        match fault {
            ElementFault::ElementLimit => LineFault::Limit,
            ElementFault::NoMemory => LineFault::NoMemory,
            ElementFault::BadScript
            | ElementFault::BadValue
            | ElementFault::BadType
            | ElementFault::NameNotFound
            | ElementFault::BadIndex => LineFault::BadValue,
        }
    }
}
