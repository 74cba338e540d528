ghost use Rattle.std.specs.Prelude.{◌≡◌};
ghost use Rattle.ak_script.specs.Faults.{fault_at};

use ak_base::{NoMemory, RefusalKind};
use ak_describe::DescribeFault;
use ak_hey::HeyFault;
use ak_input::LinesFault;
use std::alloc::AllocFailed;
use std::error::Error;
use std::fmt;

/// Why an input is no script.
#[derive(Clone, Copy, Debug, PartialEq, Eq)]
pub enum ScriptFault {
    /// The first line with a fault, by its number in the input, counted from 1, and what is wrong with it.
    Refused { line: u32, kind: RefusalKind },
    /// Memory ran out.
    NoMemory,
}

impl fmt::Display for ScriptFault {
    fn fmt<W: fmt::Write>(&self, f: &mut fmt::Formatter<W>) -> fmt::Result {
        match self {
            ScriptFault::Refused { line, kind } => write!(f, "line {line}: {kind}"),
            ScriptFault::NoMemory => f.write_str("no memory"),
        }
    }
}

impl Error for ScriptFault {}

impl From<NoMemory> for ScriptFault {
    ghost use Rattle.std.specs.Prelude.{◌≡◌};
    ghost use Rattle.ak_script.specs.declared.fault.ScriptFault.TheVariants as fault;

    ghost from_gives = { λ _ e. e ≡ fault.NoMemory };

    fn from(_error: NoMemory) -> ScriptFault {
        ScriptFault::NoMemory
    }
}

impl<T: Drop> From<AllocFailed<T>> for ScriptFault {
    ghost use Rattle.std.specs.Prelude.{◌≡◌};
    ghost use Rattle.ak_script.specs.declared.fault.ScriptFault.TheVariants as fault;

    ghost from_gives = { λ _ e. e ≡ fault.NoMemory };

    fn from(_error: AllocFailed<T>) -> ScriptFault {
        ScriptFault::NoMemory
    }
}

impl From<LinesFault> for ScriptFault {
    ghost use Rattle.std.specs.Prelude.{◌≡◌};
    ghost use Rattle.ak_script.specs.Faults.{lines_fault};

    ghost from_gives = { λ f e. e ≡ lines_fault f };

    fn from(fault: LinesFault) -> ScriptFault {
        match fault {
            LinesFault::TooLong { line } => ScriptFault::Refused {
                line,
                kind: RefusalKind::InputTooLong,
            },
            LinesFault::NoMemory => ScriptFault::NoMemory,
        }
    }
}

impl From<DescribeFault> for ScriptFault {
    ghost use Rattle.std.specs.Prelude.{◌≡◌};
    ghost use Rattle.ak_script.specs.Faults.{describe_fault};

    ghost from_gives = { λ f e. e ≡ describe_fault f };

    fn from(fault: DescribeFault) -> ScriptFault {
        match fault {
            DescribeFault::Refused { line, kind } => ScriptFault::Refused { line, kind },
            DescribeFault::NoMemory => ScriptFault::NoMemory,
        }
    }
}

/// Why words are not of the form of their line.
#[derive(Clone, Copy, Debug, PartialEq, Eq)]
pub(crate) enum FormFault {
    BadValue,
    NoMemory,
}

impl From<NoMemory> for FormFault {
    ghost use Rattle.std.specs.Prelude.{◌≡◌};
    ghost use Rattle.ak_script.specs.declared.fault.FormFault.TheVariants as fault;

    ghost from_gives = { λ _ e. e ≡ fault.NoMemory };

    fn from(_error: NoMemory) -> FormFault {
        FormFault::NoMemory
    }
}

impl<T: Drop> From<AllocFailed<T>> for FormFault {
    ghost use Rattle.std.specs.Prelude.{◌≡◌};
    ghost use Rattle.ak_script.specs.declared.fault.FormFault.TheVariants as fault;

    ghost from_gives = { λ _ e. e ≡ fault.NoMemory };

    fn from(_error: AllocFailed<T>) -> FormFault {
        FormFault::NoMemory
    }
}

/// Why a line is no statement. They are tested in this order.
#[derive(Clone, Copy, Debug, PartialEq, Eq)]
pub(crate) enum StatementFault {
    /// Its first word begins no statement.
    UnknownLine,
    /// It is no hey line: the column of the first byte of the first word with which none goes on, or the one
    /// past the last byte.
    BadHey(u32),
    /// Its further words are not of its form.
    BadValue,
    /// A limit is passed.
    Limit,
    NoMemory,
}

impl StatementFault {
    /// The fault of the line with that number.
    pub(crate) fn at(self, line: u32) -> ScriptFault
        ensures { result ≡ fault_at self line }
    {
        match self {
            StatementFault::UnknownLine => refused(line, RefusalKind::UnknownLine),
            StatementFault::BadHey(column) => refused(line, RefusalKind::BadHey(column)),
            StatementFault::BadValue => refused(line, RefusalKind::BadValue),
            StatementFault::Limit => refused(line, RefusalKind::Limit),
            StatementFault::NoMemory => ScriptFault::NoMemory,
        }
    }
}

/// The line of that number has that fault.
pub(crate) fn refused(line: u32, kind: RefusalKind) -> ScriptFault
    ensures { result ≡ ScriptFault.Refused line kind }
{
    ScriptFault::Refused { line, kind }
}

impl From<NoMemory> for StatementFault {
    ghost use Rattle.std.specs.Prelude.{◌≡◌};
    ghost use Rattle.ak_script.specs.declared.fault.StatementFault.TheVariants as fault;

    ghost from_gives = { λ _ e. e ≡ fault.NoMemory };

    fn from(_error: NoMemory) -> StatementFault {
        StatementFault::NoMemory
    }
}

impl<T: Drop> From<AllocFailed<T>> for StatementFault {
    ghost use Rattle.std.specs.Prelude.{◌≡◌};
    ghost use Rattle.ak_script.specs.declared.fault.StatementFault.TheVariants as fault;

    ghost from_gives = { λ _ e. e ≡ fault.NoMemory };

    fn from(_error: AllocFailed<T>) -> StatementFault {
        StatementFault::NoMemory
    }
}

impl From<FormFault> for StatementFault {
    ghost use Rattle.std.specs.Prelude.{◌≡◌};
    ghost use Rattle.ak_script.specs.Faults.{form_fault};

    ghost from_gives = { λ f e. e ≡ form_fault f };

    fn from(fault: FormFault) -> StatementFault {
        match fault {
            FormFault::BadValue => StatementFault::BadValue,
            FormFault::NoMemory => StatementFault::NoMemory,
        }
    }
}

impl From<HeyFault> for StatementFault {
    ghost use Rattle.std.specs.Prelude.{◌≡◌};
    ghost use Rattle.ak_script.specs.Faults.{hey_fault};

    ghost from_gives = { λ f e. e ≡ hey_fault f };

    fn from(fault: HeyFault) -> StatementFault {
        match fault {
            HeyFault::Bad { column } => StatementFault::BadHey(column),
            HeyFault::TooLong => StatementFault::Limit,
            HeyFault::NoMemory => StatementFault::NoMemory,
        }
    }
}
