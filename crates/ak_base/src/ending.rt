use std::error::Error;
use std::fmt;

/// How a run of the program ended. The exit status is 0 to 6 in the order of the variants.
#[derive(Clone, Copy, Debug, PartialEq, Eq)]
pub enum Ending {
    /// The input was read to its end and every statement was carried out.
    Done,
    /// The words of the command line are none of the forms.
    Usage,
    /// The input is no script. The number of the line at fault, and why.
    Refused { line: u32, kind: RefusalKind },
    /// A read failed.
    ReadFault,
    /// A write failed.
    WriteFault,
    /// A thread cannot be started.
    ThreadFault,
    /// Memory ran out.
    NoMemory,
}

/// Why an input is refused.
#[derive(Clone, Copy, Debug, PartialEq, Eq)]
pub enum RefusalKind {
    /// The input has over 1,048,576 bytes.
    InputTooLong,
    /// The bytes of the line are not UTF-8.
    NotUtf8,
    /// Quotes, a brace or a bracket of the line is not closed, or an escape is none.
    BadWord,
    /// The first word of the line may not stand there.
    UnknownLine,
    /// A hey line is not of its form, at this column, counted from 1.
    BadHey(u32),
    /// The further words of the line are not of its form.
    BadValue,
    /// What the line names is given again.
    NameInUse,
    /// The line passes a limit.
    Limit,
    /// The lines end with an application that has no looper.
    Unfinished,
    /// A handler, a looper or an asked application is not there.
    UnknownName,
    /// The next handlers come back to the handler of the line.
    ChainLoop,
    /// What is asked is not described later than the one that asks.
    AskOrder,
}

impl fmt::Display for RefusalKind {
    ghost use Rattle.std.specs.Prelude.{Some};
    ghost use Rattle.ak_base.specs.Refusal.{text_of};

    ghost output = { λ kind. Some (text_of kind) };

    fn fmt<W: fmt::Write>(&self, f: &mut fmt::Formatter<W>) -> fmt::Result {
        match self {
            RefusalKind::InputTooLong => f.write_str("input too long"),
            RefusalKind::NotUtf8 => f.write_str("not UTF-8"),
            RefusalKind::BadWord => f.write_str("bad word"),
            RefusalKind::UnknownLine => f.write_str("unknown line"),
            RefusalKind::BadHey(column) => write!(f, "bad hey at {column}"),
            RefusalKind::BadValue => f.write_str("bad value"),
            RefusalKind::NameInUse => f.write_str("name in use"),
            RefusalKind::Limit => f.write_str("limit"),
            RefusalKind::Unfinished => f.write_str("unfinished"),
            RefusalKind::UnknownName => f.write_str("unknown name"),
            RefusalKind::ChainLoop => f.write_str("chain loop"),
            RefusalKind::AskOrder => f.write_str("ask order"),
        }
    }
}

impl Error for RefusalKind {}
