ghost use Rattle.std.specs.Prelude.{◌≡◌};
ghost use Rattle.ak_base.specs.Error.{number_of, name_of};

use std::error::Error;
use std::fmt;

/// The errors that are printed or put into a reply. Those that begin with B are named after BeOS, and
/// those that begin with K are this project's own; all numbers are its own. (The Be Book, The Support Kit:
/// error codes.)
#[derive(Clone, Copy, Debug, PartialEq, Eq)]
pub enum KitError {
    /// `B_OK`: it was done.
    Ok,
    /// `B_NO_MEMORY`: memory ran out.
    NoMemory,
    /// `B_BAD_TYPE`: a value is of another kind.
    BadType,
    /// `B_NAME_NOT_FOUND`: what was named is not there.
    NameNotFound,
    /// `B_BAD_INDEX`: what was chosen is not there.
    BadIndex,
    /// `B_BAD_PORT_ID`: the port is shut.
    BadPortId,
    /// `B_WOULD_BLOCK`: the port is full, and the sender does not wait.
    WouldBlock,
    /// `B_BAD_VALUE`: a value is missing, or two numbers have no sum.
    BadValue,
    /// `B_BAD_HANDLER`: there is no such handler.
    BadHandler,
    /// `B_NAME_IN_USE`: a handler has that name.
    NameInUse,
    /// `B_DUPLICATE_REPLY`: a reply was made before.
    DuplicateReply,
    /// `B_BAD_SCRIPT_SYNTAX`: the command does not go with the specifiers.
    BadScriptSyntax,
    /// `B_ALREADY_RUNNING`: a team that runs keeps the application from starting.
    AlreadyRunning,
    /// `B_LAUNCH_FAILED_APP_NOT_FOUND`: no description fits.
    LaunchFailedAppNotFound,
    /// `K_SPENT`: the port has accepted all that it ever does.
    Spent,
    /// `K_TOO_LONG`: a flat text has over 4,096 bytes.
    TooLong,
    /// `K_LIMIT`: a limit is reached.
    Limit,
    /// `K_CHAIN_LOOP`: a chain of handlers would come back.
    ChainLoop,
    /// `K_IS_LOOPER`: a looper stays and has no next handler.
    IsLooper,
    /// `K_NO_TEAM`: there is no such team.
    NoTeam,
}

impl KitError {
    /// The number that a reply carries: 0 for `Ok`, else from -1 down in the order of the variants.
    pub fn number(&self) -> i32
        ensures { result ≡ number_of self.now }
    {
        match self {
            KitError::Ok => 0,
            KitError::NoMemory => -1,
            KitError::BadType => -2,
            KitError::NameNotFound => -3,
            KitError::BadIndex => -4,
            KitError::BadPortId => -5,
            KitError::WouldBlock => -6,
            KitError::BadValue => -7,
            KitError::BadHandler => -8,
            KitError::NameInUse => -9,
            KitError::DuplicateReply => -10,
            KitError::BadScriptSyntax => -11,
            KitError::AlreadyRunning => -12,
            KitError::LaunchFailedAppNotFound => -13,
            KitError::Spent => -14,
            KitError::TooLong => -15,
            KitError::Limit => -16,
            KitError::ChainLoop => -17,
            KitError::IsLooper => -18,
            KitError::NoTeam => -19,
        }
    }

    /// The name that is printed, as it stands at each variant.
    pub fn name(&self) -> &'static str
        ensures { result.now ≡ name_of self.now }
    {
        match self {
            KitError::Ok => "B_OK",
            KitError::NoMemory => "B_NO_MEMORY",
            KitError::BadType => "B_BAD_TYPE",
            KitError::NameNotFound => "B_NAME_NOT_FOUND",
            KitError::BadIndex => "B_BAD_INDEX",
            KitError::BadPortId => "B_BAD_PORT_ID",
            KitError::WouldBlock => "B_WOULD_BLOCK",
            KitError::BadValue => "B_BAD_VALUE",
            KitError::BadHandler => "B_BAD_HANDLER",
            KitError::NameInUse => "B_NAME_IN_USE",
            KitError::DuplicateReply => "B_DUPLICATE_REPLY",
            KitError::BadScriptSyntax => "B_BAD_SCRIPT_SYNTAX",
            KitError::AlreadyRunning => "B_ALREADY_RUNNING",
            KitError::LaunchFailedAppNotFound => "B_LAUNCH_FAILED_APP_NOT_FOUND",
            KitError::Spent => "K_SPENT",
            KitError::TooLong => "K_TOO_LONG",
            KitError::Limit => "K_LIMIT",
            KitError::ChainLoop => "K_CHAIN_LOOP",
            KitError::IsLooper => "K_IS_LOOPER",
            KitError::NoTeam => "K_NO_TEAM",
        }
    }
}

impl fmt::Display for KitError {
    ghost use Rattle.std.specs.Prelude.{Some};
    ghost use Rattle.ak_base.specs.Error.{name_of};

    ghost output = { λ error. Some (name_of error) };

    fn fmt<W: fmt::Write>(&self, f: &mut fmt::Formatter<W>) -> fmt::Result {
        f.write_str(self.name())
    }
}

impl Error for KitError {}
