//! Reads the names of errors.

ghost use Rattle.std.specs.Prelude.{◌≡◌};
ghost use Rattle.ak_journal.specs.ReadDesk as reads;

use ak_base::KitError;

/// The error of that name.
pub(crate) fn error_named(name: &[u8]) -> Option<KitError>
    ensures { result ≡ reads.error_named name.now }
{
    if let Some(error) = b_error(name) {
        return Some(error);
    }
    if let Some(error) = more_b_error(name) {
        return Some(error);
    }
    k_error(name)
}

// Those that are named after BeOS, in two halves.
fn b_error(name: &[u8]) -> Option<KitError>
    ensures { result ≡ reads.b_error name.now }
{
    if name == b"B_OK".as_slice() {
        Some(KitError::Ok)
    } else if name == b"B_NO_MEMORY".as_slice() {
        Some(KitError::NoMemory)
    } else if name == b"B_BAD_TYPE".as_slice() {
        Some(KitError::BadType)
    } else if name == b"B_NAME_NOT_FOUND".as_slice() {
        Some(KitError::NameNotFound)
    } else if name == b"B_BAD_INDEX".as_slice() {
        Some(KitError::BadIndex)
    } else if name == b"B_BAD_PORT_ID".as_slice() {
        Some(KitError::BadPortId)
    } else if name == b"B_WOULD_BLOCK".as_slice() {
        Some(KitError::WouldBlock)
    } else {
        None
    }
}

fn more_b_error(name: &[u8]) -> Option<KitError>
    ensures { result ≡ reads.more_b_error name.now }
{
    if name == b"B_BAD_VALUE".as_slice() {
        Some(KitError::BadValue)
    } else if name == b"B_BAD_HANDLER".as_slice() {
        Some(KitError::BadHandler)
    } else if name == b"B_NAME_IN_USE".as_slice() {
        Some(KitError::NameInUse)
    } else if name == b"B_DUPLICATE_REPLY".as_slice() {
        Some(KitError::DuplicateReply)
    } else if name == b"B_BAD_SCRIPT_SYNTAX".as_slice() {
        Some(KitError::BadScriptSyntax)
    } else if name == b"B_ALREADY_RUNNING".as_slice() {
        Some(KitError::AlreadyRunning)
    } else if name == b"B_LAUNCH_FAILED_APP_NOT_FOUND".as_slice() {
        Some(KitError::LaunchFailedAppNotFound)
    } else {
        None
    }
}

// The others.
fn k_error(name: &[u8]) -> Option<KitError>
    ensures { result ≡ reads.k_error name.now }
{
    if name == b"K_SPENT".as_slice() {
        Some(KitError::Spent)
    } else if name == b"K_TOO_LONG".as_slice() {
        Some(KitError::TooLong)
    } else if name == b"K_LIMIT".as_slice() {
        Some(KitError::Limit)
    } else if name == b"K_CHAIN_LOOP".as_slice() {
        Some(KitError::ChainLoop)
    } else if name == b"K_IS_LOOPER".as_slice() {
        Some(KitError::IsLooper)
    } else if name == b"K_NO_TEAM".as_slice() {
        Some(KitError::NoTeam)
    } else {
        None
    }
}
