ghost use Rattle.std.specs.Prelude.{◌≡◌, ◌<◌, ◌≤◌, ◌↔◌, length, IfOk, IsErrOf};
ghost use Rattle.ak_base.specs.declared.raw.TheConstants.{RAW_LIMIT};
ghost use Rattle.ak_base.specs.Limits.{raw_limit};

use crate::no_memory::NoMemory;
use std::alloc::{AllocError, Global};
use std::error::Error;
use std::fmt;
use std::marker::Model;

/// The longest raw value, in bytes.
pub const RAW_LIMIT: usize = 1024;

/// Why bytes are no raw value, or could not be kept.
#[derive(Clone, Copy, Debug, PartialEq, Eq)]
pub enum RawFault {
    /// Over 1,024 bytes.
    TooLong,
    /// Memory ran out.
    NoMemory,
}

impl fmt::Display for RawFault {
    fn fmt<W: fmt::Write>(&self, f: &mut fmt::Formatter<W>) -> fmt::Result {
        match self {
            RawFault::TooLong => f.write_str("over 1,024 bytes"),
            RawFault::NoMemory => f.write_str("no memory"),
        }
    }
}

impl Error for RawFault {}

impl From<AllocError> for RawFault {
    ghost use Rattle.std.specs.Prelude.{◌≡◌};
    ghost use Rattle.ak_base.specs.declared.raw.RawFault.TheVariants.{NoMemory};

    ghost from_gives = { λ _ e. e ≡ NoMemory };

    fn from(_error: AllocError) -> RawFault {
        RawFault::NoMemory
    }
}

/// At most 1,024 bytes of any kind. Contracts see the bytes.
#[derive(Debug, Drop)]
pub struct Raw {
    bytes: Vec<u8>,
}

impl Model for Raw {
    ghost use Rattle.std.specs.Prelude.{List, ℕ};
    ghost use Rattle.ak_base.specs.Text.{IsRaw};

    ghost Value = { List ℕ };

    ghost view = { λ r. r.bytes.items };

    ghost invariant = { λ r. IsRaw r.bytes.items };
}

impl Raw {
    ghost use Rattle.ak_base.specs.Text.{IsRaw};

    /// The raw value of these bytes. The faults are tested in the order of `RawFault`. The bytes are copied.
    pub fn from_bytes(alloc: Global, bytes: &[u8]) -> Result<Raw, RawFault>
        ensures ok { IfOk result (λ r. r ≡ bytes.now) }
        ensures limit { RAW_LIMIT ≡ raw_limit }
        ensures too_long { IsErrOf result RawFault.TooLong ↔ (RAW_LIMIT < length bytes.now) }
    {
        if bytes.len() > RAW_LIMIT {
            return Err(RawFault::TooLong);
        }
        Ok(Raw {
            bytes: Vec::from_slice(alloc, bytes)?,
        })
    }

    /// An equal value. `NoMemory` where memory ran out.
    pub fn try_clone(&self) -> Result<Raw, NoMemory>
        ensures { IfOk result (λ r. r ≡ self.now) }
    {
        Ok(Raw {
            bytes: Vec::from_slice(*self.bytes.allocator(), self.bytes.as_slice())?,
        })
    }

    /// The bytes, at most 1,024.
    pub fn as_bytes(&self) -> &[u8]
        ensures value { result.now ≡ self.now }
        ensures is_raw { IsRaw self.now }
    {
        self.bytes.as_slice()
    }
}
