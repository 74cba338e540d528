ghost use Rattle.std.specs.Prelude.{◌+◌, ◌≤◌, length};
ghost use Rattle.ak_flatten.specs.Limits.{flat_limit};

use crate::fault::{FlatFault, FlatKind};

/// What is still to be read of the bytes, or of the value that is read, and where that begins in all the bytes.
#[derive(Clone, Copy)]
pub(crate) struct Input<'a> {
    pub place: u32,
    pub bytes: &'a [u8],
    pub ghost within: { place + length bytes.now ≤ flat_limit },
}

impl<'a> Input<'a> {
    ghost use Rattle.std.specs.Prelude.{◌≡◌, IfOk};
    ghost use Rattle.std.specs.Int.{w8, w16, w32, w64};
    ghost use Rattle.ak_flatten.specs.Reading.{bytes_at, number_at};
    ghost use Rattle.ak_flatten.specs.Seen.{Reads, left_of};

    /// This fault, at the place where it begins.
    pub fn fault(&self, kind: FlatKind) -> FlatFault
        ensures { result ≡ record { place = self.now.place; kind = kind } }
    {
        FlatFault {
            place: self.place,
            kind,
        }
    }

    /// So many bytes, and what is left behind them.
    #[tactic(auto, unfolding(crate::specs::Reading::bytes_at))]
    pub fn split(self, len: usize) -> Result<(Input<'a>, Input<'a>), FlatFault>
        ensures reads { Reads (λ x. (x.0.bytes.now, left_of x.1)) result (bytes_at len (left_of self.entry)) }
        ensures len { IfOk result (λ x. length x.0.bytes.now ≡ len) }
        ensures place { IfOk result (λ x. x.0.place ≡ self.entry.place) }
    {
        if self.bytes.len() < len {
            return Err(self.fault(FlatKind::Truncated));
        }
        let (front, rest) = self.bytes.split_at(len);
        let front = Input {
            place: self.place,
            bytes: front,
        };
        let rest = Input {
            place: self.place + len as u32,
            bytes: rest,
        };
        Ok((front, rest))
    }

    #[tactic(auto, unfolding(crate::specs::Reading::number_at))]
    pub fn number8(self) -> Result<(u8, Input<'a>), FlatFault>
        ensures { Reads (λ x. (x.0, left_of x.1)) result (number_at w8 (left_of self.entry)) }
    {
        let (front, rest) = self.split(1)?;
        Ok((front.bytes[0], rest))
    }

    #[tactic(auto, unfolding(crate::specs::Reading::number_at))]
    pub fn number16(self) -> Result<(u16, Input<'a>), FlatFault>
        ensures { Reads (λ x. (x.0, left_of x.1)) result (number_at w16 (left_of self.entry)) }
    {
        let (front, rest) = self.split(2)?;
        let bytes = front.bytes;
        Ok((u16::from_be_bytes([bytes[0], bytes[1]]), rest))
    }

    #[tactic(auto, unfolding(crate::specs::Reading::number_at))]
    pub fn number32(self) -> Result<(u32, Input<'a>), FlatFault>
        ensures { Reads (λ x. (x.0, left_of x.1)) result (number_at w32 (left_of self.entry)) }
    {
        let (front, rest) = self.split(4)?;
        let bytes = front.bytes;
        let number = u32::from_be_bytes([bytes[0], bytes[1], bytes[2], bytes[3]]);
        Ok((number, rest))
    }

    #[tactic(auto, unfolding(crate::specs::Reading::number_at))]
    pub fn number64(self) -> Result<(u64, Input<'a>), FlatFault>
        ensures { Reads (λ x. (x.0, left_of x.1)) result (number_at w64 (left_of self.entry)) }
    {
        let (front, rest) = self.split(8)?;
        let bytes = front.bytes;
        let number = u64::from_be_bytes([
            bytes[0], bytes[1], bytes[2], bytes[3], bytes[4], bytes[5], bytes[6], bytes[7],
        ]);
        Ok((number, rest))
    }
}
