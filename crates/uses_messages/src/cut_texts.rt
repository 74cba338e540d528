// Flat texts that are cut.

use crate::compare::same;
use crate::flat_texts::{fault_of, is_read_back, wrapped};
use ak_flatten::{FlatFault, FlatKind};
use std::alloc::Global;
use std::process::Abort;
use std::test::Fail;

// A message of several kinds and depths: a Bool, two Int32, a Text, a message with a Text and a message, a
// Messenger, and a Raw.
static WHOLE: [u8; 141] =
    *b"AKM1RPLY\0\0\0\x06BOOL\x01b\x01\0\x01\x01LONG\x01n\x02\0\x04\0\0\0\x03\0\x04\xff\xff\xff\xffCSTR\x01t\x01\0\x02hiMSGG\x01m\x01\0\x2fAKM1\0\0\0\x01\0\0\0\x02CSTR\x01p\x01\0\x05CountMSGG\x01i\x01\0\x0cAKM1\0\0\0\x02\0\0\0\0MSNG\x01a\x01\0\x0d\0\0\0\x02\x01\0\0\0\0\0\0\0\x07RAWT\x01r\x01\0\x02\xff\0";

// Where its parts begin. The message in it is one part, since its end is known before it is read.
static PLACES: [u32; 41] = [
    0, 4, 8, // the magic, the code, the number of fields
    12, 16, 17, 18, 19, 21, // b
    22, 26, 27, 28, 29, 31, 35, 37, // n
    41, 45, 46, 47, 48, 50, // t
    52, 56, 57, 58, 59, 61, // m
    108, 112, 113, 114, 115, 117, // a
    130, 134, 135, 136, 137, 139, // r
];

// Where the parts of the message in it begin, where one message stands around that.
static INNER_PLACES: [u32; 15] = [
    21, 25, 29, // the magic, the code, the number of fields
    33, 37, 38, 39, 40, 42, // p
    47, 51, 52, 53, 54, 56, // i
];

// Where the parts of the message in that one begin, where two stand around it.
static INNERMOST_PLACES: [u32; 3] = [42, 46, 50];

// That a text is cut in the part that begins at the last of the places that is at most `n`.
fn truncated(places: &[u32], n: usize) -> Option<FlatFault> {
    let mut last = None;
    for place in places {
        if *place as usize <= n {
            last = Some(FlatFault {
                place: *place,
                kind: FlatKind::Truncated,
            });
        }
    }
    last
}

// Each beginning of the flat text, in so many messages, is cut at one of the places.
fn is_cut(
    rt: &impl Abort,
    alloc: Global,
    flat: &[u8],
    depth: u32,
    places: &[u32],
) -> Result<(), Fail> {
    for n in 0..flat.len() {
        let cut = wrapped(alloc, &flat[..n], depth)?;
        let wanted = truncated(places, cut.as_slice().len());
        same(rt, (depth, n), fault_of(alloc, cut.as_slice()), wanted);
    }
    Ok(())
}

#[test]
fn a_cut_text_is_truncated_at_the_part_that_is_cut(rt: HostRuntime) -> Result<(), Fail> {
    let alloc = rt.alloc();
    is_read_back(&rt, alloc, &WHOLE)?;
    is_cut(&rt, alloc, &WHOLE, 0, &PLACES)?;
    is_cut(&rt, alloc, &WHOLE[61..108], 1, &INNER_PLACES)?;
    is_cut(&rt, alloc, &WHOLE[96..108], 2, &INNERMOST_PLACES)
}
