//! The messages that are timed.
use crate::fault::BenchFault;
use ak_base::{Bytes, Code, RAW_LIMIT, Raw};
use ak_flatten::{flatten, unflatten};
use ak_input::{read_message, split_words};
use ak_message::{Message, Value};
use std::alloc::Global;

/// A question: one specifier, which names a property.
pub const ASK: &[u8] = b"'PGET' specifiers=MSGG:{0x00000001 property=CSTR:\"Count\"}";

/// An answer: three texts of 80 bytes, and an error number.
const REPLY: &[u8] = b"'RPLY' text=\
CSTR:\"The window of the first view was moved to the workspace that a script had named.\",\
CSTR:\"The property is found by its name, and what stands there is a number of 32 bits.\",\
CSTR:\"Of the replies that had been asked for the last came before its time had passed.\" \
error=LONG:0";

/// 16 messages in one another, and a number in the innermost.
const DEEP: &[u8] = b"\
'NEST' inner=MSGG:{'NEST' inner=MSGG:{'NEST' inner=MSGG:{'NEST' inner=MSGG:{'NEST' inner=MSGG:{\
'NEST' inner=MSGG:{'NEST' inner=MSGG:{'NEST' inner=MSGG:{'NEST' inner=MSGG:{'NEST' inner=MSGG:{\
'NEST' inner=MSGG:{'NEST' inner=MSGG:{'NEST' inner=MSGG:{'NEST' inner=MSGG:{'NEST' inner=MSGG:{\
'NEST' inner=LONG:16}}}}}}}}}}}}}}}";

/// No message here has a longer text, in bytes.
const LONGEST: usize = 1024;

/// The message of that name.
pub fn message(alloc: Global, name: &str) -> Result<Message, BenchFault> {
    match name {
        "ask" => message_of(alloc, ASK),
        "reply" => message_of(alloc, REPLY),
        "deep" => message_of(alloc, DEEP),
        "raw" => raw(alloc),
        _ => Err(BenchFault::Usage),
    }
}

/// The message that the text writes.
pub fn message_of(alloc: Global, text: &[u8]) -> Result<Message, BenchFault> {
    if text.len() > LONGEST {
        return Err(BenchFault::Stopped);
    }
    let words = split_words(alloc, text)?;
    Ok(read_message(alloc, words.as_slice())?)
}

/// What one round adds to the sum: the flat text's length, first byte and last byte, and the code and the
/// number of names of the message that was read.
fn round_sum(text: &[u8], read: &Message) -> u64 {
    let first = text.first().copied().unwrap_or(0);
    let last = text.last().copied().unwrap_or(0);
    (text.len() as u64)
        .wrapping_add(u64::from(first))
        .wrapping_add(u64::from(last))
        .wrapping_add(u64::from(read.what().0))
        .wrapping_add(u64::from(read.count_names()))
}

/// To flat text and back so many times, and the sum over all of it.
pub fn checksum(alloc: Global, message: &Message, rounds: u32) -> Result<u64, BenchFault> {
    let mut sum: u64 = 0;
    for _ in 0..rounds {
        let text = flatten(alloc, message)?;
        let read = unflatten(alloc, text.as_slice())?;
        sum = sum.wrapping_add(round_sum(text.as_slice(), &read));
    }
    Ok(sum)
}

/// The longest raw value, whose bytes count up to 250 and begin again.
fn longest_raw(alloc: Global) -> Result<Raw, BenchFault> {
    let mut bytes = Bytes::new(alloc);
    for i in 0..RAW_LIMIT {
        bytes.push((i % 251) as u8)?;
    }
    Ok(Raw::from_bytes(alloc, bytes.as_slice())?)
}

/// Three raw values of 1,024 bytes.
fn raw(alloc: Global) -> Result<Message, BenchFault> {
    let mut message = Message::new(alloc, Code(u32::from_be_bytes(*b"BLOB")));
    for _ in 0..3 {
        message.add(b"data", Value::Raw(longest_raw(alloc)?))?;
    }
    Ok(message)
}
