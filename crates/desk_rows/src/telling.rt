//! Words and numbers as they are told.

use ak_base::{Bytes, NoMemory, print_uint};
use ak_message::{Address, Target};

/// A blank and the word.
pub(crate) fn word(out: &mut Bytes, word: &[u8]) -> Result<(), NoMemory> {
    out.push(b' ')?;
    out.extend(word)
}

/// A blank and the number.
pub(crate) fn number(out: &mut Bytes, number: u64) -> Result<(), NoMemory> {
    out.push(b' ')?;
    print_uint(number, out)
}

/// The number.
pub(crate) fn put_number(out: &mut Bytes, number: u64) -> Result<(), NoMemory> {
    print_uint(number, out)
}

/// A looper, a point, and the target.
pub(crate) fn put_address(out: &mut Bytes, address: &Address) -> Result<(), NoMemory> {
    print_uint(u64::from(address.looper), out)?;
    out.push(b'.')?;
    match address.target {
        Target::Preferred => out.push(b'p'),
        Target::Token(token) => print_uint(token, out),
    }
}
