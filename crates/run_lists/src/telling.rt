use ak_base::{Bytes, NoMemory, print_uint};

/// What every call that tells something answers.
pub type Told = Result<(), NoMemory>;

/// A blank, the word, a blank and the number.
pub fn tell(out: &mut Bytes, word: &[u8], number: u64) -> Told {
    out.push(b' ')?;
    out.extend(word)?;
    out.push(b' ')?;
    print_uint(number, out)
}

/// The number of that looper's thread.
pub(crate) fn thread_of(looper: u32) -> u32 {
    looper.wrapping_add(10_000)
}
