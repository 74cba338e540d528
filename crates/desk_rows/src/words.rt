//! Reads the words of a line from the first one on.

use ak_base::read_int;
use ak_input::Word;
use ak_message::{Address, Target};

/// The words that are left.
#[derive(Clone, Copy)]
pub(crate) struct Words<'a> {
    pub rest: &'a [Word],
}

impl<'a> Words<'a> {
    pub(crate) fn new(rest: &'a [Word]) -> Words<'a> {
        Words { rest }
    }

    /// Takes the next word, if there is one.
    pub(crate) fn next(&mut self) -> Option<&'a [u8]> {
        let (first, rest) = self.rest.split_first()?;
        self.rest = rest;
        Some(first.bytes.as_slice())
    }

    /// Takes the next word where it is this one, and says whether it was.
    pub(crate) fn has(&mut self, key: &[u8]) -> bool {
        match self.rest.split_first() {
            Some((first, rest)) if first.bytes.as_slice() == key => {
                self.rest = rest;
                true
            }
            _ => false,
        }
    }

    /// Whether no word is left.
    pub(crate) fn are_over(&self) -> bool {
        self.rest.is_empty()
    }

    /// Takes the next word, which has to be a number.
    pub(crate) fn long(&mut self) -> Option<u64> {
        number(self.next()?)
    }

    /// The same of a number of 32 bits.
    pub(crate) fn short(&mut self) -> Option<u32> {
        short(self.next()?)
    }

    /// Takes the next word, which has to be a looper and a target with a point between them.
    pub(crate) fn address(&mut self) -> Option<Address> {
        let word = self.next()?;
        let point = word.iter().position(|b| *b == b'.')?;
        let (looper, target) = word.split_at_checked(point)?;
        Some(Address {
            looper: short(looper)?,
            target: target_of(target)?,
        })
    }
}

fn number(word: &[u8]) -> Option<u64> {
    u64::try_from(read_int(word)?).ok()
}

fn short(word: &[u8]) -> Option<u32> {
    u32::try_from(read_int(word)?).ok()
}

// A point, and then `p` or a token.
fn target_of(word: &[u8]) -> Option<Target> {
    let target = word.strip_prefix(b".".as_slice())?;
    if target == b"p".as_slice() {
        return Some(Target::Preferred);
    }
    Some(Target::Token(number(target)?))
}
