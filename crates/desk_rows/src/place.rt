//! The line of a description that says which looper's desk it is.

use crate::words::Words;
use ak_input::Word;

/// The looper's name, its team, and the number of its application's first looper.
#[derive(Clone, Copy)]
pub(crate) struct Place<'a> {
    pub name: &'a [u8],
    pub team: u32,
    pub first: u32,
}

/// Of `desk NAME team T first F`.
pub(crate) fn place_of(words: &[Word]) -> Option<Place<'_>> {
    let mut words = Words::new(words);
    if !words.has(b"desk") {
        return None;
    }
    let name = words.next()?;
    let team = after(&mut words, b"team")?;
    let first = after(&mut words, b"first")?;
    if !words.are_over() {
        return None;
    }
    Some(Place { name, team, first })
}

// The number behind that word.
fn after(words: &mut Words, key: &[u8]) -> Option<u32> {
    if !words.has(key) {
        return None;
    }
    words.short()
}
