//! Splits a text at the blanks or the commas that stand where nothing is open.

ghost use Rattle.std.specs.Prelude.{◌≡◌, ◌<◌, length, map, IfSome, option_map};
ghost use Rattle.ak_input.specs.Pieces as reads;
ghost use Rattle.ak_input.specs.ReadSeen.{Gives};

use crate::marks::{Marks, is_blank};
use crate::parse_fault::ParseFault;
use std::alloc::Global;

/// What parts the pieces.
#[derive(Clone, Copy, Debug, PartialEq, Eq)]
pub(crate) enum Separator {
    Blank,
    Comma,
}

impl Separator {
    fn separates(self, b: u8) -> bool
        ensures { result ≡ reads.separates self b }
    {
        match self {
            Separator::Blank => is_blank(b),
            Separator::Comma => b == b',',
        }
    }
}

/// The pieces, one or more, which may be empty. Quotes, braces and brackets that are not closed, and an
/// escape that is none, are a bad value.
pub(crate) fn pieces_of(alloc: Global, by: Separator, text: &[u8]) -> Result<Vec<&[u8]>, ParseFault>
    ensures { Gives (λ pieces. map (λ piece. piece.now) pieces.items) result (reads.pieces_of by text.now) }
{
    let mut pieces = Vec::new(alloc);
    let mut from = 0;
    let mut marks = Marks::start();
    for (i, b) in text.iter().enumerate() {
        if marks.is_outside() && by.separates(*b) {
            pieces.push(&text[from..i])?;
            from = i + 1;
            marks = Marks::start();
        } else {
            let Some(next) = marks.step(*b) else {
                return Err(ParseFault::BadValue);
            };
            marks = next;
        }
    }
    if !marks.is_outside() {
        return Err(ParseFault::BadValue);
    }
    pieces.push(&text[from..])?;
    Ok(pieces)
}

/// What stands between a brace that opens the text and one that ends it.
pub(crate) fn braced(text: &[u8]) -> Option<&[u8]>
    ensures body { option_map (λ body. body.now) result ≡ reads.braced text.now }
    ensures len { IfSome result (λ body. length body.now < length text.now) }
{
    if text.len() < 2 || text[0] != b'{' || text[text.len() - 1] != b'}' {
        return None;
    }
    Some(&text[1..text.len() - 1])
}
