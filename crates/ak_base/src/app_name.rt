//! What an application is named by: the forms of a path and of a signature, and the last part of a path. (The
//! Be Book, The Application Kit, BRoster.)

ghost use Rattle.std.specs.Prelude.{◌≡◌};
ghost use Rattle.ak_base.specs.AppName as names;

use crate::word::is_word;

// What a signature begins with.
const SIGNATURE_FRONT: &[u8; 12] = b"application/";

/// Whether the bytes are a path: a word that begins with a slash and does not end with one.
pub fn is_path(word: &[u8]) -> bool
    ensures { result ≡ names.is_path word.now }
{
    is_word(word) && word.starts_with(b"/") && !word.ends_with(b"/")
}

/// Whether the bytes are a signature: a word that begins with `application/` and goes on.
pub fn is_signature(word: &[u8]) -> bool
    ensures { result ≡ names.is_signature word.now }
{
    is_word(word) && word.starts_with(SIGNATURE_FRONT) && word.len() > SIGNATURE_FRONT.len()
}

/// What stands after the last slash of a path, or all of it where it has none.
pub fn last_part(path: &[u8]) -> &[u8]
    ensures { result.now ≡ names.last_part path.now }
{
    let mut part = path;
    let mut rest = path;
    while let Some((byte, after)) = rest.split_first() {
        if *byte == b'/' {
            part = after;
        }
        rest = after;
    }
    part
}
