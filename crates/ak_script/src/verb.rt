ghost use Rattle.std.specs.Prelude.{◌≡◌};
ghost use Rattle.ak_script.specs.Forms as reads;

/// The first word of a line that says a statement.
#[derive(Clone, Copy, Debug, PartialEq, Eq)]
pub(crate) enum Verb {
    Launch,
    Hey,
    Post,
    Lock,
}

pub(crate) fn verb_of(word: &[u8]) -> Option<Verb>
    ensures { result ≡ reads.verb_of word.now }
{
    if word == b"launch".as_slice() {
        Some(Verb::Launch)
    } else if word == b"hey".as_slice() {
        Some(Verb::Hey)
    } else if word == b"post".as_slice() {
        Some(Verb::Post)
    } else if word == b"lock".as_slice() {
        Some(Verb::Lock)
    } else {
        None
    }
}
