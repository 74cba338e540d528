ghost use Rattle.std.specs.Prelude.{◌≡◌};
ghost use Rattle.ak_describe.specs.Words.{texts};
ghost use Rattle.ak_script.specs.Pass as reads;

use ak_base::RefusalKind;
use ak_describe::{behind, ends};
use ak_input::Word;

/// What is wrong with the words of the first line, which are `kit 1`.
pub(crate) fn front_fault(words: &[Word]) -> Option<RefusalKind>
    ensures { result ≡ reads.front_fault (texts words.now) }
{
    match behind(words, b"kit") {
        Some(words) => version_fault(words),
        None => Some(RefusalKind::UnknownLine),
    }
}

fn version_fault(words: &[Word]) -> Option<RefusalKind>
    ensures { result ≡ reads.version_fault (texts words.now) }
{
    match behind(words, b"1") {
        Some(words) => more_fault(words),
        None => Some(RefusalKind::BadValue),
    }
}

/// Nothing stands behind the words before these.
pub(crate) fn more_fault(words: &[Word]) -> Option<RefusalKind>
    ensures { result ≡ reads.more_fault (texts words.now) }
{
    if ends(words) {
        None
    } else {
        Some(RefusalKind::BadValue)
    }
}
