//! Prints the words that are the same at several objects, each behind a blank.

ghost use Rattle.std.specs.Prelude.{◌≡◌, [], ◌∷◌, ◌++◌, OnOk};
ghost use Rattle.std.specs.Fmt.{decimal};
ghost use Rattle.ak_journal.specs.Parts.{behind_blanks, flat_text, thread_text, token_text, word_text};
ghost use Rattle.ak_flatten.specs.Laws.{AreBytes};
ghost use Rattle.ak_journal.specs.Legible.{Fits32, FitsToken};

use ak_base::{AppWord, Bytes, NoMemory, ThreadId, print_uint};
use std::alloc::Global;

pub(crate) fn put_word(out: &mut Bytes, word: &[u8]) -> Result<(), NoMemory>
    ensures { OnOk result (out.new ≡ out.old ++ 32 ∷ word.now) }
{
    out.push(b' ')?;
    out.extend(word)
}

pub(crate) fn put_number(out: &mut Bytes, number: u64) -> Result<(), NoMemory>
    ensures { OnOk result (out.new ≡ out.old ++ 32 ∷ decimal number) }
{
    out.push(b' ')?;
    print_uint(number, out)
}

/// A word, and a number behind it.
pub(crate) fn put_counted(out: &mut Bytes, word: &[u8], number: u64) -> Result<(), NoMemory>
    ensures { OnOk result (out.new ≡ out.old ++ behind_blanks (word.now ∷ decimal number ∷ [])) }
{
    put_word(out, word)?;
    put_number(out, number)
}

/// One word of a key and a number.
pub(crate) fn put_keyed(out: &mut Bytes, key: &[u8], number: u64) -> Result<(), NoMemory>
    ensures { OnOk result (out.new ≡ out.old ++ 32 ∷ (key.now ++ decimal number)) }
{
    put_word(out, key)?;
    print_uint(number, out)
}

/// `m`, `s` and the number of a session, or `l` and the number of a looper.
pub(crate) fn put_thread(out: &mut Bytes, thread: ThreadId) -> Result<(), NoMemory>
    ensures line { OnOk result (out.new ≡ out.old ++ 32 ∷ thread_text thread.0) }
    ensures typed { OnOk result (Fits32 thread.0) }
{
    let first = ThreadId::FIRST_LOOPER.0;
    if thread.0 == ThreadId::MAIN.0 {
        put_word(out, b"m")
    } else if thread.0 < first {
        put_keyed(out, b"s", u64::from(thread.0))
    } else {
        put_keyed(out, b"l", u64::from(thread.0 - first))
    }
}

/// How an application was named.
pub(crate) fn put_app_word(out: &mut Bytes, word: &AppWord) -> Result<(), NoMemory>
    ensures { OnOk result (out.new ≡ out.old ++ 32 ∷ word_text word.now) }
{
    match word {
        AppWord::Path(path) => put_word(out, path.as_bytes()),
        AppWord::Signature(signature) => put_word(out, signature.as_bytes()),
        AppWord::Name(name) => put_word(out, name.as_bytes()),
        AppWord::Team(team) => put_number(out, u64::from(*team)),
    }
}

/// A flat text behind a key, in one word.
pub(crate) fn put_flat(
    alloc: Global,
    out: &mut Bytes,
    key: &[u8],
    flat: &[u8],
) -> Result<(), NoMemory>
    ensures line { OnOk result (out.new ≡ out.old ++ 32 ∷ (key.now ++ flat_text flat.now)) }
    ensures typed { OnOk result (AreBytes flat.now) }
{
    let digits = hex::encode(alloc, flat)?;
    put_word(out, key)?;
    out.extend(digits.as_bytes())
}

/// A token, or `none`.
pub(crate) fn put_token(out: &mut Bytes, token: Option<u64>) -> Result<(), NoMemory>
    ensures line { OnOk result (out.new ≡ out.old ++ 32 ∷ token_text token) }
    ensures typed { OnOk result (FitsToken token) }
{
    match token {
        Some(token) => put_number(out, token),
        None => put_word(out, b"none"),
    }
}
