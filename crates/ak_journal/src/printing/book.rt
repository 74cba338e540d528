//! Prints what was done to a slot of the reply book.

ghost use Rattle.std.specs.Prelude.{◌≡◌, [], ◌∷◌, ◌++◌, codes, OnOk};
ghost use Rattle.std.specs.Fmt.{decimal};
ghost use Rattle.ak_journal.specs.BookLine.{book_words};
ghost use Rattle.ak_journal.specs.Parts.{behind_blanks, flat_text};
ghost use Rattle.ak_flatten.specs.Laws.{AreBytes};
ghost use Rattle.ak_journal.specs.Legible.{Fits64};
ghost use Rattle.ak_journal.specs.Typed.{IsTypedBook};

use super::parts::{put_counted, put_flat};
use ak_base::{Bytes, NoMemory};
use ak_port::ReplyEvent;
use std::alloc::Global;

pub(crate) fn put_book(alloc: Global, out: &mut Bytes, event: &ReplyEvent) -> Result<(), NoMemory>
    ensures line { OnOk result (out.new ≡ out.old ++ behind_blanks (book_words event.now)) }
    ensures typed { OnOk result (IsTypedBook event.now) }
{
    match event {
        ReplyEvent::Opened(slot) => put_counted(out, b"opened", *slot),
        ReplyEvent::Filled(slot, flat) => put_filled(alloc, out, *slot, flat),
        ReplyEvent::Cancelled(slot) => put_counted(out, b"cancelled", *slot),
        ReplyEvent::Taken(slot) => put_counted(out, b"taken", *slot),
    }
}

fn put_filled(alloc: Global, out: &mut Bytes, slot: u64, flat: &Bytes) -> Result<(), NoMemory>
    ensures line { OnOk result (out.new ≡ out.old ++ behind_blanks (codes "filled" ∷ decimal slot ∷ flat_text flat.now ∷ [])) }
    ensures typed { OnOk result (Fits64 slot × AreBytes flat.now) }
{
    put_counted(out, b"filled", slot)?;
    put_flat(alloc, out, b"", flat.as_slice())
}
