//! Prints what was done to a port.

ghost use Rattle.std.specs.Prelude.{◌≡◌, [], ◌∷◌, ◌++◌, codes, OnOk};
ghost use Rattle.std.specs.Fmt.{decimal};
ghost use Rattle.ak_input.specs.MessageText.{address_text, target_text};
ghost use Rattle.ak_journal.specs.Parts.{behind_blanks, duty_text, mark_text};
ghost use Rattle.ak_journal.specs.PortLine.{item_words, port_words};
ghost use Rattle.ak_journal.specs.Legible.{Fits32, Fits64, FitsDuty, IsLegibleItem, IsLegiblePort};
ghost use Rattle.ak_message.specs.Whole.{FitsAddress, FitsTarget};

use super::parts::{put_counted, put_flat, put_keyed, put_number, put_word};
use ak_base::{Bytes, NoMemory, print_uint};
use ak_flatten::{Duty, Item};
use ak_message::{Address, Target};
use ak_port::PortEvent;
use std::alloc::Global;

pub(crate) fn put_port(alloc: Global, out: &mut Bytes, event: &PortEvent) -> Result<(), NoMemory>
    ensures line { OnOk result (out.new ≡ out.old ++ behind_blanks (port_words event.now)) }
    ensures typed { OnOk result (IsLegiblePort event.now) }
{
    match event {
        PortEvent::Made { capacity, life } => put_made(out, *capacity, *life),
        PortEvent::Written { position, item } => put_written(alloc, out, *position, item),
        PortEvent::Full => put_word(out, b"full"),
        PortEvent::Refused => put_word(out, b"refused"),
        PortEvent::Spent => put_word(out, b"spent"),
        PortEvent::Took(count) => put_counted(out, b"took", u64::from(*count)),
        PortEvent::Rest(count) => put_counted(out, b"rest", u64::from(*count)),
        PortEvent::Shut => put_word(out, b"shut"),
    }
}

fn put_made(out: &mut Bytes, capacity: u32, life: u32) -> Result<(), NoMemory>
    ensures line { OnOk result (out.new ≡ out.old ++ behind_blanks (codes "made" ∷ decimal capacity ∷ decimal life ∷ [])) }
    ensures typed { OnOk result (Fits32 capacity × Fits32 life) }
{
    put_counted(out, b"made", u64::from(capacity))?;
    put_number(out, u64::from(life))
}

fn put_written(alloc: Global, out: &mut Bytes, position: u64, item: &Item) -> Result<(), NoMemory>
    ensures line { OnOk result (out.new ≡ out.old ++ behind_blanks (codes "written" ∷ decimal position ∷ item_words item.now)) }
    ensures typed { OnOk result (Fits64 position × IsLegibleItem item.now) }
{
    put_counted(out, b"written", position)?;
    put_item(alloc, out, item)
}

// Its target, the sender's team, its mark, the duty, how much is popped, and the flat text.
fn put_item(alloc: Global, out: &mut Bytes, item: &Item) -> Result<(), NoMemory>
    ensures line { OnOk result (out.new ≡ out.old ++ behind_blanks (item_words item.now)) }
    ensures typed { OnOk result (IsLegibleItem item.now) }
{
    put_target(out, item.target())?;
    put_number(out, u64::from(item.team()))?;
    put_mark(out, item.dropped())?;
    put_duty(out, item.duty())?;
    put_number(out, u64::from(item.popped()))?;
    put_flat(alloc, out, b"", item.flat())
}

fn put_target(out: &mut Bytes, target: Target) -> Result<(), NoMemory>
    ensures line { OnOk result (out.new ≡ out.old ++ 32 ∷ target_text target) }
    ensures typed { OnOk result (FitsTarget target) }
{
    match target {
        Target::Preferred => put_word(out, b"p"),
        Target::Token(token) => put_number(out, token),
    }
}

fn put_mark(out: &mut Bytes, dropped: bool) -> Result<(), NoMemory>
    ensures { OnOk result (out.new ≡ out.old ++ 32 ∷ mark_text dropped) }
{
    if dropped {
        put_word(out, b"drop")
    } else {
        put_word(out, b"prog")
    }
}

fn put_duty(out: &mut Bytes, duty: Duty) -> Result<(), NoMemory>
    ensures line { OnOk result (out.new ≡ out.old ++ 32 ∷ duty_text duty) }
    ensures typed { OnOk result (FitsDuty duty) }
{
    match duty {
        Duty::None => put_word(out, b"none"),
        Duty::Slot(slot) => put_keyed(out, b"slot:", slot),
        Duty::Back(address) => put_back(out, address),
    }
}

// The address to which the reply goes: the looper, a point, and its target.
fn put_back(out: &mut Bytes, address: Address) -> Result<(), NoMemory>
    ensures line { OnOk result (out.new ≡ out.old ++ 32 ∷ (codes "back:" ++ address_text address)) }
    ensures typed { OnOk result (FitsAddress address) }
{
    put_keyed(out, b"back:", u64::from(address.looper))?;
    out.push(b'.')?;
    match address.target {
        Target::Preferred => out.push(b'p'),
        Target::Token(token) => print_uint(token, out),
    }
}
