// Items: what a port holds of a message.

use crate::compare::same;
use crate::plain::{Field, Plain, message};
use ak_base::{Bytes, Code};
use ak_flatten::{Duty, FlatFault, FlatKind, FlattenFault, Item, ItemFault, Taken, flatten};
use ak_message::{Address, Message, Target};
use std::alloc::Global;
use std::process::Abort;
use std::test::Fail;

const SENDER: Address = Address {
    looper: 4,
    target: Target::Token(8),
};

// PGET with two specifiers, so many of them popped.
fn question(alloc: Global, popped: u32) -> Result<Message, Fail> {
    let specifier: Field = (b"specifiers", Plain::Bare(Code(1)));
    let mut message = message(alloc, Code::GET, &[specifier; 2])?;
    if popped <= message.specifiers() {
        message.set_popped(popped);
    }
    Ok(message)
}

// The parts of an item beside its flat text: for which handler it is, the team, whether it was dropped, what is owed,
// and how many specifiers are popped.
type Outline = (Target, u32, bool, Duty, u32);

fn parts(item: &Item) -> Outline {
    (
        item.target(),
        item.team(),
        item.dropped(),
        item.duty(),
        item.popped(),
    )
}

// An item for a handler of the looper, and one of a text that may be none.
const PARTS: Outline = (Target::Token(5), 3, true, Duty::Back(SENDER), 1);

const OTHER: Outline = (Target::Preferred, 0, false, Duty::None, 0);

fn item(alloc: Global, parts: Outline, message: &Message) -> Result<Item, FlattenFault> {
    let (target, team, dropped, duty, _) = parts;
    Item::new(alloc, target, team, dropped, duty, message)
}

fn from_flat(
    alloc: Global,
    parts: Outline,
    flat: &[u8],
    popped: u32,
) -> Result<Result<Item, ItemFault>, Fail> {
    let (target, team, dropped, duty, _) = parts;
    let mut bytes = Bytes::new(alloc);
    bytes.extend(flat)?;
    Ok(Item::from_flat(alloc, target, team, dropped, duty, popped, bytes))
}

// The item and a copy have each part.
fn has_each_part(rt: &impl Abort, alloc: Global, item: &Item, flat: &[u8]) -> Result<(), Fail> {
    let copy = item.try_clone(alloc)?;
    same(rt, "an item", (parts(item), item.flat()), (PARTS, flat));
    same(rt, "a copy", (parts(&copy), copy.flat()), (PARTS, flat));
    Ok(())
}

// Why bytes are no item of which so many specifiers are popped.
fn fault_of(alloc: Global, flat: &[u8], popped: u32) -> Result<Option<ItemFault>, Fail> {
    Ok(from_flat(alloc, OTHER, flat, popped)?.err())
}

// Why a message with four texts of 1,024 bytes is no item.
fn fault_of_long(alloc: Global) -> Result<Option<FlattenFault>, Fail> {
    let text: Field = (b"t", Plain::Words(&[b'x'; 1024]));
    let message = message(alloc, Code(1), &[text; 4])?;
    Ok(item(alloc, OTHER, &message).err())
}

// The items of the question are made of it and of its flat text; other bytes are refused.
fn items_are_made(rt: &impl Abort, alloc: Global) -> Result<(), Fail> {
    let message = question(alloc, 1)?;
    let flat = flatten(alloc, &message)?;
    has_each_part(rt, alloc, &item(alloc, PARTS, &message)?, flat.as_slice())?;
    let again = from_flat(alloc, PARTS, flat.as_slice(), 1)??;
    has_each_part(rt, alloc, &again, flat.as_slice())?;
    let told = [
        fault_of(alloc, flat.as_slice(), 2)?,
        fault_of(alloc, flat.as_slice(), 3)?,
        fault_of(alloc, b"AKM2PGET\0\0\0\0", 0)?,
        fault_of(alloc, b"AKM2PGET\0\0\0\0", 1)?,
    ];
    let bad = Some(ItemFault::Bad(FlatFault {
        place: 0,
        kind: FlatKind::Magic,
    }));
    same(
        rt,
        "2, 3, magic",
        told,
        [None, Some(ItemFault::Popped), bad, bad],
    );
    Ok(())
}

// The code of an item's message, how many names and specifiers it has, and how many of these are popped.
fn message_told(alloc: Global, popped: u32) -> Result<(Code, u32, u32, u32), Fail> {
    let item = item(alloc, PARTS, &question(alloc, popped)?)?;
    let message = item.message(alloc)?;
    Ok((
        message.what(),
        message.count_names(),
        message.specifiers(),
        message.popped(),
    ))
}

// The item, forwarded with two specifiers popped.
fn forwarded(alloc: Global, item: Item) -> Result<Item, Fail> {
    let message = item.message(alloc)?;
    if item.popped() > 2 || message.specifiers() < 2 {
        return Err("more are popped, or fewer are there".into());
    }
    Ok(item.forwarded(2))
}

// The position of an item that was taken, its parts where it is forwarded, and how many specifiers of its message are
// popped.
fn told_of_forwarded(alloc: Global) -> Result<(u64, Outline, u32), Fail> {
    let taken = Taken {
        position: 7,
        item: item(alloc, PARTS, &question(alloc, 1)?)?.with_duty(Duty::Slot(6)),
    };
    let Taken { position, item } = taken;
    let forwarded = forwarded(alloc, item)?;
    let popped = forwarded.message(alloc)?.popped();
    Ok((position, parts(&forwarded), popped))
}

#[test]
fn items_are_made_and_forwarded(rt: HostRuntime) -> Result<(), Fail> {
    let alloc = rt.alloc();
    items_are_made(&rt, alloc)?;
    for popped in 0..3 {
        let told = message_told(alloc, popped)?;
        same(&rt, popped, told, (Code::GET, 1, 2, popped));
    }
    let long = fault_of_long(alloc)?;
    same(&rt, "long", long, Some(FlattenFault::TooLong));
    // forwarded it is for the looper
    let parts = (Target::Token(0), 3, true, Duty::Slot(6), 2);
    same(&rt, "forwarded", told_of_forwarded(alloc)?, (7, parts, 2));
    Ok(())
}
