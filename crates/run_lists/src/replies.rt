//! The texts that filled the slots of the reply book.

use crate::stop::Stop;
use ak_base::{Code, NoMemory};
use ak_flatten::{Duty, Item, flatten};
use ak_message::Message;
use ak_port::{ReplyBook, ReplyEvent};
use ak_turn::Book;
use std::alloc::Global;

/// The book, and for each slot the place of the entry that filled it.
#[derive(Drop)]
pub(crate) struct Fills<'a> {
    book: &'a ReplyBook,
    places: Vec<Option<u64>>,
}

/// Reads the book once.
pub(crate) fn read_fills<'a>(alloc: Global, book: &'a ReplyBook) -> Result<Fills<'a>, NoMemory> {
    let mut places = Vec::new(alloc);
    for _ in 0..book.slots() {
        places.push(None)?;
    }
    for place in 0..book.len() {
        if let Some(entry) = book.entry(place)? {
            note(&mut places, &entry.event, place);
        }
    }
    Ok(Fills { book, places })
}

fn note(places: &mut Vec<Option<u64>>, event: &ReplyEvent, at: u64) {
    if let ReplyEvent::Filled(slot, _) = event {
        if let Some(place) = places.get_mut(*slot as usize) {
            *place = Some(at);
        }
    }
}

impl Fills<'_> {
    // Whether that thread filled the slot with that text.
    fn has(&self, slot: u64, thread: u32, text: &[u8]) -> Result<bool, NoMemory> {
        let Some(Some(place)) = self.places.get(slot as usize) else {
            return Ok(false);
        };
        match self.book.entry(*place)? {
            Some(entry) => Ok(entry.by.0 == thread && fills_with(&entry.event, text)),
            None => Ok(false),
        }
    }

    /// Whether the thread filled the slot of the one that waits for this item, if one does, with that reply.
    pub(crate) fn pay(
        &self,
        alloc: Global,
        thread: u32,
        item: &Item,
        reply: &Message,
    ) -> Result<bool, Stop> {
        let Duty::Slot(slot) = item.duty() else {
            return Ok(true);
        };
        let text = flatten(alloc, reply)?;
        Ok(self.has(slot, thread, text.as_slice())?)
    }

    /// The same of an item that was left, to which there is no reply.
    pub(crate) fn pay_nothing(
        &self,
        alloc: Global,
        thread: u32,
        item: &Item,
    ) -> Result<bool, Stop> {
        self.pay(alloc, thread, item, &Message::new(alloc, Code::NO_REPLY))
    }
}

fn fills_with(event: &ReplyEvent, text: &[u8]) -> bool {
    match event {
        ReplyEvent::Filled(_, flat) => flat.as_slice() == text,
        ReplyEvent::Opened(_) | ReplyEvent::Cancelled(_) | ReplyEvent::Taken(_) => false,
    }
}
