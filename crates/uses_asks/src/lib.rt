//! A message's way there and back, by public calls alone: an ask opens a slot and writes to a port; the looper's
//! thread takes the item, dispatches it at its desk, and fills the slot with the reply. There is nothing here but
//! tests, and what they conclude: that the ask has one reply, which is the desk's for its item.
#![tactic(auto)]

#[cfg(test)]
mod laws;
#[cfg(test)]
mod scene;
#[cfg(test)]
mod serving;
#[cfg(test)]
mod talking;
