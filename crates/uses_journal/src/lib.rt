//! The lines of a journal, printed and read by public calls alone: a line for each kind of entry comes back, and a line
//! with one byte changed is another entry's, or none's. There is nothing here but tests. They stand apart from
//! `ak_journal`, since a crate with tests of its own is proved twice.
#![tactic(auto)]

#[cfg(test)]
mod back;
#[cfg(test)]
mod bytes;
#[cfg(test)]
mod entries;
#[cfg(test)]
mod kinds;
