//! Reads the further words of each line. What passes a limit is read to its end and left out, so that a word
//! that is not of the line's form is found before a limit is.

pub(crate) mod actions;
pub(crate) mod dest;
pub(crate) mod filter;
pub(crate) mod heads;
pub(crate) mod property;
pub(crate) mod template;
pub(crate) mod values;
