//! The public calls of the lower crates, made as a program above would make them: texts and codes, sources and sinks,
//! starts of threads, messages, their flat texts, and of values, filters, handlers, specifiers, property tables,
//! elements and hey lines what no row of a program over data can say. There is nothing here but tests. They stand apart
//! from those crates, since a crate with tests of its own is proved twice.
#![tactic(auto)]

#[cfg(test)]
mod base;
#[cfg(test)]
mod compare;
#[cfg(test)]
mod cut_texts;
#[cfg(test)]
mod elements;
#[cfg(test)]
mod filters;
#[cfg(test)]
mod flat_texts;
#[cfg(test)]
mod handlers;
#[cfg(test)]
mod hey_lines;
#[cfg(test)]
mod items;
#[cfg(test)]
mod kinds;
#[cfg(test)]
mod message_texts;
#[cfg(test)]
mod messages;
#[cfg(test)]
mod outside;
#[cfg(test)]
mod plain;
#[cfg(test)]
mod printed;
#[cfg(test)]
mod properties;
#[cfg(test)]
mod specifiers;
#[cfg(test)]
mod starts;
#[cfg(test)]
mod words;
