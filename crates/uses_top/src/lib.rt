//! The public calls of the upper crates, made as a program above would make them: routes among handlers, the top call,
//! and what the rows of `describe_rows` cannot say of descriptions. There is nothing here but tests. They stand apart
//! from those crates, since a crate with tests of its own is proved twice.
#![tactic(auto)]

#[cfg(test)]
mod compare;
#[cfg(test)]
mod descriptions;
#[cfg(test)]
mod routes;
#[cfg(test)]
mod runs;
