//! The public calls of what threads share, made as a program above would make them: turns, ports, replies, posts and
//! asks, and the roster. There is nothing here but tests. They stand apart from those crates, since a crate with tests
//! of its own is proved twice.
#![tactic(auto)]

#[cfg(test)]
mod askers;
#[cfg(test)]
mod compare;
#[cfg(test)]
mod ports;
#[cfg(test)]
mod replies;
#[cfg(test)]
mod reply_text;
#[cfg(test)]
mod rosters;
#[cfg(test)]
mod sending;
#[cfg(test)]
mod turns;
