//! Runs in threads, as a program above would have them: applications are launched, messages posted and asked, handlers
//! edited, and then the list of each object is looked at. Whole scripts are read and carried out too, with blocks of sessions. There is nothing
//! here but tests.
#![tactic(auto)]

#[cfg(test)]
mod accounts;
#[cfg(test)]
mod asks;
#[cfg(test)]
mod blocks;
#[cfg(test)]
mod compare;
#[cfg(test)]
mod differences;
#[cfg(test)]
mod doors;
#[cfg(test)]
mod forwards;
#[cfg(test)]
mod gated;
#[cfg(test)]
mod gates;
#[cfg(test)]
mod launches;
#[cfg(test)]
mod lists;
#[cfg(test)]
mod many;
#[cfg(test)]
mod posts;
#[cfg(test)]
mod quits;
#[cfg(test)]
mod refused;
#[cfg(test)]
mod scene;
#[cfg(test)]
mod scripts;
#[cfg(test)]
mod stage;
#[cfg(test)]
mod telling;
#[cfg(test)]
mod waits;
#[cfg(test)]
mod ways;
