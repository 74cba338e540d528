//! Tests of rules by public calls alone, of what no row of a program over data can say: states and plans
//! that no description gives, lists at their limits, want of memory at a desk and at an edit, and threads that share
//! a desk.
//! Nothing here is for use.
#![tactic(auto)]

#[cfg(test)]
mod actions;
#[cfg(test)]
mod compare;
#[cfg(test)]
mod desk;
#[cfg(test)]
mod lists;
#[cfg(test)]
mod parts;
#[cfg(test)]
mod plans;
#[cfg(test)]
mod told;
