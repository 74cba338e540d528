//! A team before its threads start. In one turn at the roster main launches an application: it makes a port and a desk for
//! each looper, greets the first one, parts its doors, and enters the launch with the doors that the roster keeps. From
//! each new looper main then makes the job with which the looper's thread starts. Where memory runs out, a launch makes no
//! entry, and main's time is as it was. A send to a looper waits for room; other calls wait for turns.
//! This crate starts no thread.
#![tactic(auto)]

mod doors;
mod greeting;
mod launching;
mod new_looper;
mod new_team;
mod opening;

pub use greeting::send;
pub use launching::{Launch, StartedTeam, Team, count_by_main, launch_at_turn};
pub use new_looper::NewLooper;
pub use new_team::NewTeam;
