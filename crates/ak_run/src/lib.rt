//! A run as main carries it out: it launches applications, starts a thread for each of their loopers, looks teams up,
//! sends and edits, opens and closes sessions, and ends what runs. Each call tells, step by step, what main did. Once all threads are joined it
//! keeps the history of each object.
#![tactic(auto)]

mod answers;
mod closing;
mod ending;
mod finding;
mod launch;
mod run;
mod sending;
mod sessions;
mod slots;
mod starting;
mod team;

pub use ak_session::{Edited, Found};
pub use answers::{Ended, LaunchAnswer};
pub use run::Run;
