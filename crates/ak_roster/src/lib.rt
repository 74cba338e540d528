//! Who runs, under which name and mode. The book of the roster has one history of launches, look-ups, ends of
//! teams and doors that were given. Each answer is the one that the machine of `specs/Machine.antt` gives at
//! its entry's place. The book also keeps a door for each started looper, and gives its parts to the threads
//! that ask. Nothing here waits; threads share the book behind a turn lock.
#![tactic(auto)]

mod answer;
mod book;
mod calls;
mod doors;
mod entry;
mod fit;
mod grant;
mod head;
mod launch;
mod laws;
mod room;
mod team;

pub use ak_base::LOOPER_LIMIT;
pub use answer::{Decision, FindAnswer, Launched};
pub use book::RosterBook;
pub use entry::{EntryWithObjects, FindOutcome, LaunchOutcome, RosterEntry, RosterEvent};
pub use fit::word_fits;
pub use grant::Grant;
pub use head::{AppHead, Mode};
pub use laws::{
    answers_follow, holders_are_told, last_parts_are_so, limits_hold, loopers_are_of_their_teams,
    modes_hold, no_team_returns, seats_tell_strangers, the_least_is_found,
};
pub use team::{APP_LIMIT, Running, TEAM_LIMIT};
