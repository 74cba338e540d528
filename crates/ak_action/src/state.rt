ghost use Rattle.std.specs.Prelude.{◌≡◌, ◌+◌, ◌<◌, ◌≤◌, length, IfSome};
ghost use Rattle.std.specs.List.{position};
ghost use Rattle.std.specs.Str.{bytes_eq};
ghost use Rattle.ak_base.specs.Limits.{app_looper_limit, looper_limit};

use crate::row::DeskRow;
use ak_base::{Items, Text};
use ak_filter::FilterList;
use ak_handler::HandlerSet;

/// What messages and edits change of a looper, and what they meet there. The numbers of its application's
/// loopers are below 32.
#[derive(Drop)]
pub struct DeskState {
    /// Its number in the run.
    pub looper: u32,
    /// Its team.
    pub team: u32,
    /// The number of its team's first looper.
    pub first: u32,
    /// The names of its application's loopers in their order, at most 8. The one at place `i` has the number
    /// `first + i`.
    pub names: Items<Text>,
    /// Whether it refuses to quit.
    pub quit_refused: bool,
    /// Its handlers, itself first, with what each holds.
    pub handlers: HandlerSet<DeskRow>,
    /// Its common filters.
    pub common: FilterList,
    // The numbers of its application's loopers are below 32.
    ghost numbers: { first + length names ≤ looper_limit },
    // Of an application there are at most 8.
    ghost some_loopers: { length names ≤ app_looper_limit },
}

impl DeskState {
    ghost use Rattle.ak_action.specs.State.{looper_named};

    /// The number of the application's first looper of that name. `None` where none has it. Takes no memory.
    pub fn looper_named(&self, name: &[u8]) -> Option<u32>
        ensures { result ≡ looper_named self.now name.now }
    {
        let place = place_of(self.names.as_slice(), name)?;
        Some(self.first + place as u32)
    }
}

// The place of the first name that is this one.
fn place_of(names: &[Text], name: &[u8]) -> Option<usize>
    ensures value { result ≡ position (λ x. bytes_eq x name.now) names.now }
    ensures within { IfSome result (λ place. place < length names.now) }
{
    names.iter().position(|other| other.as_bytes() == name)
}
