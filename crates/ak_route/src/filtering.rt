//! What the filters make of a message.

ghost use Rattle.std.specs.Prelude.{◌≡◌, option_map};
ghost use Rattle.ak_route.specs.Filtering.{passing_after, run_filter, run_list, settle, target_after};
ghost use Rattle.ak_route.specs.Handlers.{handlers_seen, row_of};
ghost use Rattle.ak_route.specs.Seen.{origin_of, passing_of};

use ak_base::Code;
use ak_filter::{Filter, FilterList, Head, admits};
use ak_handler::{HANDLER_LIMIT, HandlerSet};
use ak_property::HandlerRow;

/// Where a message goes, and its code as it is then.
#[derive(Clone, Copy, Debug)]
pub(crate) struct Passing {
    pub(crate) target: u64,
    pub(crate) what: Code,
}

/// How a message came.
#[derive(Clone, Copy, Debug)]
pub(crate) struct Origin {
    pub(crate) local: bool,
    pub(crate) dropped: bool,
}

/// The common filters run, then those of the target, and so on where they pass it on; those of a handler
/// run at most once. `None` where one skips the message.
pub(crate) fn settle<R: HandlerRow + Drop>(
    set: &HandlerSet<R>,
    origin: Origin,
    common: &FilterList,
    passing: Passing,
) -> Option<Passing>
    ensures { option_map passing_of result
        ≡ passing_after (settle (handlers_seen R.told set.now) (origin_of origin) common.now (passing_of passing)) }
{
    let mut passing = run_list(set, origin, common.as_slice(), passing)?;
    // Those whose filters ran, by their places in the set.
    let mut asked = [false; HANDLER_LIMIT];
    for _ in 0..set.len() {
        let Some(place) = set.index_of(passing.target) else {
            return Some(passing);
        };
        if asked[place as usize] {
            return Some(passing);
        }
        asked[place as usize] = true;
        passing = run_own(set, origin, passing)?;
    }
    Some(passing)
}

// The filters of the target, where it is there.
#[tactic(auto, using(crate::proofs::Mapped::handlers_as_seen))]
fn run_own<R: HandlerRow + Drop>(
    set: &HandlerSet<R>,
    origin: Origin,
    passing: Passing,
) -> Option<Passing>
    ensures { option_map passing_of result
        ≡ run_list (handlers_seen R.told set.now) (origin_of origin) (row_of (handlers_seen R.told set.now) passing.target).filters (passing_of passing) }
{
    match set.by_token(passing.target) {
        Some(row) => run_list(set, origin, row.filters().as_slice(), passing),
        None => Some(passing),
    }
}

fn run_list<R: HandlerRow + Drop>(
    set: &HandlerSet<R>,
    origin: Origin,
    filters: &[Filter],
    passing: Passing,
) -> Option<Passing>
    ensures { option_map passing_of result
        ≡ run_list (handlers_seen R.told set.now) (origin_of origin) filters.now (passing_of passing) }
{
    let mut passing = passing;
    for filter in filters {
        passing = run_filter(set, origin, filter, passing)?;
    }
    Some(passing)
}

fn run_filter<R: HandlerRow + Drop>(
    set: &HandlerSet<R>,
    origin: Origin,
    filter: &Filter,
    passing: Passing,
) -> Option<Passing>
    ensures { option_map passing_of result
        ≡ run_filter (handlers_seen R.told set.now) (origin_of origin) filter.now (passing_of passing) }
{
    let head = Head {
        what: passing.what,
        local: origin.local,
        dropped: origin.dropped,
    };
    if !admits(filter, &head) {
        return Some(passing);
    }
    if filter.skip {
        return None;
    }
    Some(Passing {
        target: target_after(set, filter, passing.target),
        what: filter.set_what.unwrap_or(passing.what),
    })
}

// The handler that the filter names, where it is there.
fn target_after<R: HandlerRow + Drop>(set: &HandlerSet<R>, filter: &Filter, target: u64) -> u64
    ensures { result ≡ target_after (handlers_seen R.told set.now) filter.now.to target }
{
    match &filter.to {
        Some(name) => set.by_name(name).unwrap_or(target),
        None => target,
    }
}
