ghost use Rattle.std.specs.Prelude.{◌≡◌};
ghost use Rattle.ak_route.specs.Handlers.{handlers_seen, first_target};
ghost use Rattle.ak_handler.specs.Changes.{is_there};
ghost use Rattle.ak_route.specs.Filtering.{passing_after, settle};
ghost use Rattle.ak_route.specs.Routing.{delivered, route_of};
ghost use Rattle.ak_route.specs.Seen.{origin_of};

use crate::filtering::{Origin, Passing, settle};
use crate::outcome::{Place, Route};
use crate::receiving::receive;
use crate::resolving::{Destination, resolve};
use ak_base::Text;
use ak_filter::FilterList;
use ak_handler::{HandlerSet, LOOPER};
use ak_message::{Message, Target};
use ak_property::HandlerRow;

/// The route of a message that came to a looper, whose handlers are `set` and whose common filters are
/// `common`. `local` says that its sender's team is the looper's, and `dropped` that a user dropped it.
/// `first` is the target that it was sent to, and `place` tells where the looper stands. What led on its way
/// is popped, and it has the code that the filters gave it; where a filter skips it, its code stays. There is
/// no answer for want of memory, and no refusal. (The Be Book, The Application Kit, BHandler:
/// ResolveSpecifier().)
pub fn route<R: HandlerRow + Drop>(
    set: &HandlerSet<R>,
    common: &FilterList,
    message: &mut Message,
    local: bool,
    dropped: bool,
    first: Target,
    place: &Place<'_>,
) -> Route
    ensures { record { route = result; message = message.new }
        ≡ route_of (handlers_seen R.told set.now) place.now (record { local = local; dropped = dropped }) common.now message.old first }
{
    let Some(token) = first_target(set, first) else {
        return Route::Dropped;
    };
    let loopers = place.loopers();
    match resolve(set, message, first, loopers, token) {
        Destination::Nowhere => Route::NotUnderstood,
        Destination::Looper(looper) => Route::Forward { looper },
        Destination::Handler(token) => {
            let origin = Origin { local, dropped };
            deliver(set, common, message, origin, loopers, token)
        }
    }
}

fn first_target<R: HandlerRow + Drop>(set: &HandlerSet<R>, first: Target) -> Option<u64>
    ensures { result ≡ first_target (handlers_seen R.told set.now) first }
{
    match first {
        Target::Preferred => Some(set.preferred().unwrap_or(LOOPER)),
        Target::Token(token) if is_there(set, token) => Some(token),
        Target::Token(_) => None,
    }
}

#[tactic(auto, using(crate::proofs::Mapped::held_there))]
fn is_there<R: HandlerRow + Drop>(set: &HandlerSet<R>, token: u64) -> bool
    ensures { result ≡ is_there (handlers_seen R.told set.now).list token }
{
    set.by_token(token).is_some()
}

// After its specifiers: what the filters make of it, and who takes it then.
fn deliver<R: HandlerRow + Drop>(
    set: &HandlerSet<R>,
    common: &FilterList,
    m: &mut Message,
    origin: Origin,
    loopers: &[Text],
    token: u64,
) -> Route
    ensures { record { route = result; message = m.new }
        ≡ delivered (handlers_seen R.told set.now) loopers.now m.old
        (passing_after (settle (handlers_seen R.told set.now) (origin_of origin) common.now (record { target = token; what = m.old.what }))) }
{
    let start = Passing {
        target: token,
        what: m.what(),
    };
    let Some(passing) = settle(set, origin, common, start) else {
        return Route::Skipped;
    };
    m.set_what(passing.what);
    match receive(set, loopers, m, passing.target) {
        Some((token, taker)) => Route::Deliver { token, taker },
        None => Route::NotUnderstood,
    }
}
