//! What holds of all routes.

ghost use Rattle.ak_route.specs.Laws as law;

/// Behind the common filters a message settles by those of the handlers that it is passed to, each list once. Those
/// of the handler where it stays ran. No more steps are needed than there are handlers.
pub fn filters_run_at_most_once()
    ensures once { law.FiltersRunAtMostOnce }
    ensures all { law.AllFiltersRun }
    ensures enough { law.StepsAreEnough }
{}

/// What the specifiers of a message lead to is a handler of the set.
pub fn resolved_handlers_are_there()
    ensures { law.ResolvedIsThere }
{}

/// A message is delivered to a handler of the set.
pub fn takers_are_there()
    ensures { law.TakerIsThere }
{}

/// A message without specifiers that are left leads to its first target, and leading leaves it as it was.
pub fn no_specifiers_no_steps()
    ensures { law.NoSpecifiersNoSteps }
{}

/// A message is forwarded to a later looper of the application alone.
pub fn forwards_are_to_later_loopers()
    ensures resolved { law.ResolvedIsLater }
    ensures routed { law.ForwardIsLater }
{}

/// A message is delivered to a property of the handler's table, to one of its reactions, or as built in.
pub fn takers_lie_within()
    ensures { law.TakerLiesWithin }
{}

/// Following the specifiers of a message changes nothing of it but how many of them are popped: as many as before
/// or more, and none but those that were left.
pub fn following_only_pops()
    ensures { law.ResolvingOnlyPops }
{}

/// Routing changes nothing of a message but its code, and pops some of its specifiers: never more than it
/// has, and none is put back.
pub fn routes_pop_within()
    ensures { law.RoutesPopWithin }
{}
