//! Whether a plan fits its place among the loopers of its application.
ghost use Rattle.std.specs.Prelude.{◌≡◌, ◌≢◌, ◌+◌, ◌<◌, ◌≤◌, ◌↔◌, Some, length, AllPairs, IsTrue, slice_get};
ghost use Rattle.ak_base.specs.Limits.{app_looper_limit, looper_limit};
ghost use Rattle.ak_action.specs.Opening.{FitsPlace};

use crate::opening::contains;
use crate::plan::LooperPlan;
use ak_base::{APP_LOOPER_LIMIT, LOOPER_LIMIT, Text};

impl LooperPlan {
    /// Whether the plan is that of the looper at the place `at` among the loopers of these names, of which the first one has the number
    /// `first`: the names are at most 8 and differ, their numbers are below 32, the plan has the name at that place, and its actions
    /// name these loopers alone. It is all that `DeskState::from_plan` asks of its caller. Takes no memory.
    #[tactic(auto, using(crate::proofs::Fitting::fitting))]
    pub fn fits_place(&self, first: u32, at: usize, names: &[Text]) -> bool
        ensures place { IsTrue result → FitsPlace self.now (first + at) first names.now }
        ensures only { FitsPlace self.now (first + at) first names.now → IsTrue result }
        ensures at { IsTrue result → at < app_looper_limit }
        ensures first { IsTrue result → first ≤ looper_limit }
    {
        are_few(first, names)
            && is_named(names, at, &self.parts().name)
            && differ(names)
            && self.knows_loopers(names)
    }
}

fn are_few(first: u32, names: &[Text]) -> bool
    ensures { IsTrue result ↔ ((length names.now ≤ app_looper_limit) × (first + length names.now ≤ looper_limit)) }
{
    names.len() <= APP_LOOPER_LIMIT
        && first <= LOOPER_LIMIT
        && first as usize + names.len() <= LOOPER_LIMIT as usize
}

fn is_named(names: &[Text], at: usize, name: &Text) -> bool
    ensures { IsTrue result ↔ (slice_get names.now at ≡ Some name.now) }
{
    match names.get(at) {
        Some(other) => is_same(other, name),
        None => false,
    }
}

#[tactic(auto, using(crate::proofs::Fitting::sameness))]
fn is_same(name: &Text, other: &Text) -> bool
    ensures { IsTrue result ↔ (name.now ≡ other.now) }
{
    name.as_bytes() == other.as_bytes()
}

fn differ(names: &[Text]) -> bool
    ensures apart { IsTrue result → AllPairs (λ a b. a ≢ b) names.now }
    ensures only { AllPairs (λ a b. a ≢ b) names.now → IsTrue result }
{
    match names {
        [] => true,
        [name, rest @ ..] => !contains(rest, name.as_bytes()) && differ(rest),
    }
}
