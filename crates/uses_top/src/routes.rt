//! Who of a looper's handlers gets a message, and as what.
use crate::compare::same;
use ak_route::{
    filters_run_at_most_once, forwards_are_to_later_loopers, no_specifiers_no_steps,
    resolved_handlers_are_there, takers_are_there, takers_lie_within,
};
use fixture::first_scene;
use settling::first_origin;
use std::test::Fail;

mod fixture;
mod leading;
mod settling;
mod taking;

fn call_the_laws() {
    filters_run_at_most_once();
    forwards_are_to_later_loopers();
    no_specifiers_no_steps();
    resolved_handlers_are_there();
    takers_are_there();
    takers_lie_within();
}

#[test]
fn messages_go_to_their_handlers(rt: HostRuntime) -> Result<(), Fail> {
    let alloc = rt.alloc();
    call_the_laws();
    same(
        &rt,
        "where targets and specifiers lead",
        first_scene(alloc, &leading::SCENES)?,
        None,
    );
    same(
        &rt,
        "what filters make of a message",
        first_scene(alloc, &settling::SCENES)?,
        None,
    );
    same(
        &rt,
        "where a message comes from, and how, is asked",
        first_origin(alloc)?,
        None,
    );
    same(
        &rt,
        "which handler takes it, and as what",
        first_scene(alloc, &taking::SCENES)?,
        None,
    );
    Ok(())
}
