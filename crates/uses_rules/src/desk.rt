//! Desks: want of memory at some place, and threads that share one or take one along.

ghost use Rattle.std.specs.Prelude.{◌≡◌, ◌<◌, ◌^◌, IsTrue, IfOk, IfSome};
ghost use Rattle.ak_desk.specs.Desk.{opened, stamp_in};

use crate::parts::plan_of;
use ak_base::Items;
use ak_desk::Desk;
use ak_turn::{Book, Clock};
use std::alloc::Global;
use std::test::Fail;

mod memory;
mod moving;
mod shared;

// The looper of an application, whose first action makes a reply.
const TEXT: &[u8] = b"app /boot/Demo application/x-demo single
looper demo
property Count LONG
element 3
property Title CSTR
element \"A\"
on 'ping'
reply 'RPLY' n=1
set Title \"C\"
set Count 8
handler side
";

// The desk of that looper, the only one of its application, with number 3.
fn unused(alloc: Global) -> Result<Desk, Fail>
    ensures opened { IfOk result (λ d. d ≡ opened d.opening) }
    ensures looper { IfOk result (λ d. d.opening.looper ≡ 3) }
{
    let plan = plan_of(alloc, TEXT)?;
    let mut names = Vec::with_capacity(alloc, 1)?;
    names.push(plan.parts().name.try_clone()?)?;
    if !plan.knows_loopers(&names) {
        return Err(Fail::new("a looper is missing"));
    }
    Ok(Desk::from_plan(alloc, plan, 3, 2, 3, Items::from_vec(names))?)
}

// Whether there are stamps left.
fn may_stamp(desk: &Desk, clock: &Clock) -> bool
    ensures { IsTrue result → (clock.now.time < 2 ^ 63) × (stamp_in desk.now.entries < 2 ^ 63) }
{
    clock.time < 1 << 63 && desk.last_stamp() < 1 << 63
}
