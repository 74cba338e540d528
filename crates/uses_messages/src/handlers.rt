// The handlers of a looper: what no row of a desk tells of them, and what no run comes to.

ghost use Rattle.std.specs.Prelude.{◌≡◌, ◌<◌, Err, None, length, is_some, IsTrue, IsFalse, IfOk, IsOkUnless, OnOk};
ghost use Rattle.ak_handler.specs.declared.fault.HandlerFault.TheVariants as fault;
ghost use Rattle.ak_handler.specs.Changes.{content_of, with_content};
ghost use Rattle.ak_handler.specs.Handlers.{token_named};

use crate::compare::same;
use ak_base::Text;
use ak_handler::{HandlerFault, HandlerSet, chains_are_whole, tokens_are_never_used_again};
use std::alloc::Global;
use std::test::Fail;

fn named(alloc: Global, name: &[u8]) -> Result<Text, Fail> {
    Ok(Text::from_bytes(alloc, name)?)
}

// Adds a handler. No run comes to the end of the tokens, so what is answered there is proved: the last token is given,
// and then no other one.
fn add(set: &mut HandlerSet<u32>, name: Text, content: u32) -> Result<u64, HandlerFault>
    ensures given { length set.old.list < 64 → token_named set.old.list name ≡ None → set.old.next_token ≡ 18446744073709551614 → IsOkUnless result fault.NoMemory }
    ensures last { set.old.next_token ≡ 18446744073709551614 → IfOk result (λ token. token ≡ 18446744073709551614) }
    ensures then { set.old.next_token ≡ 18446744073709551614 → OnOk result (set.new.next_token ≡ 18446744073709551615) }
    ensures none { token_named set.old.list name ≡ None → set.old.next_token ≡ 18446744073709551615 → result ≡ Err fault.HandlerLimit }
    ensures kept { set.old.next_token ≡ 18446744073709551615 → set.new ≡ set.old }
{
    set.add(name, content)
}

// A looper with the handlers a and b, whose tokens are 1 and 2.
fn with_a_and_b(alloc: Global) -> Result<HandlerSet<u32>, Fail> {
    let mut set = HandlerSet::new(alloc, named(alloc, b"looper")?, 10)?;
    add(&mut set, named(alloc, b"a")?, 11)?;
    add(&mut set, named(alloc, b"b")?, 12)?;
    Ok(set)
}

// Changes what a handler holds, if it is there: what a caller of `by_token_mut` knows.
fn store(set: &mut HandlerSet<u32>, token: u64, content: u32) -> bool
    ensures found { result ≡ is_some (content_of set.old.list token) }
    ensures stored { IsTrue result → set.new ≡ with_content set.old token content }
    ensures same { IsFalse result → set.new ≡ set.old }
{
    match set.by_token_mut(token) {
        Some(held) => {
            *held = content;
            true
        }
        None => false,
    }
}

fn content_at(set: &HandlerSet<u32>, token: u64) -> Option<u32> {
    set.by_token(token).copied()
}

// Whether what a and what a handler that is not there hold was changed, what each one holds then, and what is handed
// out with a.
type Held = ([bool; 2], [Option<u32>; 4], Result<u32, HandlerFault>);

fn held(alloc: Global) -> Result<Held, Fail> {
    let mut set = with_a_and_b(alloc)?;
    let stored = [store(&mut set, 1, 7), store(&mut set, 3, 8)];
    let held = [
        content_at(&set, 0),
        content_at(&set, 1),
        content_at(&set, 2),
        content_at(&set, 3),
    ];
    Ok((stored, held, set.remove(1)))
}

// The token of a name and the place of a token that are not there.
fn absent(alloc: Global) -> Result<(Option<u64>, Option<u32>), Fail> {
    let set = with_a_and_b(alloc)?;
    Ok((set.by_name(&named(alloc, b"c")?), set.index_of(3)))
}

#[test]
fn what_handlers_hold_is_changed_and_handed_out(rt: HostRuntime) -> Result<(), Fail> {
    chains_are_whole::<u32>();
    tokens_are_never_used_again::<u32>();
    let numbers = [Some(10), Some(7), Some(12), None];
    same(
        &rt,
        "what is held",
        held(rt.alloc())?,
        ([true, false], numbers, Ok(7)),
    );
    same(&rt, "not there", absent(rt.alloc())?, (None, None));
    Ok(())
}
