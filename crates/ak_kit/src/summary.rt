//! How much a script describes, and how much is to be done.
ghost use Rattle.std.specs.Prelude.{◌≡◌, ◌<◌, ◌^◌, ◌++◌, IfOk, OnOk};
ghost use Rattle.std.specs.Fmt.{decimal};
ghost use Rattle.ak_describe.specs.Whole.{AreWholeApps};
ghost use Rattle.ak_script.specs.Seen.{script_seen};
ghost use Rattle.ak_kit.specs.Summary as counts;

use ak_action::{LooperPlan, plans_are_whole};
use ak_base::{Bytes, NoMemory, print_uint};
use ak_describe::AppText;
use ak_script::{Script, count_lines};
use std::alloc::Global;

/// The line that tells how many applications, loopers, `handler` lines and statements the script has. A block counts as the
/// lines of its sessions.
pub(crate) fn summary(alloc: Global, script: &Script) -> Result<Bytes, NoMemory>
    requires { AreWholeApps script.now.apps.items }
    ensures { IfOk result (λ line. line ≡ counts.summary (script_seen script.now)) }
{
    plans_are_whole();
    let mut line = Bytes::new(alloc);
    put_count(&mut line, b"apps ", script.apps.len())?;
    put_count(&mut line, b" loopers ", count_loopers(&script.apps))?;
    put_count(&mut line, b" handlers ", count_handlers(&script.apps))?;
    put_count(&mut line, b" statements ", count_lines(&script.statements))?;
    line.push(b'\n')?;
    Ok(line)
}

/// Adds what is counted, and how many there are.
pub(crate) fn put_count(out: &mut Bytes, what: &[u8], count: usize) -> Result<(), NoMemory>
    ensures { OnOk result (out.new ≡ out.old ++ what.now ++ decimal count) }
{
    out.extend(what)?;
    print_uint(count as u64, out)
}

fn count_loopers(apps: &[AppText]) -> usize
    requires { counts.looper_count apps.now < 2 ^ 64 }
    ensures { result ≡ counts.looper_count apps.now }
{
    let mut count = 0;
    for app in apps {
        count += app.loopers.as_slice().len();
    }
    count
}

fn count_handlers(apps: &[AppText]) -> usize
    requires { counts.handler_count apps.now < 2 ^ 64 }
    ensures { result ≡ counts.handler_count apps.now }
{
    let mut count = 0;
    for app in apps {
        count += handlers_of(app.loopers.as_slice());
    }
    count
}

fn handlers_of(loopers: &[LooperPlan]) -> usize
    requires { counts.handlers_of loopers.now < 2 ^ 64 }
    ensures { result ≡ counts.handlers_of loopers.now }
{
    let mut count = 0;
    for looper in loopers {
        count += handler_lines(looper);
    }
    count
}

// Its handlers, without the first one, which is the looper itself.
fn handler_lines(looper: &LooperPlan) -> usize
    ensures { result ≡ counts.handler_lines looper.now }
{
    looper.parts().rows.as_slice().len().saturating_sub(1)
}
