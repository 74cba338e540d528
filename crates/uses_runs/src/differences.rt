//! Lists of a run are held against other descriptions than its own: what they would make otherwise is told.

use crate::compare::same;
use crate::scripts::tell_faulty;
use ak_base::Bytes;
use ak_outside::{ListSink, OpenGate, PlannedSpawner};
use ak_play::run_script;
use ak_script::{Script, read_script};
use run_lists::tell;
use std::alloc::Global;
use std::sync::Wait;
use std::test::Fail;
use std::thread::Threads;

// A script in parts. The looper asks its second one, to which some of what it gets is sent on.
const PARTS: [&[u8]; 9] = [
    b"kit 1
app /boot/Plain application/x-plain single
looper plain
property Count LONG
element 3
",
    b"",
    b"on 'ping'
reply 'RPLY' n=1
on 'tell'
post self 'note'
post app None 'note'
",
    b"set Count 5
",
    b"ask looper other 'ping' into Count
on 'last'
",
    b"quit
",
    b"looper other
on 'ping'
reply 'RPLY' result=7
",
    b"",
    b"script
launch /boot/Plain
hey Plain 'ping'
hey Plain 'tell'
hey Plain get Count
lock Plain add more
hey Plain 'ping' of Looper [1]
hey Plain 'last'
",
];

// What stands at that place of another description: the same, a filter, another reply, a value of another kind, one action less, an ask
// whose result goes nowhere, no quit, a handler of the name that is added, and a looper more.
const OTHERS: [(usize, &[u8]); 9] = [
    (1, b""),
    (1, b"common what 'ping' skip\n"),
    (
        2,
        b"on 'ping'\nreply 'RPLY' n=2\non 'tell'\npost self 'note'\npost app None 'note'\n",
    ),
    (3, b"set Count \"5\"\n"),
    (3, b""),
    (4, b"ask looper other 'ping'\non 'last'\n"),
    (5, b"drop\n"),
    (5, b"quit\nhandler more\n"),
    (7, b"looper third\n"),
];

// The first one is as the run's own. The entry of the message that the looper posts to itself is the fourth one.
const TOLD: &str = "launch team 1
reply 'RPLY' n=LONG:1
reply 'NONE'
reply 'RPLY' result=LONG:7 error=LONG:0
edit token 1
reply 'RPLY' result=LONG:7
reply 'NONE'
 with another part 1
 with another part 1
 looper 0 entry 1 another route
 with another part 2
 looper 0 entry 1 another reply
 with another part 3
 looper 0 entry 2 another words
 with another part 3
 looper 0 entry 2 another words
 with another part 4
 looper 0 entry 4 another reply
 with another part 5
 looper 0 entry 7 another mark of its end
 with another part 5
 looper 0 entry 5 another answer to the edit
 with another part 7
 there is not a port and a desk for each looper
";

fn script_of(alloc: Global, place: usize, other: &[u8]) -> Result<Script, Fail> {
    let mut text = Bytes::new(alloc);
    for (at, part) in PARTS.iter().enumerate() {
        text.extend(if at == place { other } else { *part })?;
    }
    Ok(read_script(alloc, text.as_slice())?)
}

// What is told of the lists of the run, against each other description.
fn told_against<R: Threads + Wait + Copy + Send + 'static>(
    rt: &R,
    alloc: Global,
) -> Result<Bytes, Fail> {
    let script = script_of(alloc, 1, b"")?;
    let mut sink = ListSink::new(alloc, Vec::new(alloc));
    let mut spawner = PlannedSpawner::new(Vec::new(alloc));
    let (run, _) = run_script(alloc, rt, script, &mut sink, &mut spawner, &OpenGate);
    let run = run.ok_or("no run")?;
    let mut told = Bytes::new(alloc);
    told.extend(sink.written())?;
    for (place, other) in OTHERS {
        let script = script_of(alloc, place, other)?;
        tell(&mut told, b"with another part", place as u64)?;
        told.push(b'\n')?;
        tell_faulty(&mut told, alloc, &script.apps, &run.histories)?;
    }
    Ok(told)
}

#[test]
fn what_the_rules_make_otherwise_is_told(rt: HostRuntime) -> Result<(), Fail> {
    let alloc = rt.alloc();
    same(&rt, "another description", &told_against(&rt, alloc)?, TOLD);
    Ok(())
}
