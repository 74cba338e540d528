//! Scripts from their text to the lists of their runs.

use crate::compare::same;
use ak_base::{Bytes, Ending};
use ak_describe::AppText;
use ak_diary::Histories;
use ak_outside::{Gate, ListSink, OpenGate, PlannedSpawner};
use ak_play::{RunEnd, run_script};
use ak_script::read_script;
use run_lists::{Told, count_answered, slot_accounts, tell, tell_faults};
use std::alloc::Global;
use std::sync::Wait;
use std::test::Fail;
use std::thread::Threads;

fn tell_ending(out: &mut Bytes, ending: Ending) -> Told {
    match ending {
        Ending::Done => out.extend(b"done\n"),
        Ending::WriteFault => out.extend(b"write fault\n"),
        Ending::ThreadFault => out.extend(b"thread fault\n"),
        Ending::NoMemory => out.extend(b"no memory\n"),
        Ending::Usage | Ending::Refused { .. } | Ending::ReadFault => out.extend(b"not run\n"),
    }
}

/// Tells what is faulty of the lists, where loopers are as these applications describe them.
pub fn tell_faulty(
    out: &mut Bytes,
    alloc: Global,
    apps: &[AppText],
    histories: &Histories,
) -> Told {
    let mut plans = Vec::new(alloc);
    for app in apps {
        plans.push(app.loopers.as_slice())?;
    }
    tell_faults(out, alloc, &plans, histories)
}

// That, and then how many loopers and slots there were, and how many senders had one reply each.
fn tell_histories(out: &mut Bytes, alloc: Global, apps: &[AppText], histories: &Histories) -> Told {
    let slots = slot_accounts(alloc, &histories.book, &histories.ports)?;
    tell_faulty(out, alloc, apps, histories)?;
    tell(out, b"loopers", histories.ports.len() as u64)?;
    tell(out, b"slots", slots.len() as u64)?;
    tell(out, b"with one reply each", count_answered(&slots))?;
    out.push(b'\n')
}

fn tell_run(out: &mut Bytes, alloc: Global, run: &Option<RunEnd>) -> Told {
    match run {
        Some(run) => tell_histories(out, alloc, &run.script.apps, &run.histories),
        None => out.extend(b"no run\n"),
    }
}

/// Reads the script and carries it out at this gate; that start of a thread is refused, counted from 1, or none where it is 0.
/// Tells what was written, how it ended, and what holds of its lists.
pub fn told_of_script<G: Gate + 'static, R: Threads + Wait + Copy + Send + 'static>(
    rt: &R,
    alloc: Global,
    text: &[u8],
    start: u64,
    gate: &G,
) -> Result<Bytes, Fail> {
    let script = read_script(alloc, text)?;
    let mut sink = ListSink::new(alloc, Vec::new(alloc));
    let mut spawner = PlannedSpawner::new(vec![in alloc; start]?);
    let (run, ending) = run_script(alloc, rt, script, &mut sink, &mut spawner, gate);
    let mut told = Bytes::new(alloc);
    told.extend(sink.written())?;
    tell_ending(&mut told, ending)?;
    tell_run(&mut told, alloc, &run)?;
    Ok(told)
}

// Mail posts items to the store, which counts them and answers each. The desk asks the store, and its own second looper. The
// bell quits with a message of its own pending.
const FOUR: &[u8] = b"kit 1
app /boot/Desk application/x-desk single
looper desk
property Open LONG
element 2
property Total LONG
element 0
on 'sum1'
ask app application/x-store 'PGET' specifiers=MSGG:{0x00000001 property=\"Stock\"} into Total
on 'look'
ask looper papers 'PGET' specifiers=MSGG:{0x00000001 property=\"Last\"} into Total
on 'tell'
post looper papers 'note' n=3
looper papers
property Last LONG
element 0
on 'note'
set Last $n
app /boot/Mail application/x-mail multiple
looper mail
property Sent LONG
element 0
property Done LONG
element 0
on 'send'
add Sent 1
post app application/x-store 'item' back
on 'done'
add Done 1
app /boot/Store application/x-store exclusive
looper store
property Stock LONG
element 7
on 'item'
add Stock 1
reply 'done'
app /boot/Bell application/x-bell single
looper bell
on 'stop'
post self 'late'
quit
script
launch /boot/Desk
launch /boot/Mail args \"new\"
launch application/x-mail
launch /boot/Store
launch application/x-store
launch /boot/Bell
hey Desk get Open
# two teams of mail work at once
post Mail 'send'
post 3 wait 'send'
post Mail 'send'
post 3 wait 'send'
post Mail wait 'send'
post 3 'send'
hey 2 'send'
hey 2 get Sent
hey 3 get Sent
hey Desk 'sum1'
hey Desk get Total
hey 2 get Done
hey 3 get Done
# which of the first two notes comes first is open, and the third one comes behind both
post Desk 'tell'
post Desk looper 1 'note' n=9
hey Desk 'tell'
hey Desk get Last of Looper [1]
hey Desk set Last of Looper [1] to 5
hey Desk 'look'
hey Desk get Total
# handlers are edited
lock Store add helper
lock Store add helper
lock Store next 1 none
lock Store prefer 1
hey Store get InternalName
hey Store get Stock
hey Store 'item'
lock Store remove 1
lock Store remove 1
lock Desk looper 1 remove 0
lock Desk looper 2 add late
# loopers and teams quit
hey Desk quit of Looper [1]
post Desk looper 1 'note' n=1
hey Desk get Last of Looper [1]
hey Desk 'look'
hey Bell 'stop'
post Bell 'stop'
launch /boot/Bell
hey Mail quit
hey Mail get Done
launch /boot/Mail
# whether these are dispatched or left is open
post Bell 'stop'
post Store wait 'item'
post Store dropped 'item'
post Mail 'send'
";

// The lines that every schedule gives. The ask of the looper 'papers', which has quit, has no reply: its slot is cancelled.
const FOUR_DONE: &str = "launch team 1
launch team 2
launch team 3
launch team 4
launch B_ALREADY_RUNNING team 4
launch team 5
reply 'RPLY' result=LONG:2 error=LONG:0
posted
posted
posted
posted
posted
posted
reply 'NONE'
reply 'RPLY' result=LONG:4 error=LONG:0
reply 'RPLY' result=LONG:3 error=LONG:0
reply 'NONE'
reply 'RPLY' result=LONG:14 error=LONG:0
reply 'RPLY' result=LONG:4 error=LONG:0
reply 'RPLY' result=LONG:3 error=LONG:0
posted
posted
reply 'NONE'
reply 'RPLY' result=LONG:3 error=LONG:0
reply 'RPLY' error=LONG:0
reply 'NONE'
reply 'RPLY' result=LONG:5 error=LONG:0
edit token 1
edit B_NAME_IN_USE
edit B_OK
edit B_OK
reply 'RPLY' result=CSTR:\"helper\" error=LONG:0
reply 'RPLY' result=LONG:14 error=LONG:0
reply 'MNOT'
edit B_OK
edit B_BAD_HANDLER
edit K_IS_LOOPER
error B_BAD_VALUE
reply 'RPLY' result=BOOL:true error=LONG:0
error B_BAD_PORT_ID
reply 'RPLY' error=LONG:-5
reply 'NONE'
reply 'NONE'
no such application
launch team 6
reply 'RPLY' result=BOOL:true error=LONG:0
reply 'RPLY' result=LONG:3 error=LONG:0
launch team 7
posted
posted
posted
posted
done
 loopers 8 slots 25 with one reply each 24
";

#[test]
fn a_script_of_four_applications(rt: HostRuntime) -> Result<(), Fail> {
    let alloc = rt.alloc();
    same(
        &rt,
        "each message is accounted for, and each ask answered",
        &told_of_script(&rt, alloc, FOUR, 0, &OpenGate)?,
        FOUR_DONE,
    );
    Ok(())
}
