//! Blocks of sessions: each session on a thread of its own, beside others at the same looper.

use crate::compare::same;
use crate::gates::Until;
use crate::scripts::told_of_script;
use ak_base::Bytes;
use ak_input::{Line, Word, read_message, split_lines};
use ak_message::{Kind, Value};
use ak_outside::OpenGate;
use run_lists::{Told, tell};
use std::alloc::Global;
use std::sync::Wait;
use std::test::Fail;
use std::thread::Threads;

// Tells of each script, and of the start of a thread that is refused in it, as `told_of_script` does.
fn told_of_blocks<R: Threads + Wait + Copy + Send + 'static>(
    rt: &R,
    alloc: Global,
    cases: &[(&'static [u8], u64)],
) -> Result<Bytes, Fail> {
    let mut out = Bytes::new(alloc);
    for (text, start) in cases {
        let told = told_of_script(rt, alloc, text, *start, &OpenGate)?;
        out.extend(told.as_slice())?;
    }
    Ok(out)
}

// ---- two sessions of 100 lines
const COUNTER: &[u8] = b"kit 1
app /boot/demo application/x-vnd.demo single
looper demo capacity 2
property Count LONG
element LONG:0
on 'incr'
add Count LONG:1
reply 'RPLY' n=@Count
script
launch /boot/demo
together
";

fn add_session(out: &mut Bytes) -> Told {
    out.extend(b"session\n")?;
    for _ in 0..100 {
        out.extend(b"hey demo 'incr'\n")?;
    }
    Ok(())
}

fn text_of_hundreds(alloc: Global) -> Result<Bytes, Fail> {
    let mut text = Bytes::new(alloc);
    text.extend(COUNTER)?;
    add_session(&mut text)?;
    add_session(&mut text)?;
    text.extend(b"end\nhey demo get Count\n")?;
    Ok(text)
}

// The number `n` of the reply that the line prints, if it has one.
fn number_in(alloc: Global, words: &[Word]) -> Result<Option<i32>, Fail> {
    let Some((first, rest)) = words.split_first() else {
        return Ok(None);
    };
    if first.bytes.as_slice() != b"reply".as_slice() {
        return Ok(None);
    }
    let reply = read_message(alloc, rest)?;
    match reply.find(b"n", Kind::Int32, 0) {
        Ok(Value::Int32(number)) => Ok(Some(*number)),
        _ => Ok(None),
    }
}

fn put_words(out: &mut Bytes, words: &[Word]) -> Told {
    for word in words {
        out.push(b' ')?;
        out.extend(word.bytes.as_slice())?;
    }
    out.push(b'\n')
}

// The numbers of the lines that have one; the words of each other line are told.
fn take_numbers(out: &mut Bytes, alloc: Global, lines: &[Line]) -> Result<Vec<i32>, Fail> {
    let mut numbers = Vec::new(alloc);
    for line in lines {
        match number_in(alloc, line.words.as_slice())? {
            Some(number) => numbers.push(number)?,
            None => put_words(out, line.words.as_slice())?,
        }
    }
    Ok(numbers)
}

// How many are not above the one before them, or the first one not above 0.
fn count_falls(numbers: &[i32]) -> u64 {
    let mut count = 0_u64;
    let mut last = 0;
    for number in numbers {
        if *number <= last {
            count = count.wrapping_add(1);
        }
        last = *number;
    }
    count
}

fn is_there(numbers: &[i32], wanted: i32) -> bool {
    for number in numbers {
        if *number == wanted {
            return true;
        }
    }
    false
}

// How many of 1 to 200 are not there.
fn count_missing(numbers: &[i32]) -> u64 {
    let mut count = 0_u64;
    for wanted in 1..201 {
        if !is_there(numbers, wanted) {
            count = count.wrapping_add(1);
        }
    }
    count
}

// The first half is of one session, the second half of the other.
fn tell_numbers(out: &mut Bytes, numbers: &[i32]) -> Result<(), Fail> {
    let one = numbers.get(0..100).ok_or("few numbers")?;
    let other = numbers.get(100..200).ok_or("few numbers")?;
    tell(out, b"numbers", numbers.len() as u64)?;
    tell(out, b"falls", count_falls(one))?;
    tell(out, b"falls", count_falls(other))?;
    tell(out, b"missing", count_missing(numbers))?;
    Ok(out.push(b'\n')?)
}

fn told_of_hundreds<R: Threads + Wait + Copy + Send + 'static>(
    rt: &R,
    alloc: Global,
) -> Result<Bytes, Fail> {
    let text = text_of_hundreds(alloc)?;
    let told = told_of_script(rt, alloc, text.as_slice(), 0, &OpenGate)?;
    let input = split_lines(alloc, told.as_slice())?;
    let mut out = Bytes::new(alloc);
    let numbers = take_numbers(&mut out, alloc, input.lines.as_slice())?;
    tell_numbers(&mut out, &numbers)?;
    Ok(out)
}

// Which session gets which number is open: in each the numbers rise, and each of 1 to 200 comes once.
const HUNDREDS: &str = " launch team 1
 reply 'RPLY' result=LONG:200 error=LONG:0
 done
 loopers 1 slots 201 with one reply each 201
 numbers 200 falls 0 falls 0 missing 0
";

#[test]
fn two_sessions_of_a_hundred_lines(rt: HostRuntime) -> Result<(), Fail> {
    let told = told_of_hundreds(&rt, rt.alloc())?;
    same(&rt, "numbers rise, and each comes once", &told, HUNDREDS);
    Ok(())
}

// ---- a session is not started
const THREE: &[u8] = b"kit 1
app /boot/demo application/x-vnd.demo single
looper demo capacity 2
property Count LONG
element LONG:0
on 'incr'
add Count LONG:1
reply 'RPLY'
script
launch /boot/demo
together
session
hey demo 'incr'
hey demo 'incr'
session
hey demo 'incr'
lock demo add c
session
hey demo 'incr'
end
hey demo get Count
";

// The looper's start is the first one, and those of the sessions come behind it. There is no fifth one.
static STARTS: [(&[u8], u64); 4] = [(THREE, 2), (THREE, 3), (THREE, 4), (THREE, 5)];

// The lines of a session that gets no thread are carried out all the same. Those of the next one, and the statement behind the
// block, are not.
const STARTED: &str = "launch team 1
reply 'RPLY'
reply 'RPLY'
thread fault
 loopers 1 slots 2 with one reply each 2
launch team 1
reply 'RPLY'
reply 'RPLY'
reply 'RPLY'
edit token 1
thread fault
 loopers 1 slots 3 with one reply each 3
launch team 1
reply 'RPLY'
reply 'RPLY'
reply 'RPLY'
edit token 1
reply 'RPLY'
thread fault
 loopers 1 slots 4 with one reply each 4
launch team 1
reply 'RPLY'
reply 'RPLY'
reply 'RPLY'
edit token 1
reply 'RPLY'
reply 'RPLY' result=LONG:4 error=LONG:0
done
 loopers 1 slots 5 with one reply each 5
";

#[test]
fn a_session_may_get_no_thread(rt: HostRuntime) -> Result<(), Fail> {
    let told = told_of_blocks(&rt, rt.alloc(), &STARTS)?;
    same(
        &rt,
        "its lines are carried out, and no more",
        &told,
        STARTED,
    );
    Ok(())
}

// ---- sessions at one looper
// Both edit and post.
const EDITORS: &[u8] = b"kit 1
app /boot/demo application/x-vnd.demo single
looper demo capacity 2
property Count LONG
element LONG:0
on 'incr'
add Count LONG:1
handler a
handler b
script
launch /boot/demo
together
session
post demo wait 'incr'
post demo wait 'incr'
lock demo remove 1
post demo wait 'incr'
lock demo remove 1
post demo wait 'incr'
post demo wait 'incr'
session
lock demo add c
post demo wait 'incr'
lock demo next 3 2
lock demo prefer 3
post demo wait 'incr'
lock demo prefer none
post demo token 2 wait 'incr'
end
hey demo get Count
hey demo count Handler
";

// One posts to the looper that the other asks, and to the one that it edits.
const ASKERS: &[u8] = b"kit 1
app /boot/demo application/x-vnd.demo single
looper demo capacity 2
property Count LONG
element LONG:0
property Name CSTR
element \"d\"
on 'incr'
add Count LONG:1
looper work capacity 1
property Count LONG
element LONG:0
on 'incr'
add Count LONG:1
script
launch /boot/demo
together
session
post demo wait 'incr'
post demo looper 1 wait 'incr'
post demo wait 'incr'
post demo looper 1 wait 'incr'
post demo wait 'incr'
post demo looper 1 wait 'incr'
post demo wait 'incr'
session
hey demo get Name
lock demo looper 1 add c
hey demo get Name
lock demo looper 1 remove 1
hey demo get Name of Looper [1]
hey demo get Name
end
hey demo get Count
hey demo get Count of Looper [1]
";

static AT_ONE: [(&[u8], u64); 2] = [(EDITORS, 0), (ASKERS, 0)];

// A handler that takes nothing hands a message on to its next one, in the end to the looper; so each post counts, whoever is preferred.
const AT_ONCE: &str = "launch team 1
posted
posted
edit B_OK
posted
edit B_BAD_HANDLER
posted
posted
edit token 3
posted
edit B_OK
edit B_OK
posted
edit B_OK
posted
reply 'RPLY' result=LONG:8 error=LONG:0
reply 'RPLY' result=LONG:3 error=LONG:0
done
 loopers 1 slots 2 with one reply each 2
launch team 1
posted
posted
posted
posted
posted
posted
posted
reply 'RPLY' result=CSTR:\"d\" error=LONG:0
edit token 1
reply 'RPLY' result=CSTR:\"d\" error=LONG:0
edit B_OK
reply 'MNOT'
reply 'RPLY' result=CSTR:\"d\" error=LONG:0
reply 'RPLY' result=LONG:4 error=LONG:0
reply 'RPLY' result=LONG:3 error=LONG:0
done
 loopers 2 slots 6 with one reply each 6
";

#[test]
fn sessions_meet_at_a_looper(rt: HostRuntime) -> Result<(), Fail> {
    let told = told_of_blocks(&rt, rt.alloc(), &AT_ONE)?;
    same(&rt, "each message is accounted for", &told, AT_ONCE);
    Ok(())
}

// ---- a session at a port that is full
// The own looper stands in its first dispatch until the other one has dispatched the last post: so two items are pending, which is all
// that its port holds.
const FILLERS: &[u8] = b"kit 1
app /boot/demo application/x-vnd.demo single
looper demo capacity 2
property Count LONG
element LONG:0
on 'incr'
add Count LONG:1
looper side
script
launch /boot/demo
together
session
post demo wait 'incr'
post demo wait 'incr'
post demo 'incr'
post demo dropped 'incr'
post demo looper 1 'last'
session
lock demo looper 1 add c
end
hey demo get Count
";

const FILLED: &str = "launch team 1
posted
posted
error B_WOULD_BLOCK
error B_WOULD_BLOCK
posted
edit token 1
reply 'RPLY' result=LONG:2 error=LONG:0
done
 loopers 2 slots 1 with one reply each 1
";

#[test]
fn a_session_may_find_a_port_full(rt: HostRuntime) -> Result<(), Fail> {
    let alloc = rt.alloc();
    let told = told_of_script(&rt, alloc, FILLERS, 0, &Until::new(alloc)?)?;
    same(&rt, "a post that does not wait is refused", &told, FILLED);
    Ok(())
}
