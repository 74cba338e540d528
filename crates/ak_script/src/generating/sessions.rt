//! Sessions that make loopers count.

ghost use Rattle.std.specs.Prelude.{◌≡◌, ◌≤◌, IfOk};
ghost use Rattle.ak_script.specs.Generated as gen;
ghost use Rattle.ak_script.specs.Generated.{generated_limit};
ghost use Rattle.ak_script.specs.Statement.{hey_line};
ghost use Rattle.ak_script.specs.StatementSeen.{line_seen, session_seen, together_seen};

use crate::generating::messages::incr;
use crate::statement::{SessionLine, SessionLines, Together};
use ak_base::NoMemory;
use std::alloc::Global;

// How many sessions there are.
const SESSIONS: u32 = 4;

/// The sessions, each of so many lines.
pub(crate) fn block(alloc: Global, n: u32) -> Result<Together, NoMemory>
    requires some { 1 ≤ n }
    requires limit { n ≤ generated_limit }
    ensures { IfOk result (λ block. together_seen block ≡ gen.block n) }
{
    let mut sessions = Vec::with_capacity(alloc, SESSIONS as usize)?;
    for s in 0..SESSIONS {
        sessions.push(session(alloc, n, s + 1)?)?;
    }
    Ok(Together { sessions })
}

// The session of that number.
fn session(alloc: Global, n: u32, s: u32) -> Result<SessionLines, NoMemory>
    requires some { 1 ≤ n }
    requires limit { n ≤ generated_limit }
    requires few { s ≤ 4 }
    ensures { IfOk result (λ session. session_seen session ≡ gen.session n s) }
{
    let mut lines = Vec::with_capacity(alloc, n as usize)?;
    for i in 0..n {
        lines.push(line(alloc, s, i + 1)?)?;
    }
    Ok(SessionLines { lines })
}

// Statement `i` of session `s`.
fn line(alloc: Global, s: u32, i: u32) -> Result<SessionLine, NoMemory>
    requires few { s ≤ 4 }
    requires limit { i ≤ generated_limit }
    ensures { IfOk result (λ line. line_seen line ≡ hey_line (gen.incr (gen.place_in s i))) }
{
    let hey = incr(alloc, place_in(s, i))?;
    Ok(SessionLine::Hey(hey))
}

// The place of the looper that counts in it.
fn place_in(s: u32, i: u32) -> u32
    requires few { s ≤ 4 }
    requires limit { i ≤ generated_limit }
    ensures place { result ≡ gen.place_in s i }
    ensures counts { result ≤ 3 }
{
    1 + (s + i) % 3
}
