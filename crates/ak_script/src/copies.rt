//! Copies of lines, for the threads of sessions.
ghost use Rattle.std.specs.Prelude.{◌≡◌, IfOk};

use crate::statement::{Hey, Lock, Post, SessionLine, SessionLines};
use ak_base::NoMemory;
use std::alloc::Global;

impl SessionLines {
    /// The same lines. `NoMemory` where memory ran out.
    pub fn try_clone(&self, alloc: Global) -> Result<SessionLines, NoMemory>
        ensures { IfOk result (λ copies. copies.lines.items ≡ self.now.lines.items) }
    {
        Ok(SessionLines {
            lines: copied(alloc, self.lines.as_slice())?,
        })
    }
}

fn copied(alloc: Global, lines: &[SessionLine]) -> Result<Vec<SessionLine>, NoMemory>
    ensures { IfOk result (λ copies. copies.items ≡ lines.now) }
{
    let mut copies = Vec::new(alloc);
    for line in lines {
        copies.push(line.try_clone()?)?;
    }
    Ok(copies)
}

impl SessionLine {
    fn try_clone(&self) -> Result<SessionLine, NoMemory>
        ensures { IfOk result (λ copy. copy ≡ self.now) }
    {
        Ok(match self {
            SessionLine::Hey(line) => SessionLine::Hey(line.try_clone()?),
            SessionLine::Post(line) => SessionLine::Post(line.try_clone()?),
            SessionLine::Lock(line) => SessionLine::Lock(line.try_clone()?),
        })
    }
}

impl Hey {
    fn try_clone(&self) -> Result<Hey, NoMemory>
        ensures { IfOk result (λ copy. copy ≡ self.now) }
    {
        Ok(Hey {
            app: self.app.try_clone()?,
            message: self.message.try_clone()?,
        })
    }
}

impl Post {
    fn try_clone(&self) -> Result<Post, NoMemory>
        ensures { IfOk result (λ copy. copy ≡ self.now) }
    {
        Ok(Post {
            app: self.app.try_clone()?,
            looper: self.looper,
            target: self.target,
            dropped: self.dropped,
            waits: self.waits,
            message: self.message.try_clone()?,
        })
    }
}

impl Lock {
    fn try_clone(&self) -> Result<Lock, NoMemory>
        ensures { IfOk result (λ copy. copy ≡ self.now) }
    {
        Ok(Lock {
            app: self.app.try_clone()?,
            looper: self.looper,
            edit: self.edit.try_clone()?,
        })
    }
}
