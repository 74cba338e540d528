//! Lines as they come, in two passes: the first one goes line by line, the second one over the names in them.

ghost use Rattle.std.specs.Prelude.{◌≡◌, None, [], ◌∷◌, ◌++◌, option_map, IsOk, IfOk, IfErr, IfSome, IfNone, OnOk, OnErr};
ghost use Rattle.ak_describe.specs.Answers.{Answers, IsTold, refused};
ghost use Rattle.ak_describe.specs.Describes.{Describes};
ghost use Rattle.ak_describe.specs.Description.{checked, description};
ghost use Rattle.ak_describe.specs.Laws.{IsFirstFault, IsPassed};
ghost use Rattle.ak_describe.specs.Read as reads;
ghost use Rattle.ak_describe.specs.Seen.{apps_data, apps_seen, state_of};

use crate::described::{AppText, described};
use crate::fault::DescribeFault;
use crate::first::{LinesSoFar, may_open_app};
use crate::parts::AppParts;
use crate::second::second_fault;
use ak_base::{RefusalKind, Trail};
use ak_input::Line;
use std::alloc::Global;
use std::marker::Model;

/// The first pass over lines that describe applications, as they come. Contracts see it as the lines that it
/// has read, and nothing is wrong with any of them, by itself or with those before it. Its end may be asked for
/// behind any line; the second pass is made behind the last one.
#[derive(Drop)]
pub struct FirstPass {
    said: LinesSoFar,
    // The number of the last line.
    last: Option<u32>,
    lines: Trail<Line>,
}

impl Model for FirstPass {
    ghost use Rattle.std.specs.Prelude.{List};
    ghost use Rattle.ak_input.specs.declared.line.Line.{Line};
    ghost use Rattle.ak_describe.specs.Read.{AreRead};
    ghost use Rattle.ak_describe.specs.Seen.{state_of};

    ghost Value = { List Line };

    ghost view = { λ pass. pass.lines };

    ghost invariant = { λ pass. AreRead pass.lines (state_of pass.said) pass.last };
}

impl FirstPass {
    /// Before the first line. Takes no memory.
    pub fn new(alloc: Global) -> FirstPass
        ensures { result ≡ [] }
    {
        FirstPass {
            said: LinesSoFar::new(alloc),
            last: None,
            lines: Trail::new(),
        }
    }

    /// Reads one line more. Refused with what is wrong with it, by itself or with the lines before it: the first
    /// of `UnknownLine`, `BadValue`, `NameInUse` and `Limit`, at its own number. That is the first fault of all
    /// lines that begin so. Answers `NoMemory` where memory ran out. The pass stays as it was then, as it does
    /// where the line is refused.
    pub fn read_line(&mut self, alloc: Global, line: &Line) -> Result<(), DescribeFault>
        ensures read { OnOk result (self.new ≡ self.old ++ line.now ∷ []) }
        ensures passes { OnOk result (IsOk (reads.lines_read self.new)) }
        ensures err { OnErr result (self.new ≡ self.old) }
        ensures answer { IfErr result (λ fault. IsTold fault (reads.lines_read (self.old ++ line.now ∷ []))) }
        ensures refused { IfErr result (IsFirstFault (self.old ++ line.now ∷ [])) }
    {
        match self.said.read_line(alloc, line) {
            Ok(()) => {
                self.last = Some(line.number);
                self.lines.push(line);
                Ok(())
            }
            Err(fault) => Err(fault.at(line.number)),
        }
    }

    /// What is wrong with the lines so far where they end here: `Unfinished`, at the number behind the last one,
    /// where the last application has no looper. Takes no memory.
    pub fn end_fault(&self) -> Option<DescribeFault>
        ensures fault { result ≡ option_map refused (reads.end_fault self.now) }
        ensures refused { IfSome result (IsFirstFault self.now) }
        ensures ended { IfNone result (reads.end_fault self.now ≡ None) }
        ensures passed { IfNone result (IsPassed self.now) }
        ensures read { IsOk (reads.lines_read self.now) }
    {
        unfinished(&self.said.apps, self.last)
    }

    /// The second pass: the applications that the lines describe, in order, each with the plans of its loopers.
    /// Refused with the first name, in the order of the lines, that is an `UnknownName`, a `ChainLoop` or against
    /// the `AskOrder`. Answers `NoMemory` where memory ran out. The pass is used up in any case.
    pub fn second_pass(self, alloc: Global) -> Result<Vec<AppText>, DescribeFault>
        requires { reads.end_fault self ≡ None }
        ensures answer { Answers apps_seen result (description self) }
        ensures described { IfOk result (λ apps. Describes self apps.items) }
        ensures refused { IfErr result (IsFirstFault self) }
    {
        app_texts(alloc, self.said)
    }
}

// The lines end with an application that has no looper.
fn unfinished(apps: &[AppParts], last: Option<u32>) -> Option<DescribeFault>
    ensures { result ≡ option_map refused (reads.left_open (apps_data apps.now) last) }
{
    if may_open_app(apps) {
        return None;
    }
    let last = last?;
    Some(DescribeFault::Refused {
        line: last.saturating_add(1),
        kind: RefusalKind::Unfinished,
    })
}

// The names are looked up, and where all of them are there, the applications are made.
fn app_texts(alloc: Global, said: LinesSoFar) -> Result<Vec<AppText>, DescribeFault>
    requires { reads.IsSaid (state_of said) }
    ensures { Answers apps_seen result (checked (state_of said)) }
{
    if let Some(fault) = second_fault(&said.apps, &said.names) {
        return Err(fault);
    }
    Ok(described(alloc, said.apps)?)
}
