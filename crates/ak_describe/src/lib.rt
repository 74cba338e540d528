//! Reads the lines that describe applications. `read_description` answers each application with the plans of
//! its loopers, or the first line with a fault, and the first of its faults. A fault is what may not stand
//! there, a value that is none, a name given again, or a limit. Where no line has one of these, names are
//! looked up. Each has to be there, handlers lead back to none, and an ask goes to what is described later.
//! `FirstPass` makes the two passes one after the other, over lines as they come. Nothing here waits, and
//! nothing is shared.
#![tactic(auto)]

ghost use Rattle.std.specs.Prelude.{◌≡◌, IfOk, IfErr};
ghost use Rattle.ak_describe.specs.Answers.{Answers, IsTold};
ghost use Rattle.ak_describe.specs.Describes.{Describes};
ghost use Rattle.ak_describe.specs.Description.{description};
ghost use Rattle.ak_describe.specs.Laws.{IsFirstFault};
ghost use Rattle.ak_describe.specs.Read.{lines_read};
ghost use Rattle.ak_describe.specs.Seen.{apps_seen};

mod described;
mod fault;
mod first;
mod form;
mod keyword;
mod laws;
mod named;
mod parts;
mod pass;
mod second;
mod words;

pub use ak_base::APP_LOOPER_LIMIT;
use ak_input::Line;
pub use ak_roster::APP_LIMIT;
pub use described::AppText;
pub use fault::DescribeFault;
pub use laws::{
    described_or_faulty, descriptions_are_read, descriptions_are_whole, names_have_places,
    passes_make_descriptions,
};
pub use pass::FirstPass;
use std::alloc::Global;
pub use words::{behind, ends};

/// The applications that these lines describe, in order, each with the plans of its loopers. The lines are
/// those behind the input's first one, up to those that are no description; any other line is unknown here.
/// Refused with the first fault. The first pass goes line by line, and tests of each, in this order,
/// `UnknownLine`, `BadValue`, `NameInUse` and `Limit`. Where the last application has no looper then, it is
/// `Unfinished`, at the number behind the last line. The second pass goes name by name, in the order of lines:
/// `UnknownName`, `ChainLoop` or `AskOrder`. Answers `NoMemory` where memory ran out.
pub fn read_description(alloc: Global, lines: &[Line]) -> Result<Vec<AppText>, DescribeFault>
    ensures answer { Answers apps_seen result (description lines.now) }
    ensures described { IfOk result (λ apps. Describes lines.now apps.items) }
    ensures refused { IfErr result (IsFirstFault lines.now) }
{
    let pass = read_lines(alloc, lines)?;
    if let Some(fault) = pass.end_fault() {
        return Err(fault);
    }
    pass.second_pass(alloc)
}

// The first pass over all of them.
fn read_lines(alloc: Global, lines: &[Line]) -> Result<FirstPass, DescribeFault>
    ensures read { IfOk result (λ pass. pass ≡ lines.now) }
    ensures refused { IfErr result (λ fault. IsTold fault (lines_read lines.now)) }
{
    let mut pass = FirstPass::new(alloc);
    for line in lines {
        pass.read_line(alloc, line)?;
    }
    Ok(pass)
}
