//! Edits of the handlers.

ghost use Rattle.std.specs.Prelude.{◌≡◌, None, OnOk};

use crate::bench::Bench;
use crate::stop::Stop;
use crate::telling::{number, put_number, word};
use ak_base::{Bytes, NoMemory};
use ak_desk::{Edit, EditAnswer};
use ak_handler::HandlerFault;
use run_lists::may_stamp;

/// Makes the edit, and tells its answer.
pub(crate) fn edit(bench: &mut Bench, e: Edit, told: &mut Bytes) -> Result<(), Stop>
    requires { bench.old.desk.begun ≡ None }
    ensures { OnOk result (bench.new.desk.begun ≡ None) }
{
    if !may_stamp(&bench.desk, &bench.clock) {
        return Err(Stop::NoOperation);
    }
    let answer = bench.desk.edit(e, &mut bench.clock);
    tell_answer(told, answer)?;
    Ok(told.push(b'\n')?)
}

/// Tells the answer of an edit.
pub(crate) fn tell_answer(out: &mut Bytes, answer: EditAnswer) -> Result<(), NoMemory> {
    match answer {
        EditAnswer::Done => out.extend(b"done"),
        EditAnswer::Token(token) => {
            out.extend(b"token")?;
            number(out, token)
        }
        EditAnswer::Refused(fault) => {
            out.extend(b"refused")?;
            word(out, refusal(fault))
        }
        EditAnswer::NoMemory => out.extend(b"no memory"),
    }
}

fn refusal(fault: HandlerFault) -> &'static [u8] {
    match fault {
        HandlerFault::NameInUse => b"name in use",
        HandlerFault::HandlerLimit => b"handler limit",
        HandlerFault::BadHandler => b"bad handler",
        HandlerFault::IsLooper => b"is looper",
        HandlerFault::ChainLoop => b"chain loop",
        HandlerFault::NoMemory => b"no memory",
    }
}

/// Tells the edit as it is written.
pub(crate) fn tell_edit(out: &mut Bytes, e: &Edit) -> Result<(), NoMemory> {
    match e {
        Edit::Add(name) => {
            out.extend(b"add")?;
            word(out, name.as_bytes())
        }
        Edit::Remove(token) => {
            out.extend(b"remove ")?;
            put_number(out, *token)
        }
        Edit::Next(token, next) => {
            out.extend(b"next ")?;
            put_number(out, *token)?;
            tell_token(out, *next)
        }
        Edit::Prefer(token) => {
            out.extend(b"prefer")?;
            tell_token(out, *token)
        }
    }
}

// Nothing of none.
fn tell_token(out: &mut Bytes, token: Option<u64>) -> Result<(), NoMemory> {
    match token {
        Some(token) => number(out, token),
        None => Ok(()),
    }
}
