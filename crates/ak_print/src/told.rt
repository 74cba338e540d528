ghost use Rattle.std.specs.Prelude.{◌≡◌, ◌++◌, OnOk, OnErr, codes};
ghost use Rattle.std.specs.Fmt.{decimal};
ghost use Rattle.ak_base.specs.Error.{name_of};
ghost use Rattle.ak_input.specs.MessageText.{message_text};
ghost use Rattle.ak_print.specs.Told.{told_line, told_text, edit_text, error_of};

use crate::message::put_message;
use ak_base::{Bytes, KitError, NoMemory, print_uint};
use ak_desk::EditAnswer;
use ak_handler::HandlerFault;
use ak_message::Message;
use std::alloc::Global;

/// What a statement came to, as the thread that carried it out learnt it.
#[derive(Drop)]
pub enum Told {
    /// A launch started the team with that number.
    Started(u32),
    /// A launch found the application running already, as the team with that number.
    Running(u32),
    /// A launch found no such application.
    NotFound,
    /// A launch would have passed a limit.
    Limit,
    /// A message was answered with that reply.
    Reply(Message),
    /// A message was posted.
    Posted,
    /// A change of the handlers of a looper was answered so.
    Edit(EditAnswer),
    /// A message was not sent, for that reason.
    Refused(KitError),
    /// No team that runs is of the application that is named.
    NoTeam,
    /// The team has no looper of that index.
    NoLooper,
}

/// Adds the line of the outcome, which ends with LF (`docs/formats.md`, Output lines). An `Err` changes nothing.
/// `NoMemory` where memory ran out.
pub fn print_outcome(alloc: Global, told: &Told, out: &mut Bytes) -> Result<(), NoMemory>
    ensures ok { OnOk result (out.new ≡ out.old ++ told_line told.now) }
    ensures err { OnErr result (out.new ≡ out.old) }
{
    let mut line = Bytes::new(alloc);
    put_told(&mut line, told)?;
    line.push(b'\n')?;
    out.extend(line.as_slice())
}

// The line without its end.
fn put_told(out: &mut Bytes, told: &Told) -> Result<(), NoMemory>
    ensures { OnOk result (out.new ≡ out.old ++ told_text told.now) }
{
    match told {
        Told::Started(team) => put_started(out, *team),
        Told::Running(team) => put_running(out, *team),
        Told::NotFound => put_error(out, b"launch ", KitError::LaunchFailedAppNotFound),
        Told::Limit => put_error(out, b"launch ", KitError::Limit),
        Told::Reply(message) => put_reply(out, message),
        Told::Posted => out.extend(b"posted"),
        Told::Edit(answer) => put_edit(out, *answer),
        Told::Refused(error) => put_error(out, b"error ", *error),
        Told::NoTeam => out.extend(b"no such application"),
        Told::NoLooper => put_error(out, b"error ", KitError::BadValue),
    }
}

fn put_started(out: &mut Bytes, team: u32) -> Result<(), NoMemory>
    ensures { OnOk result (out.new ≡ out.old ++ codes "launch team " ++ decimal team) }
{
    out.extend(b"launch team ")?;
    print_uint(u64::from(team), out)
}

fn put_running(out: &mut Bytes, team: u32) -> Result<(), NoMemory>
    ensures { OnOk result (out.new ≡ out.old ++ codes "launch " ++ name_of KitError.AlreadyRunning ++ codes " team " ++ decimal team) }
{
    put_error(out, b"launch ", KitError::AlreadyRunning)?;
    out.extend(b" team ")?;
    print_uint(u64::from(team), out)
}

fn put_reply(out: &mut Bytes, message: &Message) -> Result<(), NoMemory>
    ensures { OnOk result (out.new ≡ out.old ++ codes "reply " ++ message_text message.now) }
{
    out.extend(b"reply ")?;
    put_message(out, message)
}

fn put_edit(out: &mut Bytes, answer: EditAnswer) -> Result<(), NoMemory>
    ensures { OnOk result (out.new ≡ out.old ++ codes "edit " ++ edit_text answer) }
{
    match answer {
        EditAnswer::Done => put_error(out, b"edit ", KitError::Ok),
        EditAnswer::Token(token) => put_token(out, token),
        EditAnswer::Refused(fault) => put_error(out, b"edit ", error_of(fault)),
        EditAnswer::NoMemory => put_error(out, b"edit ", KitError::NoMemory),
    }
}

fn put_token(out: &mut Bytes, token: u64) -> Result<(), NoMemory>
    ensures { OnOk result (out.new ≡ out.old ++ codes "edit token " ++ decimal token) }
{
    out.extend(b"edit token ")?;
    print_uint(token, out)
}

// What stands first, and the error's name.
fn put_error(out: &mut Bytes, front: &[u8], error: KitError) -> Result<(), NoMemory>
    ensures { OnOk result (out.new ≡ out.old ++ front.now ++ name_of error) }
{
    out.extend(front)?;
    out.extend(error.name().as_bytes())
}

// The error by which a fault of the handlers is printed.
fn error_of(fault: HandlerFault) -> KitError
    ensures { result ≡ error_of fault }
{
    match fault {
        HandlerFault::NameInUse => KitError::NameInUse,
        HandlerFault::HandlerLimit => KitError::Limit,
        HandlerFault::BadHandler => KitError::BadHandler,
        HandlerFault::IsLooper => KitError::IsLooper,
        HandlerFault::ChainLoop => KitError::ChainLoop,
        HandlerFault::NoMemory => KitError::NoMemory,
    }
}
