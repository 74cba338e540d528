//! Prints what happened at a desk.

ghost use Rattle.std.specs.Prelude.{◌≡◌, [], ◌∷◌, ◌++◌, map, codes, OnOk};
ghost use Rattle.std.specs.Fmt.{decimal};
ghost use Rattle.ak_base.specs.Error.{name_of};
ghost use Rattle.ak_print.specs.Told as told;
ghost use Rattle.ak_journal.specs.DeskLine.{answer_text, desk_words, edit_answer_text, edit_words, quit_words, route_words};
ghost use Rattle.ak_journal.specs.Parts.{behind_blanks};
ghost use Rattle.ak_journal.specs.Legible.{Fits64, FitsRoute, FitsToken};
ghost use Rattle.ak_journal.specs.Typed.{IsTypedAnswer, IsTypedDesk, IsTypedEdit, IsTypedEditAnswer};
ghost use Rattle.std.specs.List.{AllByRecursion};

use super::parts::{put_counted, put_flat, put_keyed, put_token, put_word};
use ak_action::AnswerWord;
use ak_base::{Bytes, KitError, NoMemory};
use ak_desk::{DeskEvent, Edit, EditAnswer, EntryRoute};
use ak_handler::HandlerFault;
use std::alloc::Global;

pub(crate) fn put_desk(alloc: Global, out: &mut Bytes, event: &DeskEvent) -> Result<(), NoMemory>
    ensures line { OnOk result (out.new ≡ out.old ++ behind_blanks (desk_words event.now)) }
    ensures typed { OnOk result (IsTypedDesk event.now) }
{
    match event {
        DeskEvent::Dispatched {
            position,
            route,
            answers,
            quit,
        } => put_dispatched(alloc, out, *position, *route, *quit, answers.as_slice()),
        DeskEvent::Edited { edit, answer } => put_edited(out, edit, *answer),
    }
}

// ---- dispatches
fn put_dispatched(
    alloc: Global,
    out: &mut Bytes,
    position: u64,
    route: EntryRoute,
    quit: bool,
    answers: &[AnswerWord],
) -> Result<(), NoMemory>
    ensures line { OnOk result (out.new ≡ out.old ++ behind_blanks (codes "dispatched" ∷ decimal position ∷ (route_words route ++ quit_words quit ++ map answer_text answers.now))) }
    ensures typed { OnOk result (Fits64 position × FitsRoute route × AllByRecursion IsTypedAnswer answers.now) }
{
    put_counted(out, b"dispatched", position)?;
    put_route(out, route)?;
    put_quit(out, quit)?;
    put_answers(alloc, out, answers)
}

fn put_route(out: &mut Bytes, route: EntryRoute) -> Result<(), NoMemory>
    ensures line { OnOk result (out.new ≡ out.old ++ behind_blanks (route_words route)) }
    ensures typed { OnOk result (FitsRoute route) }
{
    match route {
        EntryRoute::To(token) => put_counted(out, b"to", token),
        EntryRoute::Skipped => put_word(out, b"skipped"),
        EntryRoute::Dropped => put_word(out, b"dropped"),
        EntryRoute::NotUnderstood => put_word(out, b"not-understood"),
        EntryRoute::Forward(looper) => put_counted(out, b"forward", u64::from(looper)),
        EntryRoute::NoMemory => put_word(out, b"no-memory"),
    }
}

fn put_quit(out: &mut Bytes, quit: bool) -> Result<(), NoMemory>
    ensures { OnOk result (out.new ≡ out.old ++ behind_blanks (quit_words quit)) }
{
    if quit { put_word(out, b"quit") } else { Ok(()) }
}

fn put_answers(alloc: Global, out: &mut Bytes, answers: &[AnswerWord]) -> Result<(), NoMemory>
    ensures line { OnOk result (out.new ≡ out.old ++ behind_blanks (map answer_text answers.now)) }
    ensures typed { OnOk result (AllByRecursion IsTypedAnswer answers.now) }
{
    for answer in answers {
        put_answer(alloc, out, answer)?;
    }
    Ok(())
}

fn put_answer(alloc: Global, out: &mut Bytes, answer: &AnswerWord) -> Result<(), NoMemory>
    ensures line { OnOk result (out.new ≡ out.old ++ 32 ∷ answer_text answer.now) }
    ensures typed { OnOk result (IsTypedAnswer answer.now) }
{
    match answer {
        AnswerWord::Error(error) => put_word(out, error.name().as_bytes()),
        AnswerWord::Reply(flat) => put_flat(alloc, out, b"reply:", flat.as_slice()),
        AnswerWord::Team(team) => put_keyed(out, b"team:", u64::from(*team)),
        AnswerWord::NoTeam => put_word(out, b"no-team"),
    }
}

// ---- edits
fn put_edited(out: &mut Bytes, edit: &Edit, answer: EditAnswer) -> Result<(), NoMemory>
    ensures line { OnOk result (out.new ≡ out.old ++ behind_blanks (codes "edited" ∷ (edit_words edit.now ++ edit_answer_text answer ∷ []))) }
    ensures typed { OnOk result (IsTypedEdit edit.now × IsTypedEditAnswer answer) }
{
    put_word(out, b"edited")?;
    put_edit(out, edit)?;
    put_edit_answer(out, answer)
}

fn put_edit(out: &mut Bytes, edit: &Edit) -> Result<(), NoMemory>
    ensures line { OnOk result (out.new ≡ out.old ++ behind_blanks (edit_words edit.now)) }
    ensures typed { OnOk result (IsTypedEdit edit.now) }
{
    match edit {
        Edit::Add(name) => put_added(out, name.as_bytes()),
        Edit::Remove(token) => put_counted(out, b"remove", *token),
        Edit::Next(token, next) => put_next(out, *token, *next),
        Edit::Prefer(token) => put_prefer(out, *token),
    }
}

fn put_added(out: &mut Bytes, name: &[u8]) -> Result<(), NoMemory>
    ensures { OnOk result (out.new ≡ out.old ++ behind_blanks (codes "add" ∷ name.now ∷ [])) }
{
    put_word(out, b"add")?;
    put_word(out, name)
}

fn put_next(out: &mut Bytes, token: u64, next: Option<u64>) -> Result<(), NoMemory>
    ensures line { OnOk result (out.new ≡ out.old ++ behind_blanks (edit_words (Edit.Next token next))) }
    ensures typed { OnOk result (Fits64 token × FitsToken next) }
{
    put_counted(out, b"next", token)?;
    put_token(out, next)
}

fn put_prefer(out: &mut Bytes, token: Option<u64>) -> Result<(), NoMemory>
    ensures line { OnOk result (out.new ≡ out.old ++ behind_blanks (edit_words (Edit.Prefer token))) }
    ensures typed { OnOk result (FitsToken token) }
{
    put_word(out, b"prefer")?;
    put_token(out, token)
}

fn put_edit_answer(out: &mut Bytes, answer: EditAnswer) -> Result<(), NoMemory>
    ensures line { OnOk result (out.new ≡ out.old ++ 32 ∷ edit_answer_text answer) }
    ensures typed { OnOk result (IsTypedEditAnswer answer) }
{
    match answer {
        EditAnswer::Done => put_error(out, KitError::Ok),
        EditAnswer::Token(token) => put_keyed(out, b"token:", token),
        EditAnswer::Refused(fault) => put_error(out, error_of(fault)),
        EditAnswer::NoMemory => put_error(out, KitError::NoMemory),
    }
}

fn put_error(out: &mut Bytes, error: KitError) -> Result<(), NoMemory>
    ensures { OnOk result (out.new ≡ out.old ++ 32 ∷ name_of error) }
{
    put_word(out, error.name().as_bytes())
}

// The error by which a fault of the handlers is printed.
fn error_of(fault: HandlerFault) -> KitError
    ensures { result ≡ told.error_of fault }
{
    match fault {
        HandlerFault::NameInUse => KitError::NameInUse,
        HandlerFault::HandlerLimit => KitError::Limit,
        HandlerFault::BadHandler => KitError::BadHandler,
        HandlerFault::IsLooper => KitError::IsLooper,
        HandlerFault::ChainLoop => KitError::ChainLoop,
        HandlerFault::NoMemory => KitError::NoMemory,
    }
}
