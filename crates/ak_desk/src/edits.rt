ghost use Rattle.std.specs.Prelude.{◌≡◌, ◌<◌, ◌^◌, None};
ghost use Rattle.ak_desk.specs.Desk.{stamp_in};
ghost use Rattle.ak_desk.specs.Machine.{EditsHandlers, is_no_memory, refusal};

use crate::desk::Desk;
use crate::ending::add;
use crate::entry::{DeskEvent, Edit, EditAnswer};
use ak_action::DeskRow;
use ak_base::Text;
use ak_handler::{HandlerFault, HandlerSet};
use ak_turn::Clock;
use std::alloc::Global;

impl Desk {
    ghost use Rattle.ak_desk.specs.Desk.{Edits, HasAdded, edit_entry};

    /// Changes the handlers, where nothing is begun: a new one that holds nothing, one less, another next
    /// handler, another preferred one. The edit and its answer are one entry, by the clock's thread, with the
    /// clock's next stamp. A refusal changes nothing and is an entry too. `NoMemory` changes nothing, and there
    /// is no entry.
    pub fn edit(&mut self, edit: Edit, clock: &mut Clock) -> EditAnswer
        requires rest { self.old.begun ≡ None }
        requires time { clock.old.time < 2 ^ 63 }
        requires last { stamp_in self.old.entries < 2 ^ 63 }
        ensures edits { Edits self.old clock.old edit result self.new clock.new }
        ensures added { HasAdded (edit_entry edit result) clock.old clock.new self.old self.new }
    {
        if self.entries.reserve(2).is_err() {
            return EditAnswer::NoMemory;
        }
        let answer = changed(*self.entries.allocator(), &mut self.state.handlers, &edit);
        if is_no_memory(answer) {
            return answer;
        }
        add(
            &mut self.entries,
            clock,
            DeskEvent::Edited { edit, answer },
            None,
        );
        answer
    }
}

fn is_no_memory(answer: EditAnswer) -> bool
    ensures { result ≡ is_no_memory answer }
{
    matches!(answer, EditAnswer::NoMemory)
}

fn changed(alloc: Global, handlers: &mut HandlerSet<DeskRow>, edit: &Edit) -> EditAnswer
    ensures { EditsHandlers handlers.old edit.now result handlers.new }
{
    match edit {
        Edit::Add(name) => added(alloc, handlers, name),
        Edit::Remove(token) => removed(handlers, *token),
        Edit::Next(token, next) => linked(handlers, *token, *next),
        Edit::Prefer(token) => preferred(handlers, *token),
    }
}

// A new handler that holds nothing.
fn added(alloc: Global, handlers: &mut HandlerSet<DeskRow>, name: &Text) -> EditAnswer
    ensures { EditsHandlers handlers.old (Edit.Add name.now) result handlers.new }
{
    let Ok(name) = name.try_clone() else {
        return EditAnswer::NoMemory;
    };
    match handlers.add(name, DeskRow::empty(alloc)) {
        Ok(token) => EditAnswer::Token(token),
        Err(fault) => refused(fault),
    }
}

fn refused(fault: HandlerFault) -> EditAnswer
    ensures { result ≡ refusal fault }
{
    match fault {
        HandlerFault::NoMemory => EditAnswer::NoMemory,
        fault => EditAnswer::Refused(fault),
    }
}

fn removed(handlers: &mut HandlerSet<DeskRow>, token: u64) -> EditAnswer
    ensures { EditsHandlers handlers.old (Edit.Remove token) result handlers.new }
{
    match handlers.remove(token) {
        Ok(row) => gone(row),
        Err(fault) => EditAnswer::Refused(fault),
    }
}

// What the handler held is let go.
fn gone(_row: DeskRow) -> EditAnswer
    ensures { result ≡ EditAnswer.Done }
{
    EditAnswer::Done
}

fn linked(handlers: &mut HandlerSet<DeskRow>, token: u64, next: Option<u64>) -> EditAnswer
    ensures { EditsHandlers handlers.old (Edit.Next token next) result handlers.new }
{
    match handlers.set_next(token, next) {
        Ok(()) => EditAnswer::Done,
        Err(fault) => EditAnswer::Refused(fault),
    }
}

fn preferred(handlers: &mut HandlerSet<DeskRow>, token: Option<u64>) -> EditAnswer
    ensures { EditsHandlers handlers.old (Edit.Prefer token) result handlers.new }
{
    match handlers.set_preferred(token) {
        Ok(()) => EditAnswer::Done,
        Err(fault) => EditAnswer::Refused(fault),
    }
}
