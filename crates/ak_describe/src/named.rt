ghost use Rattle.std.specs.Prelude.{◌≡◌, IfOk};
ghost use Rattle.ak_describe.specs.Named as names;

use ak_action::{Action, Dest};
use ak_base::{AppWord, NoMemory, Text};
use ak_filter::Filter;

/// A name in a line that may be given by a later one, with the place of the handler where the line stands.
#[derive(Drop)]
pub(crate) struct Named {
    pub line: u32,
    pub app: usize,
    pub looper: usize,
    pub row: usize,
    pub need: Need,
}

/// What has to be there of that name.
#[derive(Drop)]
pub(crate) enum Need {
    /// A handler of the looper, which is the next one of the handler.
    Next(Text),
    /// A handler of the looper.
    Handler(Text),
    /// A looper of the application.
    Looper(Text),
    /// A looper of the application behind the one that asks.
    AskLooper(Text),
    /// An application, and none that fits but behind the one that asks.
    AskApp(AppWord),
}

/// The handler that a filter passes messages to.
pub(crate) fn need_of_filter(filter: &Filter) -> Result<Option<Need>, NoMemory>
    ensures { IfOk result (λ need. need ≡ names.need_of_filter filter.now) }
{
    match &filter.to {
        Some(name) => Ok(Some(Need::Handler(name.try_clone()?))),
        None => Ok(None),
    }
}

/// What an action sends to. An application that a message is posted to need not be there.
pub(crate) fn need_of_action(action: &Action) -> Result<Option<Need>, NoMemory>
    ensures { IfOk result (λ need. need ≡ names.need_of_action action.now) }
{
    match action {
        Action::Post { to, .. } => need_of_post(to),
        Action::Ask { to, .. } => need_of_ask(to),
        Action::Reply { .. }
        | Action::Set { .. }
        | Action::Add { .. }
        | Action::Stop
        | Action::Quit => Ok(None),
    }
}

fn need_of_post(to: &Dest) -> Result<Option<Need>, NoMemory>
    ensures { IfOk result (λ need. need ≡ names.need_of_post to.now) }
{
    match to {
        Dest::Looper(name) => Ok(Some(Need::Looper(name.try_clone()?))),
        Dest::Handler(name) => Ok(Some(Need::Handler(name.try_clone()?))),
        Dest::Own | Dest::App(_) => Ok(None),
    }
}

fn need_of_ask(to: &Dest) -> Result<Option<Need>, NoMemory>
    ensures { IfOk result (λ need. need ≡ names.need_of_ask to.now) }
{
    match to {
        Dest::Looper(name) => Ok(Some(Need::AskLooper(name.try_clone()?))),
        Dest::App(word) => Ok(Some(Need::AskApp(word.try_clone()?))),
        Dest::Own | Dest::Handler(_) => Ok(None),
    }
}
