ghost use Rattle.std.specs.Prelude.{◌≡◌, ◌++◌, ◌∷◌, [], ◌≤◌, ◌↔◌, length, IfOk, IsErrOf, OnOk, OnErr};
ghost use Rattle.ak_action.specs.Limits.{action_limit, reaction_limit};

use crate::number::Number;
use crate::template::{Given, Template};
use ak_base::{AppWord, Code, NoMemory, Text};
use std::alloc::{AllocFailed, Global};
use std::error::Error;
use std::fmt;
use std::marker::Model;

/// How many actions a reaction may have.
pub const ACTION_LIMIT: usize = 16;

/// Where an action sends a message. Where that is not there the action has the word that is named here.
#[derive(Drop)]
pub enum Dest {
    /// The preferred target of its own looper.
    Own,
    /// The preferred target of the application's looper of that name; `K_NO_TEAM` where none has it.
    Looper(Text),
    /// The handler of its own looper that has that name then. `B_BAD_HANDLER` where none has it.
    Handler(Text),
    /// The preferred target of a running application's own looper, which is looked for first; `K_NO_TEAM`
    /// where none fits.
    App(AppWord),
}

/// One thing that a handler does on a message. What comes of it is its answer word: `B_NO_MEMORY` where it
/// finds no memory, and then no further action is carried out.
#[derive(Drop)]
pub enum Action {
    /// The message is the reply, unless there is one already: that one stays, and the word is
    /// `B_DUPLICATE_REPLY`.
    Reply {
        /// What it is made of.
        message: Template,
    },
    /// Sends a message and waits for nothing; `back` asks for an answer to this handler. Where an application
    /// was looked for, whether it was found is a word before that of the sending.
    Post {
        /// Where it goes.
        to: Dest,
        /// What the message is made of.
        message: Template,
        /// Whether an answer is asked for.
        back: bool,
    },
    /// Sends a message and waits for its reply. Where the reply has `result` of that property's kind, the
    /// property's first element gets its first value. Its words are as those of a post.
    Ask {
        /// Where it goes.
        to: Dest,
        /// What the message is made of.
        message: Template,
        /// The name of the property that gets the result, if one does.
        into: Option<Text>,
    },
    /// Gives the first element of the property that value, the first of several. The word is `B_OK`, or the
    /// first of these: `B_NAME_NOT_FOUND` where the value is not there, `B_BAD_TYPE`, `B_BAD_INDEX` where the
    /// element is not there.
    Set {
        /// Its name.
        property: Text,
        /// What it gets.
        value: Given,
    },
    /// Adds that number to the first element of the property. The word is `B_OK`, `B_BAD_INDEX` where there
    /// is no element, or `B_BAD_VALUE` where the two have no sum.
    Add {
        /// Its name.
        property: Text,
        /// What is added.
        amount: Number,
    },
    /// No further action is carried out. The word is `B_OK`.
    Stop,
    /// The looper ends after this message; the actions go on. The word is `B_OK`.
    Quit,
}

/// Why an action was not added. They are tested in this order.
#[derive(Clone, Copy, Debug, PartialEq, Eq)]
pub enum ActionFault {
    /// There are 16 actions.
    ActionLimit,
    /// Memory ran out.
    NoMemory,
}

impl fmt::Display for ActionFault {
    fn fmt<W: fmt::Write>(&self, f: &mut fmt::Formatter<W>) -> fmt::Result {
        match self {
            ActionFault::ActionLimit => f.write_str("there are 16 actions"),
            ActionFault::NoMemory => f.write_str("no memory"),
        }
    }
}

impl Error for ActionFault {}

impl<T: Drop> From<AllocFailed<T>> for ActionFault {
    ghost use Rattle.std.specs.Prelude.{◌≡◌};
    ghost use Rattle.ak_action.specs.declared.action.ActionFault.TheVariants.{NoMemory};

    ghost from_gives = { λ _ e. e ≡ NoMemory };

    fn from(_error: AllocFailed<T>) -> ActionFault {
        ActionFault::NoMemory
    }
}

/// Actions in the order in which they are carried out, at most 16. Contracts see their list.
#[derive(Drop)]
pub struct ActionList {
    list: Vec<Action>,
}

impl Model for ActionList {
    ghost use Rattle.std.specs.Prelude.{◌≤◌, List, length};
    ghost use Rattle.std.specs.Coded.{coded_list};
    ghost use Rattle.ak_action.specs.contracts.action.Action.{the_row};
    ghost use Rattle.ak_action.specs.declared.action.Action.{Action};
    ghost use Rattle.ak_action.specs.Limits.{action_limit};

    ghost Value = { List Action };

    ghost coded = { coded_list the_row.coded };

    ghost view = { λ l. l.list.items };

    ghost invariant = { λ l. length l.list.items ≤ action_limit };
}

/// What a handler does on messages of that code. Of several on one code the first counts.
#[derive(Drop)]
pub struct Reaction {
    /// The code.
    pub what: Code,
    /// What is done, in order.
    pub actions: ActionList,
}

impl Dest {
    /// An equal one. `NoMemory` where memory ran out.
    pub fn try_clone(&self) -> Result<Dest, NoMemory>
        ensures { IfOk result (λ d. d ≡ self.now) }
    {
        match self {
            Dest::Own => Ok(Dest::Own),
            Dest::Looper(name) => Ok(Dest::Looper(name.try_clone()?)),
            Dest::Handler(name) => Ok(Dest::Handler(name.try_clone()?)),
            Dest::App(word) => Ok(Dest::App(word.try_clone()?)),
        }
    }
}

impl Action {
    /// An equal one. `NoMemory` where memory ran out.
    pub fn try_clone(&self) -> Result<Action, NoMemory>
        ensures { IfOk result (λ a. a ≡ self.now) }
    {
        match self {
            Action::Reply { message } => Ok(Action::Reply {
                message: message.try_clone()?,
            }),
            Action::Post { to, message, back } => copied_post(to, message, *back),
            Action::Ask { to, message, into } => copied_ask(to, message, into),
            Action::Set { property, value } => copied_set(property, value),
            Action::Add { property, amount } => Ok(Action::Add {
                property: property.try_clone()?,
                amount: *amount,
            }),
            Action::Stop => Ok(Action::Stop),
            Action::Quit => Ok(Action::Quit),
        }
    }
}

impl ActionList {
    /// No actions. Takes no memory.
    pub fn new(alloc: Global) -> ActionList
        ensures { result ≡ [] }
    {
        ActionList {
            list: Vec::new(alloc),
        }
    }

    /// Adds an action at the end. `ActionLimit` at 16 actions. An `Err` changes nothing, and the action is
    /// dropped. `NoMemory` where memory ran out.
    pub fn push(&mut self, action: Action) -> Result<(), ActionFault>
        ensures limit { IsErrOf result ActionFault.ActionLimit ↔ (length self.old ≡ action_limit) }
        ensures ok { OnOk result (self.new ≡ self.old ++ action ∷ []) }
        ensures err { OnErr result (self.new ≡ self.old) }
    {
        if self.list.len() >= ACTION_LIMIT {
            return Err(ActionFault::ActionLimit);
        }
        self.list.push(action)?;
        Ok(())
    }

    /// The actions in order. Takes no memory.
    pub fn as_slice(&self) -> &[Action]
        ensures value { result.now ≡ self.now }
        ensures limit { length self.now ≤ action_limit }
    {
        self.list.as_slice()
    }

    /// Equal actions. `NoMemory` where memory ran out.
    pub fn try_clone(&self) -> Result<ActionList, NoMemory>
        ensures { IfOk result (λ l. l ≡ self.now) }
    {
        let list = copied_actions(*self.list.allocator(), &self.list)?;
        Ok(ActionList { list })
    }
}

impl Reaction {
    /// An equal one. `NoMemory` where memory ran out.
    pub fn try_clone(&self) -> Result<Reaction, NoMemory>
        ensures { IfOk result (λ r. r ≡ self.now) }
    {
        Ok(Reaction {
            what: self.what,
            actions: self.actions.try_clone()?,
        })
    }
}

/// How many reactions a handler may have.
pub const REACTION_LIMIT: usize = 64;

/// Why a reaction was not added. They are tested in this order.
#[derive(Clone, Copy, Debug, PartialEq, Eq)]
pub enum ReactionFault {
    /// There are 64 reactions.
    ReactionLimit,
    /// Memory ran out.
    NoMemory,
}

impl fmt::Display for ReactionFault {
    fn fmt<W: fmt::Write>(&self, f: &mut fmt::Formatter<W>) -> fmt::Result {
        match self {
            ReactionFault::ReactionLimit => f.write_str("there are 64 reactions"),
            ReactionFault::NoMemory => f.write_str("no memory"),
        }
    }
}

impl Error for ReactionFault {}

impl<T: Drop> From<AllocFailed<T>> for ReactionFault {
    ghost use Rattle.std.specs.Prelude.{◌≡◌};
    ghost use Rattle.ak_action.specs.declared.action.ReactionFault.TheVariants.{NoMemory};

    ghost from_gives = { λ _ e. e ≡ NoMemory };

    fn from(_error: AllocFailed<T>) -> ReactionFault {
        ReactionFault::NoMemory
    }
}

/// The reactions of a handler, at most 64. Contracts see their list.
#[derive(Drop)]
pub struct ReactionList {
    list: Vec<Reaction>,
}

impl Model for ReactionList {
    ghost use Rattle.std.specs.Prelude.{◌≤◌, List, length};
    ghost use Rattle.std.specs.Coded.{coded_list};
    ghost use Rattle.ak_action.specs.contracts.action.Reaction.{the_row};
    ghost use Rattle.ak_action.specs.declared.action.Reaction.{Reaction};
    ghost use Rattle.ak_action.specs.Limits.{reaction_limit};

    ghost Value = { List Reaction };

    ghost coded = { coded_list the_row.coded };

    ghost view = { λ l. l.list.items };

    ghost invariant = { λ l. length l.list.items ≤ reaction_limit };
}

impl ReactionList {
    /// No reactions. Takes no memory.
    pub fn new(alloc: Global) -> ReactionList
        ensures { result ≡ [] }
    {
        ReactionList {
            list: Vec::new(alloc),
        }
    }

    /// Adds a reaction at the end. `ReactionLimit` at 64 reactions. An `Err` changes nothing, and the
    /// reaction is dropped. `NoMemory` where memory ran out.
    pub fn push(&mut self, reaction: Reaction) -> Result<(), ReactionFault>
        ensures limit { IsErrOf result ReactionFault.ReactionLimit ↔ (length self.old ≡ reaction_limit) }
        ensures ok { OnOk result (self.new ≡ self.old ++ reaction ∷ []) }
        ensures err { OnErr result (self.new ≡ self.old) }
    {
        if self.list.len() >= REACTION_LIMIT {
            return Err(ReactionFault::ReactionLimit);
        }
        self.list.push(reaction)?;
        Ok(())
    }

    /// The reactions in order. Takes no memory.
    pub fn as_slice(&self) -> &[Reaction]
        ensures value { result.now ≡ self.now }
        ensures limit { length self.now ≤ reaction_limit }
    {
        self.list.as_slice()
    }

    /// Equal reactions. `NoMemory` where memory ran out.
    pub fn try_clone(&self) -> Result<ReactionList, NoMemory>
        ensures { IfOk result (λ l. l ≡ self.now) }
    {
        let list = copied_reactions(*self.list.allocator(), &self.list)?;
        Ok(ReactionList { list })
    }
}

fn copied_actions(alloc: Global, actions: &[Action]) -> Result<Vec<Action>, NoMemory>
    ensures { IfOk result (λ copies. copies.items ≡ actions.now) }
{
    let mut copies = Vec::with_capacity(alloc, actions.len())?;
    for action in actions {
        copies.push(action.try_clone()?)?;
    }
    Ok(copies)
}

fn copied_reactions(alloc: Global, reactions: &[Reaction]) -> Result<Vec<Reaction>, NoMemory>
    ensures { IfOk result (λ copies. copies.items ≡ reactions.now) }
{
    let mut copies = Vec::with_capacity(alloc, reactions.len())?;
    for reaction in reactions {
        copies.push(reaction.try_clone()?)?;
    }
    Ok(copies)
}

fn copied_post(to: &Dest, message: &Template, back: bool) -> Result<Action, NoMemory>
    ensures { IfOk result (λ a. a ≡ Action.Post to.now message.now back) }
{
    Ok(Action::Post {
        to: to.try_clone()?,
        message: message.try_clone()?,
        back,
    })
}

fn copied_ask(to: &Dest, message: &Template, into: &Option<Text>) -> Result<Action, NoMemory>
    ensures { IfOk result (λ a. a ≡ Action.Ask to.now message.now into.now) }
{
    Ok(Action::Ask {
        to: to.try_clone()?,
        message: message.try_clone()?,
        into: copied_name(into)?,
    })
}

fn copied_set(property: &Text, value: &Given) -> Result<Action, NoMemory>
    ensures { IfOk result (λ a. a ≡ Action.Set property.now value.now) }
{
    Ok(Action::Set {
        property: property.try_clone()?,
        value: value.try_clone()?,
    })
}

/// An equal name, where there is one. `NoMemory` where memory ran out.
pub(crate) fn copied_name(name: &Option<Text>) -> Result<Option<Text>, NoMemory>
    ensures { IfOk result (λ t. t ≡ name.now) }
{
    match name {
        Some(name) => Ok(Some(name.try_clone()?)),
        None => Ok(None),
    }
}
