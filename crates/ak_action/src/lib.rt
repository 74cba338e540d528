//! What a looper does with a message by its reactions: the actions of a reaction, and the messages that they
//! make. Here are also the plan of a looper as it is described, and the state of its handlers as messages and
//! edits leave it. An `Interp` carries out one reaction; it asks for one answer from outside at a time.
//! Contracts see one function of the state, the message and all answers. Nothing here waits, and nothing is
//! shared.
#![tactic(auto)]

mod action;
mod answer;
mod building;
mod doing;
mod interp;
mod laws;
mod number;
mod opening;
mod place;
mod plan;
mod properties;
mod row;
mod state;
mod template;
mod values;
mod words;

pub use action::{
    ACTION_LIMIT, Action, ActionFault, ActionList, Dest, REACTION_LIMIT, Reaction, ReactionFault,
    ReactionList,
};
pub use ak_base::CAPACITY_LIMIT;
pub use answer::{Acted, Answer, AnswerWord, Want};
pub use building::add_values;
pub use doing::Sending;
pub use interp::{ANSWER_WORD_LIMIT, Interp};
pub use laws::{
    answers_in_order, calls_act, first_reply_stays, reply_is_first, runs_act, two_words_an_action,
    words_replay,
};
pub use number::Number;
pub use opening::looper_names;
pub use plan::{LooperPlan, PlanFault, PlanParts, PlanRow, SUITE_LIMIT, plans_are_whole};
pub use properties::ElementsList;
pub use row::DeskRow;
pub use state::DeskState;
pub use template::{Given, Template, TemplateFault, TemplateField, TemplateFields};
pub use values::{Values, ValuesFault};
