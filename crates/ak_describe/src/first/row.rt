//! The lines of a handler.

ghost use Rattle.std.specs.Prelude.{◌≡◌, OnErr};
ghost use Rattle.ak_describe.specs.Answers.{Gives, Leaves, Tells};
ghost use Rattle.ak_describe.specs.Pass as reads;
ghost use Rattle.ak_describe.specs.Seen.{row_data};
ghost use Rattle.ak_describe.specs.Words.{texts};

use crate::fault::{FormFault, LineFault};
use crate::form::actions::{add_form, ask_form, post_form, reply_form, set_form};
use crate::form::filter::filter_form;
use crate::form::property::{PropertyForm, element_form, property_form};
use crate::keyword::Keyword;
use crate::named::{Need, need_of_action, need_of_filter};
use crate::parts::{PropertyParts, RowParts, property_named};
use crate::words::{ends, only_code, only_name};
use ak_action::{Action, ActionList, REACTION_LIMIT, Reaction, SUITE_LIMIT};
use ak_base::Limited;
use ak_input::Word;
use ak_property::{PropertyRow, ROW_LIMIT};
use ak_value::Elements;
use std::alloc::Global;

impl RowParts {
    /// What the further words of a line of a handler add.
    pub(crate) fn carry(
        &mut self,
        alloc: Global,
        keyword: Keyword,
        words: &[Word],
    ) -> Result<Option<Need>, LineFault>
        ensures read { Leaves result (row_data self.new) (reads.carry_in_row (row_data self.old) keyword (texts words.now)) }
        ensures err { OnErr result (row_data self.new ≡ row_data self.old) }
    {
        match keyword {
            Keyword::Next => self.next_line(alloc, words),
            Keyword::Suite => self.suite_line(alloc, words),
            Keyword::Filter => self.filter_line(alloc, words),
            Keyword::Property => self.property_line(alloc, words),
            Keyword::Element => self.element_line(alloc, words),
            Keyword::On => self.reaction_line(alloc, words),
            _ => self.action_line(alloc, keyword, words),
        }
    }

    // The next handler.
    fn next_line(&mut self, alloc: Global, words: &[Word]) -> Result<Option<Need>, LineFault>
        ensures read { Leaves result (row_data self.new) (reads.next_line (row_data self.old) (texts words.now)) }
        ensures err { OnErr result (row_data self.new ≡ row_data self.old) }
    {
        let name = only_name(alloc, words)?;
        let need = Need::Next(name.try_clone()?);
        self.next = Some(name);
        Ok(Some(need))
    }

    fn suite_line(&mut self, alloc: Global, words: &[Word]) -> Result<Option<Need>, LineFault>
        ensures read { Leaves result (row_data self.new) (reads.suite_line (row_data self.old) (texts words.now)) }
        ensures err { OnErr result (row_data self.new ≡ row_data self.old) }
    {
        let name = only_name(alloc, words)?;
        if self.suites.len() >= SUITE_LIMIT {
            return Err(LineFault::Limit);
        }
        self.suites.push(name)?;
        Ok(None)
    }

    fn filter_line(&mut self, alloc: Global, words: &[Word]) -> Result<Option<Need>, LineFault>
        ensures read { Leaves result (row_data self.new) (reads.filter_line (row_data self.old) (texts words.now)) }
        ensures err { OnErr result (row_data self.new ≡ row_data self.old) }
    {
        let filter = filter_form(alloc, words)?;
        let need = need_of_filter(&filter)?;
        self.filters.push(filter)?;
        Ok(need)
    }

    // A property begins.
    fn property_line(&mut self, alloc: Global, words: &[Word]) -> Result<Option<Need>, LineFault>
        ensures read { Leaves result (row_data self.new) (reads.property_line (row_data self.old) (texts words.now)) }
        ensures err { OnErr result (row_data self.new ≡ row_data self.old) }
    {
        let form = property_form(alloc, words)?;
        if property_named(&self.properties, form.name.as_bytes()).is_some() {
            return Err(LineFault::NameInUse);
        }
        self.add_property(alloc, form)
    }

    // The property, where it passes no limit.
    fn add_property(&mut self, alloc: Global, form: PropertyForm) -> Result<Option<Need>, LineFault>
        ensures read { Leaves result (row_data self.new) (reads.property_added (row_data self.old) form form.usage) }
        ensures err { OnErr result (row_data self.new ≡ row_data self.old) }
    {
        let PropertyForm {
            name,
            kind,
            commands,
            forms,
            usage,
        } = form;
        let Limited::Within(usage) = usage else {
            return Err(LineFault::Limit);
        };
        if self.properties.len() >= ROW_LIMIT {
            return Err(LineFault::Limit);
        }
        let elements = Elements::new(alloc, kind, Vec::new(alloc))?;
        self.properties.push(PropertyParts {
            row: PropertyRow {
                name,
                kind,
                commands,
                forms,
                usage,
            },
            elements,
        })?;
        Ok(None)
    }

    // An element of the last property.
    fn element_line(&mut self, alloc: Global, words: &[Word]) -> Result<Option<Need>, LineFault>
        ensures read { Leaves result (row_data self.new) (reads.element_line (row_data self.old) (texts words.now)) }
        ensures err { OnErr result (row_data self.new ≡ row_data self.old) }
    {
        match self.properties.last_mut() {
            Some(property) => property.element_line(alloc, words),
            None => Err(LineFault::UnknownLine),
        }
    }

    // A reaction begins.
    fn reaction_line(&mut self, alloc: Global, words: &[Word]) -> Result<Option<Need>, LineFault>
        ensures read { Leaves result (row_data self.new) (reads.reaction_line (row_data self.old) (texts words.now)) }
        ensures err { OnErr result (row_data self.new ≡ row_data self.old) }
    {
        let what = only_code(words)?;
        if self.has_reaction(what) {
            return Err(LineFault::NameInUse);
        }
        if self.reactions.len() >= REACTION_LIMIT {
            return Err(LineFault::Limit);
        }
        self.reactions.push(Reaction {
            what,
            actions: ActionList::new(alloc),
        })?;
        Ok(None)
    }

    // An action of the last reaction.
    fn action_line(
        &mut self,
        alloc: Global,
        keyword: Keyword,
        words: &[Word],
    ) -> Result<Option<Need>, LineFault>
        ensures read { Leaves result (row_data self.new) (reads.action_line (row_data self.old) keyword (texts words.now)) }
        ensures err { OnErr result (row_data self.new ≡ row_data self.old) }
    {
        match action_from(alloc, &self.properties, keyword, words)? {
            Limited::Within(action) => self.add_action(action),
            Limited::Over => Err(LineFault::Limit),
        }
    }

    fn add_action(&mut self, action: Action) -> Result<Option<Need>, LineFault>
        ensures read { Leaves result (row_data self.new) (reads.action_added (row_data self.old) action) }
        ensures err { OnErr result (row_data self.new ≡ row_data self.old) }
    {
        match self.reactions.last_mut() {
            Some(reaction) => with_action(reaction, action),
            None => Err(LineFault::UnknownLine),
        }
    }
}

// One action more, and what it names.
fn with_action(reaction: &mut Reaction, action: Action) -> Result<Option<Need>, LineFault>
    ensures read { Leaves result reaction.new (reads.with_action action reaction.old) }
    ensures err { OnErr result (reaction.new ≡ reaction.old) }
{
    let need = need_of_action(&action)?;
    reaction.actions.push(action)?;
    Ok(need)
}

// The action that a line writes, where it passes no limit.
fn action_from(
    alloc: Global,
    properties: &[PropertyParts],
    keyword: Keyword,
    words: &[Word],
) -> Result<Limited<Action>, LineFault>
    ensures { Tells result (reads.action_from properties.now keyword (texts words.now)) }
{
    match keyword {
        Keyword::Reply => Ok(reply_form(alloc, properties, words)?),
        Keyword::Post => Ok(post_form(alloc, properties, words)?),
        Keyword::Ask => Ok(ask_form(alloc, properties, words)?),
        Keyword::Set => Ok(set_form(alloc, properties, words)?),
        Keyword::Add => Ok(added_form(alloc, properties, words)?),
        Keyword::Drop => Ok(bare(Action::Stop, words)?),
        Keyword::Quit => Ok(bare(Action::Quit, words)?),
        _ => Err(LineFault::UnknownLine),
    }
}

fn added_form(
    alloc: Global,
    properties: &[PropertyParts],
    words: &[Word],
) -> Result<Limited<Action>, FormFault>
    ensures { Gives (λ a. a) result (reads.added_form properties.now (texts words.now)) }
{
    let action = add_form(alloc, properties, words)?;
    Ok(Limited::Within(action))
}

// An action alone.
fn bare(action: Action, words: &[Word]) -> Result<Limited<Action>, FormFault>
    ensures { Gives (λ a. a) result (reads.bare action (texts words.now)) }
{
    if ends(words) {
        Ok(Limited::Within(action))
    } else {
        Err(FormFault::BadValue)
    }
}

impl PropertyParts {
    // An element, whose value has to be of the property's kind.
    fn element_line(&mut self, alloc: Global, words: &[Word]) -> Result<Option<Need>, LineFault>
        ensures read { Leaves result self.new (reads.element_in self.old (texts words.now)) }
        ensures err { OnErr result (self.new ≡ self.old) }
    {
        match element_form(alloc, self.row.kind, words)? {
            Limited::Within((name, value)) => {
                self.elements.add(name, value)?;
                Ok(None)
            }
            Limited::Over => Err(LineFault::Limit),
        }
    }
}
