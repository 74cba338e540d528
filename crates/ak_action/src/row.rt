ghost use Rattle.std.specs.Prelude.{◌≡◌, ◌==◌, ◌<◌, length, option_map, IfSome};
ghost use Rattle.std.specs.List.{position};
ghost use Rattle.ak_message.specs.Seen.{value_of};
ghost use Rattle.ak_action.specs.Row.{row_data, empty_row, place_of_property, first_of};

use crate::action::{Reaction, ReactionList};
use crate::properties::ElementsList;
use ak_base::{Code, Items, Text};
use ak_filter::FilterList;
use ak_message::Value;
use ak_property::{HandlerRow, PropertyTable};
use std::alloc::Global;

/// What a handler of a looper holds.
#[derive(Drop)]
pub struct DeskRow {
    /// Its own suites.
    pub suites: Items<Text>,
    /// Its properties.
    pub table: PropertyTable,
    /// The elements of its properties, in the order of the table's rows.
    pub elements: ElementsList,
    /// Its filters, in the order in which they run.
    pub filters: FilterList,
    /// Its reactions. The first one on a code counts.
    pub reactions: ReactionList,
}

impl DeskRow {
    /// A handler that holds nothing, as one that is added. Takes no memory.
    pub fn empty(alloc: Global) -> DeskRow
        ensures { result ≡ empty_row }
    {
        DeskRow {
            suites: Items::from_vec(Vec::new(alloc)),
            table: PropertyTable::new(alloc),
            elements: ElementsList::from_vec(Vec::new(alloc)),
            filters: FilterList::new(alloc),
            reactions: ReactionList::new(alloc),
        }
    }

    /// The place of the first property of that name in the table, counted from 0. `None` where none has it.
    /// Takes no memory.
    pub fn place_of(&self, name: &[u8]) -> Option<usize>
        ensures { result ≡ place_of_property self.now name.now }
    {
        self.table
            .as_slice()
            .iter()
            .position(|row| row.name.as_bytes() == name)
    }

    /// The value of the first element of the property of that name. `None` where there is no such property or
    /// no element. Takes no memory.
    pub fn first_of(&self, name: &[u8]) -> Option<&Value>
        ensures { option_map (λ v. value_of v.now) result ≡ first_of self.now name.now }
    {
        self.elements.first_at(self.place_of(name)?)
    }
}

impl HandlerRow for DeskRow {
    ghost told = { row_data };

    fn table(&self) -> &PropertyTable {
        &self.table
    }

    fn filters(&self) -> &FilterList {
        &self.filters
    }

    fn reaction_on(&self, what: Code) -> Option<u32> {
        let place = place_on(self.reactions.as_slice(), what)?;
        Some(place as u32)
    }
}

// The place of the first reaction on that code.
fn place_on(reactions: &[Reaction], what: Code) -> Option<usize>
    ensures value { result ≡ position (λ r. r.what.0 == what.0) reactions.now }
    ensures within { IfSome result (λ place. place < length reactions.now) }
{
    reactions.iter().position(|reaction| reaction.what == what)
}
