ghost use Rattle.std.specs.Prelude.{◌≡◌, option_map};
ghost use Rattle.ak_describe.specs.Parts as reads;
ghost use Rattle.ak_describe.specs.Pass.{is_before_handlers};
ghost use Rattle.ak_describe.specs.Seen.{looper_data, loopers_data, row_data, rows_data, property_seen};

use ak_action::Reaction;
use ak_base::{Code, Text};
use ak_filter::FilterList;
use ak_property::PropertyRow;
use ak_roster::Mode;
use ak_value::Elements;
use std::alloc::Global;

/// An application as far as its lines are read. The last of its loopers is open.
#[derive(Drop)]
pub(crate) struct AppParts {
    pub path: Text,
    pub signature: Text,
    pub mode: Mode,
    pub loopers: Vec<LooperParts>,
}

/// A looper as far as its lines are read: its handlers, itself first, of which the last is open.
#[derive(Drop)]
pub(crate) struct LooperParts {
    pub name: Text,
    pub capacity: u32,
    pub quit_refused: bool,
    pub preferred: Option<Text>,
    pub common: FilterList,
    pub rows: Vec<RowParts>,
}

/// A handler as far as its lines are read. The last of its properties may get elements, and the last of its
/// reactions actions.
#[derive(Drop)]
pub(crate) struct RowParts {
    pub name: Text,
    pub next: Option<Text>,
    pub suites: Vec<Text>,
    pub properties: Vec<PropertyParts>,
    pub filters: FilterList,
    pub reactions: Vec<Reaction>,
}

/// A property with its elements.
#[derive(Drop)]
pub(crate) struct PropertyParts {
    pub row: PropertyRow,
    pub elements: Elements,
}

impl AppParts {
    /// The place of its looper of that name.
    pub(crate) fn looper_named(&self, name: &[u8]) -> Option<usize>
        ensures { result ≡ reads.looper_named (loopers_data self.now.loopers.items) name.now }
    {
        looper_named(&self.loopers, name)
    }
}

fn looper_named(loopers: &[LooperParts], name: &[u8]) -> Option<usize>
    ensures { result ≡ reads.looper_named (loopers_data loopers.now) name.now }
{
    loopers
        .iter()
        .position(|looper| looper.name.as_bytes() == name)
}

impl LooperParts {
    /// The place of its handler of that name; its own is 0.
    pub(crate) fn row_named(&self, name: &[u8]) -> Option<usize>
        ensures { result ≡ reads.row_named (rows_data self.now.rows.items) name.now }
    {
        row_named(&self.rows, name)
    }

    /// Whether no handler is opened yet but the looper itself.
    pub(crate) fn is_before_handlers(&self) -> bool
        ensures { result ≡ is_before_handlers (looper_data self.now) }
    {
        self.rows.len() <= 1
    }
}

fn row_named(rows: &[RowParts], name: &[u8]) -> Option<usize>
    ensures { result ≡ reads.row_named (rows_data rows.now) name.now }
{
    rows.iter().position(|row| row.name.as_bytes() == name)
}

impl RowParts {
    /// A handler of which nothing but its name is read.
    pub(crate) fn opened(alloc: Global, name: Text) -> RowParts
        ensures { row_data result ≡ reads.opened name }
    {
        RowParts {
            name,
            next: None,
            suites: Vec::new(alloc),
            properties: Vec::new(alloc),
            filters: FilterList::new(alloc),
            reactions: Vec::new(alloc),
        }
    }

    /// Whether it has a reaction on that code.
    pub(crate) fn has_reaction(&self, what: Code) -> bool
        ensures { result ≡ reads.has_reaction self.now.reactions.items what.0 }
    {
        self.reactions.iter().any(|reaction| reaction.what == what)
    }
}

/// The property of that name among those of a handler.
pub(crate) fn property_named<'a>(
    properties: &'a [PropertyParts],
    name: &[u8],
) -> Option<&'a PropertyParts>
    ensures { option_map property_seen result ≡ reads.property_named properties.now name.now }
{
    properties
        .iter()
        .find(|property| property.row.name.as_bytes() == name)
}
