ghost use Rattle.std.specs.Prelude.{◌≡◌, ◌++◌, ◌∷◌, [], ◌<◌, ◌≤◌, ◌↔◌, length, IfOk, IfSome, OnOk, OnErr, IsErrOf};
ghost use Rattle.ak_property.specs.declared.table.TheConstants.{ROW_LIMIT};
ghost use Rattle.ak_property.specs.Table.{allows, codes_of, fits, match_of};
ghost use Rattle.ak_property.specs.Limits.{row_limit};

use ak_base::{Code, Items, NoMemory, Text};
use ak_message::Kind;
use std::alloc::{AllocFailed, Global};
use std::error::Error;
use std::fmt;
use std::marker::Model;

/// How many rows a table may have.
pub const ROW_LIMIT: usize = 64;

/// One property: its name and kind, the commands and the forms of specifiers that it takes, where none means
/// all, and how it is used. (The Be Book, The Application Kit, BPropertyInfo.)
#[derive(Debug, Drop)]
pub struct PropertyRow {
    /// What a specifier has to name, byte for byte.
    pub name: Text,
    /// The kind of its elements. No match depends on it.
    pub kind: Kind,
    /// The codes of the commands that it takes. None means all.
    pub commands: Items<Code>,
    /// The forms that it takes, by the numbers of `At::form`. None means all.
    pub forms: Items<u32>,
    /// A text that tells how it is used. No match depends on it.
    pub usage: Text,
}

/// Why a row was not added. They are tested in this order.
#[derive(Clone, Copy, Debug, PartialEq, Eq)]
pub enum RowFault {
    /// There are 64 rows.
    RowLimit,
    /// Memory ran out.
    NoMemory,
}

impl fmt::Display for RowFault {
    fn fmt<W: fmt::Write>(&self, f: &mut fmt::Formatter<W>) -> fmt::Result {
        match self {
            RowFault::RowLimit => f.write_str("there are 64 rows"),
            RowFault::NoMemory => f.write_str("no memory"),
        }
    }
}

impl Error for RowFault {}

impl<T: Drop> From<AllocFailed<T>> for RowFault {
    ghost use Rattle.std.specs.Prelude.{◌≡◌};
    ghost use Rattle.ak_property.specs.declared.table.RowFault.TheVariants.{NoMemory};

    ghost from_gives = { λ _ e. e ≡ NoMemory };

    fn from(_error: AllocFailed<T>) -> RowFault {
        RowFault::NoMemory
    }
}

/// The properties of a handler, at most 64 rows in order. Contracts see the list of rows.
#[derive(Debug, Drop)]
pub struct PropertyTable {
    rows: Vec<PropertyRow>,
}

impl Model for PropertyTable {
    ghost use Rattle.std.specs.Prelude.{◌≤◌, List, length};
    ghost use Rattle.ak_property.specs.declared.table.PropertyRow.{PropertyRow};
    ghost use Rattle.ak_property.specs.Limits.{row_limit};

    ghost Value = { List PropertyRow };

    ghost view = { λ t. t.rows.items };

    ghost invariant = { λ t. length t.rows.items ≤ row_limit };
}

impl PropertyTable {
    /// A table without rows. Takes no memory.
    pub fn new(alloc: Global) -> PropertyTable
        ensures { result ≡ [] }
    {
        PropertyTable {
            rows: Vec::new(alloc),
        }
    }

    /// Adds a row at the end. `RowLimit` at 64 rows. An `Err` changes nothing, and the row is dropped.
    /// `NoMemory` where memory ran out.
    pub fn add_row(&mut self, row: PropertyRow) -> Result<(), RowFault>
        ensures limit { ROW_LIMIT ≡ row_limit }
        ensures full { IsErrOf result RowFault.RowLimit ↔ (length self.old ≡ row_limit) }
        ensures ok { OnOk result (self.new ≡ self.old ++ row ∷ []) }
        ensures err { OnErr result (self.new ≡ self.old) }
    {
        if self.rows.len() >= ROW_LIMIT {
            return Err(RowFault::RowLimit);
        }
        self.rows.push(row)?;
        Ok(())
    }

    /// The place of the first row that fits, counted from 0. It has that name, and its forms are empty or
    /// hold `form`. Its commands are empty or hold `what`, or they are not asked, where `index` is not 0.
    /// `index` is the number of specifiers that are left, less one: while more than one is left, no command
    /// is carried out. `None` where no row fits. Takes no memory. (The Be Book, The Application Kit,
    /// BPropertyInfo: FindMatch().)
    pub fn find_match(&self, what: Code, index: u32, form: u32, name: &Text) -> Option<usize>
        ensures value { result ≡ match_of self.now what.0 index form name.now }
        ensures within { IfSome result (λ place. place < row_limit) }
    {
        self.rows
            .iter()
            .position(|row| row.fits(what, index, form, name))
    }

    /// An equal table. `NoMemory` where memory ran out.
    pub fn try_clone(&self) -> Result<PropertyTable, NoMemory>
        ensures { IfOk result (λ t. t ≡ self.now) }
    {
        let rows = copied(*self.rows.allocator(), &self.rows)?;
        Ok(PropertyTable { rows })
    }

    /// The rows in order. Takes no memory.
    pub fn as_slice(&self) -> &[PropertyRow]
        ensures value { result.now ≡ self.now }
        ensures limit { length self.now ≤ row_limit }
    {
        self.rows.as_slice()
    }
}

fn copied(alloc: Global, rows: &[PropertyRow]) -> Result<Vec<PropertyRow>, NoMemory>
    ensures { IfOk result (λ copies. copies.items ≡ rows.now) }
{
    let mut copies = Vec::with_capacity(alloc, rows.len())?;
    for row in rows {
        copies.push(row.try_clone(alloc)?)?;
    }
    Ok(copies)
}

impl PropertyRow {
    /// An equal row. `NoMemory` where memory ran out.
    pub fn try_clone(&self, alloc: Global) -> Result<PropertyRow, NoMemory>
        ensures { IfOk result (λ row. row ≡ self.now) }
    {
        Ok(PropertyRow {
            name: self.name.try_clone()?,
            kind: self.kind,
            commands: Items::from_vec(Vec::from_slice(alloc, self.commands.as_slice())?),
            forms: Items::from_vec(Vec::from_slice(alloc, self.forms.as_slice())?),
            usage: self.usage.try_clone()?,
        })
    }

    fn fits(&self, what: Code, index: u32, form: u32, name: &Text) -> bool
        ensures { result ≡ fits what.0 index form name.now self.now }
    {
        self.name.as_bytes() == name.as_bytes()
            && allows_form(self.forms.as_slice(), form)
            && (allows_command(self.commands.as_slice(), what) || index != 0)
    }
}

fn allows_form(forms: &[u32], form: u32) -> bool
    ensures { result ≡ allows forms.now form }
{
    forms.is_empty() || forms.contains(&form)
}

#[tactic(auto, using(crate::proofs::Rows::rows))]
fn allows_command(commands: &[Code], what: Code) -> bool
    ensures { result ≡ allows (codes_of commands.now) what.0 }
{
    commands.is_empty() || commands.contains(&what)
}
