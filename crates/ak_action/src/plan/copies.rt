ghost use Rattle.std.specs.Prelude.{◌≡◌, IfOk};

use super::{PlanParts, PlanRow};
use crate::action::copied_name;
use ak_base::{Items, NoMemory, Text};
use std::alloc::Global;

impl PlanParts {
    /// Equal parts. `NoMemory` where memory ran out.
    pub fn try_clone(&self, alloc: Global) -> Result<PlanParts, NoMemory>
        ensures { IfOk result (λ p. p ≡ self.now) }
    {
        Ok(PlanParts {
            name: self.name.try_clone()?,
            capacity: self.capacity,
            quit_refused: self.quit_refused,
            preferred: copied_name(&self.preferred)?,
            common: self.common.try_clone()?,
            rows: copied_rows(alloc, self.rows.as_slice())?,
        })
    }
}

impl PlanRow {
    /// An equal one. `NoMemory` where memory ran out.
    pub fn try_clone(&self, alloc: Global) -> Result<PlanRow, NoMemory>
        ensures { IfOk result (λ r. r ≡ self.now) }
    {
        Ok(PlanRow {
            name: self.name.try_clone()?,
            next: copied_name(&self.next)?,
            suites: copied_texts(alloc, self.suites.as_slice())?,
            table: self.table.try_clone()?,
            elements: self.elements.try_clone()?,
            filters: self.filters.try_clone()?,
            reactions: self.reactions.try_clone()?,
        })
    }
}

fn copied_texts(alloc: Global, texts: &[Text]) -> Result<Items<Text>, NoMemory>
    ensures { IfOk result (λ copies. copies ≡ texts.now) }
{
    let mut copies = Vec::with_capacity(alloc, texts.len())?;
    for text in texts {
        copies.push(text.try_clone()?)?;
    }
    Ok(Items::from_vec(copies))
}

fn copied_rows(alloc: Global, rows: &[PlanRow]) -> Result<Items<PlanRow>, NoMemory>
    ensures { IfOk result (λ copies. copies ≡ rows.now) }
{
    let mut copies = Vec::with_capacity(alloc, rows.len())?;
    for row in rows {
        copies.push(row.try_clone(alloc)?)?;
    }
    Ok(Items::from_vec(copies))
}
