ghost use Rattle.std.specs.Prelude.{◌≡◌, ◌==◌, ◌∷◌, []};
ghost use Rattle.std.specs.List.{position};
ghost use Rattle.ak_property.specs.HandlerRow.{RowData};

use crate::table::PropertyTable;
use ak_base::Code;
use ak_filter::FilterList;

/// What routing asks of what a handler holds. Its calls have no answer for want of memory.
pub trait HandlerRow {
    /// Its property table, its filters, and the codes on which it has reactions.
    ghost told: { Self → RowData };

    /// Its property table.
    fn table(&self) -> &PropertyTable
        ensures { result.now ≡ (told self.now).table };

    /// Its filters.
    fn filters(&self) -> &FilterList
        ensures { result.now ≡ (told self.now).filters };

    /// The place of the first reaction on this code, counted from 0. `None` where it has none.
    fn reaction_on(&self, what: Code) -> Option<u32>
        ensures { result ≡ position (λ code. code == what.0) (told self.now).reactions };
}
