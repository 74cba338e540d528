ghost use Rattle.std.specs.Prelude.{◌≡◌, ◌==◌, ◌∷◌, []};
ghost use Rattle.std.specs.List.{position};

use ak_base::Code;
use ak_filter::FilterList;
use ak_property::{HandlerRow, PropertyTable};

/// What a handler holds: a property table, filters, and one reaction.
#[derive(Drop)]
pub struct Held {
    pub table: PropertyTable,
    pub filters: FilterList,
    pub reaction: Code,
}

impl HandlerRow for Held {
    ghost use Rattle.std.specs.Prelude.{◌∷◌, []};

    ghost told = { λ h. record { table = h.table; filters = h.filters; reactions = h.reaction.0 ∷ [] } };

    fn table(&self) -> &PropertyTable
        ensures { result.now ≡ self.now.table }
    {
        &self.table
    }

    fn filters(&self) -> &FilterList
        ensures { result.now ≡ self.now.filters }
    {
        &self.filters
    }

    fn reaction_on(&self, what: Code) -> Option<u32>
        ensures { result ≡ position (λ code. code == what.0) (self.now.reaction.0 ∷ []) }
    {
        if self.reaction == what { Some(0) } else { None }
    }
}
