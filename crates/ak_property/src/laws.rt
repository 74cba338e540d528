//! What holds of all tables.

ghost use Rattle.ak_property.specs.Laws as law;

/// A row fits where it has the name, takes the form, and takes the command or is not asked for it, and
/// nowhere else.
pub fn rows_fit_as_told()
    ensures { law.FitsAsTold }
{}

/// The row that is found fits and none before it does. Where none is found no row fits.
pub fn the_first_fitting_row_is_found()
    ensures { law.FirstIsFound }
{}
