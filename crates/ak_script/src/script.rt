//! What a script is.
ghost use Rattle.std.specs.Prelude.{◌≤◌};
ghost use Rattle.ak_describe.specs.Whole.{AreWholeApps};
ghost use Rattle.ak_script.specs.Limits.{statement_limit};
ghost use Rattle.ak_script.specs.Statement.{lines_in};
ghost use Rattle.ak_script.specs.StatementSeen.{statements_seen};

use crate::statement::Statement;
use ak_describe::AppText;

/// The most lines of a script that say statements, those of sessions too.
pub const STATEMENT_LIMIT: usize = 8_000;

/// Applications, and what is to be done with them, in order.
#[derive(Drop)]
pub struct Script {
    /// The applications, as `read_description` gives them.
    pub apps: Vec<AppText>,
    /// In at most 8,000 lines, those of sessions too.
    pub statements: Vec<Statement>,
    ghost whole: { ∥ AreWholeApps apps.items ∥₁ },
    ghost few: { lines_in (statements_seen statements.items) ≤ statement_limit },
}
