//! How many lines say statements.
ghost use Rattle.std.specs.Prelude.{◌≡◌, ◌≤◌};
ghost use Rattle.ak_script.specs.Limits.{statement_limit};
ghost use Rattle.ak_script.specs.Statement.{lines_in, lines_of_sessions};
ghost use Rattle.ak_script.specs.StatementSeen.{sessions_seen, statements_seen};

use crate::statement::{SessionLines, Statement};

// Those of sessions.
fn count_in_sessions(sessions: &[SessionLines]) -> usize
    requires { lines_of_sessions (sessions_seen sessions.now) ≤ statement_limit }
    ensures { result ≡ lines_of_sessions (sessions_seen sessions.now) }
{
    let mut lines = 0;
    for session in sessions {
        lines += session.lines.len();
    }
    lines
}

/// How many lines say these statements, those of sessions too: so many outcomes they can have. They are no more than a
/// script has.
pub fn count_lines(statements: &[Statement]) -> usize
    requires { lines_in (statements_seen statements.now) ≤ statement_limit }
    ensures { result ≡ lines_in (statements_seen statements.now) }
{
    let mut lines = 0;
    for statement in statements {
        lines += match statement {
            Statement::Launch(_) | Statement::Hey(_) | Statement::Post(_) | Statement::Lock(_) => 1,
            Statement::Together(block) => count_in_sessions(block.sessions.as_slice()),
        };
    }
    lines
}
