//! Which descriptions and teams a word names.
ghost use Rattle.std.specs.Prelude.{◌≡◌, slice_get};
ghost use Rattle.ak_roster.specs.Heads.{word_fits, head_fits, is_number, team_fits, first_fit, team_for, excludes, excluder, passes};

use crate::head::{AppHead, Mode};
use crate::team::Running;
use ak_base::{AppWord, last_part};

/// Whether a word fits an application of that path and signature: by an equal path or signature, or as a name
/// by the last part of the path. A team's number fits no application, only the team.
pub fn word_fits(word: &AppWord, path: &[u8], signature: &[u8]) -> bool
    ensures { result ≡ word_fits word.now path.now signature.now }
{
    match word {
        AppWord::Path(asked) => path == asked.as_bytes(),
        AppWord::Signature(asked) => signature == asked.as_bytes(),
        AppWord::Name(asked) => last_part(path) == asked.as_bytes(),
        AppWord::Team(_) => false,
    }
}

fn head_fits(head: &AppHead, word: &AppWord) -> bool
    ensures { result ≡ head_fits word.now head.now }
{
    word_fits(word, head.path.as_bytes(), head.signature.as_bytes())
}

fn is_number(word: &AppWord, number: u32) -> bool
    ensures { result ≡ is_number word.now number }
{
    match word {
        AppWord::Team(team) => *team == number,
        AppWord::Path(_) | AppWord::Signature(_) | AppWord::Name(_) => false,
    }
}

// Whether the team fits: by its number, or where its description does.
fn team_fits(heads: &[AppHead], word: &AppWord, team: &Running) -> bool
    ensures { result ≡ team_fits heads.now word.now team.now }
{
    is_number(word, team.team)
        || heads
            .get(team.description as usize)
            .is_some_and(|head| head_fits(head, word))
}

// Whether a running application keeps another one from starting, by the mode of the other one.
fn excludes(head: &AppHead, other: &AppHead) -> bool
    ensures { result ≡ excludes head.now other.now }
{
    match head.mode {
        Mode::Single => other.path.as_bytes() == head.path.as_bytes(),
        Mode::Multiple => false,
        Mode::Exclusive => other.signature.as_bytes() == head.signature.as_bytes(),
    }
}

fn is_excluder(heads: &[AppHead], head: &AppHead, team: &Running) -> bool
    ensures { result ≡ passes (excludes head.now) (slice_get heads.now team.now.description) }
{
    heads
        .get(team.description as usize)
        .is_some_and(|other| excludes(head, other))
}

/// The place of the first description that fits.
pub(crate) fn first_fit(heads: &[AppHead], word: &AppWord) -> Option<usize>
    ensures { result ≡ first_fit heads.now word.now }
{
    heads.iter().position(|head| head_fits(head, word))
}

/// The first of the teams that fits.
pub(crate) fn team_for(heads: &[AppHead], running: &[Running], word: &AppWord) -> Option<Running>
    ensures { result ≡ team_for heads.now running.now word.now }
{
    running
        .iter()
        .copied()
        .find(|team| team_fits(heads, word, team))
}

/// The first of the teams that keeps the application from starting.
pub(crate) fn excluder(heads: &[AppHead], running: &[Running], head: &AppHead) -> Option<Running>
    ensures { result ≡ excluder heads.now running.now head.now }
{
    running
        .iter()
        .copied()
        .find(|team| is_excluder(heads, head, team))
}
