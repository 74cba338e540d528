ghost use Rattle.std.specs.Prelude.{◌≡◌, IfOk};

use crate::no_memory::NoMemory;
use crate::text::Text;

/// How an application is named: by its path, its signature or its name, or by the number of a team. (The Be
/// Book, The Application Kit, BRoster and BMessenger.)
#[derive(Debug, Drop)]
pub enum AppWord {
    /// The path of its description.
    Path(Text),
    /// The signature of its description.
    Signature(Text),
    /// What stands behind the last slash of its path.
    Name(Text),
    /// The number of a team that runs.
    Team(u32),
}

impl AppWord {
    /// An equal word. `NoMemory` where memory ran out. A word that is a number needs none.
    pub fn try_clone(&self) -> Result<AppWord, NoMemory>
        ensures { IfOk result (λ w. w ≡ self.now) }
    {
        match self {
            AppWord::Path(path) => Ok(AppWord::Path(path.try_clone()?)),
            AppWord::Signature(signature) => Ok(AppWord::Signature(signature.try_clone()?)),
            AppWord::Name(name) => Ok(AppWord::Name(name.try_clone()?)),
            AppWord::Team(team) => Ok(AppWord::Team(*team)),
        }
    }
}
