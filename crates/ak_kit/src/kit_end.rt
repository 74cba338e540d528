ghost use Rattle.std.specs.Prelude.{◌≡◌};
ghost use Rattle.ak_kit.specs.Kit as kit;

use ak_base::Ending;
use ak_play::RunEnd;

/// How the program ends, with the run where there was one.
#[derive(Drop)]
pub struct KitEnd {
    /// The exit status, by the ending: Done 0, Usage 1, Refused 2, ReadFault 3, WriteFault 4, ThreadFault 5,
    /// NoMemory 6.
    pub status: u8,
    /// Why it ended.
    pub ending: Ending,
    /// The run, of the commands `run` and `gen` alone. Theirs is there at Done, WriteFault and ThreadFault, maybe at NoMemory,
    /// and at no other ending.
    pub run: Option<RunEnd>,
}

/// The exit status of an ending.
pub(crate) fn status_of(ending: Ending) -> u8
    ensures { result ≡ kit.status_of ending }
{
    match ending {
        Ending::Done => 0,
        Ending::Usage => 1,
        Ending::Refused { .. } => 2,
        Ending::ReadFault => 3,
        Ending::WriteFault => 4,
        Ending::ThreadFault => 5,
        Ending::NoMemory => 6,
    }
}
