ghost use Rattle.std.specs.Prelude.{◌≡◌, ◌↔◌, IsErr, OnOk, OnErr};
ghost use Rattle.ak_specifier.specs.Current.{left_of, popped_once};

use crate::reading::BadScript;
use ak_message::Message;

/// How many of the message's specifiers are not popped: 0 where it has none, and where its field
/// `specifiers` is not of messages. Takes no memory.
pub fn left(message: &Message) -> u32
    ensures { result ≡ left_of message.now }
{
    message.specifiers() - message.popped()
}

/// Pops the current specifier: the one added before it becomes current. `BadScript` where none is left. An
/// `Err` changes nothing. Takes no memory. (The Be Book, The Application Kit, BMessage: PopSpecifier().)
pub fn pop(message: &mut Message) -> Result<(), BadScript>
    ensures bad_script { IsErr result ↔ (left_of message.old ≡ 0) }
    ensures ok { OnOk result (message.new ≡ popped_once message.old) }
    ensures err { OnErr result (message.new ≡ message.old) }
{
    let popped = message.popped();
    if popped == message.specifiers() {
        return Err(BadScript);
    }
    message.set_popped(popped + 1);
    Ok(())
}
