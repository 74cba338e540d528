//! What holds of all that is printed.

ghost use Rattle.ak_print.specs.Laws.{OutcomesAreLines, PrintedRepliesAreRead};

use ak_input::printed_messages_are_read;

/// Each outcome is told by one line: the LF at its end is the only one. It is so for all whose reply is within the
/// limits at every depth, as all messages that exist are.
pub fn outcomes_are_lines()
    ensures { OutcomesAreLines }
{}

/// The line of a reply is read back: its words are `reply` and those of the message, of which `read_message` makes
/// that message with nothing popped. It is so for all that are within the limits at every depth, as all that exist
/// are.
pub fn printed_replies_are_read()
    ensures { PrintedRepliesAreRead }
{
    printed_messages_are_read();
}
