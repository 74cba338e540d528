//! What holds of all messages and their texts.

ghost use Rattle.ak_input.specs.Laws as law;
ghost use Rattle.ak_input.specs.SaidLaws as said;

/// What is printed of a value, of a field's values or of a message, with nothing popped at any depth, is read back as
/// that value, those values or that message. It is so for all that are within the limits at every depth, as all that
/// exist are. A message is read from the words of its text, which the text, as a line, is split into. Its text does
/// not tell what is popped of it: it is read with nothing popped.
pub fn printed_messages_are_read()
    ensures values { law.PrintedValuesAreRead }
    ensures fields { law.PrintedFieldsAreRead }
    ensures messages { law.PrintedMessagesAreRead }
    ensures without_popped { law.PrintedWithoutPopped }
    ensures words { law.PrintedWordsAreThere }
    ensures utf8 { law.PrintedTextsAreUtf8 }
{}

/// What a text says is what is read of it, and nothing else is: of a code, the name of an application, a text in quotes,
/// a value, the values of a field and the words of a message.
pub fn written_is_read()
    ensures codes { said.WrittenCodesAreRead }
    ensures app_words { said.WrittenAppWordsAreRead }
    ensures texts { said.WrittenTextsAreRead }
    ensures values { said.WrittenValuesAreRead }
    ensures fields { said.WrittenFieldsAreRead }
    ensures messages { said.WrittenMessagesAreRead }
{}

/// A text says one thing at most.
pub fn one_meaning()
    ensures text { said.OneTextOfWord }
    ensures value { said.OneValueOfText }
    ensures field { said.OneFieldOfText }
    ensures message { said.OneMessageOfWords }
{}

/// What is printed of a value, of a field's values or of a message says that value, those values or that message with
/// nothing popped.
pub fn printed_is_written()
    ensures values { said.PrintedValuesAreWritten }
    ensures fields { said.PrintedFieldsAreWritten }
    ensures messages { said.PrintedMessagesAreWritten }
{}
