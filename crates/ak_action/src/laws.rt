//! What holds of all reactions.

ghost use Rattle.ak_action.specs.Laws.{RunsAct, CallsAct, WordsReplay, TwoWordsAnAction, AnswersInOrder, FirstReplyStays, ReplyIsFirst};

/// A reaction that is carried out action by action comes to what its actions come to with all answers at
/// once. So it is for any answers, and where one of its actions finds no memory. What it comes to are the
/// wants in order, the state, the words, the reply, whether it quits, and the answers not used.
pub fn runs_act()
    ensures { RunsAct }
{}

/// However the calls of `next` and `give` go, what they come to is what the actions come to with all answers
/// at once. Then no action finds no memory, or the one at some place does: as `next` says of each call alone.
pub fn calls_act()
    ensures { CallsAct }
{}

/// The words of a reaction's actions say what it leaves behind. Where they are the same, the states are the
/// same, and the reply, and whether it quits. What was sent, to which looper of an application, and how the
/// answers came about, does not matter. It is said of answers in which the flat text of each reply spells its
/// message.
pub fn words_replay()
    ensures { WordsReplay }
{}

/// The journal has at most two words for each action.
pub fn two_words_an_action()
    ensures { TwoWordsAnAction }
{}

/// Answers are used in order, one for each want: none is passed over, and none is used twice.
pub fn answers_in_order()
    ensures { AnswersInOrder }
{}

/// Once there is a reply, the actions that follow leave it as it is.
pub fn first_reply_stays()
    ensures { FirstReplyStays }
{}

/// A reaction replies exactly where a reply action is come to, and finds memory. The reply is what the first
/// one makes, of what its handler holds then.
pub fn reply_is_first()
    ensures { ReplyIsFirst }
{}
