ghost use Rattle.std.specs.Prelude.{◌≡◌};
ghost use Rattle.ak_describe.specs.Keyword as reads;

/// The first word of a line.
#[derive(Clone, Copy, Debug, PartialEq, Eq)]
pub(crate) enum Keyword {
    App,
    Looper,
    Hook,
    Prefer,
    Common,
    Handler,
    Next,
    Suite,
    Filter,
    Property,
    Element,
    On,
    Reply,
    Post,
    Ask,
    Set,
    Add,
    Drop,
    Quit,
}

/// The keyword that these bytes are.
#[tactic(auto, unfolding(crate::specs::Keyword::keyword_of))]
pub(crate) fn keyword_of(word: &[u8]) -> Option<Keyword>
    ensures { result ≡ reads.keyword_of word.now }
{
    if word == b"app".as_slice() {
        Some(Keyword::App)
    } else if word == b"looper".as_slice() {
        Some(Keyword::Looper)
    } else if word == b"hook".as_slice() {
        Some(Keyword::Hook)
    } else if word == b"prefer".as_slice() {
        Some(Keyword::Prefer)
    } else if word == b"common".as_slice() {
        Some(Keyword::Common)
    } else {
        handler_word_of(word)
    }
}

// Those of a handler.
fn handler_word_of(word: &[u8]) -> Option<Keyword>
    ensures { result ≡ reads.handler_word_of word.now }
{
    if word == b"handler".as_slice() {
        Some(Keyword::Handler)
    } else if word == b"next".as_slice() {
        Some(Keyword::Next)
    } else if word == b"suite".as_slice() {
        Some(Keyword::Suite)
    } else if word == b"filter".as_slice() {
        Some(Keyword::Filter)
    } else if word == b"property".as_slice() {
        Some(Keyword::Property)
    } else if word == b"element".as_slice() {
        Some(Keyword::Element)
    } else if word == b"on".as_slice() {
        Some(Keyword::On)
    } else {
        action_of(word)
    }
}

// Those that begin an action.
fn action_of(word: &[u8]) -> Option<Keyword>
    ensures { result ≡ reads.action_of word.now }
{
    if word == b"reply".as_slice() {
        Some(Keyword::Reply)
    } else if word == b"post".as_slice() {
        Some(Keyword::Post)
    } else if word == b"ask".as_slice() {
        Some(Keyword::Ask)
    } else if word == b"set".as_slice() {
        Some(Keyword::Set)
    } else if word == b"add".as_slice() {
        Some(Keyword::Add)
    } else if word == b"drop".as_slice() {
        Some(Keyword::Drop)
    } else if word == b"quit".as_slice() {
        Some(Keyword::Quit)
    } else {
        None
    }
}

impl Keyword {
    /// What may follow a line that begins so.
    pub(crate) fn after(self) -> After
        ensures { result ≡ reads.after_of self }
    {
        match self {
            Keyword::Property | Keyword::Element => After::Element,
            Keyword::On
            | Keyword::Reply
            | Keyword::Post
            | Keyword::Ask
            | Keyword::Set
            | Keyword::Add
            | Keyword::Drop
            | Keyword::Quit => After::Action,
            Keyword::App
            | Keyword::Looper
            | Keyword::Hook
            | Keyword::Prefer
            | Keyword::Common
            | Keyword::Handler
            | Keyword::Next
            | Keyword::Suite
            | Keyword::Filter => After::Plain,
        }
    }
}

/// What a line may follow on, beside what may stand in any case.
#[derive(Clone, Copy, Debug, PartialEq, Eq)]
pub(crate) enum After {
    Plain,
    /// After a property or one of its elements, a further element.
    Element,
    /// After a reaction or one of its actions, a further action.
    Action,
}

impl After {
    /// Whether an element may stand.
    pub(crate) fn allows_element(self) -> bool
        ensures { result ≡ reads.allows_element self }
    {
        matches!(self, After::Element)
    }

    /// Whether an action may stand.
    pub(crate) fn allows_action(self) -> bool
        ensures { result ≡ reads.allows_action self }
    {
        matches!(self, After::Action)
    }
}
