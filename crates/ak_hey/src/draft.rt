//! The message of a hey line, as far as its words are read.

ghost use Rattle.std.specs.Prelude.{◌≡◌, ◌≢◌, IfOk, OnErr, Err, Some, Bool};
ghost use Rattle.ak_base.specs.declared.limited.Limited.TheVariants.{Over};
ghost use Rattle.ak_base.specs.Limited.{limited_map};
ghost use Rattle.ak_input.specs.ReadSeen.{got_of};
ghost use Rattle.ak_input.specs.Reading.{with_value};
ghost use Rattle.ak_message.specs.Seen.{value_of};
ghost use Rattle.ak_hey.specs.Answers.{Gives};
ghost use Rattle.ak_hey.specs.Draft as reads;
ghost use Rattle.ak_hey.specs.Seen.{draft_of, kinds_of};

use crate::fault::WordFault;
use ak_base::{Code, Limited, NoMemory, Text};
use ak_flatten::{FLAT_LIMIT, flat_len};
use ak_input::ReadValue;
use ak_message::{AddFault, At, Kind, Message, Specifier, Value};
use ak_specifier::add_specifier;
use indexmap::IndexMap;
use std::alloc::Global;

/// The kind of each field by its name, and the message where it passes no limit.
#[derive(Drop)]
pub(crate) struct Draft<'a> {
    kinds: IndexMap<&'a [u8], Kind>,
    message: Limited<Message>,
}

impl<'a> Draft<'a> {
    /// A message of this code, without fields.
    pub(crate) fn new(alloc: Global, what: Code) -> Draft<'a>
        ensures { draft_of result ≡ reads.new_draft what }
    {
        Draft {
            kinds: IndexMap::new(alloc),
            message: Limited::Within(Message::new(alloc, what)),
        }
    }

    /// With one specifier more. Specifiers come before all other fields, so their field is one of messages.
    pub(crate) fn with_specifier(
        self,
        alloc: Global,
        property: Text,
        at: Limited<At>,
    ) -> Result<Draft<'a>, WordFault>
        ensures { Gives draft_of result (Some (reads.with_specifier (draft_of self.entry) property at)) }
    {
        let Draft { kinds, message } = self;
        let (_earlier, kinds) = with_kind(kinds, b"specifiers", Kind::Message)?;
        let message = specified(alloc, message, property, at)?;
        Ok(Draft { kinds, message })
    }

    /// With one value more. One of a name that is there has the same kind.
    pub(crate) fn with_value(self, name: &'a [u8], read: ReadValue) -> Result<Draft<'a>, WordFault>
        ensures { Gives draft_of result (reads.with_got (draft_of self.entry) name.now (got_of read)) }
    {
        let Draft { kinds, message } = self;
        let ReadValue { kind, value } = read;
        let kinds = noted(kinds, name, kind)?;
        let message = valued(message, name, value)?;
        Ok(Draft { kinds, message })
    }

    /// The message, where it passes no limit.
    pub(crate) fn message(self) -> Limited<Message>
        ensures { result ≡ reads.short_message (draft_of self.entry).message }
    {
        let Draft { kinds: _, message } = self;
        match message {
            Limited::Within(message) => short(message),
            Limited::Over => Limited::Over,
        }
    }
}

// The message, where its flat text is not too long.
fn short(message: Message) -> Limited<Message>
    ensures { result ≡ reads.short message }
{
    if flat_len(&message) <= FLAT_LIMIT as u64 {
        Limited::Within(message)
    } else {
        Limited::Over
    }
}

// The kinds with that of this name, which is the one that it has already where it has one.
fn noted<'a>(
    kinds: IndexMap<&'a [u8], Kind>,
    name: &'a [u8],
    kind: Kind,
) -> Result<IndexMap<&'a [u8], Kind>, WordFault>
    ensures { Gives kinds_of result (reads.noted (kinds_of kinds.entry) name.now kind) }
{
    let (earlier, kinds) = with_kind(kinds, name, kind)?;
    if fits(earlier, kind) {
        Ok(kinds)
    } else {
        Err(WordFault::Bad)
    }
}

// The kind that the name had, and the kinds with this one.
fn with_kind<'a>(
    kinds: IndexMap<&'a [u8], Kind>,
    name: &'a [u8],
    kind: Kind,
) -> Result<(Option<Kind>, IndexMap<&'a [u8], Kind>), NoMemory>
    ensures earlier { IfOk result (λ r. r.0 ≡ reads.kind_named (kinds_of kinds.entry) name.now) }
    ensures kinds { IfOk result (λ r. kinds_of r.1 ≡ reads.with_kind (kinds_of kinds.entry) name.now kind) }
{
    let mut kinds = kinds;
    let earlier = kinds.insert(name, kind)?;
    Ok((earlier, kinds))
}

fn fits(earlier: Option<Kind>, kind: Kind) -> bool
    ensures { result ≡ reads.fits earlier kind }
{
    match earlier {
        Some(earlier) => kind == earlier,
        None => true,
    }
}

// The message with one specifier more, where it has room for it.
fn specified(
    alloc: Global,
    message: Limited<Message>,
    property: Text,
    at: Limited<At>,
) -> Result<Limited<Message>, NoMemory>
    ensures { IfOk result (λ m. m ≡ reads.specified message property at) }
{
    let Limited::Within(mut message) = message else {
        return Ok(Limited::Over);
    };
    let Limited::Within(at) = at else {
        return Ok(Limited::Over);
    };
    match add_specifier(alloc, &mut message, Specifier { property, at }) {
        Ok(()) => Ok(Limited::Within(message)),
        Err(fault) => not_added(fault),
    }
}

// The message with one value more, where it has room for it.
fn valued(
    message: Limited<Message>,
    name: &[u8],
    value: Limited<Value>,
) -> Result<Limited<Message>, NoMemory>
    ensures { IfOk result (λ m. m ≡ with_value message name.now (limited_map value_of value)) }
{
    let Limited::Within(mut message) = message else {
        return Ok(Limited::Over);
    };
    let Limited::Within(value) = value else {
        return Ok(Limited::Over);
    };
    match message.add(name, value) {
        Ok(()) => Ok(Limited::Within(message)),
        Err(fault) => not_added(fault),
    }
}

// A limit is passed, unless memory ran out.
fn not_added(fault: AddFault) -> Result<Limited<Message>, NoMemory>
    ensures kept { IfOk result (λ m. (m ≡ Over) × (fault ≢ AddFault.NoMemory)) }
{
    match fault {
        AddFault::NoMemory => Err(NoMemory),
        AddFault::BadName | AddFault::BadType | AddFault::FieldLimit | AddFault::TooDeep => {
            Ok(Limited::Over)
        }
    }
}
