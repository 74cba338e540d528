use crate::kind::Kind;
use crate::message::Value;

/// A field as a reader sees it. It borrows from the message.
#[derive(Clone, Copy)]
pub struct FieldRef<'a> {
    /// Its name, a word.
    pub name: &'a [u8],
    /// The one kind of the values.
    pub kind: Kind,
    /// One value or more, at most 255, all of this kind.
    pub values: &'a [Value],
}
