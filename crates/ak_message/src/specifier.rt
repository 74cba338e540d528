ghost use Rattle.std.specs.Prelude.{◌≡◌, IfOk};
ghost use Rattle.ak_message.specs.Specifier.{form_of, at_of, specifier_of};

use ak_base::{NoMemory, Text};

/// Which of the elements of a property is meant. Indexes count from 0, and a reverse index counts from the
/// end, where the last element has 1. (The Be Book, The Application Kit, Scripting.)
#[derive(Debug, Drop)]
pub enum At {
    /// The property itself.
    Direct,
    /// The element at that index.
    Index(i32),
    /// The element at that reverse index.
    Reverse(i32),
    /// `count` elements from `index` on.
    Range { index: i32, count: i32 },
    /// `count` elements from the reverse index on, towards the end.
    ReverseRange { index: i32, count: i32 },
    /// The first element of that name.
    Name(Text),
    /// The element with that id.
    Id(i32),
}

/// An `At` whose name is borrowed. The variants mean the same.
#[derive(Clone, Copy, Debug)]
pub enum AtRef<'a> {
    Direct,
    Index(i32),
    Reverse(i32),
    Range { index: i32, count: i32 },
    ReverseRange { index: i32, count: i32 },
    Name(&'a Text),
    Id(i32),
}

/// A property, by its name, and which of its elements. (The Be Book, The Application Kit, Scripting.)
#[derive(Debug, Drop)]
pub struct Specifier {
    /// The property's name.
    pub property: Text,
    /// Which of its elements.
    pub at: At,
}

/// A `Specifier` whose texts are borrowed.
#[derive(Clone, Copy, Debug)]
pub struct SpecifierRef<'a> {
    /// The property's name.
    pub property: &'a Text,
    /// Which of its elements.
    pub at: AtRef<'a>,
}

impl At {
    /// The same with its name borrowed. Takes no memory.
    pub fn as_ref(&self) -> AtRef<'_>
        ensures { at_of result ≡ self.now }
    {
        match self {
            At::Direct => AtRef::Direct,
            At::Index(index) => AtRef::Index(*index),
            At::Reverse(index) => AtRef::Reverse(*index),
            At::Range { index, count } => AtRef::Range {
                index: *index,
                count: *count,
            },
            At::ReverseRange { index, count } => AtRef::ReverseRange {
                index: *index,
                count: *count,
            },
            At::Name(name) => AtRef::Name(name),
            At::Id(id) => AtRef::Id(*id),
        }
    }

    /// The number of its form, from 1 to 7 in the order of the variants.
    pub fn form(&self) -> u32
        ensures { result ≡ form_of self.now }
    {
        self.as_ref().form()
    }

    /// An equal one. `NoMemory` where memory ran out. Only a name needs it.
    pub fn try_clone(&self) -> Result<At, NoMemory>
        ensures { IfOk result (λ at. at ≡ self.now) }
    {
        Ok(match self {
            At::Direct => At::Direct,
            At::Index(index) => At::Index(*index),
            At::Reverse(index) => At::Reverse(*index),
            At::Range { index, count } => At::Range {
                index: *index,
                count: *count,
            },
            At::ReverseRange { index, count } => At::ReverseRange {
                index: *index,
                count: *count,
            },
            At::Name(name) => At::Name(name.try_clone()?),
            At::Id(id) => At::Id(*id),
        })
    }
}

impl AtRef<'_> {
    /// The number of its form, from 1 to 7 in the order of the variants.
    pub fn form(&self) -> u32
        ensures { result ≡ form_of (at_of self.now) }
    {
        match self {
            AtRef::Direct => 1,
            AtRef::Index(_) => 2,
            AtRef::Reverse(_) => 3,
            AtRef::Range { .. } => 4,
            AtRef::ReverseRange { .. } => 5,
            AtRef::Name(_) => 6,
            AtRef::Id(_) => 7,
        }
    }
}

impl Specifier {
    /// The same with its texts borrowed. Takes no memory.
    pub fn as_ref(&self) -> SpecifierRef<'_>
        ensures { specifier_of result ≡ self.now }
    {
        SpecifierRef {
            property: &self.property,
            at: self.at.as_ref(),
        }
    }

    /// An equal one. `NoMemory` where memory ran out.
    pub fn try_clone(&self) -> Result<Specifier, NoMemory>
        ensures { IfOk result (λ s. s ≡ self.now) }
    {
        Ok(Specifier {
            property: self.property.try_clone()?,
            at: self.at.try_clone()?,
        })
    }
}
