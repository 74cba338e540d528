//! Which handler has a match for a specifier.

ghost use Rattle.std.specs.Prelude.{◌≡◌, ◌<◌, IfSome};
ghost use Rattle.ak_message.specs.Specifier.{specifier_of};
ghost use Rattle.ak_property.specs.Limits.{row_limit};
ghost use Rattle.ak_route.specs.Matching.{row_match, is_last_direct, gets_built_in, counts_built_in, built_in_of, is_built_in_name, table_matches};

use ak_base::Code;
use ak_message::{AtRef, Message, SpecifierRef};
use ak_property::PropertyTable;
use ak_specifier::left;

/// What every handler answers by itself, by the name of the property. (The Be Book, The Application Kit,
/// BHandler.)
#[derive(Clone, Copy, Debug, PartialEq, Eq)]
pub enum BuiltInName {
    /// Its suites, and what its properties are.
    Suites,
    /// Its address.
    Messenger,
    /// Its name.
    InternalName,
}

/// The row of the table that fits the current specifier.
pub(crate) fn row_match(table: &PropertyTable, m: &Message, s: SpecifierRef<'_>) -> Option<usize>
    ensures value { result ≡ row_match table.now m.now (specifier_of s.entry) }
    ensures within { IfSome result (λ place. place < row_limit) }
{
    table.find_match(m.what(), left(m).saturating_sub(1), s.at.form(), s.property)
}

/// Whether it is the last one that is left, and direct.
pub(crate) fn is_last_direct(m: &Message, s: SpecifierRef<'_>) -> bool
    ensures { result ≡ is_last_direct m.now (specifier_of s.entry) }
{
    matches!(s.at, AtRef::Direct) && left(m) == 1
}

/// Whether it gets the suites, the messenger or the name, which every handler has.
pub(crate) fn gets_built_in(m: &Message, s: SpecifierRef<'_>) -> bool
    ensures { result ≡ gets_built_in m.now (specifier_of s.entry) }
{
    m.what() == Code::GET && is_last_direct(m, s) && is_built_in_name(s.property.as_bytes())
}

/// What every handler can be asked for by that name. `None` by any other name.
pub fn built_in_of(name: &[u8]) -> Option<BuiltInName>
    ensures { result ≡ built_in_of name.now }
{
    if name == b"Suites".as_slice() {
        Some(BuiltInName::Suites)
    } else if name == b"Messenger".as_slice() {
        Some(BuiltInName::Messenger)
    } else if name == b"InternalName".as_slice() {
        Some(BuiltInName::InternalName)
    } else {
        None
    }
}

/// Whether every handler can be asked for it: its suites, its messenger or its name.
pub fn is_built_in_name(name: &[u8]) -> bool
    ensures { result ≡ is_built_in_name name.now }
{
    built_in_of(name).is_some()
}

/// Whether it counts what this property names.
pub(crate) fn counts_built_in(m: &Message, s: SpecifierRef<'_>, property: &[u8]) -> bool
    ensures { result ≡ counts_built_in m.now (specifier_of s.entry) property.now }
{
    m.what() == Code::COUNT && is_last_direct(m, s) && s.property.as_bytes() == property
}

/// Whether a handler with this table has a match.
pub(crate) fn matches(table: &PropertyTable, m: &Message, s: SpecifierRef<'_>) -> bool
    ensures { result ≡ table_matches table.now m.now (specifier_of s.entry) }
{
    row_match(table, m, s).is_some() || gets_built_in(m, s)
}
