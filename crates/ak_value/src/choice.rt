//! Which elements a form chooses.

ghost use Rattle.std.specs.Prelude.{◌≡◌, ◌+◌, ◌≤◌, pos, length, IfOk, IfErr, IfSome, Ok, Err, option_map};
ghost use Rattle.std.specs.List.{position};
ghost use Rattle.std.specs.Str.{bytes_eq};
ghost use Rattle.ak_message.specs.Specifier.{at_of};
ghost use Rattle.ak_value.specs.Choice.{one_at, whole_of, within, before_end, with_number, part_of, chosen, choice_fault, has_id};
ghost use Rattle.ak_value.specs.Seen.{elements_of_list, part_seen};

use crate::elements::Element;
use crate::fault::ElementFault;
use ak_base::Text;
use ak_message::AtRef;

/// A part of a list: where it begins, and how many elements it has.
#[derive(Clone, Copy, Debug)]
pub(crate) struct Part {
    pub(crate) from: usize,
    pub(crate) count: usize,
}

/// The chosen part. `NameNotFound` where no element has that name, and `BadIndex` for every other choice
/// that is not there.
pub(crate) fn chosen(list: &[Element], at: AtRef<'_>) -> Result<Part, ElementFault>
    ensures ok { IfOk result (λ p. chosen (elements_of_list list.now) (at_of at.entry) ≡ Ok (part_seen p)) }
    ensures err { IfErr result (λ f. chosen (elements_of_list list.now) (at_of at.entry) ≡ Err f) }
    ensures within { IfOk result (λ p. p.from + p.count ≤ length list.now) }
{
    match part_of(list, at) {
        Some(part) => Ok(part),
        None => Err(choice_fault(at)),
    }
}

fn choice_fault(at: AtRef<'_>) -> ElementFault
    ensures { result ≡ choice_fault (at_of at.entry) }
{
    match at {
        AtRef::Name(_) => ElementFault::NameNotFound,
        _ => ElementFault::BadIndex,
    }
}

#[tactic(auto, using(crate::proofs::Choosing::no_such_id))]
fn part_of(list: &[Element], at: AtRef<'_>) -> Option<Part>
    ensures value { option_map part_seen result ≡ part_of (elements_of_list list.now) (at_of at.entry) }
    ensures within { IfSome result (λ p. p.from + p.count ≤ length list.now) }
{
    let len = list.len();
    match at {
        AtRef::Direct => part_within(len, 0, 1),
        AtRef::Index(index) => range(len, index, 1),
        AtRef::Reverse(index) => reverse_range(len, index, 1),
        AtRef::Range { index, count } => range(len, index, count),
        AtRef::ReverseRange { index, count } => reverse_range(len, index, count),
        AtRef::Name(name) => one_at(place_of_name(list, name)),
        AtRef::Id(id) => one_at(place_of_id(list, whole(id)?)),
    }
}

// A number that is not below zero.
fn whole(n: i32) -> Option<usize>
    ensures { result ≡ whole_of n }
{
    usize::try_from(n).ok()
}

// The one element at the place, if there is one.
fn one_at(place: Option<usize>) -> Option<Part>
    ensures { option_map part_seen result ≡ option_map one_at place }
{
    let from = place?;
    Some(Part { from, count: 1 })
}

// So many from an index on, where none of the numbers is below zero and the elements are there.
fn range(len: usize, index: i32, count: i32) -> Option<Part>
    ensures { option_map part_seen result ≡ with_number (λ from. with_number (within len from) count) index }
{
    part_within(len, whole(index)?, whole(count)?)
}

// So many from a reverse index on, likewise.
fn reverse_range(len: usize, index: i32, count: i32) -> Option<Part>
    ensures { option_map part_seen result ≡ with_number (λ from. with_number (before_end len from) count) index }
{
    part_before_end(len, whole(index)?, whole(count)?)
}

// So many from an index on, where they are there.
fn part_within(len: usize, from: usize, count: usize) -> Option<Part>
    ensures { option_map part_seen result ≡ within len from count }
{
    if count >= 1 && from <= len && count <= len - from {
        Some(Part { from, count })
    } else {
        None
    }
}

// So many from a reverse index on, where they are there.
fn part_before_end(len: usize, index: usize, count: usize) -> Option<Part>
    ensures { option_map part_seen result ≡ before_end len index count }
{
    if count >= 1 && count <= index && index <= len {
        Some(Part {
            from: len - index,
            count,
        })
    } else {
        None
    }
}

fn place_of_name(list: &[Element], name: &Text) -> Option<usize>
    ensures { result ≡ position (λ e. bytes_eq e.name name.now) (elements_of_list list.now) }
{
    list.iter()
        .position(|element| element.name.as_bytes() == name.as_bytes())
}

fn place_of_id(list: &[Element], id: usize) -> Option<usize>
    ensures { result ≡ position (has_id (pos id)) (elements_of_list list.now) }
{
    list.iter().position(|element| element.id as usize == id)
}
