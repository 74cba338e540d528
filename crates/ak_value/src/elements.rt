ghost use Rattle.std.specs.Prelude.{◌≡◌, ◌≤◌, [], ◌∷◌, ◌++◌, length, Err, All, IfOk, IfSome, IfNone, IsOk, IsOkUnless, OnOk, OnErr, option_map};
ghost use Rattle.ak_message.specs.Message.{kind_of};
ghost use Rattle.ak_message.specs.Seen.{value_of};
ghost use Rattle.ak_value.specs.Elements.{described, has_room, add_fault, with_last, first_value, set_first_fault, with_first};
ghost use Rattle.ak_value.specs.Seen.{element_of, elements_of_list, pairs_of};
ghost use Rattle.ak_value.specs.Limits.{element_limit};

use crate::fault::ElementFault;
use ak_base::{NoMemory, Text};
use ak_message::{Kind, Value};
use std::alloc::Global;
use std::marker::Model;

/// How many elements a property may have.
pub const ELEMENT_LIMIT: usize = 64;

/// No id reaches it: where it would be the next one, no element is created any more.
pub const ID_LIMIT: u32 = 2_147_483_647;

/// A value with its name, which is empty where it has none, and its id.
#[derive(Drop)]
pub(crate) struct Element {
    pub(crate) name: Text,
    pub(crate) id: u32,
    pub(crate) value: Value,
}

/// The elements of a property, at most 64 and all of one kind, in the order in which they were created. Each
/// has a name, which may be empty, and an id, from 1 up, that no other one had before it. Contracts see the
/// kind, the list and the next id.
#[derive(Drop)]
pub struct Elements {
    pub(crate) kind: Kind,
    pub(crate) list: Vec<Element>,
    pub(crate) next_id: u32,
}

impl Model for Elements {
    ghost use Rattle.ak_value.specs.Elements.{ElementsData, coded_elements};
    ghost use Rattle.ak_value.specs.Seen.{elements_inside, IsSound};

    ghost Value = { ElementsData };

    ghost coded = { coded_elements };

    ghost view = { elements_inside };

    ghost invariant = { IsSound };
}

impl Elements {
    ghost use Rattle.ak_value.specs.Elements.{IsElements};

    /// The elements of these names and values, at most 64 and each of that kind, with the ids 1, 2 and so
    /// on. An element without a name has the empty one. `NoMemory` where memory ran out.
    pub fn new(alloc: Global, kind: Kind, list: Vec<(Text, Value)>) -> Result<Elements, NoMemory>
        requires limit { length list.items ≤ element_limit }
        requires same_kind { All (λ x. kind_of (value_of x.1) ≡ kind) list.items }
        ensures { IfOk result (λ e. e ≡ described kind (pairs_of list.items)) }
    {
        let mut elements = Vec::with_capacity(alloc, list.len())?;
        let mut next_id = 1;
        for (name, value) in list {
            elements.push(Element {
                name,
                id: next_id,
                value,
            })?;
            next_id += 1;
        }
        Ok(Elements {
            kind,
            list: elements,
            next_id,
        })
    }

    /// Adds an element at the end, with the next id; one without a name has the empty one. `BadType` where the
    /// value is of another kind, and then `ElementLimit` where there are 64 elements or no id is left. An
    /// `Err` changes nothing, and the name and the value are dropped. `NoMemory` comes last.
    pub fn add(&mut self, name: Text, value: Value) -> Result<(), ElementFault>
        ensures refused { IfSome (add_fault self.old (kind_of (value_of value))) (λ f. result ≡ Err f) }
        ensures only { IfNone (add_fault self.old (kind_of (value_of value))) (IsOkUnless result ElementFault.NoMemory) }
        ensures ok { OnOk result (self.new ≡ with_last self.old name (value_of value)) }
        ensures err { OnErr result (self.new ≡ self.old) }
    {
        if self.kind != value.kind() {
            return Err(ElementFault::BadType);
        }
        if !self.has_room() {
            return Err(ElementFault::ElementLimit);
        }
        let id = self.next_id;
        push_element(&mut self.list, name, id, value)?;
        self.next_id = id + 1;
        Ok(())
    }

    // Whether one more element may be created.
    pub(crate) fn has_room(&self) -> bool
        ensures { result ≡ has_room self.now }
    {
        self.list.len() < ELEMENT_LIMIT && self.next_id < ID_LIMIT
    }

    /// Equal elements, with the same ids and the same next one. `NoMemory` where memory ran out.
    pub fn try_clone(&self) -> Result<Elements, NoMemory>
        ensures { IfOk result (λ e. e ≡ self.now) }
    {
        let list = copied(*self.list.allocator(), &self.list)?;
        Ok(Elements {
            kind: self.kind,
            list,
            next_id: self.next_id,
        })
    }

    /// The kind of its values. Takes no memory.
    pub fn kind(&self) -> Kind
        ensures value { result ≡ self.now.kind }
        ensures is_elements { IsElements self.now }
    {
        self.kind
    }

    /// How many there are. Takes no memory.
    pub fn len(&self) -> u32
        ensures value { result ≡ length self.now.list }
        ensures limit { length self.now.list ≤ element_limit }
    {
        self.list.len() as u32
    }

    /// The value of the first element. `None` where there is none. Takes no memory.
    pub fn first(&self) -> Option<&Value>
        ensures { option_map (λ v. value_of v.now) result ≡ first_value self.now.list }
    {
        let element = self.list.first()?;
        Some(&element.value)
    }

    /// Gives the first element another value. `BadType` where it is of another kind, and then `BadIndex`
    /// where there is no element; no other fault comes. An `Err` changes nothing, and the value is dropped.
    /// Takes no memory.
    pub fn set_first(&mut self, value: Value) -> Result<(), ElementFault>
        ensures refused { IfSome (set_first_fault self.old (kind_of (value_of value))) (λ f. result ≡ Err f) }
        ensures only { IfNone (set_first_fault self.old (kind_of (value_of value))) (IsOk result) }
        ensures ok { OnOk result (self.new ≡ with_first self.old (value_of value)) }
        ensures err { OnErr result (self.new ≡ self.old) }
    {
        if value.kind() != self.kind {
            return Err(ElementFault::BadType);
        }
        let Some(element) = self.list.first_mut() else {
            return Err(ElementFault::BadIndex);
        };
        element.value = value;
        Ok(())
    }
}

impl Element {
    fn try_clone(&self, alloc: Global) -> Result<Element, NoMemory>
        ensures { IfOk result (λ e. element_of e ≡ element_of self.now) }
    {
        Ok(Element {
            name: self.name.try_clone()?,
            id: self.id,
            value: self.value.try_clone(alloc)?,
        })
    }
}

fn copied(alloc: Global, elements: &[Element]) -> Result<Vec<Element>, NoMemory>
    ensures { IfOk result (λ copies. elements_of_list copies.items ≡ elements_of_list elements.now) }
{
    let mut copies = Vec::with_capacity(alloc, elements.len())?;
    for element in elements {
        copies.push(element.try_clone(alloc)?)?;
    }
    Ok(copies)
}

// Adds an element. After an `Err` the elements are seen as they were.
pub(crate) fn push_element(
    list: &mut Vec<Element>,
    name: Text,
    id: u32,
    value: Value,
) -> Result<(), NoMemory>
    ensures ok { OnOk result (elements_of_list list.new.items
        ≡ elements_of_list list.old.items ++ (record { name = name; id = id; value = value_of value }) ∷ []) }
    ensures err { OnErr result (elements_of_list list.new.items ≡ elements_of_list list.old.items) }
{
    list.push(Element { name, id, value })?;
    Ok(())
}
