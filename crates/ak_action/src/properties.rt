ghost use Rattle.std.specs.Prelude.{◌≡◌, [], length, Some, None, IfOk, IfErr, IfNone, IsOk, OnErr, IsOkUnless, option_map, option_and_then, slice_get, Err, Ok, IfSome};
ghost use Rattle.ak_message.specs.Seen.{value_of};
ghost use Rattle.ak_message.specs.Specifier.{at_of};
ghost use Rattle.ak_value.specs.Elements.{first_value, set_first_fault};
ghost use Rattle.ak_value.specs.Seen.{answer_of};
ghost use Rattle.ak_action.specs.Properties.{access_at, first_set, set_fault_at, with_first_at, with_result_at};
ghost use Rattle.ak_message.specs.Message.{kind_of};

use ak_base::{Code, Items, NoMemory};
use ak_message::{AtRef, Kind, Message, Value};
use ak_value::{ElementFault, Elements};
use std::alloc::Global;
use std::marker::Model;

/// The elements of the properties of a handler, in the order of the rows of its table. Contracts see the
/// list. Places count from 0.
#[derive(Drop)]
pub struct ElementsList {
    list: Vec<Elements>,
}

impl Model for ElementsList {
    ghost use Rattle.std.specs.Prelude.{List};
    ghost use Rattle.std.specs.Coded.{coded_list};
    ghost use Rattle.ak_value.specs.Elements.{ElementsData, coded_elements};

    ghost Value = { List ElementsData };

    ghost coded = { coded_list coded_elements };

    ghost view = { λ l. l.list.items };
}

impl ElementsList {
    /// These elements, those of one property after the other. Takes no memory.
    pub fn from_vec(list: Vec<Elements>) -> ElementsList
        ensures { result ≡ list.items }
    {
        ElementsList { list }
    }

    /// The elements of each property, in order. Takes no memory.
    pub fn as_slice(&self) -> &[Elements]
        ensures { result.now ≡ self.now }
    {
        self.list.as_slice()
    }

    /// Equal elements. `NoMemory` where memory ran out.
    pub fn try_clone(&self) -> Result<ElementsList, NoMemory>
        ensures { IfOk result (λ l. l ≡ self.now) }
    {
        let list = copied(*self.list.allocator(), &self.list)?;
        Ok(ElementsList { list })
    }

    /// The value of the first element of the property at that place. `None` where there is no such property
    /// or no element. Takes no memory.
    pub fn first_at(&self, place: usize) -> Option<&Value>
        ensures { option_map (λ v. value_of v.now) result
            ≡ option_and_then (λ e. first_value e.list) (slice_get self.now place) }
    {
        self.list.get(place)?.first()
    }

    /// The kind of the property at that place. `None` where there is no such property. Takes no memory.
    pub fn kind_at(&self, place: usize) -> Option<Kind>
        ensures { result ≡ option_map (λ e. e.kind) (slice_get self.now place) }
    {
        Some(self.list.get(place)?.kind())
    }

    /// Why the first element of the property at that place cannot get the value. `BadType` where it is of
    /// another kind, and then `BadIndex` where there is no element. `BadIndex` also where there is no such
    /// property. Takes no memory.
    pub fn set_fault_at(&self, place: usize, value: &Value) -> Option<ElementFault>
        ensures { result ≡ set_fault_at self.now place (kind_of (value_of value.now)) }
    {
        match self.list.get(place) {
            Some(elements) => set_fault(elements, value.kind()),
            None => Some(ElementFault::BadIndex),
        }
    }

    /// Where the value is of the property's kind and there is an element, the first element of the property
    /// at that place gets it. Else nothing changes, and the value is dropped. Takes no memory.
    pub fn set_first_at(&mut self, place: usize, value: Value)
        ensures { self.new ≡ with_first_at self.old place (value_of value) }
    {
        if let Some(elements) = self.list.get_mut(place) {
            set_first(elements, value);
        }
    }

    /// Where the reply's field `result` is of the property's kind, the first element of the property at that
    /// place gets its first value. Where it is not, or there is no element, nothing changes. Takes no memory.
    pub fn take_result_at(&mut self, place: usize, mut reply: Message)
        ensures { self.new ≡ with_result_at self.old place reply }
    {
        let Some(kind) = self.kind_at(place) else {
            return;
        };
        if let Some(value) = reply.take_first(b"result", kind) {
            self.set_first_at(place, value);
        }
    }

    /// Carries out a command on the elements of the property at that place, as `Elements::access` does.
    /// `BadScript` where there is no such property. An `Err` changes nothing. The other refusals come in the
    /// order of `ElementFault`.
    pub fn access_at(
        &mut self,
        place: usize,
        what: Code,
        at: AtRef<'_>,
        message: &Message,
    ) -> Result<Option<Items<Value>>, ElementFault>
        ensures refused { IfErr (access_at self.old place what.0 (at_of at.entry) message.now) (λ f. result ≡ Err f) }
        ensures only { IfOk (access_at self.old place what.0 (at_of at.entry) message.now) (λ _. IsOkUnless result ElementFault.NoMemory) }
        ensures ok { IfOk result (λ values. access_at self.old place what.0 (at_of at.entry) message.now
            ≡ Ok (record { list = self.new; values = answer_of values })) }
        ensures err { OnErr result (self.new ≡ self.old) }
    {
        let Some(elements) = self.list.get_mut(place) else {
            return Err(ElementFault::BadScript);
        };
        elements.access(what, at, message)
    }
}

fn copied(alloc: Global, list: &[Elements]) -> Result<Vec<Elements>, NoMemory>
    ensures { IfOk result (λ copies. copies.items ≡ list.now) }
{
    let mut copies = Vec::with_capacity(alloc, list.len())?;
    for elements in list {
        copies.push(elements.try_clone()?)?;
    }
    Ok(copies)
}

// Why the first element cannot get a value of that kind.
fn set_fault(elements: &Elements, kind: Kind) -> Option<ElementFault>
    ensures { result ≡ set_first_fault elements.now kind }
{
    if kind != elements.kind() {
        return Some(ElementFault::BadType);
    }
    if elements.len() == 0 {
        return Some(ElementFault::BadIndex);
    }
    None
}

// Gives the first one another value, where nothing speaks against it.
fn set_first(elements: &mut Elements, value: Value)
    ensures { elements.new ≡ first_set elements.old (value_of value) }
{
    let _set = elements.set_first(value);
}
