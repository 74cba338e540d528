ghost use Rattle.std.specs.Prelude.{◌≡◌, ◌≢◌, ◌↔◌, ◌+◌, ◌≤◌, ◌∷◌, ◌++◌, [], length, map, codes, pos, All, Ok, Err, None, Some, IsOk, IfOk, IfErr, IsErrOf, IsOkUnless, OnOk, OnErr};
ghost use Rattle.ak_message.specs.Fields.{found_in};
ghost use Rattle.ak_message.specs.Message.{kind_of, int32_value};
ghost use Rattle.ak_message.specs.Seen.{value_of};
ghost use Rattle.ak_message.specs.Specifier.{at_of};
ghost use Rattle.ak_value.specs.declared.fault.ElementFault.{ElementFault};
ghost use Rattle.ak_value.specs.declared.fault.ElementFault.TheVariants as fault;
ghost use Rattle.ak_value.specs.Access.{access_of, on_chosen, get, set_chosen, count, delete, create_last, data_of, name_of, has_form, Refuses, with_value};
ghost use Rattle.ak_value.specs.Choice.{elements_in, with_part};
ghost use Rattle.ak_value.specs.Elements.{ElementData};
ghost use Rattle.ak_value.specs.Seen.{answer_of, element_of, elements_of_list, part_seen};

use crate::choice::{Part, chosen};
use crate::elements::{Element, Elements, push_element};
use crate::fault::ElementFault;
use ak_base::{Code, Items, NoMemory, Text};
use ak_message::{AtRef, FindFault, Kind, Message, Value};
use std::alloc::Global;

impl Elements {
    /// Carries out a command on the elements that the form chooses.
    ///
    /// | command | forms | what it does, and answers |
    /// |---|---|---|
    /// | `PGET` | all | the values of the chosen elements |
    /// | `PSET` | all | each chosen element gets the first value of `data` |
    /// | `PCNT` | direct | the number of elements |
    /// | `PCRT` | direct, name | a new last element with the first value of `data`; its id |
    /// | `PDEL` | all but direct | the chosen elements are gone |
    ///
    /// `Direct` chooses the first element. The name of a new one is that of the form, else the first text of
    /// the message's field `name`, else empty. The faults are tested in the order of `ElementFault`. An `Err`
    /// changes nothing. `NoMemory` comes last. `PSET` and `PDEL` answer `None`. A count and an id are an
    /// `Int32`. (The Be Book, The Application Kit, Scripting.)
    pub fn access(
        &mut self,
        what: Code,
        at: AtRef<'_>,
        message: &Message,
    ) -> Result<Option<Items<Value>>, ElementFault>
        ensures refused { IfErr (access_of self.old what.0 (at_of at.entry) message.now) (λ f. result ≡ Err f) }
        ensures only { IfOk (access_of self.old what.0 (at_of at.entry) message.now) (λ _. IsOkUnless result ElementFault.NoMemory) }
        ensures ok { IfOk result (λ values. access_of self.old what.0 (at_of at.entry) message.now
            ≡ Ok (record { elements = self.new; values = answer_of values })) }
        ensures err { OnErr result (self.new ≡ self.old) }
        ensures cause { (f : ElementFault) → f ≢ fault.NoMemory → IsErrOf result f ↔ Refuses f self.old what.0 (at_of at.entry) message.now }
    {
        // Reading the code shows that it is a message: no field of it is without a value.
        let _code = message.what();
        self.carry_out(what, at, message)
    }

    fn carry_out(
        &mut self,
        what: Code,
        at: AtRef<'_>,
        m: &Message,
    ) -> Result<Option<Items<Value>>, ElementFault>
        ensures refused { IfErr (access_of self.old what.0 (at_of at.entry) m.now) (λ f. result ≡ Err f) }
        ensures only { IfOk (access_of self.old what.0 (at_of at.entry) m.now) (λ _. IsOkUnless result ElementFault.NoMemory) }
        ensures ok { IfOk result (λ values. access_of self.old what.0 (at_of at.entry) m.now
            ≡ Ok (record { elements = self.new; values = answer_of values })) }
        ensures err { OnErr result (self.new ≡ self.old) }
    {
        if !has_form(what, at) {
            return Err(ElementFault::BadScript);
        }
        match what {
            Code::GET => self.get(at),
            Code::SET => self.set(at, m),
            Code::COUNT => self.count(),
            Code::CREATE => self.create(at, m),
            _ => self.delete(at),
        }
    }

    // The values of the chosen ones.
    #[tactic(auto, using(crate::proofs::Parts::values_within))]
    fn get(&self, at: AtRef<'_>) -> Result<Option<Items<Value>>, ElementFault>
        ensures refused { IfErr (on_chosen self.now (at_of at.entry) (get self.now)) (λ f. result ≡ Err f) }
        ensures only { IfOk (on_chosen self.now (at_of at.entry) (get self.now)) (λ _. IsOkUnless result ElementFault.NoMemory) }
        ensures ok { IfOk result (λ values. on_chosen self.now (at_of at.entry) (get self.now)
            ≡ Ok (record { elements = self.now; values = answer_of values })) }
    {
        let part = chosen(&self.list, at)?;
        let values = copied(
            *self.list.allocator(),
            &self.list[part.from..part.from + part.count],
        )?;
        Ok(Some(values))
    }

    // Gives each chosen one the value of the message.
    fn set(&mut self, at: AtRef<'_>, m: &Message) -> Result<Option<Items<Value>>, ElementFault>
        ensures refused { IfErr (set_chosen self.old (at_of at.entry) m.now) (λ f. result ≡ Err f) }
        ensures only { IfOk (set_chosen self.old (at_of at.entry) m.now) (λ _. IsOkUnless result ElementFault.NoMemory) }
        ensures ok { IfOk result (λ values. set_chosen self.old (at_of at.entry) m.now
            ≡ Ok (record { elements = self.new; values = answer_of values })) }
        ensures err { OnErr result (self.new ≡ self.old) }
    {
        let value = data_of(self.kind, m)?;
        let part = chosen(&self.list, at)?;
        put_in(&mut self.list, part, value)?;
        Ok(None)
    }

    // How many there are.
    fn count(&self) -> Result<Option<Items<Value>>, ElementFault>
        ensures only { IsOkUnless result ElementFault.NoMemory }
        ensures ok { IfOk result (λ values. count self.now ≡ record { elements = self.now; values = answer_of values }) }
    {
        let answer = number(*self.list.allocator(), self.len())?;
        Ok(Some(answer))
    }

    // Adds an element with the value of the message, and answers its id.
    fn create(&mut self, at: AtRef<'_>, m: &Message) -> Result<Option<Items<Value>>, ElementFault>
        ensures refused { IfErr (create_last self.old (at_of at.entry) m.now) (λ f. result ≡ Err f) }
        ensures only { IfOk (create_last self.old (at_of at.entry) m.now) (λ _. IsOkUnless result ElementFault.NoMemory) }
        ensures ok { IfOk result (λ values. create_last self.old (at_of at.entry) m.now
            ≡ Ok (record { elements = self.new; values = answer_of values })) }
        ensures err { OnErr result (self.new ≡ self.old) }
    {
        let value = data_of(self.kind, m)?;
        if !self.has_room() {
            return Err(ElementFault::ElementLimit);
        }
        let id = self.next_id;
        let alloc = *self.list.allocator();
        let answer = number(alloc, id)?;
        let name = name_of(alloc, at, m)?;
        push_copy(&mut self.list, name, id, value)?;
        self.next_id = id + 1;
        Ok(Some(answer))
    }

    // Removes the chosen ones.
    fn delete(&mut self, at: AtRef<'_>) -> Result<Option<Items<Value>>, ElementFault>
        ensures refused { IfErr (on_chosen self.old (at_of at.entry) (delete self.old)) (λ f. result ≡ Err f) }
        ensures only { IfOk (on_chosen self.old (at_of at.entry) (delete self.old)) (λ _. IsOk result) }
        ensures ok { IfOk result (λ values. on_chosen self.old (at_of at.entry) (delete self.old)
            ≡ Ok (record { elements = self.new; values = answer_of values })) }
        ensures err { OnErr result (self.new ≡ self.old) }
    {
        let part = chosen(&self.list, at)?;
        remove_from(&mut self.list, part);
        Ok(None)
    }
}

// One 32-bit number.
fn number(alloc: Global, n: u32) -> Result<Items<Value>, NoMemory>
    requires { n ≤ 2147483647 }
    ensures { IfOk result (λ values. map value_of values ≡ int32_value (pos n) ∷ []) }
{
    let mut values = Vec::with_capacity(alloc, 1)?;
    values.push(Value::Int32(n as i32))?;
    Ok(Items::from_vec(values))
}

// Whether the command takes the form.
fn has_form(what: Code, at: AtRef<'_>) -> bool
    ensures { result ≡ has_form what.0 (at_of at.entry) }
{
    match what {
        Code::GET | Code::SET => true,
        Code::COUNT => matches!(at, AtRef::Direct),
        Code::CREATE => matches!(at, AtRef::Direct | AtRef::Name(_)),
        Code::DELETE => !matches!(at, AtRef::Direct),
        _ => false,
    }
}

// The value that the message brings, of that kind.
fn data_of(kind: Kind, m: &Message) -> Result<&Value, ElementFault>
    ensures ok { IfOk result (λ v. data_of kind m.now ≡ Ok (value_of v.now)) }
    ensures same_kind { IfOk result (λ v. kind_of (value_of v.now) ≡ kind) }
    ensures err { IfErr result (λ f. data_of kind m.now ≡ Err f) }
{
    // Reading the code shows that the values of a field are of its kind.
    let _code = m.what();
    match m.find(b"data", kind, 0) {
        Ok(value) => Ok(value),
        Err(FindFault::BadType) => Err(ElementFault::BadType),
        Err(FindFault::NameNotFound | FindFault::BadIndex) => Err(ElementFault::BadValue),
    }
}

// The name of a new element: that of the form, else that of the message, else the empty one.
fn name_of(alloc: Global, at: AtRef<'_>, m: &Message) -> Result<Text, NoMemory>
    ensures { IfOk result (λ t. t ≡ name_of (at_of at.entry) m.now) }
{
    if let AtRef::Name(name) = at {
        return name.try_clone();
    }
    match m.find(b"name", Kind::Text, 0) {
        Ok(Value::Text(name)) => name.try_clone(),
        _ => Text::empty(alloc),
    }
}

// Adds an element with a copy of the value. After an `Err` the elements are seen as they were.
fn push_copy(list: &mut Vec<Element>, name: Text, id: u32, value: &Value) -> Result<(), NoMemory>
    ensures ok { OnOk result (elements_of_list list.new.items
        ≡ elements_of_list list.old.items ++ (record { name = name; id = id; value = value_of value.now }) ∷ []) }
    ensures err { OnErr result (elements_of_list list.new.items ≡ elements_of_list list.old.items) }
{
    let value = value.try_clone(*list.allocator())?;
    push_element(list, name, id, value)
}

fn copied(alloc: Global, elements: &[Element]) -> Result<Items<Value>, NoMemory>
    ensures { IfOk result (λ values. map value_of values ≡ map (λ e. value_of e.value) elements.now) }
{
    let mut values = Vec::with_capacity(alloc, elements.len())?;
    for element in elements {
        values.push(element.value.try_clone(alloc)?)?;
    }
    Ok(Items::from_vec(values))
}

fn copies_of(alloc: Global, value: &Value, count: usize) -> Result<Vec<Value>, NoMemory>
    ensures equal { IfOk result (λ copies. All (λ v. value_of v ≡ value_of value.now) copies.items) }
    ensures len { IfOk result (λ copies. length copies.items ≡ count) }
{
    let mut copies = Vec::with_capacity(alloc, count)?;
    for _ in 0..count {
        copies.push(value.try_clone(alloc)?)?;
    }
    Ok(copies)
}

// Gives each element of the part the value. The copies are made first, so an `Err` changes nothing.
fn put_in(list: &mut Vec<Element>, part: Part, value: &Value) -> Result<(), NoMemory>
    requires { part.from + part.count ≤ length list.old.items }
    ensures ok { OnOk result (elements_of_list list.new.items
        ≡ with_part (part_seen part) (elements_of_list list.old.items)
        (map (with_value (value_of value.now)) (elements_in (part_seen part) (elements_of_list list.old.items)))) }
    ensures err { OnErr result (elements_of_list list.new.items ≡ elements_of_list list.old.items) }
{
    let copies = copies_of(*list.allocator(), value, part.count)?;
    let mut place = part.from;
    for copy in copies {
        list[place].value = copy;
        place += 1;
    }
    Ok(())
}

// Removes the elements of the part.
#[tactic(auto, using(crate::proofs::Parts::removals))]
fn remove_from(list: &mut Vec<Element>, part: Part)
    requires { part.from + part.count ≤ length list.old.items }
    ensures { elements_of_list list.new.items ≡ with_part (part_seen part) (elements_of_list list.old.items) [] }
{
    for _ in 0..part.count {
        let _element = list.remove(part.from);
    }
}
