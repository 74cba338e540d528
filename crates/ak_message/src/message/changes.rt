ghost use Rattle.std.specs.Prelude.{◌≡◌, map, remove, min, Err, IsOk, OnOk, OnErr, OnSome, IfNone, IfSome, option_map, slice_get, slice_set};
ghost use Rattle.std.specs.Result.{result_ok};
ghost use Rattle.ak_message.specs.Message.{nested_values, nested_fields, depth_of_nested_values, depth_of_nested_fields};
ghost use Rattle.ak_message.specs.Seen.{value_of, field_of, fields_of};
ghost use Rattle.ak_message.specs.Fields.{field_named, found_in, replaced, replace_fault, removed_data, removed_name, remove_fault, name_fault, value_at, with_values, with_fields_left};

use super::{DEPTH_LIMIT, Field, Message, Value, field_named, place_of, specifiers_among};
use crate::fault::{RemoveFault, ReplaceFault};
use crate::kind::Kind;

impl Message {
    /// Puts the value in place of the one at that index of the field of that name. The faults are tested in
    /// the order of `ReplaceFault`. An `Err` changes nothing, and the value is dropped. Takes no memory.
    /// Indexes count from 0. (The Be Book, The Application Kit, BMessage: ReplaceData().)
    pub fn replace(&mut self, name: &[u8], index: u32, value: Value) -> Result<(), ReplaceFault>
        ensures refused { IfSome (replace_fault self.old.fields name.now index (value_of value)) (λ f. result ≡ Err f) }
        ensures only { IfNone (replace_fault self.old.fields name.now index (value_of value)) (IsOk result) }
        ensures ok { OnOk result (self.new ≡ record self.old { fields = replaced self.old.fields name.now index (value_of value) }) }
        ensures err { OnErr result (self.new ≡ self.old) }
    {
        if let Some(fault) = self.replace_fault(name, index, &value) {
            return Err(fault);
        }
        value.shows_that_it_fits();
        put_at(&mut self.fields, name, index as usize, value);
        self.depth = deepest(&self.fields) + 1;
        Ok(())
    }

    // Why the value is not put there.
    fn replace_fault(&self, name: &[u8], index: u32, value: &Value) -> Option<ReplaceFault>
        ensures { result ≡ replace_fault self.now.fields name.now index (value_of value.now) }
    {
        let Some(field) = field_named(&self.fields, name) else {
            return Some(ReplaceFault::NameNotFound);
        };
        if field.kind != value.kind() {
            return Some(ReplaceFault::BadType);
        }
        if index as usize >= field.values.len() {
            return Some(ReplaceFault::BadIndex);
        }
        if value.depth() >= DEPTH_LIMIT {
            return Some(ReplaceFault::TooDeep);
        }
        None
    }

    /// Removes the value at that index of the field of that name, and with the last value the field. The
    /// faults are tested in the order of `RemoveFault`. An `Err` changes nothing. Where fewer specifiers stay
    /// than were popped, as many are popped as there are. Takes no memory. (The Be Book, The Application Kit,
    /// BMessage: RemoveData().)
    pub fn remove_data(&mut self, name: &[u8], index: u32) -> Result<(), RemoveFault>
        ensures refused { IfSome (remove_fault self.old.fields name.now index) (λ f. result ≡ Err f) }
        ensures only { IfNone (remove_fault self.old.fields name.now index) (IsOk result) }
        ensures ok { OnOk result (self.new ≡ with_fields_left self.old (removed_data self.old.fields name.now index)) }
        ensures err { OnErr result (self.new ≡ self.old) }
    {
        if field_named(&self.fields, name).is_none() {
            return Err(RemoveFault::NameNotFound);
        }
        match self.take(name, index) {
            Some(_) => Ok(()),
            None => Err(RemoveFault::BadIndex),
        }
    }

    /// Hands out the first value of the field of that name and kind, and removes it as `remove_data` does.
    /// `None` where `find` is refused at index 0; then nothing is changed. Takes no memory.
    pub fn take_first(&mut self, name: &[u8], kind: Kind) -> Option<Value>
        ensures value { option_map value_of result ≡ result_ok (found_in self.old.fields name.now kind 0) }
        ensures some { OnSome result (self.new ≡ with_fields_left self.old (removed_data self.old.fields name.now 0)) }
        ensures none { IfNone result (self.new ≡ self.old) }
    {
        match field_named(&self.fields, name) {
            Some(field) if field.kind == kind => self.take(name, 0),
            _ => None,
        }
    }

    /// Removes the field of that name. It is refused with `NameNotFound` alone. An `Err` changes nothing.
    /// Where that was the field of the specifiers, none is popped any more. Takes no memory. (The Be Book,
    /// The Application Kit, BMessage: RemoveName().)
    #[tactic(auto, using(crate::proofs::Changing::removals))]
    pub fn remove_name(&mut self, name: &[u8]) -> Result<(), RemoveFault>
        ensures refused { IfSome (name_fault self.old.fields name.now) (λ f. result ≡ Err f) }
        ensures only { IfNone (name_fault self.old.fields name.now) (IsOk result) }
        ensures ok { OnOk result (self.new ≡ with_fields_left self.old (removed_name self.old.fields name.now)) }
        ensures err { OnErr result (self.new ≡ self.old) }
    {
        let Some(place) = place_of(&self.fields, name) else {
            return Err(RemoveFault::NameNotFound);
        };
        let _field = self.fields.remove(place);
        self.depth = deepest(&self.fields) + 1;
        self.popped = at_most(self.popped, specifiers_among(&self.fields));
        Ok(())
    }

    // Hands out the value at that index of the field of that name, and removes it.
    fn take(&mut self, name: &[u8], index: u32) -> Option<Value>
        ensures value { option_map value_of result ≡ value_at (field_named self.old.fields name.now) index }
        ensures some { OnSome result (self.new ≡ with_fields_left self.old (removed_data self.old.fields name.now index)) }
        ensures none { IfNone result (self.new ≡ self.old) }
    {
        let value = take_from(&mut self.fields, name, index as usize)?;
        self.depth = deepest(&self.fields) + 1;
        self.popped = at_most(self.popped, specifiers_among(&self.fields));
        Some(value)
    }
}

fn at_most(popped: u32, specifiers: usize) -> u32
    ensures { result ≡ min popped specifiers }
{
    if specifiers < popped as usize {
        specifiers as u32
    } else {
        popped
    }
}

// How deep messages stand in these fields: 0 without a message.
fn deepest(fields: &[Field]) -> u32
    ensures { result ≡ depth_of_nested_fields (nested_fields (fields_of fields.now)) }
{
    let mut depth = 0;
    for field in fields {
        depth = depth.max(deepest_value(&field.values));
    }
    depth
}

fn deepest_value(values: &[Value]) -> u32
    ensures { result ≡ depth_of_nested_values (nested_values (map value_of values.now)) }
{
    let mut depth = 0;
    for value in values {
        depth = depth.max(value.depth());
    }
    depth
}

// Puts the value in place of the one there, if one is.
#[tactic(auto, using(crate::proofs::Changing::replacements))]
fn put_at(fields: &mut Vec<Field>, name: &[u8], index: usize, value: Value)
    ensures { fields_of fields.new.items ≡ replaced (fields_of fields.old.items) name.now index (value_of value) }
{
    if let Some(place) = place_of(fields.as_slice(), name) {
        fields[place].put_at(index, value);
    }
}

// Hands out the value there, if one is, and removes it, and with the last value the field.
#[tactic(auto, using(crate::proofs::Changing::removals))]
fn take_from(fields: &mut Vec<Field>, name: &[u8], index: usize) -> Option<Value>
    ensures value { option_map value_of result ≡ value_at (field_named (fields_of fields.old.items) name.now) index }
    ensures some { OnSome result (fields_of fields.new.items ≡ removed_data (fields_of fields.old.items) name.now index) }
    ensures none { IfNone result (fields_of fields.new.items ≡ fields_of fields.old.items) }
{
    let Some(place) = place_of(fields.as_slice(), name) else {
        return None;
    };
    let Some(value) = fields[place].take(index) else {
        return None;
    };
    if fields[place].values.is_empty() {
        let _field = fields.remove(place);
    }
    Some(value)
}

#[tactic(auto, using(crate::proofs::Changing::edits))]
impl Field {
    // Puts the value in place of the one there, if one is.
    fn put_at(&mut self, index: usize, value: Value)
        ensures { field_of self.new ≡ with_values (field_of self.old) (slice_set (field_of self.old).values index (value_of value)) }
    {
        if index < self.values.len() {
            self.values[index] = value;
        }
    }

    // Hands out the value there, if one is, and removes it.
    fn take(&mut self, index: usize) -> Option<Value>
        ensures value { option_map value_of result ≡ slice_get (field_of self.old).values index }
        ensures some { OnSome result (field_of self.new ≡ with_values (field_of self.old) (remove (field_of self.old).values index)) }
        ensures none { IfNone result (field_of self.new ≡ field_of self.old) }
    {
        if index < self.values.len() {
            Some(self.values.remove(index))
        } else {
            None
        }
    }
}
