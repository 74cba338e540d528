ghost use Rattle.std.specs.Prelude.{◌≡◌, ◌++◌, ◌∷◌, [], Some, Err, IfSome, IfNone, IfOk, IsOkUnless, OnOk, OnErr};
ghost use Rattle.ak_action.specs.Template.{AreTemplateFields, add_fault, has_name};

use crate::values::Values;
use ak_base::{Code, NoMemory, Text, is_word};
use ak_message::FIELD_LIMIT;
use std::alloc::{AllocFailed, Global};
use std::error::Error;
use std::fmt;
use std::marker::Model;

/// What a field gets as its values.
#[derive(Drop)]
pub enum Given {
    /// These.
    Values(Values),
    /// The first value of the field of that name of the message that is handled.
    Field(Text),
    /// The value of the first element of the handler's property of that name.
    Property(Text),
}

impl Given {
    /// An equal one. `NoMemory` where memory ran out.
    pub fn try_clone(&self) -> Result<Given, NoMemory>
        ensures { IfOk result (λ g. g ≡ self.now) }
    {
        match self {
            Given::Values(values) => Ok(Given::Values(values.try_clone()?)),
            Given::Field(name) => Ok(Given::Field(name.try_clone()?)),
            Given::Property(name) => Ok(Given::Property(name.try_clone()?)),
        }
    }
}

/// A field of a message that is still to be made.
#[derive(Drop)]
pub struct TemplateField {
    /// Its name, which in `TemplateFields` is a word.
    pub name: Text,
    /// What it gets as its values.
    pub given: Given,
}

/// Why a field was not added. They are tested in this order.
#[derive(Clone, Copy, Debug, PartialEq, Eq)]
pub enum TemplateFault {
    /// The name is no word.
    BadName,
    /// There is a field of that name.
    NameInUse,
    /// There are 64 fields.
    FieldLimit,
    /// Memory ran out.
    NoMemory,
}

impl fmt::Display for TemplateFault {
    fn fmt<W: fmt::Write>(&self, f: &mut fmt::Formatter<W>) -> fmt::Result {
        match self {
            TemplateFault::BadName => f.write_str("the name is no word"),
            TemplateFault::NameInUse => f.write_str("a field has that name"),
            TemplateFault::FieldLimit => f.write_str("there are 64 fields"),
            TemplateFault::NoMemory => f.write_str("no memory"),
        }
    }
}

impl Error for TemplateFault {}

impl<T: Drop> From<AllocFailed<T>> for TemplateFault {
    ghost use Rattle.std.specs.Prelude.{◌≡◌};
    ghost use Rattle.ak_action.specs.declared.template.TemplateFault.TheVariants as fault;

    ghost from_gives = { λ _ e. e ≡ fault.NoMemory };

    fn from(_error: AllocFailed<T>) -> TemplateFault {
        TemplateFault::NoMemory
    }
}

/// Fields in order, at most 64, whose names are words and differ. Contracts see their list.
#[derive(Drop)]
pub struct TemplateFields {
    list: Vec<TemplateField>,
}

impl Model for TemplateFields {
    ghost use Rattle.std.specs.Prelude.{List};
    ghost use Rattle.ak_action.specs.declared.template.TemplateField.{TemplateField};
    ghost use Rattle.std.specs.Coded.{coded_list};
    ghost use Rattle.ak_action.specs.contracts.template.TemplateField.{the_row};
    ghost use Rattle.ak_action.specs.Template.{AreTemplateFields};

    ghost Value = { List TemplateField };

    ghost coded = { coded_list the_row.coded };

    ghost view = { λ t. t.list.items };

    ghost invariant = { λ t. AreTemplateFields t.list.items };
}

/// A message that is still to be made: its code, and its fields. A field whose value is not there when it is
/// made is left out. So is a value that is too deep to stand in a message.
#[derive(Drop)]
pub struct Template {
    /// Its code.
    pub what: Code,
    /// Its fields, in their order.
    pub fields: TemplateFields,
}

impl TemplateFields {
    /// No fields. Takes no memory.
    pub fn new(alloc: Global) -> TemplateFields
        ensures { result ≡ [] }
    {
        TemplateFields {
            list: Vec::new(alloc),
        }
    }

    /// Adds a field at the end. The faults are tested in the order of `TemplateFault`. An `Err` changes
    /// nothing, and the field is dropped. `NoMemory` comes last.
    pub fn add(&mut self, field: TemplateField) -> Result<(), TemplateFault>
        ensures refused { IfSome (add_fault self.old field.name) (λ f. result ≡ Err f) }
        ensures only { IfNone (add_fault self.old field.name) (IsOkUnless result TemplateFault.NoMemory) }
        ensures ok { OnOk result (self.new ≡ self.old ++ field ∷ []) }
        ensures err { OnErr result (self.new ≡ self.old) }
    {
        if !is_word(field.name.as_bytes()) {
            return Err(TemplateFault::BadName);
        }
        if has_name(&self.list, field.name.as_bytes()) {
            return Err(TemplateFault::NameInUse);
        }
        if self.list.len() >= FIELD_LIMIT {
            return Err(TemplateFault::FieldLimit);
        }
        self.list.push(field)?;
        Ok(())
    }

    /// The fields in order. Takes no memory.
    pub fn as_slice(&self) -> &[TemplateField]
        ensures value { result.now ≡ self.now }
        ensures are_fields { AreTemplateFields self.now }
    {
        self.list.as_slice()
    }

    /// Equal fields. `NoMemory` where memory ran out.
    pub fn try_clone(&self) -> Result<TemplateFields, NoMemory>
        ensures { IfOk result (λ t. t ≡ self.now) }
    {
        let list = copied(*self.list.allocator(), &self.list)?;
        Ok(TemplateFields { list })
    }
}

impl TemplateField {
    /// An equal one. `NoMemory` where memory ran out.
    pub fn try_clone(&self) -> Result<TemplateField, NoMemory>
        ensures { IfOk result (λ f. f ≡ self.now) }
    {
        Ok(TemplateField {
            name: self.name.try_clone()?,
            given: self.given.try_clone()?,
        })
    }
}

impl Template {
    /// An equal one. `NoMemory` where memory ran out.
    pub fn try_clone(&self) -> Result<Template, NoMemory>
        ensures { IfOk result (λ t. t ≡ self.now) }
    {
        Ok(Template {
            what: self.what,
            fields: self.fields.try_clone()?,
        })
    }
}

fn copied(alloc: Global, fields: &[TemplateField]) -> Result<Vec<TemplateField>, NoMemory>
    ensures { IfOk result (λ copies. copies.items ≡ fields.now) }
{
    let mut copies = Vec::with_capacity(alloc, fields.len())?;
    for field in fields {
        copies.push(field.try_clone()?)?;
    }
    Ok(copies)
}

// Whether a field of that name is among them.
fn has_name(fields: &[TemplateField], name: &[u8]) -> bool
    ensures { result ≡ has_name fields.now name.now }
{
    fields.iter().any(|field| field.name.as_bytes() == name)
}
