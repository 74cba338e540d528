//! The message of an action: a code, and then a field in each word.

ghost use Rattle.std.specs.Prelude.{◌≡◌, map, IfOk, OnOk};
ghost use Rattle.ak_action.specs.Building.{HasRoomFor, with_new};
ghost use Rattle.ak_describe.specs.Actions as reads;
ghost use Rattle.ak_describe.specs.Answers.{Gives};
ghost use Rattle.ak_describe.specs.Seen.{seen, built_of};
ghost use Rattle.ak_describe.specs.Words.{texts};

use crate::fault::FormFault;
use crate::form::values::values_from;
use crate::parts::{PropertyParts, property_named};
use crate::words::{code_at, name_of};
use ak_action::{
    Given, Template, TemplateFault, TemplateField, TemplateFields, Values, add_values,
};
use ak_base::{Code, Limited, NoMemory, Text};
use ak_flatten::{FLAT_LIMIT, flat_len};
use ak_input::{Word, split_field};
use ak_message::Message;
use indexmap::IndexSet;
use std::alloc::Global;

/// The template, for a handler with these properties. Nothing of it is kept where it passes a limit.
#[tactic(auto, unfolding(crate::specs::Actions::template_form))]
pub(crate) fn template_form(
    alloc: Global,
    properties: &[PropertyParts],
    words: &[Word],
) -> Result<Limited<Template>, FormFault>
    ensures { Gives (λ t. t) result (reads.template_form properties.now (texts words.now)) }
{
    let (what, words) = code_at(words)?;
    let begun = Building {
        names: IndexSet::new(alloc),
        fields: Limited::Within(TemplateFields::new(alloc)),
    };
    let Building { names: _, fields } = with_fields(alloc, properties, begun, words)?;
    match fields {
        Limited::Within(fields) => Ok(short_template(alloc, what, fields)?),
        Limited::Over => Ok(Limited::Over),
    }
}

// What is read of the fields: their names, and the fields where they pass no limit.
#[derive(Drop)]
struct Building<'a> {
    names: IndexSet<&'a [u8]>,
    fields: Limited<TemplateFields>,
}

// With these fields more.
#[tactic(auto, unfolding(crate::specs::Actions::fields_behind))]
fn with_fields<'a>(
    alloc: Global,
    properties: &[PropertyParts],
    building: Building<'a>,
    words: &'a [Word],
) -> Result<Building<'a>, FormFault>
    ensures { Gives built_of result (reads.fields_behind properties.now (built_of building.entry) (texts words.now)) }
{
    let mut building = building;
    for word in words {
        building = field(alloc, properties, building, word.bytes.as_slice())?;
    }
    Ok(building)
}

// One field more: a name, `=` and what it gets.
#[tactic(auto, unfolding(crate::specs::Actions::field_behind))]
fn field<'a>(
    alloc: Global,
    properties: &[PropertyParts],
    building: Building<'a>,
    word: &'a [u8],
) -> Result<Building<'a>, FormFault>
    ensures { Gives built_of result (reads.field_behind properties.now (built_of building.entry) word.now) }
{
    let Some((name, text)) = split_field(word) else {
        return Err(FormFault::BadValue);
    };
    let given = given_from(alloc, properties, text)?;
    add(alloc, building, name, given)
}

// Its name has to be a new one.
fn add<'a>(
    alloc: Global,
    building: Building<'a>,
    name: &'a [u8],
    given: Limited<Given>,
) -> Result<Building<'a>, FormFault>
    ensures { Gives built_of result (reads.field_added (built_of building.entry) name.now given) }
{
    let Building { mut names, fields } = building;
    if !names.insert(name)? {
        return Err(FormFault::BadValue);
    }
    let text = name_of(alloc, name)?;
    let fields = with_field(fields, text, given)?;
    Ok(Building { names, fields })
}

// The fields and one more, where they and it pass no limit.
fn with_field(
    fields: Limited<TemplateFields>,
    name: Text,
    given: Limited<Given>,
) -> Result<Limited<TemplateFields>, FormFault>
    ensures { Gives (λ fs. fs) result (reads.with_field fields name given) }
{
    let Limited::Within(mut fields) = fields else {
        return Ok(Limited::Over);
    };
    let Limited::Within(given) = given else {
        return Ok(Limited::Over);
    };
    match fields.add(TemplateField { name, given }) {
        Ok(()) => Ok(Limited::Within(fields)),
        Err(TemplateFault::FieldLimit) => Ok(Limited::Over),
        Err(TemplateFault::NoMemory) => Err(FormFault::NoMemory),
        Err(TemplateFault::BadName | TemplateFault::NameInUse) => Err(FormFault::BadValue),
    }
}

/// What a field gets: `$NAME` alone, `@NAME` alone, or values, where they pass no limit.
#[tactic(auto, unfolding(crate::specs::Actions::given_from))]
fn given_from(
    alloc: Global,
    properties: &[PropertyParts],
    text: &[u8],
) -> Result<Limited<Given>, FormFault>
    ensures { Gives (λ g. g) result (reads.given_from properties.now text.now) }
{
    if let Some(given) = copied_from(alloc, properties, text)? {
        return Ok(Limited::Within(given));
    }
    Ok(given_values(values_from(alloc, text)?))
}

/// The values as what a field gets.
pub(crate) fn given_values(values: Limited<Values>) -> Limited<Given>
    ensures { result ≡ reads.given_values values }
{
    match values {
        Limited::Within(values) => Limited::Within(Given::Values(values)),
        Limited::Over => Limited::Over,
    }
}

/// `$NAME`, a field of the message that is handled, or `@NAME`, a property that the handler has. `None` where
/// it begins with neither sign.
pub(crate) fn copied_from(
    alloc: Global,
    properties: &[PropertyParts],
    text: &[u8],
) -> Result<Option<Given>, FormFault>
    ensures { Gives (λ g. g) result (reads.copied_from properties.now text.now) }
{
    match text.split_first() {
        Some((sign, name)) => copied_by(alloc, properties, *sign, name),
        None => Ok(None),
    }
}

fn copied_by(
    alloc: Global,
    properties: &[PropertyParts],
    sign: u8,
    name: &[u8],
) -> Result<Option<Given>, FormFault>
    ensures { Gives (λ g. g) result (reads.copied_by properties.now sign name.now) }
{
    if sign == b'$' {
        let name = name_of(alloc, name)?;
        Ok(Some(Given::Field(name)))
    } else if sign == b'@' {
        let name = property_name(alloc, properties, name)?;
        Ok(Some(Given::Property(name)))
    } else {
        Ok(None)
    }
}

/// The name of a property that the handler has.
pub(crate) fn property_name(
    alloc: Global,
    properties: &[PropertyParts],
    word: &[u8],
) -> Result<Text, FormFault>
    ensures { Gives (λ t. t) result (reads.property_name properties.now word.now) }
{
    if property_named(properties, word).is_none() {
        return Err(FormFault::BadValue);
    }
    name_of(alloc, word)
}

// ---- the length
// The template, where the message of its written values alone has at most 4,096 bytes as flat text.
fn short_template(
    alloc: Global,
    what: Code,
    fields: TemplateFields,
) -> Result<Limited<Template>, NoMemory>
    ensures { IfOk result (λ t. t ≡ reads.short_template what fields) }
{
    let message = written(alloc, what, &fields)?;
    if flat_len(&message) <= FLAT_LIMIT as u64 {
        Ok(Limited::Within(Template { what, fields }))
    } else {
        Ok(Limited::Over)
    }
}

// The message of the written values alone.
fn written(alloc: Global, what: Code, fields: &TemplateFields) -> Result<Message, NoMemory>
    ensures { IfOk result (λ m. m ≡ reads.written what fields.now) }
{
    let mut message = Message::new(alloc, what);
    let list = fields.as_slice();
    for field in list {
        write_field(alloc, &mut message, field)?;
    }
    Ok(message)
}

// Adds the field, where its values are written.
fn write_field(alloc: Global, message: &mut Message, field: &TemplateField) -> Result<(), NoMemory>
    requires { HasRoomFor message.old.fields field.now.name }
    ensures { OnOk result (message.new ≡ with_new message.old field.now.name (reads.written_values field.now.given)) }
{
    match &field.given {
        Given::Values(values) => add_values(alloc, message, field.name.as_bytes(), values),
        Given::Field(_) | Given::Property(_) => Ok(()),
    }
}
