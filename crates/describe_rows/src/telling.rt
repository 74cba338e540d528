//! Tells an answer as text: all parts of the applications in their order, one blank before each word, and
//! nothing of a part that is not there. Values are written with their kind, codes as they are printed, and
//! texts in quotes as they are, but for control bytes, which are `\x` and two digits.

ghost use Rattle.std.specs.Prelude.{◌<◌};

use ak_action::{Action, Dest, Given, LooperPlan, PlanRow, Reaction, Template};
use ak_base::{AppWord, Bytes, Code, NoMemory, RefusalKind, Text, print_int, print_uint};
use ak_describe::{AppText, DescribeFault};
use ak_filter::{DeliveryIs, Filter, SourceIs};
use ak_message::{Address, AtRef, FieldRef, Kind, Message, Target, Value};
use ak_property::PropertyRow;
use ak_roster::Mode;
use ak_value::Elements;
use std::alloc::Global;

type Told = Result<(), NoMemory>;

// ---- refusals
pub(crate) fn tell_fault(alloc: Global, out: &mut Bytes, fault: DescribeFault) -> Told {
    match fault {
        DescribeFault::Refused { line, kind } => tell_kind(alloc, out, line, kind),
        DescribeFault::NoMemory => out.extend(b"no memory"),
    }
}

pub(crate) fn tell_kind(alloc: Global, out: &mut Bytes, line: u32, kind: RefusalKind) -> Told {
    print_uint(u64::from(line), out)?;
    word(out, kind.to_string(alloc)?.as_bytes())
}

// ---- applications, loopers, handlers
pub(crate) fn tell_apps(alloc: Global, out: &mut Bytes, apps: &[AppText]) -> Told {
    for (place, app) in apps.iter().enumerate() {
        if place > 0 {
            out.push(b' ')?;
        }
        tell_app(alloc, out, app)?;
    }
    Ok(())
}

fn tell_app(alloc: Global, out: &mut Bytes, app: &AppText) -> Told {
    out.extend(b"app")?;
    word(out, app.path.as_bytes())?;
    word(out, app.signature.as_bytes())?;
    word(out, mode(app.mode))?;
    for looper in app.loopers.as_slice() {
        tell_looper(alloc, out, looper)?;
    }
    Ok(())
}

fn mode(mode: Mode) -> &'static [u8] {
    match mode {
        Mode::Single => b"single",
        Mode::Multiple => b"multiple",
        Mode::Exclusive => b"exclusive",
    }
}

fn tell_looper(alloc: Global, out: &mut Bytes, looper: &LooperPlan) -> Told {
    let parts = looper.parts();
    named(out, b"looper", &parts.name)?;
    number(out, u64::from(parts.capacity))?;
    if parts.quit_refused {
        word(out, b"refuses")?;
    }
    named_if(out, b"prefers", &parts.preferred)?;
    for filter in parts.common.as_slice() {
        word(out, b"common")?;
        tell_filter(out, filter)?;
    }
    for row in parts.rows.as_slice() {
        tell_row(alloc, out, row)?;
    }
    Ok(())
}

fn tell_row(alloc: Global, out: &mut Bytes, row: &PlanRow) -> Told {
    named(out, b"row", &row.name)?;
    named_if(out, b"next", &row.next)?;
    for suite in row.suites.as_slice() {
        named(out, b"suite", suite)?;
    }
    tell_properties(alloc, out, row)?;
    for filter in row.filters.as_slice() {
        word(out, b"filter")?;
        tell_filter(out, filter)?;
    }
    for reaction in row.reactions.as_slice() {
        tell_reaction(out, reaction)?;
    }
    Ok(())
}

// ---- properties
fn tell_properties(alloc: Global, out: &mut Bytes, row: &PlanRow) -> Told {
    let elements = row.elements.as_slice();
    for (property, elements) in row.table.as_slice().iter().zip(elements) {
        tell_property(out, property)?;
        tell_elements(alloc, out, elements)?;
    }
    Ok(())
}

fn tell_property(out: &mut Bytes, row: &PropertyRow) -> Told {
    named(out, b"property", &row.name)?;
    out.push(b' ')?;
    kind(out, row.kind)?;
    tell_codes(out, row.commands.as_slice())?;
    tell_forms(out, row.forms.as_slice())?;
    quoted_if(out, b"usage", &row.usage)
}

fn tell_codes(out: &mut Bytes, codes: &[Code]) -> Told {
    for code in codes {
        word(out, b"command")?;
        tell_code(out, *code)?;
    }
    Ok(())
}

fn tell_forms(out: &mut Bytes, forms: &[u32]) -> Told {
    for form in forms {
        word(out, b"form")?;
        number(out, u64::from(*form))?;
    }
    Ok(())
}

fn tell_elements(alloc: Global, out: &mut Bytes, elements: &Elements) -> Told {
    word(out, b"elements")?;
    number(out, u64::from(elements.len()))?;
    let all = AtRef::Range {
        index: 0,
        count: elements.len() as i32,
    };
    match elements
        .try_clone()?
        .access(Code::GET, all, &Message::new(alloc, Code::GET))
    {
        Ok(Some(values)) => {
            out.push(b' ')?;
            tell_values(out, values.as_slice())
        }
        _ => Ok(()),
    }
}

// ---- filters
fn tell_filter(out: &mut Bytes, filter: &Filter) -> Told {
    code_if(out, b"what", filter.what)?;
    match filter.source {
        SourceIs::Any => {}
        SourceIs::Local => word(out, b"local")?,
        SourceIs::Remote => word(out, b"remote")?,
    }
    match filter.delivery {
        DeliveryIs::Any => {}
        DeliveryIs::Dropped => word(out, b"dropped")?,
        DeliveryIs::Programmed => word(out, b"programmed")?,
    }
    word(out, if filter.skip { b"skip" } else { b"pass" })?;
    named_if(out, b"to", &filter.to)?;
    code_if(out, b"as", filter.set_what)
}

// ---- reactions
fn tell_reaction(out: &mut Bytes, reaction: &Reaction) -> Told {
    word(out, b"on")?;
    tell_code(out, reaction.what)?;
    for action in reaction.actions.as_slice() {
        tell_action(out, action)?;
    }
    Ok(())
}

fn tell_action(out: &mut Bytes, action: &Action) -> Told {
    match action {
        Action::Reply { message } => {
            word(out, b"reply")?;
            tell_template(out, message)
        }
        Action::Post { to, message, back } => {
            word(out, if *back { b"post back" } else { b"post" })?;
            tell_dest(out, to)?;
            tell_template(out, message)
        }
        Action::Ask { to, message, into } => {
            word(out, b"ask")?;
            tell_dest(out, to)?;
            tell_template(out, message)?;
            named_if(out, b"into", into)
        }
        Action::Set { property, value } => {
            named(out, b"set", property)?;
            out.push(b' ')?;
            tell_given(out, value)
        }
        Action::Add { property, amount } => {
            named(out, b"add", property)?;
            out.push(b' ')?;
            tell_value(out, &amount.value())
        }
        Action::Stop => word(out, b"stop"),
        Action::Quit => word(out, b"quit"),
    }
}

fn tell_dest(out: &mut Bytes, dest: &Dest) -> Told {
    match dest {
        Dest::Own => word(out, b"own"),
        Dest::Looper(name) => named(out, b"looper", name),
        Dest::Handler(name) => named(out, b"handler", name),
        Dest::App(AppWord::Path(path)) => named(out, b"path", path),
        Dest::App(AppWord::Signature(signature)) => named(out, b"signature", signature),
        Dest::App(AppWord::Name(name)) => named(out, b"name", name),
        Dest::App(AppWord::Team(team)) => {
            word(out, b"team")?;
            number(out, u64::from(*team))
        }
    }
}

fn tell_template(out: &mut Bytes, template: &Template) -> Told {
    tell_code(out, template.what)?;
    for field in template.fields.as_slice() {
        word(out, field.name.as_bytes())?;
        out.push(b'=')?;
        tell_given(out, &field.given)?;
    }
    Ok(())
}

fn tell_given(out: &mut Bytes, given: &Given) -> Told {
    match given {
        Given::Values(values) => tell_values(out, values.as_slice()),
        Given::Field(name) => {
            out.push(b'$')?;
            out.extend(name.as_bytes())
        }
        Given::Property(name) => {
            out.push(b'@')?;
            out.extend(name.as_bytes())
        }
    }
}

// ---- values
fn tell_values(out: &mut Bytes, values: &[Value]) -> Told {
    for (place, value) in values.iter().enumerate() {
        if place > 0 {
            out.push(b',')?;
        }
        tell_value(out, value)?;
    }
    Ok(())
}

fn tell_value(out: &mut Bytes, value: &Value) -> Told {
    kind(out, value.kind())?;
    out.push(b':')?;
    match value {
        Value::Bool(true) => out.extend(b"true"),
        Value::Bool(false) => out.extend(b"false"),
        Value::Int8(n) => print_int(i64::from(*n), out),
        Value::Int16(n) => print_int(i64::from(*n), out),
        Value::Int32(n) => print_int(i64::from(*n), out),
        Value::Int64(n) => print_int(*n, out),
        Value::UInt8(n) => print_uint(u64::from(*n), out),
        Value::UInt16(n) => print_uint(u64::from(*n), out),
        Value::UInt32(n) => print_uint(u64::from(*n), out),
        Value::UInt64(n) => print_uint(*n, out),
        Value::Text(text) => quoted(out, text),
        Value::Messenger(address) => tell_address(out, address),
        Value::Raw(raw) => tell_raw(out, raw.as_bytes()),
        Value::Message(message) => tell_message(out, message, value.depth()),
    }
}

fn tell_address(out: &mut Bytes, address: &Address) -> Told {
    print_uint(u64::from(address.looper), out)?;
    match address.target {
        Target::Preferred => out.extend(b".p"),
        Target::Token(token) => {
            out.push(b'.')?;
            print_uint(token, out)
        }
    }
}

// How many bytes, and each as a number.
fn tell_raw(out: &mut Bytes, raw: &[u8]) -> Told {
    print_uint(raw.len() as u64, out)?;
    for b in raw {
        out.push(b'-')?;
        print_uint(u64::from(*b), out)?;
    }
    Ok(())
}

// A message by its code, its fields by their names and numbers of values, and how deep messages stand in it.
fn tell_message(out: &mut Bytes, message: &Message, depth: u32) -> Told {
    out.push(b'{')?;
    tell_code(out, message.what())?;
    for place in 0..message.count_names() {
        if let Some(field) = message.field_at(place) {
            tell_field(out, &field)?;
        }
    }
    number(out, u64::from(depth))?;
    out.push(b'}')
}

fn tell_field(out: &mut Bytes, field: &FieldRef) -> Told {
    word(out, field.name)?;
    out.push(b'=')?;
    kind(out, field.kind)?;
    out.push(b'*')?;
    print_uint(field.values.len() as u64, out)
}

// ---- words
fn word(out: &mut Bytes, word: &[u8]) -> Told {
    out.push(b' ')?;
    out.extend(word)
}

fn number(out: &mut Bytes, number: u64) -> Told {
    out.push(b' ')?;
    print_uint(number, out)
}

fn kind(out: &mut Bytes, kind: Kind) -> Told {
    out.extend(&kind.code().0.to_be_bytes())
}

fn quoted(out: &mut Bytes, text: &Text) -> Told {
    out.push(b'"')?;
    for b in text.as_bytes() {
        tell_byte(out, *b)?;
    }
    out.push(b'"')
}

fn tell_byte(out: &mut Bytes, b: u8) -> Told {
    if b >= b' ' && b != 0x7f {
        return out.push(b);
    }
    out.extend(b"\\x")?;
    out.push(hex_digit(b / 16))?;
    out.push(hex_digit(b % 16))
}

fn hex_digit(d: u8) -> u8
    requires { d < 16 }
{
    if d < 10 { b'0' + d } else { b'a' + (d - 10) }
}

fn named(out: &mut Bytes, key: &[u8], name: &Text) -> Told {
    word(out, key)?;
    word(out, name.as_bytes())
}

fn named_if(out: &mut Bytes, key: &[u8], name: &Option<Text>) -> Told {
    match name {
        Some(name) => named(out, key, name),
        None => Ok(()),
    }
}

// Nothing of an empty text.
fn quoted_if(out: &mut Bytes, key: &[u8], text: &Text) -> Told {
    if text.as_bytes().is_empty() {
        return Ok(());
    }
    word(out, key)?;
    out.push(b' ')?;
    quoted(out, text)
}

fn tell_code(out: &mut Bytes, code: Code) -> Told {
    out.push(b' ')?;
    code.print(out)
}

fn code_if(out: &mut Bytes, key: &[u8], code: Option<Code>) -> Told {
    match code {
        Some(code) => {
            word(out, key)?;
            tell_code(out, code)
        }
        None => Ok(()),
    }
}
