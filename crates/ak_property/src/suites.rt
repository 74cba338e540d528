ghost use Rattle.std.specs.Prelude.{◌≡◌, ◌≤◌, ◌<◌, ◌++◌, None, length, codes, IfOk, OnOk};
ghost use Rattle.ak_message.specs.Fields.{field_named};
ghost use Rattle.ak_message.specs.Limits.{field_limit, value_limit};
ghost use Rattle.ak_property.specs.Suites.{suites_reply, texts_field, names_of};
ghost use Rattle.ak_property.specs.Limits.{told_suite_limit};

use crate::table::{PropertyRow, PropertyTable};
use ak_base::{Code, NoMemory, Text};
use ak_message::{Message, Value};
use std::alloc::Global;

/// The reply `RPLY` that tells the suites of a handler, 1 to 19, and the names of its properties. Its fields
/// are the texts `suites`, the texts `properties` where the table has rows, and the `Int32` `error`, which is
/// 0. All stand in the order given. `NoMemory` where memory ran out. (The Be Book, The Application Kit,
/// BHandler: GetSupportedSuites().)
pub fn suite_message(
    alloc: Global,
    suites: &[Text],
    table: &PropertyTable,
) -> Result<Message, NoMemory>
    requires some { 1 ≤ length suites.now }
    requires limit { length suites.now ≤ told_suite_limit }
    ensures { IfOk result (λ m. m ≡ suites_reply suites.now table.now) }
{
    let mut reply = Message::with_capacity(alloc, Code::REPLY, 3)?;
    add_suites(&mut reply, suites)?;
    add_names(&mut reply, table.as_slice())?;
    reply.add_fitting(b"error", Value::Int32(0))?;
    Ok(reply)
}

// Adds the suites behind the fields.
fn add_suites(reply: &mut Message, suites: &[Text]) -> Result<(), NoMemory>
    requires new { field_named reply.old.fields (codes "suites") ≡ None }
    requires room { length reply.old.fields < field_limit }
    requires limit { length suites.now ≤ value_limit }
    ensures { OnOk result (reply.new ≡ record reply.old { fields = reply.old.fields ++ texts_field (codes "suites") suites.now }) }
{
    for suite in suites {
        reply.add_fitting(b"suites", Value::Text(suite.try_clone()?))?;
    }
    Ok(())
}

// Adds the names of the rows behind the fields.
fn add_names(reply: &mut Message, rows: &[PropertyRow]) -> Result<(), NoMemory>
    requires new { field_named reply.old.fields (codes "properties") ≡ None }
    requires room { length reply.old.fields < field_limit }
    requires limit { length rows.now ≤ value_limit }
    ensures { OnOk result (reply.new ≡ record reply.old { fields = reply.old.fields ++ texts_field (codes "properties") (names_of rows.now) }) }
{
    for row in rows {
        reply.add_fitting(b"properties", Value::Text(row.name.try_clone()?))?;
    }
    Ok(())
}
