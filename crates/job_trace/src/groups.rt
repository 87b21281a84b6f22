//! How a group is printed. Each call adds to a text.
#![tactic(auto)]

ghost use Rattle.std.specs.Prelude.{OnOk, string_bytes};
ghost use Rattle.query_core.specs.Keys.{IsGroup};
ghost use Rattle.query_text.specs.Added.{AddsText};
ghost use Rattle.job_trace.specs.Groups as texts;

use cardinality::rows;
use query_core::{Key, KeyParts, Query, groups_are_known, sets};
use query_text::table_text;
use std::alloc::AllocError;

/// Adds the line of a group, with its estimated rows.
pub fn push_group_line(query: &Query, group: KeyParts, text: &mut String) -> Result<(), AllocError>
    requires { IsGroup query.now group }
    ensures ok { OnOk result (AddsText (string_bytes text.old)
        (texts.group_line query.now group) (string_bytes text.new)) }
{
    groups_are_known();
    text.push_str("group ")?;
    push_group(query, group, text)?;
    let rows = rows(query, Key::make(group));
    write!(text, " rows={rows}\n")
}

/// Adds a group.
pub fn push_group(query: &Query, group: KeyParts, text: &mut String) -> Result<(), AllocError>
    ensures ok { OnOk result (AddsText (string_bytes text.old)
        (texts.group_text query.now group) (string_bytes text.new)) }
{
    match group {
        KeyParts::Get(_) => push_named(query, "Get", group, text),
        KeyParts::Filter(_) => push_named(query, "Filter", group, text),
        KeyParts::Join(_) => push_named(query, "Join", group, text),
        KeyParts::Partial => text.push_str("Partial"),
        KeyParts::Agg => text.push_str("Agg"),
    }
}

// Adds a name, and in brackets the tables of a group.
fn push_named(
    query: &Query,
    name: &str,
    group: KeyParts,
    text: &mut String,
) -> Result<(), AllocError>
    ensures ok { OnOk result (AddsText (string_bytes text.old)
        (texts.named name.now (texts.tables_text query.now group)) (string_bytes text.new)) }
{
    text.push_str(name)?;
    text.push_str("(")?;
    push_tables(query, group, text)?;
    text.push_str(")")
}

/// Adds the tables that a group joins, by their aliases.
pub fn push_tables(query: &Query, group: KeyParts, text: &mut String) -> Result<(), AllocError>
    ensures ok { OnOk result (AddsText (string_bytes text.old)
        (texts.tables_text query.now group) (string_bytes text.new)) }
{
    match group {
        KeyParts::Get(table) => text.push_str(table_text(query, table)),
        KeyParts::Filter(table) => text.push_str(table_text(query, table)),
        KeyParts::Join(set) => push_set(query, set, text),
        KeyParts::Partial => Ok(()),
        KeyParts::Agg => Ok(()),
    }
}

fn push_set(query: &Query, set: u32, text: &mut String) -> Result<(), AllocError>
    ensures ok { OnOk result (AddsText (string_bytes text.old)
        (texts.set_text query.now set) (string_bytes text.new)) }
{
    let mut separator = "";
    for (place, table) in query.tables.as_slice().iter().enumerate() {
        if sets::has(set, place as u32) {
            text.push_str(separator)?;
            text.push_str(table.alias.as_str())?;
            separator = ", ";
        }
    }
    Ok(())
}
