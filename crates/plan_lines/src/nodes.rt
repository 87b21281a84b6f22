//! The texts of nodes.
#![tactic(auto)]

ghost use Rattle.std.specs.Prelude.{◌≡◌, IfOk, string_bytes};
ghost use Rattle.std.specs.Option.{option_map};
ghost use Rattle.request_props.specs.Numbered.{IsProps};
ghost use Rattle.plan_space.specs.declared.ways.Way.TheVariants.{Reads};
ghost use Rattle.plan_lines.specs.Text as texts;

use plan_space::{Enforcer, JoinBy, Kept, Mode, NodeKind, Way, way_of};
use plan_tree::is_replicated;
use query_core::{Access, PhysicalExpr, Query, table_in};
use query_text::{list_text, name_of_operator, order_text, table_text};
use request_props::Props;
use std::alloc::{AllocError, Global};

/// What a node is, with its order or its hashed list.
pub fn node_text(
    alloc: Global,
    query: &Query,
    props: &Props,
    kind: NodeKind,
) -> Result<String, AllocError>
    requires { IsProps query.now props.now }
    ensures { IfOk result (λ s. string_bytes s ≡ texts.node_text query.now kind) }
{
    match kind {
        NodeKind::Native(expr, mode) => native_text(alloc, query, props, expr, mode),
        NodeKind::Enforcer(enforcer) => enforcer_text(alloc, query, props, enforcer),
    }
}

fn enforcer_text(
    alloc: Global,
    query: &Query,
    props: &Props,
    enforcer: Enforcer,
) -> Result<String, AllocError>
    requires { IsProps query.now props.now }
    ensures { IfOk result (λ s. string_bytes s ≡ texts.enforcer_text query.now enforcer) }
{
    match enforcer {
        Enforcer::Gather => Ok(String::from_str(alloc, "Gather")?),
        Enforcer::Broadcast => Ok(String::from_str(alloc, "Broadcast")?),
        Enforcer::Sort(order) => {
            let keys = order_text(alloc, query, props, order)?;
            Ok(format!(in alloc; "Sort({keys})")?)
        }
        Enforcer::GatherMerge(order) => {
            let keys = order_text(alloc, query, props, order)?;
            Ok(format!(in alloc; "GatherMerge({keys})")?)
        }
        Enforcer::Redistribute(list) => {
            let columns = list_text(alloc, query, props, list)?;
            Ok(format!(in alloc; "Redistribute({columns})")?)
        }
    }
}

// A physical expression in a mode, with the table whose rows it makes; nothing in a mode that it hasn't.
fn native_text(
    alloc: Global,
    query: &Query,
    props: &Props,
    expr: PhysicalExpr,
    mode: u32,
) -> Result<String, AllocError>
    requires { IsProps query.now props.now }
    ensures { IfOk result (λ s.
        string_bytes s ≡ texts.text_if_any (texts.native_text query.now expr mode)) }
{
    let (way, table) = (way_of(expr.operator), table_in(expr.group));
    let name = name_of_operator(expr.operator);
    match behind_name(alloc, query, props, way, table, Mode::at(mode))? {
        Some(behind) => Ok(format!(in alloc; "{name}{behind}")?),
        None => Ok(String::new(alloc)),
    }
}

// What stands behind the name of an operator that works so, if it has the mode.
fn behind_name(
    alloc: Global,
    query: &Query,
    props: &Props,
    way: Way,
    table: u32,
    mode: Mode,
) -> Result<Option<String>, AllocError>
    requires { IsProps query.now props.now }
    ensures { IfOk result (λ found.
        option_map string_bytes found ≡ texts.behind_name query.now way table mode) }
{
    match way {
        Way::Reads(access) => read_text(alloc, query, table, access, mode),
        Way::Passes(kept, _) => Ok(only_mode_text(kept_text(alloc, query, table, kept)?, mode)),
        Way::Joins(by, _, _) => bracketed(alloc, join_mode_text(alloc, by, mode)?),
        Way::Groups(_, _) => bracketed(alloc, agg_mode_text(alloc, query, props, mode)?),
    }
}

// What is read, and how.
fn read_text(
    alloc: Global,
    query: &Query,
    table: u32,
    access: Access,
    mode: Mode,
) -> Result<Option<String>, AllocError>
    ensures { IfOk result (λ found.
        option_map string_bytes found ≡ texts.behind_name query.now (Reads access) table mode) }
{
    let place = place_text(alloc, query, table, access)?;
    match read_mode_text(is_replicated(query, table), mode) {
        Some(read) => Ok(Some(format!(in alloc; "({place}{read})")?)),
        None => Ok(None),
    }
}

// A table, and the number of its index if one is read.
fn place_text(
    alloc: Global,
    query: &Query,
    table: u32,
    access: Access,
) -> Result<String, AllocError>
    ensures { IfOk result (λ s. string_bytes s ≡ texts.place_text query.now table access) }
{
    let alias = table_text(query, table);
    match access {
        Access::Direct => Ok(String::from_str(alloc, alias)?),
        Access::Index(index) => Ok(format!(in alloc; "{alias}, i{index}")?),
    }
}

// How the rows of a table are read.
fn read_mode_text(several: bool, mode: Mode) -> Option<&'static str>
    ensures { option_map (λ s. s.now) result ≡ texts.read_mode_text several mode }
{
    match mode {
        Mode::Plain(number) if several => replica_text(number),
        Mode::Plain(0) => Some(""),
        Mode::Plain(_) => None,
        Mode::Copied(_) => None,
        Mode::Hashed(_) => None,
    }
}

// A share on each segment, all rows at one place, or all on each segment.
fn replica_text(number: u32) -> Option<&'static str>
    ensures { option_map (λ s. s.now) result ≡ texts.replica_text number }
{
    match number {
        0 => Some(" own"),
        1 => Some(" one"),
        2 => Some(" copies"),
        _ => None,
    }
}

// What is passed on.
fn kept_text(alloc: Global, query: &Query, table: u32, kept: Kept) -> Result<String, AllocError>
    ensures { IfOk result (λ s. string_bytes s ≡ texts.kept_text query.now table kept) }
{
    let alias = table_text(query, table);
    match kept {
        Kept::Rows => Ok(format!(in alloc; "({alias})")?),
        Kept::SpreadRows => Ok(String::new(alloc)),
    }
}

// The text where an operator has one mode.
fn only_mode_text(text: String, mode: Mode) -> Option<String>
    ensures { option_map string_bytes result ≡ texts.only_mode_text (string_bytes text) mode }
{
    match mode {
        Mode::Plain(0) => Some(text),
        Mode::Plain(_) => None,
        Mode::Copied(_) => None,
        Mode::Hashed(_) => None,
    }
}

fn join_mode_text(alloc: Global, by: JoinBy, mode: Mode) -> Result<Option<String>, AllocError>
    ensures { IfOk result (λ found.
        option_map string_bytes found ≡ texts.join_mode_text by mode) }
{
    match by {
        JoinBy::Hashing => hash_mode_text(alloc, mode),
        JoinBy::Merging => merge_mode_text(alloc, mode),
        JoinBy::Looping => loop_mode_text(alloc, mode),
    }
}

fn hash_mode_text(alloc: Global, mode: Mode) -> Result<Option<String>, AllocError>
    ensures { IfOk result (λ found. option_map string_bytes found ≡ texts.hash_mode_text mode) }
{
    match mode {
        Mode::Plain(number) => unnumbered(alloc, number, "one"),
        Mode::Copied(number) => unnumbered(alloc, number, "copied"),
        Mode::Hashed(equality) => by_equality(alloc, equality, "colocated p"),
    }
}

fn merge_mode_text(alloc: Global, mode: Mode) -> Result<Option<String>, AllocError>
    ensures { IfOk result (λ found. option_map string_bytes found ≡ texts.merge_mode_text mode) }
{
    match mode {
        Mode::Plain(equality) => by_equality(alloc, equality, "one p"),
        Mode::Copied(equality) => by_equality(alloc, equality, "copied p"),
        Mode::Hashed(equality) => by_equality(alloc, equality, "colocated p"),
    }
}

fn loop_mode_text(alloc: Global, mode: Mode) -> Result<Option<String>, AllocError>
    ensures { IfOk result (λ found. option_map string_bytes found ≡ texts.loop_mode_text mode) }
{
    match mode {
        Mode::Plain(number) => unnumbered(alloc, number, "one"),
        Mode::Copied(number) => unnumbered(alloc, number, "copied"),
        Mode::Hashed(_) => Ok(None),
    }
}

// How an aggregation works: on one segment, or on rows hashed by a list.
fn agg_mode_text(
    alloc: Global,
    query: &Query,
    props: &Props,
    mode: Mode,
) -> Result<Option<String>, AllocError>
    requires { IsProps query.now props.now }
    ensures { IfOk result (λ found.
        option_map string_bytes found ≡ texts.agg_mode_text query.now mode) }
{
    match mode {
        Mode::Plain(number) => unnumbered(alloc, number, "one"),
        Mode::Copied(_) => Ok(None),
        Mode::Hashed(list) => {
            let columns = list_text(alloc, query, props, list)?;
            Ok(Some(format!(in alloc; "hashed {columns}")?))
        }
    }
}

// The text of a mode that has no number.
fn unnumbered(alloc: Global, number: u32, text: &str) -> Result<Option<String>, AllocError>
    ensures { IfOk result (λ found.
        option_map string_bytes found ≡ texts.unnumbered number text.now) }
{
    if number == 0 {
        Ok(Some(String::from_str(alloc, text)?))
    } else {
        Ok(None)
    }
}

// The text of a mode by an equality.
fn by_equality(alloc: Global, number: u32, text: &str) -> Result<Option<String>, AllocError>
    ensures { IfOk result (λ found.
        option_map string_bytes found ≡ texts.by_equality number text.now) }
{
    Ok(Some(format!(in alloc; "{text}{number}")?))
}

// A text in brackets, where there is one.
fn bracketed(alloc: Global, text: Option<String>) -> Result<Option<String>, AllocError>
    ensures { IfOk result (λ found. option_map string_bytes found
        ≡ option_map texts.bracketed (option_map string_bytes text)) }
{
    match text {
        Some(inside) => Ok(Some(format!(in alloc; "({inside})")?)),
        None => Ok(None),
    }
}
