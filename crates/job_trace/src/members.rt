//! How a member of a group is printed. Each call adds to a text.
#![tactic(auto)]

ghost use Rattle.std.specs.Prelude.{◌≡◌, OnOk, string_bytes};
ghost use Rattle.query_text.specs.Added.{AddsText};
ghost use Rattle.job_trace.specs.Members as texts;

use crate::groups::push_tables;
use query_core::{Access, ExprParts, KeyParts, Logical, Operator, Physical, Query};
use query_text::name_of_operator;
use std::alloc::AllocError;

/// Adds the line of a member, two spaces before it.
pub fn push_member_line(
    query: &Query,
    member: ExprParts,
    text: &mut String,
) -> Result<(), AllocError>
    ensures ok { OnOk result (AddsText (string_bytes text.old)
        (texts.member_line query.now member) (string_bytes text.new)) }
{
    text.push_str("  ")?;
    push_member(query, member, text)?;
    text.push_str("\n")
}

/// Adds a member.
pub fn push_member(query: &Query, member: ExprParts, text: &mut String) -> Result<(), AllocError>
    ensures ok { OnOk result (AddsText (string_bytes text.old)
        (texts.member_text query.now member) (string_bytes text.new)) }
{
    match member.operator {
        Operator::Logical(operator) => push_logical(query, member.group, operator, text),
        Operator::Physical(operator) => push_physical(query, member.group, operator, text),
    }
}

fn push_logical(
    query: &Query,
    group: KeyParts,
    operator: Logical,
    text: &mut String,
) -> Result<(), AllocError>
    ensures ok { OnOk result (AddsText (string_bytes text.old)
        (texts.logical_text query.now group operator) (string_bytes text.new)) }
{
    text.push_str(logical_name(operator))?;
    text.push_str("(")?;
    push_about(query, group, operator, text)?;
    text.push_str(")")
}

fn logical_name(operator: Logical) -> &'static str
    ensures { result.now ≡ texts.logical_name operator }
{
    match operator {
        Logical::Get => "Get",
        Logical::Select(_) => "Select",
        Logical::NJoin => "NJoin",
        Logical::Join(_, _) => "Join",
        Logical::Agg(_) => "Agg",
        Logical::Partial(_) => "Partial",
    }
}

// What a logical operator of the group is about.
fn push_about(
    query: &Query,
    group: KeyParts,
    operator: Logical,
    text: &mut String,
) -> Result<(), AllocError>
    ensures ok { OnOk result (AddsText (string_bytes text.old)
        (texts.logical_about query.now group operator) (string_bytes text.new)) }
{
    match operator {
        Logical::Get => push_tables(query, group, text),
        Logical::Select(_) => push_tables(query, group, text),
        Logical::NJoin => push_tables(query, group, text),
        Logical::Join(left, right) => push_sides(query, left, right, text),
        Logical::Agg(child) => text.push_str(source_text(child)),
        Logical::Partial(child) => text.push_str(source_text(child)),
    }
}

fn push_physical(
    query: &Query,
    group: KeyParts,
    operator: Physical,
    text: &mut String,
) -> Result<(), AllocError>
    ensures ok { OnOk result (AddsText (string_bytes text.old)
        (texts.physical_text query.now group operator) (string_bytes text.new)) }
{
    text.push_str(name_of_operator(operator))?;
    text.push_str("(")?;
    push_about_by(
        query,
        group,
        operator.implements(group),
        operator.access(),
        text,
    )?;
    text.push_str(")")
}

// What an operator is about that implements this, and comes to its rows so.
fn push_about_by(
    query: &Query,
    group: KeyParts,
    operator: Logical,
    access: Access,
    text: &mut String,
) -> Result<(), AllocError>
    ensures ok { OnOk result (AddsText (string_bytes text.old)
        (texts.about_by query.now group operator access) (string_bytes text.new)) }
{
    match access {
        Access::Direct => push_about(query, group, operator, text),
        Access::Index(index) => push_index(query, group, index, text),
    }
}

// An index of the group's table.
fn push_index(
    query: &Query,
    group: KeyParts,
    index: u32,
    text: &mut String,
) -> Result<(), AllocError>
    ensures ok { OnOk result (AddsText (string_bytes text.old)
        (texts.index_text query.now group index) (string_bytes text.new)) }
{
    push_tables(query, group, text)?;
    write!(text, ", i{index}")
}

// The two sides of a join.
fn push_sides(
    query: &Query,
    left: KeyParts,
    right: KeyParts,
    text: &mut String,
) -> Result<(), AllocError>
    ensures ok { OnOk result (AddsText (string_bytes text.old)
        (texts.sides_text query.now left right) (string_bytes text.new)) }
{
    push_tables(query, left, text)?;
    text.push_str(" | ")?;
    push_tables(query, right, text)
}

fn source_text(child: KeyParts) -> &'static str
    ensures { result.now ≡ texts.source_text child }
{
    match child {
        KeyParts::Get(_) => "input",
        KeyParts::Filter(_) => "input",
        KeyParts::Join(_) => "input",
        KeyParts::Partial => "partial",
        KeyParts::Agg => "input",
    }
}
