//! How a goal is printed. Each call adds to a text.
#![tactic(auto)]

ghost use Rattle.std.specs.Prelude.{◌++◌, OnOk, codes, string_bytes};
ghost use Rattle.request_props.specs.Numbered.{IsProps};
ghost use Rattle.query_text.specs.Added.{AddsText};
ghost use Rattle.job_trace.specs.Goals as texts;
ghost use Rattle.job_trace.specs.Groups as texts_of_groups;
ghost use Rattle.job_trace.specs.Members as texts_of_members;
ghost use Rattle.job_trace.specs.Pieces.{AreWritten};

use crate::groups::push_group;
use crate::members::push_member;
use crate::pieces::{Piece, Pieces};
use goal_space::GoalKind;
use query_core::{ExprParts, KeyParts, Query};
use request_props::Props;
use std::alloc::{AllocError, Global};

/// Adds the line of a goal.
pub fn push_goal_line(
    alloc: Global,
    query: &Query,
    props: &Props,
    goal: GoalKind,
    pieces: &mut Pieces,
    text: &mut String,
) -> Result<(), AllocError>
    requires props { IsProps query.now props.now }
    requires kept { AreWritten query.now pieces.old }
    ensures ok { OnOk result (AddsText (string_bytes text.old)
        (texts.goal_line query.now goal) (string_bytes text.new)) }
    ensures kept { OnOk result (AreWritten query.now pieces.new) }
{
    match goal {
        GoalKind::Exp(group) => push_of_group(query, "Exp ", group, text),
        GoalKind::ExpE(e) => push_of_member(query, "ExpE ", e, text),
        GoalKind::Xf(e, rule) => {
            text.push_str("Xf ")?;
            text.push_str(rule.name())?;
            push_of_member(query, " ", e, text)
        }
        GoalKind::Imp(group) => push_of_group(query, "Imp ", group, text),
        GoalKind::ImpE(e) => push_of_member(query, "ImpE ", e, text),
        GoalKind::Opt(group, wanted) => {
            text.push_str("Opt ")?;
            push_group(query, group, text)?;
            text.push_str(" ")?;
            pieces.push(alloc, query, props, Piece::Wanted(wanted), text)
        }
        GoalKind::OptE(e, wanted) => {
            pieces.push(alloc, query, props, Piece::Member(e), text)?;
            pieces.push(alloc, query, props, Piece::Wanted(wanted), text)
        }
    }
}

/// Adds the line of a child.
pub fn push_child_line(
    alloc: Global,
    query: &Query,
    props: &Props,
    child: GoalKind,
    pieces: &mut Pieces,
    text: &mut String,
) -> Result<(), AllocError>
    requires props { IsProps query.now props.now }
    requires kept { AreWritten query.now pieces.old }
    ensures ok { OnOk result (AddsText (string_bytes text.old)
        (texts.child_line query.now child) (string_bytes text.new)) }
    ensures kept { OnOk result (AreWritten query.now pieces.new) }
{
    match child {
        GoalKind::Opt(group, wanted) => {
            pieces.push(alloc, query, props, Piece::Child(group, wanted), text)
        }
        _ => {
            text.push_str("  ")?;
            push_goal_line(alloc, query, props, child, pieces, text)
        }
    }
}

// Adds a name, a group and the end of the line.
fn push_of_group(
    query: &Query,
    name: &str,
    group: KeyParts,
    text: &mut String,
) -> Result<(), AllocError>
    ensures ok { OnOk result (AddsText (string_bytes text.old)
        (name.now ++ texts_of_groups.group_text query.now group ++ codes "\n") (string_bytes text.new)) }
{
    text.push_str(name)?;
    push_group(query, group, text)?;
    text.push_str("\n")
}

// Adds a name, a member and the end of the line.
fn push_of_member(
    query: &Query,
    name: &str,
    e: ExprParts,
    text: &mut String,
) -> Result<(), AllocError>
    ensures ok { OnOk result (AddsText (string_bytes text.old)
        (name.now ++ texts_of_members.member_text query.now e ++ codes "\n") (string_bytes text.new)) }
{
    text.push_str(name)?;
    push_member(query, e, text)?;
    text.push_str("\n")
}
