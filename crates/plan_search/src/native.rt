//! Members in the modes in which they can work.
#![tactic(auto)]

ghost use Rattle.std.specs.Prelude.{◌≡◌, IfOk, OnOk};
ghost use Rattle.query_core.specs.declared.expressions.ExprParts.{ExprParts};
ghost use Rattle.query_core.specs.Expressions.{IsCandidate, expr_of, word_of};
ghost use Rattle.request_props.specs.Numbered.{IsProps};
ghost use Rattle.xform_rules.specs.Closure.{AreMembersOf};
ghost use Rattle.plan_search.specs.Natives.{AddsModes, AreListed, AreThoseFor};

use plan_space::{Line, modes_are_few};
use plan_tree::{ExprRows, expr_rows, may_give, next_line};
use query_core::{Expr, KeyParts, PhysicalExpr, Query, candidates_are_known, expressions_are_one};
use request_props::{Dist, Props};
use std::alloc::{AllocError, Global};
use xform_rules::members_are_candidates;

/// A physical expression in a mode, with its line there, and its rows.
#[derive(Clone, Copy)]
pub struct NativeNode {
    pub expr: PhysicalExpr,
    pub mode: u32,
    pub line: Line,
    pub rows: ExprRows,
}

/// The members of a group with these words, in all modes in which they can work, by their numbers.
pub fn natives_of(
    alloc: Global,
    query: &Query,
    props: &Props,
    group: KeyParts,
    words: &[u64],
) -> Result<Vec<NativeNode>, AllocError>
    requires props { IsProps query.now props.now }
    requires members { AreMembersOf query.now group words.now }
    ensures { IfOk result (λ list. AreListed query.now group list.items) }
{
    // For the proof: members have words, and few modes.
    members_are_candidates();
    candidates_are_known();
    expressions_are_one();
    modes_are_few();
    let mut list = Vec::new(alloc);
    for word in words {
        if let Some(expr) = Expr(*word).known_parts().as_physical() {
            push_modes(query, props, expr, &mut list)?;
        }
    }
    Ok(list)
}

/// Adds the expression in each mode in which it has a line.
fn push_modes(
    query: &Query,
    props: &Props,
    expr: PhysicalExpr,
    list: &mut Vec<NativeNode>,
) -> Result<(), AllocError>
    requires props { IsProps query.now props.now }
    requires candidate { IsCandidate query.now (expr_of expr) }
    ensures { OnOk result (AddsModes query.now expr list.old.items list.new.items) }
{
    let rows = expr_rows(query, props, expr);
    let mut from = 0;
    'modes: while let Some((mode, line)) = next_line(query, props, expr, from) {
        list.push(NativeNode {
            expr,
            mode,
            line,
            rows,
        })?;
        from = mode + 1;
    }
    Ok(())
}

/// Those of the list whose lines may give the distribution.
pub fn those_for(
    alloc: Global,
    query: &Query,
    props: &Props,
    list: &[NativeNode],
    dist: Dist,
) -> Result<Vec<NativeNode>, AllocError>
    requires { IsProps query.now props.now }
    ensures { IfOk result (λ those. AreThoseFor query.now dist list.now those.items) }
{
    let mut those = Vec::new(alloc);
    for p in list {
        if may_give(query, props, p.line, dist) {
            those.push(*p)?;
        }
    }
    Ok(those)
}
