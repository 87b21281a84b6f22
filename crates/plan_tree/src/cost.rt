//! What a node costs. No call here takes memory.
#![tactic(auto)]

ghost use Rattle.std.specs.Prelude.{ℕ, ◌≡◌, ◌≤◌, Option, Some, IfSome};
ghost use Rattle.query_core.specs.declared.words.KeyParts.{KeyParts as AnyKeyParts};
ghost use Rattle.query_core.specs.Keys.{IsGroup};
ghost use Rattle.query_core.specs.Expressions.{IsCandidate, expr_of, physical_children};
ghost use Rattle.cardinality.specs.Rows.{rows_of};
ghost use Rattle.cost_units.specs.Cost.{IsBounded, most_rows, most_cost, share as the_share};
ghost use Rattle.request_props.specs.Numbered.{IsProps};
ghost use Rattle.plan_space.specs.Alternatives.{asked_of};
ghost use Rattle.plan_space.specs.Choices.{groups_of};
ghost use Rattle.plan_space.specs.Lines.{line_of as the_line_of};
ghost use Rattle.plan_space.specs.Cost.{operator_shape as the_operator_shape, share_of};
ghost use Rattle.plan_space.specs.declared.nodes.Enforcer.{Enforcer as AnyEnforcer};
ghost use Rattle.plan_space.specs.declared.nodes.NodeKind.TheVariants.{Enforcer as enforcing};
ghost use Rattle.plan_tree.specs.Nodes.{IsNode};
ghost use Rattle.plan_tree.specs.Costs.{IsNativeCost, IsEnforcerCost, IsCostAmong};
ghost use Rattle.request_props.specs.Dists.{class_asked as the_class_asked};
ghost use Rattle.plan_tree.specs.Costs.{first_asked, second_asked, share_asked as the_share_asked};
ghost use Rattle.plan_tree.specs.Costs.{AreRowsOf, rows_if};

use crate::enforcers::asked_by;
use crate::lines::line_of;
use crate::node::Node;
use crate::serving::{asked_left, asked_right, left_child, right_child};
use cost_units::{CostShape, local, share};
use plan_space::{Enforcer, Line, NodeKind};
use query_core::{KeyParts, Physical, PhysicalExpr, Query, candidates_are_known};
use request_props::{Dist, Props, Request, class_asked, classes_agree};

/// The rows of an expression's group, and of its children: 0 where there is none.
#[derive(Clone, Copy)]
pub struct ExprRows {
    pub left: u64,
    pub right: u64,
    pub own: u64,
}

/// The cost of an expression in a mode that may serve the request.
pub fn native_cost(
    query: &Query,
    props: &Props,
    expr: PhysicalExpr,
    mode: u32,
    request: Request,
) -> u64
    requires props { IsProps query.now props.now }
    requires candidate { IsCandidate query.now (expr_of expr) }
    ensures value { IsNativeCost query.now expr mode request result }
    ensures some { 1 ≤ result }
    ensures most { result ≤ most_cost }
{
    match line_of(query, props, expr, mode) {
        Some(line) => native_cost_by(query, expr, &line, expr_rows(query, props, expr), request),
        None => 1,
    }
}

/// The rows of the expression's group and of its children.
pub fn expr_rows(query: &Query, props: &Props, expr: PhysicalExpr) -> ExprRows
    requires props { IsProps query.now props.now }
    requires candidate { IsCandidate query.now (expr_of expr) }
    ensures { AreRowsOf query.now expr result }
{
    candidates_are_known();
    ExprRows {
        left: child_rows(query, props, left_child(expr.children())),
        right: child_rows(query, props, right_child(expr.children())),
        own: props.group_rows(query, expr.group),
    }
}

/// The cost of an expression in a mode with this line, where that may serve the request.
pub fn native_cost_by(
    query: &Query,
    expr: PhysicalExpr,
    line: &Line,
    rows: ExprRows,
    request: Request,
) -> u64
    requires rows { AreRowsOf query.now expr rows }
    ensures value { (mode : ℕ) → the_line_of query.now expr mode ≡ Some line.now →
        IsNativeCost query.now expr mode request result }
    ensures some { 1 ≤ result }
    ensures most { result ≤ most_cost }
{
    classes_agree();
    local(native_shape(query, expr, line, rows, request))
}

/// The cost of an enforcer over a plan of the group that gives what is asked of it.
pub fn enforcer_cost(
    query: &Query,
    props: &Props,
    enforcer: Enforcer,
    group: KeyParts,
    below: Request,
) -> u64
    requires props { IsProps query.now props.now }
    requires group { IsGroup query.now group }
    ensures value { IsEnforcerCost query.now enforcer group below result }
    ensures some { 1 ≤ result }
    ensures most { result ≤ most_cost }
{
    cost_over(query, enforcer, props.group_rows(query, group), below)
}

/// The cost of an enforcer for the request, over plans of a group with so many rows.
pub fn enforcer_cost_by(query: &Query, rows: u64, request: Request, node: Node) -> u64
    requires { rows ≤ most_rows }
    ensures value { (g : AnyKeyParts) (e : AnyEnforcer) → rows ≡ rows_of query.now g →
        IsNode node (enforcing e) → IsCostAmong query.now e g request result }
    ensures some { 1 ≤ result }
    ensures most { result ≤ most_cost }
{
    match node.kind() {
        Some(NodeKind::Enforcer(enforcer)) => cost_among(query, enforcer, rows, request),
        Some(NodeKind::Native(_, _)) => 1,
        None => 1,
    }
}

// The cost of an enforcer for the request, over so many rows.
fn cost_among(query: &Query, enforcer: Enforcer, rows: u64, request: Request) -> u64
    requires { rows ≤ most_rows }
    ensures value { (g : AnyKeyParts) → rows ≡ rows_of query.now g →
        IsCostAmong query.now enforcer g request result }
    ensures some { 1 ≤ result }
    ensures most { result ≤ most_cost }
{
    cost_over(query, enforcer, rows, asked_by(enforcer, request))
}

// The cost of an enforcer over so many rows that lie as asked.
fn cost_over(query: &Query, enforcer: Enforcer, rows: u64, below: Request) -> u64
    requires { rows ≤ most_rows }
    ensures value { (g : AnyKeyParts) → rows ≡ rows_of query.now g →
        IsEnforcerCost query.now enforcer g below result }
    ensures some { 1 ≤ result }
    ensures most { result ≤ most_cost }
{
    classes_agree();
    local(match enforcer {
        Enforcer::Gather => CostShape::Gather(rows),
        Enforcer::Broadcast => CostShape::Broadcast(rows),
        Enforcer::Sort(_) => CostShape::Sort(rows_share(query, rows, below.dist)),
        Enforcer::GatherMerge(_) => CostShape::GatherMerge(rows),
        Enforcer::Redistribute(_) => {
            CostShape::Redistribute(rows_share(query, rows, below.dist))
        }
    })
}

// What an expression has to do by a line.
fn native_shape(
    query: &Query,
    expr: PhysicalExpr,
    line: &Line,
    rows: ExprRows,
    request: Request,
) -> CostShape
    requires { AreRowsOf query.now expr rows }
    ensures value { result ≡ the_operator_shape expr.operator
        (first_asked query.now (groups_of (physical_children expr.operator)) (asked_of line.now request))
        (second_asked query.now (groups_of (physical_children expr.operator)) (asked_of line.now request))
        (share_of query.now expr.group (the_class_asked request.dist)) }
    ensures bounded { IsBounded result }
{
    let left = child_share(query, rows.left, asked_left(line, request));
    let right = child_share(query, rows.right, asked_right(line, request));
    let out = rows_share(query, rows.own, request.dist);
    operator_shape(expr.operator, left, right, out)
}

/// What an operator has to do where so many rows come in from the left and from the right and so
/// many go out.
pub fn operator_shape(operator: Physical, left: u64, right: u64, out: u64) -> CostShape
    requires left { left ≤ most_rows }
    requires right { right ≤ most_rows }
    requires out { out ≤ most_rows }
    ensures value { result ≡ the_operator_shape operator left right out }
    ensures bounded { IsBounded result }
{
    match operator {
        Physical::Scan => CostShape::Scan(out),
        Physical::IndexScan(_) => CostShape::IndexScan(out),
        Physical::Filter(_) => CostShape::Filter(left),
        Physical::IndexSeek(_) => CostShape::IndexSeek(out),
        Physical::HashJoin(_, _) => CostShape::HashJoin(left, right, out),
        Physical::MergeJoin(_, _) => CostShape::MergeJoin(left, right, out),
        Physical::LoopJoin(_, _) => CostShape::LoopJoin(left, right),
        Physical::HashAgg(_) => CostShape::HashAgg(left, out),
        Physical::StreamAgg(_) => CostShape::StreamAgg(left),
        Physical::PartialAgg(_) => CostShape::PartialAgg(left),
    }
}

// The share of a child with so many rows by what is asked of it; 0 where there is none.
fn child_share(query: &Query, rows: u64, asked: Option<Request>) -> u64
    requires { rows ≤ most_rows }
    ensures value { (group : Option AnyKeyParts) → rows ≡ rows_if query.now group →
        result ≡ the_share_asked query.now group asked }
    ensures most { result ≤ most_rows }
{
    match asked {
        Some(asked) => rows_share(query, rows, asked.dist),
        None => 0,
    }
}

// The share of so many rows that lie as asked.
fn rows_share(query: &Query, rows: u64, dist: Dist) -> u64
    requires { rows ≤ most_rows }
    ensures value { result ≡ the_share rows (the_class_asked dist) query.now.segments }
    ensures most { result ≤ most_rows }
{
    share(rows, class_asked(dist), query.segments)
}

fn child_rows(query: &Query, props: &Props, group: Option<KeyParts>) -> u64
    requires props { IsProps query.now props.now }
    requires group { IfSome group (IsGroup query.now) }
    ensures value { result ≡ rows_if query.now group }
    ensures most { result ≤ most_rows }
{
    match group {
        Some(group) => props.group_rows(query, group),
        None => 0,
    }
}
