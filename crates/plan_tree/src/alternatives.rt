//! The modes in which an expression may serve a request. No call here takes memory.
#![tactic(auto)]

ghost use Rattle.std.specs.Prelude.{ℕ, ◌≡◌, ◌<◌, IsTrue, List, None, Some, IfSome};
ghost use Rattle.query_core.specs.declared.query.Query.{Query as AnyQuery};
ghost use Rattle.query_core.specs.declared.expressions.ExprParts.{ExprParts};
ghost use Rattle.query_core.specs.declared.expressions.PhysicalExpr.{PhysicalExpr as AnyPhysicalExpr};
ghost use Rattle.request_props.specs.declared.request.Request.{Request as AnyRequest};
ghost use Rattle.query_core.specs.Keys.{IsGroup};
ghost use Rattle.query_core.specs.declared.words.KeyParts.{KeyParts as AnyKeyParts};
ghost use Rattle.query_core.specs.Expressions.{HasWord, IsCandidate, IsCandidateWord, IsChild, expr_of, is_logical};
ghost use Rattle.request_props.specs.Numbered.{IsProps, IsNumbered};
ghost use Rattle.plan_space.specs.Alternatives.{IsAlternative, LineServes, asked_of};
ghost use Rattle.plan_space.specs.Nodes.{node_modes};
ghost use Rattle.plan_space.specs.Lines.{line_of as the_line_of};
ghost use Rattle.plan_space.specs.Choices.{groups_of};
ghost use Rattle.plan_tree.specs.Alternatives.{AreAsked, AreModes, IsAltAt, IsAltBy, IsAltIn, IsAsk};
ghost use Rattle.plan_tree.specs.NodeCosts.{IsThere};

use crate::lines::line_of;
use crate::node::Node;
use crate::serving::{asked_left, asked_right, left_child, right_child, serves};
use crate::walks::next_line;
use plan_space::{Line, modes_are_few};
use query_core::{
    Children, Expr, Key, KeyParts, PhysicalExpr, Query, candidates_are_known, expressions_are_one,
    groups_are_known,
};
use request_props::{Props, Request};

/// A node that may serve a request, and what it asks of the children, by the keys of their groups.
#[derive(Clone, Copy, PartialEq, Eq)]
pub struct Alt {
    pub node: Node,
    pub left: Option<(Key, Request)>,
    pub right: Option<(Key, Request)>,
}

/// The expression in a mode, where it may serve the request.
pub fn alternative_in(
    query: &Query,
    props: &Props,
    expr: PhysicalExpr,
    request: Request,
    mode: u32,
) -> Option<Alt>
    requires props { IsProps query.now props.now }
    requires candidate { IsCandidate query.now (expr_of expr) }
    requires numbered { IsNumbered query.now request.order }
    requires few { mode < node_modes }
    ensures { IsAltIn query.now expr request mode result }
{
    let line = line_of(query, props, expr, mode)?;
    alternative_by(query, props, expr, request, mode, line)
}

/// The same, with the line that the expression has in the mode.
pub fn alternative_by(
    query: &Query,
    props: &Props,
    expr: PhysicalExpr,
    request: Request,
    mode: u32,
    line: Line,
) -> Option<Alt>
    requires props { IsProps query.now props.now }
    requires candidate { IsCandidate query.now (expr_of expr) }
    requires numbered { IsNumbered query.now request.order }
    requires few { mode < node_modes }
    requires line { the_line_of query.now expr mode ≡ Some line }
    ensures { IsAltIn query.now expr request mode result }
{
    if serves(query, props, line, expr.children(), request) {
        let word = word_of_candidate(query, expr);
        Some(alternative_at(query, expr, word, request, mode, &line))
    } else {
        None
    }
}

/// The word of an expression that a group can hold.
#[inline(always)]
pub fn word_of_candidate(_query: &Query, expr: PhysicalExpr) -> Expr
    requires { IsCandidate _query.now (expr_of expr) }
    ensures { HasWord result.0 (expr_of expr) }
{
    // For the proof: a candidate has a word.
    candidates_are_known();
    Expr::make(expr.parts())
}

/// The expression of this word in a mode that is there for the request, by its line.
#[inline(always)]
pub fn alternative_at(
    query: &Query,
    expr: PhysicalExpr,
    word: Expr,
    request: Request,
    mode: u32,
    line: &Line,
) -> Alt
    requires candidate { IsCandidate query.now (expr_of expr) }
    requires word { HasWord word.0 (expr_of expr) }
    requires few { mode < node_modes }
    requires alternative { IsAlternative query.now expr request mode line.now }
    ensures { IsAltBy query.now expr request mode result line.now }
{
    // For the proof: the expression's word fits, and its children are groups of the query.
    expressions_are_one();
    candidates_are_known();
    let node = Node::native(word, mode);
    alt_over(query, node, line, expr.children(), request)
}

/// The alternative at this place, of those that the expression of this word has for the request, ascending by their
/// nodes. A logical expression has none.
pub fn alternative(
    query: &Query,
    props: &Props,
    expr: Expr,
    request: Request,
    n: u32,
) -> Option<Alt>
    requires props { IsProps query.now props.now }
    requires candidate { IsCandidateWord query.now expr.0 }
    requires numbered { IsNumbered query.now request.order }
    ensures physical { (e : AnyPhysicalExpr) → HasWord expr.0 (expr_of e) →
        IsAltAt query.now e request n result }
    ensures logical { (e : ExprParts) → HasWord expr.0 e → IsTrue (is_logical e.operator) →
        result ≡ None }
    ensures there { IfSome result (λ alt. IsThere query.now request alt.node) }
{
    // For the proof: a candidate has a word.
    candidates_are_known();
    match expr.known_parts().as_physical() {
        Some(expr) => alternative_of(query, props, expr, request, n),
        None => None,
    }
}

/// The same of a physical expression, ascending by the modes.
pub fn alternative_of(
    query: &Query,
    props: &Props,
    expr: PhysicalExpr,
    request: Request,
    n: u32,
) -> Option<Alt>
    requires props { IsProps query.now props.now }
    requires candidate { IsCandidate query.now (expr_of expr) }
    requires numbered { IsNumbered query.now request.order }
    ensures { IsAltAt query.now expr request n result }
{
    modes_are_few();
    let mut seen = 0;
    let mut from = 0;
    'modes: loop {
        let (mode, line) = match next_line(query, props, expr, from) {
            Some(next) => next,
            None => return None,
        };
        match alternative_by(query, props, expr, request, mode, line) {
            Some(alt) => {
                if seen == n {
                    return Some(alt);
                }
                seen += 1;
            }
            None => {}
        }
        from = mode + 1;
    }
}

/// The modes in which an expression may serve a request are one list.
pub fn modes_are_one()
    ensures { (q : AnyQuery) (e : AnyPhysicalExpr) (wanted : AnyRequest) (modes others : List ℕ) →
        AreModes q e wanted modes → AreModes q e wanted others → modes ≡ others }
{}

// What the line asks of the children.
#[inline(always)]
fn alt_over(query: &Query, node: Node, line: &Line, children: Children, request: Request) -> Alt
    requires known { (g : AnyKeyParts) → IsChild children g → IsGroup query.now g }
    requires serves { LineServes query.now line.now children request }
    ensures node { result.node ≡ node }
    ensures asks { AreAsked query.now result (groups_of children)
        (asked_of line.now request) }
{
    Alt {
        node,
        left: ask(query, left_child(children), asked_left(line, request)),
        right: ask(query, right_child(children), asked_right(line, request)),
    }
}

// The key of the group with what is asked of it.
#[inline(always)]
fn ask(query: &Query, group: Option<KeyParts>, request: Option<Request>) -> Option<(Key, Request)>
    requires { IfSome group (IsGroup query.now) }
    ensures { IsAsk query.now result group request }
{
    groups_are_known();
    match (group, request) {
        (Some(group), Some(request)) => Some((Key::make(group), request)),
        _ => None,
    }
}
