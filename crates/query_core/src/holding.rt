//! Which expressions the groups of a query can hold. No call here takes memory.
#![tactic(auto)]

ghost use Rattle.std.specs.Prelude.{◌≡◌, ℕ, IsTrue, ◌↔◌};
ghost use Rattle.query_core.specs.Keys.{IsGroupInRange, top_of};
ghost use Rattle.query_core.specs.Expressions.{children_of, logical_fields, physical_fields};
ghost use Rattle.query_core.specs.Expressions.{AreInRange, FallsInto, HasAccess, HasIndex, HasLogical, HasPhysical};
ghost use Rattle.query_core.specs.Expressions.{HasShape, IsAggregated, IsCandidate, IsCandidateWord, IsFiltered};
ghost use Rattle.query_core.specs.Expressions.{IsJoin, IsPacked, IsPartial};
ghost use Rattle.query_core.specs.Expressions.{table_in as the_table_in};

use crate::expressions::{Access, ExprParts, Logical, Operator, Physical};
use crate::query::Query;
use crate::words::{Expr, KeyParts};

impl Query {
    /// Whether the number is the word of an expression that some group of this query can hold.
    pub fn is_candidate(&self, expr: Expr) -> bool
        ensures { IsTrue result ↔ IsCandidateWord self.now expr.0 }
    {
        match expr.parts() {
            Some(parts) => self.can_hold(parts),
            None => false,
        }
    }

    /// The same as `is_candidate`, of an expression whose parts fit a word.
    pub fn can_hold(&self, expr: ExprParts) -> bool
        requires { IsPacked expr }
        ensures { IsTrue result ↔ IsCandidate self.now expr }
    {
        self.has_group(expr.group) && self.has_shape(expr.group, expr.operator)
    }

    pub(crate) fn has_shape(&self, group: KeyParts, operator: Operator) -> bool
        requires group { IsGroupInRange group }
        requires children { AreInRange (children_of operator) }
        ensures { IsTrue result ↔ HasShape self.now group operator }
    {
        match operator {
            Operator::Logical(operator) => self.has_logical(group, operator),
            Operator::Physical(operator) => self.has_physical(group, operator),
        }
    }

    fn has_logical(&self, group: KeyParts, operator: Logical) -> bool
        requires { AreInRange (logical_fields operator).children }
        ensures { IsTrue result ↔ HasLogical self.now group operator }
    {
        match operator {
            Logical::Get => is_get(group),
            Logical::Select(child) => is_filtered(group, child),
            Logical::NJoin => is_join(group),
            Logical::Join(left, right) => self.is_join_of(group, left, right),
            Logical::Agg(child) => self.is_aggregated(group, child),
            Logical::Partial(child) => self.is_partial(group, child),
        }
    }

    // A physical operator, where the group can have the logical one that it implements.
    fn has_physical(&self, group: KeyParts, operator: Physical) -> bool
        requires group { IsGroupInRange group }
        requires children { AreInRange (physical_fields operator).children }
        ensures { IsTrue result ↔ HasPhysical self.now group operator }
    {
        self.has_logical(group, operator.implements(group))
            && self.has_access(group, operator.access())
    }

    // Whether the group's table has the index, if one is read.
    fn has_access(&self, group: KeyParts, access: Access) -> bool
        ensures { IsTrue result ↔ HasAccess self.now group access }
    {
        match access {
            Access::Direct => true,
            Access::Index(index) => self.has_index(table_in(group), index),
        }
    }

    /// Whether the query's table has an index of this number. Indexes are numbered in the order
    /// in which the catalogue lists them.
    pub fn has_index(&self, table: u32, index: u32) -> bool
        ensures { IsTrue result ↔ HasIndex self.now table index }
    {
        (index as usize) < self.index_count(table)
    }

    fn is_join_of(&self, group: KeyParts, left: KeyParts, right: KeyParts) -> bool
        requires left { IsGroupInRange left }
        requires right { IsGroupInRange right }
        ensures { IsTrue result ↔ IsJoin self.now group left right }
    {
        match group {
            KeyParts::Join(set) => self.are_sides(set, left, right),
            _ => false,
        }
    }

    fn are_sides(&self, set: u32, left: KeyParts, right: KeyParts) -> bool
        requires left { IsGroupInRange left }
        requires right { IsGroupInRange right }
        ensures { IsTrue result ↔ ((a b : ℕ) × FallsInto self.now set a b ×
            (left ≡ top_of self.now a) × (right ≡ top_of self.now b)) }
    {
        let tables = left.tables();
        match self.right_side(set, tables) {
            Some(other) => self.top_group(tables) == left && self.top_group(other) == right,
            None => false,
        }
    }

    fn is_aggregated(&self, group: KeyParts, child: KeyParts) -> bool
        ensures { IsTrue result ↔ IsAggregated self.now group child }
    {
        group == KeyParts::Agg && (child == self.input() || child == KeyParts::Partial)
    }

    fn is_partial(&self, group: KeyParts, child: KeyParts) -> bool
        ensures { IsTrue result ↔ IsPartial self.now group child }
    {
        group == KeyParts::Partial && child == self.input()
    }
}

/// The table whose rows a group has.
pub fn table_in(group: KeyParts) -> u32
    ensures { result ≡ the_table_in group }
{
    match group {
        KeyParts::Get(table) => table,
        KeyParts::Filter(table) => table,
        KeyParts::Join(_) => 0,
        KeyParts::Partial => 0,
        KeyParts::Agg => 0,
    }
}

fn is_get(group: KeyParts) -> bool
    ensures { IsTrue result ↔ ((t : ℕ) × (group ≡ KeyParts.Get t)) }
{
    matches!(group, KeyParts::Get(_))
}

fn is_join(group: KeyParts) -> bool
    ensures { IsTrue result ↔ ((set : ℕ) × (group ≡ KeyParts.Join set)) }
{
    matches!(group, KeyParts::Join(_))
}

fn is_filtered(group: KeyParts, child: KeyParts) -> bool
    ensures { IsTrue result ↔ IsFiltered group child }
{
    match group {
        KeyParts::Filter(table) => child == KeyParts::Get(table),
        _ => false,
    }
}
