//! What the equalities of a query imply, looked up. No call here takes memory.
#![tactic(auto)]

ghost use Rattle.std.specs.Prelude.{◌≡◌, ◌≤◌, ◌<◌, ◌+◌, ◌↔◌, ℕ, IfSome, None, Some, length};
ghost use Rattle.std.specs.Prelude.{slice_get, slice_index_or};
ghost use Rattle.std.specs.Option.{option_map, option_map_or};
ghost use Rattle.query_core.specs.Crossing.{crossing_of, sides_of};
ghost use Rattle.request_props.specs.Counted.{HaveNumbers, IsAmong};
ghost use Rattle.request_props.specs.Ends.{AreCrossingBy, AreEndsOf, HasColumn, IsEqualityAt, IsGivenBy};
ghost use Rattle.request_props.specs.NumberSets.{IsInSet};
ghost use Rattle.request_props.specs.declared.given.GivenDist.TheVariants.{Hashed};
ghost use Rattle.request_props.specs.declared.tables.ends.EqualityEnds.{EqualityEnds as AnyEqualityEnds};
ghost use Rattle.request_props.specs.Numbered.{IsProps, both_sides, equality_of};
ghost use Rattle.request_props.specs.JoinSets.{AreThoseBelow, Merges};
ghost use Rattle.request_props.specs.Numbered.{order_of, orders_of, column_list, column_order};
ghost use Rattle.request_props.specs.Satisfied.{BeginsWith, Meets};

use crate::number_set::NumberSet;
use crate::props::Props;
use crate::request::Dist;
use crate::sides::{Equality, Side};
use crate::tables::ends::{CountedColumns, EqualityEnds, ends_of};
use query_core::{KeyParts, Query};

impl Props {
    /// How many columns of the group are equated with columns that it lacks, as far as each column has an order of its
    /// own. It is for a guess at the size of a search, so no clause says that it is right.
    pub fn outer_columns(&self, query: &Query, group: KeyParts) -> usize
        requires { IsProps query.now self.now }
        ensures few { result ≤ length self.now.orders }
    {
        let leaving = self.ends(query, group).leaving();
        let mut count = 0;
        for place in 0..self.orders.len() {
            let giving = self.ends_giving(query, place as u32 + 1);
            if leaving.shares(giving) {
                count += 1;
            }
        }
        count
    }

    /// The two columns that the predicate equates across the groups, that of the left group first.
    pub fn crossing(
        &self,
        query: &Query,
        left: KeyParts,
        right: KeyParts,
        pred: u32,
    ) -> Option<(Side, Side)>
        requires { IsProps query.now self.now }
        ensures { result ≡
            option_map (both_sides query.now) (crossing_of query.now left right pred) }
    {
        match self.equality(query, pred) {
            Some(equality) => self.across(query, left, right, pred, equality),
            None => None,
        }
    }

    // The two sides of the equality of this number, where one lies in each group.
    fn across(
        &self,
        query: &Query,
        left: KeyParts,
        right: KeyParts,
        pred: u32,
        equality: Equality,
    ) -> Option<(Side, Side)>
        requires props { IsProps query.now self.now }
        requires columns { IsEqualityAt query.now pred equality.left.column equality.right.column }
        requires numbers { HaveNumbers query.now (Some equality) }
        ensures { result ≡ option_map (both_sides query.now)
            (sides_of query.now left right equality.left.column equality.right.column) }
    {
        let of_left = self.ends(query, left);
        let of_right = self.ends(query, right);
        if of_left.first.and(of_right.second).has(pred) {
            return Some((equality.left, equality.right));
        }
        if of_left.second.and(of_right.first).has(pred) {
            return Some((equality.right, equality.left));
        }
        None
    }

    /// The predicates that equate columns across the groups.
    #[inline(always)]
    pub fn crossings(&self, query: &Query, left: KeyParts, right: KeyParts) -> NumberSet
        requires { IsProps query.now self.now }
        ensures { (pred : ℕ) → IsInSet result pred ↔
            (crossing_of query.now left right pred ≡ None → ⊥) }
    {
        self.ends(query, left).across(self.ends(query, right))
    }

    /// The predicates that equate columns across the groups, that of the left group giving the order.
    pub fn merging(&self, query: &Query, left: KeyParts, right: KeyParts, order: u32) -> NumberSet
        requires { IsProps query.now self.now }
        ensures { AreCrossingBy query.now left right
            (λ a. BeginsWith (order_of query.now (column_order query.now a)) (order_of query.now order))
            result }
    {
        let giving = self.ends_giving(query, order);
        self.ends(query, left)
            .across_by(self.ends(query, right), giving)
    }

    /// The orders that some predicate gives that equates columns across the groups, by that of the left group.
    pub(crate) fn orders_merged(&self, query: &Query, left: KeyParts, right: KeyParts) -> NumberSet
        requires { IsProps query.now self.now }
        ensures { AreThoseBelow (Merges query.now left right) (length (orders_of query.now) + 1) result }
    {
        let of_left = self.ends(query, left);
        let of_right = self.ends(query, right);
        let mut orders = NumberSet::none();
        for order in 0..self.orders.len() as u32 + 1 {
            let merging = of_left.across_by(of_right, self.ends_giving(query, order));
            orders = orders.with(order, !merging.is_empty());
        }
        orders
    }

    /// The predicates that equate columns across the groups, so that rows hashed by that of the left group are
    /// distributed as asked.
    pub fn hashing(&self, query: &Query, left: KeyParts, right: KeyParts, wanted: Dist) -> NumberSet
        requires { IsProps query.now self.now }
        ensures { AreCrossingBy query.now left right
            (λ a. Meets (Hashed (column_list query.now a)) wanted) result }
    {
        match wanted {
            Dist::One => NumberSet::none(),
            Dist::Spread => self.crossings(query, left, right),
            Dist::Copies => NumberSet::none(),
            Dist::Hashed(list) => self.hashing_by(query, left, right, list),
        }
    }

    // The same for this list.
    fn hashing_by(&self, query: &Query, left: KeyParts, right: KeyParts, list: u32) -> NumberSet
        requires { IsProps query.now self.now }
        ensures { AreCrossingBy query.now left right (λ a. column_list query.now a ≡ list) result }
    {
        let listed = self.ends_listed(query, list);
        self.ends(query, left)
            .across_by(self.ends(query, right), listed)
    }

    // The equalities of which the group has a column.
    #[inline(always)]
    fn ends(&self, query: &Query, group: KeyParts) -> EqualityEnds
        requires { IsProps query.now self.now }
        ensures { AreEndsOf query.now (HasColumn query.now group) result }
    {
        match self.known_ends(query, group) {
            Some(ends) => ends,
            None => self.found_ends(query, CountedColumns::Of(group)),
        }
    }

    // The same, where they were found before.
    #[inline(always)]
    fn known_ends(&self, query: &Query, group: KeyParts) -> Option<EqualityEnds>
        requires { IsProps query.now self.now }
        ensures { IfSome result (AreEndsOf query.now (HasColumn query.now group)) }
    {
        match group {
            KeyParts::Get(table) => ends_at(self.equalities.of_tables.as_slice(), table),
            KeyParts::Filter(table) => ends_at(self.equalities.of_tables.as_slice(), table),
            KeyParts::Join(set) => ends_at(self.equalities.of_sets.as_slice(), set),
            KeyParts::Partial => None,
            KeyParts::Agg => None,
        }
    }

    // The equalities of which a column gives the order. Without a number it is the empty one.
    #[inline(always)]
    fn ends_giving(&self, query: &Query, order: u32) -> EqualityEnds
        requires { IsProps query.now self.now }
        ensures { AreEndsOf query.now (IsGivenBy (order_of query.now order)) result }
    {
        match ends_at(self.equalities.of_orders.as_slice(), order) {
            Some(ends) => ends,
            None => self.found_ends(query, CountedColumns::All),
        }
    }

    // The equalities of which a column's list has the number.
    #[inline(always)]
    fn ends_listed(&self, query: &Query, list: u32) -> EqualityEnds
        requires { IsProps query.now self.now }
        ensures { AreEndsOf query.now (λ column. column_list query.now column ≡ list) result }
    {
        match ends_at(self.equalities.of_lists.as_slice(), list) {
            Some(ends) => ends,
            None => self.found_ends(query, CountedColumns::Listed(list)),
        }
    }

    // The equalities that have one of the columns.
    fn found_ends(&self, query: &Query, columns: CountedColumns) -> EqualityEnds
        requires { IsProps query.now self.now }
        ensures { AreEndsOf query.now (IsAmong query.now columns) result }
    {
        ends_of(query, self.equalities.sides.as_slice(), columns)
    }

    // Both sides of the predicate, where it is an equality of two items.
    #[inline(always)]
    fn equality(&self, query: &Query, pred: u32) -> Option<Equality>
        requires { IsProps query.now self.now }
        ensures { result ≡
            option_map_or (equality_of query.now) (slice_get query.now.preds pred) None }
    {
        match self.equalities.sides.as_slice().get(pred as usize) {
            Some(equality) => *equality,
            None => None,
        }
    }
}

// What stands at this place of the list, if it has so many.
#[inline(always)]
fn ends_at(list: &[EqualityEnds], place: u32) -> Option<EqualityEnds>
    ensures found { IfSome result (λ ends. (d : AnyEqualityEnds) → (place < length list.now) ×
        (slice_index_or list.now place d ≡ ends)) }
    ensures none { result ≡ None → length list.now ≤ place }
{
    match list.get(place as usize) {
        Some(ends) => Some(*ends),
        None => None,
    }
}
