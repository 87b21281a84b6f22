//! What the joins of a query can give, found once for each candidate.
#![tactic(auto)]

ghost use Rattle.std.specs.Prelude.{◌≡◌, ◌↔◌, ◌+◌, [], All, IfOk, IfSome, IsTrue, length};
ghost use Rattle.request_props.specs.Fitting.{HashFits, OrderFits};
ghost use Rattle.request_props.specs.JoinSets.{AreEmptyOrders, AreFitting, AreJoinTables, AreSetsAt, AreSetsOf};
ghost use Rattle.request_props.specs.JoinSets.{AreThoseBelow};
ghost use Rattle.request_props.specs.Numbered.{IsNumbered, IsProps, lists_of, order_of, orders_of};
ghost use Rattle.request_props.specs.Satisfied.{BeginsWith};

use crate::number_set::NumberSet;
use crate::props::Props;
use crate::tables::join_sets::{FittingSets, JoinSets};
use crate::tables::physical::PhysicalCandidate;
use orca_base::List;
use query_core::{KEYS, Key, KeyParts, Physical, Query};
use std::alloc::{AllocError, Global};

impl Props {
    /// Of the candidates of each group, what those can give that are joins.
    pub(crate) fn join_tables(
        &self,
        alloc: Global,
        query: &Query,
    ) -> Result<Vec<List<Option<JoinSets>>>, AllocError>
        requires { IsProps query.now self.now }
        ensures { IfOk result (λ tables.
            AreJoinTables query.now self.now.groups.value.physical tables.items) }
    {
        let empty = self.empty_orders(query);
        let fitting = self.fitting_tables(alloc, query)?;
        let fitting = fitting.as_slice();
        let lists = self.groups.physical.as_slice();
        let mut tables = Vec::with_capacity(alloc, lists.len())?;
        for candidates in lists {
            tables.push(self.sets_of_all(alloc, query, empty, fitting, candidates.as_slice())?)?;
        }
        Ok(tables)
    }

    // What fits each group, by the number of its key. At other numbers stands what fits some group.
    fn fitting_tables(&self, alloc: Global, query: &Query) -> Result<Vec<FittingSets>, AllocError>
        requires { IsProps query.now self.now }
        ensures { IfOk result (λ found. All (AreFitting query.now) found.items) }
    {
        let other = self.fitting(query, KeyParts::Get(0));
        let mut found = Vec::with_capacity(alloc, KEYS as usize)?;
        for number in 0..KEYS {
            found.push(self.fitting_at(query, Key(number), other))?;
        }
        Ok(found)
    }

    // What fits the group of the key; this where no group has it.
    #[inline(always)]
    fn fitting_at(&self, query: &Query, key: Key, other: FittingSets) -> FittingSets
        requires props { IsProps query.now self.now }
        requires other { AreFitting query.now other }
        ensures { AreFitting query.now result }
    {
        if self.is_key(query, key) {
            self.fitting(query, query.group(key))
        } else {
            other
        }
    }

    // What fits the group, by what was found where it stands there.
    fn fitting_of(&self, query: &Query, found: &[FittingSets], group: KeyParts) -> FittingSets
        requires props { IsProps query.now self.now }
        requires found { All (AreFitting query.now) found.now }
        ensures fits { AreFitting query.now result }
        ensures group { result.group ≡ group }
    {
        if group.is_in_range() {
            if let Some(sets) = found.get(Key::make(group).0 as usize) {
                if sets.group == group {
                    return *sets;
                }
            }
        }
        self.fitting(query, group)
    }

    // What fits the group.
    fn fitting(&self, query: &Query, group: KeyParts) -> FittingSets
        requires { IsProps query.now self.now }
        ensures fits { AreFitting query.now result }
        ensures group { result.group ≡ group }
    {
        FittingSets {
            group,
            lists: self.lists_fitting(query, group),
            orders: self.orders_fitting(query, group),
        }
    }

    // The same of these candidates.
    fn sets_of_all(
        &self,
        alloc: Global,
        query: &Query,
        empty: NumberSet,
        fitting: &[FittingSets],
        candidates: &[PhysicalCandidate],
    ) -> Result<List<Option<JoinSets>>, AllocError>
        requires props { IsProps query.now self.now }
        requires empty { AreEmptyOrders query.now empty }
        requires fitting { All (AreFitting query.now) fitting.now }
        ensures { IfOk result (AreSetsAt query.now candidates.now) }
    {
        let mut sets = List::of(Vec::with_capacity(alloc, candidates.len())?);
        for candidate in candidates {
            sets.push(self.sets_of(query, empty, fitting, candidate.expr.operator))?;
        }
        Ok(sets)
    }

    // What the operator can give, if it is a join.
    fn sets_of(
        &self,
        query: &Query,
        empty: NumberSet,
        fitting: &[FittingSets],
        operator: Physical,
    ) -> Option<JoinSets>
        requires props { IsProps query.now self.now }
        requires empty { AreEmptyOrders query.now empty }
        requires fitting { All (AreFitting query.now) fitting.now }
        ensures { IfSome result (AreSetsOf query.now operator) }
    {
        match operator {
            Physical::HashJoin(left, _) => Some(JoinSets {
                lists: self.fitting_of(query, fitting, left).lists,
                orders: empty,
            }),
            Physical::MergeJoin(left, right) => Some(JoinSets {
                lists: self.fitting_of(query, fitting, left).lists,
                orders: self.orders_merged(query, left, right),
            }),
            Physical::LoopJoin(left, _) => {
                let fits = self.fitting_of(query, fitting, left);
                Some(JoinSets {
                    lists: fits.lists,
                    orders: fits.orders,
                })
            }
            _ => None,
        }
    }

    // The lists that fit the group.
    fn lists_fitting(&self, query: &Query, group: KeyParts) -> NumberSet
        requires { IsProps query.now self.now }
        ensures { AreThoseBelow (HashFits query.now group) (length (lists_of query.now)) result }
    {
        let mut lists = NumberSet::none();
        for list in 0..self.hashed.len() as u32 {
            lists = lists.with(list, self.hash_fits(query, group, list));
        }
        lists
    }

    // The orders that fit the group.
    fn orders_fitting(&self, query: &Query, group: KeyParts) -> NumberSet
        requires { IsProps query.now self.now }
        ensures { AreThoseBelow (OrderFits query.now group) (length (orders_of query.now) + 1) result }
    {
        let mut orders = NumberSet::none();
        for order in 0..self.orders.len() as u32 + 1 {
            orders = orders.with(order, self.order_fits(query, group, order));
        }
        orders
    }

    // The orders that are empty.
    fn empty_orders(&self, query: &Query) -> NumberSet
        requires { IsProps query.now self.now }
        ensures { AreEmptyOrders query.now result }
    {
        let mut orders = NumberSet::none();
        for order in 0..self.orders.len() as u32 + 1 {
            orders = orders.with(order, self.is_empty_order(query, order));
        }
        orders
    }

    // Whether the order is empty, so that rows in no order are in it.
    fn is_empty_order(&self, query: &Query, order: u32) -> bool
        requires props { IsProps query.now self.now }
        requires numbered { IsNumbered query.now order }
        ensures { IsTrue result ↔ BeginsWith [] (order_of query.now order) }
    {
        self.order(order).is_empty()
    }
}
