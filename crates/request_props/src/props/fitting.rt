//! Whether the list and the order of a request lie in a group. No call here takes memory.
#![tactic(auto)]

ghost use Rattle.std.specs.Prelude.{◌↔◌, IsTrue, All};
ghost use Rattle.query_core.specs.Keys.{has_item};
ghost use Rattle.query_core.specs.declared.words.KeyParts.TheVariants.{Join};
ghost use Rattle.request_props.specs.Numbered.{IsProps};
ghost use Rattle.request_props.specs.Lying.{ListLiesIn};
ghost use Rattle.request_props.specs.Fitting.{ListFits, Fits, HashFits, OrderFits};

use crate::dists::list_asked;
use crate::props::Props;
use crate::request::Request;
use crate::tables::lying::covers;
use query_core::{KeyParts, OrderKey, Query};

impl Props {
    /// Whether the request's list and order have numbers, and lie in the group.
    pub fn fits(&self, query: &Query, group: KeyParts, request: Request) -> bool
        requires { IsProps query.now self.now }
        ensures { IsTrue result ↔ Fits query.now group request }
    {
        self.list_asked_fits(query, group, list_asked(request.dist))
            && self.order_fits(query, group, request.order)
    }

    /// Whether the order has a number, and lies in the group.
    pub fn order_fits(&self, query: &Query, group: KeyParts, order: u32) -> bool
        requires { IsProps query.now self.now }
        ensures { IsTrue result ↔ OrderFits query.now group order }
    {
        match group {
            KeyParts::Get(_) => self.keys_fit(query, group, order),
            KeyParts::Filter(_) => self.keys_fit(query, group, order),
            KeyParts::Join(set) => self.order_is_over(query, set, order),
            KeyParts::Partial => self.keys_fit(query, group, order),
            KeyParts::Agg => self.keys_fit(query, group, order),
        }
    }

    /// Whether the list has a number, and lies in the group.
    pub fn hash_fits(&self, query: &Query, group: KeyParts, list: u32) -> bool
        requires { IsProps query.now self.now }
        ensures { IsTrue result ↔ HashFits query.now group list }
    {
        match group {
            KeyParts::Get(_) => self.list_fits(query, group, list),
            KeyParts::Filter(_) => self.list_fits(query, group, list),
            KeyParts::Join(set) => self.list_is_over(query, set, list),
            KeyParts::Partial => self.list_fits(query, group, list),
            KeyParts::Agg => self.list_fits(query, group, list),
        }
    }

    // Whether the list fits the group, if there is one.
    fn list_asked_fits(&self, query: &Query, group: KeyParts, list: Option<u32>) -> bool
        requires { IsProps query.now self.now }
        ensures { IsTrue result ↔ ListFits query.now group list }
    {
        match list {
            None => true,
            Some(list) => self.hash_fits(query, group, list),
        }
    }

    // The same of a join, by the tables of the list.
    fn list_is_over(&self, query: &Query, set: u32, list: u32) -> bool
        requires { IsProps query.now self.now }
        ensures { IsTrue result ↔ HashFits query.now (Join set) list }
    {
        match self.placement.of_lists.as_slice().get(list as usize) {
            Some(tables) => covers(set, *tables),
            None => false,
        }
    }

    // The same of any group, by the items of the list.
    fn list_fits(&self, query: &Query, group: KeyParts, list: u32) -> bool
        requires { IsProps query.now self.now }
        ensures { IsTrue result ↔ HashFits query.now group list }
    {
        match self.hashed.as_slice().get(list as usize) {
            Some(items) => list_lies_in(query, group, items.as_slice()),
            None => false,
        }
    }

    // The same of a join, by the tables of the order.
    fn order_is_over(&self, query: &Query, set: u32, order: u32) -> bool
        requires { IsProps query.now self.now }
        ensures { IsTrue result ↔ OrderFits query.now (Join set) order }
    {
        if order == 0 {
            return true;
        }
        match self.placement.of_orders.as_slice().get(order as usize - 1) {
            Some(tables) => covers(set, *tables),
            None => false,
        }
    }

    // The same of any group, by the items of the order.
    fn keys_fit(&self, query: &Query, group: KeyParts, order: u32) -> bool
        requires { IsProps query.now self.now }
        ensures { IsTrue result ↔ OrderFits query.now group order }
    {
        self.has_order(query, order) && keys_lie_in(query, group, self.order(order))
    }
}

fn list_lies_in(query: &Query, group: KeyParts, list: &[u32]) -> bool
    ensures { IsTrue result ↔ ListLiesIn query.now group list.now }
{
    list.iter().all(|item| query.group_has_item(group, *item))
}

fn keys_lie_in(query: &Query, group: KeyParts, keys: &[OrderKey]) -> bool
    ensures { IsTrue result ↔ All (λ key. IsTrue (has_item query.now group key.item)) keys.now }
{
    keys.iter().all(|key| query.group_has_item(group, key.item))
}
