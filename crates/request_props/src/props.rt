//! The numbered lists and orders of a query.
#![tactic(auto)]

ghost use Rattle.std.specs.Prelude.{◌≡◌, ◌≤◌, IfOk, IfErr, map, length};
ghost use Rattle.query_core.specs.declared.query.Query.{Query};
ghost use Rattle.request_props.specs.Found.{elements_of, element_of};
ghost use Rattle.request_props.specs.Numbered.{IsProps, IsRefusedFor, IsRoot};
ghost use Rattle.request_props.specs.Numbered.{lists_of, orders_of, order_among};
ghost use Rattle.request_props.specs.Numbered.{root_dist as the_root_dist};

mod equalities;
mod fitting;
mod joining;
mod lookups;

use crate::fault::PropsFault;
use crate::found::{found_lists, found_orders, wanted_order};
use crate::numbering::numbered;
use crate::numbers::order_number;
use crate::request::{Dist, Request};
use crate::tables::join_sets::JoinSets;
use crate::tables::{EqualityTables, GroupTables, PlacementTables};
use orca_base::List;
use query_core::{OrderKey, Query, RootDist};
use std::alloc::{AllocError, Global};

/// How many lists, and how many orders, can have a number.
const MOST: usize = 60;

/// The numbered lists and orders of a query, and what is asked of its whole plan.
#[derive(Drop)]
pub struct Props {
    /// The lists by whose hash rows may be placed. A list's number is its place.
    pub hashed: List<List<u32>>,
    /// The orders that aren't empty. An order's number is its place and one more.
    pub orders: List<List<OrderKey>>,
    pub root: Request,
    groups: Box<GroupTables>,
    equalities: Box<EqualityTables>,
    placement: Box<PlacementTables>,
    /// Of the physical expressions of each group, what those can give that are joins.
    joins: List<List<Option<JoinSets>>>,
}

impl Props {
    /// The lists and orders of the query. Too many lists are told first.
    pub fn collect(alloc: Global, query: &Query) -> Result<Props, PropsFault>
        ensures ok { IfOk result (IsProps query.now) }
        ensures fault { IfErr result (IsRefusedFor query.now) }
    {
        let mut props = Props::without_joins(alloc, query)?;
        props.joins = List::of(props.join_tables(alloc, query)?);
        Ok(props)
    }

    // The same, where it isn't known yet what joins can give.
    fn without_joins(alloc: Global, query: &Query) -> Result<Props, PropsFault>
        ensures ok { IfOk result (IsProps query.now) }
        ensures fault { IfErr result (IsRefusedFor query.now) }
    {
        let hashed = hashed_lists(alloc, query)?;
        let orders = order_lists(alloc, query)?;
        let root = root_request(alloc, query, orders.as_slice())?;
        let groups = GroupTables::collect(alloc, query)?;
        let (lists, order_lists) = (hashed.as_slice(), orders.as_slice());
        let equalities = EqualityTables::collect(alloc, query, lists, order_lists)?;
        let placement = PlacementTables::collect(alloc, query, lists, order_lists)?;
        let keys = orders_as_keys(alloc, order_lists)?;
        Ok(Props {
            hashed: List::of(hashed),
            orders: List::of(keys),
            root,
            groups,
            equalities,
            placement,
            joins: List::new(alloc),
        })
    }

    /// The order of this number; the empty order has 0.
    pub fn order(&self, number: u32) -> &[OrderKey]
        requires { number ≤ length self.now.orders }
        ensures { elements_of result.now ≡ order_among (map elements_of self.now.orders) number }
    {
        match number.checked_sub(1) {
            Some(place) => self.orders.as_slice()[place as usize].as_slice(),
            None => &[],
        }
    }
}

#[tactic(auto, using(crate::proofs::Ranges::lists_few))]
fn hashed_lists(alloc: Global, query: &Query) -> Result<Vec<List<u32>>, PropsFault>
    ensures value { IfOk result (λ lists. lists.items ≡ lists_of query.now) }
    ensures few { IfOk result (λ lists. length lists.items ≤ 60) }
    ensures fault { IfErr result (IsRefusedFor query.now) }
{
    let lists = numbered(found_lists(alloc, query)?)?;
    if lists.len() > MOST {
        return Err(PropsFault::TooManyLists {
            found: lists.len() as u32,
        });
    }
    Ok(lists)
}

#[tactic(auto, using(crate::proofs::Ranges::orders_few))]
fn order_lists(alloc: Global, query: &Query) -> Result<Vec<List<u32>>, PropsFault>
    requires { length (lists_of query.now) ≤ 60 }
    ensures value { IfOk result (λ lists. lists.items ≡ orders_of query.now) }
    ensures few { IfOk result (λ lists. length lists.items ≤ 60) }
    ensures fault { IfErr result (IsRefusedFor query.now) }
{
    let lists = numbered(found_orders(alloc, query)?)?;
    if lists.len() > MOST {
        return Err(PropsFault::TooManyOrders {
            found: lists.len() as u32,
        });
    }
    Ok(lists)
}

fn root_request(alloc: Global, query: &Query, orders: &[List<u32>]) -> Result<Request, AllocError>
    requires orders { orders.now ≡ orders_of query.now }
    requires few { length orders.now ≤ 60 }
    ensures { IfOk result (IsRoot query.now) }
{
    Ok(Request {
        dist: root_dist(query.options.root),
        order: order_number(query, orders, wanted_order(alloc, query)?.as_slice()),
    })
}

fn root_dist(root: RootDist) -> Dist
    ensures { result ≡ the_root_dist root }
{
    match root {
        RootDist::One => Dist::One,
        RootDist::Spread => Dist::Spread,
    }
}

fn orders_as_keys(alloc: Global, orders: &[List<u32>]) -> Result<Vec<List<OrderKey>>, AllocError>
    ensures { IfOk result (λ keys. map elements_of keys.items ≡ orders.now) }
{
    let mut lists = Vec::new(alloc);
    for order in orders {
        lists.push(List::of(order_as_keys(alloc, order.as_slice())?))?;
    }
    Ok(lists)
}

fn order_as_keys(alloc: Global, elements: &[u32]) -> Result<Vec<OrderKey>, AllocError>
    ensures { IfOk result (λ keys. elements_of keys.items ≡ elements.now) }
{
    let mut keys = Vec::new(alloc);
    for element in elements {
        keys.push(key_of(*element))?;
    }
    Ok(keys)
}

fn key_of(element: u32) -> OrderKey
    ensures { element_of result ≡ element }
{
    OrderKey {
        item: element / 2,
        desc: element % 2 == 1,
    }
}
