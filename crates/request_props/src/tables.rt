//! What a query implies, found once: of its groups, of its equalities, and of where rows lie.
#![tactic(auto)]

ghost use Rattle.std.specs.Prelude.{◌≡◌, ◌≤◌, IfOk, length};
ghost use Rattle.request_props.specs.Numbered.{lists_of, orders_of};
ghost use Rattle.request_props.specs.Numbered.{AreGroupTables, AreEqualityTables, ArePlacementTables};

pub mod candidates;
pub mod ends;
pub mod groups;
pub mod join_sets;
pub mod lying;
pub mod physical;

use crate::given::GivenDist;
use crate::numbers::{equalities, group_order, grouped, placings};
use crate::sides::Equality;
use crate::tables::candidates::group_candidates;
use crate::tables::ends::{ColumnsBy, EqualityEnds, ends_by, set_ends};
use crate::tables::groups::{group_rows, query_keys};
use crate::tables::lying::{tables_of_lists, tables_of_orders};
use crate::tables::physical::{PhysicalCandidate, group_physical};
use orca_base::List;
use query_core::Query;
use std::alloc::{AllocError, Global};

/// What each group can hold, by the number of its key.
#[derive(Drop)]
pub struct GroupTables {
    /// Whether each number below `KEYS` is that of a key of the query.
    pub keys: List<bool>,
    /// The estimated rows of each group.
    pub rows: List<u64>,
    /// The words of the expressions that each group can hold, ascending.
    pub candidates: List<List<u64>>,
    /// The physical ones of them, with their words, in the same order.
    pub physical: List<List<PhysicalCandidate>>,
}

/// The equalities of two items.
#[derive(Drop)]
pub struct EqualityTables {
    /// For each predicate both its sides, where it is such an equality.
    pub sides: List<Option<Equality>>,
    /// Of each table the equalities of which it has a column.
    pub of_tables: List<EqualityEnds>,
    /// The same of each set of tables, but for that of all tables.
    pub of_sets: List<EqualityEnds>,
    /// For each order, by its number, the equalities of which a column gives it.
    pub of_orders: List<EqualityEnds>,
    /// For each hashed list, by its number, the equalities of which a column is all of it; then those of which one has
    /// no list.
    pub of_lists: List<EqualityEnds>,
}

/// Where rows lie, and the tables of lists and orders.
#[derive(Drop)]
pub struct PlacementTables {
    /// Where the rows of each table lie.
    pub placings: List<GivenDist>,
    /// Of each hashed list whether all of it is in GROUP BY.
    pub grouped: List<bool>,
    /// Of each hashed list the tables of its columns; none where an item is no column.
    pub of_lists: List<Option<u32>>,
    /// The same of each order.
    pub of_orders: List<Option<u32>>,
    /// The number of the order of the GROUP BY columns, each ascending.
    pub by_groups: u32,
}

impl GroupTables {
    /// What the query's groups can hold.
    pub fn collect(alloc: Global, query: &Query) -> Result<Box<GroupTables>, AllocError>
        ensures { IfOk result (λ tables. AreGroupTables query.now tables.value) }
    {
        let keys = query_keys(alloc, query)?;
        let rows = group_rows(alloc, query, keys.as_slice())?;
        let candidates = group_candidates(alloc, query, keys.as_slice())?;
        let physical = group_physical(alloc, query, keys.as_slice(), candidates.as_slice())?;
        let tables = GroupTables {
            keys: List::of(keys),
            rows: List::of(rows),
            candidates: List::of(candidates),
            physical: List::of(physical),
        };
        Ok(Box::new(alloc, tables)?)
    }
}

impl EqualityTables {
    /// The query's equalities, by its lists and orders.
    pub fn collect(
        alloc: Global,
        query: &Query,
        lists: &[List<u32>],
        orders: &[List<u32>],
    ) -> Result<Box<EqualityTables>, AllocError>
        requires lists { lists.now ≡ lists_of query.now }
        requires few_lists { length lists.now ≤ 60 }
        requires orders { orders.now ≡ orders_of query.now }
        requires few_orders { length orders.now ≤ 60 }
        ensures { IfOk result (λ tables. AreEqualityTables query.now tables.value) }
    {
        let sides = equalities(alloc, query, lists, orders)?;
        let found = sides.as_slice();
        let tables = query.tables.len() as u32;
        // With the empty order, and with the columns that have no list.
        let (all_orders, all_lists) = (orders.len() as u32 + 1, lists.len() as u32 + 1);
        let of_tables = ends_by(alloc, query, found, orders, ColumnsBy::Tables, tables)?;
        let of_sets = set_ends(alloc, query, of_tables.as_slice())?;
        let of_orders = ends_by(alloc, query, found, orders, ColumnsBy::Orders, all_orders)?;
        let of_lists = ends_by(alloc, query, found, orders, ColumnsBy::Lists, all_lists)?;
        let tables = EqualityTables {
            sides: List::of(sides),
            of_tables: List::of(of_tables),
            of_sets: List::of(of_sets),
            of_orders: List::of(of_orders),
            of_lists: List::of(of_lists),
        };
        Ok(Box::new(alloc, tables)?)
    }
}

impl PlacementTables {
    /// Where rows lie, by the query's lists and orders.
    pub fn collect(
        alloc: Global,
        query: &Query,
        lists: &[List<u32>],
        orders: &[List<u32>],
    ) -> Result<Box<PlacementTables>, AllocError>
        requires lists { lists.now ≡ lists_of query.now }
        requires few_lists { length lists.now ≤ 60 }
        requires orders { orders.now ≡ orders_of query.now }
        requires few_orders { length orders.now ≤ 60 }
        ensures { IfOk result (λ tables. ArePlacementTables query.now tables.value) }
    {
        let placings = placings(alloc, query, lists)?;
        let grouped = grouped(alloc, query, lists)?;
        let of_lists = tables_of_lists(alloc, query, lists)?;
        let of_orders = tables_of_orders(alloc, query, orders)?;
        let by_groups = group_order(alloc, query, orders)?;
        let tables = PlacementTables {
            placings: List::of(placings),
            grouped: List::of(grouped),
            of_lists: List::of(of_lists),
            of_orders: List::of(of_orders),
            by_groups,
        };
        Ok(Box::new(alloc, tables)?)
    }
}
