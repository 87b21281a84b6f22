//! Which equalities have a column of a group, one that gives an order, or one by which rows are hashed, as sets of the
//! numbers of predicates.
#![tactic(auto)]

ghost use Rattle.std.specs.Prelude.{ℕ, ◌≡◌, ◌≤◌, ◌<◌, ◌^◌, ◌⊎◌, ◌↔◌, IfOk, IsTrue, length, map};
ghost use Rattle.query_core.specs.declared.query.Query.{Query as AnyQuery};
ghost use Rattle.query_core.specs.declared.words.KeyParts.TheVariants.{Join};
ghost use Rattle.request_props.specs.NumberSets.{IsInSet};
ghost use Rattle.request_props.specs.Numbered.{equality_of, order_among, orders_of, side_of};
ghost use Rattle.request_props.specs.Ends.{AreEnds, AreEndsOf, AreSetEnds, AreSetEndsBelow, AreTableEnds};
ghost use Rattle.request_props.specs.Ends.{HasAcross, HasAcrossBy, HasColumn, HasFirstAlone};
ghost use Rattle.request_props.specs.Ends.{HasSecondAlone, HaveBoth, IsGivenBy};
ghost use Rattle.request_props.specs.Counted.{HaveNumbers, IsAmong, IsByLeft, IsByRight, IsColumnBy};

use crate::number_set::NumberSet;
use crate::sides::{Equality, Side};
use orca_base::List;
use query_core::{KeyParts, Query, sets};
use std::alloc::{AllocError, Global};

/// The equalities whose first column is one of some, as those of a group, and those whose second is.
#[derive(Clone, Copy)]
pub struct EqualityEnds {
    pub first: NumberSet,
    pub second: NumberSet,
}

impl EqualityEnds {
    // No equality.
    fn none() -> EqualityEnds
        ensures first { (pred : ℕ) → IsInSet result.first pred → ⊥ }
        ensures second { (pred : ℕ) → IsInSet result.second pred → ⊥ }
    {
        EqualityEnds {
            first: NumberSet::none(),
            second: NumberSet::none(),
        }
    }

    // Those of either.
    fn or(self, other: EqualityEnds) -> EqualityEnds
        ensures first { (pred : ℕ) → IsInSet result.first pred ↔
            (IsInSet self.first pred ⊎ IsInSet other.first pred) }
        ensures second { (pred : ℕ) → IsInSet result.second pred ↔
            (IsInSet self.second pred ⊎ IsInSet other.second pred) }
    {
        EqualityEnds {
            first: self.first.or(other.first),
            second: self.second.or(other.second),
        }
    }

    /// Those of which one column is this one's, and the other isn't.
    pub fn leaving(self) -> EqualityEnds
        ensures first { (pred : ℕ) → IsInSet result.first pred ↔ HasFirstAlone self pred }
        ensures second { (pred : ℕ) → IsInSet result.second pred ↔ HasSecondAlone self pred }
    {
        EqualityEnds {
            first: self.first.without(self.second),
            second: self.second.without(self.first),
        }
    }

    /// Whether both have some equality by the same column.
    pub fn shares(self, other: EqualityEnds) -> bool
        ensures { IsTrue result ↔ (pred : ℕ) × HaveBoth self other pred }
    {
        !self.first.and(other.first).is_empty() || !self.second.and(other.second).is_empty()
    }

    /// Those of which each has one column.
    pub fn across(self, other: EqualityEnds) -> NumberSet
        ensures { (pred : ℕ) → IsInSet result pred ↔ HasAcross self other pred }
    {
        self.first
            .and(other.second)
            .or(self.second.and(other.first))
    }

    /// Those of which each has one column, this one's also among some; where both can be this one's, its first.
    pub fn across_by(self, other: EqualityEnds, among: EqualityEnds) -> NumberSet
        ensures { (pred : ℕ) → IsInSet result pred ↔ HasAcrossBy self other among pred }
    {
        let first = self.first.and(other.second);
        let second = self.second.and(other.first).without(first);
        first.and(among.first).or(second.and(among.second))
    }
}

/// By what columns count: those of each table, of each order or of each hashed list.
#[derive(Clone, Copy)]
pub enum ColumnsBy {
    Tables,
    Orders,
    Lists,
}

/// The columns that count.
#[derive(Clone, Copy)]
pub enum CountedColumns {
    /// Those that the group has.
    Of(KeyParts),
    All,
    One(u32),
    /// Those whose hashed list has the number, or that have none.
    Listed(u32),
    None,
}

impl CountedColumns {
    // Those by the number of what they are by.
    fn get(by: ColumnsBy, orders: &[List<u32>], number: u32) -> CountedColumns
        ensures { (q : AnyQuery) → orders.now ≡ orders_of q → (column : ℕ) →
            IsAmong q result column ↔ IsColumnBy q by number column }
    {
        match by {
            ColumnsBy::Tables => CountedColumns::Of(KeyParts::Get(number)),
            ColumnsBy::Orders => CountedColumns::giving(order_at(orders, number)),
            ColumnsBy::Lists => CountedColumns::Listed(number),
        }
    }

    // Those of which each gives the order.
    fn giving(order: &[u32]) -> CountedColumns
        ensures { (q : AnyQuery) (column : ℕ) →
            IsAmong q result column ↔ IsGivenBy order.now column }
    {
        match order {
            [] => CountedColumns::All,
            [element] if element % 2 == 0 => CountedColumns::One(element / 2),
            _ => CountedColumns::None,
        }
    }

    // Whether this is one of them.
    fn have(self, query: &Query, side: Side) -> bool
        requires { side ≡ side_of query.now side.column }
        ensures { IsTrue result ↔ IsAmong query.now self side.column }
    {
        match self {
            CountedColumns::Of(group) => query.group_has_item(group, side.column),
            CountedColumns::All => true,
            CountedColumns::One(column) => side.column == column,
            CountedColumns::Listed(list) => side.list == list,
            CountedColumns::None => false,
        }
    }
}

/// For so many numbers the equalities that have a column by the number.
pub fn ends_by(
    alloc: Global,
    query: &Query,
    equalities: &[Option<Equality>],
    orders: &[List<u32>],
    by: ColumnsBy,
    count: u32,
) -> Result<Vec<EqualityEnds>, AllocError>
    requires equalities { equalities.now ≡ map (equality_of query.now) query.now.preds }
    requires orders { orders.now ≡ orders_of query.now }
    ensures { IfOk result (λ found. AreEnds query.now (IsColumnBy query.now by) count found.items) }
{
    let mut found = Vec::new(alloc);
    for number in 0..count {
        let columns = CountedColumns::get(by, orders, number);
        found.push(ends_of(query, equalities, columns))?;
    }
    Ok(found)
}

/// For each set of tables, but for that of all tables, the equalities that have one of its columns.
pub fn set_ends(
    alloc: Global,
    query: &Query,
    of_tables: &[EqualityEnds],
) -> Result<Vec<EqualityEnds>, AllocError>
    requires { AreTableEnds query.now of_tables.now }
    ensures { IfOk result (λ found. AreSetEnds query.now found.items) }
{
    let count = sets::first(query.tables.len() as u32);
    let mut found = Vec::with_capacity(alloc, count as usize)?;
    for set in 0..count {
        found.push(ends_of_set(query, of_tables, found.as_slice(), set))?;
    }
    Ok(found)
}

// Those of a set: of its least table, and of the others, which are a lesser set.
fn ends_of_set(
    query: &Query,
    of_tables: &[EqualityEnds],
    of_lesser: &[EqualityEnds],
    set: u32,
) -> EqualityEnds
    requires within { set < 2 ^ length query.now.tables }
    requires tables { AreTableEnds query.now of_tables.now }
    requires lesser { AreSetEndsBelow query.now set of_lesser.now }
    ensures { AreEndsOf query.now (HasColumn query.now (Join set)) result }
{
    match sets::least(set) {
        Some(table) => {
            let others = sets::difference(set, sets::of_one(table));
            of_tables[table as usize].or(of_lesser[others as usize])
        }
        None => EqualityEnds::none(),
    }
}

// The order of this number; the empty one where none has it.
fn order_at(orders: &[List<u32>], number: u32) -> &[u32]
    ensures { result.now ≡ order_among orders.now number }
{
    match number.checked_sub(1) {
        Some(place) => match orders.get(place as usize) {
            Some(order) => order.as_slice(),
            None => &[],
        },
        None => &[],
    }
}

/// The equalities that have one of the columns.
pub fn ends_of(
    query: &Query,
    equalities: &[Option<Equality>],
    columns: CountedColumns,
) -> EqualityEnds
    requires { equalities.now ≡ map (equality_of query.now) query.now.preds }
    ensures { AreEndsOf query.now (IsAmong query.now columns) result }
{
    let mut ends = EqualityEnds::none();
    for pred in 0..equalities.len() {
        ends = with_ends(query, columns, equalities[pred], pred as u32, ends);
    }
    ends
}

// These, and those of the predicate of this number.
fn with_ends(
    query: &Query,
    columns: CountedColumns,
    equality: Option<Equality>,
    pred: u32,
    ends: EqualityEnds,
) -> EqualityEnds
    requires few { pred < 64 }
    requires numbers { HaveNumbers query.now equality }
    ensures first { (other : ℕ) → IsInSet result.first other ↔ (IsInSet ends.first other
        ⊎ ((other ≡ pred) × IsByLeft (IsAmong query.now columns) equality)) }
    ensures second { (other : ℕ) → IsInSet result.second other ↔ (IsInSet ends.second other
        ⊎ ((other ≡ pred) × IsByRight (IsAmong query.now columns) equality)) }
{
    match equality {
        Some(Equality { left, right }) => EqualityEnds {
            first: ends.first.with(pred, columns.have(query, left)),
            second: ends.second.with(pred, columns.have(query, right)),
        },
        None => ends,
    }
}
