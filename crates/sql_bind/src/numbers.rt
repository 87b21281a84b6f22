//! The numbers of items: the used columns first, and the aggregates after them.
ghost use Rattle.std.specs.Prelude.{◌≡◌, ◌≤◌, IfOk, IsTrue, length, map};
ghost use Rattle.query_core.specs.Differ.{all_differ};
ghost use Rattle.sql_bind.specs.Columns.{is_same};
ghost use Rattle.sql_bind.specs.Numbers.{column_number, numbers_of as the_numbers_of};
ghost use Rattle.sql_bind.specs.Numbers.{target_number as the_target_number};

use crate::columns::Column;
use crate::sort_keys::Target;
use crate::used::Used;
use indexmap::IndexSet;
use orca_base::List;
use std::alloc::{AllocError, Global};
use std::marker::Model;

/// The used columns in their order, each numbered by its place.
#[derive(Drop)]
pub struct UsedColumns<'a> {
    columns: List<Used<'a>>,
    numbers: IndexSet<Column>,
}

impl<'a> Model for UsedColumns<'a> {
    ghost use Rattle.std.specs.Prelude.{◌≡◌, List, map};
    ghost use Rattle.sql_bind.specs.Used.{UsedColumn};

    ghost Value = { List UsedColumn };

    ghost view = { λ u. u.columns };

    ghost invariant = { λ u. u.numbers.keys ≡ map (λ c. c.which) u.columns };
}

impl<'a> UsedColumns<'a> {
    /// Numbers the columns.
    pub fn of(alloc: Global, columns: List<Used<'a>>) -> Result<UsedColumns<'a>, AllocError>
        requires { IsTrue (all_differ is_same (map (λ c. c.which) columns)) }
        ensures { IfOk result (λ used. used ≡ columns.entry) }
    {
        let numbers = numbered(alloc, columns.as_slice())?;
        Ok(UsedColumns { columns, numbers })
    }

    pub fn as_slice(&self) -> &[Used<'a>]
        ensures { result.now ≡ self.now }
    {
        self.columns.as_slice()
    }

    pub fn len(&self) -> usize
        ensures { result ≡ length self.now }
    {
        self.columns.len()
    }

    /// How many used columns come before this one.
    pub fn number_of_column(&self, column: Column) -> u32
        requires { length self.now ≤ 60 }
        ensures number { result ≡ column_number self.now column }
        ensures within { result ≤ length self.now }
    {
        match self.numbers.get_index_of(&column) {
            Some(number) => number as u32,
            None => self.columns.len() as u32,
        }
    }
}

fn numbered(alloc: Global, columns: &[Used<'_>]) -> Result<IndexSet<Column>, AllocError>
    requires { IsTrue (all_differ is_same (map (λ c. c.which) columns.now)) }
    ensures { IfOk result (λ numbers. numbers.keys ≡ map (λ c. c.which) columns.now) }
{
    let mut numbers = IndexSet::with_capacity(alloc, columns.len())?;
    for used in columns {
        numbers.insert(used.column())?;
    }
    Ok(numbers)
}

/// The numbers of columns of a table, which are given by their places.
pub fn numbers_of(
    alloc: Global,
    used: &UsedColumns<'_>,
    table: usize,
    places: &[u32],
) -> Result<List<u32>, AllocError>
    requires { length used.now ≤ 60 }
    ensures { IfOk result (λ numbers. numbers ≡ the_numbers_of used.now table places.now) }
{
    let mut numbers = List::new(alloc);
    for place in places {
        let column = Column {
            table,
            place: *place as usize,
        };
        numbers.push(used.number_of_column(column))?;
    }
    Ok(numbers)
}

/// The number of the item that is meant.
pub fn target_number(used: &UsedColumns<'_>, target: Target) -> u32
    requires { length used.now ≤ 60 }
    ensures { result ≡ the_target_number used.now target }
{
    match target {
        Target::Column(column) => used.number_of_column(column),
        Target::Aggregate(number) => used.len() as u32 + number as u32,
    }
}
