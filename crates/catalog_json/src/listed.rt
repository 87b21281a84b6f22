//! Lists of column names, read as the columns' places in their table.
ghost use Rattle.std.specs.Prelude.{◌≡◌, ◌≤◌, ◌<◌, ◌==◌, [], length, map, option_map, IfSome};
ghost use Rattle.std.specs.List.{list_any};
ghost use Rattle.serde_json.specs.View.{view};
ghost use Rattle.catalog_json.specs.Columns.{names_of};
ghost use Rattle.catalog_json.specs.Walk.{Yields, each, listed_at, new_place, places_at};

use crate::column::Columns;
use crate::fault::Fault;
use crate::member::{list_at, name_at};
use crate::place::{NameList, Place};
use orca_base::List;
use serde_json::Value;
use std::alloc::Global;

const MOST_LISTED: usize = 8;

fn is_among(places: &[u32], i: u32) -> bool
    ensures { result ≡ list_any (λ p. p == i) places.now }
{
    places.contains(&i)
}

fn new_place(place: Place, before: &[u32], found: Option<usize>) -> Result<u32, Fault>
    requires { IfSome found (λ i. i < 1000) }
    ensures { result ≡ new_place place before.now found }
{
    match found {
        None => Err(Fault::UnknownColumn(place)),
        Some(i) => {
            let i = i as u32;
            if is_among(before, i) {
                Err(Fault::Twice(place))
            } else {
                Ok(i)
            }
        }
    }
}

#[tactic(auto, unfolding(crate::specs::Walk::listed_at))]
fn read_listed(
    list: NameList,
    columns: &Columns,
    before: &[u32],
    value: &Value,
) -> Result<u32, Fault>
    requires { length columns.now ≤ 1000 }
    ensures { Yields (listed_at list (names_of columns.now) before.now (view value.now)) result }
{
    let place = Place::Listed(list, before.len());
    let name = name_at(Some(value), place)?;
    new_place(place, before, columns.position(name))
}

fn read_each_listed(
    alloc: Global,
    list: NameList,
    columns: &Columns,
    values: &[Value],
) -> Result<List<u32>, Fault>
    requires { length columns.now ≤ 1000 }
    ensures { Yields (each (listed_at list (names_of columns.now)) [] (map view values.now)) result }
{
    let mut places = List::new(alloc);
    for value in values {
        let place = read_listed(list, columns, places.as_slice(), value)?;
        places.push(place)?;
    }
    Ok(places)
}

/// Reads a list of 1 to 8 different ones of a table's columns.
#[tactic(auto, unfolding(crate::specs::Walk::places_at))]
pub fn read_places(
    alloc: Global,
    list: NameList,
    columns: &Columns,
    value: Option<&Value>,
) -> Result<List<u32>, Fault>
    requires { length columns.now ≤ 1000 }
    ensures { Yields
        (places_at list (names_of columns.now) (option_map (λ v. view v.now) value.entry)) result }
{
    let values = list_at(value, 1, MOST_LISTED, Place::NamesOf(list))?;
    read_each_listed(alloc, list, columns, values)
}
