//! When what a plan gives is what is asked for. No call here takes memory.
#![tactic(auto)]

ghost use Rattle.std.specs.Prelude.{◌≡◌, ◌↔◌, IsTrue};
ghost use Rattle.request_props.specs.Found.{ascending, elements_of};
ghost use Rattle.request_props.specs.Numbered.{IsProps, IsNumbered, order_of};
ghost use Rattle.request_props.specs.Satisfied.{ListMeets, Meets, BeginsWith, Satisfies, IsOrderKnown};
ghost use Rattle.request_props.specs.Satisfied.{given_order, index_columns as the_index_columns};

use crate::dists::{class_asked, class_of, list_asked, list_given};
use crate::given::{Given, GivenDist, GivenOrder};
use crate::props::Props;
use crate::request::{Dist, Request};
use query_core::{OrderKey, Query};

/// Whether what is given is what is asked for.
pub fn satisfies(query: &Query, props: &Props, given: Given, request: Request) -> bool
    requires props { IsProps query.now props.now }
    requires given { IsOrderKnown query.now given.order }
    requires request { IsNumbered query.now request.order }
    ensures { IsTrue result ↔ Satisfies query.now given request }
{
    meets(given.dist, request.dist) && order_meets(query, props, given.order, request.order)
}

/// Whether rows that lie so are distributed as asked.
pub fn meets(given: GivenDist, wanted: Dist) -> bool
    ensures { IsTrue result ↔ Meets given wanted }
{
    class_of(given) == class_asked(wanted) && list_meets(list_given(given), list_asked(wanted))
}

// Whether the list is the one that is asked for, if one is.
fn list_meets(given: Option<u32>, asked: Option<u32>) -> bool
    ensures { IsTrue result ↔ ListMeets given asked }
{
    match (given, asked) {
        (_, None) => true,
        (None, Some(_)) => false,
        (Some(list), Some(asked)) => list == asked,
    }
}

fn order_meets(query: &Query, props: &Props, given: GivenOrder, wanted: u32) -> bool
    requires props { IsProps query.now props.now }
    requires given { IsOrderKnown query.now given }
    requires wanted { IsNumbered query.now wanted }
    ensures { IsTrue result ↔ BeginsWith (given_order query.now given) (order_of query.now wanted) }
{
    let wanted = props.order(wanted);
    match given {
        GivenOrder::Listed(number) => keys_begin_with(props.order(number), wanted),
        GivenOrder::Index(table, index) => {
            columns_begin_with(index_columns(query, table, index), wanted)
        }
    }
}

fn index_columns(query: &Query, table: u32, index: u32) -> &[u32]
    ensures { result.now ≡ the_index_columns query.now table index }
{
    match query.tables.as_slice().get(table as usize) {
        Some(table) => match table.indexes.as_slice().get(index as usize) {
            Some(columns) => columns.as_slice(),
            None => &[],
        },
        None => &[],
    }
}

fn keys_begin_with(keys: &[OrderKey], wanted: &[OrderKey]) -> bool
    ensures { IsTrue result ↔ BeginsWith (elements_of keys.now) (elements_of wanted.now) }
{
    match wanted {
        [] => true,
        [key, rest @ ..] => match keys {
            [] => false,
            [first, others @ ..] => first == key && keys_begin_with(others, rest),
        },
    }
}

fn columns_begin_with(columns: &[u32], wanted: &[OrderKey]) -> bool
    ensures { IsTrue result ↔ BeginsWith (ascending columns.now) (elements_of wanted.now) }
{
    match wanted {
        [] => true,
        [key, rest @ ..] => match columns {
            [] => false,
            [first, others @ ..] => {
                !key.desc && *first == key.item && columns_begin_with(others, rest)
            }
        },
    }
}
