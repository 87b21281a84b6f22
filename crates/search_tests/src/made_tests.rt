//! A query is made of its parts, and lent to threads.
ghost use Rattle.std.specs.Prelude.{◌≡◌, IfOk};

use orca_base::{List, Text};
use query_core::*;
use std::alloc::{AllocError, Global};
use std::test::Fail;

fn text(alloc: Global, part: &str) -> Result<Text, AllocError>
    ensures { IfOk result (λ made. made ≡ part.now) }
{
    Ok(Text::of(String::from_str(alloc, part)?))
}

// `SELECT a FROM t ORDER BY a DESC`
fn one_table(alloc: Global) -> Result<Query, AllocError> {
    let alias = text(alloc, "t")?;
    let name = text(alloc, "a")?;
    let table = QueryTable {
        alias,
        rows: 1000,
        hashed: None,
        replicated: false,
        indexes: List::new(alloc),
    };
    let tables = List::of(vec![in alloc; table]?);
    let item = Item {
        table: 0,
        name,
        ndv: 10,
        histogram: None,
    };
    let items = List::of(vec![in alloc; item]?);
    let shown = OutItem {
        item: 0,
        name: None,
    };
    let output = List::of(vec![in alloc; shown]?);
    let key = OrderKey {
        item: 0,
        desc: true,
    };
    let order = List::of(vec![in alloc; key]?);
    Ok(Query {
        segments: 4,
        tables,
        items,
        preds: List::new(alloc),
        links: List::new(alloc),
        grouped: false,
        group_by: List::new(alloc),
        aggs: List::new(alloc),
        output,
        order,
        options: Options {
            root: RootDist::One,
            off: 0,
        },
    })
}

pub fn lent<T: Send + Sync>(value: &T) -> &T {
    value
}

#[test]
fn a_query_of_one_table_can_be_made_and_shared(rt: HostRuntime) -> Result<(), Fail> {
    let query = Box::new(rt.alloc(), one_table(rt.alloc())?)?;
    assert!(rt; lent::<Query>(&query).order.len() == 1);
    Ok(())
}
