//! How many members worked examples have.

use orca_base::List;
use plan_search::plain_closure;
use query_core::Query;
use std::alloc::Global;
use std::process::Abort;
use std::test::Fail;
use worked_queries::{chain_of_four, star_of_four, two_tables};

fn members_of(alloc: Global, query: Result<Query, Fail>) -> Result<List<u64>, Fail> {
    let query = Box::new(alloc, query?)?;
    Ok(plain_closure(alloc, &query)?)
}

fn assert_many(
    rt: &impl Abort,
    alloc: Global,
    query: Result<Query, Fail>,
    many: usize,
) -> Result<(), Fail> {
    let members = members_of(alloc, query)?;
    assert!(rt; members.len() == many);
    Ok(())
}

#[test]
fn a_chain_of_four_tables_has_94_members(rt: HostRuntime) -> Result<(), Fail> {
    assert_many(&rt, rt.alloc(), chain_of_four(rt.alloc()), 94)
}

#[test]
fn a_star_of_four_tables_has_111_members(rt: HostRuntime) -> Result<(), Fail> {
    assert_many(&rt, rt.alloc(), star_of_four(rt.alloc()), 111)
}

#[test]
fn a_join_of_two_tables_has_13_members(rt: HostRuntime) -> Result<(), Fail> {
    let members = members_of(rt.alloc(), two_tables(rt.alloc()))?;
    assert!(rt; members.len() == 13 && members.as_slice().contains(&70_594_229_968_898));
    Ok(())
}
