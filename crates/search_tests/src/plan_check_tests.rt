//! Plans of two tables that are joined by an equality, and of one table, worked by hand.

ghost use Rattle.request_props.specs.Numbered.{IsProps};

use crate::nodes::{hash_agg, native, stream_agg};
use plan_check::*;
use plan_tree::{Node, Plan};
use query_core::{KeyParts, Physical, Query};
use request_props::{Dist, Props, Request};
use std::alloc::{AllocError, Global};
use std::process::Abort;
use std::test::Fail;
use worked_queries::{filtered_table, hashed_count, implied, large_and_small, two_tables};

// ---- nodes by their numbers

// The hashed lists of the two tables are T1.a, T2.a and T2.b, from 0, and the orders T1.a and T2.b,
// from 1.

const GATHER: u64 = 1;

const BROADCAST: u64 = 2;

// A sort is numbered from 64, a merge from 128, and a redistribution from 192.
const SORT_A: u64 = 65;

const SORT_B: u64 = 66;

const MERGE_A: u64 = 129;

const REDISTRIBUTE_A: u64 = 192;

const REDISTRIBUTE_B: u64 = 194;

// A physical expression's number is 2^56, its word times 256, and its mode.
const SCAN_1: u64 = 72_057_594_037_927_936 + 256 * 4_294_967_296;

const SCAN_2: u64 = 72_057_594_037_927_936 + 256 * (68_719_476_736 + 4_294_967_296);

// The keys of the join and of the tables are 1027, 0 and 1; a hash join is operator 9.
const HASH: u64 = 72_057_594_037_927_936 + 256 * 70_594_229_968_898;

const MERGE: u64 = HASH + 256 * 2_147_483_648;

const LOOP: u64 = MERGE + 256 * 2_147_483_648;

const COPIED: u64 = 64;

const COLOCATED: u64 = 128;

// ---- plans, and what a check says of them

// What a check says of a plan, for a distribution and an order. The plan is listed by its nodes in
// preorder, each with how many stand right below it.
#[derive(Clone, Copy)]
struct Case<'a> {
    nodes: &'a [(u64, u32)],
    dist: Dist,
    order: u32,
    says: Result<u64, PlanFault>,
}

// The plan of the listed nodes.
fn plan_of(alloc: Global, nodes: &[(u64, u32)]) -> Result<Plan, AllocError> {
    let mut plans = Vec::new(alloc);
    plan_by(alloc, nodes, &mut plans)
}

// The same, made from the last node on, with those that wait for a node above them in the list.
fn plan_by(alloc: Global, nodes: &[(u64, u32)], plans: &mut Vec<Plan>) -> Result<Plan, AllocError> {
    for (node, kids) in nodes.iter().rev() {
        let plan = plan_over(alloc, Node(*node), *kids, plans)?;
        plans.push(plan)?;
    }
    Ok(last_of(plans))
}

// A node over so many of the plans that were made last.
fn plan_over(
    alloc: Global,
    node: Node,
    kids: u32,
    plans: &mut Vec<Plan>,
) -> Result<Plan, AllocError> {
    match kids {
        0 => Ok(Plan::Leaf(node)),
        1 => Ok(Plan::Over(node, Box::new(alloc, last_of(plans))?)),
        _ => {
            let left = Box::new(alloc, last_of(plans))?;
            let right = Box::new(alloc, last_of(plans))?;
            Ok(Plan::Two(node, left, right))
        }
    }
}

// The plan that was made last; where none was, a node that no query has.
fn last_of(plans: &mut Vec<Plan>) -> Plan {
    match plans.pop() {
        Some(plan) => plan,
        None => Plan::Leaf(Node(0)),
    }
}

fn check_case(
    rt: &impl Abort,
    alloc: Global,
    query: &Query,
    props: &Props,
    case: &Case,
) -> Result<(), AllocError>
    requires { IsProps query.now props.now }
{
    let plan = plan_of(alloc, case.nodes)?;
    let wanted = Request {
        dist: case.dist,
        order: case.order,
    };
    let told = check_plan(query, props, &plan, wanted);
    assert!(rt; told == case.says, "{told:?}");
    Ok(())
}

fn check_cases(
    rt: &impl Abort,
    alloc: Global,
    query: &Query,
    props: &Props,
    cases: &[Case],
) -> Result<(), AllocError>
    requires { IsProps query.now props.now }
{
    for case in cases {
        check_case(rt, alloc, query, props, case)?;
    }
    Ok(())
}

fn check_each(
    rt: &impl Abort,
    alloc: Global,
    query: Result<Query, Fail>,
    cases: &[Case],
) -> Result<(), Fail> {
    let (query, props) = implied(alloc, query?)?;
    Ok(check_cases(rt, alloc, &query, &props, cases)?)
}

// ---- two tables

// A hash join of rows that are hashed alike, sorted and merged.
const LEAST: [(u64, u32); 6] = [
    (MERGE_A, 1),
    (SORT_A, 1),
    (HASH + COLOCATED, 2),
    (SCAN_1, 0),
    (REDISTRIBUTE_B, 1),
    (SCAN_2, 0),
];

const JOINS: [Case; 3] = [
    // 4,001 for the copies, and 250 + 2 * 1,000 + 250 + 1 for the join
    Case {
        nodes: &[(HASH + COPIED, 2), (SCAN_1, 0), (BROADCAST, 1), (SCAN_2, 0)],
        dist: Dist::Spread,
        order: 0,
        says: Ok(251 + 251 + 4001 + 2501),
    },
    // each side sorted at 2,001, the right one hashed by T2.b at 1,001, and 751 for the join
    Case {
        nodes: &[
            (MERGE + COLOCATED, 2),
            (SORT_A, 1),
            (SCAN_1, 0),
            (SORT_B, 1),
            (REDISTRIBUTE_B, 1),
            (SCAN_2, 0),
        ],
        dist: Dist::Hashed(0),
        order: 1,
        says: Ok(251 + 251 + 1001 + 2001 + 2001 + 751),
    },
    // a gather of each side at 2,001, and 1,000 * 1,000 + 1 for the join
    Case {
        nodes: &[
            (LOOP, 2),
            (GATHER, 1),
            (SCAN_1, 0),
            (GATHER, 1),
            (SCAN_2, 0),
        ],
        dist: Dist::One,
        order: 0,
        says: Ok(251 + 251 + 2001 + 2001 + 1_000_001),
    },
];

#[test]
fn a_plan_costs_what_the_table_says(rt: HostRuntime) -> Result<(), Fail> {
    check_each(&rt, rt.alloc(), two_tables(rt.alloc()), &JOINS)
}

const LEAST_PLANS: [Case; 3] = [
    Case {
        nodes: &LEAST,
        dist: Dist::One,
        order: 0,
        says: Ok(7506),
    },
    Case {
        nodes: &LEAST,
        dist: Dist::One,
        order: 1,
        says: Ok(7506),
    },
    // a sort at 2,001 and a motion at 1,001 that change nothing
    Case {
        nodes: &[
            (MERGE_A, 1),
            (SORT_A, 1),
            (REDISTRIBUTE_A, 1),
            (SORT_A, 1),
            (HASH + COLOCATED, 2),
            (SCAN_1, 0),
            (REDISTRIBUTE_B, 1),
            (SCAN_2, 0),
        ],
        dist: Dist::One,
        order: 1,
        says: Ok(7506 + 2001 + 1001),
    },
];

#[test]
fn the_least_plan_has_its_cost(rt: HostRuntime) -> Result<(), Fail> {
    check_each(&rt, rt.alloc(), two_tables(rt.alloc()), &LEAST_PLANS)
}

const COPIED_TABLE: [Case; 1] = [Case {
    nodes: &[
        (GATHER, 1),
        (HASH + COPIED, 2),
        (SCAN_1, 0),
        (BROADCAST, 1),
        (SCAN_2, 0),
    ],
    dist: Dist::One,
    order: 0,
    says: Ok(52318),
}];

#[test]
fn copies_of_a_small_table_cost_little(rt: HostRuntime) -> Result<(), Fail> {
    check_each(&rt, rt.alloc(), large_and_small(rt.alloc()), &COPIED_TABLE)
}

// What a check says of so many sorts over a scan.
fn check_sorts(
    rt: &impl Abort,
    alloc: Global,
    many: usize,
    says: Result<u64, PlanFault>,
) -> Result<(), Fail> {
    let mut nodes = vec![in alloc; (SORT_A, 1); many]?;
    nodes.push((SCAN_1, 0))?;
    let sorts = Case {
        nodes: &nodes,
        dist: Dist::Spread,
        order: 1,
        says,
    };
    check_each(rt, alloc, two_tables(alloc), &[sorts])
}

#[test]
fn a_thousand_nodes_are_few_enough(rt: HostRuntime) -> Result<(), Fail> {
    check_sorts(&rt, rt.alloc(), 999, Ok(999 * 2001 + 251))?;
    let over = PlanFault::TooLarge { nodes: 1001 };
    check_sorts(&rt, rt.alloc(), 1000, Err(over))
}

// Asserts that a check tells of the node with this number over another with it.
fn check_unknown(rt: &impl Abort, alloc: Global, number: u64) -> Result<(), Fail> {
    let unknown = Case {
        nodes: &[
            (SORT_A, 1),
            (HASH + COLOCATED, 2),
            (SCAN_1, 0),
            (number, 1),
            (number, 0),
        ],
        dist: Dist::Spread,
        order: 1,
        says: Err(PlanFault::Shape { node: 3 }),
    };
    check_each(rt, alloc, two_tables(alloc), &[unknown])
}

// Nothing; a sort by no order and by a third; a fourth list; a mode without a line; a table read by an index that it
// hasn't; and the logical expression of the table.
const UNKNOWN: [u64; 7] = [
    0,
    64,
    67,
    195,
    HASH + COLOCATED + 1,
    SCAN_1 + 256 * 2_147_483_648,
    SCAN_1 - 256 * 2_147_483_648,
];

#[test]
fn a_number_that_no_node_of_the_query_has_is_told(rt: HostRuntime) -> Result<(), Fail> {
    for number in &UNKNOWN {
        check_unknown(&rt, rt.alloc(), *number)?;
    }
    Ok(())
}

const WRONG_KIDS: [Case; 3] = [
    // the hash join's sides are turned
    Case {
        nodes: &[
            (SORT_A, 1),
            (HASH + COLOCATED, 2),
            (REDISTRIBUTE_B, 1),
            (SCAN_2, 0),
            (SCAN_1, 0),
        ],
        dist: Dist::Spread,
        order: 1,
        says: Err(PlanFault::Kids { node: 1 }),
    },
    // an enforcer of two over one of nothing
    Case {
        nodes: &[(GATHER, 2), (SORT_A, 0), (SCAN_1, 0)],
        dist: Dist::One,
        order: 0,
        says: Err(PlanFault::Kids { node: 1 }),
    },
    Case {
        nodes: &[(GATHER, 2), (SCAN_1, 0), (SCAN_1, 0)],
        dist: Dist::One,
        order: 0,
        says: Err(PlanFault::Kids { node: 0 }),
    },
];

#[test]
fn the_last_node_with_wrong_kids_is_told(rt: HostRuntime) -> Result<(), Fail> {
    check_each(&rt, rt.alloc(), two_tables(rt.alloc()), &WRONG_KIDS)
}

const UNMET_NEEDS: [Case; 5] = [
    // the second table lies by another column
    Case {
        nodes: &[(SORT_A, 1), (HASH + COLOCATED, 2), (SCAN_1, 0), (SCAN_2, 0)],
        dist: Dist::Spread,
        order: 1,
        says: Err(PlanFault::Needs { node: 1 }),
    },
    // gathered thrice
    Case {
        nodes: &[(GATHER, 1), (GATHER, 1), (GATHER, 1), (SCAN_1, 0)],
        dist: Dist::One,
        order: 0,
        says: Err(PlanFault::Needs { node: 0 }),
    },
    // an order and a list that aren't in the table, and a merge of rows in no order
    Case {
        nodes: &[(SORT_B, 1), (SCAN_1, 0)],
        dist: Dist::Spread,
        order: 0,
        says: Err(PlanFault::Needs { node: 0 }),
    },
    Case {
        nodes: &[(REDISTRIBUTE_B, 1), (SCAN_1, 0)],
        dist: Dist::Spread,
        order: 0,
        says: Err(PlanFault::Needs { node: 0 }),
    },
    Case {
        nodes: &[(MERGE_A, 1), (SCAN_1, 0)],
        dist: Dist::Spread,
        order: 0,
        says: Err(PlanFault::Needs { node: 0 }),
    },
];

#[test]
fn the_first_node_whose_needs_are_not_met_is_told(rt: HostRuntime) -> Result<(), Fail> {
    check_each(&rt, rt.alloc(), two_tables(rt.alloc()), &UNMET_NEEDS)
}

const NOT_ASKED_FOR: [Case; 3] = [
    Case {
        nodes: &LEAST,
        dist: Dist::Spread,
        order: 1,
        says: Err(PlanFault::Unsatisfied),
    },
    Case {
        nodes: &LEAST,
        dist: Dist::One,
        order: 2,
        says: Err(PlanFault::Unsatisfied),
    },
    Case {
        nodes: &LEAST,
        dist: Dist::Copies,
        order: 0,
        says: Err(PlanFault::Unsatisfied),
    },
];

#[test]
fn a_valid_plan_may_not_be_what_is_asked_for(rt: HostRuntime) -> Result<(), Fail> {
    check_each(&rt, rt.alloc(), two_tables(rt.alloc()), &NOT_ASKED_FOR)
}

// Needs that aren't met stand above wrong kids, and these above a number of no node.
const SEVERAL_FAULTS: [Case; 2] = [
    Case {
        nodes: &[(REDISTRIBUTE_B, 1), (SORT_A, 2), (SCAN_1, 0), (SCAN_1, 0)],
        dist: Dist::Spread,
        order: 0,
        says: Err(PlanFault::Kids { node: 1 }),
    },
    Case {
        nodes: &[(REDISTRIBUTE_B, 1), (SORT_A, 2), (SCAN_1, 0), (0, 0)],
        dist: Dist::Spread,
        order: 0,
        says: Err(PlanFault::Shape { node: 3 }),
    },
];

#[test]
fn the_whole_plan_is_looked_through_for_one_fault_first(rt: HostRuntime) -> Result<(), Fail> {
    check_each(&rt, rt.alloc(), two_tables(rt.alloc()), &SEVERAL_FAULTS)
}

// ---- one table

// The hashed lists of the grouped query are t.a and t.b, from 0, and the one order is t.b.
const REDISTRIBUTE_T_B: u64 = 193;

#[test]
fn aggregations_cost_what_the_table_says(rt: HostRuntime) -> Result<(), Fail> {
    let rows = KeyParts::Get(0);
    // 1,000 rows on one segment: a gather at 2,001, and 2 * 1,000 + 10 + 1
    let gathered = Case {
        nodes: &[(hash_agg(rows, 0).0, 1), (GATHER, 1), (SCAN_1, 0)],
        dist: Dist::One,
        order: 0,
        says: Ok(251 + 2001 + 2011),
    };
    // 40 partial groups at 501, 10 of them on each segment, moved at 41, and 2 * 10 + 3 + 1
    let partial = native(KeyParts::Partial, Physical::PartialAgg(rows), 0).0;
    let in_two_steps = Case {
        nodes: &[
            (hash_agg(KeyParts::Partial, 129).0, 1),
            (REDISTRIBUTE_T_B, 1),
            (partial, 1),
            (SCAN_1, 0),
        ],
        dist: Dist::Spread,
        order: 0,
        says: Ok(251 + 501 + 41 + 24),
    };
    // 250 rows moved at 1,001 and sorted at 2,001 on each segment, and 250 + 1
    let streamed = Case {
        nodes: &[
            (stream_agg(rows, 129).0, 1),
            (SORT_A, 1),
            (REDISTRIBUTE_T_B, 1),
            (SCAN_1, 0),
        ],
        dist: Dist::Spread,
        order: 1,
        says: Ok(251 + 1001 + 2001 + 251),
    };
    let cases = [gathered, in_two_steps, streamed];
    check_each(&rt, rt.alloc(), hashed_count(rt.alloc()), &cases)
}

#[test]
fn an_aggregation_by_a_list_outside_group_by_lacks_what_it_needs(
    rt: HostRuntime,
) -> Result<(), Fail> {
    let by_another_list = hash_agg(KeyParts::Get(0), 128).0;
    let over_a_scan = Case {
        nodes: &[(by_another_list, 1), (SCAN_1, 0)],
        dist: Dist::Spread,
        order: 0,
        says: Err(PlanFault::Needs { node: 0 }),
    };
    let over_wrong_kids = Case {
        nodes: &[(by_another_list, 1), (GATHER, 2), (SCAN_1, 0), (SCAN_1, 0)],
        dist: Dist::Spread,
        order: 0,
        says: Err(PlanFault::Kids { node: 1 }),
    };
    let cases = [over_a_scan, over_wrong_kids];
    check_each(&rt, rt.alloc(), hashed_count(rt.alloc()), &cases)
}

#[test]
fn a_filter_and_an_index_cost_what_the_table_says(rt: HostRuntime) -> Result<(), Fail> {
    let filter = native(KeyParts::Filter(0), Physical::Filter(KeyParts::Get(0)), 0).0;
    let over_a_scan = Case {
        nodes: &[(filter, 1), (SCAN_1, 0)],
        dist: Dist::Spread,
        order: 0,
        says: Ok(251 + 251),
    };
    let index = native(KeyParts::Get(0), Physical::IndexScan(0), 0).0;
    let over_an_index = Case {
        nodes: &[(filter, 1), (index, 0)],
        dist: Dist::Spread,
        order: 0,
        says: Ok(501 + 251),
    };
    let seek = native(KeyParts::Filter(0), Physical::IndexSeek(0), 0).0;
    let sought = Case {
        nodes: &[(seek, 0)],
        dist: Dist::Spread,
        order: 0,
        says: Ok(10),
    };
    let cases = [over_a_scan, over_an_index, sought];
    check_each(&rt, rt.alloc(), filtered_table(rt.alloc()), &cases)
}
