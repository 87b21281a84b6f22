//! The least plan of small queries, as the engine finds it, against the listing of all their plans.
ghost use Rattle.request_props.specs.Numbered.{IsProps};

use crate::listing::least_listed;
use crate::ranked::{Ranked, rank_of};
use crate::searches::search;
use plan_report::extract;
use plan_tree::Found;
use query_core::{Options, Query, RootDist};
use request_props::Props;
use std::alloc::Global;
use std::test::Fail;
use worked_queries::{implied, query_over};

const ONE_TABLE: &str =
    r#"[{"name":"t","rows":100,"distribution":"random","columns":[{"name":"a","ndv":100},{"name":"b","ndv":10}]}]"#;

const INDEXED: &str = r#"[{"name":"t","rows":100,"distribution":["a"],"indexes":[["a","b"],["b"]],
"columns":[{"name":"a","ndv":100},{"name":"b","ndv":10}]}]"#;

const HASHED: &str =
    r#"[{"name":"t","rows":100,"distribution":["a"],"columns":[{"name":"a","ndv":100}]},
{"name":"u","rows":100,"distribution":["a"],"columns":[{"name":"a","ndv":100},{"name":"b","ndv":50}]}]"#;

const SMALL: &str =
    r#"[{"name":"t","rows":100,"distribution":"random","columns":[{"name":"a","ndv":100}]},
{"name":"u","rows":10,"distribution":"random","columns":[{"name":"b","ndv":10}]}]"#;

const UNLINKED: &str =
    r#"[{"name":"t","rows":10,"distribution":"random","columns":[{"name":"a","ndv":10}]},
{"name":"u","rows":2,"distribution":"random","columns":[{"name":"b","ndv":2}]},
{"name":"v","rows":1,"distribution":"random","columns":[{"name":"c","ndv":1}]}]"#;

const ALIKE: &str =
    r#"[{"name":"t","rows":100,"distribution":["a"],"columns":[{"name":"a","ndv":100}]},
{"name":"u","rows":100,"distribution":["a"],"columns":[{"name":"a","ndv":100}]},
{"name":"v","rows":100,"distribution":["a"],"columns":[{"name":"a","ndv":100}]}]"#;

const PLAIN: Options = Options {
    root: RootDist::One,
    off: 0,
};

const SPREAD: Options = Options {
    root: RootDist::Spread,
    off: 0,
};

// Without hash joins and loop joins.
const MERGE_JOINS: Options = Options {
    root: RootDist::One,
    off: 1 << 9 | 1 << 11,
};

// Without hash aggregations.
const STREAM_AGGREGATIONS: Options = Options {
    root: RootDist::One,
    off: 1 << 12,
};

// The query of a text over tables.
fn query_of(
    alloc: Global,
    segments: u32,
    tables: &str,
    text: &str,
    options: Options,
) -> Result<Query, Fail> {
    if options.off >= 32768 || options.off % 4 != 0 {
        return Err(Fail::new("a rule may not be off"));
    }
    query_over(alloc, segments, tables, text, options)
}

// The least plan that the engine finds, and the least of those of at most so many nodes.
fn both_least(
    alloc: Global,
    query: &Query,
    props: &Props,
    most: usize,
) -> Result<(Option<Ranked>, Option<Ranked>), Fail>
    requires { IsProps query.now props.now }
{
    let found = search(alloc, query, props)?;
    let least = match extract(alloc, query, props, &found.searched)? {
        Found::Least { plan, cost } => Some(rank_of(alloc, &plan, cost)?),
        Found::NoPlan => None,
    };
    let listed = least_listed(alloc, query, props, found.members.as_slice(), most)?;
    Ok((least, listed))
}

// The same of a text over tables.
fn both_of(
    alloc: Global,
    segments: u32,
    tables: &str,
    text: &str,
    options: Options,
    most: usize,
) -> Result<(Option<Ranked>, Option<Ranked>), Fail> {
    let (query, props) = implied(alloc, query_of(alloc, segments, tables, text, options)?)?;
    both_least(alloc, &query, &props, most)
}

fn cost_of(least: &Option<Ranked>) -> Option<u64> {
    match least {
        Some(ranked) => Some(ranked.cost),
        None => None,
    }
}

// Each case has the greatest number of nodes that are listed, and the costs on one segment and on four.
#[test]
fn the_least_plan_is_the_least_of_all(rt: HostRuntime) -> Result<(), Fail> {
    let cases = [
        (
            ONE_TABLE,
            "SELECT a FROM t ORDER BY a",
            PLAIN,
            6,
            (Some(1003), Some(453)),
        ),
        (
            ONE_TABLE,
            "SELECT a FROM t ORDER BY a DESC, b",
            SPREAD,
            6,
            (Some(802), Some(152)),
        ),
        (
            ONE_TABLE,
            "SELECT a FROM t WHERE b = 5",
            PLAIN,
            6,
            (Some(223), Some(73)),
        ),
        (
            INDEXED,
            "SELECT a FROM t ORDER BY a",
            PLAIN,
            4,
            (Some(502), Some(352)),
        ),
        (
            INDEXED,
            "SELECT a FROM t WHERE a = 5 ORDER BY b",
            PLAIN,
            4,
            (Some(9), Some(9)),
        ),
        (
            INDEXED,
            "SELECT a FROM t WHERE b < 5 ORDER BY b, a",
            SPREAD,
            4,
            (Some(308), Some(65)),
        ),
        (
            SMALL,
            "SELECT t.a FROM t, u",
            PLAIN,
            7,
            (Some(1335), Some(1253)),
        ),
        (
            SMALL,
            "SELECT t.a FROM t, u WHERE t.a < u.b AND u.b = 1",
            PLAIN,
            7,
            (Some(298), Some(134)),
        ),
        (
            HASHED,
            "SELECT t.a FROM t, u WHERE t.a = u.b ORDER BY t.a",
            PLAIN,
            6,
            (Some(1706), Some(681)),
        ),
        (
            HASHED,
            "SELECT t.a FROM t, u WHERE t.a = u.a",
            SPREAD,
            5,
            (Some(603), Some(153)),
        ),
        (
            HASHED,
            "SELECT t.a FROM t, u WHERE t.a = u.a",
            MERGE_JOINS,
            6,
            (Some(2106), Some(581)),
        ),
        (HASHED, "SELECT t.a FROM t, u", MERGE_JOINS, 5, (None, None)),
        (
            ALIKE,
            "SELECT t.a FROM t, u, v WHERE t.a = u.a AND u.a = v.a",
            PLAIN,
            6,
            (Some(1306), Some(481)),
        ),
        (
            UNLINKED,
            "SELECT t.a FROM t, u, v",
            PLAIN,
            8,
            (Some(77), Some(64)),
        ),
        (
            ONE_TABLE,
            "SELECT COUNT(*) FROM t",
            PLAIN,
            6,
            (Some(309), Some(96)),
        ),
        (ONE_TABLE, "SELECT COUNT(*) FROM t", SPREAD, 6, (None, None)),
        (
            INDEXED,
            "SELECT a, COUNT(*) FROM t GROUP BY a",
            PLAIN,
            4,
            (Some(503), Some(278)),
        ),
        (
            ONE_TABLE,
            "SELECT b, COUNT(*) AS n FROM t GROUP BY b ORDER BY n DESC",
            PLAIN,
            6,
            (Some(395), Some(180)),
        ),
        (
            ONE_TABLE,
            "SELECT b FROM t GROUP BY b ORDER BY b",
            STREAM_AGGREGATIONS,
            7,
            (Some(375), Some(201)),
        ),
        (
            HASHED,
            "SELECT t.a, COUNT(*) FROM t, u WHERE t.a = u.a GROUP BY t.a",
            PLAIN,
            5,
            (Some(1105), Some(430)),
        ),
    ];
    for segments in [1u32, 4] {
        for (tables, text, options, most, costs) in cases {
            let cost = if segments == 1 { costs.0 } else { costs.1 };
            let (least, of_all) = both_of(rt.alloc(), segments, tables, text, options, most)?;
            assert!(rt;
                cost_of(&least) == cost && least == of_all,
                "{segments} {text}"
            );
        }
    }
    Ok(())
}

// Whether the search with these rules off finds what the listing finds, at no less than a cost.
fn agrees_without(
    alloc: Global,
    tables: &str,
    text: &str,
    off: u32,
    most: usize,
    least: u64,
) -> Result<bool, Fail> {
    let options = Options {
        root: RootDist::One,
        off,
    };
    let (found, listed) = both_of(alloc, 4, tables, text, options, most)?;
    let costs_no_less = match &found {
        Some(ranked) => ranked.cost >= least,
        None => true,
    };
    Ok(costs_no_less && found == listed)
}

// Each case has the greatest number of nodes that are listed, and the cost with all rules on.
#[test]
fn there_is_no_plan_without_some_rules_where_none_is_listed(rt: HostRuntime) -> Result<(), Fail> {
    let cases = [
        (INDEXED, "SELECT a FROM t WHERE a = 5 ORDER BY b", 4, 9),
        (SMALL, "SELECT t.a FROM t, u WHERE t.a = u.b", 7, 0),
        (ONE_TABLE, "SELECT COUNT(*) FROM t", 5, 96),
        (INDEXED, "SELECT a, COUNT(*) FROM t GROUP BY a", 5, 278),
    ];
    for first in 2..15u32 {
        for second in first..15u32 {
            let off = 1 << first | 1 << second;
            for (tables, text, most, least) in cases {
                let agrees = agrees_without(rt.alloc(), tables, text, off, most, least)?;
                assert!(rt; agrees, "{first} {second} {text}");
            }
        }
    }
    Ok(())
}
