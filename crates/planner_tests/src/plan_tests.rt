//! Small queries on 4 segments, by one worker and by crews.

ghost use Rattle.planner.specs.Settings.{AreSettings};

use planner::{
    BindFault, LeastPlan, Options, PlanFault, PlanNode, Planned, RootDist, Settings, SqlFault,
    plan_sql, plan_sql_by_crew, read_catalog,
};
use std::alloc::{AllocError, Global};
use std::sync::Wait;
use std::test::Fail;
use std::thread::Threads;

const TWO_TABLES: &str =
    r#"[{"name":"T1","rows":1000,"distribution":["a"],"columns":[{"name":"a","ndv":1000}]},
{"name":"T2","rows":1000,"distribution":["a"],"columns":[{"name":"a","ndv":1000},{"name":"b","ndv":500}]}]"#;

const INDEXED: &str = r#"[{"name":"t","rows":1000,"distribution":"random",
"columns":[{"name":"a","ndv":1000},{"name":"b","ndv":10}],"indexes":[["a","b"]]}]"#;

const HASHED: &str = r#"[{"name":"t","rows":1000,"distribution":["a"],
"columns":[{"name":"a","ndv":100},{"name":"b","ndv":10}]}]"#;

const JOIN: &str = "SELECT T1.a FROM T1, T2 WHERE T1.a = T2.b ORDER BY T1.a";

const JOINED: &str = "cost 7506
0 GatherMerge(T1.a) rows=1000 cost=3001 over 1 by T1.a
1 Sort(T1.a) rows=1000 cost=2001 over 1 by T1.a
2 HashJoin(colocated p0) rows=1000 cost=1001 over 2 by T1.a T2.b
3 Scan(T1) rows=1000 cost=251 over 0 by
3 Redistribute(T2.b) rows=1000 cost=1001 over 1 by T2.b
4 Scan(T2) rows=1000 cost=251 over 0 by
";

fn push_node(alloc: Global, node: &PlanNode, text: &mut String) -> Result<(), AllocError> {
    let (depth, name, children) = (node.depth, node.text.as_str(), node.children);
    let (rows, cost) = (node.rows, node.cost);
    let line = format!(in alloc; "{depth} {name} rows={rows} cost={cost} over {children} by")?;
    text.push_str(&line)?;
    for column in node.columns.as_slice() {
        text.push_str(" ")?;
        text.push_str(column.name.as_str())?;
        if column.descending {
            text.push_str(" DESC")?;
        }
    }
    text.push_str("\n")
}

fn plan_lines(alloc: Global, plan: &LeastPlan) -> Result<String, AllocError> {
    let cost = plan.cost;
    let mut text = format!(in alloc; "cost {cost}\n")?;
    for node in plan.nodes.as_slice() {
        push_node(alloc, node, &mut text)?;
    }
    Ok(text)
}

fn fault_name(fault: PlanFault) -> &'static str {
    match fault {
        PlanFault::Syntax(SqlFault::Token { .. }) => "token",
        PlanFault::Syntax(SqlFault::Grammar { .. }) => "grammar",
        PlanFault::Syntax(SqlFault::TooMany { .. }) => "too many",
        PlanFault::Syntax(_) => "no query",
        PlanFault::Binding(BindFault::UnknownTable { .. }) => "unknown table",
        PlanFault::Binding(BindFault::TwiceAlias { .. }) => "name twice",
        PlanFault::Binding(BindFault::UnknownColumn { .. }) => "unknown column",
        PlanFault::Binding(BindFault::Ambiguous { .. }) => "ambiguous column",
        PlanFault::Binding(BindFault::NotGrouped { .. }) => "not grouped",
        PlanFault::Binding(_) => "too many columns",
        PlanFault::Limits(_) => "too many lists or orders",
        PlanFault::Memory => "memory",
    }
}

// The lines of what planning gave.
fn lines_of(alloc: Global, outcome: Result<Planned, PlanFault>) -> Result<String, AllocError> {
    match outcome {
        Ok(Planned::Least(plan)) => plan_lines(alloc, &plan),
        Ok(Planned::NoPlan) => String::from_str(alloc, "no plan\n"),
        Ok(Planned::TooManyEntries { capacity }) => format!(in alloc; "more than {capacity}\n"),
        Err(fault) => {
            let name = fault_name(fault);
            match fault.place() {
                Some(at) => format!(in alloc; "{name} at {at}\n"),
                None => format!(in alloc; "{name}\n"),
            }
        }
    }
}

// Whether one worker, and crews of one and of eight, tell these lines of the query.
fn tell<R: Threads + Wait + Sync>(
    rt: &R,
    alloc: Global,
    tables: &str,
    settings: Settings,
    query: &str,
    lines: &str,
) -> Result<bool, Fail>
    requires { AreSettings settings }
{
    let json = format!(in alloc; "{{\"version\":1,\"segments\":4,\"tables\":{tables}}}")?;
    let catalog = read_catalog(alloc, json.as_bytes())?;
    let text = query.as_bytes();
    let alone = lines_of(alloc, plan_sql(alloc, &catalog, settings, text))?;
    let by_one = plan_sql_by_crew(rt, alloc, &catalog, settings, 1, text);
    let by_eight = plan_sql_by_crew(rt, alloc, &catalog, settings, 8, text);
    Ok(
        alone.as_str() == lines
            && lines_of(alloc, by_one)?.as_str() == lines
            && lines_of(alloc, by_eight)?.as_str() == lines,
    )
}

#[test]
fn a_plan_is_told_node_by_node(rt: HostRuntime) -> Result<(), Fail> {
    assert!(rt; tell(&rt, rt.alloc(), TWO_TABLES, Settings::usual(), JOIN, JOINED)?);
    Ok(())
}

#[test]
fn columns_are_those_of_an_index_an_order_and_a_grouping(rt: HostRuntime) -> Result<(), Fail> {
    for (tables, query, lines) in [
        (
            INDEXED,
            "SELECT a FROM t ORDER BY a",
            "cost 3502
0 GatherMerge(t.a) rows=1000 cost=3001 over 1 by t.a
1 IndexScan(t, i0) rows=1000 cost=501 over 0 by t.a t.b
",
        ),
        (
            INDEXED,
            "SELECT a FROM t ORDER BY a DESC, b",
            "cost 5253
0 GatherMerge(t.a DESC, t.b) rows=1000 cost=3001 over 1 by t.a DESC t.b
1 Sort(t.a DESC, t.b) rows=1000 cost=2001 over 1 by t.a DESC t.b
2 Scan(t) rows=1000 cost=251 over 0 by
",
        ),
        (
            HASHED,
            "SELECT a, SUM(b) AS s FROM t GROUP BY a ORDER BY s",
            "cost 1204
0 GatherMerge(s) rows=100 cost=301 over 1 by SUM(t.b)
1 Sort(s) rows=100 cost=126 over 1 by SUM(t.b)
2 HashAgg(hashed t.a) rows=100 cost=526 over 1 by t.a
3 Scan(t) rows=1000 cost=251 over 0 by
",
        ),
    ] {
        let told = tell(&rt, rt.alloc(), tables, Settings::usual(), query, lines)?;
        assert!(rt; told, "{query}");
    }
    Ok(())
}

#[test]
fn a_query_with_79_entries_fits_in_79(rt: HostRuntime) -> Result<(), Fail> {
    let options = Settings::usual().options;
    let just = Settings {
        options,
        capacity: 79,
    };
    let fewer = Settings {
        options,
        capacity: 78,
    };
    assert!(rt; tell(&rt, rt.alloc(), TWO_TABLES, just, JOIN, JOINED)?);
    assert!(rt; tell(&rt, rt.alloc(), TWO_TABLES, fewer, JOIN, "more than 78\n")?);
    Ok(())
}

#[test]
fn a_count_on_the_segments_has_no_plan(rt: HostRuntime) -> Result<(), Fail> {
    let settings = Settings {
        options: Options {
            root: RootDist::Spread,
            off: 0,
        },
        capacity: 131_072,
    };
    let query = "SELECT COUNT(*) FROM t";
    assert!(rt; tell(&rt, rt.alloc(), HASHED, settings, query, "no plan\n")?);
    Ok(())
}

#[test]
fn faults_are_told_with_their_places(rt: HostRuntime) -> Result<(), Fail> {
    for (query, lines) in [
        ("", "grammar at 0\n"),
        ("SELECT a FROM T1 WHERE a = 'x", "token at 27\n"),
        ("SELECT a FROM t,t,t,t,t,t,t,t,t,t,t", "too many at 34\n"),
        ("SELECT x FROM T9", "unknown table at 14\n"),
        ("SELECT T1.a FROM T1, T2 AS T1", "name twice at 27\n"),
        ("SELECT T1.z FROM T1", "unknown column at 7\n"),
        ("SELECT a FROM T1, T2", "ambiguous column at 7\n"),
        ("SELECT T2.b FROM T2 GROUP BY T2.a", "not grouped at 7\n"),
    ] {
        let told = tell(&rt, rt.alloc(), TWO_TABLES, Settings::usual(), query, lines)?;
        assert!(rt; told, "{query}");
    }
    Ok(())
}
