//! A walk over a plan, as an executor makes its operators of it.
use planner::{
    Enforcer, LeastPlan, NodeKind, Physical, PhysicalExpr, PlanColumn, PlanNode, Query, table_in,
};
use std::alloc::{AllocError, Global};
use std::io;

/// Prints each node with the rows of its group and its own cost, a node before those below it.
pub fn visit(rt: &impl Print, alloc: Global, plan: &LeastPlan) -> io::Result<()> {
    for node in plan.nodes.as_slice() {
        show(rt, alloc, &plan.query, node)?;
    }
    Ok(())
}

fn show(rt: &impl Print, alloc: Global, query: &Query, node: &PlanNode) -> io::Result<()> {
    let (operator, table) = match node.operator {
        NodeKind::Enforcer(enforcer) => (enforcer_name(enforcer), ""),
        NodeKind::Native(expr, _) => operator_name(query, expr),
    };
    let indent = indent(alloc, node.depth)?;
    let columns = names(alloc, node.columns.as_slice())?;
    let (rows, cost) = (node.rows, node.cost);
    println!(rt; "{indent}{operator}{table}{columns}: {rows} rows, cost {cost}")
}

// Two spaces for each node above.
fn indent(alloc: Global, depth: usize) -> Result<String, AllocError> {
    let mut spaces = String::new(alloc);
    for _ in 0..depth {
        spaces.push_str("  ")?;
    }
    Ok(spaces)
}

// The columns by which a node works, if it has any.
fn names(alloc: Global, columns: &[PlanColumn]) -> Result<String, AllocError> {
    let mut text = String::new(alloc);
    let mut before = " (";
    for column in columns {
        text.push_str(before)?;
        text.push_str(column.name.as_str())?;
        before = ", ";
    }
    if !columns.is_empty() {
        text.push_str(")")?;
    }
    Ok(text)
}

// An executor makes an operator of its own here, of the columns of the node.
fn enforcer_name(enforcer: Enforcer) -> &'static str {
    match enforcer {
        Enforcer::Gather => "receive from all segments",
        Enforcer::Broadcast => "copy to all segments",
        Enforcer::Sort(_) => "sort",
        Enforcer::GatherMerge(_) => "merge from all segments",
        Enforcer::Redistribute(_) => "send by hash",
    }
}

// And here one of the groups that the expression stands on. What is read has the name of its table.
fn operator_name(query: &Query, expr: PhysicalExpr) -> (&'static str, &str) {
    match expr.operator {
        Physical::Scan => ("read ", table_name(query, expr)),
        Physical::IndexScan(_) => ("read by an index ", table_name(query, expr)),
        Physical::IndexSeek(_) => ("seek in an index of ", table_name(query, expr)),
        Physical::Filter(_) => ("filter ", table_name(query, expr)),
        Physical::HashJoin(_, _) => ("hash join", ""),
        Physical::MergeJoin(_, _) => ("merge join", ""),
        Physical::LoopJoin(_, _) => ("loop join", ""),
        Physical::HashAgg(_) => ("aggregate by hash", ""),
        Physical::StreamAgg(_) => ("aggregate in order", ""),
        Physical::PartialAgg(_) => ("aggregate on each segment", ""),
    }
}

fn table_name(query: &Query, expr: PhysicalExpr) -> &str {
    match query.tables.as_slice().get(table_in(expr.group) as usize) {
        Some(table) => table.alias.as_str(),
        None => "",
    }
}
