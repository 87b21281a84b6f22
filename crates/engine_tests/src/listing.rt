//! All valid plans of a query up to a number of nodes: each member in each of its modes and each enforcer, over all
//! smaller valid plans.
ghost use Rattle.request_props.specs.Numbered.{IsProps};
ghost use Rattle.plan_tree.specs.Nodes.{EnforcerInRange};

use crate::ranked::{Ranked, rank_of};
use plan_check::{PlanFault, check_plan};
use plan_space::{Enforcer, MODES_END, NodeKind, root_request_fits, root_request_is_collected};
use plan_tree::{Node, Plan, line_of};
use query_core::{Children, Expr, KeyParts, PhysicalExpr, Query};
use request_props::Props;
use std::alloc::{AllocError, Global};

// A valid plan, and the group whose rows it has.
#[derive(Drop)]
struct Listed {
    plan: Plan,
    group: KeyParts,
}

// What may stand at the root of a plan: physical members in their modes, and enforcers.
#[derive(Drop)]
struct Roots {
    natives: Vec<(PhysicalExpr, Node)>,
    enforcers: Vec<Node>,
}

fn enforced(enforcer: Enforcer) -> Node
    requires { EnforcerInRange enforcer }
{
    Node::make(NodeKind::Enforcer(enforcer))
}

/// The least of the plans of at most so many nodes, over the members of these words.
pub fn least_listed(
    alloc: Global,
    query: &Query,
    props: &Props,
    members: &[u64],
    most: usize,
) -> Result<Option<Ranked>, AllocError>
    requires { IsProps query.now props.now }
{
    let roots = roots_of(alloc, query, props, members)?;
    let mut sizes = Vec::new(alloc);
    for _ in 0..most {
        let found = larger(alloc, query, props, &roots, &sizes, most)?;
        sizes.push(found)?;
    }
    least_of(alloc, query, props, &sizes)
}

// The least of the plans of the whole query that give what is asked of it.
fn least_of(
    alloc: Global,
    query: &Query,
    props: &Props,
    sizes: &[Vec<Listed>],
) -> Result<Option<Ranked>, AllocError>
    requires { IsProps query.now props.now }
{
    let root = query.root().parts();
    let mut least: Option<Ranked> = None;
    for plans in sizes.iter() {
        for listed in plans.iter() {
            if Some(listed.group) == root {
                if let Ok(cost) = checked(query, props, &listed.plan) {
                    let another = rank_of(alloc, &listed.plan, cost)?;
                    let is_less = match &least {
                        Some(so_far) => another.is_less(so_far),
                        None => true,
                    };
                    if is_less {
                        least = Some(another);
                    }
                }
            }
        }
    }
    Ok(least)
}

fn roots_of(
    alloc: Global,
    query: &Query,
    props: &Props,
    members: &[u64],
) -> Result<Roots, AllocError>
    requires { IsProps query.now props.now }
{
    let mut natives = Vec::new(alloc);
    for word in members {
        let Some(parts) = Expr(*word).parts() else {
            continue;
        };
        if let Some(expr) = parts.as_physical() {
            for mode in 0..MODES_END {
                if line_of(query, props, expr, mode).is_some() {
                    natives.push((expr, Node::make(NodeKind::Native(expr, mode))))?;
                }
            }
        }
    }
    let mut enforcers = vec![in alloc; enforced(Enforcer::Gather), enforced(Enforcer::Broadcast)]?;
    for order in 1..61u32 {
        if props.has_order(query, order) {
            enforcers.push(enforced(Enforcer::Sort(order)))?;
            enforcers.push(enforced(Enforcer::GatherMerge(order)))?;
        }
    }
    for list in 0..60u32 {
        if props.has_list(query, list) {
            enforcers.push(enforced(Enforcer::Redistribute(list)))?;
        }
    }
    Ok(Roots { natives, enforcers })
}

// What the check says of the plan for what is asked of the whole.
fn checked(query: &Query, props: &Props, plan: &Plan) -> Result<u64, PlanFault>
    requires { IsProps query.now props.now }
{
    // For the proof: what is asked of the whole is a request of the query.
    root_request_fits();
    root_request_is_collected();
    check_plan(query, props, plan, props.root)
}

// Keeps the plan where it is valid, whatever it gives.
fn keep(
    query: &Query,
    props: &Props,
    found: &mut Vec<Listed>,
    plan: Plan,
    group: KeyParts,
) -> Result<(), AllocError>
    requires { IsProps query.now props.now }
{
    match checked(query, props, &plan) {
        Ok(_) => found.push(Listed { plan, group })?,
        Err(PlanFault::Unsatisfied) => found.push(Listed { plan, group })?,
        Err(_) => {}
    }
    Ok(())
}

fn over(alloc: Global, node: Node, kid: &Listed) -> Result<Plan, AllocError> {
    Ok(Plan::Over(node, Box::new(alloc, kid.plan.copy(alloc)?)?))
}

fn two(alloc: Global, node: Node, left: &Listed, right: &Listed) -> Result<Plan, AllocError> {
    Ok(Plan::Two(
        node,
        Box::new(alloc, left.plan.copy(alloc)?)?,
        Box::new(alloc, right.plan.copy(alloc)?)?,
    ))
}

// How many nodes a plan of the whole has at least beside one of the group: for each other table a
// leaf and a join, and an aggregation where the query is grouped.
fn beside(query: &Query, group: KeyParts) -> usize {
    let tables = match group {
        KeyParts::Get(_) => 1,
        KeyParts::Filter(_) => 1,
        KeyParts::Join(set) => set.count_ones() as usize,
        KeyParts::Partial => return 0,
        KeyParts::Agg => return 0,
    };
    let others = query.tables.len().saturating_sub(tables).saturating_mul(2);
    others.saturating_add(if query.grouped { 1 } else { 0 })
}

// The valid plans of one node more, where smaller has those of each number of nodes, from 1 on; without
// those for which a plan of the whole of at most so many nodes has no room.
fn larger(
    alloc: Global,
    query: &Query,
    props: &Props,
    roots: &Roots,
    smaller: &[Vec<Listed>],
    most: usize,
) -> Result<Vec<Listed>, AllocError>
    requires { IsProps query.now props.now }
{
    let mut found = Vec::new(alloc);
    for (expr, node) in roots.natives.iter() {
        if smaller.len().saturating_add(beside(query, expr.group)) >= most {
            continue;
        }
        match (expr.children(), smaller.split_last()) {
            (Children::Zero, None) => keep(
                query,
                props,
                &mut found,
                Plan::Leaf(*node),
                expr.group,
            )?,
            (Children::One(child), Some((kids, _))) => {
                for kid in kids.iter() {
                    if kid.group == child {
                        let plan = over(alloc, *node, kid)?;
                        keep(query, props, &mut found, plan, expr.group)?;
                    }
                }
            }
            (Children::Two(left, right), Some((_, others))) => {
                // The left plan and the right one have all nodes together but the root.
                for (lefts, rights) in others.iter().zip(others.iter().rev()) {
                    for first in lefts.iter() {
                        for second in rights.iter() {
                            if first.group == left && second.group == right {
                                let plan = two(alloc, *node, first, second)?;
                                keep(query, props, &mut found, plan, expr.group)?;
                            }
                        }
                    }
                }
            }
            _ => {}
        }
    }
    if let Some((kids, _)) = smaller.split_last() {
        for kid in kids.iter() {
            if smaller.len().saturating_add(beside(query, kid.group)) >= most {
                continue;
            }
            for node in roots.enforcers.iter() {
                keep(
                    query,
                    props,
                    &mut found,
                    over(alloc, *node, kid)?,
                    kid.group,
                )?;
            }
        }
    }
    Ok(found)
}
