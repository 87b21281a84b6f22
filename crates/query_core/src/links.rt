//! The links of a query: those of its predicates, and those that join the rest to table 0.
#![tactic(auto)]

ghost use Rattle.std.specs.Prelude.{ℕ, List, ◌≡◌, ◌<◌, ◌≤◌, ◌^◌, IsTrue, ◌↔◌, IfOk, length};
ghost use Rattle.query_core.specs.Tables.{AreTables};
ghost use Rattle.query_core.specs.Items.{AreItems};
ghost use Rattle.query_core.specs.declared.predicate.Link.{Link};
ghost use Rattle.query_core.specs.declared.predicate.Pred.{Pred};
ghost use Rattle.query_core.specs.declared.table.Item.{Item};
ghost use Rattle.query_core.specs.declared.table.QueryTable.{QueryTable};
ghost use Rattle.query_core.specs.Links.{AreLinks, AddsTrueLinks, StartsComponent, JoinsComponents};
ghost use Rattle.query_core.specs.Links.{link_of as the_link_of, predicate_links as the_predicate_links};
ghost use Rattle.query_core.specs.Links.{right_table as the_right_table, table_of as the_table_of};
ghost use Rattle.query_core.specs.Links.{link_between as the_link_between};

use crate::connected::reached;
use crate::predicate::{Link, Operand, Pred};
use crate::sets::{first, least};
use crate::table::{Item, QueryTable};
use orca_base::List;
use std::alloc::{AllocError, Global};

/// The links that these tables, items and predicates have in a query.
pub fn links_of(
    alloc: Global,
    tables: &[QueryTable],
    items: &[Item],
    preds: &[Pred],
) -> Result<List<Link>, AllocError>
    requires tables { AreTables tables.now }
    requires items { AreItems tables.now items.now }
    ensures { IfOk result (λ links. AreLinks tables.now items.now preds.now links) }
{
    let made = predicate_links(alloc, items, preds)?;
    let links = with_true_links(alloc, tables.len() as u32, &made)?;
    Ok(List::of(links))
}

/// The links are determined by the tables, the items and the predicates.
pub fn links_are_one()
    ensures links { (tables : List QueryTable) (items : List Item) (preds : List Pred) →
        (links others : List Link) → AreLinks tables items preds links →
        AreLinks tables items preds others → others ≡ links }
    ensures joined { (tables : List QueryTable) (items : List Item) (preds : List Pred) →
        (links : List Link) → AreLinks tables items preds links →
        JoinsComponents (length tables) (the_predicate_links items preds) links }
{}

fn predicate_links(alloc: Global, items: &[Item], preds: &[Pred]) -> Result<Vec<Link>, AllocError>
    ensures { IfOk result (λ made. made.items ≡ the_predicate_links items.now preds.now) }
{
    let mut made = Vec::new(alloc);
    for pred in preds {
        if let Some(link) = link_of(items, pred) {
            made.push(link)?;
        }
    }
    Ok(made)
}

fn link_of(items: &[Item], pred: &Pred) -> Option<Link>
    ensures { result ≡ the_link_of items.now pred.now }
{
    link_between(table_of(items, pred.left), right_table(items, &pred.right))
}

fn link_between(left: Option<u32>, right: Option<u32>) -> Option<Link>
    ensures { result ≡ the_link_between left right }
{
    match (left, right) {
        (Some(a), Some(b)) if a != b => Some(Link { a, b }),
        _ => None,
    }
}

fn right_table(items: &[Item], operand: &Operand) -> Option<u32>
    ensures { result ≡ the_right_table items.now operand.now }
{
    match operand {
        Operand::Item(number) => table_of(items, *number),
        Operand::Int(_) => None,
        Operand::Str(_) => None,
    }
}

fn table_of(items: &[Item], number: u32) -> Option<u32>
    ensures { result ≡ the_table_of items.now number }
{
    match items.get(number as usize) {
        Some(item) => Some(item.table),
        None => None,
    }
}

/// The links and, after them, the TRUE links that they want.
fn with_true_links(alloc: Global, count: u32, made: &[Link]) -> Result<Vec<Link>, AllocError>
    requires few { count ≤ 10 }
    ensures { IfOk result (λ links.
        AddsTrueLinks (StartsComponent count made.now) made.now links.items) }
{
    let mut links = Vec::from_slice(alloc, made)?;
    for table in 1..count {
        if starts_component(made, count, table) {
            links.push(Link { a: 0, b: table })?;
        }
    }
    Ok(links)
}

/// Whether a TRUE link joins table 0 with this one.
fn starts_component(made: &[Link], count: u32, table: u32) -> bool
    requires few { count ≤ 10 }
    requires not_first { 0 < table }
    requires there { table < count }
    ensures { IsTrue result ↔ StartsComponent count made.now table }
{
    match least(reached(made, first(count), table)) {
        Some(found) => found == table,
        None => false,
    }
}
