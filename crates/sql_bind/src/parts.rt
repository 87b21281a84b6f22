//! The parts of a query over columns, before these are numbered.
ghost use Rattle.std.specs.Prelude.{◌≡◌, ◌≢◌, ◌≤◌, Ok, Err, IfOk, IfErr, length};
ghost use Rattle.query_core.specs.Catalog.{IsCatalog};
ghost use Rattle.query_core.specs.declared.catalog.Catalog.{Catalog};
ghost use Rattle.sql_bind.specs.Steps.{Yields};
ghost use Rattle.sql_bind.specs.Scope.{scope_of as the_scope_of};
ghost use Rattle.sql_bind.specs.Columns.{columns_of as the_columns_of};
ghost use Rattle.sql_bind.specs.SelectList.{chosen_of as the_chosen_of};
ghost use Rattle.sql_bind.specs.Conditions.{compared_of as the_compared_of};
ghost use Rattle.sql_bind.specs.SortKeys.{keys_of as the_keys_of};
ghost use Rattle.sql_bind.specs.Parts.{parts_of as the_parts_of};

use crate::columns::{Column, columns_of};
use crate::conditions::{Compared, compared_of};
use crate::fault::BindFault;
use crate::scope::{ScopeTable, scope_of};
use crate::select_list::{Chosen, chosen_of};
use crate::sort_keys::{SortKey, keys_of};
use orca_base::List;
use query_core::Catalog;
use sql_reader::Select;
use std::alloc::Global;

/// A query whose names are looked up.
#[derive(Drop)]
pub struct Parts<'a> {
    pub scope: List<ScopeTable<'a>>,
    pub chosen: List<Chosen<'a>>,
    pub compared: List<Compared<'a>>,
    pub group: List<Column>,
    pub keys: List<SortKey>,
}

/// WHERE, GROUP BY and ORDER BY over the tables and the select list.
#[derive(Drop)]
struct Clauses<'a> {
    compared: List<Compared<'a>>,
    group: List<Column>,
    keys: List<SortKey>,
}

#[tactic(auto, unfolding(crate::specs::Parts::parts_of))]
fn clauses_of<'a>(
    alloc: Global,
    select: &'a Select,
    sources: &[ScopeTable<'_>],
    chosen: &[Chosen<'_>],
) -> Result<Clauses<'a>, BindFault>
    ensures compared { IfOk result (λ c. the_compared_of sources.now select.now.preds ≡ Ok c.compared) }
    ensures group { IfOk result (λ c. the_columns_of sources.now select.now.group_by ≡ Ok c.group) }
    ensures keys { IfOk result (λ c. the_keys_of sources.now chosen.now select.now.order_by ≡ Ok c.keys) }
    ensures err { IfErr result (λ fault. (catalog : Catalog)
        → the_scope_of catalog select.now.from ≡ Ok sources.now
        → the_chosen_of sources.now select.now.items ≡ Ok chosen.now
        → fault ≢ BindFault.Memory → the_parts_of select.now catalog ≡ Err fault) }
{
    Ok(Clauses {
        compared: compared_of(alloc, sources, select.preds.as_slice())?,
        group: columns_of(alloc, sources, select.group_by.as_slice())?,
        keys: keys_of(alloc, sources, chosen, select.order_by.as_slice())?,
    })
}

/// Looks up the names of a query: first those of FROM, then the others in text order.
#[tactic(auto, unfolding(crate::specs::Parts::parts_of))]
pub fn parts_of<'a>(
    alloc: Global,
    select: &'a Select,
    catalog: &'a Catalog,
) -> Result<Parts<'a>, BindFault>
    requires catalogue { IsCatalog catalog.now }
    requires few { length select.now.items ≤ 60 }
    ensures { Yields (the_parts_of select.now catalog.now) result }
{
    let scope = scope_of(alloc, catalog, select.from.as_slice())?;
    let chosen = chosen_of(alloc, scope.as_slice(), select.items.as_slice())?;
    let Clauses {
        compared,
        group,
        keys,
    } = clauses_of(alloc, select, scope.as_slice(), chosen.as_slice())?;
    Ok(Parts {
        scope,
        chosen,
        compared,
        group,
        keys,
    })
}
