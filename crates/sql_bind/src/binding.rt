//! Binding: a select and a catalogue give a query, or the first fault.
ghost use Rattle.std.specs.Prelude.{◌≡◌, Ok, IfOk};
ghost use Rattle.query_core.specs.Catalog.{IsCatalog};
ghost use Rattle.query_core.specs.Results.{AreOptions};
ghost use Rattle.sql_bind.specs.Grouping.{judged};
ghost use Rattle.sql_bind.specs.NamedParts.{AreNamed};
ghost use Rattle.sql_bind.specs.Used.{used_by as the_used_by};
ghost use Rattle.sql_reader.specs.Readable.{IsReadable};
ghost use Rattle.sql_bind.specs.Binding.{IsQueryOf, Binds};

use crate::fault::BindFault;
use crate::grouping::{is_grouped, judge};
use crate::numbers::UsedColumns;
use crate::order::{group_of, order_of};
use crate::parts::{Parts, parts_of};
use crate::query::{aggs_of, items_of, outputs_of, preds_of, tables_of};
use crate::used::used_by;
use query_core::{Catalog, Options, Query, links_of};
use sql_reader::Select;
use std::alloc::{AllocError, Global};

/// The query of these parts.
fn query_of(
    alloc: Global,
    select: &Select,
    catalog: &Catalog,
    parts: &Parts<'_>,
    used: &UsedColumns<'_>,
    options: Options,
) -> Result<Query, AllocError>
    requires named { AreNamed select.now catalog.now options parts.now }
    requires judged { judged parts.now ≡ Ok parts.now }
    requires used { used.now ≡ the_used_by parts.now }
    ensures { IfOk result (IsQueryOf parts.now catalog.now options) }
{
    let tables = tables_of(alloc, used, parts.scope.as_slice())?;
    let items = items_of(alloc, used.as_slice())?;
    let preds = preds_of(alloc, used, parts.compared.as_slice())?;
    let links = links_of(alloc, tables.as_slice(), items.as_slice(), preds.as_slice())?;
    let group_by = group_of(alloc, used, parts.group.as_slice())?;
    let aggs = aggs_of(alloc, used, parts.chosen.as_slice())?;
    let output = outputs_of(alloc, used, parts.chosen.as_slice())?;
    let order = order_of(alloc, used, parts.keys.as_slice())?;
    Ok(Query {
        segments: catalog.segments,
        tables,
        items,
        preds,
        links,
        grouped: is_grouped(parts),
        group_by,
        aggs,
        output,
        order,
        options,
    })
}

/// The query of these parts, or why they are refused.
fn query_over(
    alloc: Global,
    select: &Select,
    catalog: &Catalog,
    parts: &Parts<'_>,
    used: &UsedColumns<'_>,
    options: Options,
) -> Result<Query, BindFault>
    requires named { AreNamed select.now catalog.now options parts.now }
    requires used { used.now ≡ the_used_by parts.now }
    ensures { Binds select.now catalog.now options result }
{
    judge(parts, used)?;
    Ok(query_of(alloc, select, catalog, parts, used, options)?)
}

/// The query of these parts, whose used columns are found first.
fn judged_query(
    alloc: Global,
    select: &Select,
    catalog: &Catalog,
    parts: &Parts<'_>,
    options: Options,
) -> Result<Query, BindFault>
    requires { AreNamed select.now catalog.now options parts.now }
    ensures { Binds select.now catalog.now options result }
{
    let used = used_by(alloc, parts)?;
    query_over(alloc, select, catalog, parts, &used, options)
}

/// Binds a query that was read to a catalogue that was read. Places in faults are offsets in the
/// query's text.
pub fn bind(
    alloc: Global,
    select: &Select,
    catalog: &Catalog,
    options: Options,
) -> Result<Query, BindFault>
    requires readable { IsReadable select.now }
    requires catalogue { IsCatalog catalog.now }
    requires options { AreOptions options }

    // The query that the names stand for, or the first fault.
    ensures { Binds select.now catalog.now options result }
{
    let parts = parts_of(alloc, select, catalog)?;
    judged_query(alloc, select, catalog, &parts, options)
}
