//! The parts of the query over numbered items.
ghost use Rattle.std.specs.Prelude.{◌≡◌, ◌≤◌, ◌++◌, ◌∷◌, [], IfOk, OnOk, length, option_map, option_to_list, nat_le};
ghost use Rattle.std.specs.Prelude.{IsTrue};
ghost use Rattle.std.specs.List.{list_all};
ghost use Rattle.sql_bind.specs.Numbers.{column_number};
ghost use Rattle.sql_bind.specs.Query.{item_of as the_item_of, items_of as the_items_of, hashed_of as the_hashed_of};
ghost use Rattle.sql_bind.specs.Query.{is_replicated as the_is_replicated, indexes_of as the_indexes_of};
ghost use Rattle.sql_bind.specs.Query.{table_of as the_table_of, tables_from as the_tables_from};
ghost use Rattle.sql_bind.specs.Query.{operand_of as the_operand_of, pred_of as the_pred_of, preds_of as the_preds_of};
ghost use Rattle.sql_bind.specs.Query.{agg_of as the_agg_of, aggs_of as the_aggs_of, output_of as the_output_of};
ghost use Rattle.sql_bind.specs.Query.{outputs_of as the_outputs_of};

use crate::columns::Column;
use crate::conditions::{Compared, Side};
use crate::numbers::{UsedColumns, numbers_of, target_number};
use crate::scope::ScopeTable;
use crate::select_list::{Chosen, What};
use crate::sort_keys::target_of;
use crate::used::Used;
use crate::written::Written;
use orca_base::{List, Text};
use query_core::{Agg, Histogram, Item, Operand, OutItem, Placing, Pred, QueryTable};
use std::alloc::{AllocError, Global};

fn add_item(alloc: Global, used: &Used<'_>, items: &mut List<Item>) -> Result<(), AllocError>
    requires { used.now.which.table ≤ 10 }
    ensures { OnOk result (items.new ≡ items.old ++ the_item_of used.now ∷ []) }
{
    items.push(Item {
        table: used.column().table as u32,
        name: used.info().name.copy(alloc)?,
        ndv: used.info().ndv,
        histogram: copied(alloc, &used.info().histogram)?,
    })
}

fn copied(alloc: Global, histogram: &Option<Histogram>) -> Result<Option<Histogram>, AllocError>
    ensures { IfOk result (λ copied. copied ≡ histogram.now) }
{
    match histogram {
        Some(histogram) => Ok(Some(histogram.copy(alloc)?)),
        None => Ok(None),
    }
}

/// The used columns, as items.
pub fn items_of(alloc: Global, used: &[Used<'_>]) -> Result<List<Item>, AllocError>
    requires { IsTrue (list_all (λ u. nat_le u.which.table 10) used.now) }
    ensures { IfOk result (λ items. items ≡ the_items_of used.now) }
{
    let mut items = List::new(alloc);
    for column in used {
        add_item(alloc, column, &mut items)?;
    }
    Ok(items)
}

fn hashed_of(
    alloc: Global,
    used: &UsedColumns<'_>,
    table: usize,
    placing: &Placing,
) -> Result<Option<List<u32>>, AllocError>
    requires { length used.now ≤ 60 }
    ensures { IfOk result (λ hashed. hashed ≡ the_hashed_of used.now table placing.now) }
{
    match placing {
        Placing::Hashed(places) => Ok(Some(numbers_of(alloc, used, table, places.as_slice())?)),
        Placing::Random => Ok(None),
        Placing::Replicated => Ok(None),
    }
}

fn is_replicated(placing: &Placing) -> bool
    ensures { result ≡ the_is_replicated placing.now }
{
    match placing {
        Placing::Hashed(_) => false,
        Placing::Random => false,
        Placing::Replicated => true,
    }
}

fn indexes_of(
    alloc: Global,
    used: &UsedColumns<'_>,
    table: usize,
    indexes: &[List<u32>],
) -> Result<List<List<u32>>, AllocError>
    requires { length used.now ≤ 60 }
    ensures { IfOk result (λ numbered. numbered ≡ the_indexes_of used.now table indexes.now) }
{
    let mut numbered = List::new(alloc);
    for index in indexes {
        let numbers = numbers_of(alloc, used, table, index.as_slice())?;
        numbered.push(numbers)?;
    }
    Ok(numbered)
}

fn table_of(
    alloc: Global,
    used: &UsedColumns<'_>,
    table: usize,
    source: &ScopeTable<'_>,
) -> Result<QueryTable, AllocError>
    requires { length used.now ≤ 60 }
    ensures { IfOk result (λ made. made ≡ the_table_of used.now table source.now) }
{
    let info = source.info();
    Ok(QueryTable {
        alias: source.alias().copy(alloc)?,
        rows: info.rows,
        hashed: hashed_of(alloc, used, table, &info.placing)?,
        replicated: is_replicated(&info.placing),
        indexes: indexes_of(alloc, used, table, info.indexes.as_slice())?,
    })
}

/// The tables of FROM.
pub fn tables_of(
    alloc: Global,
    used: &UsedColumns<'_>,
    sources: &[ScopeTable<'_>],
) -> Result<List<QueryTable>, AllocError>
    requires { length used.now ≤ 60 }
    ensures { IfOk result (λ tables. tables ≡ the_tables_from used.now 0 sources.now) }
{
    let mut tables = List::new(alloc);
    let mut table = 0;
    for source in sources {
        let made = table_of(alloc, used, table, source)?;
        tables.push(made)?;
        table += 1;
    }
    Ok(tables)
}

fn operand_of(alloc: Global, used: &UsedColumns<'_>, side: &Side<'_>) -> Result<Operand, AllocError>
    requires { length used.now ≤ 60 }
    ensures { IfOk result (λ operand. operand ≡ the_operand_of used.now side.now) }
{
    match side {
        Side::Column(column) => Ok(Operand::Item(used.number_of_column(*column))),
        Side::Int(value) => Ok(Operand::Int(*value)),
        Side::Str(text) => Ok(Operand::Str(text.copy(alloc)?)),
    }
}

fn add_pred(
    alloc: Global,
    used: &UsedColumns<'_>,
    compared: &Compared<'_>,
    preds: &mut List<Pred>,
) -> Result<(), AllocError>
    requires { length used.now ≤ 60 }
    ensures { OnOk result (preds.new ≡ preds.old ++ the_pred_of used.now compared.now ∷ []) }
{
    preds.push(Pred {
        left: used.number_of_column(compared.left),
        op: compared.op,
        right: operand_of(alloc, used, &compared.right)?,
    })
}

/// The predicates.
pub fn preds_of(
    alloc: Global,
    used: &UsedColumns<'_>,
    compared: &[Compared<'_>],
) -> Result<List<Pred>, AllocError>
    requires { length used.now ≤ 60 }
    ensures { IfOk result (λ preds. preds ≡ the_preds_of used.now compared.now) }
{
    let mut preds = List::new(alloc);
    for comparison in compared {
        add_pred(alloc, used, comparison, &mut preds)?;
    }
    Ok(preds)
}

fn name_of(alloc: Global, name: &Option<Written<'_>>) -> Result<Option<Text>, AllocError>
    ensures { IfOk result (λ copied. copied ≡ name.now) }
{
    match name {
        Some(text) => Ok(Some(text.copy(alloc)?)),
        None => Ok(None),
    }
}

fn argument_of(used: &UsedColumns<'_>, arg: Option<Column>) -> Option<u32>
    requires { length used.now ≤ 60 }
    ensures { result ≡ option_map (column_number used.now) arg }
{
    match arg {
        Some(column) => Some(used.number_of_column(column)),
        None => None,
    }
}

/// Adds the element, if it is an aggregate.
fn add_agg(
    alloc: Global,
    used: &UsedColumns<'_>,
    chosen: &Chosen<'_>,
    aggs: &mut List<Agg>,
) -> Result<(), AllocError>
    requires { length used.now ≤ 60 }
    ensures { OnOk result (aggs.new ≡ aggs.old ++ option_to_list (the_agg_of used.now chosen.now)) }
{
    match chosen.what {
        What::Column { at: _, column: _ } => Ok(()),
        What::Aggregate {
            number: _,
            func,
            arg,
        } => aggs.push(Agg {
            func,
            arg: argument_of(used, arg),
            name: name_of(alloc, &chosen.name)?,
        }),
    }
}

/// The aggregates in text order.
pub fn aggs_of(
    alloc: Global,
    used: &UsedColumns<'_>,
    chosen: &[Chosen<'_>],
) -> Result<List<Agg>, AllocError>
    requires { length used.now ≤ 60 }
    ensures { IfOk result (λ aggs. aggs ≡ the_aggs_of used.now chosen.now) }
{
    let mut aggs = List::new(alloc);
    for element in chosen {
        add_agg(alloc, used, element, &mut aggs)?;
    }
    Ok(aggs)
}

fn add_output(
    alloc: Global,
    used: &UsedColumns<'_>,
    chosen: &Chosen<'_>,
    outputs: &mut List<OutItem>,
) -> Result<(), AllocError>
    requires { length used.now ≤ 60 }
    ensures { OnOk result (outputs.new ≡ outputs.old ++ the_output_of used.now chosen.now ∷ []) }
{
    outputs.push(OutItem {
        item: target_number(used, target_of(chosen.what)),
        name: name_of(alloc, &chosen.name)?,
    })
}

/// The output in text order.
pub fn outputs_of(
    alloc: Global,
    used: &UsedColumns<'_>,
    chosen: &[Chosen<'_>],
) -> Result<List<OutItem>, AllocError>
    requires { length used.now ≤ 60 }
    ensures { IfOk result (λ outputs. outputs ≡ the_outputs_of used.now chosen.now) }
{
    let mut outputs = List::new(alloc);
    for element in chosen {
        add_output(alloc, used, element, &mut outputs)?;
    }
    Ok(outputs)
}
