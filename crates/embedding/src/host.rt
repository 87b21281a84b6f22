//! What a host has of its own: the statistics of its tables, and a statement that its parser made.
ghost use Rattle.std.specs.Prelude.{◌≡◌, IfOk};
ghost use Rattle.sql_reader.specs.Readable.{IsReadable};
ghost use Rattle.embedding.specs.Statement.{column_of, count_shown, join_of_both, region_shown};
ghost use Rattle.embedding.specs.Statement.{statement as the_statement, table_of};

use orca_base::{List, Text};
use query_core::{Catalog, ColumnInfo, Placing, TableInfo};
use sql_reader::{ColRef, FromItem, SelExpr, SelFunc, SelItem, SelOp, SelOperand, SelPred, Select};
use std::alloc::{AllocError, Global};

/// Sixteen segments with two tables, each hashed on its first column.
pub fn catalog(alloc: Global) -> Result<Catalog, AllocError> {
    let orders = table(
        alloc,
        "orders",
        5_000_000,
        [("id", 5_000_000), ("customer", 200_000)],
    )?;
    let customers = table(
        alloc,
        "customers",
        200_000,
        [("id", 200_000), ("region", 25)],
    )?;
    Ok(Catalog {
        segments: 16,
        tables: List::of(vec![in alloc; orders, customers]?),
    })
}

fn table(
    alloc: Global,
    name: &str,
    rows: u64,
    columns: [(&str, u64); 2],
) -> Result<TableInfo, AllocError> {
    let mut infos = List::new(alloc);
    for (name, ndv) in columns {
        push_column(alloc, name, ndv, &mut infos)?;
    }
    Ok(TableInfo {
        name: text(alloc, name)?,
        rows,
        placing: Placing::Hashed(List::of(vec![in alloc; 0]?)),
        columns: infos,
        indexes: List::new(alloc),
    })
}

fn push_column(
    alloc: Global,
    name: &str,
    ndv: u64,
    infos: &mut List<ColumnInfo>,
) -> Result<(), AllocError> {
    infos.push(ColumnInfo {
        name: text(alloc, name)?,
        ndv,
        histogram: None,
    })
}

/// `SELECT customers.region, COUNT(*) AS placed FROM orders, customers
/// WHERE orders.customer = customers.id GROUP BY customers.region`
pub fn statement(alloc: Global) -> Result<Select, AllocError>
    ensures meant { IfOk result (λ made. made ≡ the_statement) }
    ensures readable { IfOk result IsReadable }
{
    Ok(Select {
        items: shown(alloc)?,
        from: tables(alloc)?,
        preds: conditions(alloc)?,
        group_by: groups(alloc)?,
        order_by: List::new(alloc),
    })
}

fn shown(alloc: Global) -> Result<List<SelItem>, AllocError>
    ensures { IfOk result (λ items. items ≡ the_statement.items) }
{
    let mut items = List::new(alloc);
    items.push(region(alloc)?)?;
    items.push(count(alloc)?)?;
    Ok(items)
}

fn region(alloc: Global) -> Result<SelItem, AllocError>
    ensures { IfOk result (λ item. item ≡ region_shown) }
{
    Ok(SelItem {
        expr: SelExpr::Column(column(alloc, "customers", "region")?),
        name_at: 0,
        name: None,
    })
}

fn count(alloc: Global) -> Result<SelItem, AllocError>
    ensures { IfOk result (λ item. item ≡ count_shown) }
{
    Ok(SelItem {
        expr: SelExpr::Agg {
            func: SelFunc::CountAll,
            arg: None,
        },
        name_at: 0,
        name: Some(text(alloc, "placed")?),
    })
}

fn tables(alloc: Global) -> Result<List<FromItem>, AllocError>
    ensures { IfOk result (λ tables. tables ≡ the_statement.from) }
{
    let mut tables = List::new(alloc);
    tables.push(from(alloc, "orders")?)?;
    tables.push(from(alloc, "customers")?)?;
    Ok(tables)
}

fn conditions(alloc: Global) -> Result<List<SelPred>, AllocError>
    ensures { IfOk result (λ preds. preds ≡ the_statement.preds) }
{
    let mut preds = List::new(alloc);
    preds.push(joined(alloc)?)?;
    Ok(preds)
}

fn joined(alloc: Global) -> Result<SelPred, AllocError>
    ensures { IfOk result (λ pred. pred ≡ join_of_both) }
{
    Ok(SelPred {
        left: column(alloc, "orders", "customer")?,
        op: SelOp::Eq,
        right: SelOperand::Column(column(alloc, "customers", "id")?),
    })
}

fn groups(alloc: Global) -> Result<List<ColRef>, AllocError>
    ensures { IfOk result (λ columns. columns ≡ the_statement.group_by) }
{
    let mut columns = List::new(alloc);
    columns.push(column(alloc, "customers", "region")?)?;
    Ok(columns)
}

// A column as it is written. A host without a text has no offsets.
fn column(alloc: Global, table: &str, name: &str) -> Result<ColRef, AllocError>
    ensures { IfOk result (λ column. column ≡ column_of table.now name.now) }
{
    Ok(ColRef {
        at: 0,
        table: Some(text(alloc, table)?),
        name: text(alloc, name)?,
    })
}

fn from(alloc: Global, table: &str) -> Result<FromItem, AllocError>
    ensures { IfOk result (λ item. item ≡ table_of table.now) }
{
    Ok(FromItem {
        at: 0,
        table: text(alloc, table)?,
        alias_at: 0,
        alias: None,
    })
}

fn text(alloc: Global, written: &str) -> Result<Text, AllocError>
    ensures { IfOk result (λ made. made ≡ written.now) }
{
    Ok(Text::of(String::from_str(alloc, written)?))
}
