//! The query of a shape.
ghost use Rattle.std.specs.Prelude.{◌≡◌, ◌<◌, [], ◌∷◌, ◌++◌, if◌then◌else◌, IfOk, OnOk, map};
ghost use Rattle.std.specs.List.{flat_map, range_with_len};
ghost use Rattle.query_generator.specs.Select.{column_of, from_of, is_joined, item_of_first, join_of, joins_of};
ghost use Rattle.query_generator.specs.Select.{key_of_first, select_of};

use crate::catalog::{table_name, text_of};
use crate::shape::GenShape;
use orca_base::List;
use sql_reader::{ColRef, FromItem, SelExpr, SelItem, SelKey, SelOp, SelOperand, SelPred, Select};
use std::alloc::{AllocError, Global};

fn column_of(alloc: Global, i: u32, name: &str) -> Result<ColRef, AllocError>
    ensures { IfOk result (λ column. column ≡ column_of i name.now) }
{
    Ok(ColRef {
        at: 0,
        table: Some(table_name(alloc, i)?),
        name: text_of(alloc, name)?,
    })
}

fn items_of(alloc: Global) -> Result<List<SelItem>, AllocError>
    ensures { IfOk result (λ items. items ≡ item_of_first ∷ []) }
{
    let mut items = List::new(alloc);
    items.push(SelItem {
        expr: SelExpr::Column(column_of(alloc, 0, "id")?),
        name_at: 0,
        name: None,
    })?;
    Ok(items)
}

fn from_of(alloc: Global, i: u32) -> Result<FromItem, AllocError>
    ensures { IfOk result (λ item. item ≡ from_of i) }
{
    Ok(FromItem {
        at: 0,
        table: table_name(alloc, i)?,
        alias_at: 0,
        alias: None,
    })
}

fn tables_of(alloc: Global, tables: u32) -> Result<List<FromItem>, AllocError>
    ensures { IfOk result (λ from. from ≡ map from_of (range_with_len 0 tables)) }
{
    let mut from = List::new(alloc);
    for i in 0..tables {
        let item = from_of(alloc, i)?;
        from.push(item)?;
    }
    Ok(from)
}

fn is_joined(shape: GenShape, i: u32, j: u32) -> bool
    requires { i < j }
    ensures { result ≡ is_joined shape i j }
{
    match shape {
        GenShape::Chain => j == i + 1,
        GenShape::Star => i == 0,
        GenShape::Clique => true,
    }
}

fn join_of(alloc: Global, i: u32, j: u32) -> Result<SelPred, AllocError>
    ensures { IfOk result (λ join. join ≡ join_of i j) }
{
    Ok(SelPred {
        left: column_of(alloc, i, "f")?,
        op: SelOp::Eq,
        right: SelOperand::Column(column_of(alloc, j, "id")?),
    })
}

/// Adds the join of two tables, where the shape has it.
fn add_join(
    alloc: Global,
    shape: GenShape,
    i: u32,
    j: u32,
    joins: &mut List<SelPred>,
) -> Result<(), AllocError>
    requires { i < j }
    ensures { OnOk result (joins.new
        ≡ joins.old ++ (if is_joined shape i j then join_of i j ∷ [] else [])) }
{
    if is_joined(shape, i, j) {
        let join = join_of(alloc, i, j)?;
        joins.push(join)?;
    }
    Ok(())
}

/// Adds the joins of table `i` with those that follow it.
fn add_joins(
    alloc: Global,
    shape: GenShape,
    tables: u32,
    i: u32,
    joins: &mut List<SelPred>,
) -> Result<(), AllocError>
    requires { i < tables }
    ensures { OnOk result (joins.new ≡ joins.old ++ joins_of shape tables i) }
{
    for j in i + 1..tables {
        add_join(alloc, shape, i, j, joins)?;
    }
    Ok(())
}

fn joins_of(alloc: Global, shape: GenShape, tables: u32) -> Result<List<SelPred>, AllocError>
    ensures { IfOk result
        (λ joins. joins ≡ flat_map (joins_of shape tables) (range_with_len 0 tables)) }
{
    let mut joins = List::new(alloc);
    for i in 0..tables {
        add_joins(alloc, shape, tables, i, &mut joins)?;
    }
    Ok(joins)
}

fn order_of(alloc: Global) -> Result<List<SelKey>, AllocError>
    ensures { IfOk result (λ keys. keys ≡ key_of_first ∷ []) }
{
    let mut keys = List::new(alloc);
    keys.push(SelKey {
        col: column_of(alloc, 0, "id")?,
        desc: false,
    })?;
    Ok(keys)
}

/// The query of a shape over so many tables.
pub fn select_of(alloc: Global, shape: GenShape, tables: u32) -> Result<Select, AllocError>
    ensures { IfOk result (λ select. select ≡ select_of shape tables) }
{
    Ok(Select {
        items: items_of(alloc)?,
        from: tables_of(alloc, tables)?,
        preds: joins_of(alloc, shape, tables)?,
        group_by: List::new(alloc),
        order_by: order_of(alloc)?,
    })
}
