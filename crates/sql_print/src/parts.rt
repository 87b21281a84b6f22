//! The texts of a query's parts: columns, functions, operators, values, and names behind AS.

ghost use Rattle.std.specs.Prelude.{◌≡◌, [], ◌∷◌, ◌++◌, OnOk};
ghost use Rattle.std.specs.Fmt.{signed_decimal};
ghost use Rattle.sql_reader.specs.Pieces.{doubled};
ghost use Rattle.sql_print.specs.Canonical.{table_part, column_text, func_text, argument_text, expr_text, as_text};
ghost use Rattle.sql_print.specs.Canonical.{op_text, quoted_text, operand_text};

use orca_base::Text;
use sql_reader::{ColRef, SelExpr, SelFunc, SelOp, SelOperand};
use std::alloc::{AllocError, Global};

pub fn put(out: &mut Vec<u8>, bytes: &[u8]) -> Result<(), AllocError>
    ensures { OnOk result (out.new.items ≡ out.old.items ++ bytes.now) }
{
    out.extend_from_slice(bytes)
}

pub fn put_text(out: &mut Vec<u8>, text: &Text) -> Result<(), AllocError>
    ensures { OnOk result (out.new.items ≡ out.old.items ++ text.now) }
{
    put(out, text.as_str().as_bytes())
}

fn put_table_part(out: &mut Vec<u8>, table: &Option<Text>) -> Result<(), AllocError>
    ensures { OnOk result (out.new.items ≡ out.old.items ++ table_part table.now) }
{
    match table {
        Some(table) => {
            put_text(out, table)?;
            put(out, b".")
        }
        None => Ok(()),
    }
}

pub fn put_column(out: &mut Vec<u8>, column: &ColRef) -> Result<(), AllocError>
    ensures { OnOk result (out.new.items ≡ out.old.items ++ column_text column.now) }
{
    put_table_part(out, &column.table)?;
    put_text(out, &column.name)
}

fn put_func(out: &mut Vec<u8>, func: SelFunc) -> Result<(), AllocError>
    ensures { OnOk result (out.new.items ≡ out.old.items ++ func_text func) }
{
    match func {
        SelFunc::CountAll | SelFunc::Count => put(out, b"COUNT("),
        SelFunc::Sum => put(out, b"SUM("),
        SelFunc::Min => put(out, b"MIN("),
        SelFunc::Max => put(out, b"MAX("),
    }
}

fn put_argument(out: &mut Vec<u8>, arg: &Option<ColRef>) -> Result<(), AllocError>
    ensures { OnOk result (out.new.items ≡ out.old.items ++ argument_text arg.now) }
{
    match arg {
        Some(column) => put_column(out, column),
        None => put(out, b"*"),
    }
}

pub fn put_expr(out: &mut Vec<u8>, expr: &SelExpr) -> Result<(), AllocError>
    ensures { OnOk result (out.new.items ≡ out.old.items ++ expr_text expr.now) }
{
    match expr {
        SelExpr::Column(column) => put_column(out, column),
        SelExpr::Agg { func, arg } => {
            put_func(out, *func)?;
            put_argument(out, arg)?;
            put(out, b")")
        }
    }
}

pub fn put_as(out: &mut Vec<u8>, name: &Option<Text>) -> Result<(), AllocError>
    ensures { OnOk result (out.new.items ≡ out.old.items ++ as_text name.now) }
{
    match name {
        Some(name) => {
            put(out, b" AS ")?;
            put_text(out, name)
        }
        None => Ok(()),
    }
}

pub fn put_op(out: &mut Vec<u8>, op: SelOp) -> Result<(), AllocError>
    ensures { OnOk result (out.new.items ≡ out.old.items ++ op_text op) }
{
    match op {
        SelOp::Eq => put(out, b" = "),
        SelOp::Ne => put(out, b" <> "),
        SelOp::Lt => put(out, b" < "),
        SelOp::Le => put(out, b" <= "),
        SelOp::Gt => put(out, b" > "),
        SelOp::Ge => put(out, b" >= "),
    }
}

/// A byte between quotes.
fn put_inside(out: &mut Vec<u8>, byte: u8) -> Result<(), AllocError>
    ensures { OnOk result (out.new.items ≡ out.old.items ++ doubled (byte ∷ [])) }
{
    if byte == b'\'' {
        put(out, b"''")
    } else {
        out.push(byte)?;
        Ok(())
    }
}

fn put_doubled(out: &mut Vec<u8>, text: &[u8]) -> Result<(), AllocError>
    ensures { OnOk result (out.new.items ≡ out.old.items ++ doubled text.now) }
{
    for byte in text {
        put_inside(out, *byte)?;
    }
    Ok(())
}

fn put_quoted(out: &mut Vec<u8>, text: &Text) -> Result<(), AllocError>
    ensures { OnOk result (out.new.items ≡ out.old.items ++ quoted_text text.now) }
{
    put(out, b"'")?;
    put_doubled(out, text.as_str().as_bytes())?;
    put(out, b"'")
}

fn put_integer(alloc: Global, out: &mut Vec<u8>, number: i64) -> Result<(), AllocError>
    ensures { OnOk result (out.new.items ≡ out.old.items ++ signed_decimal number) }
{
    let text = number.to_string(alloc)?;
    put(out, text.as_bytes())
}

pub fn put_operand(alloc: Global, out: &mut Vec<u8>, operand: &SelOperand) -> Result<(), AllocError>
    ensures { OnOk result (out.new.items ≡ out.old.items ++ operand_text operand.now) }
{
    match operand {
        SelOperand::Column(column) => put_column(out, column),
        SelOperand::Int(number) => put_integer(alloc, out, *number),
        SelOperand::Str(text) => put_quoted(out, text),
    }
}
