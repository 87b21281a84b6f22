//! The elements of the lists.

ghost use Rattle.std.specs.Prelude.{◌≡◌};
ghost use Rattle.sql_reader.specs.Reading.{counts, column_at, argument_at, call_at, expr_at, output_at, item_at};
ghost use Rattle.sql_reader.specs.Reading.{table_at, operand_at, pred_at, direction_at, key_at};
ghost use Rattle.sql_reader.specs.Query.{func_of, aliased_table};
ghost use Rattle.sql_reader.specs.Doing.{Does};

use crate::stops::Stop;
use crate::syntax::{ColRef, FromItem, SelExpr, SelFunc, SelItem, SelKey, SelOperand, SelPred};
use crate::token_stream::TokenStream;
use crate::tokens::{Function, Mark, Name};

/// `name` or `table.name`.
#[tactic(auto, unfolding(crate::specs::Reading::column_at))]
pub fn column(tokens: &mut TokenStream) -> Result<ColRef, Stop>
    ensures { Does (column_at tokens.old) result tokens.new }
{
    let first = tokens.expect_name()?;
    if tokens.mark(Mark::Dot).is_none() {
        return Ok(ColRef {
            at: first.at,
            table: None,
            name: first.text,
        });
    }
    let second = tokens.expect_name()?;
    Ok(ColRef {
        at: first.at,
        table: Some(first.text),
        name: second.text,
    })
}

fn func(function: Function) -> SelFunc
    ensures { result ≡ func_of function }
{
    match function {
        Function::Count => SelFunc::Count,
        Function::Sum => SelFunc::Sum,
        Function::Min => SelFunc::Min,
        Function::Max => SelFunc::Max,
    }
}

fn is_count(function: Function) -> bool
    ensures { result ≡ counts function }
{
    matches!(function, Function::Count)
}

/// What stands between the parentheses.
#[tactic(auto, unfolding(crate::specs::Reading::argument_at))]
fn argument(function: Function, tokens: &mut TokenStream) -> Result<SelExpr, Stop>
    ensures { Does (argument_at function tokens.old) result tokens.new }
{
    if is_count(function) && tokens.mark(Mark::Star).is_some() {
        return Ok(SelExpr::Agg {
            func: SelFunc::CountAll,
            arg: None,
        });
    }
    let column = column(tokens)?;
    Ok(SelExpr::Agg {
        func: func(function),
        arg: Some(column),
    })
}

#[tactic(auto, unfolding(crate::specs::Reading::call_at))]
fn call(function: Function, tokens: &mut TokenStream) -> Result<SelExpr, Stop>
    ensures { Does (call_at function tokens.old) result tokens.new }
{
    tokens.expect_mark(Mark::Open)?;
    let call = argument(function, tokens)?;
    tokens.expect_mark(Mark::Close)?;
    Ok(call)
}

#[tactic(auto, unfolding(crate::specs::Reading::expr_at))]
fn expr(tokens: &mut TokenStream) -> Result<SelExpr, Stop>
    ensures { Does (expr_at tokens.old) result tokens.new }
{
    match tokens.function() {
        Some(function) => call(function, tokens),
        None => Ok(SelExpr::Column(column(tokens)?)),
    }
}

#[tactic(auto, unfolding(crate::specs::Reading::output_at))]
fn output(expr: SelExpr, tokens: &mut TokenStream) -> Result<SelItem, Stop>
    ensures { Does (output_at expr tokens.old) result tokens.new }
{
    if tokens.mark(Mark::As).is_none() {
        return Ok(SelItem {
            expr,
            name_at: 0,
            name: None,
        });
    }
    let name = tokens.expect_name()?;
    Ok(SelItem {
        expr,
        name_at: name.at,
        name: Some(name.text),
    })
}

/// A column or a call, and its output name.
#[tactic(auto, unfolding(crate::specs::Reading::item_at))]
pub fn item(tokens: &mut TokenStream) -> Result<SelItem, Stop>
    ensures { Does (item_at tokens.old) result tokens.new }
{
    let expr = expr(tokens)?;
    output(expr, tokens)
}

fn aliased(table: Name, alias: Name) -> FromItem
    ensures { result ≡ aliased_table table alias }
{
    FromItem {
        at: table.at,
        table: table.text,
        alias_at: alias.at,
        alias: Some(alias.text),
    }
}

/// A table and its alias.
#[tactic(auto, unfolding(crate::specs::Reading::table_at))]
pub fn table(tokens: &mut TokenStream) -> Result<FromItem, Stop>
    ensures { Does (table_at tokens.old) result tokens.new }
{
    let table = tokens.expect_name()?;
    if tokens.mark(Mark::As).is_some() {
        let alias = tokens.expect_name()?;
        return Ok(aliased(table, alias));
    }
    match tokens.name() {
        Some(alias) => Ok(aliased(table, alias)),
        None => Ok(FromItem {
            at: table.at,
            table: table.text,
            alias_at: 0,
            alias: None,
        }),
    }
}

#[tactic(auto, unfolding(crate::specs::Reading::operand_at))]
fn operand(tokens: &mut TokenStream) -> Result<SelOperand, Stop>
    ensures { Does (operand_at tokens.old) result tokens.new }
{
    if let Some(number) = tokens.integer() {
        return Ok(SelOperand::Int(number));
    }
    match tokens.text() {
        Some(text) => Ok(SelOperand::Str(text)),
        None => Ok(SelOperand::Column(column(tokens)?)),
    }
}

/// A comparison.
#[tactic(auto, unfolding(crate::specs::Reading::pred_at))]
pub fn pred(tokens: &mut TokenStream) -> Result<SelPred, Stop>
    ensures { Does (pred_at tokens.old) result tokens.new }
{
    let left = column(tokens)?;
    let op = tokens.op().ok_or(Stop::Unexpected)?;
    let right = operand(tokens)?;
    Ok(SelPred { left, op, right })
}

#[tactic(auto, unfolding(crate::specs::Reading::direction_at))]
fn direction(col: ColRef, tokens: &mut TokenStream) -> Result<SelKey, Stop>
    ensures { Does (direction_at col tokens.old) result tokens.new }
{
    if tokens.mark(Mark::Asc).is_some() {
        return Ok(SelKey { col, desc: false });
    }
    if tokens.mark(Mark::Desc).is_some() {
        return Ok(SelKey { col, desc: true });
    }
    Ok(SelKey { col, desc: false })
}

/// A column and its direction.
#[tactic(auto, unfolding(crate::specs::Reading::key_at))]
pub fn key(tokens: &mut TokenStream) -> Result<SelKey, Stop>
    ensures { Does (key_at tokens.old) result tokens.new }
{
    let col = column(tokens)?;
    direction(col, tokens)
}
