//! The predicates of WHERE over columns.
ghost use Rattle.std.specs.Prelude.{◌≡◌};
ghost use Rattle.sql_bind.specs.Steps.{Yields};
ghost use Rattle.sql_bind.specs.Conditions.{op_of as the_op_of, side_in as the_side_in, compared_in as the_compared_in};
ghost use Rattle.sql_bind.specs.Conditions.{compared_of as the_compared_of};

use crate::columns::{Column, column_of};
use crate::fault::BindFault;
use crate::scope::ScopeTable;
use crate::written::Written;
use orca_base::List;
use query_core::CmpOp;
use sql_reader::{SelOp, SelOperand, SelPred};
use std::alloc::Global;

/// The right side of a predicate.
#[derive(Drop)]
pub enum Side<'a> {
    Column(Column),
    Int(i64),
    Str(Written<'a>),
}

/// A predicate.
#[derive(Drop)]
pub struct Compared<'a> {
    pub left: Column,
    pub op: CmpOp,
    pub right: Side<'a>,
}

fn op_of(op: SelOp) -> CmpOp
    ensures { result ≡ the_op_of op }
{
    match op {
        SelOp::Eq => CmpOp::Eq,
        SelOp::Ne => CmpOp::Ne,
        SelOp::Lt => CmpOp::Lt,
        SelOp::Le => CmpOp::Le,
        SelOp::Gt => CmpOp::Gt,
        SelOp::Ge => CmpOp::Ge,
    }
}

fn side_in<'a>(
    alloc: Global,
    sources: &[ScopeTable<'_>],
    operand: &'a SelOperand,
) -> Result<Side<'a>, BindFault>
    ensures { Yields (the_side_in sources.now operand.now) result }
{
    match operand {
        SelOperand::Column(reference) => {
            let column = column_of(alloc, sources, reference)?;
            Ok(Side::Column(column))
        }
        SelOperand::Int(value) => Ok(Side::Int(*value)),
        SelOperand::Str(text) => Ok(Side::Str(Written::of(text))),
    }
}

#[tactic(auto, unfolding(crate::specs::Conditions::compared_in))]
fn compared_in<'a>(
    alloc: Global,
    sources: &[ScopeTable<'_>],
    pred: &'a SelPred,
) -> Result<Compared<'a>, BindFault>
    ensures { Yields (the_compared_in sources.now pred.now) result }
{
    let left = column_of(alloc, sources, &pred.left)?;
    let right = side_in(alloc, sources, &pred.right)?;
    Ok(Compared {
        left,
        op: op_of(pred.op),
        right,
    })
}

/// The predicates in text order.
pub fn compared_of<'a>(
    alloc: Global,
    sources: &[ScopeTable<'_>],
    preds: &'a [SelPred],
) -> Result<List<Compared<'a>>, BindFault>
    ensures { Yields (the_compared_of sources.now preds.now) result }
{
    let mut compared = List::new(alloc);
    for pred in preds {
        let comparison = compared_in(alloc, sources, pred)?;
        compared.push(comparison)?;
    }
    Ok(compared)
}
