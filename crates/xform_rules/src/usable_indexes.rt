//! The usable indexes of a table: those by which its own predicates find rows.
#![tactic(auto)]

ghost use Rattle.std.specs.Prelude.{ℕ, ◌≡◌, ◌≤◌, length};
ghost use Rattle.xform_rules.specs.Forms.{Finds};
ghost use Rattle.xform_rules.specs.UsableIndexes.{is_sought as the_is_sought, is_literal as the_is_literal};
ghost use Rattle.xform_rules.specs.UsableIndexes.{seeks as the_seeks, is_usable as the_is_usable};
ghost use Rattle.xform_rules.specs.UsableIndexes.{is_sought_column as the_is_sought_column};
ghost use Rattle.xform_rules.specs.UsableIndexes.{IsNthUsable, HasNthUsable};

use orca_base::List;
use query_core::{CmpOp, Operand, Pred, Query};

/// The number of the n-th usable index of a table.
pub fn usable_of_table(query: &Query, table: u32, n: u32) -> Option<u32>
    ensures { Finds (HasNthUsable query.now table n) result }
{
    match query.tables.as_slice().get(table as usize) {
        Some(found) => nth_usable(query, table, found.indexes.as_slice(), n),
        None => None,
    }
}

fn nth_usable(query: &Query, table: u32, indexes: &[List<u32>], n: u32) -> Option<u32>
    requires { length indexes.now ≤ 16 }
    ensures { Finds (IsNthUsable query.now table indexes.now n) result }
{
    let mut before = 0;
    for (number, index) in indexes.iter().enumerate() {
        if is_usable(query, table, index.as_slice()) {
            if before == n {
                return Some(number as u32);
            }
            before += 1;
        }
    }
    None
}

/// Whether a predicate has the index's first column on its left, and finds rows by it.
fn is_usable(query: &Query, table: u32, columns: &[u32]) -> bool
    ensures { result ≡ the_is_usable query.now table columns.now }
{
    match columns.first() {
        Some(column) => is_sought_column(query, table, *column),
        None => false,
    }
}

fn is_sought_column(query: &Query, table: u32, column: u32) -> bool
    ensures { result ≡ the_is_sought_column query.now table column }
{
    query
        .preds
        .as_slice()
        .iter()
        .any(|pred| seeks(query, table, column, pred))
}

fn seeks(query: &Query, table: u32, column: u32, pred: &Pred) -> bool
    ensures { result ≡ the_seeks query.now table column pred.now }
{
    query.is_column_of(table, pred.left)
        && pred.left == column
        && is_sought(pred.op)
        && is_literal(&pred.right)
}

fn is_sought(op: CmpOp) -> bool
    ensures { result ≡ the_is_sought op }
{
    match op {
        CmpOp::Eq => true,
        CmpOp::Ne => false,
        CmpOp::Lt => true,
        CmpOp::Le => true,
        CmpOp::Gt => true,
        CmpOp::Ge => true,
    }
}

fn is_literal(operand: &Operand) -> bool
    ensures { result ≡ the_is_literal operand.now }
{
    match operand {
        Operand::Item(_) => false,
        Operand::Int(_) => true,
        Operand::Str(_) => true,
    }
}
