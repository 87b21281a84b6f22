//! The canonical text of a query.

ghost use Rattle.std.specs.Prelude.{◌≡◌, ◌≤◌, ◌^◌, ◌++◌, List, ℕ, length, OnOk, IfOk};
ghost use Rattle.sql_reader.specs.declared.syntax.Select.{Select};
ghost use Rattle.sql_reader.specs.Faults.{Spells, IsReading};
ghost use Rattle.sql_reader.specs.Readable.{IsReadable};
ghost use Rattle.sql_print.specs.Unplaced.{unplaced};
ghost use Rattle.std.specs.List.{flat_map};
ghost use Rattle.sql_print.specs.Canonical.{column_text, item_text, table_text, pred_text, key_text, listed, clause};
ghost use Rattle.sql_print.specs.Canonical.{canonical_text};

use crate::parts::{put, put_as, put_column, put_expr, put_op, put_operand, put_text};
use sql_reader::{ColRef, FromItem, SelItem, SelKey, SelPred, Select, readings};
use std::alloc::{AllocError, Global};

/// An element of a list of a query.
trait Printed {
    ghost text: { Self → List ℕ };

    fn put_on(&self, alloc: Global, out: &mut Vec<u8>) -> Result<(), AllocError>
        ensures { OnOk result (out.new.items ≡ out.old.items ++ text self.now) };
}

impl Printed for SelItem {
    ghost text = { item_text };

    fn put_on(&self, _alloc: Global, out: &mut Vec<u8>) -> Result<(), AllocError> {
        put_expr(out, &self.expr)?;
        put_as(out, &self.name)
    }
}

impl Printed for FromItem {
    ghost text = { table_text };

    fn put_on(&self, _alloc: Global, out: &mut Vec<u8>) -> Result<(), AllocError> {
        put_text(out, &self.table)?;
        put_as(out, &self.alias)
    }
}

impl Printed for SelPred {
    ghost text = { pred_text };

    fn put_on(&self, alloc: Global, out: &mut Vec<u8>) -> Result<(), AllocError> {
        put_column(out, &self.left)?;
        put_op(out, self.op)?;
        put_operand(alloc, out, &self.right)
    }
}

impl Printed for ColRef {
    ghost text = { column_text };

    fn put_on(&self, _alloc: Global, out: &mut Vec<u8>) -> Result<(), AllocError> {
        put_column(out, self)
    }
}

impl Printed for SelKey {
    ghost text = { key_text };

    fn put_on(&self, _alloc: Global, out: &mut Vec<u8>) -> Result<(), AllocError> {
        put_column(out, &self.col)?;
        if self.desc {
            put(out, b" DESC")
        } else {
            Ok(())
        }
    }
}

/// The elements behind the first.
fn put_others<P: Printed>(
    alloc: Global,
    out: &mut Vec<u8>,
    separator: &[u8],
    others: &[P],
) -> Result<(), AllocError>
    ensures { OnOk result (out.new.items
        ≡ out.old.items ++ flat_map (λ x. separator.now ++ P.text x) others.now) }
{
    for other in others {
        put(out, separator)?;
        other.put_on(alloc, out)?;
    }
    Ok(())
}

fn put_list<P: Printed>(
    alloc: Global,
    out: &mut Vec<u8>,
    separator: &[u8],
    list: &[P],
) -> Result<(), AllocError>
    ensures { OnOk result (out.new.items ≡ out.old.items ++ listed separator.now P.text list.now) }
{
    match list {
        [first, others @ ..] => {
            first.put_on(alloc, out)?;
            put_others(alloc, out, separator, others)
        }
        [] => Ok(()),
    }
}

fn put_clause<P: Printed>(
    alloc: Global,
    out: &mut Vec<u8>,
    words: &[u8],
    separator: &[u8],
    list: &[P],
) -> Result<(), AllocError>
    ensures { OnOk result (out.new.items
        ≡ out.old.items ++ clause words.now separator.now P.text list.now) }
{
    if list.is_empty() {
        return Ok(());
    }
    put(out, words)?;
    put_list(alloc, out, separator, list)
}

/// The canonical text: words and functions in capitals, one space between parts, `, ` between
/// elements, AS before each alias and output name, no ASC and no semicolon.
pub fn print_sql(alloc: Global, select: &Select) -> Result<Vec<u8>, AllocError>
    ensures { IfOk result (λ text. text.items ≡ canonical_text select.now) }
{
    let mut out = Vec::new(alloc);
    put(&mut out, b"SELECT ")?;
    put_list(alloc, &mut out, b", ", select.items.as_slice())?;
    put(&mut out, b" FROM ")?;
    put_list(alloc, &mut out, b", ", select.from.as_slice())?;
    put_clause(
        alloc,
        &mut out,
        b" WHERE ",
        b" AND ",
        select.preds.as_slice(),
    )?;
    put_clause(
        alloc,
        &mut out,
        b" GROUP BY ",
        b", ",
        select.group_by.as_slice(),
    )?;
    put_clause(
        alloc,
        &mut out,
        b" ORDER BY ",
        b", ",
        select.order_by.as_slice(),
    )?;
    Ok(out)
}

/// The canonical text of a query that was read spells the same query but for offsets, whatever its
/// length, and no other; where it isn't too long, `read_sql` reads it so.
pub fn reads_again()
    ensures again { (select : Select) → IsReadable select → (again : Select)
        × Spells (canonical_text select) again × (unplaced again ≡ unplaced select) }
    ensures only { (select again : Select) → IsReadable select
        → Spells (canonical_text select) again → unplaced again ≡ unplaced select }
    ensures read { (select : Select) → IsReadable select → length (canonical_text select) ≤ 2 ^ 16
        → (again : Select) × IsReading (canonical_text select) again
        × (unplaced again ≡ unplaced select) }
{
    readings();
}
