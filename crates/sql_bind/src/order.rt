//! GROUP BY and ORDER BY over numbered items, nothing twice.
ghost use Rattle.std.specs.Prelude.{◌≡◌, ◌≤◌, [], IfOk, OnOk, length};
ghost use Rattle.sql_bind.specs.Query.{group_numbers as the_group_numbers, key_of as the_key_of};
ghost use Rattle.sql_bind.specs.Query.{order_of as the_order_of, key_item, any_number, with_new};

use crate::columns::Column;
use crate::numbers::{UsedColumns, target_number};
use crate::sort_keys::SortKey;
use indexmap::IndexSet;
use orca_base::List;
use query_core::OrderKey;
use std::alloc::{AllocError, Global};

/// The GROUP BY columns.
pub fn group_of(
    alloc: Global,
    used: &UsedColumns<'_>,
    group: &[Column],
) -> Result<List<u32>, AllocError>
    requires { length used.now ≤ 60 }
    ensures { IfOk result (λ numbers. numbers ≡ the_group_numbers used.now group.now) }
{
    let mut kept = IndexSet::new(alloc);
    numbers_in(alloc, used, group, &mut kept)
}

/// The numbers of the columns, which are added.
fn numbers_in(
    alloc: Global,
    used: &UsedColumns<'_>,
    group: &[Column],
    kept: &mut IndexSet<u32>,
) -> Result<List<u32>, AllocError>
    requires few { length used.now ≤ 60 }
    requires empty { kept.old.keys ≡ [] }
    ensures { IfOk result (λ numbers. numbers ≡ the_group_numbers used.now group.now) }
{
    for column in group {
        kept.insert(used.number_of_column(*column))?;
    }
    Ok(List::of(Vec::from_slice(alloc, kept.as_slice())?))
}

fn key_of(used: &UsedColumns<'_>, key: SortKey) -> OrderKey
    requires { length used.now ≤ 60 }
    ensures { result ≡ the_key_of used.now key }
{
    OrderKey {
        item: target_number(used, key.target),
        desc: key.desc,
    }
}

fn has_item(kept: &[OrderKey], item: u32) -> bool
    ensures { result ≡ any_number key_item item kept.now }
{
    kept.iter().any(|key| item == key.item)
}

#[tactic(auto, unfolding(crate::specs::Query::with_new))]
fn add_key(key: OrderKey, kept: &mut List<OrderKey>) -> Result<(), AllocError>
    ensures { OnOk result (kept.new ≡ with_new key_item kept.old key) }
{
    if !has_item(kept.as_slice(), key.item) {
        kept.push(key)?;
    }
    Ok(())
}

/// The keys of ORDER BY.
pub fn order_of(
    alloc: Global,
    used: &UsedColumns<'_>,
    keys: &[SortKey],
) -> Result<List<OrderKey>, AllocError>
    requires { length used.now ≤ 60 }
    ensures { IfOk result (λ order. order ≡ the_order_of used.now keys.now) }
{
    let mut kept = List::new(alloc);
    for key in keys {
        add_key(key_of(used, *key), &mut kept)?;
    }
    Ok(kept)
}
