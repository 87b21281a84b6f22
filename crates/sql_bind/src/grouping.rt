//! What a grouped query, and the number of its items, must keep.
ghost use Rattle.std.specs.Prelude.{◌≡◌, ◌≤◌, ◌+◌, Ok, Err, IfOk, IfErr, length};
ghost use Rattle.sql_bind.specs.SelectList.{aggregates as the_aggregates};
ghost use Rattle.sql_bind.specs.Used.{used_by as the_used_by};
ghost use Rattle.sql_bind.specs.Grouping.{is_grouped as the_is_grouped, loose_chosen as the_loose_chosen};
ghost use Rattle.sql_bind.specs.Grouping.{loose_keys as the_loose_keys, loose_places as the_loose_places, first_of};
ghost use Rattle.sql_bind.specs.Grouping.{none_loose as the_none_loose, sized as the_sized, judged as the_judged};

use crate::columns::{Column, is_among};
use crate::fault::BindFault;
use crate::numbers::UsedColumns;
use crate::parts::Parts;
use crate::select_list::{Chosen, What, aggregates};
use crate::sort_keys::{SortKey, Target};

const MOST_ITEMS: usize = 60;

/// Whether the query has a GROUP BY column or an aggregate.
pub fn is_grouped(parts: &Parts<'_>) -> bool
    ensures { result ≡ the_is_grouped parts.now }
{
    1 <= parts.group.len() || 1 <= aggregates(parts.chosen.as_slice())
}

fn loose_chosen(group: &[Column], chosen: &[Chosen<'_>]) -> Option<u32>
    ensures { result ≡ first_of (the_loose_chosen group.now chosen.now) }
{
    for element in chosen {
        if let What::Column { at, column } = element.what {
            if !is_among(group, column) {
                return Some(at);
            }
        }
    }
    None
}

fn loose_keys(group: &[Column], keys: &[SortKey]) -> Option<u32>
    ensures { result ≡ first_of (the_loose_keys group.now keys.now) }
{
    for key in keys {
        if let Target::Column(column) = key.target {
            if !is_among(group, column) {
                return Some(key.at);
            }
        }
    }
    None
}

/// The first plain column that is no GROUP BY column.
#[tactic(auto, unfolding(crate::specs::Grouping::loose_places))]
fn first_loose(parts: &Parts<'_>) -> Option<u32>
    ensures { result ≡ first_of (the_loose_places parts.now) }
{
    let group = parts.group.as_slice();
    match loose_chosen(group, parts.chosen.as_slice()) {
        Some(at) => Some(at),
        None => loose_keys(group, parts.keys.as_slice()),
    }
}

fn sized(parts: &Parts<'_>, used: &UsedColumns<'_>) -> Result<(), BindFault>
    requires used { used.now ≡ the_used_by parts.now }
    requires bounded { length used.now ≤ 10000 }
    requires few { length parts.now.chosen ≤ 60 }
    ensures ok { IfOk result (λ _. the_sized parts.now ≡ Ok parts.now) }
    ensures err { IfErr result (λ fault. the_sized parts.now ≡ Err fault) }
{
    let found = used.len() + aggregates(parts.chosen.as_slice());
    if MOST_ITEMS < found {
        return Err(BindFault::TooManyItems {
            found: found as u32,
        });
    }
    Ok(())
}

fn none_loose(
    parts: &Parts<'_>,
    used: &UsedColumns<'_>,
    loose: Option<u32>,
) -> Result<(), BindFault>
    requires used { used.now ≡ the_used_by parts.now }
    requires bounded { length used.now ≤ 10000 }
    requires few { length parts.now.chosen ≤ 60 }
    ensures ok { IfOk result (λ _. the_none_loose parts.now loose ≡ Ok parts.now) }
    ensures err { IfErr result (λ fault. the_none_loose parts.now loose ≡ Err fault) }
{
    match loose {
        Some(at) => Err(BindFault::NotGrouped { at }),
        None => sized(parts, used),
    }
}

/// Refuses a grouped query with a plain column that is no GROUP BY column, and then one with too
/// many items.
#[tactic(auto, unfolding(crate::specs::Grouping::judged))]
pub fn judge(parts: &Parts<'_>, used: &UsedColumns<'_>) -> Result<(), BindFault>
    requires used { used.now ≡ the_used_by parts.now }
    requires bounded { length used.now ≤ 10000 }
    requires few { length parts.now.chosen ≤ 60 }
    ensures ok { IfOk result (λ _. the_judged parts.now ≡ Ok parts.now) }
    ensures err { IfErr result (λ fault. the_judged parts.now ≡ Err fault) }
{
    if is_grouped(parts) {
        none_loose(parts, used, first_loose(parts))
    } else {
        sized(parts, used)
    }
}
