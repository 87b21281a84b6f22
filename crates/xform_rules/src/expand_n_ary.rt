//! ExpandNAry: the join of a set of tables, in no order, becomes a join of two groups.
#![tactic(auto)]

ghost use Rattle.std.specs.Prelude.{◌≡◌, ◌-◌, ◌^◌, ℕ, IsTrue, ◌↔◌, MatchOption};
ghost use Rattle.query_core.specs.Sets.{Has};
ghost use Rattle.xform_rules.specs.Forms.{Finds};
ghost use Rattle.xform_rules.specs.ExpandNAry.{JoinsSet, IsCut, IsLastCut, Expands};

use query_core::{KeyParts, Logical, Query, sets};

/// The set whose join, in no order, it is.
pub fn set_of(group: KeyParts, from: Logical) -> Option<u32>
    ensures { MatchOption result ((set : ℕ) → JoinsSet group from set → ⊥) (JoinsSet group from) }
{
    match (group, from) {
        (KeyParts::Join(set), Logical::NJoin) => Some(set),
        _ => None,
    }
}

/// The join of the set's greatest table, without which the others are connected, with the others.
pub fn expanded(query: &Query, group: KeyParts, from: Logical) -> Option<Logical>
    ensures { Finds (Expands query.now group from) result }
{
    let set = set_of(group, from)?;
    let table = last_cut(query, set)?;
    let others = query.top_group(without(set, table));
    Some(Logical::Join(others, query.top_group(sets::of_one(table))))
}

/// The greatest table without which the others are connected.
pub fn last_cut(query: &Query, set: u32) -> Option<u32>
    ensures { Finds (IsLastCut query.now set) result }
{
    for table in (0..32).rev() {
        if is_cut(query, set, table) {
            return Some(table);
        }
    }
    None
}

fn is_cut(query: &Query, set: u32, table: u32) -> bool
    ensures { IsTrue result ↔ IsCut query.now set table }
{
    sets::has(set, table) && query.connected(without(set, table))
}

/// The other tables of the set.
#[tactic(auto, using(crate::proofs::Sets::without_one, query_core::proofs::Bits::has_below))]
pub fn without(set: u32, table: u32) -> u32
    requires { Has set table }
    ensures { result ≡ set - 2 ^ table }
{
    sets::difference(set, sets::of_one(table))
}
