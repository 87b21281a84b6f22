//! Equalities between columns of two groups. No call here takes memory.
#![tactic(auto)]

ghost use Rattle.std.specs.Prelude.{◌≡◌};
ghost use Rattle.query_core.specs.Keys.{IsKey, NamesGroup};
ghost use Rattle.query_core.specs.Crossing.{equal_item as the_equal_item, sides_of, crossing_of};

use crate::predicate::{CmpOp, Operand, Pred};
use crate::query::Query;
use crate::words::{Key, KeyParts};

impl Query {
    /// The two items that the predicate equates across the groups, that of the left group first.
    pub fn crossing(&self, left: Key, right: Key, pred: u32) -> Option<(u32, u32)>
        requires left { IsKey self.now left }
        requires right { IsKey self.now right }
        ensures { (l r : KeyParts) → NamesGroup self.now left l → NamesGroup self.now right r →
            result ≡ crossing_of self.now l r pred }
    {
        self.crossing_groups(self.group(left), self.group(right), pred)
    }

    /// The same as `crossing`, of groups.
    pub fn crossing_groups(&self, left: KeyParts, right: KeyParts, pred: u32) -> Option<(u32, u32)>
        ensures { result ≡ crossing_of self.now left right pred }
    {
        let pred = self.preds.as_slice().get(pred as usize)?;
        let other = equal_item(pred)?;
        self.sides(left, right, pred.left, other)
    }

    fn sides(&self, left: KeyParts, right: KeyParts, a: u32, b: u32) -> Option<(u32, u32)>
        ensures { result ≡ sides_of self.now left right a b }
    {
        if self.group_has_item(left, a) && self.group_has_item(right, b) {
            return Some((a, b));
        }
        if self.group_has_item(left, b) && self.group_has_item(right, a) {
            return Some((b, a));
        }
        None
    }
}

// The item that an equality compares with.
fn equal_item(pred: &Pred) -> Option<u32>
    ensures { result ≡ the_equal_item pred.now.op pred.now.right }
{
    match (pred.op, &pred.right) {
        (CmpOp::Eq, Operand::Item(item)) => Some(*item),
        _ => None,
    }
}
