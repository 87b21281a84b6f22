//! How a set of tables falls into two that a join can have as its sides.
#![tactic(auto)]

ghost use Rattle.std.specs.Prelude.{◌≡◌, ℕ, ◌+◌, ◌-◌, ◌^◌, ◌<◌, ◌↔◌, IsTrue, MatchOption, bit_or};
ghost use Rattle.query_core.specs.declared.query.Query.{Query};
ghost use Rattle.query_core.specs.declared.words.KeyParts.{KeyParts};
ghost use Rattle.query_core.specs.Sets.{Has};
ghost use Rattle.query_core.specs.Connected.{IsConnected, AreLinked};
ghost use Rattle.query_core.specs.Keys.{key_number, top_of, tables_of, IsGroupInRange, IsGroup};
ghost use Rattle.query_core.specs.Expressions.{FallsInto};

use crate::query::Query;
use crate::sets;
use crate::words::{Key, KeyParts};

impl Query {
    /// The tables whose group has this number as a left child.
    pub(crate) fn left_side(&self, number: u32) -> Option<u32>
        ensures { MatchOption result
            ((a : ℕ) → IsGroupInRange (KeyParts.Join a) → 0 < a →
            key_number (top_of self.now a) + 1 ≡ number → ⊥)
            (λ a. IsGroupInRange (KeyParts.Join a) × (key_number (top_of self.now a) + 1 ≡ number)) }
    {
        if number == 0 {
            return None;
        }
        let group = Key(number - 1).parts()?;
        let set = group.tables();
        if self.top_group(set) == group {
            Some(set)
        } else {
            None
        }
    }

    /// The other side, where the set falls into these tables and others.
    pub(crate) fn right_side(&self, set: u32, left: u32) -> Option<u32>
        ensures { MatchOption result
            ((b : ℕ) → FallsInto self.now set left b → ⊥)
            (λ b. FallsInto self.now set left b) }
    {
        let right = sets::difference(set, left);
        if sets::union(left, right) == set && self.is_side(left) && self.is_side(right) {
            Some(right)
        } else {
            None
        }
    }

    fn is_side(&self, set: u32) -> bool
        ensures { IsTrue result ↔ ((0 < set) × IsConnected self.now.links set) }
    {
        set != 0 && self.connected(set)
    }
}

/// How the two sides of joins go into one another.
pub fn sides_are_known()
    ensures turned { (q : Query) (set a b : ℕ) → FallsInto q set a b → FallsInto q set b a }

    // The second of three sets may go from the first to the third.
    ensures inner { (q : Query) (set left a b c : ℕ) → FallsInto q set left c →
        FallsInto q left a b → AreLinked q.links b c → FallsInto q (bit_or b c) b c }
    ensures outer { (q : Query) (set left a b c : ℕ) → FallsInto q set left c →
        FallsInto q left a b → AreLinked q.links b c → FallsInto q set a (bit_or b c) }

    // The tables of a join are one of them and the others, where these are connected.
    ensures cut { (q : Query) (set t : ℕ) → IsGroup q (KeyParts.Join set) → Has set t →
        IsConnected q.links (set - 2 ^ t) → FallsInto q set (set - 2 ^ t) (2 ^ t) }

    ensures tables { (q : Query) (set : ℕ) → tables_of (top_of q set) ≡ set }
{}
