//! Keys as numbers. Nothing else packs or unpacks a key.
#![tactic(auto)]

ghost use Rattle.std.specs.Prelude.{◌≡◌, ◌<◌, ◌^◌, ◌↔◌, IsTrue, MatchOption};
ghost use Rattle.query_core.specs.Keys.{key_number, tables_of, IsGroupInRange};

use crate::sets;
use crate::words::{Key, KeyParts};

/// Keys of groups are numbers below this one.
pub const KEYS: u32 = 2050;

/// Keys of groups of one table are numbers below this one.
pub const ONE_TABLE_KEYS: u32 = 26;

/// Keys of groups of several tables are numbers from this one on, which would be that of no table.
pub const FIRST_SET_KEY: u32 = 1024;

impl Key {
    /// The key of a group.
    #[inline(always)]
    pub fn make(parts: KeyParts) -> Key
        requires { IsGroupInRange parts }
        ensures number { result.0 ≡ key_number parts }
        ensures small { result.0 < KEYS }
    {
        match parts {
            KeyParts::Get(table) => Key(table),
            KeyParts::Filter(table) => Key(16 + table),
            KeyParts::Join(set) => Key(FIRST_SET_KEY + set),
            KeyParts::Partial => Key(2048),
            KeyParts::Agg => Key(2049),
        }
    }

    /// The group that a key names, where it is known to name one.
    #[inline(always)]
    pub fn known_parts(self) -> KeyParts
        ensures { (g : KeyParts) → IsGroupInRange g → key_number g ≡ self.0 → g ≡ result }
    {
        match self.0 {
            0..10 => KeyParts::Get(self.0),
            10..26 => KeyParts::Filter(self.0.saturating_sub(16)),
            26..2048 => KeyParts::Join(self.0.saturating_sub(FIRST_SET_KEY)),
            2048 => KeyParts::Partial,
            _ => KeyParts::Agg,
        }
    }

    /// The group that a key names.
    pub fn parts(self) -> Option<KeyParts>
        ensures { MatchOption result
            ((p : KeyParts) → IsGroupInRange p → key_number p ≡ self.0 → ⊥)
            (λ p. IsGroupInRange p × (key_number p ≡ self.0)) }
    {
        match self.0 {
            0..10 => Some(KeyParts::Get(self.0)),
            16..26 => Some(KeyParts::Filter(self.0 - 16)),
            1024..2048 => Some(KeyParts::Join(self.0 - 1024)),
            2048 => Some(KeyParts::Partial),
            2049 => Some(KeyParts::Agg),
            _ => None,
        }
    }
}

impl KeyParts {
    /// Whether a key can name the group, which needn't be one of a query's.
    pub fn is_in_range(self) -> bool
        ensures { IsTrue result ↔ IsGroupInRange self }
    {
        match self {
            KeyParts::Get(table) => table < 10,
            KeyParts::Filter(table) => table < 10,
            KeyParts::Join(set) => set < 1024,
            KeyParts::Partial => true,
            KeyParts::Agg => true,
        }
    }

    /// The tables that the group joins. A group of GROUP BY joins none.
    pub fn tables(self) -> u32
        requires { IsGroupInRange self }
        ensures { result ≡ tables_of self }
    {
        match self {
            KeyParts::Get(table) => sets::of_one(table),
            KeyParts::Filter(table) => sets::of_one(table),
            KeyParts::Join(set) => set,
            KeyParts::Partial => 0,
            KeyParts::Agg => 0,
        }
    }
}
