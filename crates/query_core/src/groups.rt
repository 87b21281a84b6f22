//! Which groups a query can have, and what they hold. No call here takes memory.
#![tactic(auto)]

ghost use Rattle.std.specs.Prelude.{◌≡◌, ◌<◌, ◌^◌, IsTrue, ◌↔◌, length};
ghost use Rattle.query_core.specs.Connected.{IsConnected, AreLinked};
ghost use Rattle.query_core.specs.Items.{is_column_of as the_is_column_of};
ghost use Rattle.query_core.specs.Keys.{is_own, has_own, lies_in, IsGroup, IsKey, NamesGroup, top_of, input_of};
ghost use Rattle.query_core.specs.Keys.{root_of, group_of_table, is_column_in, is_grouped_by, is_aggregate};
ghost use Rattle.query_core.specs.Keys.{key_number, has_item as the_has_item};

use crate::predicate::{Operand, Pred};
use crate::query::Query;
use crate::words::{Key, KeyParts};
use crate::{connected, sets};

impl Query {
    /// Whether the key names a group that this query can have.
    pub fn is_key(&self, key: Key) -> bool
        ensures { IsTrue result ↔ IsKey self.now key }
    {
        match key.parts() {
            Some(group) => self.has_group(group),
            None => false,
        }
    }

    /// Whether the tables of the set reach each other inside it. Those of the empty set do.
    pub fn connected(&self, mask: u32) -> bool
        ensures { IsTrue result ↔ IsConnected self.now.links mask }
    {
        connected::connected(self.links.as_slice(), mask)
    }

    /// Whether a link joins a table of each set.
    pub fn linked(&self, a: u32, b: u32) -> bool
        ensures { IsTrue result ↔ AreLinked self.now.links a b }
    {
        connected::linked(self.links.as_slice(), a, b)
    }

    /// The key of the whole query's group.
    pub fn root(&self) -> Key
        ensures { NamesGroup self.now result (root_of self.now) }
    {
        if self.grouped {
            return Key::make(KeyParts::Agg);
        }
        Key::make(self.input())
    }

    /// Whether the item is a column of the group. Aggregates are numbered after the items.
    pub fn has_item(&self, key: Key, item: u32) -> bool
        requires { IsKey self.now key }
        ensures { (g : KeyParts) → NamesGroup self.now key g → result ≡ the_has_item self.now g item }
    {
        self.group_has_item(self.group(key), item)
    }

    /// The group that the key names.
    #[inline(always)]
    pub fn group(&self, key: Key) -> KeyParts
        requires { IsKey self.now key }
        ensures named { NamesGroup self.now key result }
        ensures only { (g : KeyParts) → NamesGroup self.now key g → g ≡ result }
    {
        match key.parts() {
            Some(group) => group,
            None => unreachable!(),
        }
    }

    /// The group that joins all tables.
    pub fn input(&self) -> KeyParts
        ensures value { result ≡ input_of self.now }
        ensures known { IsGroup self.now result }
    {
        self.top_group(sets::first(self.tables.len() as u32))
    }

    /// Whether this query can have the group.
    pub fn has_group(&self, group: KeyParts) -> bool
        ensures { IsTrue result ↔ IsGroup self.now group }
    {
        match group {
            KeyParts::Get(table) => self.has_table(table),
            KeyParts::Filter(table) => self.has_table(table) && self.has_own(table),
            KeyParts::Join(set) => self.has_tables(set)
                && sets::several(set)
                && self.connected(set),
            KeyParts::Partial => self.grouped,
            KeyParts::Agg => self.grouped,
        }
    }

    fn has_table(&self, table: u32) -> bool
        ensures { IsTrue result ↔ (table < length self.now.tables) }
    {
        (table as usize) < self.tables.len()
    }

    fn has_tables(&self, set: u32) -> bool
        ensures { IsTrue result ↔ (set < 2 ^ length self.now.tables) }
    {
        set <= sets::first(self.tables.len() as u32)
    }

    /// Whether all columns of some predicate lie in the table.
    pub fn has_own(&self, table: u32) -> bool
        ensures { result ≡ has_own self.now table }
    {
        self.preds
            .as_slice()
            .iter()
            .any(|pred| self.is_own(table, pred))
    }

    fn is_own(&self, table: u32, pred: &Pred) -> bool
        ensures { result ≡ is_own self.now.items table pred.now }
    {
        self.is_column_of(table, pred.left) && self.lies_in(table, &pred.right)
    }

    fn lies_in(&self, table: u32, operand: &Operand) -> bool
        ensures { result ≡ lies_in self.now.items table operand.now }
    {
        match operand {
            Operand::Item(number) => self.is_column_of(table, *number),
            Operand::Int(_) => true,
            Operand::Str(_) => true,
        }
    }

    /// The group that joins the tables of the set.
    pub fn top_group(&self, set: u32) -> KeyParts
        ensures { result ≡ top_of self.now set }
    {
        match sets::only(set) {
            Some(table) => self.table_group(table),
            None => KeyParts::Join(set),
        }
    }

    // The group of one table: where it has own predicates these are applied.
    fn table_group(&self, table: u32) -> KeyParts
        ensures { result ≡ group_of_table self.now table }
    {
        if self.has_own(table) {
            KeyParts::Filter(table)
        } else {
            KeyParts::Get(table)
        }
    }

    /// The same as `has_item`, of a group.
    pub fn group_has_item(&self, group: KeyParts, item: u32) -> bool
        ensures { result ≡ the_has_item self.now group item }
    {
        match group {
            KeyParts::Get(table) => self.is_column_of(table, item),
            KeyParts::Filter(table) => self.is_column_of(table, item),
            KeyParts::Join(set) => self.is_column_in(set, item),
            KeyParts::Partial => self.is_grouped_by(item),
            KeyParts::Agg => self.is_grouped_by(item) || self.is_aggregate(item),
        }
    }

    /// Whether the item is a column of the table.
    pub fn is_column_of(&self, table: u32, item: u32) -> bool
        ensures { result ≡ the_is_column_of self.now.items table item }
    {
        match self.items.as_slice().get(item as usize) {
            Some(column) => column.table == table,
            None => false,
        }
    }

    fn is_column_in(&self, set: u32, item: u32) -> bool
        ensures { result ≡ is_column_in self.now.items set item }
    {
        match self.items.as_slice().get(item as usize) {
            Some(column) => sets::has(set, column.table),
            None => false,
        }
    }

    fn is_grouped_by(&self, item: u32) -> bool
        ensures { result ≡ is_grouped_by self.now item }
    {
        self.group_by
            .as_slice()
            .iter()
            .any(|column| *column == item)
    }

    fn is_aggregate(&self, item: u32) -> bool
        ensures { result ≡ is_aggregate self.now item }
    {
        let number = item as usize;
        self.items.len() <= number && number < self.items.len() + self.aggs.len()
    }
}
