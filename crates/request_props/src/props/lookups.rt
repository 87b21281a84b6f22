//! What a query implies, looked up. No call here takes memory.
#![tactic(auto)]

ghost use Rattle.std.specs.Prelude.{◌≡◌, ◌≤◌, ◌<◌, ◌↔◌, IsTrue, None, Some, [], slice_index_or};
ghost use Rattle.query_core.specs.Keys.{IsGroup, IsKey, NamesGroup};
ghost use Rattle.query_core.specs.declared.words.KeyParts.{KeyParts as AnyKeyParts};
ghost use Rattle.cardinality.specs.Rows.{rows_of};
ghost use Rattle.request_props.specs.Candidates.{AreCandidatesOf, ArePhysicalOf, FindsNext};
ghost use Rattle.request_props.specs.JoinSets.{AreSetsAt};
ghost use Rattle.request_props.specs.Numbered.{IsProps, IsList, IsNumbered};
ghost use Rattle.request_props.specs.Numbered.{table_dist as the_table_dist, group_order as the_group_order};
ghost use Rattle.request_props.specs.Numbered.{is_grouped_list as the_is_grouped_list};

use crate::given::GivenDist;
use crate::props::Props;
use crate::tables::groups::is_key;
use crate::tables::join_sets::JoinSets;
use crate::tables::physical::PhysicalCandidate;
use query_core::{Expr, KEYS, Key, KeyParts, Query, bound_after, count_below, groups_are_known};

impl Props {
    /// Whether the key names a group that this query can have.
    pub fn is_key(&self, query: &Query, key: Key) -> bool
        requires { IsProps query.now self.now }
        ensures { IsTrue result ↔ IsKey query.now key }
    {
        is_key(query, self.groups.keys.as_slice(), key)
    }

    /// The same as `Query::next_candidate`, by a look into the words that the group can hold.
    pub fn next_candidate(
        &self,
        query: &Query,
        group: KeyParts,
        after: Option<Expr>,
    ) -> Option<Expr>
        requires props { IsProps query.now self.now }
        requires group { IsGroup query.now group }
        ensures { FindsNext query.now group after result }
    {
        // For the proof: the words of an expression have 64 bits.
        groups_are_known();
        next_among(query, self.candidates_of(query, group), group, after)
    }

    /// The words of the expressions that the group can hold, ascending.
    pub fn candidates_of(&self, query: &Query, group: KeyParts) -> &[u64]
        requires props { IsProps query.now self.now }
        requires group { IsGroup query.now group }
        ensures { AreCandidatesOf query.now group result.now }
    {
        groups_are_known();
        self.groups.candidates.as_slice()[Key::make(group).0 as usize].as_slice()
    }

    /// The physical expressions that the group can hold, ascending by their words, and of each at its place what it can
    /// give, if it is a join.
    #[inline(always)]
    pub fn physical_of(
        &self,
        query: &Query,
        group: KeyParts,
    ) -> (&[PhysicalCandidate], &[Option<JoinSets>])
        requires props { IsProps query.now self.now }
        requires group { IsGroup query.now group }
        ensures candidates { ArePhysicalOf query.now group result.0.now }
        ensures sets { AreSetsAt query.now result.0.now result.1.now }
    {
        groups_are_known();
        let number = Key::make(group).0 as usize;
        (
            self.groups.physical.as_slice()[number].as_slice(),
            self.sets_at(query, number),
        )
    }

    // What the candidates can give of the group whose key has this number.
    #[inline(always)]
    fn sets_at(&self, query: &Query, number: usize) -> &[Option<JoinSets>]
        requires { IsProps query.now self.now }
        ensures { AreSetsAt query.now (slice_index_or self.now.groups.value.physical number [])
            result.now }
    {
        match self.joins.as_slice().get(number) {
            Some(sets) => sets.as_slice(),
            None => &[],
        }
    }

    /// The estimated rows of the group that the key names, where the query has it.
    #[inline(always)]
    pub fn rows(&self, query: &Query, key: Key) -> u64
        requires { IsProps query.now self.now }
        ensures value { (g : AnyKeyParts) → NamesGroup query.now key g → result ≡ rows_of query.now g }
        ensures most { result ≤ 1000000000000 }
    {
        groups_are_known();
        if key.0 < KEYS {
            self.groups.rows.as_slice()[key.0 as usize]
        } else {
            0
        }
    }

    /// The estimated rows of a group.
    #[inline(always)]
    pub fn group_rows(&self, query: &Query, group: KeyParts) -> u64
        requires props { IsProps query.now self.now }
        requires group { IsGroup query.now group }
        ensures value { result ≡ rows_of query.now group }
        ensures most { result ≤ 1000000000000 }
    {
        groups_are_known();
        self.rows(query, Key::make(group))
    }

    /// Where the rows of a table lie.
    pub fn table_dist(&self, query: &Query, table: u32) -> GivenDist
        requires { IsProps query.now self.now }
        ensures { result ≡ the_table_dist query.now table }
    {
        match self.placement.placings.as_slice().get(table as usize) {
            Some(dist) => *dist,
            None => GivenDist::Random,
        }
    }

    /// Whether a hashed list has the number.
    #[inline(always)]
    pub fn has_list(&self, query: &Query, list: u32) -> bool
        requires { IsProps query.now self.now }
        ensures { IsTrue result ↔ IsList query.now list }
    {
        (list as usize) < self.hashed.len()
    }

    /// Whether an order has the number; the empty order has 0.
    #[inline(always)]
    pub fn has_order(&self, query: &Query, order: u32) -> bool
        requires { IsProps query.now self.now }
        ensures { IsTrue result ↔ IsNumbered query.now order }
    {
        order as usize <= self.orders.len()
    }

    /// Whether the list has a number, and all of its columns are in GROUP BY.
    pub fn is_grouped_list(&self, query: &Query, list: u32) -> bool
        requires { IsProps query.now self.now }
        ensures { result ≡ the_is_grouped_list query.now list }
    {
        match self.placement.grouped.as_slice().get(list as usize) {
            Some(grouped) => *grouped,
            None => false,
        }
    }

    /// The number of the order of the GROUP BY columns, each ascending; 0 where there is none.
    pub fn group_order(&self, query: &Query) -> u32
        requires { IsProps query.now self.now }
        ensures { result ≡ the_group_order query.now }
    {
        self.placement.by_groups
    }
}

// The first of the group's words after this one.
fn next_among(query: &Query, words: &[u64], group: KeyParts, after: Option<Expr>) -> Option<Expr>
    requires { AreCandidatesOf query.now group words.now }
    ensures { FindsNext query.now group after result }
{
    let bound = bound_after(after)?;
    match words.get(count_below(words, bound)) {
        Some(word) => Some(Expr(*word)),
        None => None,
    }
}
