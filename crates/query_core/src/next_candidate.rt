//! The next expression that a group can hold, in the order of words. No call here takes memory.
#![tactic(auto, using(crate::proofs::Least::packing))]

ghost use Rattle.std.specs.Prelude.{◌≡◌, ℕ, ◌+◌, ◌<◌, ◌≤◌, ◌^◌, ◌↔◌, MatchOption};
ghost use Rattle.query_core.specs.declared.expressions.ExprParts.{ExprParts};
ghost use Rattle.query_core.specs.declared.words.KeyParts.{KeyParts};
ghost use Rattle.query_core.specs.Keys.{IsGroupInRange, IsGroup, IsKey, NamesGroup};
ghost use Rattle.query_core.specs.Expressions.{word_of, table_in as the_table_in, AreInRange, IsPacked};
ghost use Rattle.query_core.specs.Candidates.{IsAfter, IsNext, IsLast};
ghost use Rattle.query_core.specs.Finding.{expr, index_count as the_index_count, sooner_of};
ghost use Rattle.query_core.specs.Finding.{operator_number, index_of, left_of};
ghost use Rattle.query_core.specs.Finding.{FindsFrom, IsAt, IsHeldBy, IsJoined, IsMadeOf, IsOver};

use crate::expressions::{Children, ExprParts, Fields, OPERATORS, Operator};
use crate::holding::table_in;
use crate::query::Query;
use crate::words::{Expr, Key, KeyParts};

impl Query {
    /// The expression of the next word after this one, or of the first word, that a group can hold.
    pub fn next_candidate(&self, key: Key, after: Option<Expr>) -> Option<Expr>
        requires { IsKey self.now key }
        ensures { (g : KeyParts) → NamesGroup self.now key g →
            MatchOption result (IsLast self.now g after) (λ next. IsNext self.now g after next.0) }
    {
        self.next_in(self.group(key), bound_after(after)?)
    }

    // The next word of the group, over all children that its operators can have.
    fn next_in(&self, group: KeyParts, bound: u64) -> Option<Expr>
        requires { IsGroup self.now group }
        ensures { FindsFrom (IsHeldBy self.now group) bound result }
    {
        match group {
            KeyParts::Get(_) => self.next_over(group, Children::Zero, bound),
            KeyParts::Filter(table) => {
                let alone = self.next_over(group, Children::Zero, bound);
                let under = Children::One(KeyParts::Get(table));
                sooner(alone, self.next_over(group, under, bound))
            }
            KeyParts::Join(set) => {
                let alone = self.next_over(group, Children::Zero, bound);
                sooner(alone, self.next_join(set, bound))
            }
            KeyParts::Partial => self.next_over(group, Children::One(self.input()), bound),
            KeyParts::Agg => {
                let whole = self.next_over(group, Children::One(self.input()), bound);
                let parts = Children::One(KeyParts::Partial);
                sooner(whole, self.next_over(group, parts, bound))
            }
        }
    }

    // The next word of a set of tables over two sides.
    fn next_join(&self, set: u32, bound: u64) -> Option<Expr>
        requires { IsGroup self.now (KeyParts.Join set) }
        ensures { FindsFrom (IsJoined self.now set) bound result }
    {
        let mut next = None;
        for left in 0..2049 {
            next = sooner(next, self.join_from(set, left, bound));
        }
        next
    }

    // The same where the left side has this number in the word.
    fn join_from(&self, set: u32, left: u32, bound: u64) -> Option<Expr>
        requires { IsGroup self.now (KeyParts.Join set) }
        ensures { FindsFrom (IsAt (IsJoined self.now set) left_of left) bound result }
    {
        let a = self.left_side(left)?;
        let b = self.right_side(set, a)?;
        let sides = Children::Two(self.top_group(a), self.top_group(b));
        self.next_over(KeyParts::Join(set), sides, bound)
    }

    // The next word of the group over these children: by the least number of an operator.
    fn next_over(&self, group: KeyParts, children: Children, bound: u64) -> Option<Expr>
        requires known { IsGroup self.now group }
        requires in_range { AreInRange children }
        ensures { FindsFrom (IsOver self.now group children) bound result }
    {
        for number in first_number(group, bound)..OPERATORS as u64 {
            if let Some(next) = self.next_numbered(group, children, number as u32, bound) {
                return Some(next);
            }
        }
        None
    }

    // The same by the operator of this number: by the least index.
    fn next_numbered(
        &self,
        group: KeyParts,
        children: Children,
        number: u32,
        bound: u64,
    ) -> Option<Expr>
        requires known { IsGroup self.now group }
        requires in_range { AreInRange children }
        ensures { FindsFrom (IsAt (IsOver self.now group children) operator_number number) bound result }
    {
        for index in 0..self.index_limit(table_in(group)) {
            let fields = Fields::new(number, index as u32, children);
            if let Some(next) = self.next_made(group, fields, bound) {
                return Some(next);
            }
        }
        None
    }

    // The word of the operator of these fields, where the group can have it and it isn't below the bound.
    fn next_made(&self, group: KeyParts, fields: Fields, bound: u64) -> Option<Expr>
        requires known { IsGroup self.now group }
        requires index { fields.index < 32 }
        requires in_range { AreInRange fields.children }
        ensures { FindsFrom (IsMadeOf self.now group fields) bound result }
    {
        let operator = Operator::of(fields)?;
        if self.has_shape(group, operator) {
            word_from(bound, group, operator)
        } else {
            None
        }
    }

    // The indexes by which an operator may read the table are below this number; so is 0, where it reads none.
    fn index_limit(&self, table: u32) -> usize
        ensures all { the_index_count self.now table ≤ result }
        ensures some { 0 < result }
        ensures few { result ≤ 16 }
    {
        let count = self.index_count(table);
        if count == 0 { 1 } else { count }
    }

    // How many indexes the table has.
    pub(crate) fn index_count(&self, table: u32) -> usize
        ensures { result ≡ the_index_count self.now table }
    {
        match self.tables.as_slice().get(table as usize) {
            Some(found) => found.indexes.len(),
            None => 0,
        }
    }
}

// The number of the first operator with which a word of the group may not be below the bound.
fn first_number(group: KeyParts, bound: u64) -> u64
    requires { IsGroupInRange group }
    ensures { (e : ExprParts) → IsPacked e → e.group ≡ group → operator_number e < result →
        word_of e < bound }
{
    let first = (Key::make(group).0 as u64) << 36;
    bound.saturating_sub(first) >> 31
}

// The expression, if its word isn't below the bound.
fn word_from(bound: u64, group: KeyParts, operator: Operator) -> Option<Expr>
    requires { IsPacked (expr group operator) }
    ensures { FindsFrom (λ e. e ≡ expr group operator) bound result }
{
    let word = Expr::make(ExprParts { group, operator });
    if bound <= word.0 { Some(word) } else { None }
}

// The one of the two whose word is less, if both are there.
fn sooner(a: Option<Expr>, b: Option<Expr>) -> Option<Expr>
    ensures { result ≡ sooner_of a b }
{
    match (a, b) {
        (Some(first), Some(second)) if second.0 < first.0 => b,
        (Some(_), _) => a,
        (None, _) => b,
    }
}

/// The least word after this one, if a word of 64 bits comes after it.
pub fn bound_after(before: Option<Expr>) -> Option<u64>
    ensures { MatchOption result
        ((w : ℕ) → w < 2 ^ 64 → IsAfter before w → ⊥)
        (λ bound. (w : ℕ) → (bound ≤ w) ↔ IsAfter before w) }
{
    match before {
        Some(word) => word.0.checked_add(1),
        None => Some(0),
    }
}
