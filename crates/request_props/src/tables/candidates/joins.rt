//! The words of what a group of several tables can hold.
#![tactic(auto)]

ghost use Rattle.std.specs.Prelude.{◌≡◌, ◌+◌, ◌<◌, [], ◌++◌, IfOk, OnOk};
ghost use Rattle.std.specs.List.{All};
ghost use Rattle.query_core.specs.Keys.{IsGroupInRange, IsGroup};
ghost use Rattle.query_core.specs.Expressions.{word_of, IsJoinNumber, IsPacked};
ghost use Rattle.query_core.specs.Finding.{expr};
ghost use Rattle.request_props.specs.Groups.{AreKeys};
ghost use Rattle.request_props.specs.Candidates.{AreCandidatesOf};
ghost use Rattle.request_props.specs.Joins.{join_word as the_join_word, join_words, words_over, AreBothInRange};

use crate::tables::candidates::sides::{Sides, all_sides};
use orca_base::List;
use query_core::{AFTER_JOINS, Expr, ExprParts, FIRST_JOIN, KeyParts, Logical, Operator, Query};
use std::alloc::{AllocError, Global};

// How many operators stand on two groups.
const JOINS: u32 = AFTER_JOINS - FIRST_JOIN;

/// The words of a group of several tables. Those of one operator over two groups come before those of the next.
pub(crate) fn words_of_joins(
    alloc: Global,
    query: &Query,
    keys: &[bool],
    set: u32,
) -> Result<List<u64>, AllocError>
    requires keys { AreKeys query.now keys.now }
    requires known { IsGroup query.now (KeyParts.Join set) }
    ensures { IfOk result (AreCandidatesOf query.now (KeyParts.Join set)) }
{
    let sides = all_sides(alloc, query, keys, set)?;
    words_by_sides(alloc, set, sides.as_slice())
}

// The word of the join of all tables, and behind it those of the joins over these sides.
fn words_by_sides(alloc: Global, set: u32, sides: &[Sides]) -> Result<List<u64>, AllocError>
    requires small { IsGroupInRange (KeyParts.Join set) }
    requires in_range { All AreBothInRange sides.now }
    ensures { IfOk result (λ words. words ≡ words_over set sides.now) }
{
    let mut words = List::of(Vec::with_capacity(alloc, JOINS as usize * sides.len() + 1)?);
    push_words(&mut words, set, sides)?;
    Ok(words)
}

fn push_words(words: &mut List<u64>, set: u32, sides: &[Sides]) -> Result<(), AllocError>
    requires none { words.old ≡ [] }
    requires small { IsGroupInRange (KeyParts.Join set) }
    requires in_range { All AreBothInRange sides.now }
    ensures { OnOk result (words.new ≡ words_over set sides.now) }
{
    words.push(word(set, Operator::Logical(Logical::NJoin)))?;
    for place in 0..JOINS {
        push_joins(words, set, FIRST_JOIN + place, sides)?;
    }
    Ok(())
}

// Adds the words of the joins by the operator of this number over these sides.
fn push_joins(
    words: &mut List<u64>,
    set: u32,
    number: u32,
    sides: &[Sides],
) -> Result<(), AllocError>
    requires joins { IsJoinNumber number }
    requires small { IsGroupInRange (KeyParts.Join set) }
    requires in_range { All AreBothInRange sides.now }
    ensures { OnOk result (words.new ≡ words.old ++ join_words set number sides.now) }
{
    for place in 0..sides.len() {
        words.push(join_word(set, number, sides[place]))?;
    }
    Ok(())
}

// The word of the join by the operator of this number over the sides.
fn join_word(set: u32, number: u32, sides: Sides) -> u64
    requires joins { IsJoinNumber number }
    requires small { IsGroupInRange (KeyParts.Join set) }
    requires in_range { AreBothInRange sides }
    ensures { result ≡ the_join_word set number sides }
{
    word(set, Operator::on_two(number, sides.left, sides.right))
}

// The word of the set's group and the operator.
fn word(set: u32, operator: Operator) -> u64
    requires { IsPacked (expr (KeyParts.Join set) operator) }
    ensures { result ≡ word_of (expr (KeyParts.Join set) operator) }
{
    let group = KeyParts::Join(set);
    Expr::make(ExprParts { group, operator }).0
}
