//! By which factor a predicate is estimated to reduce rows.
#![tactic(auto)]

ghost use Rattle.std.specs.Prelude.{◌≡◌, ◌≤◌, IsTrue, IfSome, option_map};
ghost use Rattle.std.specs.List.{list_all};
ghost use Rattle.query_core.specs.Histogram.{is_histogram, may_be_histogram};
ghost use Rattle.cardinality.specs.Factor.{factor_of as the_factor_of, equality_divisor as the_equality_divisor};
ghost use Rattle.cardinality.specs.Factor.{values_of as the_values_of};
ghost use Rattle.cardinality.specs.Factor.{factor, histogram_of as the_histogram_of, integer_of as the_integer_of};
ghost use Rattle.cardinality.specs.Factor.{integers_factor as the_integers_factor, range_factor as the_range_factor};
ghost use Rattle.cardinality.specs.Factor.{third};

use crate::histogram::{Range, share_met};
use query_core::{CmpOp, Histogram, Item, Operand, Pred};

/// So many of so many rows are left.
#[derive(Clone, Copy)]
pub struct Factor {
    pub num: u64,
    pub den: u64,
}

/// The factor of a predicate.
pub fn factor_of(items: &[Item], pred: &Pred) -> Factor
    requires { IsTrue (list_all (λ item. may_be_histogram item.histogram) items.now) }
    ensures value { result ≡ the_factor_of items.now pred.now }
    ensures some { 1 ≤ result.den }
    ensures share { result.num ≤ result.den }
{
    let integer = integer_of(&pred.right);
    match pred.op {
        CmpOp::Eq => one_of(equality_divisor(items, pred.left, &pred.right)),
        CmpOp::Ne => one_of(1),
        CmpOp::Lt => range_factor(items, pred.left, integer.map(Range::Below)),
        CmpOp::Le => range_factor(items, pred.left, integer.map(Range::UpTo)),
        CmpOp::Gt => range_factor(items, pred.left, integer.map(Range::Above)),
        CmpOp::Ge => range_factor(items, pred.left, integer.map(Range::From)),
    }
}

/// One row of so many.
fn one_of(den: u64) -> Factor
    requires { 1 ≤ den }
    ensures value { result ≡ factor 1 den }
{
    Factor { num: 1, den }
}

/// What is guessed of a range.
pub fn a_third() -> Factor
    ensures { result ≡ third }
{
    Factor { num: 1, den: 3 }
}

fn integer_of(right: &Operand) -> Option<i64>
    ensures { result ≡ the_integer_of right.now }
{
    match right {
        Operand::Item(_) => None,
        Operand::Int(value) => Some(*value),
        Operand::Str(_) => None,
    }
}

fn range_factor(items: &[Item], left: u32, range: Option<Range>) -> Factor
    requires { IsTrue (list_all (λ item. may_be_histogram item.histogram) items.now) }
    ensures value { result ≡ the_range_factor items.now left range }
    ensures some { 1 ≤ result.den }
    ensures share { result.num ≤ result.den }
{
    match range {
        Some(range) => integers_factor(items, left, range),
        None => a_third(),
    }
}

fn integers_factor(items: &[Item], left: u32, range: Range) -> Factor
    requires { IsTrue (list_all (λ item. may_be_histogram item.histogram) items.now) }
    ensures value { result ≡ the_integers_factor items.now left range }
    ensures some { 1 ≤ result.den }
    ensures share { result.num ≤ result.den }
{
    match histogram_of(items, left) {
        Some(histogram) => share_met(histogram, range),
        None => a_third(),
    }
}

fn histogram_of(items: &[Item], number: u32) -> Option<&Histogram>
    requires { IsTrue (list_all (λ item. may_be_histogram item.histogram) items.now) }
    ensures value { option_map (λ h. h.now) result ≡ the_histogram_of items.now number }
    ensures kept { IfSome result (λ h. IsTrue (is_histogram h.now)) }
{
    match items.get(number as usize) {
        Some(item) => item.histogram.as_ref(),
        None => None,
    }
}

fn equality_divisor(items: &[Item], left: u32, right: &Operand) -> u64
    ensures value { result ≡ the_equality_divisor items.now left right.now }
    ensures some { 1 ≤ result }
{
    match right {
        Operand::Item(right) => values_of(items, left).max(values_of(items, *right)),
        Operand::Int(_) => values_of(items, left),
        Operand::Str(_) => values_of(items, left),
    }
}

/// The distinct values of an item, at least 1.
pub fn values_of(items: &[Item], number: u32) -> u64
    ensures value { result ≡ the_values_of items.now number }
    ensures some { 1 ≤ result }
{
    match items.get(number as usize) {
        Some(item) => item.ndv.max(1),
        None => 1,
    }
}
