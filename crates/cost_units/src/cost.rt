//! The table of costs. A cost is a number of rows handled on the busiest segment, at most 10^15.
#![tactic(auto)]

ghost use Rattle.std.specs.Prelude.{ℕ, ◌≡◌, ◌≤◌, ◌<◌, ◌^◌};
ghost use Rattle.cost_units.specs.declared.shape.CostShape.{CostShape};
ghost use Rattle.cost_units.specs.Cost.{IsBounded, HasDigits, bits, most_cost, work as the_work};
ghost use Rattle.cost_units.specs.Cost.{local_cost, share as the_share};

use crate::shape::{Class, CostShape};

/// The most that a node is said to cost.
const MOST_COST: u64 = 1_000_000_000_000_000;

/// How many of the rows the busiest segment has.
pub fn share(n: u64, class: Class, segments: u64) -> u64
    requires { 1 ≤ segments }
    ensures value { result ≡ the_share n class segments }
    ensures most { result ≤ n }
{
    match class {
        Class::Spread => n.div_ceil(segments),
        Class::One => n,
        Class::Copies => n,
    }
}

/// The cost of one node.
#[tactic(auto, unfolding(crate::specs::Cost::local_cost))]
pub fn local(shape: CostShape) -> u64
    requires { IsBounded shape }
    ensures value { result ≡ local_cost shape }
    ensures some { 1 ≤ result }
    ensures most { result ≤ most_cost }
{
    (work(shape) + 1).min(MOST_COST as u128) as u64
}

/// A number's bits are the binary digits that it needs.
pub fn bits_are_digits()
    ensures { (n : ℕ) → n < 2 ^ 64 → HasDigits n (bits n) }
{}

// The rows that a node handles.
fn work(shape: CostShape) -> u128
    requires { IsBounded shape }
    ensures value { result ≡ the_work shape }
    ensures most { result ≤ 10 ^ 24 }
{
    match shape {
        CostShape::Scan(rows) => rows as u128,
        CostShape::IndexScan(rows) => 2 * rows as u128,
        CostShape::IndexSeek(out) => 3 * out as u128,
        CostShape::Filter(rows) => rows as u128,
        CostShape::HashJoin(left, right, out) => { left as u128 + 2 * right as u128 + out as u128 }
        CostShape::MergeJoin(left, right, out) => left as u128 + right as u128 + out as u128,
        CostShape::LoopJoin(left, right) => left as u128 * right as u128,
        CostShape::HashAgg(rows, out) => 2 * rows as u128 + out as u128,
        CostShape::StreamAgg(rows) => rows as u128,
        CostShape::PartialAgg(rows) => 2 * rows as u128,
        CostShape::Sort(rows) => rows as u128 * digits(rows) as u128,
        CostShape::Gather(rows) => 2 * rows as u128,
        CostShape::GatherMerge(rows) => 3 * rows as u128,
        CostShape::Redistribute(rows) => 4 * rows as u128,
        CostShape::Broadcast(rows) => 4 * rows as u128,
    }
}

// How many binary digits the number has.
fn digits(number: u64) -> u64
    ensures value { result ≡ bits number }
    ensures most { result ≤ 64 }
{
    (u64::BITS - number.leading_zeros()) as u64
}
