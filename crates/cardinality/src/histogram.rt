//! Which share of a histogram's rows lies in a range. No call here takes memory.
#![tactic(auto)]

ghost use Rattle.std.specs.Prelude.{◌≡◌, ◌<◌, ◌≤◌, ◌^◌, ◌+ℤ◌, pos, IsTrue, if◌then◌else◌};
ghost use Rattle.query_core.specs.Histogram.{is_histogram};
ghost use Rattle.cardinality.specs.Factor.{all_rows as the_all_rows, has_some, rows_met, share_met as the_share_met};
ghost use Rattle.cardinality.specs.Factor.{third};

use crate::factor::{Factor, a_third};
use query_core::{Bucket, Histogram};

/// The integers below a value, up to it, above it, or from it on.
#[derive(Clone, Copy)]
pub enum Range {
    Below(i64),
    UpTo(i64),
    Above(i64),
    From(i64),
}

/// The share of a histogram's rows that lies in buckets with a value of the range.
pub fn share_met(histogram: &Histogram, range: Range) -> Factor
    requires { IsTrue (is_histogram histogram.now) }
    ensures value { result ≡ the_share_met range histogram.now }
    ensures some { 1 ≤ result.den }
    ensures share { result.num ≤ result.den }
{
    let buckets = histogram.buckets.as_slice();
    let all = all_rows(buckets);
    if all == 0 {
        return a_third();
    }
    Factor {
        num: rows_from(range, histogram.low, buckets),
        den: all,
    }
}

fn all_rows(buckets: &[Bucket]) -> u64
    requires { the_all_rows buckets.now < 2 ^ 64 }
    ensures { result ≡ the_all_rows buckets.now }
{
    buckets.iter().map(|bucket| bucket.rows).sum()
}

/// The rows of the buckets with a value of the range, where the first one begins at `low`.
fn rows_from(range: Range, low: i64, buckets: &[Bucket]) -> u64
    requires { the_all_rows buckets.now < 2 ^ 64 }
    ensures { result ≡ rows_met range low buckets.now }
{
    match buckets.split_first() {
        Some((first, others)) => {
            rows_if(meets_first(range, low, first), first) + rows_above(range, first, others)
        }
        None => 0,
    }
}

/// The same of the buckets above one.
fn rows_above(range: Range, first: &Bucket, buckets: &[Bucket]) -> u64
    requires { the_all_rows buckets.now < 2 ^ 64 }
    ensures { result ≡ rows_met range (first.now.upto +ℤ pos 1) buckets.now }
{
    let mut rows = 0;
    let mut before = first;
    let mut rest = buckets;
    while let Some((bucket, others)) = rest.split_first() {
        rows += rows_if(meets_above(range, before, bucket), bucket);
        before = bucket;
        rest = others;
    }
    rows
}

fn rows_if(met: bool, bucket: &Bucket) -> u64
    ensures { result ≡ (if met then bucket.now.rows else 0) }
{
    if met { bucket.rows } else { 0 }
}

/// Whether the bucket that begins at `low` has a value of the range.
fn meets_first(range: Range, low: i64, bucket: &Bucket) -> bool
    ensures { result ≡ has_some range low bucket.now.upto }
{
    match range {
        Range::Below(value) => low < value,
        Range::UpTo(value) => low <= value,
        Range::Above(value) => value < bucket.upto,
        Range::From(value) => value <= bucket.upto,
    }
}

/// Whether the bucket above another has a value of the range.
fn meets_above(range: Range, before: &Bucket, bucket: &Bucket) -> bool
    ensures { result ≡ has_some range (before.now.upto +ℤ pos 1) bucket.now.upto }
{
    match range {
        // What ends below the value may end next to it, and what begins there has nothing below it.
        Range::Below(value) => before.upto < value && before.upto + 1 < value,
        Range::UpTo(value) => before.upto < value,
        Range::Above(value) => value < bucket.upto,
        Range::From(value) => value <= bucket.upto,
    }
}
