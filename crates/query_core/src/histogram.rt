ghost use Rattle.std.specs.Prelude.{◌≡◌, ◌↔◌, IfOk, IsTrue, int_le, int_lt};
ghost use Rattle.query_core.specs.Histogram.{within, rows_fit, ends_rise, ends_rise_above, is_histogram};
ghost use Rattle.query_core.specs.Histogram.{may_be_histogram};

use orca_base::List;
use std::alloc::{AllocError, Global};

/// The values above those of the bucket before it, or from the least of all, up to its end.
#[derive(Clone, Copy)]
pub struct Bucket {
    /// Its greatest value.
    pub upto: i64,
    /// How many rows have one of its values: 0 to 10^12.
    pub rows: u64,
}

/// How many rows of a table have which numbers in a column.
#[derive(Drop)]
pub struct Histogram {
    /// The least value of the first bucket.
    pub low: i64,
    /// 1 to 64 buckets, each of which ends above the one before it.
    pub buckets: List<Bucket>,
}

impl Histogram {
    pub fn copy(&self, alloc: Global) -> Result<Histogram, AllocError>
        ensures { IfOk result (λ copied. copied ≡ self.now) }
    {
        Ok(Histogram {
            low: self.low,
            buckets: self.buckets.copy(alloc)?,
        })
    }

    /// Whether its limits are kept, and its ends rise.
    pub fn keeps_limits(&self) -> bool
        ensures { result ≡ is_histogram self.now }
    {
        let buckets = self.buckets.as_slice();
        is_within(1, 64, buckets.len() as u64)
            && have_rows_within(buckets)
            && have_rising_ends(self.low, buckets)
    }
}

/// Whether the number is from the least to the most.
pub fn is_within(least: u64, most: u64, n: u64) -> bool
    ensures { result ≡ within least most n }
{
    least <= n && n <= most
}

fn have_rows_within(buckets: &[Bucket]) -> bool
    ensures { result ≡ rows_fit buckets.now }
{
    buckets
        .iter()
        .all(|bucket| bucket.rows <= 1_000_000_000_000)
}

fn have_rising_ends(low: i64, buckets: &[Bucket]) -> bool
    ensures { result ≡ ends_rise low buckets.now }
{
    match buckets.split_first() {
        Some((first, others)) => low <= first.upto && rise_above(first, others),
        None => true,
    }
}

/// Whether each bucket ends above the one before it.
fn rise_above(first: &Bucket, buckets: &[Bucket]) -> bool
    ensures { result ≡ ends_rise_above first.now.upto buckets.now }
{
    let mut before = first;
    let mut rest = buckets;
    while let Some((bucket, others)) = rest.split_first() {
        if bucket.upto <= before.upto {
            return false;
        }
        before = bucket;
        rest = others;
    }
    true
}
