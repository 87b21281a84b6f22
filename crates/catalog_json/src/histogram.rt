//! The histogram of a column.
ghost use Rattle.std.specs.Prelude.{◌≡◌, [], map, option_map};
ghost use Rattle.serde_json.specs.View.{view};
ghost use Rattle.catalog_json.specs.Walk.{Yields, each, bucket_at, end_at, goes_above, histogram_at, histogram_by};

use crate::fault::Fault;
use crate::member::{TRILLION, number_at, signed_at, take_list};
use crate::object::Object;
use crate::place::Place;
use crate::version::CatalogVersion;
use orca_base::List;
use query_core::{Bucket, Histogram};
use serde_json::Value;
use std::alloc::Global;

const MOST_BUCKETS: usize = 64;

fn goes_above(low: i64, before: &[Bucket], upto: i64) -> bool
    ensures { result ≡ goes_above low before.now upto }
{
    match before.last() {
        Some(bucket) => bucket.upto < upto,
        None => low <= upto,
    }
}

/// Reads the end of a bucket, after those before it.
fn end_at(value: Option<&Value>, low: i64, before: &[Bucket], place: Place) -> Result<i64, Fault>
    ensures { result ≡ end_at place low before.now (option_map (λ v. view v.now) value.entry) }
{
    let upto = signed_at(value, place)?;
    if goes_above(low, before, upto) {
        Ok(upto)
    } else {
        Err(Fault::Range(place))
    }
}

/// Reads one of the buckets of column `c` of table `t`.
#[tactic(auto, unfolding(crate::specs::Walk::bucket_at))]
fn read_bucket(
    t: usize,
    c: usize,
    low: i64,
    before: &[Bucket],
    value: Value,
) -> Result<Bucket, Fault>
    ensures { result ≡ bucket_at t c low before.now (view value) }
{
    let b = before.len();
    let object = Object::of(value, Place::Bucket(t, c, b))?;
    let upto = end_at(object.get("upto"), low, before, Place::Upto(t, c, b))?;
    let rows = number_at(object.get("rows"), 0, TRILLION, Place::BucketRows(t, c, b))?;
    Ok(Bucket { upto, rows })
}

fn read_each_bucket(
    alloc: Global,
    t: usize,
    c: usize,
    low: i64,
    values: Vec<Value>,
) -> Result<List<Bucket>, Fault>
    ensures { Yields (each (bucket_at t c low) [] (map view values.items)) result }
{
    let mut buckets = List::of(Vec::with_capacity(alloc, values.len())?);
    for value in values {
        let bucket = read_bucket(t, c, low, buckets.as_slice(), value)?;
        buckets.push(bucket)?;
    }
    Ok(buckets)
}

#[tactic(auto, unfolding(crate::specs::Walk::histogram_at))]
fn read_histogram(alloc: Global, t: usize, c: usize, value: Value) -> Result<Histogram, Fault>
    ensures { Yields (histogram_at t c (view value)) result }
{
    let mut object = Object::of(value, Place::Histogram(t, c))?;
    let low = signed_at(object.get("low"), Place::Low(t, c))?;
    let values = take_list(
        object.take("buckets"),
        1,
        MOST_BUCKETS,
        Place::Buckets(t, c),
    )?;
    let buckets = read_each_bucket(alloc, t, c, low, values)?;
    Ok(Histogram { low, buckets })
}

/// Reads the histogram of column `c` of table `t`, where the version can say it.
pub fn read_histogram_by(
    alloc: Global,
    version: CatalogVersion,
    t: usize,
    c: usize,
    value: Option<Value>,
) -> Result<Option<Histogram>, Fault>
    ensures { Yields (histogram_by version t c (option_map view value)) result }
{
    match version {
        CatalogVersion::One => Ok(None),
        CatalogVersion::Two => match value {
            None => Ok(None),
            Some(value) => Ok(Some(read_histogram(alloc, t, c, value)?)),
        },
    }
}
