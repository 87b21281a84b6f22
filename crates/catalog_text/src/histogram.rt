//! The text of a histogram.
ghost use Rattle.std.specs.Prelude.{[], ◌∷◌, ◌++◌, Ok, OnOk};
ghost use Rattle.std.specs.List.{All, flat_map};
ghost use Rattle.json.specs.Tree.{json_tokens};
ghost use Rattle.catalog_text.specs.AddsTokens.{AddsTokens};
ghost use Rattle.catalog_text.specs.Signed.{EndFits, NumbersFit};
ghost use Rattle.catalog_text.specs.Text.{bucket_json, histogram_json, list_json};

use json::Writer;
use query_core::{Bucket, Histogram};
use std::alloc::AllocError;

fn write_bucket(out: &mut Writer, bucket: &Bucket) -> Result<(), AllocError>
    ensures added { OnOk result (AddsTokens out.old out.new (json_tokens (bucket_json bucket.now))) }
    ensures fits { OnOk result (EndFits bucket.now) }
{
    out.begin_object()?;
    out.key("upto")?;
    out.i64(bucket.upto)?;
    out.key("rows")?;
    out.u64(bucket.rows)?;
    out.end_object()
}

fn write_each_bucket(out: &mut Writer, buckets: &[Bucket]) -> Result<(), AllocError>
    ensures added { OnOk result
        (AddsTokens out.old out.new (flat_map (λ b. json_tokens (bucket_json b)) buckets.now)) }
    ensures fit { OnOk result (All EndFits buckets.now) }
{
    for bucket in buckets {
        write_bucket(out, bucket)?;
    }
    Ok(())
}

fn write_buckets(out: &mut Writer, buckets: &[Bucket]) -> Result<(), AllocError>
    ensures added { OnOk result
        (AddsTokens out.old out.new (json_tokens (list_json bucket_json buckets.now))) }
    ensures fit { OnOk result (All EndFits buckets.now) }
{
    out.begin_array()?;
    write_each_bucket(out, buckets)?;
    out.end_array()
}

/// Writes a histogram.
pub fn write_histogram(out: &mut Writer, histogram: &Histogram) -> Result<(), AllocError>
    ensures added { OnOk result
        (AddsTokens out.old out.new (json_tokens (histogram_json histogram.now))) }
    ensures fit { OnOk result (NumbersFit histogram.now) }
{
    out.begin_object()?;
    out.key("low")?;
    out.i64(histogram.low)?;
    out.key("buckets")?;
    write_buckets(out, histogram.buckets.as_slice())?;
    out.end_object()
}
