//! How a count is printed.
#![tactic(auto)]

ghost use Rattle.std.specs.Prelude.{OnOk, string_bytes};
ghost use Rattle.query_text.specs.Added.{AddsText};
ghost use Rattle.job_trace.specs.Counts.{counted};

use std::alloc::AllocError;

/// Adds a label, and behind it the number.
pub fn push_count(label: &str, count: usize, text: &mut String) -> Result<(), AllocError>
    ensures ok { OnOk result (AddsText (string_bytes text.old)
        (counted label.now count) (string_bytes text.new)) }
{
    text.push_str(label)?;
    write!(text, "{count}")
}
