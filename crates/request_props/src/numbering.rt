//! Lists without repetition, the shorter ones first, and those of one length by their elements.
#![tactic(auto)]

ghost use Rattle.std.specs.Prelude.{◌≡◌, ◌≤◌, ◌↔◌, ℕ, List, IfOk, length};
ghost use Rattle.request_props.specs.Listing.{list_cmp, listing_of, IsListing};

use orca_base::List;
use std::alloc::AllocError;
use std::cmp::Ordering;

/// The distinct ones of the lists that were found, in order.
pub fn numbered(found: Vec<List<u32>>) -> Result<Vec<List<u32>>, AllocError>
    ensures value { IfOk result (λ lists. lists.items ≡ listing_of found.items) }
    ensures few { IfOk result (λ lists. length lists.items ≤ length found.items) }
{
    let mut lists = found;
    lists.sort_by(|list, other| compare(list.as_slice(), other.as_slice()))?;
    lists.dedup_by(|list, other| compare(list.as_slice(), other.as_slice()).is_eq());
    Ok(lists)
}

/// Of the lists that were found there is one listing.
pub fn listing_is_one()
    ensures { (found lists : List (List ℕ)) → IsListing found lists ↔ (lists ≡ listing_of found) }
{}

fn compare(list: &[u32], other: &[u32]) -> Ordering
    ensures { result ≡ list_cmp list.now other.now }
{
    list.len().cmp(&other.len()).then(list.cmp(&other))
}
