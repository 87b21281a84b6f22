//! Numbers, names and lists of a catalogue.
ghost use Rattle.std.specs.Prelude.{◌≡◌, ◌≤◌, length, IfOk, option_map, option_and_then, map, string_bytes};
ghost use Rattle.serde_json.specs.Find.{as_array, as_str};
ghost use Rattle.serde_json.specs.View.{view};
ghost use Rattle.query_core.specs.Catalog.{is_catalog_name};
ghost use Rattle.query_core.specs.Histogram.{within};
ghost use Rattle.catalog_json.specs.Walk.{elements, seen};
ghost use Rattle.catalog_json.specs.Walk as spec;

use crate::fault::Fault;
use crate::place::Place;
use orca_base::is_name;
use serde_json::Value;

pub const TRILLION: u64 = 1_000_000_000_000;

const NAME_BYTES: usize = 64;

pub fn whole(value: Option<&Value>) -> Option<u64>
    ensures { result ≡ option_and_then spec.whole (option_map (λ v. view v.now) value.entry) }
{
    value.and_then(Value::as_u64)
}

fn is_within(least: u64, most: u64, n: u64) -> bool
    ensures { result ≡ within least most n }
{
    least <= n && n <= most
}

/// A whole number from -2^63 to 2^63 - 1.
pub fn signed_at(value: Option<&Value>, place: Place) -> Result<i64, Fault>
    ensures { result ≡ spec.signed_at place (option_map (λ v. view v.now) value.entry) }
{
    match value.and_then(Value::as_i64) {
        None => Err(Fault::Shape(place)),
        Some(n) => Ok(n),
    }
}

/// A whole number from `least` to `most`.
pub fn number_at(value: Option<&Value>, least: u64, most: u64, place: Place) -> Result<u64, Fault>
    ensures { result ≡ spec.number_at least most place (option_map (λ v. view v.now) value.entry) }
{
    match whole(value) {
        None => Err(Fault::Shape(place)),
        Some(n) if is_within(least, most, n) => Ok(n),
        Some(_) => Err(Fault::Range(place)),
    }
}

fn is_catalog_name(text: &str) -> bool
    ensures { result ≡ is_catalog_name text.now }
{
    is_name(text) && text.len() <= NAME_BYTES
}

pub fn name_at<'v>(value: Option<&'v Value>, place: Place) -> Result<&'v str, Fault>
    ensures { seen (λ s. s.now) result ≡ spec.name_at place (option_map (λ v. view v.now) value.entry) }
{
    match value.and_then(Value::as_str) {
        Some(text) if is_catalog_name(text) => Ok(text),
        _ => Err(Fault::Shape(place)),
    }
}

fn take_text(value: Option<Value>) -> Option<String>
    ensures { option_map string_bytes result ≡ option_and_then as_str (option_map view value) }
{
    match value {
        Some(Value::String(text)) => Some(text),
        _ => None,
    }
}

/// A name, moved.
pub fn take_name(value: Option<Value>, place: Place) -> Result<String, Fault>
    ensures { seen string_bytes result ≡ spec.name_at place (option_map view value) }
{
    let Some(text) = take_text(value) else {
        return Err(Fault::Shape(place));
    };
    if is_catalog_name(text.as_str()) {
        Ok(text)
    } else {
        Err(Fault::Shape(place))
    }
}

#[tactic(auto, using(crate::proofs::Elements::elements_items_of))]
fn elements<'v>(value: Option<&'v Value>) -> Option<&'v [Value]>
    ensures { option_map (λ vs. map view vs.now) result
        ≡ option_map elements (option_and_then as_array (option_map (λ v. view v.now) value.entry)) }
{
    match value.and_then(Value::as_array) {
        None => None,
        Some(list) => Some(list.as_slice()),
    }
}

/// The elements of an array with `least` to `most` of them.
pub fn list_at<'v>(
    value: Option<&'v Value>,
    least: usize,
    most: usize,
    place: Place,
) -> Result<&'v [Value], Fault>
    ensures read { seen (λ vs. map view vs.now) result
        ≡ spec.list_at least most place (option_map (λ v. view v.now) value.entry) }
    ensures within { IfOk result (λ vs. length vs.now ≤ most) }
{
    match elements(value) {
        None => Err(Fault::Shape(place)),
        Some(list) if is_within(least as u64, most as u64, list.len() as u64) => Ok(list),
        Some(_) => Err(Fault::Range(place)),
    }
}

#[tactic(auto, using(crate::proofs::Elements::elements_items_of))]
fn take_elements(value: Option<Value>) -> Option<Vec<Value>>
    ensures { option_map (λ vs. map view vs.items) result
        ≡ option_map elements (option_and_then as_array (option_map view value)) }
{
    match value {
        Some(Value::Array(list)) => Some(list),
        _ => None,
    }
}

/// The elements of an array with `least` to `most` of them, moved.
pub fn take_list(
    value: Option<Value>,
    least: usize,
    most: usize,
    place: Place,
) -> Result<Vec<Value>, Fault>
    ensures read { seen (λ vs. map view vs.items) result
        ≡ spec.list_at least most place (option_map view value) }
    ensures within { IfOk result (λ vs. length vs.items ≤ most) }
{
    let Some(list) = take_elements(value) else {
        return Err(Fault::Shape(place));
    };
    if is_within(least as u64, most as u64, list.len() as u64) {
        Ok(list)
    } else {
        Err(Fault::Range(place))
    }
}
