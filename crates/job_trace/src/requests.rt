//! How a request is printed. Each call adds to a text.
#![tactic(auto)]

ghost use Rattle.std.specs.Prelude.{OnOk, string_bytes};
ghost use Rattle.request_props.specs.Numbered.{IsProps};
ghost use Rattle.query_text.specs.Added.{AddsText};
ghost use Rattle.job_trace.specs.Requests as texts;

use query_core::Query;
use query_text::{push_list, push_order};
use request_props::{Dist, Props, Request};
use std::alloc::AllocError;

/// Adds a request.
pub fn push_request(
    query: &Query,
    props: &Props,
    wanted: Request,
    text: &mut String,
) -> Result<(), AllocError>
    requires { IsProps query.now props.now }
    ensures ok { OnOk result (AddsText (string_bytes text.old)
        (texts.request_text query.now wanted) (string_bytes text.new)) }
{
    text.push_str("[")?;
    push_dist(query, props, wanted.dist, text)?;
    push_order_part(query, props, wanted.order, text)?;
    text.push_str("]")
}

fn push_dist(query: &Query, props: &Props, dist: Dist, text: &mut String) -> Result<(), AllocError>
    requires { IsProps query.now props.now }
    ensures ok { OnOk result (AddsText (string_bytes text.old)
        (texts.dist_text query.now dist) (string_bytes text.new)) }
{
    match dist {
        Dist::One => text.push_str("One"),
        Dist::Spread => text.push_str("Spread"),
        Dist::Copies => text.push_str("Copies"),
        Dist::Hashed(list) => {
            text.push_str("Hashed(")?;
            push_list(query, props, list, text)?;
            text.push_str(")")
        }
    }
}

// An order that isn't empty, behind the distribution.
fn push_order_part(
    query: &Query,
    props: &Props,
    order: u32,
    text: &mut String,
) -> Result<(), AllocError>
    requires { IsProps query.now props.now }
    ensures ok { OnOk result (AddsText (string_bytes text.old)
        (texts.order_part query.now order) (string_bytes text.new)) }
{
    match order {
        0 => Ok(()),
        _ => {
            text.push_str("; ")?;
            push_order(query, props, order, text)
        }
    }
}
