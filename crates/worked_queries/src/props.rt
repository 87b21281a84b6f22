//! What a query implies, for tests.

ghost use Rattle.std.specs.Prelude.{IfOk};
ghost use Rattle.request_props.specs.Numbered.{IsProps};

use query_core::Query;
use request_props::Props;
use std::alloc::Global;
use std::test::Fail;

/// The query and what it implies, in boxes: a test that ends drops two values, and not two dozen lists.
pub fn implied(alloc: Global, query: Query) -> Result<(Box<Query>, Box<Props>), Fail>
    ensures { IfOk result (λ made. IsProps made.0.value made.1.value) }
{
    let query = Box::new(alloc, query)?;
    let props = props_of(alloc, &query)?;
    Ok((query, props))
}

/// What the query implies, in a box: a test that ends drops one value, and not a dozen lists.
pub fn props_of(alloc: Global, query: &Query) -> Result<Box<Props>, Fail>
    ensures { IfOk result (λ props. IsProps query.now props.value) }
{
    let props = Props::collect(alloc, query)?;
    Ok(Box::new(alloc, props)?)
}
