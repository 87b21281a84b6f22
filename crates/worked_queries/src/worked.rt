//! How a query is made of its text.

ghost use Rattle.query_core.specs.Results.{AreOptions};

use catalog_json::read_catalog;
use query_core::{Options, Query, RootDist};
use sql_bind::bind;
use sql_reader::read_sql;
use std::alloc::Global;
use std::test::Fail;

/// The query of the text over these tables, which are an array as in a catalogue of version 2.
pub fn worked(alloc: Global, tables: &str, text: &str) -> Result<Query, Fail> {
    worked_without(alloc, tables, text, 0)
}

/// The same without the rules that are off.
pub fn worked_without(alloc: Global, tables: &str, text: &str, off: u32) -> Result<Query, Fail>
    requires { AreOptions (record { root = RootDist.One; off = off }) }
{
    let options = Options {
        root: RootDist::One,
        off,
    };
    query_over(alloc, 4, tables, text, options)
}

/// The same on so many segments, with these options.
pub fn query_over(
    alloc: Global,
    segments: u32,
    tables: &str,
    text: &str,
    options: Options,
) -> Result<Query, Fail>
    requires { AreOptions options }
{
    let json = format!(in alloc; "{{\"version\":2,\"segments\":{segments},\"tables\":{tables}}}")?;
    let catalog = read_catalog(alloc, json.as_bytes())?;
    let select = read_sql(alloc, text.as_bytes())?;
    Ok(bind(alloc, &select, &catalog, options)?)
}
