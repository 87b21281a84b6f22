//! Catalogues that are written and read back.
use crate::catalog_tests::TWO_TABLES;
use crate::version_two_tests::HISTOGRAM;
use catalog_json::{CatalogVersion, read_catalog};
use catalog_text::{can_say, write_catalog};
use std::alloc::Global;
use std::process::Abort;
use std::test::Fail;

const NO_TABLES: &str = "{\"version\":1,\"segments\":1,\"tables\":[]}";

const WITH_INDEXES: &str = "{\"version\":1,\"segments\":4,\"tables\":[\
    {\"name\":\"t\",\"rows\":0,\"distribution\":\"random\",\
    \"columns\":[{\"name\":\"a\",\"ndv\":100},{\"name\":\"b\",\"ndv\":0}],\
    \"indexes\":[[\"b\",\"a\"],[\"a\"]]}]}";

const REPLICATED: &str = "{\"version\":2,\"segments\":4,\"tables\":[\
    {\"name\":\"t\",\"rows\":10,\"distribution\":\"replicated\",\"columns\":[{\"name\":\"a\",\"ndv\":10}],\
    \"indexes\":[[\"a\"]]}]}";

// The least and the greatest numbers.
const WIDE_HISTOGRAM: &str = "{\"version\":2,\"segments\":4,\"tables\":[\
    {\"name\":\"t\",\"rows\":10,\"distribution\":\"random\",\"columns\":[{\"name\":\"a\",\"ndv\":10,\
    \"histogram\":{\"low\":-9223372036854775808,\"buckets\":[{\"upto\":-9223372036854775808,\"rows\":0},\
    {\"upto\":-1,\"rows\":1},{\"upto\":0,\"rows\":2},\
    {\"upto\":9223372036854775807,\"rows\":1000000000000}]}}]}]}";

// What is written in the version of the catalogue that the text says, or no bytes where the version can't say it.
fn rewritten(alloc: Global, text: &str, version: CatalogVersion) -> Result<Vec<u8>, Fail> {
    let catalog = read_catalog(alloc, text.as_bytes())
        .ok()
        .ok_or("the text is a catalogue")?;
    if can_say(version, &catalog) {
        return Ok(write_catalog(alloc, &catalog, version)?);
    }
    Ok(Vec::new(alloc))
}

fn assert_written(
    rt: &impl Abort,
    alloc: Global,
    text: &str,
    version: CatalogVersion,
    wanted: &str,
) -> Result<(), Fail> {
    let written = rewritten(alloc, text, version)?;
    assert!(rt; written.as_slice() == wanted.as_bytes(), "{text}");
    Ok(())
}

#[test]
fn a_catalogue_is_written_as_it_was(rt: HostRuntime) -> Result<(), Fail> {
    for text in &[TWO_TABLES, NO_TABLES, WITH_INDEXES] {
        assert_written(&rt, rt.alloc(), text, CatalogVersion::One, text)?;
    }
    for text in &[HISTOGRAM, REPLICATED, WIDE_HISTOGRAM] {
        assert_written(&rt, rt.alloc(), text, CatalogVersion::Two, text)?;
    }
    Ok(())
}

#[test]
fn version_one_says_no_histogram_and_no_copies(rt: HostRuntime) -> Result<(), Fail> {
    for text in &[HISTOGRAM, REPLICATED, WIDE_HISTOGRAM] {
        assert_written(&rt, rt.alloc(), text, CatalogVersion::One, "")?;
    }
    Ok(())
}

#[test]
fn version_two_says_what_version_one_does(rt: HostRuntime) -> Result<(), Fail> {
    for text in &[TWO_TABLES, NO_TABLES, WITH_INDEXES] {
        let wanted = text.replacen(rt.alloc(), "\"version\":1", "\"version\":2", 1)?;
        assert_written(&rt, rt.alloc(), text, CatalogVersion::Two, &wanted)?;
    }
    Ok(())
}
