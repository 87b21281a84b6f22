//! Places in a catalogue's JSON value, and their pointers.
ghost use Rattle.std.specs.Prelude.{◌≡◌, ◌++◌, codes, decimal, IfOk, string_bytes};
ghost use Rattle.catalog_json.specs.Place.{in_table, in_column, in_bucket, pointer_of, list_pointer, listed_pointer};

use orca_base::Text;
use std::alloc::{AllocError, Global};

/// A list of column names, in the table with this number.
#[derive(Clone, Copy)]
pub enum NameList {
    Distribution(usize),
    /// The index with the second number.
    Index(usize, usize),
}

/// A part of a catalogue: the first number is the table's, the second the column's, the third the bucket's.
#[derive(Clone, Copy)]
pub enum Place {
    Whole,
    Version,
    Segments,
    Tables,
    Table(usize),
    TableName(usize),
    Rows(usize),
    Columns(usize),
    Column(usize, usize),
    ColumnName(usize, usize),
    Ndv(usize, usize),
    Histogram(usize, usize),
    Low(usize, usize),
    Buckets(usize, usize),
    Bucket(usize, usize, usize),
    Upto(usize, usize, usize),
    BucketRows(usize, usize, usize),
    Indexes(usize),
    NamesOf(NameList),
    /// An element of the list.
    Listed(NameList, usize),
}

fn numbered(alloc: Global, front: &str, i: usize) -> Result<String, AllocError>
    ensures { IfOk result (λ text. string_bytes text ≡ front.now ++ codes "/" ++ decimal i) }
{
    format!(in alloc; "{front}/{i}")
}

fn in_table(alloc: Global, t: usize, rest: &str) -> Result<String, AllocError>
    ensures { IfOk result (λ text. string_bytes text ≡ in_table t rest.now) }
{
    format!(in alloc; "/tables/{t}{rest}")
}

/// The part of table t with a number behind this text.
fn numbered_in_table(alloc: Global, t: usize, list: &str, i: usize) -> Result<String, AllocError>
    ensures { IfOk result (λ text. string_bytes text ≡ in_table t (list.now ++ decimal i)) }
{
    format!(in alloc; "/tables/{t}{list}{i}")
}

fn in_column(alloc: Global, t: usize, c: usize, rest: &str) -> Result<String, AllocError>
    ensures { IfOk result (λ text. string_bytes text ≡ in_column t c rest.now) }
{
    format!(in alloc; "/tables/{t}/columns/{c}{rest}")
}

fn in_bucket(alloc: Global, t: usize, c: usize, b: usize, rest: &str) -> Result<String, AllocError>
    ensures { IfOk result (λ text. string_bytes text ≡ in_bucket t c b rest.now) }
{
    format!(in alloc; "/tables/{t}/columns/{c}/histogram/buckets/{b}{rest}")
}

impl NameList {
    fn pointer(self, alloc: Global) -> Result<String, AllocError>
        ensures { IfOk result (λ text. string_bytes text ≡ list_pointer self) }
    {
        match self {
            NameList::Distribution(t) => in_table(alloc, t, "/distribution"),
            NameList::Index(t, n) => numbered_in_table(alloc, t, "/indexes/", n),
        }
    }

    fn element_pointer(self, alloc: Global, i: usize) -> Result<String, AllocError>
        ensures { IfOk result (λ text. string_bytes text ≡ listed_pointer self i) }
    {
        let list = self.pointer(alloc)?;
        numbered(alloc, list.as_str(), i)
    }
}

impl Place {
    pub fn path(self, alloc: Global) -> Result<Text, AllocError>
        ensures { IfOk result (λ path. path ≡ pointer_of self) }
    {
        Ok(Text::of(self.pointer(alloc)?))
    }

    fn pointer(self, alloc: Global) -> Result<String, AllocError>
        ensures { IfOk result (λ text. string_bytes text ≡ pointer_of self) }
    {
        match self {
            Place::Whole => Ok(String::new(alloc)),
            Place::Version => String::from_str(alloc, "/version"),
            Place::Segments => String::from_str(alloc, "/segments"),
            Place::Tables => String::from_str(alloc, "/tables"),
            Place::Table(t) => numbered(alloc, "/tables", t),
            Place::TableName(t) => in_table(alloc, t, "/name"),
            Place::Rows(t) => in_table(alloc, t, "/rows"),
            Place::Columns(t) => in_table(alloc, t, "/columns"),
            Place::Column(t, c) => numbered_in_table(alloc, t, "/columns/", c),
            Place::ColumnName(t, c) => in_column(alloc, t, c, "/name"),
            Place::Ndv(t, c) => in_column(alloc, t, c, "/ndv"),
            Place::Histogram(t, c) => in_column(alloc, t, c, "/histogram"),
            Place::Low(t, c) => in_column(alloc, t, c, "/histogram/low"),
            Place::Buckets(t, c) => in_column(alloc, t, c, "/histogram/buckets"),
            Place::Bucket(t, c, b) => in_bucket(alloc, t, c, b, ""),
            Place::Upto(t, c, b) => in_bucket(alloc, t, c, b, "/upto"),
            Place::BucketRows(t, c, b) => in_bucket(alloc, t, c, b, "/rows"),
            Place::Indexes(t) => in_table(alloc, t, "/indexes"),
            Place::NamesOf(list) => list.pointer(alloc),
            Place::Listed(list, i) => list.element_pointer(alloc, i),
        }
    }
}
