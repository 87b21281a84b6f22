//! The versions of the text of catalogues.

/// A version of the text of catalogues. The second can say that all rows of a table lie on each segment, and which
/// numbers a column has.
#[derive(Clone, Copy)]
pub enum CatalogVersion {
    One,
    Two,
}
