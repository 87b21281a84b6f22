//! What the children of a goal are looked for in.
use query_core::Query;
use request_props::Props;

/// The members that are listed of a query's groups, by their words, ascending.
#[derive(Clone, Copy)]
pub struct Memo<'a> {
    pub query: &'a Query,
    pub props: &'a Props,
    pub members: &'a [u64],
}
